//! Parsing edit patterns.

ghost use Rattle.std.specs.Prelude.{◌≡◌, ◌<◌, IfOk, IfSome, None};
ghost use Rattle.ctt_problem.specs.Problem.{number_in};
ghost use Rattle.ctt_script.specs.Amounts.{number_below};
ghost use Rattle.ctt_script.specs.JournalWords.{word, parses, IsRead};
ghost use Rattle.ctt_script.specs.Calls.{any_or, room_choice, slot_after, slot_choice, pattern_after, pattern_form, any_slot, anywhere_after, anywhere_form};
ghost use Rattle.ctt_script.specs.declared.kinds.PatternKind.TheVariants as pattern;
ghost use Rattle.ctt_script.specs.declared.kinds.SlotPatternKind.TheVariants as to_any;

use crate::amounts::number_below;
use crate::journal_fault::JournalFault;
use crate::kinds::{PatternKind, SlotPatternKind, is_word};
use crate::single_words::{
    read_course, read_label, read_number_below, read_pattern_kind, read_slot,
    read_slot_pattern_kind, read_word,
};
use ctt_edits::{Pattern, SlotPattern};
use ctt_text::{Instance, Reader, RoomNo, SlotNo};

/// Returns the room that a word names, or `Some(None)` for `*`, which stands for any room.
fn room_or_any(instance: &Instance, word: &str) -> Option<Option<RoomNo>>
    ensures { result ≡ any_or (number_in instance.now.room_names) word.now }
{
    if is_word(word, "*") {
        Some(None)
    } else {
        Some(Some(instance.find_room(word)?))
    }
}

/// Parses the name of a room, or `*` for any.
#[tactic(auto, using(crate::proofs::Steps::read_word), unfolding(crate::specs::Calls::room_choice))]
fn read_room_choice(
    reader: &mut Reader,
    instance: &Instance,
) -> Result<Option<RoomNo>, JournalFault>
    ensures { IsRead (λ room. (room, reader.new)) result
        (parses (room_choice instance.now) reader.old) }
{
    let at = reader.next();
    let word = read_word(reader)?;
    room_or_any(instance, word).ok_or(JournalFault::BadWord(at))
}

/// Returns the number less than `limit` that a word gives, or `Some(None)` for `*`.
fn below_or_any(word: &str, limit: u16) -> Option<Option<u16>>
    ensures number { result ≡ any_or (number_below limit) word.now }
    ensures small { IfSome result (λ number. IfSome number (λ n. n < limit)) }
{
    if is_word(word, "*") {
        Some(None)
    } else {
        Some(Some(number_below(word.as_bytes(), limit)?))
    }
}

/// Parses a number less than `limit`, or `*` for any.
#[tactic(auto, using(crate::proofs::Steps::read_word))]
fn read_below_or_any(reader: &mut Reader, limit: u16) -> Result<Option<u16>, JournalFault>
    ensures limit { IfOk result (λ number. IfSome number (λ n. n < limit)) }
    ensures exact { IsRead (λ number. (number, reader.new)) result
        (parses (word (any_or (number_below limit)) None) reader.old) }
{
    let at = reader.next();
    let word = read_word(reader)?;
    below_or_any(word, limit).ok_or(JournalFault::BadWord(at))
}

/// Parses what follows the day of a slot: its period or, if the day was `*`, a second `*`.
#[tactic(auto, using(crate::proofs::Steps::row), unfolding(crate::specs::Calls::slot_after))]
fn read_slot_after(
    reader: &mut Reader,
    instance: &Instance,
    day: Option<u16>,
) -> Result<Option<SlotNo>, JournalFault>
    requires { IfSome day (λ d. d < instance.now.days) }
    ensures { IsRead (λ slot. (slot, reader.new)) result
        (parses (slot_after instance.now day) reader.old) }
{
    match day {
        None => {
            read_label(reader, "*")?;
            Ok(None)
        }
        Some(day) => {
            let period = read_number_below(reader, instance.periods())?;
            Ok(Some(instance.slot_of(day, period)))
        }
    }
}

/// Parses a day and a period as their slot, or `* *` for any slot.
#[tactic(auto, using(crate::proofs::Steps::read_bind), unfolding(crate::specs::Calls::slot_choice))]
fn read_slot_choice(
    reader: &mut Reader,
    instance: &Instance,
) -> Result<Option<SlotNo>, JournalFault>
    ensures { IsRead (λ slot. (slot, reader.new)) result
        (parses (slot_choice instance.now) reader.old) }
{
    let day = read_below_or_any(reader, instance.days())?;
    read_slot_after(reader, instance, day)
}

/// Parses what follows `place`: a course, a room or `*`, and a slot or `* *`.
#[tactic(auto, using(crate::proofs::Steps::row), unfolding(crate::specs::Calls::pattern_after))]
fn read_place(reader: &mut Reader, instance: &Instance) -> Result<Pattern, JournalFault>
    ensures { IsRead (λ pattern. (pattern, reader.new)) result
        (parses (pattern_after instance.now pattern.Place) reader.old) }
{
    let course = read_course(reader, instance)?;
    let room = read_room_choice(reader, instance)?;
    let slot = read_slot_choice(reader, instance)?;
    Ok(Pattern::Place(course, slot, room))
}

/// Parses what follows `move`: a course, its slot, a room or `*`, and a target slot or `* *`.
#[tactic(auto, using(crate::proofs::Steps::row), unfolding(crate::specs::Calls::pattern_after))]
fn read_move(reader: &mut Reader, instance: &Instance) -> Result<Pattern, JournalFault>
    ensures { IsRead (λ pattern. (pattern, reader.new)) result
        (parses (pattern_after instance.now pattern.Move) reader.old) }
{
    let course = read_course(reader, instance)?;
    let slot = read_slot(reader, instance)?;
    let room = read_room_choice(reader, instance)?;
    let target = read_slot_choice(reader, instance)?;
    Ok(Pattern::Move(course, slot, target, room))
}

/// Parses what follows `swap`: a course, its slot, and `* * *` for any other lecture.
#[tactic(auto, using(crate::proofs::Steps::row), unfolding(crate::specs::Calls::pattern_after))]
fn read_swap(reader: &mut Reader, instance: &Instance) -> Result<Pattern, JournalFault>
    ensures { IsRead (λ pattern. (pattern, reader.new)) result
        (parses (pattern_after instance.now pattern.Swap) reader.old) }
{
    let course = read_course(reader, instance)?;
    let slot = read_slot(reader, instance)?;
    read_label(reader, "*")?;
    read_label(reader, "*")?;
    read_label(reader, "*")?;
    Ok(Pattern::Swap(course, slot))
}

/// Parses what follows `reroom`: a course, a room or `*`, and a slot.
#[tactic(auto, using(crate::proofs::Steps::row), unfolding(crate::specs::Calls::pattern_after))]
fn read_reroom(reader: &mut Reader, instance: &Instance) -> Result<Pattern, JournalFault>
    ensures { IsRead (λ pattern. (pattern, reader.new)) result
        (parses (pattern_after instance.now pattern.Reroom) reader.old) }
{
    let course = read_course(reader, instance)?;
    let room = read_room_choice(reader, instance)?;
    let slot = read_slot(reader, instance)?;
    Ok(Pattern::Reroom(course, slot, room))
}

/// Parses what follows the keyword of an edit pattern.
fn read_pattern_after(
    reader: &mut Reader,
    instance: &Instance,
    kind: PatternKind,
) -> Result<Pattern, JournalFault>
    ensures { IsRead (λ pattern. (pattern, reader.new)) result
        (parses (pattern_after instance.now kind) reader.old) }
{
    match kind {
        PatternKind::Place => read_place(reader, instance),
        PatternKind::Move => read_move(reader, instance),
        PatternKind::Swap => read_swap(reader, instance),
        PatternKind::Reroom => read_reroom(reader, instance),
    }
}

/// Parses an edit pattern.
#[tactic(auto, using(crate::proofs::Steps::row), unfolding(crate::specs::Calls::pattern_form))]
pub(crate) fn read_pattern(
    reader: &mut Reader,
    instance: &Instance,
) -> Result<Pattern, JournalFault>
    ensures { IsRead (λ pattern. (pattern, reader.new)) result
        (parses (pattern_form instance.now) reader.old) }
{
    let kind = read_pattern_kind(reader)?;
    read_pattern_after(reader, instance, kind)
}

/// Parses `* *`, which stands for any slot.
#[tactic(auto, using(crate::proofs::Steps::read_bind), unfolding(crate::specs::Calls::any_slot))]
fn read_any_slot(reader: &mut Reader) -> Result<(), JournalFault>
    ensures { IsRead (λ _. (tt, reader.new)) result (parses any_slot reader.old) }
{
    read_label(reader, "*")?;
    read_label(reader, "*")
}

/// Parses what follows `place` in a pattern to any slot: a course, a room or `*`, and `* *`.
#[tactic(auto, using(crate::proofs::Steps::row), unfolding(crate::specs::Calls::anywhere_after))]
fn read_place_anywhere(
    reader: &mut Reader,
    instance: &Instance,
) -> Result<SlotPattern, JournalFault>
    ensures { IsRead (λ pattern. (pattern, reader.new)) result
        (parses (anywhere_after instance.now to_any.Place) reader.old) }
{
    let course = read_course(reader, instance)?;
    let room = read_room_choice(reader, instance)?;
    read_any_slot(reader)?;
    Ok(SlotPattern::Place(course, room))
}

/// Parses what follows `move` in a pattern to any slot: a course, its slot, a room or `*`, and
/// `* *`.
#[tactic(auto, using(crate::proofs::Steps::row), unfolding(crate::specs::Calls::anywhere_after))]
fn read_move_anywhere(reader: &mut Reader, instance: &Instance) -> Result<SlotPattern, JournalFault>
    ensures { IsRead (λ pattern. (pattern, reader.new)) result
        (parses (anywhere_after instance.now to_any.Move) reader.old) }
{
    let course = read_course(reader, instance)?;
    let slot = read_slot(reader, instance)?;
    let room = read_room_choice(reader, instance)?;
    read_any_slot(reader)?;
    Ok(SlotPattern::Move(course, slot, room))
}

/// Parses what follows `swap` in a pattern to any slot: a course, its slot, and `* * *`.
#[tactic(auto, using(crate::proofs::Steps::row), unfolding(crate::specs::Calls::anywhere_after))]
fn read_swap_anywhere(reader: &mut Reader, instance: &Instance) -> Result<SlotPattern, JournalFault>
    ensures { IsRead (λ pattern. (pattern, reader.new)) result
        (parses (anywhere_after instance.now to_any.Swap) reader.old) }
{
    let course = read_course(reader, instance)?;
    let slot = read_slot(reader, instance)?;
    read_label(reader, "*")?;
    read_any_slot(reader)?;
    Ok(SlotPattern::Swap(course, slot))
}

/// Parses what follows the keyword of a pattern to any slot.
fn read_slot_pattern_after(
    reader: &mut Reader,
    instance: &Instance,
    kind: SlotPatternKind,
) -> Result<SlotPattern, JournalFault>
    ensures { IsRead (λ pattern. (pattern, reader.new)) result
        (parses (anywhere_after instance.now kind) reader.old) }
{
    match kind {
        SlotPatternKind::Place => read_place_anywhere(reader, instance),
        SlotPatternKind::Move => read_move_anywhere(reader, instance),
        SlotPatternKind::Swap => read_swap_anywhere(reader, instance),
    }
}

/// Parses an edit pattern that leads to any slot.
#[tactic(auto, using(crate::proofs::Steps::row), unfolding(crate::specs::Calls::anywhere_form))]
pub(crate) fn read_slot_pattern(
    reader: &mut Reader,
    instance: &Instance,
) -> Result<SlotPattern, JournalFault>
    ensures { IsRead (λ pattern. (pattern, reader.new)) result
        (parses (anywhere_form instance.now) reader.old) }
{
    let kind = read_slot_pattern_kind(reader)?;
    read_slot_pattern_after(reader, instance, kind)
}
