//! Parsing the single words of journals and scripts by their meaning.

ghost use Rattle.std.specs.Prelude.{◌<◌, IfOk, pos};
ghost use Rattle.ctt_text.specs.Reading.{word_at};
ghost use Rattle.ctt_script.specs.Amounts.{price_of, number_below};
ghost use Rattle.ctt_script.specs.JournalWords.{word, label, missing_word, parses, IsRead};
ghost use Rattle.ctt_script.specs.Kinds.{edit_kind, pattern_kind, slot_pattern_kind, look_kind, call_kind, reply_kind, fault_kind};
ghost use Rattle.ctt_script.specs.Calls.{course_form, room_form, teacher, curriculum_form, slot};
ghost use Rattle.ctt_script.specs.Replies.{count, amount_form};
ghost use Rattle.ctt_script.specs.declared.kinds.EditKind.TheVariants as edit;
ghost use Rattle.ctt_script.specs.declared.kinds.LookKind.TheVariants as look;
ghost use Rattle.ctt_script.specs.declared.kinds.PatternKind.TheVariants as pattern;
ghost use Rattle.ctt_script.specs.declared.kinds.SlotPatternKind.TheVariants as to_any;
ghost use Rattle.ctt_script.specs.declared.kinds.CallKind.TheVariants as kind;
ghost use Rattle.ctt_script.specs.declared.kinds.ReplyKind.TheVariants as reply;
ghost use Rattle.ctt_script.specs.declared.kinds.FaultKind.TheVariants as fault;

use crate::amounts::{amount, price};
use crate::journal_fault::JournalFault;
use crate::kinds::{
    CallKind, EditKind, FaultKind, LookKind, PatternKind, ReplyKind, SlotPatternKind, call_kind,
    edit_kind, fault_kind, look_kind, pattern_kind, reply_kind, slot_pattern_kind,
};
use ctt_text::{
    CourseNo, CurriculumNo, Instance, Reader, RoomNo, SlotNo, TeacherNo, next_course, next_fixed,
    next_number, next_room, next_word,
};

/// Parses any word.
pub(crate) fn read_word<'a>(reader: &mut Reader<'a>) -> Result<&'a str, JournalFault>
    ensures { IsRead (λ word. (word.now, reader.new)) result (word_at missing_word reader.old) }
{
    next_word(reader)
}

/// Parses this fixed word.
pub(crate) fn read_label(reader: &mut Reader, text: &str) -> Result<(), JournalFault>
    ensures { IsRead (λ _. (tt, reader.new)) result (parses (label text.now) reader.old) }
{
    next_fixed(reader, text)
}

/// Parses a decimal number of at most 999,999,999.
#[tactic(auto, unfolding(crate::specs::Replies::count))]
pub(crate) fn read_count(reader: &mut Reader) -> Result<u32, JournalFault>
    ensures { IsRead (λ number. (number, reader.new)) result (parses count reader.old) }
{
    next_number(reader)
}

/// Parses a decimal number less than `limit`.
#[tactic(auto, using(crate::proofs::Steps::read_below), unfolding(crate::specs::Replies::count))]
pub(crate) fn read_number_below(reader: &mut Reader, limit: u16) -> Result<u16, JournalFault>
    ensures limit { IfOk result (λ number. number < limit) }
    ensures exact { IsRead (λ number.
        (number, reader.new)) result (parses (word (number_below limit) 0) reader.old) }
{
    let at = reader.next();
    let number = read_count(reader)?;
    if number < u32::from(limit) {
        Ok(number as u16)
    } else {
        Err(JournalFault::BadWord(at))
    }
}

/// Parses an amount.
#[tactic(auto, using(crate::proofs::Steps::read_word), unfolding(crate::specs::Replies::amount_form))]
pub(crate) fn read_amount(reader: &mut Reader) -> Result<u64, JournalFault>
    ensures { IsRead (λ amount. (amount, reader.new)) result (parses amount_form reader.old) }
{
    let at = reader.next();
    let word = read_word(reader)?;
    amount(word.as_bytes()).ok_or(JournalFault::BadWord(at))
}

/// Parses a price, which may be negative.
#[tactic(auto, using(crate::proofs::Steps::read_word))]
pub(crate) fn read_price(reader: &mut Reader) -> Result<i64, JournalFault>
    ensures { IsRead (λ price. (price, reader.new)) result
        (parses (word price_of (pos 0)) reader.old) }
{
    let at = reader.next();
    let word = read_word(reader)?;
    price(word.as_bytes()).ok_or(JournalFault::BadWord(at))
}

/// Parses the name of a course.
#[tactic(auto, unfolding(crate::specs::Calls::course_form))]
pub(crate) fn read_course(
    reader: &mut Reader,
    instance: &Instance,
) -> Result<CourseNo, JournalFault>
    ensures { IsRead (λ course. (course, reader.new)) result
        (parses (course_form instance.now) reader.old) }
{
    next_course(reader, instance)
}

/// Parses the name of a room.
#[tactic(auto, unfolding(crate::specs::Calls::room_form))]
pub(crate) fn read_room(reader: &mut Reader, instance: &Instance) -> Result<RoomNo, JournalFault>
    ensures { IsRead (λ room. (room, reader.new)) result
        (parses (room_form instance.now) reader.old) }
{
    next_room(reader, instance)
}

/// Parses the name of a teacher.
#[tactic(auto, using(crate::proofs::Steps::read_name), unfolding(crate::specs::Calls::teacher))]
pub(crate) fn read_teacher(
    reader: &mut Reader,
    instance: &Instance,
) -> Result<TeacherNo, JournalFault>
    ensures { IsRead (λ teacher. (teacher, reader.new)) result
        (parses (teacher instance.now) reader.old) }
{
    let at = reader.next();
    let name = read_word(reader)?;
    instance.find_teacher(name).ok_or(JournalFault::BadWord(at))
}

/// Parses the name of a curriculum.
#[tactic(auto, using(crate::proofs::Steps::read_name), unfolding(crate::specs::Calls::curriculum_form))]
pub(crate) fn read_curriculum(
    reader: &mut Reader,
    instance: &Instance,
) -> Result<CurriculumNo, JournalFault>
    ensures { IsRead (λ curriculum. (curriculum, reader.new)) result
        (parses (curriculum_form instance.now) reader.old) }
{
    let at = reader.next();
    let name = read_word(reader)?;
    instance
        .find_curriculum(name)
        .ok_or(JournalFault::BadWord(at))
}

/// Parses a day and a period of that day, and returns their slot.
#[inline(always)]
#[tactic(auto, using(crate::proofs::Steps::row), unfolding(crate::specs::Calls::slot))]
pub(crate) fn read_slot(reader: &mut Reader, instance: &Instance) -> Result<SlotNo, JournalFault>
    ensures { IsRead (λ slot. (slot, reader.new)) result (parses (slot instance.now) reader.old) }
{
    let day = read_number_below(reader, instance.days())?;
    let period = read_number_below(reader, instance.periods())?;
    Ok(instance.slot_of(day, period))
}

/// Parses the keyword of an edit.
#[tactic(auto, using(crate::proofs::Steps::read_word))]
pub(crate) fn read_edit_kind(reader: &mut Reader) -> Result<EditKind, JournalFault>
    ensures { IsRead (λ kind. (kind, reader.new)) result
        (parses (word edit_kind edit.Place) reader.old) }
{
    let at = reader.next();
    let word = read_word(reader)?;
    edit_kind(word).ok_or(JournalFault::BadWord(at))
}

/// Parses the keyword of a look.
#[tactic(auto, using(crate::proofs::Steps::read_word))]
pub(crate) fn read_look_kind(reader: &mut Reader) -> Result<LookKind, JournalFault>
    ensures { IsRead (λ kind. (kind, reader.new)) result
        (parses (word look_kind look.Cost) reader.old) }
{
    let at = reader.next();
    let word = read_word(reader)?;
    look_kind(word).ok_or(JournalFault::BadWord(at))
}

/// Parses the keyword of an edit pattern.
#[tactic(auto, using(crate::proofs::Steps::read_word))]
pub(crate) fn read_pattern_kind(reader: &mut Reader) -> Result<PatternKind, JournalFault>
    ensures { IsRead (λ kind. (kind, reader.new)) result
        (parses (word pattern_kind pattern.Place) reader.old) }
{
    let at = reader.next();
    let word = read_word(reader)?;
    pattern_kind(word).ok_or(JournalFault::BadWord(at))
}

/// Parses the keyword of an edit pattern that leads to any slot.
#[tactic(auto, using(crate::proofs::Steps::read_word))]
pub(crate) fn read_slot_pattern_kind(reader: &mut Reader) -> Result<SlotPatternKind, JournalFault>
    ensures { IsRead (λ kind. (kind, reader.new)) result
        (parses (word slot_pattern_kind to_any.Place) reader.old) }
{
    let at = reader.next();
    let word = read_word(reader)?;
    slot_pattern_kind(word).ok_or(JournalFault::BadWord(at))
}

/// Parses the keyword of a call.
#[tactic(auto, using(crate::proofs::Steps::read_word))]
pub(crate) fn read_call_kind(reader: &mut Reader) -> Result<CallKind, JournalFault>
    ensures { IsRead (λ kind. (kind, reader.new)) result
        (parses (word call_kind (kind.Look look.Cost)) reader.old) }
{
    let at = reader.next();
    let word = read_word(reader)?;
    call_kind(word).ok_or(JournalFault::BadWord(at))
}

/// Parses the keyword of a reply.
#[tactic(auto, using(crate::proofs::Steps::read_word))]
pub(crate) fn read_reply_kind(reader: &mut Reader) -> Result<ReplyKind, JournalFault>
    ensures { IsRead (λ kind. (kind, reader.new)) result
        (parses (word reply_kind reply.Done) reader.old) }
{
    let at = reader.next();
    let word = read_word(reader)?;
    reply_kind(word).ok_or(JournalFault::BadWord(at))
}

/// Parses the keyword of a fault.
#[tactic(auto, using(crate::proofs::Steps::read_word))]
pub(crate) fn read_fault_kind(reader: &mut Reader) -> Result<FaultKind, JournalFault>
    ensures { IsRead (λ kind. (kind, reader.new)) result
        (parses (word fault_kind fault.NotPlaced) reader.old) }
{
    let at = reader.next();
    let word = read_word(reader)?;
    fault_kind(word).ok_or(JournalFault::BadWord(at))
}
