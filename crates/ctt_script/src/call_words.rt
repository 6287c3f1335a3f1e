//! Writing the words of calls.

ghost use Rattle.std.specs.Prelude.{◌≡◌, ◌<◌, ◌++◌, ◌∷◌, [], OnOk, codes, string_bytes};
ghost use Rattle.ctt_problem.specs.Problem.{course_count, room_count, slot_count};
ghost use Rattle.ctt_edits.specs.Edits.{EditFits};
ghost use Rattle.ctt_edits.specs.Looks.{LookFits};
ghost use Rattle.ctt_edits.specs.Patterns.{FitsIfGiven, PatternFits};
ghost use Rattle.ctt_edits.specs.Calls.{CallFits};
ghost use Rattle.ctt_line.specs.Lines.{line, words_part};
ghost use Rattle.ctt_script.specs.WrittenText.{joined};
ghost use Rattle.ctt_script.specs.WrittenWords.{course_word, room_word, day_word, period_word, room_choice_word, day_choice_word, period_choice_word, edit_words, pattern_words, look_words, call_words};

use ctt_edits::{Call, Edit, Look, Pattern};
use ctt_line::{Word, push_line, push_words};
use ctt_text::{CourseNo, Instance, RoomNo, SlotNo};
use std::alloc::AllocError;

/// Returns the name of a course.
pub(crate) fn course<'i>(instance: &'i Instance, number: CourseNo) -> Word<'i>
    requires { number < course_count instance.now }
    ensures { result ≡ course_word instance.now number }
{
    Word::text(instance.course_name(number))
}

/// Returns the name of a room.
pub(crate) fn room<'i>(instance: &'i Instance, number: RoomNo) -> Word<'i>
    requires { number < room_count instance.now }
    ensures { result ≡ room_word instance.now number }
{
    Word::text(instance.room_name(number))
}

/// Returns the day of a slot, counted from 0.
pub(crate) fn day<'i>(instance: &'i Instance, slot: SlotNo) -> Word<'i>
    requires { slot < slot_count instance.now }
    ensures { result ≡ day_word instance.now slot }
{
    Word::number(u64::from(instance.day_of(slot)))
}

/// Returns the period of a slot, counted from 0.
pub(crate) fn period<'i>(instance: &'i Instance, slot: SlotNo) -> Word<'i>
    requires { slot < slot_count instance.now }
    ensures { result ≡ period_word instance.now slot }
{
    Word::number(u64::from(instance.period_of(slot)))
}

/// Returns `*`, which stands for any room, day, period or course.
fn any<'i>() -> Word<'i>
    ensures { result ≡ codes "*" }
{
    Word::text("*")
}

/// Returns the name of a room, or `*` for any.
fn room_choice<'i>(instance: &'i Instance, choice: &Option<RoomNo>) -> Word<'i>
    requires { FitsIfGiven (room_count instance.now) choice.now }
    ensures { result ≡ room_choice_word instance.now choice.now }
{
    match choice {
        Some(number) => room(instance, *number),
        None => any(),
    }
}

/// Returns the day of a slot, or `*` for any slot.
fn day_choice<'i>(instance: &'i Instance, choice: &Option<SlotNo>) -> Word<'i>
    requires { FitsIfGiven (slot_count instance.now) choice.now }
    ensures { result ≡ day_choice_word instance.now choice.now }
{
    match choice {
        Some(slot) => day(instance, *slot),
        None => any(),
    }
}

/// Returns the period of a slot, or `*` for any slot.
fn period_choice<'i>(instance: &'i Instance, choice: &Option<SlotNo>) -> Word<'i>
    requires { FitsIfGiven (slot_count instance.now) choice.now }
    ensures { result ≡ period_choice_word instance.now choice.now }
{
    match choice {
        Some(slot) => period(instance, *slot),
        None => any(),
    }
}

/// Appends a keyword, and a course with its slot.
fn push_taught(
    text: &mut String,
    kind: &str,
    instance: &Instance,
    number: CourseNo,
    slot: SlotNo,
) -> Result<(), AllocError>
    requires course { number < course_count instance.now }
    requires slot { slot < slot_count instance.now }
    ensures { OnOk result (string_bytes text.new ≡ string_bytes text.old
        ++ joined (kind.now ∷ course_word instance.now number
        ∷ day_word instance.now slot ∷ period_word instance.now slot ∷ [])) }
{
    text.push_str(kind)?;
    push_words(
        text,
        &[
            course(instance, number),
            day(instance, slot),
            period(instance, slot),
        ],
    )
}

/// Appends a room and a slot, or `*` for what is not given, each word after a blank.
fn push_target(
    text: &mut String,
    instance: &Instance,
    slot: Option<SlotNo>,
    place: Option<RoomNo>,
) -> Result<(), AllocError>
    requires slot { FitsIfGiven (slot_count instance.now) slot }
    requires room { FitsIfGiven (room_count instance.now) place }
    ensures { OnOk result (string_bytes text.new ≡ string_bytes text.old
        ++ words_part (room_choice_word instance.now place
        ∷ day_choice_word instance.now slot ∷ period_choice_word instance.now slot ∷ [])) }
{
    push_words(
        text,
        &[
            room_choice(instance, &place),
            day_choice(instance, &slot),
            period_choice(instance, &slot),
        ],
    )
}

/// Appends a keyword, a course, a room and a slot, or `*` for what is not given.
fn push_lecture(
    text: &mut String,
    kind: &str,
    instance: &Instance,
    number: CourseNo,
    slot: Option<SlotNo>,
    place: Option<RoomNo>,
) -> Result<(), AllocError>
    requires course { number < course_count instance.now }
    requires slot { FitsIfGiven (slot_count instance.now) slot }
    requires room { FitsIfGiven (room_count instance.now) place }
    ensures { OnOk result (string_bytes text.new ≡ string_bytes text.old
        ++ joined (kind.now ∷ course_word instance.now number ∷ room_choice_word instance.now place
        ∷ day_choice_word instance.now slot ∷ period_choice_word instance.now slot ∷ [])) }
{
    text.push_str(kind)?;
    push_words(text, &[course(instance, number)])?;
    push_target(text, instance, slot, place)
}

/// Appends the words of an edit, beginning with its keyword.
pub fn push_edit(text: &mut String, instance: &Instance, edit: &Edit) -> Result<(), AllocError>
    requires { EditFits instance.now edit.now }
    ensures { OnOk result (string_bytes text.new
        ≡ string_bytes text.old ++ joined (edit_words instance.now edit.now)) }
{
    match *edit {
        Edit::Place(number, slot, place) => {
            push_lecture(text, "place", instance, number, Some(slot), Some(place))
        }
        Edit::Reroom(number, slot, place) => {
            push_lecture(text, "reroom", instance, number, Some(slot), Some(place))
        }
        Edit::Drop(number, slot) => push_taught(text, "drop", instance, number, slot),
        Edit::Move(number, slot, target, place) => {
            push_taught(text, "move", instance, number, slot)?;
            push_target(text, instance, Some(target), Some(place))
        }
        Edit::Swap(number, slot, other, other_slot) => {
            push_taught(text, "swap", instance, number, slot)?;
            let (day, period) = (day(instance, other_slot), period(instance, other_slot));
            push_words(text, &[course(instance, other), day, period])
        }
    }
}

/// Appends the words of an edit pattern, with `*` for what it leaves open.
fn push_pattern(text: &mut String, instance: &Instance, pattern: &Pattern) -> Result<(), AllocError>
    requires { PatternFits instance.now pattern.now }
    ensures { OnOk result (string_bytes text.new
        ≡ string_bytes text.old ++ joined (pattern_words instance.now pattern.now)) }
{
    match *pattern {
        Pattern::Place(number, slot, place) => {
            push_lecture(text, "place", instance, number, slot, place)
        }
        Pattern::Reroom(number, slot, place) => {
            push_lecture(text, "reroom", instance, number, Some(slot), place)
        }
        Pattern::Move(number, slot, target, place) => {
            push_taught(text, "move", instance, number, slot)?;
            push_target(text, instance, target, place)
        }
        Pattern::Swap(number, slot) => {
            push_taught(text, "swap", instance, number, slot)?;
            text.push_str(" * * *")
        }
    }
}

/// Adds the line of a keyword and a name.
fn write_named(text: &mut String, kind: &str, name: &str) -> Result<(), AllocError>
    ensures { OnOk result (string_bytes text.new
        ≡ string_bytes text.old ++ line (kind.now ∷ name.now ∷ [])) }
{
    push_line(text, &[Word::text(kind), Word::text(name)])
}

/// Adds the line of a look.
#[tactic(auto, using(crate::proofs::WrittenText::after_blank))]
fn write_look(text: &mut String, instance: &Instance, look: &Look) -> Result<(), AllocError>
    requires { LookFits instance.now look.now }
    ensures { OnOk result (string_bytes text.new
        ≡ string_bytes text.old ++ line (look_words instance.now look.now)) }
{
    match look {
        Look::Course(number) => write_named(text, "course", instance.course_name(*number)),
        Look::Slot(slot) => {
            let (day, period) = (day(instance, *slot), period(instance, *slot));
            push_line(text, &[Word::text("slot"), day, period])
        }
        Look::Teacher(number) => write_named(text, "teacher", instance.teacher_name(*number)),
        Look::Curriculum(number) => {
            write_named(text, "curriculum", instance.curriculum_name(*number))
        }
        Look::CourseCost(number) => {
            write_named(text, "coursecost", instance.course_name(*number))
        }
        Look::Cost => text.push_str("cost\n"),
        Look::Price(edit) => {
            text.push_str("price ")?;
            push_edit(text, instance, edit)?;
            text.push('\n')
        }
        Look::Missing => text.push_str("missing\n"),
        Look::Cheapest(count, pattern) => {
            text.push_str("cheapest")?;
            push_words(text, &[Word::number(u64::from(*count))])?;
            text.push(' ')?;
            push_pattern(text, instance, pattern)?;
            text.push('\n')
        }
        Look::Slots(pattern) => {
            text.push_str("slots ")?;
            push_pattern(text, instance, &pattern.pattern())?;
            text.push('\n')
        }
    }
}

/// Adds the line of a call.
#[tactic(auto, using(crate::proofs::WrittenText::joined_line))]
pub(crate) fn write_call(
    text: &mut String,
    instance: &Instance,
    call: &Call,
) -> Result<(), AllocError>
    requires { CallFits instance.now call.now }
    ensures { OnOk result (string_bytes text.new
        ≡ string_bytes text.old ++ line (call_words instance.now call.now)) }
{
    match call {
        Call::Look(look) => write_look(text, instance, look),
        Call::Edit(edit) => {
            push_edit(text, instance, edit)?;
            text.push('\n')
        }
    }
}
