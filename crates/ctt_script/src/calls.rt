//! Parsing calls.

ghost use Rattle.ctt_script.specs.JournalWords.{parses, IsRead};
ghost use Rattle.ctt_script.specs.Calls.{edit_after, edit_form, look_after, look_form, call_after, call_form};
ghost use Rattle.ctt_script.specs.declared.kinds.EditKind.TheVariants as edit;
ghost use Rattle.ctt_script.specs.declared.kinds.LookKind.TheVariants as look;

use crate::journal_fault::JournalFault;
use crate::kinds::{CallKind, EditKind, LookKind};
use crate::patterns::{read_pattern, read_slot_pattern};
use crate::single_words::{
    read_call_kind, read_course, read_curriculum, read_edit_kind, read_look_kind,
    read_number_below, read_room, read_slot, read_teacher,
};
use ctt_edits::{Call, Edit, Look};
use ctt_text::{Instance, Reader};

/// Parses what follows `place`: a course, a room and a slot.
#[tactic(auto, using(crate::proofs::Steps::row), unfolding(crate::specs::Calls::edit_after))]
fn read_place(reader: &mut Reader, instance: &Instance) -> Result<Edit, JournalFault>
    ensures { IsRead (λ edit. (edit, reader.new)) result
        (parses (edit_after instance.now edit.Place) reader.old) }
{
    let course = read_course(reader, instance)?;
    let room = read_room(reader, instance)?;
    let slot = read_slot(reader, instance)?;
    Ok(Edit::Place(course, slot, room))
}

/// Parses what follows `move`: a course, its slot, a room and a target slot.
#[tactic(auto, using(crate::proofs::Steps::row), unfolding(crate::specs::Calls::edit_after))]
fn read_move(reader: &mut Reader, instance: &Instance) -> Result<Edit, JournalFault>
    ensures { IsRead (λ edit. (edit, reader.new)) result
        (parses (edit_after instance.now edit.Move) reader.old) }
{
    let course = read_course(reader, instance)?;
    let slot = read_slot(reader, instance)?;
    let room = read_room(reader, instance)?;
    let target = read_slot(reader, instance)?;
    Ok(Edit::Move(course, slot, target, room))
}

/// Parses what follows `swap`: a course and its slot, and another course and its slot.
#[tactic(auto, using(crate::proofs::Steps::row), unfolding(crate::specs::Calls::edit_after))]
fn read_swap(reader: &mut Reader, instance: &Instance) -> Result<Edit, JournalFault>
    ensures { IsRead (λ edit. (edit, reader.new)) result
        (parses (edit_after instance.now edit.Swap) reader.old) }
{
    let course = read_course(reader, instance)?;
    let slot = read_slot(reader, instance)?;
    let other = read_course(reader, instance)?;
    let other_slot = read_slot(reader, instance)?;
    Ok(Edit::Swap(course, slot, other, other_slot))
}

/// Parses what follows `reroom`: a course, a room and a slot.
#[tactic(auto, using(crate::proofs::Steps::row), unfolding(crate::specs::Calls::edit_after))]
fn read_reroom(reader: &mut Reader, instance: &Instance) -> Result<Edit, JournalFault>
    ensures { IsRead (λ edit. (edit, reader.new)) result
        (parses (edit_after instance.now edit.Reroom) reader.old) }
{
    let course = read_course(reader, instance)?;
    let room = read_room(reader, instance)?;
    let slot = read_slot(reader, instance)?;
    Ok(Edit::Reroom(course, slot, room))
}

/// Parses what follows `drop`: a course and its slot.
#[tactic(auto, using(crate::proofs::Steps::row), unfolding(crate::specs::Calls::edit_after))]
fn read_drop(reader: &mut Reader, instance: &Instance) -> Result<Edit, JournalFault>
    ensures { IsRead (λ edit. (edit, reader.new)) result
        (parses (edit_after instance.now edit.Drop) reader.old) }
{
    let course = read_course(reader, instance)?;
    let slot = read_slot(reader, instance)?;
    Ok(Edit::Drop(course, slot))
}

/// Parses what follows the keyword of an edit.
fn read_edit_after(
    reader: &mut Reader,
    instance: &Instance,
    kind: EditKind,
) -> Result<Edit, JournalFault>
    ensures { IsRead (λ edit. (edit, reader.new)) result
        (parses (edit_after instance.now kind) reader.old) }
{
    match kind {
        EditKind::Place => read_place(reader, instance),
        EditKind::Move => read_move(reader, instance),
        EditKind::Swap => read_swap(reader, instance),
        EditKind::Reroom => read_reroom(reader, instance),
        EditKind::Drop => read_drop(reader, instance),
    }
}

/// Parses an edit.
#[tactic(auto, using(crate::proofs::Steps::read_bind), unfolding(crate::specs::Calls::edit_form))]
pub(crate) fn read_edit(reader: &mut Reader, instance: &Instance) -> Result<Edit, JournalFault>
    ensures { IsRead (λ edit. (edit, reader.new)) result
        (parses (edit_form instance.now) reader.old) }
{
    let kind = read_edit_kind(reader)?;
    read_edit_after(reader, instance, kind)
}

/// Parses what follows `cheapest`: a count of at most 1000 and an edit pattern.
#[tactic(auto, using(crate::proofs::Steps::row), unfolding(crate::specs::Calls::look_after))]
fn read_cheapest(reader: &mut Reader, instance: &Instance) -> Result<Look, JournalFault>
    ensures { IsRead (λ look. (look, reader.new)) result
        (parses (look_after instance.now look.Cheapest) reader.old) }
{
    let count = read_number_below(reader, 1001)?;
    let pattern = read_pattern(reader, instance)?;
    Ok(Look::Cheapest(count, pattern))
}

/// Parses what follows the keyword of a look.
#[tactic(auto, using(crate::proofs::Steps::row), unfolding(crate::specs::Calls::look_after))]
fn read_look_after(
    reader: &mut Reader,
    instance: &Instance,
    kind: LookKind,
) -> Result<Look, JournalFault>
    ensures { IsRead (λ look. (look, reader.new)) result
        (parses (look_after instance.now kind) reader.old) }
{
    Ok(match kind {
        LookKind::Course => Look::Course(read_course(reader, instance)?),
        LookKind::Slot => Look::Slot(read_slot(reader, instance)?),
        LookKind::Teacher => Look::Teacher(read_teacher(reader, instance)?),
        LookKind::Curriculum => Look::Curriculum(read_curriculum(reader, instance)?),
        LookKind::CourseCost => Look::CourseCost(read_course(reader, instance)?),
        LookKind::Cost => Look::Cost,
        LookKind::Price => Look::Price(read_edit(reader, instance)?),
        LookKind::Missing => Look::Missing,
        LookKind::Cheapest => read_cheapest(reader, instance)?,
        LookKind::Slots => Look::Slots(read_slot_pattern(reader, instance)?),
    })
}

/// Parses a look.
#[tactic(auto, using(crate::proofs::Steps::read_bind), unfolding(crate::specs::Calls::look_form))]
pub(crate) fn read_look(reader: &mut Reader, instance: &Instance) -> Result<Look, JournalFault>
    ensures { IsRead (λ look. (look, reader.new)) result
        (parses (look_form instance.now) reader.old) }
{
    let kind = read_look_kind(reader)?;
    read_look_after(reader, instance, kind)
}

/// Parses what follows the keyword of a call.
#[tactic(auto, using(crate::proofs::Steps::row), unfolding(crate::specs::Calls::call_after))]
pub(crate) fn read_call_after(
    reader: &mut Reader,
    instance: &Instance,
    kind: CallKind,
) -> Result<Call, JournalFault>
    ensures { IsRead (λ call. (call, reader.new)) result
        (parses (call_after instance.now kind) reader.old) }
{
    match kind {
        CallKind::Edit(kind) => Ok(Call::Edit(read_edit_after(reader, instance, kind)?)),
        CallKind::Look(kind) => Ok(Call::Look(read_look_after(reader, instance, kind)?)),
    }
}

/// Parses a call.
#[tactic(auto, using(crate::proofs::Steps::read_bind), unfolding(crate::specs::Calls::call_form))]
pub(crate) fn read_call(reader: &mut Reader, instance: &Instance) -> Result<Call, JournalFault>
    ensures { IsRead (λ call. (call, reader.new)) result
        (parses (call_form instance.now) reader.old) }
{
    let kind = read_call_kind(reader)?;
    read_call_after(reader, instance, kind)
}
