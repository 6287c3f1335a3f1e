//! The check whether an edit can be made.

ghost use Rattle.std.specs.Prelude.{◌≡◌, ◌<◌, ◌==◌, false, Some, None, IfOk, IsSome};
ghost use Rattle.ctt_problem.specs.Problem.{course_count, slot_count, room_count, is_barred};
ghost use Rattle.ctt_problem.specs.Timetable.{Fits, without};
ghost use Rattle.ctt_board.specs.Changes.{ChangeFits, cell, room_at};
ghost use Rattle.ctt_edits.specs.Edits.{EditFits, fault_if, try_fault, fault_in_place_of, edit_fault, change, checked};
ghost use Rattle.ctt_edits.specs.declared.edit.Edit.TheVariants.{Move, Swap, Reroom, Drop};
ghost use Rattle.ctt_edits.specs.declared.fault.EditFault.TheVariants.{Barred};

use crate::edit::Edit;
use crate::edit_laws;
use crate::fault::EditFault;
use ctt_board::{After, Cell, Change, Rooms, Sheet, first_clash, first_clash_without};
use ctt_problem::{CourseNo, Instance, Placed, RoomNo, SlotNo};

/// Returns the first fault of placing a lecture, if there is one.
fn place_fault<R: Rooms>(
    instance: &Instance,
    rooms: &R,
    course: CourseNo,
    slot: SlotNo,
    room: RoomNo,
) -> Option<EditFault>
    requires same { R.problem rooms.now ≡ instance.now }
    requires course { course < course_count instance.now }
    requires slot { slot < slot_count instance.now }
    requires room { room < room_count instance.now }
    ensures { result ≡ try_fault instance.now (R.list rooms.now) course slot room }
{
    if rooms.room_at(course, slot).is_some() {
        return Some(EditFault::AlreadyThere);
    }
    if rooms.count(course) >= instance.lectures(course) {
        return Some(EditFault::CourseFull);
    }
    if instance.unavailable(course, slot) {
        return Some(EditFault::Unavailable);
    }
    if instance.barred(course, room) {
        return Some(EditFault::Barred);
    }
    if instance.blocked(room, slot) {
        return Some(EditFault::Blocked);
    }
    if let Some(other) = first_clash(instance, rooms, course, slot) {
        return Some(EditFault::Clash(other));
    }
    if let Some(other) = rooms.holder(slot, room) {
        return Some(EditFault::RoomTaken(other));
    }
    None
}

/// Returns the cell that removes a lecture.
fn removal(course: CourseNo, slot: SlotNo) -> Cell
    ensures { result ≡ cell course slot None }
{
    Cell {
        course,
        slot,
        room: None,
    }
}

/// Returns the cell that adds a lecture.
fn addition(course: CourseNo, slot: SlotNo, room: RoomNo) -> Cell
    ensures { result ≡ cell course slot (Some room) }
{
    Cell {
        course,
        slot,
        room: Some(room),
    }
}

/// Returns the first fault of placing a lecture again after it has left its slot.
fn replace_fault<'i, S: Sheet<'i>>(
    sheet: &S,
    course: CourseNo,
    slot: SlotNo,
    target: SlotNo,
    room: RoomNo,
) -> Option<EditFault>
    requires course { course < course_count (S.problem sheet.now) }
    requires slot { slot < slot_count (S.problem sheet.now) }
    requires target { target < slot_count (S.problem sheet.now) }
    requires room { room < room_count (S.problem sheet.now) }
    requires there { IsSome (room_at course slot (S.list sheet.now)) }
    ensures { result ≡ try_fault (S.problem sheet.now) (without course slot (S.list sheet.now))
        course target room }
{
    sheet.lawful();
    let instance = sheet.instance();
    let gone = [removal(course, slot)];
    let after = After::new(instance, sheet, &gone);
    place_fault(instance, &after, course, target, room)
}

/// Returns the first fault of placing a course's lecture in the slot and room of another one, which
/// leaves. The course is not full, since a lecture of its own has left too, and the room is not
/// blocked in the slot, since a lecture stands there.
fn fault_in_place_of<'i, S: Sheet<'i>>(
    sheet: &S,
    course: CourseNo,
    leaving: &Placed,
) -> Option<EditFault>
    requires course { course < course_count (S.problem sheet.now) }
    requires leaving { Fits (S.problem sheet.now) leaving.now }
    requires there { IsSome (room_at leaving.now.course leaving.now.slot (S.list sheet.now)) }
    ensures { result ≡ fault_in_place_of (S.problem sheet.now) (S.list sheet.now) course
        leaving.now }
{
    let instance = sheet.instance();
    if sheet.room_at(course, leaving.slot).is_some() {
        return Some(EditFault::AlreadyThere);
    }
    if instance.unavailable(course, leaving.slot) {
        return Some(EditFault::Unavailable);
    }
    if instance.barred(course, leaving.room) {
        return Some(EditFault::Barred);
    }
    let other = first_clash_without(instance, sheet, course, leaving.slot, leaving.course)?;
    Some(EditFault::Clash(other))
}

/// Returns a fault if the room is barred for the course.
fn barred_fault(instance: &Instance, course: CourseNo, room: RoomNo) -> Option<EditFault>
    requires course { course < course_count instance.now }
    requires room { room < room_count instance.now }
    ensures { result ≡ fault_if (is_barred instance.now course room) Barred }
{
    if !instance.barred(course, room) {
        return None;
    }
    Some(EditFault::Barred)
}

/// Returns the first fault of swapping lectures of two courses. In one slot they only exchange
/// rooms, so the only possible fault is a barred room.
fn exchange_fault<'i, S: Sheet<'i>>(
    sheet: &S,
    lecture: &Placed,
    other: &Placed,
) -> Option<EditFault>
    requires fits { Fits (S.problem sheet.now) lecture.now }
    requires other_fits { Fits (S.problem sheet.now) other.now }
    requires apart { (lecture.now.course == other.now.course) ≡ false }
    requires there { room_at lecture.now.course lecture.now.slot (S.list sheet.now)
        ≡ Some lecture.now.room }
    requires other_there { room_at other.now.course other.now.slot (S.list sheet.now)
        ≡ Some other.now.room }
    ensures { result ≡ edit_fault (S.problem sheet.now) (S.list sheet.now)
        (Swap lecture.now.course lecture.now.slot other.now.course other.now.slot) }
{
    sheet.lawful();
    if lecture.slot == other.slot {
        let fault = barred_fault(sheet.instance(), lecture.course, other.room);
        if fault.is_some() {
            return fault;
        }
        return barred_fault(sheet.instance(), other.course, lecture.room);
    }
    let fault = fault_in_place_of(sheet, lecture.course, other);
    if fault.is_some() {
        return fault;
    }
    fault_in_place_of(sheet, other.course, lecture)
}

/// Returns the first fault of a swap.
fn swap_fault<'i, S: Sheet<'i>>(
    sheet: &S,
    course: CourseNo,
    slot: SlotNo,
    other: CourseNo,
    other_slot: SlotNo,
) -> Option<EditFault>
    requires { EditFits (S.problem sheet.now) (Swap course slot other other_slot) }
    ensures { result ≡ edit_fault (S.problem sheet.now) (S.list sheet.now)
        (Swap course slot other other_slot) }
{
    sheet.lawful();
    let Some(room) = sheet.room_at(course, slot) else {
        return Some(EditFault::NotPlaced);
    };
    let Some(other_room) = sheet.room_at(other, other_slot) else {
        return Some(EditFault::NotPlaced);
    };
    if course == other {
        return Some(EditFault::SameCourse);
    }
    let lecture = Placed { course, slot, room };
    let other = Placed {
        course: other,
        slot: other_slot,
        room: other_room,
    };
    exchange_fault(sheet, &lecture, &other)
}

/// Returns the first fault of a move.
fn move_fault<'i, S: Sheet<'i>>(
    sheet: &S,
    course: CourseNo,
    slot: SlotNo,
    target: SlotNo,
    room: RoomNo,
) -> Option<EditFault>
    requires { EditFits (S.problem sheet.now) (Move course slot target room) }
    ensures { result ≡ edit_fault (S.problem sheet.now) (S.list sheet.now)
        (Move course slot target room) }
{
    if sheet.room_at(course, slot).is_none() {
        return Some(EditFault::NotPlaced);
    }
    if slot == target {
        return Some(EditFault::SameSlot);
    }
    replace_fault(sheet, course, slot, target, room)
}

/// Returns the first fault of moving a lecture to another room.
fn reroom_fault<'i, S: Sheet<'i>>(
    sheet: &S,
    course: CourseNo,
    slot: SlotNo,
    room: RoomNo,
) -> Option<EditFault>
    requires { EditFits (S.problem sheet.now) (Reroom course slot room) }
    ensures { result ≡ edit_fault (S.problem sheet.now) (S.list sheet.now)
        (Reroom course slot room) }
{
    if sheet.room_at(course, slot).is_none() {
        return Some(EditFault::NotPlaced);
    }
    replace_fault(sheet, course, slot, slot, room)
}

/// Returns a fault if the lecture to drop is not placed.
fn drop_fault<'i, S: Sheet<'i>>(sheet: &S, course: CourseNo, slot: SlotNo) -> Option<EditFault>
    requires { EditFits (S.problem sheet.now) (Drop course slot) }
    ensures { result ≡ edit_fault (S.problem sheet.now) (S.list sheet.now) (Drop course slot) }
{
    if sheet.room_at(course, slot).is_none() {
        return Some(EditFault::NotPlaced);
    }
    None
}

/// Returns the first fault of an edit.
fn fault_of<'i, S: Sheet<'i>>(sheet: &S, edit: &Edit) -> Option<EditFault>
    requires { EditFits (S.problem sheet.now) edit.now }
    ensures { result ≡ edit_fault (S.problem sheet.now) (S.list sheet.now) edit.now }
{
    match *edit {
        Edit::Place(course, slot, room) => {
            place_fault(sheet.instance(), sheet, course, slot, room)
        }
        Edit::Move(course, slot, target, room) => move_fault(sheet, course, slot, target, room),
        Edit::Swap(course, slot, other, other_slot) => {
            swap_fault(sheet, course, slot, other, other_slot)
        }
        Edit::Reroom(course, slot, room) => reroom_fault(sheet, course, slot, room),
        Edit::Drop(course, slot) => drop_fault(sheet, course, slot),
    }
}

/// Returns the change of an edit that has no fault.
fn change_of<'i, S: Sheet<'i>>(sheet: &S, edit: &Edit) -> Change
    requires fits { EditFits (S.problem sheet.now) edit.now }
    requires accepted { edit_fault (S.problem sheet.now) (S.list sheet.now) edit.now ≡ None }
    ensures { result ≡ change (S.list sheet.now) edit.now }
{
    let change = match *edit {
        Edit::Place(course, slot, room) => Change::of(&[addition(course, slot, room)]),
        Edit::Move(course, slot, target, room) => {
            Change::of(&[removal(course, slot), addition(course, target, room)])
        }
        Edit::Swap(course, slot, other, other_slot) => Change::of(&[
            removal(course, slot),
            removal(other, other_slot),
            Cell {
                course,
                slot: other_slot,
                room: sheet.room_at(other, other_slot),
            },
            Cell {
                course: other,
                slot,
                room: sheet.room_at(course, slot),
            },
        ]),
        Edit::Reroom(course, slot, room) => {
            Change::of(&[removal(course, slot), addition(course, slot, room)])
        }
        Edit::Drop(course, slot) => Change::of(&[removal(course, slot)]),
    };
    change.unwrap()
}

/// Returns the change of an edit, or its first fault. Allocates nothing.
pub fn check<'i, S: Sheet<'i>>(sheet: &S, edit: &Edit) -> Result<Change, EditFault>
    requires { EditFits (S.problem sheet.now) edit.now }
    ensures change { result ≡ checked (S.problem sheet.now) (S.list sheet.now) edit.now }
    ensures fits { IfOk result (λ change.
        ChangeFits (S.problem sheet.now) change (S.list sheet.now)) }
{
    sheet.lawful();
    edit_laws::edits_fit();
    match fault_of(sheet, edit) {
        None => Ok(change_of(sheet, edit)),
        Some(fault) => Err(fault),
    }
}
