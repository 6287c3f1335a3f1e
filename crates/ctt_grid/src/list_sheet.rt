//! A sheet that stores its lectures in a list.

ghost use Rattle.std.specs.Prelude.{◌≡◌, ◌==◌, ◌&&◌, ◌≤◌, ◌<◌, ◌*◌, ◌++◌, true, false, length, IfOk, OnOk, []};
ghost use Rattle.std.specs.List.{position_or_len};
ghost use Rattle.std.specs.Vec.{vec_len, vec_capacity};
ghost use Rattle.ctt_problem.specs.Problem.{course_count, slot_count};
ghost use Rattle.ctt_problem.specs.Timetable.{course_row, slot_row, with, without, before};
ghost use Rattle.ctt_board.specs.Changes.{holder_at, apply, in_turn};

use crate::bound_laws;
use crate::courses_in_slot::courses_in_slot;
use crate::delta::delta;
use crate::fitting::fits;
use ctt_board::{Cell, Change, Rooms, Sheet, Timetable};
use ctt_problem::{CourseNo, Instance, Marks, NoMemory, Placed, RoomNo, SlotNo, is_before};
use ctt_rules::Cost;
use std::alloc::{AllocError, Global};
use std::marker::Model;

/// A sheet that stores its lectures in a vector with capacity for any lawful timetable, so that
/// changes allocate nothing. Its costs are computed on every request.
pub struct ListSheet<'i> {
    instance: &'i Instance,
    lectures: Vec<Placed>,
}

// Written by hand because a derived `Drop` is proved again in each dependent crate.
impl<'i> Drop for ListSheet<'i> {
    fn drop(self) {
        let ListSheet {
            instance: _,
            lectures: _,
        } = self;
    }
}

impl<'i> Model for ListSheet<'i> {
    ghost use Rattle.std.specs.Vec.{vec_capacity};
    ghost use Rattle.ctt_board.specs.Boards.{Board};
    ghost use Rattle.ctt_grid.specs.ListSheets.{IsListSheet};

    ghost Value = { Board };

    ghost view = { λ s. record { problem = s.instance.now; list = s.lectures.items } };

    ghost invariant = { λ s.
        IsListSheet s.instance.now s.lectures.items (vec_capacity s.lectures) };
}

/// Returns the index at which a lecture belongs in an ordered list.
#[tactic(auto, using(crate::proofs::OrderLemmas::found_at, crate::proofs::OrderLemmas::found_end))]
fn place_of(lectures: &[Placed], lecture: &Placed) -> usize
    ensures place { result ≡ position_or_len (before lecture.now) lectures.now }
    ensures within { result ≤ length lectures.now }
{
    for (place, other) in lectures.iter().enumerate() {
        if is_before(lecture, other) {
            return place;
        }
    }
    lectures.len()
}

/// Inserts a lecture in its place in the order. The vector has capacity for it.
#[tactic(auto, using(crate::proofs::OrderLemmas::with_is))]
fn add(lectures: &mut Vec<Placed>, lecture: Placed)
    requires { vec_len lectures.old < vec_capacity lectures.old }
    ensures items { lectures.new.items ≡ with lecture lectures.old.items }
    ensures capacity { vec_capacity lectures.old ≤ vec_capacity lectures.new }
{
    let place = place_of(lectures, &lecture);
    lectures.insert(place, lecture).unwrap();
}

/// Removes the lecture of a course in a slot, if there is one.
fn remove(lectures: &mut Vec<Placed>, course: CourseNo, slot: SlotNo)
    ensures items { lectures.new.items ≡ without course slot lectures.old.items }
    ensures capacity { vec_capacity lectures.old ≤ vec_capacity lectures.new }
{
    lectures.retain(|l| !(l.course == course && l.slot == slot));
}

/// Makes the cells in order. The vector has capacity for the lectures after the last cell.
fn make(lectures: &mut Vec<Placed>, cells: &[Cell])
    requires turn { in_turn false cells.now ≡ true }
    requires room { length (apply cells.now lectures.old.items) ≤ vec_capacity lectures.old }
    ensures items { lectures.new.items ≡ apply cells.now lectures.old.items }
    ensures capacity { vec_capacity lectures.old ≤ vec_capacity lectures.new }
{
    for cell in cells {
        match cell.room {
            None => remove(lectures, cell.course, cell.slot),
            Some(room) => add(
                lectures,
                Placed {
                    course: cell.course,
                    slot: cell.slot,
                    room,
                },
            ),
        }
    }
}

/// Returns an empty vector with capacity for as many lectures as a lawful timetable can have.
fn reserve(alloc: Global, instance: &Instance) -> Result<Vec<Placed>, AllocError>
    ensures items { IfOk result (λ v. v.items ≡ []) }
    ensures room { IfOk result
        (λ v. course_count instance.now * slot_count instance.now ≤ vec_capacity v) }
{
    instance.limits_hold();
    let places = instance.courses() as usize * instance.slots() as usize;
    Vec::with_capacity(alloc, places)
}

/// Returns the course whose lecture has a room in a slot, if there is one.
fn holder_in(lectures: &[Placed], slot: SlotNo, room: RoomNo) -> Option<CourseNo>
    ensures { result ≡ holder_at slot room lectures.now }
{
    for lecture in lectures {
        if lecture.slot == slot && lecture.room == room {
            return Some(lecture.course);
        }
    }
    None
}

/// Appends to a list the lectures that are in a slot.
fn append_in_slot(
    list: &mut Vec<Placed>,
    lectures: &[Placed],
    slot: SlotNo,
) -> Result<(), AllocError>
    ensures { OnOk result (list.new.items ≡ list.old.items ++ slot_row slot lectures.now) }
{
    for lecture in lectures {
        if lecture.slot == slot {
            list.push(*lecture)?;
        }
    }
    Ok(())
}

impl<'i> Rooms for ListSheet<'i> {
    ghost problem = { λ s. s.problem };

    ghost list = { λ s. s.list };

    fn lawful(&self) {
        let _lectures = &self.lectures;
    }

    fn room_at(&self, course: CourseNo, slot: SlotNo) -> Option<RoomNo> {
        let row = ctt_rules::course_row(self.instance, &self.lectures, course);
        row.iter().find(|l| l.slot == slot).map(|l| l.room)
    }

    fn holder(&self, slot: SlotNo, room: RoomNo) -> Option<CourseNo> {
        holder_in(&self.lectures, slot, room)
    }

    fn standing(&self, slot: SlotNo) -> Marks {
        self.instance.limits_hold();
        courses_in_slot(&self.lectures, slot)
    }

    fn count(&self, course: CourseNo) -> u32 {
        self.instance.limits_hold();
        ctt_rules::course_row(self.instance, &self.lectures, course).len() as u32
    }
}

impl<'i> Timetable for ListSheet<'i> {
    fn cost(&self) -> Cost {
        ctt_rules::penalty(self.instance, &self.lectures)
    }

    fn delta(&self, change: &Change) -> i64 {
        delta(self.instance, self, change)
    }

    fn accepts(&self, change: &Change) -> bool {
        fits(self.instance, self, change)
    }

    fn apply(&mut self, change: &Change) {
        bound_laws::length_is_bounded();
        make(&mut self.lectures, change.cells());
    }

    fn apply_all(&mut self, changes: &[Change]) {
        for change in changes {
            self.apply(change);
        }
    }

    fn course_row(&self, course: CourseNo) -> Result<Vec<Placed>, NoMemory> {
        let row = ctt_rules::course_row(self.instance, &self.lectures, course);
        Ok(row.to_vec(*self.lectures.allocator())?)
    }

    fn append_course_row(&self, course: CourseNo, list: &mut Vec<Placed>) -> Result<(), NoMemory> {
        let row = ctt_rules::course_row(self.instance, &self.lectures, course);
        Ok(list.extend_from_slice(row)?)
    }

    fn slot_row(&self, slot: SlotNo) -> Result<Vec<Placed>, NoMemory> {
        let mut row = Vec::new(*self.lectures.allocator());
        append_in_slot(&mut row, &self.lectures, slot)?;
        Ok(row)
    }

    fn list(&self) -> Result<Vec<Placed>, NoMemory> {
        Ok(self.lectures.as_slice().to_vec(*self.lectures.allocator())?)
    }

    fn copy(&self) -> Result<Self, NoMemory> {
        let mut lectures = reserve(*self.lectures.allocator(), self.instance)?;
        lectures.extend_from_slice(&self.lectures)?;
        Ok(ListSheet {
            instance: self.instance,
            lectures,
        })
    }
}

impl<'i> Sheet<'i> for ListSheet<'i> {
    fn empty(alloc: Global, instance: &'i Instance) -> Result<Self, NoMemory> {
        let lectures = reserve(alloc, instance)?;
        Ok(ListSheet { instance, lectures })
    }

    fn instance(&self) -> &'i Instance {
        self.instance
    }
}
