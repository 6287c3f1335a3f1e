//! A view of a timetable as a change would leave it. The change is not made, and nothing is
//! allocated.

ghost use Rattle.std.specs.Prelude.{◌≡◌, ◌≤◌, true, length, count_by};
ghost use Rattle.ctt_rules.specs.Hard.{Lawful};
ghost use Rattle.ctt_board.specs.Changes.{room_by, held_after, holder_by, is_added, is_removed, is_change, apply, CellsFit};

use crate::cell::Cell;
use crate::sheet::Rooms;
use crate::standing::change_standing;
use ctt_problem::{CourseNo, Instance, Marks, RoomNo, SlotNo};
use std::marker::Model;

/// A view of a timetable after some cells of a change. It is lawful.
#[derive(Drop)]
pub struct After<'a, R: Rooms> {
    instance: &'a Instance,
    rooms: &'a R,
    cells: &'a [Cell],
}

impl<'a, R: Rooms> Model for After<'a, R> {
    ghost use Rattle.ctt_board.specs.Boards.{Board, IsAfter};
    ghost use Rattle.ctt_board.specs.Changes.{apply};

    ghost Value = { Board };

    ghost view = { λ a. record {
      problem = a.instance.now;
      list = apply a.cells.now (R.list a.rooms.now);
    } };

    ghost invariant = { λ a.
        IsAfter a.instance.now (R.problem a.rooms.now) (R.list a.rooms.now) a.cells.now };
}

/// Returns the room of a course in a slot after these cells, given the room before them.
pub fn last_room(
    cells: &[Cell],
    course: CourseNo,
    slot: SlotNo,
    room: Option<RoomNo>,
) -> Option<RoomNo>
    ensures { result ≡ room_by cells.now course slot room }
{
    let mut last = room;
    for cell in cells {
        if cell.course == course && cell.slot == slot {
            last = cell.room;
        }
    }
    last
}

/// Returns the course that has a room in a slot after a cell, given the one before it.
fn held_after(cell: &Cell, slot: SlotNo, room: RoomNo, holder: Option<CourseNo>) -> Option<CourseNo>
    ensures { result ≡ held_after cell.now slot room holder }
{
    if cell.slot != slot {
        return holder;
    }
    match cell.room {
        None if holder == Some(cell.course) => None,
        Some(taken) if taken == room => Some(cell.course),
        _ => holder,
    }
}

/// Returns the course that has a room in a slot after these cells, given the one before them.
fn last_holder(
    cells: &[Cell],
    slot: SlotNo,
    room: RoomNo,
    holder: Option<CourseNo>,
) -> Option<CourseNo>
    ensures { result ≡ holder_by cells.now slot room holder }
{
    let mut last = holder;
    for cell in cells {
        last = held_after(cell, slot, room, last);
    }
    last
}

/// Returns how many lectures of a course these cells add.
fn count_added(cells: &[Cell], course: CourseNo) -> u32
    requires { length cells.now ≤ 4 }
    ensures value { result ≡ count_by (is_added course) cells.now }
    ensures bound { result ≤ 4 }
{
    let mut count = 0;
    for cell in cells {
        if cell.course == course && cell.room.is_some() {
            count += 1;
        }
    }
    count
}

/// Returns how many lectures of a course these cells remove.
fn count_removed(cells: &[Cell], course: CourseNo) -> u32
    requires { length cells.now ≤ 4 }
    ensures value { result ≡ count_by (is_removed course) cells.now }
    ensures bound { result ≤ 4 }
{
    let mut count = 0;
    for cell in cells {
        if cell.course == course && cell.room.is_none() {
            count += 1;
        }
    }
    count
}

impl<'a, R: Rooms> After<'a, R> {
    /// Returns a view of the timetable after these cells.
    pub fn new(instance: &'a Instance, rooms: &'a R, cells: &'a [Cell]) -> Self
        requires same { R.problem rooms.now ≡ instance.now }
        requires change { is_change cells.now ≡ true }
        requires fit { CellsFit cells.now (R.list rooms.now) }
        requires lawful { Lawful instance.now (apply cells.now (R.list rooms.now)) }
        ensures problem { result.problem ≡ instance.now }
        ensures list { result.list ≡ apply cells.now (R.list rooms.now) }
    {
        After {
            instance,
            rooms,
            cells,
        }
    }

    /// Returns the instance.
    pub fn instance(&self) -> &'a Instance
        ensures { result.now ≡ self.now.problem }
    {
        self.instance
    }
}

impl<'a, R: Rooms> Rooms for After<'a, R> {
    ghost problem = { λ a. a.problem };

    ghost list = { λ a. a.list };

    fn lawful(&self) {
        let _cells = &self.cells;
    }

    fn room_at(&self, course: CourseNo, slot: SlotNo) -> Option<RoomNo> {
        last_room(self.cells, course, slot, self.rooms.room_at(course, slot))
    }

    fn holder(&self, slot: SlotNo, room: RoomNo) -> Option<CourseNo> {
        self.rooms.lawful();
        last_holder(self.cells, slot, room, self.rooms.holder(slot, room))
    }

    fn standing(&self, slot: SlotNo) -> Marks {
        self.rooms.lawful();
        self.instance.limits_hold();
        let mut standing = self.rooms.standing(slot);
        change_standing(&mut standing, self.cells, slot);
        standing
    }

    fn count(&self, course: CourseNo) -> u32 {
        self.rooms.lawful();
        self.instance.limits_hold();
        let count = self.rooms.count(course) + count_added(self.cells, course);
        count - count_removed(self.cells, course)
    }
}
