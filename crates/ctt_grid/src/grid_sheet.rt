//! A sheet that stores its lectures in tables of fixed size, and its costs.

ghost use Rattle.std.specs.Prelude.{◌≡◌, ◌<◌, ◌≤◌, ◌+◌, pos, ◌-ℤ◌, ◌++◌, [], false, Some, is_some, length, OnOk};
ghost use Rattle.std.specs.Vec.{vec_len, vec_capacity};
ghost use Rattle.ctt_problem.specs.Problem.{course_count, slot_count};
ghost use Rattle.ctt_problem.specs.Timetable.{course_row, slot_row, with, without, Fits};
ghost use Rattle.ctt_rules.specs.Hard.{Lawful};
ghost use Rattle.ctt_board.specs.Changes.{CellFits, CellsFit, room_at, apply_at, apply};
ghost use Rattle.ctt_rules.specs.Penalty.{penalty, total};
ghost use Rattle.ctt_grid.specs.Seen.{Sees, HasPlaces};
ghost use Rattle.ctt_board.specs.Cells.{lecture_at};
ghost use Rattle.ctt_board.specs.Ways.{Ready};

use crate::bound_laws;
use crate::cost_delta::{cost_delta, with_lecture, without_lecture};
use crate::counts_after::CountsAfter;
use crate::fitting::fits;
use crate::tables::Tables;
use ctt_board::{Cell, Change, Rooms, Sheet, Timetable, last_room};
use ctt_problem::{CourseNo, Instance, Marks, NoMemory, Placed, RoomNo, SlotNo};
use ctt_rules::Cost;
use std::alloc::{AllocError, Global};
use std::marker::Model;

/// A sheet that stores its lectures in a table by course and slot, the counts from which its costs
/// are computed, and the costs themselves. Changes allocate nothing.
pub struct GridSheet<'i> {
    instance: &'i Instance,
    tables: Tables,
    cost: Cost,
    alloc: Global,
}

// Written by hand because a derived `Drop` is proved again in each dependent crate.
impl<'i> Drop for GridSheet<'i> {
    fn drop(self) {
        let GridSheet {
            instance: _,
            tables: _,
            cost: _,
            alloc: _,
        } = self;
    }
}

impl<'i> Model for GridSheet<'i> {
    ghost use Rattle.ctt_board.specs.Boards.{Board};
    ghost use Rattle.ctt_grid.specs.Grids.{timetable_in, IsGridSheet};

    ghost Value = { Board };

    ghost view = { λ s. record {
      problem = s.instance.now;
      list = timetable_in s.instance.now s.tables.rooms;
    } };

    ghost invariant = { λ s. IsGridSheet s.instance.now s.tables s.cost };
}

impl<'i> GridSheet<'i> {
    fn add(&mut self, lecture: &Placed)
        requires fits { Fits self.old.problem lecture.now }
        requires empty { is_some (room_at lecture.now.course lecture.now.slot self.old.list)
            ≡ false }
        requires lawful { Lawful self.old.problem (with lecture.now self.old.list) }
        ensures problem { self.new.problem ≡ self.old.problem }
        ensures list { self.new.list ≡ with lecture.now self.old.list }
    {
        self.instance.limits_hold();
        let delta = cost_delta(
            &CountsAfter::now(&self.tables.counts),
            self.instance,
            lecture,
        );
        self.cost = with_lecture(self.cost, &delta);
        self.tables.add(self.instance, lecture);
    }

    fn remove(&mut self, lecture: &Placed)
        requires fits { Fits self.old.problem lecture.now }
        requires there { room_at lecture.now.course lecture.now.slot self.old.list
            ≡ Some lecture.now.room }
        ensures problem { self.new.problem ≡ self.old.problem }
        ensures list { self.new.list ≡ without lecture.now.course lecture.now.slot self.old.list }
    {
        self.instance.limits_hold();
        self.tables.remove(self.instance, lecture);
        let delta = cost_delta(
            &CountsAfter::now(&self.tables.counts),
            self.instance,
            lecture,
        );
        self.cost = without_lecture(self.cost, &delta);
    }

    fn make(&mut self, cell: &Cell)
        requires fits { CellFits self.old.list cell.now.course cell.now.slot cell.now.room }
        requires lawful { Lawful self.old.problem
            (apply_at cell.now.course cell.now.slot cell.now.room self.old.list) }
        requires course { cell.now.course < course_count self.old.problem }
        requires slot { cell.now.slot < slot_count self.old.problem }
        ensures problem { self.new.problem ≡ self.old.problem }
        ensures list { self.new.list
            ≡ apply_at cell.now.course cell.now.slot cell.now.room self.old.list }
    {
        self.lawful();
        let course = cell.course;
        let slot = cell.slot;
        match cell.room {
            None => {
                let room = self.room_at(course, slot).unwrap();
                self.remove(&Placed { course, slot, room });
            }
            Some(room) => self.add(&Placed { course, slot, room }),
        }
    }

    /// Appends the lecture of a course in a slot, if there is one.
    fn append_lecture(
        &self,
        list: &mut Vec<Placed>,
        course: CourseNo,
        slot: SlotNo,
    ) -> Result<(), AllocError>
        requires course { course < course_count self.now.problem }
        requires slot { slot < slot_count self.now.problem }
        ensures { OnOk result
            (list.new.items
            ≡ list.old.items ++ lecture_at course slot (room_at course slot self.now.list)) }
    {
        if let Some(room) = self.room_at(course, slot) {
            list.push(Placed { course, slot, room })?;
        }
        Ok(())
    }

    /// Appends the lectures of a course, by slot, to a list with capacity for them.
    fn append_course(&self, list: &mut Vec<Placed>, course: CourseNo)
        requires course { course < course_count self.now.problem }
        requires room { vec_len list.old + length (course_row course self.now.list)
            ≤ vec_capacity list.old }
        ensures { list.new.items ≡ list.old.items ++ course_row course self.now.list }
    {
        self.lawful();
        self.instance.limits_hold();
        let row = self.tables.rooms.row(course.get() as usize);
        for (number, here) in row.iter().enumerate() {
            if let Some(room) = here.room() {
                let slot = SlotNo::new(number as u16);
                list.push(Placed { course, slot, room }).unwrap();
            }
        }
    }
}

impl<'i> Rooms for GridSheet<'i> {
    ghost problem = { λ s. s.problem };

    ghost list = { λ s. s.list };

    fn lawful(&self) {
        let _tables = &self.tables;
    }

    fn room_at(&self, course: CourseNo, slot: SlotNo) -> Option<RoomNo> {
        self.tables.room_at(self.instance, course, slot)
    }

    fn holder(&self, slot: SlotNo, room: RoomNo) -> Option<CourseNo> {
        let here = self
            .tables
            .courses
            .get(slot.get() as usize, room.get() as usize);
        here.course()
    }

    fn standing(&self, slot: SlotNo) -> Marks {
        self.tables.courses_in_slot.row(slot.get() as usize)
    }

    fn count(&self, course: CourseNo) -> u32 {
        u32::from(self.tables.counts.lectures.get(0, course.get() as usize))
    }
}

/// Updates the counts by the next cell, after those already done, and returns what the cell adds to
/// the penalty.
fn step(
    instance: &Instance,
    sheet: &GridSheet,
    counts: &mut CountsAfter,
    done: &[Cell],
    cell: &Cell,
) -> i64
    requires same { sheet.now.problem ≡ instance.now }
    requires done { CellsFit done.now sheet.now.list }
    requires lawful { Lawful instance.now (apply done.now sheet.now.list) }
    requires ready { Ready instance.now cell.now.course cell.now.slot cell.now.room
        (apply done.now sheet.now.list) }
    requires sees { Sees instance.now counts.old (apply done.now sheet.now.list) }
    requires room { HasPlaces counts.old (length done.now) }
    requires few { length done.now < 4 }
    ensures sees { Sees instance.now counts.new
        (apply_at cell.now.course cell.now.slot cell.now.room (apply done.now sheet.now.list)) }
    ensures room { HasPlaces counts.new (length done.now + 1) }
    ensures value { result
        ≡ pos (total
        (penalty instance.now
        (apply_at cell.now.course cell.now.slot cell.now.room (apply done.now sheet.now.list))))
        -ℤ pos (total (penalty instance.now (apply done.now sheet.now.list))) }
{
    instance.limits_hold();
    let course = cell.course;
    let slot = cell.slot;
    match cell.room {
        None => {
            let before = sheet.room_at(course, slot);
            let room = last_room(done, course, slot, before).unwrap();
            -counts.remove(instance, &Placed { course, slot, room })
        }
        Some(room) => counts.add(instance, &Placed { course, slot, room }),
    }
}

impl<'i> Timetable for GridSheet<'i> {
    fn cost(&self) -> Cost {
        self.instance.limits_hold();
        bound_laws::penalty_fits();
        self.cost
    }

    fn delta(&self, change: &Change) -> i64 {
        self.lawful();
        self.instance.limits_hold();
        let cells = change.cells();
        let mut counts = CountsAfter::now(&self.tables.counts);
        let mut total = 0;
        for (number, cell) in cells.iter().enumerate() {
            total += step(self.instance, self, &mut counts, &cells[..number], cell);
        }
        total
    }

    fn accepts(&self, change: &Change) -> bool {
        fits(self.instance, self, change)
    }

    fn apply(&mut self, change: &Change) {
        self.lawful();
        let cells = change.cells();
        for cell in cells {
            self.make(cell);
        }
    }

    fn apply_all(&mut self, changes: &[Change]) {
        for change in changes {
            self.apply(change);
        }
    }

    fn course_row(&self, course: CourseNo) -> Result<Vec<Placed>, NoMemory> {
        let mut row = Vec::with_capacity(self.alloc, self.count(course) as usize)?;
        self.append_course(&mut row, course);
        Ok(row)
    }

    fn append_course_row(&self, course: CourseNo, list: &mut Vec<Placed>) -> Result<(), NoMemory> {
        list.reserve(self.count(course) as usize)?;
        self.append_course(list, course);
        Ok(())
    }

    fn slot_row(&self, slot: SlotNo) -> Result<Vec<Placed>, NoMemory> {
        self.lawful();
        self.instance.limits_hold();
        let courses = self.standing(slot);
        let end = self.instance.courses() as usize;
        let mut row = Vec::new(self.alloc);
        let mut from = 0;
        while let Some(course) = courses.next_between(from, end) {
            self.append_lecture(&mut row, CourseNo::new(course as u16), slot)?;
            from = course + 1;
        }
        Ok(row)
    }

    fn list(&self) -> Result<Vec<Placed>, NoMemory> {
        self.lawful();
        let mut list = Vec::new(self.alloc);
        for course in 0..self.instance.courses() {
            self.append_course_row(CourseNo::new(course), &mut list)?;
        }
        Ok(list)
    }

    fn copy(&self) -> Result<Self, NoMemory> {
        Ok(GridSheet {
            instance: self.instance,
            tables: self.tables.copy()?,
            cost: self.cost,
            alloc: self.alloc,
        })
    }
}

impl<'i> Sheet<'i> for GridSheet<'i> {
    fn empty(alloc: Global, instance: &'i Instance) -> Result<Self, NoMemory> {
        Ok(GridSheet {
            instance,
            tables: Tables::new(alloc, instance)?,
            cost: ctt_rules::penalty(instance, &[]),
            alloc,
        })
    }

    fn instance(&self) -> &'i Instance {
        self.instance
    }
}
