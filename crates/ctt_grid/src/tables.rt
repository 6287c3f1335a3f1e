//! The tables of a sheet.

ghost use Rattle.std.specs.Prelude.{◌≡◌, ◌<◌, [], List, false, Some, is_some, IfOk};
ghost use Rattle.ctt_problem.specs.Problem.{course_count, slot_count};
ghost use Rattle.ctt_problem.specs.Timetable.{with, without, Fits};
ghost use Rattle.ctt_problem.specs.declared.placed.Placed.{Placed};
ghost use Rattle.ctt_rules.specs.Hard.{Lawful};
ghost use Rattle.ctt_board.specs.Changes.{room_at};
ghost use Rattle.ctt_grid.specs.Grids.{timetable_in, AreTables, ArePlaces, HavePlaceSizes};

use crate::counts::Counts;
use crate::table::Table;
use ctt_problem::{BitRows, Compact, CourseNo, Instance, Placed, RoomNo, SlotNo};
use std::alloc::{AllocError, Global};

/// The lectures of a timetable in a table by course and slot, with tables for look-ups by slot and
/// the counts from which its costs are computed.
#[derive(Drop)]
pub(crate) struct Tables {
    /// The room of each course (row) in each slot (column).
    pub(crate) rooms: Table<Compact>,
    /// The course in each slot (row) and room (column).
    pub(crate) courses: Table<Compact>,
    /// The courses that have a lecture in each slot: a row for each slot.
    pub(crate) courses_in_slot: BitRows,
    pub(crate) counts: Counts,
}

impl Tables {
    /// Returns the tables of the empty timetable.
    pub(crate) fn new(alloc: Global, instance: &Instance) -> Result<Self, AllocError>
        ensures tables { IfOk result (AreTables instance.now) }
        ensures list { IfOk result (λ tables. timetable_in instance.now tables.rooms ≡ []) }
    {
        instance.limits_hold();
        let courses = instance.courses() as usize;
        let slots = instance.slots() as usize;
        let none = Compact::none();
        Ok(Tables {
            rooms: Table::new(alloc, courses, slots, none)?,
            courses: Table::new(alloc, slots, instance.rooms() as usize, none)?,
            courses_in_slot: BitRows::new(alloc, slots, courses)?,
            counts: Counts::new(alloc, instance)?,
        })
    }

    pub(crate) fn copy(&self) -> Result<Self, AllocError>
        ensures { IfOk result (λ tables. tables ≡ self.now) }
    {
        Ok(Tables {
            rooms: self.rooms.copy()?,
            courses: self.courses.copy()?,
            courses_in_slot: self.courses_in_slot.copy()?,
            counts: self.counts.copy()?,
        })
    }

    /// Returns the room of the lecture of a course in a slot, if there is one.
    pub(crate) fn room_at(
        &self,
        instance: &Instance,
        course: CourseNo,
        slot: SlotNo,
    ) -> Option<RoomNo>
        requires tables { AreTables instance.now self.now }
        requires course { course < course_count instance.now }
        requires slot { slot < slot_count instance.now }
        ensures { result ≡ room_at course slot (timetable_in instance.now self.now.rooms) }
    {
        let here = self.rooms.get(course.get() as usize, slot.get() as usize);
        here.room()
    }

    /// Writes a lecture into the look-up tables, not into the counts.
    #[inline(always)]
    fn lay(&mut self, instance: &Instance, lecture: &Placed)
        requires fits { Fits instance.now lecture.now }
        requires sizes { HavePlaceSizes instance.now self.old }
        ensures places { (t : List Placed) → ArePlaces instance.now t self.old
            → is_some (room_at lecture.now.course lecture.now.slot t) ≡ false
            → Lawful instance.now (with lecture.now t)
            → ArePlaces instance.now (with lecture.now t) self.new }
        ensures counts { self.new.counts ≡ self.old.counts }
    {
        instance.limits_hold();
        let course = lecture.course.get() as usize;
        let slot = lecture.slot.get() as usize;
        self.rooms.set(course, slot, Compact::of_room(lecture.room));
        let room = lecture.room.get() as usize;
        self.courses
            .set(slot, room, Compact::of_course(lecture.course));
        self.courses_in_slot.mark(slot, course);
    }

    /// Removes a lecture from the look-up tables, not from the counts.
    #[inline(always)]
    fn lift(&mut self, instance: &Instance, lecture: &Placed)
        requires fits { Fits instance.now lecture.now }
        requires sizes { HavePlaceSizes instance.now self.old }
        ensures places { (t : List Placed) → ArePlaces instance.now t self.old
            → room_at lecture.now.course lecture.now.slot t ≡ Some lecture.now.room
            → Lawful instance.now t
            → ArePlaces instance.now (without lecture.now.course lecture.now.slot t) self.new }
        ensures counts { self.new.counts ≡ self.old.counts }
    {
        instance.limits_hold();
        let none = Compact::none();
        let course = lecture.course.get() as usize;
        let slot = lecture.slot.get() as usize;
        self.rooms.set(course, slot, none);
        let room = lecture.room.get() as usize;
        self.courses.set(slot, room, none);
        self.courses_in_slot.unmark(slot, course);
    }

    #[inline(always)]
    pub(crate) fn add(&mut self, instance: &Instance, lecture: &Placed)
        requires tables { AreTables instance.now self.old }
        requires fits { Fits instance.now lecture.now }
        requires empty { is_some
            (room_at lecture.now.course lecture.now.slot (timetable_in instance.now self.old.rooms))
            ≡ false }
        requires lawful { Lawful instance.now
            (with lecture.now (timetable_in instance.now self.old.rooms)) }
        ensures tables { AreTables instance.now self.new }
        ensures list { timetable_in instance.now self.new.rooms
            ≡ with lecture.now (timetable_in instance.now self.old.rooms) }
    {
        instance.limits_hold();
        self.counts.add(instance, lecture);
        self.lay(instance, lecture);
    }

    #[inline(always)]
    pub(crate) fn remove(&mut self, instance: &Instance, lecture: &Placed)
        requires tables { AreTables instance.now self.old }
        requires fits { Fits instance.now lecture.now }
        requires there { room_at lecture.now.course lecture.now.slot
            (timetable_in instance.now self.old.rooms) ≡ Some lecture.now.room }
        ensures tables { AreTables instance.now self.new }
        ensures list { timetable_in instance.now self.new.rooms
            ≡ without lecture.now.course lecture.now.slot
            (timetable_in instance.now self.old.rooms) }
    {
        instance.limits_hold();
        self.counts.take(instance, lecture);
        self.lift(instance, lecture);
    }
}
