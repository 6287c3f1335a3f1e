//! Counts of the lectures of a timetable.

ghost use Rattle.std.specs.Prelude.{◌≡◌, IfOk, []};
ghost use Rattle.ctt_problem.specs.Belonging.{curricula_of};
ghost use Rattle.ctt_problem.specs.BitRows.{AddsMarks};
ghost use Rattle.ctt_problem.specs.Timetable.{Fits};
ghost use Rattle.ctt_grid.specs.Counts.{AreCounts, HaveSizes, HaveRoom, HaveLecture, AddsLecture, TakesMarks, in_one_slot};

use crate::table::Table;
use crate::tally::{add_one, mark_slot, take_one, unmark_slot};
use ctt_problem::{BitRows, Instance, Placed};
use std::alloc::{AllocError, Global};

/// The counts from which the costs of a timetable are computed.
#[derive(Drop)]
pub(crate) struct Counts {
    /// The lectures of each course: a single row, with a column for each course.
    pub(crate) lectures: Table<u16>,
    /// The lectures of each course (row) on each day (column).
    pub(crate) days: Table<u16>,
    /// The lectures of each course (row) in each room (column).
    pub(crate) rooms: Table<u16>,
    /// The slots in which each curriculum has a lecture: a row for each curriculum. A lawful
    /// timetable has no second lecture of a curriculum in a slot, so this is also their number.
    pub(crate) curricula: BitRows,
}

impl Counts {
    /// Returns the counts of the empty timetable.
    #[tactic(auto, using(crate::proofs::CountsLemmas::none_counted))]
    pub(crate) fn new(alloc: Global, instance: &Instance) -> Result<Self, AllocError>
        ensures { IfOk result (AreCounts instance.now []) }
    {
        instance.limits_hold();
        let courses = instance.courses() as usize;
        let curricula = instance.curricula() as usize;
        let slots = instance.slots() as usize;
        Ok(Counts {
            lectures: Table::new(alloc, 1, courses, 0)?,
            days: Table::new(alloc, courses, instance.days() as usize, 0)?,
            rooms: Table::new(alloc, courses, instance.rooms() as usize, 0)?,
            curricula: BitRows::new(alloc, curricula, slots)?,
        })
    }

    pub(crate) fn copy(&self) -> Result<Self, AllocError>
        ensures { IfOk result (λ c. c ≡ self.now) }
    {
        Ok(Counts {
            lectures: self.lectures.copy()?,
            days: self.days.copy()?,
            rooms: self.rooms.copy()?,
            curricula: self.curricula.copy()?,
        })
    }

    /// Adds one lecture to the counts.
    pub(crate) fn add(&mut self, instance: &Instance, lecture: &Placed)
        requires fits { Fits instance.now lecture.now }
        requires sizes { HaveSizes instance.now self.old }
        requires room { HaveRoom self.old }
        ensures counts { AddsLecture instance.now lecture.now self.old self.new }
        ensures curricula { AddsMarks self.old.curricula self.new.curricula
            (in_one_slot (curricula_of instance.now lecture.now.course) lecture.now.slot) }
    {
        instance.limits_hold();
        let course = lecture.course.get() as usize;
        let day = instance.day_of(lecture.slot) as usize;
        add_one(&mut self.lectures, 0, course);
        add_one(&mut self.days, course, day);
        add_one(&mut self.rooms, course, lecture.room.get() as usize);
        let curricula = instance.curricula_of(lecture.course);
        mark_slot(&mut self.curricula, curricula, lecture.slot);
    }

    /// Removes one lecture from the counts.
    pub(crate) fn take(&mut self, instance: &Instance, lecture: &Placed)
        requires fits { Fits instance.now lecture.now }
        requires sizes { HaveSizes instance.now self.old }
        requires there { HaveLecture instance.now lecture.now self.old }
        ensures counts { AddsLecture instance.now lecture.now self.new self.old }
        ensures curricula { TakesMarks self.old.curricula self.new.curricula
            (in_one_slot (curricula_of instance.now lecture.now.course) lecture.now.slot) }
    {
        instance.limits_hold();
        let course = lecture.course.get() as usize;
        let day = instance.day_of(lecture.slot) as usize;
        take_one(&mut self.lectures, 0, course);
        take_one(&mut self.days, course, day);
        take_one(&mut self.rooms, course, lecture.room.get() as usize);
        let curricula = instance.curricula_of(lecture.course);
        unmark_slot(&mut self.curricula, curricula, lecture.slot);
    }
}
