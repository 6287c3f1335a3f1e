//! The set of rows that some calls read.

ghost use Rattle.std.specs.Prelude.{◌≡◌, ◌≤◌, ◌++◌, map, false, IfOk, OnOk};
ghost use Rattle.ctt_problem.specs.Lists.{below};
ghost use Rattle.ctt_problem.specs.Marks.{is_marked, IsLeast};
ghost use Rattle.ctt_problem.specs.Problem.{course_count, slot_count};
ghost use Rattle.ctt_edits.specs.Calls.{CallFits};
ghost use Rattle.ctt_edits.specs.declared.row.Row.TheVariants.{Course as CourseRow, Slot as SlotRow};
ghost use Rattle.ctt_edits.specs.RowSets.{has_course, has_slot, is_in, rows_of, AddsReads, between};

use crate::call::Call;
use crate::reading::mark_reads;
use crate::row::Row;
use ctt_problem::{CourseNo, Instance, Marks, NoMemory, SlotNo};
use std::alloc::Global;
use std::marker::Model;

/// A set of rows: those read by the calls that were added to it. Allocates nothing.
#[derive(Drop)]
pub struct RowsRead {
    courses: Marks,
    slots: Marks,
}

impl Model for RowsRead {
    ghost use Rattle.ctt_edits.specs.RowSets.{RowSet};

    ghost Value = { RowSet };

    ghost view = { λ r. record { courses = r.courses; slots = r.slots } };
}

impl RowsRead {
    /// Returns the empty set.
    pub fn new() -> Self
        ensures { (row : _) → is_in result row ≡ false }
    {
        RowsRead {
            courses: Marks::new(),
            slots: Marks::new(),
        }
    }

    /// Adds the rows that a call reads.
    pub fn add(&mut self, instance: &Instance, call: &Call)
        requires { CallFits instance.now call.now }
        ensures { AddsReads instance.now call.now self.old self.new }
    {
        mark_reads(instance, call, &mut self.courses, &mut self.slots);
    }

    /// Returns whether a row is in the set.
    pub fn contains(&self, row: Row) -> bool
        ensures { result ≡ is_in self.now row }
    {
        match row {
            Row::Course(course) => self.courses.is_marked(course.get() as usize),
            Row::Slot(slot) => self.slots.is_marked(slot.get() as usize),
        }
    }

    /// Returns the first course of the instance, from a number on, whose row is in the set.
    pub fn next_course(&self, instance: &Instance, from: u16) -> Option<CourseNo>
        ensures { IsLeast (between from (course_count instance.now) (has_course self.now)) result }
    {
        let number = next_marked(&self.courses, from, instance.courses())?;
        Some(CourseNo::new(number))
    }

    /// Returns the first slot of the instance, from a number on, whose row is in the set.
    pub fn next_slot(&self, instance: &Instance, from: u16) -> Option<SlotNo>
        ensures { IsLeast (between from (slot_count instance.now) (has_slot self.now)) result }
    {
        let number = next_marked(&self.slots, from, instance.slots())?;
        Some(SlotNo::new(number))
    }

    /// Returns the rows of the instance in the set, ascending, each once.
    pub fn list(&self, alloc: Global, instance: &Instance) -> Result<Vec<Row>, NoMemory>
        ensures { IfOk result (λ rows. rows.items ≡ rows_of instance.now self.now) }
    {
        let mut rows = Vec::new(alloc);
        self.list_courses(instance, &mut rows)?;
        self.list_slots(instance, &mut rows)?;
        Ok(rows)
    }

    /// Appends the rows of courses to a list.
    fn list_courses(&self, instance: &Instance, rows: &mut Vec<Row>) -> Result<(), NoMemory>
        ensures { OnOk result (rows.new.items
            ≡ rows.old.items
            ++ map CourseRow (below (has_course self.now) (course_count instance.now))) }
    {
        instance.limits_hold();
        let mut from = 0;
        while let Some(course) = self.next_course(instance, from) {
            rows.push(Row::Course(course))?;
            from = course.get() + 1;
        }
        Ok(())
    }

    /// Appends the rows of slots to a list.
    fn list_slots(&self, instance: &Instance, rows: &mut Vec<Row>) -> Result<(), NoMemory>
        ensures { OnOk result (rows.new.items
            ≡ rows.old.items ++ map SlotRow (below (has_slot self.now) (slot_count instance.now))) }
    {
        instance.limits_hold();
        let mut from = 0;
        while let Some(slot) = self.next_slot(instance, from) {
            rows.push(Row::Slot(slot))?;
            from = slot.get() + 1;
        }
        Ok(())
    }
}

/// Returns the first marked number that is at least `from` and below `end`.
pub(crate) fn next_marked(marks: &Marks, from: u16, end: u16) -> Option<u16>
    requires { end ≤ 2000 }
    ensures { IsLeast (between from end (is_marked marks.now)) result }
{
    let number = marks.next_between(from as usize, end as usize)?;
    Some(number as u16)
}
