//! Comparing a draft's snapshot with a sheet, in the rows that the draft read.

ghost use Rattle.std.specs.Prelude.{ℕ, ◌≡◌, ◌<◌, ◌≤◌, ◌↔◌, ◌==◌, ◌&&◌, ◌||◌, false, IsTrue, IfSome};
ghost use Rattle.std.specs.List.{find};
ghost use Rattle.std.specs.Option.{option_eq};
ghost use Rattle.ctt_problem.specs.Lists.{below};
ghost use Rattle.ctt_problem.specs.Marks.{is_marked};
ghost use Rattle.ctt_problem.specs.Problem.{course_count, slot_count, room_count};
ghost use Rattle.ctt_problem.specs.Timetable.{IsTimetable, course_row, slot_row};
ghost use Rattle.ctt_board.specs.Changes.{room_at};
ghost use Rattle.ctt_edits.specs.RowSets.{has_course, has_slot};
ghost use Rattle.ctt_edits.specs.declared.row.Row.TheVariants.{Course as CourseRow, Slot as SlotRow};
ghost use Rattle.ctt_draft.specs.Drafts.{differs};
ghost use Rattle.ctt_draft.specs.Undo.{is_named, put_back, AreWithin, Records};
ghost use Rattle.ctt_draft.specs.Comparisons.{base_of, has_other_in_course, has_other_in_slot, is_other, is_none_or_named, agrees_in_room, IsComparable};

use crate::undo::Undo;
use ctt_board::{Cell, Rooms};
use ctt_edits::RowsRead;
use ctt_problem::{CourseNo, Instance, Marks, RoomNo, SlotNo};
use std::marker::Model;

/// A comparison of a draft's snapshot with a sheet. The snapshot is given by the draft's present
/// sheet and the recorded cells that lead back to it. Allocates nothing.
#[derive(Drop)]
pub(crate) struct Comparison<'a, R: Rooms> {
    instance: &'a Instance,
    present: &'a R,
    undo: &'a Undo,
    sheet: &'a R,
    /// The courses of the recorded cells in which the sheet differs from the snapshot.
    courses: Marks,
    /// The slots of these cells.
    slots: Marks,
}

impl<'a, R: Rooms> Model for Comparison<'a, R> {
    ghost use Rattle.ctt_draft.specs.Comparisons.{Compared, IsComparison};

    ghost Value = { Compared };

    ghost view = { λ c. record {
      problem = c.instance.now;
      present = R.list c.present.now;
      undo = c.undo.now.cells;
      sheet = R.list c.sheet.now;
    } };

    ghost invariant = { λ c.
        IsComparison c.instance.now (R.problem c.present.now) (R.problem c.sheet.now)
        (R.list c.present.now) (R.list c.sheet.now) c.undo.now c.courses c.slots };
}

/// Marks the course and the slot of a cell if the sheet differs from it there.
fn mark_if_other<R: Rooms>(cell: &Cell, sheet: &R, courses: &mut Marks, slots: &mut Marks)
    requires course { cell.now.course < course_count (R.problem sheet.now) }
    requires slot { cell.now.slot < slot_count (R.problem sheet.now) }
    requires few_courses { course_count (R.problem sheet.now) ≤ 2000 }
    requires few_slots { slot_count (R.problem sheet.now) ≤ 2000 }
    ensures courses { (n : ℕ) → is_marked courses.new n
        ≡ (is_marked courses.old n
        || (cell.now.course == n && is_other (R.list sheet.now) cell.now)) }
    ensures slots { (n : ℕ) → is_marked slots.new n
        ≡ (is_marked slots.old n || (cell.now.slot == n && is_other (R.list sheet.now) cell.now)) }
{
    if cell.room != sheet.room_at(cell.course, cell.slot) {
        courses.mark(cell.course.get() as usize);
        slots.mark(cell.slot.get() as usize);
    }
}

/// Marks the courses and the slots of the cells from which the sheet differs.
fn mark_others<R: Rooms>(cells: &[Cell], sheet: &R, courses: &mut Marks, slots: &mut Marks)
    requires within { AreWithin (course_count (R.problem sheet.now))
        (slot_count (R.problem sheet.now)) cells.now }
    requires few_courses { course_count (R.problem sheet.now) ≤ 2000 }
    requires few_slots { slot_count (R.problem sheet.now) ≤ 2000 }
    ensures courses { (n : ℕ) → is_marked courses.new n
        ≡ (is_marked courses.old n || has_other_in_course n (R.list sheet.now) cells.now) }
    ensures slots { (n : ℕ) → is_marked slots.new n
        ≡ (is_marked slots.old n || has_other_in_slot n (R.list sheet.now) cells.now) }
{
    for cell in cells {
        mark_if_other(cell, sheet, courses, slots);
    }
}

impl<'a, R: Rooms> Comparison<'a, R> {
    /// Compares a sheet with the snapshot to which an undo record leads back from the present
    /// timetable.
    pub(crate) fn new(instance: &'a Instance, present: &'a R, undo: &'a Undo, sheet: &'a R) -> Self
        requires present { R.problem present.now ≡ instance.now }
        requires sheet { R.problem sheet.now ≡ instance.now }
        requires courses { undo.now.courses ≡ course_count instance.now }
        requires slots { undo.now.slots ≡ slot_count instance.now }
        requires base { IsTimetable instance.now (put_back instance.now undo.now.cells
            (R.list present.now)) }
        requires records { Records (put_back instance.now undo.now.cells (R.list present.now))
            (R.list present.now) undo.now.cells }
        ensures { result ≡ record {
          problem = instance.now;
          present = R.list present.now;
          undo = undo.now.cells;
          sheet = R.list sheet.now;
        } }
    {
        present.lawful();
        sheet.lawful();
        instance.limits_hold();
        let mut courses = Marks::new();
        let mut slots = Marks::new();
        mark_others(undo.cells(), sheet, &mut courses, &mut slots);
        Comparison {
            instance,
            present,
            undo,
            sheet,
            courses,
            slots,
        }
    }

    /// Computes nothing: its contract says that the snapshot is a timetable, that the present one
    /// and the sheet are lawful, and that the present one differs from the snapshot in recorded
    /// cells only.
    fn are_timetables(&self)
        ensures { IsComparable self.now }
    {
        let _courses = &self.courses;
    }

    fn instance(&self) -> &'a Instance
        ensures { result.now ≡ self.now.problem }
    {
        self.instance
    }

    /// Returns whether the sheet differs from the snapshot in a recorded cell of a course.
    fn has_other_in_course(&self, course: CourseNo) -> bool
        ensures { result ≡ has_other_in_course course self.now.sheet self.now.undo }
    {
        self.courses.is_marked(course.get() as usize)
    }

    /// Returns whether the sheet differs from the snapshot in a recorded cell of a slot.
    fn has_other_in_slot(&self, slot: SlotNo) -> bool
        ensures { result ≡ has_other_in_slot slot self.now.sheet self.now.undo }
    {
        self.slots.is_marked(slot.get() as usize)
    }

    /// Returns whether the sheet agrees with the present timetable in a cell, or the cell is
    /// recorded.
    fn is_same_or_recorded(&self, course: CourseNo, slot: SlotNo) -> bool
        requires course { course < course_count self.now.problem }
        requires slot { slot < slot_count self.now.problem }
        ensures { result ≡ (option_eq (λ (a b : ℕ). a == b)
            (room_at course slot self.now.present) (room_at course slot self.now.sheet)
            || is_named course slot self.now.undo) }
    {
        self.present.room_at(course, slot) == self.sheet.room_at(course, slot)
            || self.undo.has(course, slot)
    }

    /// Returns whether there is no course, or its cell in a slot is recorded.
    fn is_none_or_recorded(&self, course: Option<CourseNo>, slot: SlotNo) -> bool
        requires course { IfSome course (λ c. c < course_count self.now.problem) }
        requires slot { slot < slot_count self.now.problem }
        ensures { result ≡ is_none_or_named slot self.now.undo course }
    {
        match course {
            None => true,
            Some(course) => self.undo.has(course, slot),
        }
    }

    /// Returns whether a room has the same course in a slot of the present timetable and of the
    /// sheet, or the cell of each course that has it is recorded.
    fn agrees_in_room(&self, slot: SlotNo, room: RoomNo) -> bool
        requires slot { slot < slot_count self.now.problem }
        requires room { room < room_count self.now.problem }
        ensures { result ≡ agrees_in_room slot room self.now }
    {
        self.are_timetables();
        let here = self.present.holder(slot, room);
        let there = self.sheet.holder(slot, room);
        here == there
            || (self.is_none_or_recorded(here, slot) && self.is_none_or_recorded(there, slot))
    }

    /// Returns whether a course has the same lectures in the snapshot and on the sheet.
    fn same_course_row(&self, course: CourseNo) -> bool
        requires { course < course_count self.now.problem }
        ensures { IsTrue result
            ↔ (course_row course (base_of self.now) ≡ course_row course self.now.sheet) }
    {
        self.are_timetables();
        let instance = self.instance();
        if self.has_other_in_course(course) {
            return false;
        }
        for number in 0..instance.slots() {
            if !self.is_same_or_recorded(course, SlotNo::new(number)) {
                return false;
            }
        }
        true
    }

    /// Returns whether a slot has the same lectures in the snapshot and on the sheet.
    fn same_slot_row(&self, slot: SlotNo) -> bool
        requires { slot < slot_count self.now.problem }
        ensures { IsTrue result
            ↔ (slot_row slot (base_of self.now) ≡ slot_row slot self.now.sheet) }
    {
        self.are_timetables();
        let instance = self.instance();
        if self.has_other_in_slot(slot) {
            return false;
        }
        for number in 0..instance.rooms() {
            if !self.agrees_in_room(slot, RoomNo::new(number)) {
                return false;
            }
        }
        true
    }

    fn course_differs(&self, course: CourseNo) -> bool
        requires { course < course_count self.now.problem }
        ensures { result ≡ differs (base_of self.now) self.now.sheet (CourseRow course) }
    {
        !self.same_course_row(course)
    }

    fn slot_differs(&self, slot: SlotNo) -> bool
        requires { slot < slot_count self.now.problem }
        ensures { result ≡ differs (base_of self.now) self.now.sheet (SlotRow slot) }
    {
        !self.same_slot_row(slot)
    }

    /// Returns the first course whose row was read and differs, if any.
    pub(crate) fn first_course(&self, rows: &RowsRead) -> Option<CourseNo>
        ensures { result ≡ find (λ c. differs (base_of self.now) self.now.sheet (CourseRow c))
            (below (has_course rows.now) (course_count self.now.problem)) }
    {
        let instance = self.instance();
        instance.limits_hold();
        let mut from = 0;
        while let Some(course) = rows.next_course(instance, from) {
            if self.course_differs(course) {
                return Some(course);
            }
            from = course.get() + 1;
        }
        None
    }

    /// Returns the first slot whose row was read and differs, if any.
    pub(crate) fn first_slot(&self, rows: &RowsRead) -> Option<SlotNo>
        ensures { result ≡ find (λ s. differs (base_of self.now) self.now.sheet (SlotRow s))
            (below (has_slot rows.now) (slot_count self.now.problem)) }
    {
        let instance = self.instance();
        instance.limits_hold();
        let mut from = 0;
        while let Some(slot) = rows.next_slot(instance, from) {
            if self.slot_differs(slot) {
                return Some(slot);
            }
            from = slot.get() + 1;
        }
        None
    }
}
