//! The rows of a timetable, the units in which calls read it.

ghost use Rattle.std.specs.Prelude.{◌↔◌, IsTrue};
ghost use Rattle.ctt_edits.specs.Calls.{RowBefore};

use ctt_problem::{CourseNo, SlotNo};

/// A row of a timetable. Rows are ordered: courses by number, then slots by number.
#[derive(Clone, Copy, PartialEq, Eq, PartialOrd, Ord)]
pub enum Row {
    /// The lectures of a course.
    Course(CourseNo),
    /// The lectures in a slot.
    Slot(SlotNo),
}

impl Row {
    /// Returns whether it comes before another row.
    pub fn is_before(self, other: Row) -> bool
        ensures { IsTrue result ↔ RowBefore self other }
    {
        self < other
    }
}
