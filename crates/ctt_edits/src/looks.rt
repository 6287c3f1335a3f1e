//! Looks: a planner's requests to see something.

ghost use Rattle.std.specs.Prelude.{◌↔◌, IsTrue};
ghost use Rattle.ctt_edits.specs.Looks.{LookFits};

use crate::edit::Edit;
use crate::pattern::Pattern;
use crate::slot_pattern::SlotPattern;
use ctt_problem::{CourseNo, CurriculumNo, Instance, SlotNo, TeacherNo};

/// The maximum number of edits that a look can request.
const MOST_EDITS: u16 = 1000;

/// A request to see a part of a timetable, its costs, or the prices of edits.
#[derive(Clone, Copy, PartialEq, Eq)]
pub enum Look {
    /// The lectures of a course.
    Course(CourseNo),
    /// The lectures in a slot.
    Slot(SlotNo),
    /// The lectures of all courses of a teacher.
    Teacher(TeacherNo),
    /// The lectures of all members of a curriculum.
    Curriculum(CurriculumNo),
    /// The costs of a course by room capacity, days and stability.
    CourseCost(CourseNo),
    /// The four costs of the timetable.
    Cost,
    /// What an edit would add to the penalty.
    Price(Edit),
    /// The courses with missing lectures.
    Missing,
    /// The cheapest edits of a pattern that can be made, at most this many.
    Cheapest(u16, Pattern),
    /// What each slot offers to a pattern.
    Slots(SlotPattern),
}

impl Look {
    /// Returns whether its numbers are those of the instance, and it requests at most 1,000 edits.
    pub fn fits(&self, instance: &Instance) -> bool
        ensures { IsTrue result ↔ LookFits instance.now self.now }
    {
        match self {
            Look::Course(course) => course.fits(instance),
            Look::Slot(slot) => slot.fits(instance),
            Look::Teacher(teacher) => teacher.fits(instance),
            Look::Curriculum(curriculum) => curriculum.fits(instance),
            Look::CourseCost(course) => course.fits(instance),
            Look::Cost => true,
            Look::Price(edit) => edit.fits(instance),
            Look::Missing => true,
            Look::Cheapest(count, pattern) => *count <= MOST_EDITS && pattern.fits(instance),
            Look::Slots(pattern) => pattern.fits(instance),
        }
    }
}
