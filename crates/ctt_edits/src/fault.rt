//! Why an edit is refused.

ghost use Rattle.std.specs.Prelude.{◌↔◌, IsTrue};
ghost use Rattle.ctt_edits.specs.Fitting.{FaultFits};

use ctt_problem::{CourseNo, Instance};
use thiserror::Error;

/// The reason why an edit is refused.
#[derive(Clone, Copy, Debug, PartialEq, Eq, Error)]
pub enum EditFault {
    /// A lecture that the edit names is not placed.
    #[error("no such lecture")]
    NotPlaced,
    /// The edit moves a lecture to its own slot.
    #[error("its own slot")]
    SameSlot,
    /// The edit swaps two lectures of one course.
    #[error("two lectures of one course")]
    SameCourse,
    /// The course already has a lecture in the slot.
    #[error("a lecture of the course is there already")]
    AlreadyThere,
    /// All lectures of the course are already placed.
    #[error("all lectures of the course are placed")]
    CourseFull,
    /// The course is unavailable in the slot.
    #[error("the course is unavailable")]
    Unavailable,
    /// The room is barred for the course.
    #[error("the room is barred")]
    Barred,
    /// The room is blocked in the slot.
    #[error("the room is blocked")]
    Blocked,
    /// A clashing course has a lecture in the slot; of several, the one with the lowest number.
    #[error("a clash with {0:?}")]
    Clash(CourseNo),
    /// A lecture of this course is in the room in that slot.
    #[error("the room is taken by {0:?}")]
    RoomTaken(CourseNo),
}

impl EditFault {
    /// Returns whether the course that it names, if any, is one of the instance.
    pub fn fits(&self, instance: &Instance) -> bool
        ensures { IsTrue result ↔ FaultFits instance.now self.now }
    {
        match self {
            EditFault::Clash(course) | EditFault::RoomTaken(course) => course.fits(instance),
            EditFault::NotPlaced
            | EditFault::SameSlot
            | EditFault::SameCourse
            | EditFault::AlreadyThere
            | EditFault::CourseFull
            | EditFault::Unavailable
            | EditFault::Barred
            | EditFault::Blocked => true,
        }
    }
}
