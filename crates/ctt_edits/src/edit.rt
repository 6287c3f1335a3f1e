//! Edits: a planner's requests to change a timetable.

ghost use Rattle.std.specs.Prelude.{◌↔◌, IsTrue};
ghost use Rattle.ctt_edits.specs.Edits.{EditFits};

use ctt_problem::{CourseNo, Instance, RoomNo, SlotNo};

/// A request to change one lecture, or to swap two.
#[derive(Clone, Copy, PartialEq, Eq)]
pub enum Edit {
    /// Places a lecture of the course in the slot and the room.
    Place(CourseNo, SlotNo, RoomNo),
    /// Moves the lecture of the course in the first slot to the second slot and the room.
    Move(CourseNo, SlotNo, SlotNo, RoomNo),
    /// Exchanges slot and room between the lecture of the first course and slot and the lecture of
    /// the second course and slot.
    Swap(CourseNo, SlotNo, CourseNo, SlotNo),
    /// Moves the lecture of the course in the slot to the room, in the same slot.
    Reroom(CourseNo, SlotNo, RoomNo),
    /// Removes the lecture of the course in the slot.
    Drop(CourseNo, SlotNo),
}

impl Edit {
    /// Returns whether its numbers are those of the instance.
    pub fn fits(&self, instance: &Instance) -> bool
        ensures { IsTrue result ↔ EditFits instance.now self.now }
    {
        match self {
            Edit::Place(course, slot, room) | Edit::Reroom(course, slot, room) => {
                course.fits(instance) && slot.fits(instance) && room.fits(instance)
            }
            Edit::Move(course, slot, target, room) => {
                course.fits(instance)
                    && slot.fits(instance)
                    && target.fits(instance)
                    && room.fits(instance)
            }
            Edit::Swap(course, slot, other, other_slot) => {
                course.fits(instance)
                    && slot.fits(instance)
                    && other.fits(instance)
                    && other_slot.fits(instance)
            }
            Edit::Drop(course, slot) => course.fits(instance) && slot.fits(instance),
        }
    }
}
