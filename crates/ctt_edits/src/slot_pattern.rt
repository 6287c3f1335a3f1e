//! Patterns that leave their new slot open.

ghost use Rattle.std.specs.Prelude.{◌≡◌, ◌↔◌, IsTrue};
ghost use Rattle.ctt_edits.specs.Candidates.{from_to};
ghost use Rattle.ctt_edits.specs.Offers.{pattern_of, other_choices, edit_to};
ghost use Rattle.ctt_edits.specs.Patterns.{PatternFits};

use crate::edit::Edit;
use crate::pattern::Pattern;
use ctt_problem::{CourseNo, Instance, RoomNo, SlotNo};
use std::ops::Range;

/// An edit in which the new slot is left open, and the room or the other course may be. For each
/// slot it stands for the edits to that slot that fill in the rest.
#[derive(Clone, Copy, PartialEq, Eq)]
pub enum SlotPattern {
    /// Places a lecture of the course in any slot and the room, or any room.
    Place(CourseNo, Option<RoomNo>),
    /// Moves the lecture of the course in the slot to any slot and the room, or any room.
    Move(CourseNo, SlotNo, Option<RoomNo>),
    /// Exchanges slot and room between the lecture of the course in the slot and any other lecture.
    Swap(CourseNo, SlotNo),
}

impl SlotPattern {
    /// Returns it as a pattern that stands for the edits to all slots.
    pub fn pattern(&self) -> Pattern
        ensures { result ≡ pattern_of self.now }
    {
        match *self {
            SlotPattern::Place(course, room) => Pattern::Place(course, None, room),
            SlotPattern::Move(course, slot, room) => Pattern::Move(course, slot, None, room),
            SlotPattern::Swap(course, slot) => Pattern::Swap(course, slot),
        }
    }

    /// Returns whether its numbers are those of the instance, and a given room is not named `*`.
    pub fn fits(&self, instance: &Instance) -> bool
        ensures { IsTrue result ↔ PatternFits instance.now (pattern_of self.now) }
    {
        self.pattern().fits(instance)
    }

    /// Returns the numbers of the rooms, or of a swap's other courses.
    pub(crate) fn other_choices(&self, instance: &Instance) -> Range<u16>
        requires { PatternFits instance.now (pattern_of self.now) }
        ensures { from_to result.start result.end ≡ other_choices instance.now self.now }
    {
        let pattern = self.pattern();
        match self {
            SlotPattern::Place(..) | SlotPattern::Move(..) => pattern.second_choices(instance),
            SlotPattern::Swap(..) => pattern.first_choices(instance),
        }
    }

    /// Returns the edit that fills it in with a slot and a room, or another course.
    pub(crate) fn edit(&self, slot: SlotNo, other: u16) -> Edit
        ensures { result ≡ edit_to self.now slot other }
    {
        match *self {
            SlotPattern::Place(course, _) => Edit::Place(course, slot, RoomNo::new(other)),
            SlotPattern::Move(course, from, _) => {
                Edit::Move(course, from, slot, RoomNo::new(other))
            }
            SlotPattern::Swap(course, from) => {
                Edit::Swap(course, from, CourseNo::new(other), slot)
            }
        }
    }
}
