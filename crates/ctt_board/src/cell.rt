//! A cell: one lecture that a change adds or removes.

use ctt_problem::{CourseNo, RoomNo, SlotNo};

/// A lecture of a course in a slot: with a room, it is added there; without one, it is removed.
#[derive(Clone, Copy, Default, PartialEq, Eq)]
pub struct Cell {
    pub course: CourseNo,
    pub slot: SlotNo,
    pub room: Option<RoomNo>,
}
