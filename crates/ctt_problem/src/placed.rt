//! A lecture with its slot and room.

use crate::ids::{CourseNo, RoomNo, SlotNo};

/// A lecture of a course in a slot and a room.
#[derive(Clone, Copy, Debug, Default, PartialEq, Eq, Hash)]
pub struct Placed {
    pub course: CourseNo,
    pub slot: SlotNo,
    pub room: RoomNo,
}
