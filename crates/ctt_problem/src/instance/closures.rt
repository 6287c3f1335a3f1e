//! What closures block.

ghost use Rattle.std.specs.Prelude.{◌≡◌, ◌<◌};
ghost use Rattle.ctt_problem.specs.BitRows.{marks_of, HasSize};
ghost use Rattle.ctt_problem.specs.Problem.{course_count, room_count, slot_count, is_blocked, has_blocked, is_closed};

use crate::bit_rows::BitRows;
use crate::ids::{CourseNo, RoomNo, SlotNo};
use crate::instance::Instance;

impl Instance {
    /// Returns whether a closure blocks a course in a slot, or its teacher.
    pub fn closed(&self, course: CourseNo, slot: SlotNo) -> bool
        requires course { course < course_count self.now }
        requires slot { slot < slot_count self.now }
        ensures { result ≡ is_closed self.now course slot }
    {
        self.closed
            .is_marked(course.get() as usize, slot.get() as usize)
    }

    /// Returns whether a room is blocked in a slot.
    pub fn blocked(&self, room: RoomNo, slot: SlotNo) -> bool
        requires room { room < room_count self.now }
        requires slot { slot < slot_count self.now }
        ensures { result ≡ is_blocked self.now room slot }
    {
        self.blocked
            .is_marked(room.get() as usize, slot.get() as usize)
    }

    /// Blocks the courses in the slots that the first table marks, and the rooms in those that the
    /// second one marks, and no others. What the text of the instance lists as unavailable stays.
    pub fn set_blocked(&mut self, closed: BitRows, blocked: BitRows)
        requires closed { HasSize closed (course_count self.old) (slot_count self.old) }
        requires blocked { HasSize blocked (room_count self.old) (slot_count self.old) }
        ensures { self.new
            ≡ record self.old { closed = marks_of closed; blocked = marks_of blocked } }
    {
        self.closed = closed;
        self.blocked = blocked;
    }

    /// Returns whether any room is blocked in any slot.
    pub fn has_blocked(&self) -> bool
        ensures { result ≡ has_blocked self.now }
    {
        self.blocked.has_marks()
    }
}
