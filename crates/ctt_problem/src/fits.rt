//! Range checks of numbers against an instance.

ghost use Rattle.std.specs.Prelude.{◌↔◌, ◌<◌, IsTrue};
ghost use Rattle.ctt_problem.specs.Problem.{course_count, room_count, slot_count, teacher_count, curriculum_count};
ghost use Rattle.ctt_problem.specs.Timetable.{Fits};

use crate::ids::{CourseNo, CurriculumNo, RoomNo, SlotNo, TeacherNo};
use crate::instance::Instance;
use crate::placed::Placed;

impl CourseNo {
    /// Returns whether the instance has a course with this number.
    pub fn fits(self, instance: &Instance) -> bool
        ensures { IsTrue result ↔ (self < course_count instance.now) }
    {
        self.get() < instance.courses()
    }
}

impl RoomNo {
    /// Returns whether the instance has a room with this number.
    pub fn fits(self, instance: &Instance) -> bool
        ensures { IsTrue result ↔ (self < room_count instance.now) }
    {
        self.get() < instance.rooms()
    }
}

impl SlotNo {
    /// Returns whether the instance has a slot with this number.
    pub fn fits(self, instance: &Instance) -> bool
        ensures { IsTrue result ↔ (self < slot_count instance.now) }
    {
        self.get() < instance.slots()
    }
}

impl TeacherNo {
    /// Returns whether the instance has a teacher with this number.
    pub fn fits(self, instance: &Instance) -> bool
        ensures { IsTrue result ↔ (self < teacher_count instance.now) }
    {
        self.get() < instance.teachers()
    }
}

impl CurriculumNo {
    /// Returns whether the instance has a curriculum with this number.
    pub fn fits(self, instance: &Instance) -> bool
        ensures { IsTrue result ↔ (self < curriculum_count instance.now) }
    {
        self.get() < instance.curricula()
    }
}

impl Placed {
    /// Returns whether the instance has the course, the slot and the room of the lecture.
    pub fn fits(&self, instance: &Instance) -> bool
        ensures { IsTrue result ↔ Fits instance.now self.now }
    {
        self.course.fits(instance) && self.slot.fits(instance) && self.room.fits(instance)
    }
}
