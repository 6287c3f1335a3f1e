//! Looking up the names of an instance, by number and by name.

ghost use Rattle.std.specs.Prelude.{◌≡◌, ◌<◌, [], slice_index_or, IfSome};
ghost use Rattle.ctt_problem.specs.Problem.{course_count, room_count, teacher_count, curriculum_count, number_in};

use crate::ids::{CourseNo, CurriculumNo, RoomNo, TeacherNo};
use crate::instance::Instance;

impl Instance {
    /// Returns the name of a course.
    pub fn course_name(&self, course: CourseNo) -> &str
        requires { course < course_count self.now }
        ensures { result.now ≡ slice_index_or self.now.course_names course [] }
    {
        self.course_names.name(course.get() as usize)
    }

    /// Returns the name of a room.
    pub fn room_name(&self, room: RoomNo) -> &str
        requires { room < room_count self.now }
        ensures { result.now ≡ slice_index_or self.now.room_names room [] }
    {
        self.room_names.name(room.get() as usize)
    }

    /// Returns the name of a teacher.
    pub fn teacher_name(&self, teacher: TeacherNo) -> &str
        requires { teacher < teacher_count self.now }
        ensures { result.now ≡ slice_index_or self.now.teacher_names teacher [] }
    {
        self.teacher_names.name(teacher.get() as usize)
    }

    /// Returns the name of a curriculum.
    pub fn curriculum_name(&self, curriculum: CurriculumNo) -> &str
        requires { curriculum < curriculum_count self.now }
        ensures { result.now ≡ slice_index_or self.now.curriculum_names curriculum [] }
    {
        self.curriculum_names.name(curriculum.get() as usize)
    }

    /// Finds a course by its name.
    pub fn find_course(&self, name: &str) -> Option<CourseNo>
        ensures number { result ≡ number_in self.now.course_names name.now }
        ensures within { IfSome result (λ course. course < course_count self.now) }
    {
        let number = self.course_names.number(name)?;
        Some(CourseNo::new(number as u16))
    }

    /// Finds a teacher by name.
    pub fn find_teacher(&self, name: &str) -> Option<TeacherNo>
        ensures number { result ≡ number_in self.now.teacher_names name.now }
        ensures within { IfSome result (λ teacher. teacher < teacher_count self.now) }
    {
        let number = self.teacher_names.number(name)?;
        Some(TeacherNo::new(number as u16))
    }

    /// Finds a curriculum by its name.
    pub fn find_curriculum(&self, name: &str) -> Option<CurriculumNo>
        ensures number { result ≡ number_in self.now.curriculum_names name.now }
        ensures within { IfSome result (λ curriculum. curriculum < curriculum_count self.now) }
    {
        let number = self.curriculum_names.number(name)?;
        Some(CurriculumNo::new(number as u16))
    }

    /// Finds a room by its name.
    pub fn find_room(&self, name: &str) -> Option<RoomNo>
        ensures number { result ≡ number_in self.now.room_names name.now }
        ensures within { IfSome result (λ room. room < room_count self.now) }
    {
        let number = self.room_names.number(name)?;
        Some(RoomNo::new(number as u16))
    }
}
