//! An instance of the timetabling problem.

ghost use Rattle.std.specs.Prelude.{◌≡◌, ◌<◌, ◌≤◌, ◌*◌, ◌&&◌, ℕ, length, nat_lt};
ghost use Rattle.std.specs.List.{AllByRecursion as Each};
ghost use Rattle.ctt_problem.specs.Problem.{IsProblem, course_of, capacity_of, members, course_count, room_count, teacher_count, curriculum_count, slot_count, slot_of, day_of, period_of, clash, is_unavailable, is_barred, has_barred, IsSmall, AreMembers};
ghost use Rattle.ctt_problem.specs.Marks.{is_marked};
ghost use Rattle.ctt_problem.specs.BitRows.{marks_of, HasSize};
ghost use Rattle.ctt_problem.specs.Named.{IsNamed};
ghost use Rattle.ctt_problem.specs.Belonging.{curricula_of};
ghost use Rattle.ctt_problem.specs.Taught.{courses_taught_by};

mod belonging;
mod clashes;
mod closures;
mod naming;
mod parts;
mod taught;

use crate::bit_rows::BitRows;
use crate::course_facts::CourseFacts;
use crate::ids::{CourseNo, CurriculumNo, RoomNo, SlotNo, TeacherNo};
use crate::marks::Marks;
use crate::names::Names;
pub use parts::Parts;
use std::marker::Model;

/// An instance of curriculum-based course timetabling, with the rooms that are barred for each
/// course, and the slots in which closures block courses and rooms.
///
/// There are at most 2,000 courses, 1,000 rooms, 2,000 teachers, 20,000 curricula and 2,000 slots.
pub struct Instance {
    name: String,
    course_names: Names,
    courses: Vec<CourseFacts>,
    teacher_names: Names,
    room_names: Names,
    capacities: Vec<u32>,
    curriculum_names: Names,
    curricula: Vec<Vec<CourseNo>>,
    days: u16,
    periods: u16,
    /// For each course, the slots in which the text of the instance lists it as unavailable.
    unavailable: BitRows,
    /// For each course, the slots in which it is blocked, or its teacher.
    closed: BitRows,
    /// For each course, the rooms that are barred for it.
    barred: BitRows,
    /// For each room, the slots in which it is blocked.
    blocked: BitRows,
    /// For each course, the courses that it clashes with.
    clashes: BitRows,
    /// For each course, its curricula.
    belonging: Vec<Vec<CurriculumNo>>,
    /// For each teacher, the courses of that teacher.
    taught: Vec<Vec<CourseNo>>,
}

// A derived `Drop` would be proved again in each dependent crate.
impl Drop for Instance {
    fn drop(self) {
        let Instance {
            name: _,
            course_names: _,
            courses: _,
            teacher_names: _,
            room_names: _,
            capacities: _,
            curriculum_names: _,
            curricula: _,
            days: _,
            periods: _,
            unavailable: _,
            closed: _,
            barred: _,
            blocked: _,
            clashes: _,
            belonging: _,
            taught: _,
        } = self;
    }
}

impl Model for Instance {
    ghost use Rattle.ctt_problem.specs.Problem.{Problem};

    ghost Value = { Problem };

    ghost use Rattle.ctt_problem.specs.Instance.{problem_in, IsInstance};

    ghost view = { problem_in };

    ghost invariant = { IsInstance };
}

impl Instance {
    /// States that each instance is within the limits, with its references in range, each member of
    /// a curriculum once, and the teachers numbered as the courses first name them.
    pub fn limits_hold(&self)
        ensures { IsProblem self.now }
    {
        // Only the contract matters. Accessing a field makes the invariant available to the proof.
        let _days = &self.days;
    }

    /// States that all names are words, distinct within each list.
    pub fn names_are_words(&self)
        ensures { IsNamed self.now }
    {
        // Only the contract matters. Accessing a field makes the invariant available to the proof.
        let _days = &self.days;
    }

    /// Returns the name of the instance.
    pub fn name(&self) -> &str
        ensures { result.now ≡ self.now.name }
    {
        self.name.as_str()
    }

    /// Returns the number of courses, at most 2,000.
    pub fn courses(&self) -> u16
        ensures exact { result ≡ course_count self.now }
        ensures few { result ≤ 2000 }
    {
        self.courses.len() as u16
    }

    /// Returns the number of rooms, at most 1,000.
    pub fn rooms(&self) -> u16
        ensures exact { result ≡ room_count self.now }
        ensures few { result ≤ 1000 }
    {
        self.capacities.len() as u16
    }

    /// Returns the number of teachers, at most the number of courses.
    pub fn teachers(&self) -> u16
        ensures exact { result ≡ teacher_count self.now }
        ensures few { result ≤ course_count self.now }
    {
        self.teacher_names.len() as u16
    }

    /// Returns the number of curricula, at most 20,000.
    pub fn curricula(&self) -> u16
        ensures exact { result ≡ curriculum_count self.now }
        ensures few { result ≤ 20000 }
    {
        self.curricula.len() as u16
    }

    /// Returns the number of days, at most 2,000.
    pub fn days(&self) -> u16
        ensures exact { result ≡ self.now.days }
        ensures few { result ≤ 2000 }
    {
        self.days
    }

    /// Returns the number of periods per day, at most 2,000.
    pub fn periods(&self) -> u16
        ensures exact { result ≡ self.now.periods }
        ensures few { result ≤ 2000 }
    {
        self.periods
    }

    /// Returns the number of slots, at most 2,000: the days times the periods per day.
    pub fn slots(&self) -> u16
        ensures exact { result ≡ slot_count self.now }
        ensures few { result ≤ 2000 }
    {
        self.days * self.periods
    }

    /// Returns the teacher of a course.
    pub fn teacher(&self, course: CourseNo) -> TeacherNo
        requires { course < course_count self.now }
        ensures exact { result ≡ (course_of self.now course).teacher }
        ensures within { result < teacher_count self.now }
    {
        self.courses[course.get() as usize].teacher
    }

    /// Returns the number of lectures of a course, at most 999,999,999.
    pub fn lectures(&self, course: CourseNo) -> u32
        requires { course < course_count self.now }
        ensures exact { result ≡ (course_of self.now course).lectures }
        ensures small { IsSmall result }
    {
        self.courses[course.get() as usize].lectures
    }

    /// Returns the minimum number of days over which the lectures of a course should be spread, at
    /// most 999,999,999.
    pub fn min_days(&self, course: CourseNo) -> u32
        requires { course < course_count self.now }
        ensures exact { result ≡ (course_of self.now course).min_days }
        ensures small { IsSmall result }
    {
        self.courses[course.get() as usize].min_days
    }

    /// Returns the number of students who attend a course, at most 999,999,999.
    pub fn students(&self, course: CourseNo) -> u32
        requires { course < course_count self.now }
        ensures exact { result ≡ (course_of self.now course).students }
        ensures small { IsSmall result }
    {
        self.courses[course.get() as usize].students
    }

    /// Returns the number of seats in a room, at most 999,999,999.
    pub fn capacity(&self, room: RoomNo) -> u32
        requires { room < room_count self.now }
        ensures exact { result ≡ capacity_of self.now room }
        ensures small { IsSmall result }
    {
        self.capacities[room.get() as usize]
    }

    /// Returns the courses of a curriculum, each once, in the order in which the file first names
    /// them.
    pub fn members(&self, curriculum: CurriculumNo) -> &[CourseNo]
        requires { curriculum < curriculum_count self.now }
        ensures exact { result.now ≡ members self.now curriculum }
        ensures within { AreMembers (course_count self.now) result.now }
    {
        &self.curricula[curriculum.get() as usize]
    }

    /// Returns the curricula that a course is a member of, ascending.
    pub fn curricula_of(&self, course: CourseNo) -> &[CurriculumNo]
        requires { course < course_count self.now }
        ensures exact { result.now ≡ curricula_of self.now course }
        ensures within { Each (λ curriculum. curriculum < curriculum_count self.now) result.now }
        ensures few { length result.now ≤ 20000 }
    {
        &self.belonging[course.get() as usize]
    }

    /// Returns the courses of a teacher, ascending.
    pub fn taught_by(&self, teacher: TeacherNo) -> &[CourseNo]
        requires { teacher < teacher_count self.now }
        ensures exact { result.now ≡ courses_taught_by self.now teacher }
        ensures within { Each (λ course. course < course_count self.now) result.now }
    {
        &self.taught[teacher.get() as usize]
    }

    /// Returns whether two courses clash: they are different, and have the same teacher or are
    /// members of one curriculum.
    pub fn clash(&self, course: CourseNo, other: CourseNo) -> bool
        requires course { course < course_count self.now }
        requires other { other < course_count self.now }
        ensures { result ≡ clash self.now course other }
    {
        self.clashes
            .is_marked(course.get() as usize, other.get() as usize)
    }

    /// Returns the courses that clash with a course.
    pub fn clashing(&self, course: CourseNo) -> Marks
        requires { course < course_count self.now }
        ensures { (d : ℕ)
            → is_marked result d
            ≡ (nat_lt d (course_count self.now) && clash self.now course d) }
    {
        self.clashes.row(course.get() as usize)
    }

    /// Returns whether a course is unavailable in a slot, as the text of the instance lists it or by
    /// a closure.
    pub fn unavailable(&self, course: CourseNo, slot: SlotNo) -> bool
        requires course { course < course_count self.now }
        requires slot { slot < slot_count self.now }
        ensures { result ≡ is_unavailable self.now course slot }
    {
        let row = course.get() as usize;
        let mark = slot.get() as usize;
        self.unavailable.is_marked(row, mark) || self.closed.is_marked(row, mark)
    }

    /// Returns whether a room is barred for a course.
    pub fn barred(&self, course: CourseNo, room: RoomNo) -> bool
        requires course { course < course_count self.now }
        requires room { room < room_count self.now }
        ensures { result ≡ is_barred self.now course room }
    {
        self.barred
            .is_marked(course.get() as usize, room.get() as usize)
    }

    /// Bars the rooms that the table marks, each for the course of its row, and no others.
    pub fn set_barred(&mut self, table: BitRows)
        requires { HasSize table (course_count self.old) (room_count self.old) }
        ensures { self.new ≡ record self.old { barred = marks_of table } }
    {
        self.barred = table;
    }

    /// Returns whether any room is barred for any course.
    pub fn has_barred(&self) -> bool
        ensures { result ≡ has_barred self.now }
    {
        self.barred.has_marks()
    }

    /// Returns the slot of a period of a day.
    pub fn slot_of(&self, day: u16, period: u16) -> SlotNo
        requires day { day < self.now.days }
        requires period { period < self.now.periods }
        ensures exact { result ≡ slot_of self.now day period }
        ensures within { result < slot_count self.now }
    {
        SlotNo::new(day * self.periods + period)
    }

    /// Returns the day of a slot.
    pub fn day_of(&self, slot: SlotNo) -> u16
        requires { slot < slot_count self.now }
        ensures exact { result ≡ day_of self.now slot }
        ensures within { result < self.now.days }
    {
        slot.get() / self.periods
    }

    /// Returns the period of a slot within its day.
    pub fn period_of(&self, slot: SlotNo) -> u16
        requires { slot < slot_count self.now }
        ensures exact { result ≡ period_of self.now slot }
        ensures within { result < self.now.periods }
    {
        slot.get() % self.periods
    }
}
