//! The facts of a course.

use crate::ids::TeacherNo;

/// What an instance states about a course, apart from its name. The counts are at most 999,999,999.
#[derive(Clone, Copy, Debug, PartialEq, Eq, Hash)]
pub struct CourseFacts {
    /// The teacher of the course.
    pub teacher: TeacherNo,
    /// The number of lectures, each in a slot of its own.
    pub lectures: u32,
    /// The minimum number of days over which the lectures should be spread.
    pub min_days: u32,
    /// The number of students who attend the course.
    pub students: u32,
}
