//! Findings: what breaks a hard rule, or costs points.

use ctt_problem::{CourseNo, CurriculumNo, Placed, SlotNo, TeacherNo};

/// Why two courses clash.
#[derive(Clone, Copy, PartialEq, Eq)]
pub enum Cause {
    /// Both have this teacher.
    Teacher(TeacherNo),
    /// Both are members of this curriculum.
    Curriculum(CurriculumNo),
}

/// One thing that breaks a hard rule, or that costs points.
#[derive(Clone, Copy, PartialEq, Eq)]
pub enum Finding {
    /// The course has fewer or more lectures than stated: the numbers placed and stated.
    Lectures(CourseNo, u64, u32),
    /// The two courses clash and have lectures in the slot.
    Conflict(CourseNo, CourseNo, SlotNo, Cause),
    /// The lecture is in a slot in which its course is unavailable.
    Availability(Placed),
    /// The lecture is in a room that an earlier lecture takes in the same slot.
    Occupancy(Placed),
    /// The lecture is in a room that is barred for its course.
    Barred(Placed),
    /// The lecture is in a room that is blocked in the slot.
    Blocked(Placed),
    /// The lecture has more students than its room has seats: the points.
    Capacity(Placed, u64),
    /// The course has lectures on too few days: their number, the minimum, and the points.
    Days(CourseNo, u64, u32, u64),
    /// The lecture is isolated in the curriculum: the points.
    Compactness(CurriculumNo, Placed, u64),
    /// The course has lectures in several rooms: their number, and the points.
    Stability(CourseNo, u64, u64),
}
