//! Rules that are checked course by course.

ghost use Rattle.std.specs.Prelude.{◌≡◌, ◌++◌, OnOk};
ghost use Rattle.ctt_problem.specs.Timetable.{IsTimetable};
ghost use Rattle.ctt_findings.specs.Findings.{by_course};

use crate::adding::push_some;
use crate::finding::Finding;
use ctt_problem::{CourseNo, Instance, NoMemory, Placed};
use ctt_rules::{course_cost, course_row};

/// A rule that is checked for each course by its lectures.
pub(crate) trait OfCourse {
    ghost use Rattle.std.specs.Prelude.{◌≡◌, ◌<◌, ℕ, List, Option};
    ghost use Rattle.ctt_problem.specs.Problem.{Problem, course_count};
    ghost use Rattle.ctt_problem.specs.Timetable.{IsTimetable, course_row};
    ghost use Rattle.ctt_problem.specs.declared.placed.Placed.{Placed as Lecture};
    ghost use Rattle.ctt_findings.specs.declared.finding.Finding.{Finding as Found};

    /// The finding for a course with these lectures, if there is one.
    ghost finding: { Problem → ℕ → List Lecture → Option Found };

    /// Returns the finding for a course, if there is one.
    fn find(instance: &Instance, timetable: &[Placed], course: CourseNo) -> Option<Finding>
        requires timetable { IsTimetable instance.now timetable.now }
        requires course { course < course_count instance.now }
        ensures { result ≡ finding instance.now course (course_row course timetable.now) };
}

/// Missing or surplus lectures.
pub(crate) struct LectureCount;

impl OfCourse for LectureCount {
    ghost use Rattle.ctt_findings.specs.Findings.{lectures_finding};

    ghost finding = { lectures_finding };

    fn find(instance: &Instance, timetable: &[Placed], course: CourseNo) -> Option<Finding> {
        let placed = course_row(instance, timetable, course).len() as u64;
        let stated = instance.lectures(course);
        if placed == u64::from(stated) {
            return None;
        }
        Some(Finding::Lectures(course, placed, stated))
    }
}

/// Too few working days: five points for each missing one.
pub(crate) struct DayCount;

impl OfCourse for DayCount {
    ghost use Rattle.ctt_findings.specs.Findings.{days_finding};

    ghost finding = { days_finding };

    fn find(instance: &Instance, timetable: &[Placed], course: CourseNo) -> Option<Finding> {
        let points = course_cost(instance, timetable, course).days;
        if points == 0 {
            return None;
        }
        let minimum = instance.min_days(course);
        let days = u64::from(minimum) - points / 5;
        Some(Finding::Days(course, days, minimum, points))
    }
}

/// Rooms beyond the first: one point for each.
pub(crate) struct RoomCount;

impl OfCourse for RoomCount {
    ghost use Rattle.ctt_findings.specs.Findings.{stability_finding};

    ghost finding = { stability_finding };

    fn find(instance: &Instance, timetable: &[Placed], course: CourseNo) -> Option<Finding> {
        let points = course_cost(instance, timetable, course).stability;
        if points == 0 {
            return None;
        }
        Some(Finding::Stability(course, points + 1, points))
    }
}

/// Adds the findings on the courses, one course after another.
pub(crate) fn push_of_courses<K: OfCourse>(
    found: &mut Vec<Finding>,
    instance: &Instance,
    timetable: &[Placed],
) -> Result<(), NoMemory>
    requires { IsTimetable instance.now timetable.now }
    ensures { OnOk result (found.new.items
        ≡ found.old.items ++ by_course instance.now timetable.now (K.finding instance.now)) }
{
    for number in 0..instance.courses() {
        push_some(found, K::find(instance, timetable, CourseNo::new(number)))?;
    }
    Ok(())
}
