//! The lectures of one course in a timetable.

ghost use Rattle.std.specs.Prelude.{◌≡◌, List};
ghost use Rattle.std.specs.List.{AllByRecursion as Each};
ghost use Rattle.ctt_problem.specs.Timetable.{Ascending, IsTimetable, Fits, course_row};
ghost use Rattle.ctt_problem.specs.declared.placed.Placed.{Placed};
ghost use Rattle.ctt_rules.specs.Rows.{from_course, IsCut};

use ctt_problem::{CourseNo, Instance, Placed};

/// Returns the lectures of a course, which are contiguous in a timetable.
pub fn course_row<'a>(
    instance: &Instance,
    timetable: &'a [Placed],
    course: CourseNo,
) -> &'a [Placed]
    requires { IsTimetable instance.now timetable.now }
    ensures row { result.now ≡ course_row course timetable.now }
    ensures fits { Each (Fits instance.now) result.now }
{
    let start = timetable.partition_point(|l| l.course.get() < course.get());
    let rest = &timetable[start..];
    let end = rest.partition_point(|l| l.course.get() <= course.get());
    &rest[..end]
}

/// Splits the lectures from a course on into those of the course and those of the courses after it.
pub(crate) fn cut_row<'a>(lectures: &'a [Placed], course: CourseNo) -> (&'a [Placed], &'a [Placed])
    ensures { (t : List Placed)
        → Ascending t
        → lectures.now ≡ from_course course t
        → IsCut course t result.0.now result.1.now }
{
    let mut len = 0;
    while len < lectures.len() && lectures[len].course == course {
        len += 1;
    }
    lectures.split_at(len)
}
