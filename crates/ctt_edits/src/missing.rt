//! The courses with missing lectures.

ghost use Rattle.std.specs.Prelude.{◌≡◌, ◌<◌, IfOk};
ghost use Rattle.ctt_problem.specs.Problem.{course_count};
ghost use Rattle.ctt_edits.specs.Missing.{missing_of, missing};

use crate::shortfall::{Shortfall, Shortfalls};
use ctt_board::Sheet;
use ctt_problem::{CourseNo, NoMemory};
use std::alloc::Global;

/// Returns how many lectures of a course are not placed.
fn missing_of<'i, S: Sheet<'i>>(sheet: &S, course: CourseNo) -> u32
    requires { course < course_count (S.problem sheet.now) }
    ensures { result ≡ missing_of (S.problem sheet.now) (S.list sheet.now) course }
{
    let lectures = sheet.instance().lectures(course);
    lectures.saturating_sub(sheet.count(course))
}

/// Returns the courses with missing lectures, ascending, and how many each is missing.
pub(crate) fn missing<'i, S: Sheet<'i>>(alloc: Global, sheet: &S) -> Result<Shortfalls, NoMemory>
    ensures { IfOk result (λ courses.
        courses ≡ missing (S.problem sheet.now) (S.list sheet.now)) }
{
    let mut list = Vec::new(alloc);
    for number in 0..sheet.instance().courses() {
        let course = CourseNo::new(number);
        let missing = missing_of(sheet, course);
        if missing > 0 {
            list.push(Shortfall { course, missing })?;
        }
    }
    Ok(Shortfalls::new(list))
}
