//! Which courses each teacher teaches.

ghost use Rattle.std.specs.Prelude.{◌≡◌, ℕ, ◌<◌, ◌≤◌, ◌==◌, [], length, map, get_or, IfOk, OnOk};
ghost use Rattle.std.specs.List.{AllByRecursion as Each};
ghost use Rattle.ctt_problem.specs.Lists.{below};
ghost use Rattle.ctt_problem.specs.Taught.{teacher_at};

use crate::course_facts::CourseFacts;
use crate::ids::CourseNo;
use crate::number_lists::{add_to, empty_lists};
use std::alloc::{AllocError, Global};

/// Appends each course to the list of its teacher.
fn add_courses(lists: &mut [Vec<CourseNo>], courses: &[CourseFacts]) -> Result<(), AllocError>
    requires few { length courses.now ≤ 2000 }
    requires teachers { Each (λ f. f.teacher < length lists.old) courses.now }
    requires empty { (h : ℕ) → get_or (map (λ v. v.items) lists.old) h [] ≡ [] }
    ensures size { OnOk result (length lists.new ≡ length lists.old) }
    ensures lists { OnOk result
        ((h : ℕ)
        → h < length lists.old
        → get_or (map (λ v. v.items) lists.new) h []
        ≡ below (λ c. teacher_at courses.now c == h) (length courses.now)) }
{
    for (number, course) in courses.iter().enumerate() {
        let teacher = course.teacher.get() as usize;
        add_to(lists, teacher, CourseNo::new(number as u16))?;
    }
    Ok(())
}

/// Returns the courses of each teacher, ascending.
pub(crate) fn taught(
    alloc: Global,
    courses: &[CourseFacts],
    teachers: usize,
) -> Result<Vec<Vec<CourseNo>>, AllocError>
    requires few { length courses.now ≤ 2000 }
    requires teachers { Each (λ f. f.teacher < teachers) courses.now }
    ensures size { IfOk result (λ v. length v.items ≡ teachers) }
    ensures lists { IfOk result (λ v.
        (h : ℕ)
        → h < teachers
        → get_or (map (λ v. v.items) v.items) h []
        ≡ below (λ c. teacher_at courses.now c == h) (length courses.now)) }
{
    let mut lists = empty_lists(alloc, teachers)?;
    add_courses(&mut lists, courses)?;
    Ok(lists)
}
