//! Which courses clash: a row of bits per course.

ghost use Rattle.std.specs.Prelude.{◌≡◌, ℕ, ◌<◌, ◌≤◌, ◌==◌, ◌&&◌, ◌||◌, not, IfOk};
ghost use Rattle.std.specs.List.{list_any, AllByRecursion as Each};
ghost use Rattle.ctt_problem.specs.Lists.{has};
ghost use Rattle.ctt_problem.specs.Marks.{is_marked};
ghost use Rattle.ctt_problem.specs.BitRows.{is_marked_in, AddsMarks, HasSize};

use crate::bit_rows::BitRows;
use crate::ids::CourseNo;
use crate::marks::Marks;
use std::alloc::{AllocError, Global};

/// Returns the members as marks.
fn marks_of(members: &[CourseNo]) -> Marks
    requires { Each (λ c. c < 2000) members.now }
    ensures { (n : ℕ) → is_marked result n ≡ has n members.now }
{
    let mut marks = Marks::new();
    for member in members {
        marks.mark(member.get() as usize);
    }
    marks
}

/// Marks all members of a group in the row of each member.
fn add_group(rows: &mut BitRows, members: &[CourseNo])
    requires few { rows.old.rows ≤ 2000 }
    requires square { rows.old.width ≡ rows.old.rows }
    requires members { Each (λ d. d < rows.old.rows) members.now }
    ensures { AddsMarks rows.old rows.new (λ c d. has c members.now && has d members.now) }
{
    let marks = marks_of(members);
    for member in members {
        rows.mark_all(member.get() as usize, &marks);
    }
}

/// Marks the members of each group in the rows of its members.
fn add_groups(rows: &mut BitRows, groups: &[Vec<CourseNo>])
    requires few { rows.old.rows ≤ 2000 }
    requires square { rows.old.width ≡ rows.old.rows }
    requires members { Each (λ q. Each (λ d. d < rows.old.rows) q.items) groups.now }
    ensures { AddsMarks rows.old rows.new (λ c d.
        list_any (λ q. has c q.items && has d q.items) groups.now) }
{
    for members in groups {
        add_group(rows, members);
    }
}

/// Clears the diagonal, since no course clashes with itself.
fn unmark_own(rows: &mut BitRows, courses: usize)
    requires { HasSize rows.old courses courses }
    ensures size { HasSize rows.new courses courses }
    ensures marks { (r n : ℕ)
        → r < courses
        → is_marked_in rows.new r n ≡ (not (r == n) && is_marked_in rows.old r n) }
{
    for course in 0..courses {
        rows.unmark(course, course);
    }
}

/// Returns for each course a row of the courses that it clashes with: those that share its teacher
/// or a curriculum with it.
pub(crate) fn clash_rows(
    alloc: Global,
    courses: usize,
    taught: &[Vec<CourseNo>],
    curricula: &[Vec<CourseNo>],
) -> Result<BitRows, AllocError>
    requires few { courses ≤ 2000 }
    requires taught { Each (λ q. Each (λ d. d < courses) q.items) taught.now }
    requires curricula { Each (λ q. Each (λ d. d < courses) q.items) curricula.now }
    ensures size { IfOk result (λ rows. HasSize rows courses courses) }
    ensures marks { IfOk result (λ rows.
        (c d : ℕ)
        → c < courses
        → is_marked_in rows c d
        ≡ (not (c == d)
        && (list_any (λ q. has c q.items && has d q.items) taught.now
        || list_any (λ q. has c q.items && has d q.items) curricula.now))) }
{
    let mut rows = BitRows::new(alloc, courses, courses)?;
    add_groups(&mut rows, taught);
    add_groups(&mut rows, curricula);
    unmark_own(&mut rows, courses);
    Ok(rows)
}
