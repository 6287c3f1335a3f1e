//! Whether a timetable is lawful, and whether it is complete, by its hard counts.

ghost use Rattle.std.specs.Prelude.{◌≡◌, ◌≤◌, ◌↔◌, ◌==◌, ◌&&◌, ℕ, IsTrue, length};
ghost use Rattle.ctt_problem.specs.Problem.{course_of};
ghost use Rattle.ctt_problem.specs.Timetable.{IsTimetable, course_row};
ghost use Rattle.ctt_rules.specs.Hard.{Lawful, Complete, hard_counts};

use crate::hard::{Hard, hard_counts};
use crate::row::course_row;
use ctt_problem::{CourseNo, Instance, Placed};

/// Returns whether no course has more lectures than the instance states, given the hard counts.
fn has_no_surplus(instance: &Instance, timetable: &[Placed], hard: &Hard) -> bool
    requires timetable { IsTimetable instance.now timetable.now }
    requires counted { hard.now ≡ hard_counts instance.now timetable.now }
    ensures { IsTrue result
        ↔ ((c : ℕ) → length (course_row c timetable.now) ≤ (course_of instance.now c).lectures) }
{
    if hard.lectures == 0 {
        return true;
    }
    for number in 0..instance.courses() {
        let course = CourseNo::new(number);
        if course_row(instance, timetable, course).len() > instance.lectures(course) as usize {
            return false;
        }
    }
    true
}

/// Returns whether all counts other than that of missing and surplus lectures are zero.
fn breaks_none(hard: &Hard) -> bool
    ensures { result
        ≡ (hard.now.conflicts == 0
        && (hard.now.availability == 0
        && (hard.now.occupancy == 0 && (hard.now.barred == 0 && hard.now.blocked == 0)))) }
{
    hard.conflicts == 0
        && (hard.availability == 0
            && (hard.occupancy == 0 && (hard.barred == 0 && hard.blocked == 0)))
}

/// Returns whether a timetable with these hard counts is lawful.
pub(crate) fn keeps_rules(instance: &Instance, timetable: &[Placed], hard: &Hard) -> bool
    requires timetable { IsTimetable instance.now timetable.now }
    requires counted { hard.now ≡ hard_counts instance.now timetable.now }
    ensures { IsTrue result ↔ Lawful instance.now timetable.now }
{
    breaks_none(hard) && has_no_surplus(instance, timetable, hard)
}

/// Returns whether a timetable is complete, given its hard counts and whether it is lawful.
pub(crate) fn has_all(instance: &Instance, timetable: &[Placed], hard: &Hard, lawful: bool) -> bool
    requires timetable { IsTimetable instance.now timetable.now }
    requires counted { hard.now ≡ hard_counts instance.now timetable.now }
    requires judged { IsTrue lawful ↔ Lawful instance.now timetable.now }
    ensures { IsTrue result ↔ Complete instance.now timetable.now }
{
    lawful && hard.lectures == 0
}

/// Returns whether a timetable breaks no hard rule, unplaced lectures aside: no two lectures in one
/// slot have courses that clash, no lecture is in a slot in which its course is unavailable or in a
/// room that is barred for it or blocked in that slot, no two share a room and slot, and no course
/// has surplus lectures.
pub fn is_lawful(instance: &Instance, timetable: &[Placed]) -> bool
    requires { IsTimetable instance.now timetable.now }
    ensures { IsTrue result ↔ Lawful instance.now timetable.now }
{
    keeps_rules(instance, timetable, &hard_counts(instance, timetable))
}

/// Returns whether a timetable is lawful and has all lectures of each course.
pub fn is_complete(instance: &Instance, timetable: &[Placed]) -> bool
    requires { IsTimetable instance.now timetable.now }
    ensures { IsTrue result ↔ Complete instance.now timetable.now }
{
    let hard = hard_counts(instance, timetable);
    let lawful = keeps_rules(instance, timetable, &hard);
    has_all(instance, timetable, &hard, lawful)
}
