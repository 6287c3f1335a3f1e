//! How often the hard rules are broken.

ghost use Rattle.std.specs.Prelude.{◌≡◌};
ghost use Rattle.std.specs.List.{AllByRecursion as Each};
ghost use Rattle.ctt_problem.specs.Timetable.{IsTimetable, Fits};
ghost use Rattle.ctt_rules.specs.Hard.{hard_counts, missing_count, unavailable_count, barred_count, blocked_count};

use crate::row::cut_row;
use crate::sharing::count_sharing;
use ctt_problem::{CourseNo, Instance, Placed};

/// How often a timetable breaks each of the four hard constraints of the technical report of
/// Di Gaspero, McCollum and Schaerf for ITC 2007, and how many lectures are in barred and in blocked
/// rooms.
#[derive(Clone, Copy, Default, PartialEq, Eq)]
pub struct Hard {
    /// Missing and surplus lectures, over all courses.
    pub lectures: u64,
    /// Pairs of lectures in one slot whose courses have the same teacher or a common curriculum.
    pub conflicts: u64,
    /// Lectures in slots in which their courses are unavailable.
    pub availability: u64,
    /// Lectures beyond the first in each room and slot.
    pub occupancy: u64,
    /// Lectures in rooms that are barred for their courses.
    pub barred: u64,
    /// Lectures in rooms that are blocked in their slots.
    pub blocked: u64,
}

/// Counts the missing and surplus lectures of all courses.
fn missing(instance: &Instance, timetable: &[Placed]) -> u64
    requires { IsTimetable instance.now timetable.now }
    ensures { result ≡ missing_count instance.now timetable.now }
{
    instance.limits_hold();
    let mut rest = timetable;
    let mut total = 0;
    for number in 0..instance.courses() {
        let course = CourseNo::new(number);
        let (row, after) = cut_row(rest, course);
        total += u64::from(instance.lectures(course)).abs_diff(row.len() as u64);
        rest = after;
    }
    total
}

/// Counts the lectures in slots in which their courses are unavailable.
fn unavailable(instance: &Instance, lectures: &[Placed]) -> u64
    requires { Each (Fits instance.now) lectures.now }
    ensures { result ≡ unavailable_count instance.now lectures.now }
{
    let mut count = 0;
    for lecture in lectures {
        if instance.unavailable(lecture.course, lecture.slot) {
            count += 1;
        }
    }
    count
}

/// Counts the lectures in rooms that are barred for their courses.
fn barred(instance: &Instance, lectures: &[Placed]) -> u64
    requires { Each (Fits instance.now) lectures.now }
    ensures { result ≡ barred_count instance.now lectures.now }
{
    let mut count = 0;
    for lecture in lectures {
        if instance.barred(lecture.course, lecture.room) {
            count += 1;
        }
    }
    count
}

/// Counts the lectures in rooms that are blocked in their slots.
fn blocked(instance: &Instance, lectures: &[Placed]) -> u64
    requires { Each (Fits instance.now) lectures.now }
    ensures { result ≡ blocked_count instance.now lectures.now }
{
    let mut count = 0;
    for lecture in lectures {
        if instance.blocked(lecture.room, lecture.slot) {
            count += 1;
        }
    }
    count
}

/// Counts how often a timetable breaks each of the hard rules.
pub fn hard_counts(instance: &Instance, timetable: &[Placed]) -> Hard
    requires { IsTimetable instance.now timetable.now }
    ensures { result ≡ hard_counts instance.now timetable.now }
{
    let sharing = count_sharing(instance, timetable);
    Hard {
        lectures: missing(instance, timetable),
        conflicts: sharing.conflicts,
        availability: unavailable(instance, timetable),
        occupancy: sharing.occupancy,
        barred: barred(instance, timetable),
        blocked: blocked(instance, timetable),
    }
}
