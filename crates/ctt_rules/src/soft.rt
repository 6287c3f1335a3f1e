//! The soft costs of a timetable.

ghost use Rattle.std.specs.Prelude.{◌≡◌, ◌<◌, ◌≤◌, ◌*◌, ◌^◌, length, sum_by};
ghost use Rattle.std.specs.List.{AllByRecursion as Each};
ghost use Rattle.ctt_problem.specs.Problem.{course_count};
ghost use Rattle.ctt_problem.specs.Timetable.{IsTimetable, Fits, course_row};
ghost use Rattle.ctt_rules.specs.Penalty.{penalty, course_cost, total, unseated, days_of, rooms_of, days_cost, rooms_cost};

use crate::compactness::compactness;
use crate::cost::Cost;
use crate::row::{course_row, cut_row};
use ctt_problem::{CourseNo, Instance, Marks, Placed};

/// Sums the students above the capacity of the room, over all these lectures.
fn capacity(instance: &Instance, lectures: &[Placed]) -> u64
    requires fits { Each (Fits instance.now) lectures.now }
    requires few { length lectures.now ≤ 4000000 }
    ensures value { result ≡ sum_by (unseated instance.now) lectures.now }
    ensures bound { result ≤ 999999999 * length lectures.now }
{
    instance.limits_hold();
    let mut total = 0;
    for lecture in lectures {
        let students = instance.students(lecture.course);
        total += u64::from(students.saturating_sub(instance.capacity(lecture.room)));
    }
    total
}

/// Counts the different days of these lectures.
fn day_count(instance: &Instance, lectures: &[Placed]) -> u64
    requires { Each (Fits instance.now) lectures.now }
    ensures { result ≡ days_of instance.now lectures.now }
{
    instance.limits_hold();
    let mut seen = Marks::new();
    let mut count = 0;
    for lecture in lectures {
        if seen.mark(instance.day_of(lecture.slot) as usize) {
            count += 1;
        }
    }
    count
}

/// Counts the different rooms of these lectures.
fn room_count(instance: &Instance, lectures: &[Placed]) -> u64
    requires { Each (Fits instance.now) lectures.now }
    ensures { result ≡ rooms_of instance.now lectures.now }
{
    instance.limits_hold();
    let mut seen = Marks::new();
    let mut count = 0;
    for lecture in lectures {
        if seen.mark(lecture.room.get() as usize) {
            count += 1;
        }
    }
    count
}

/// Returns five points for each day by which a course falls short of its minimum of working days.
fn missing_days(instance: &Instance, course: CourseNo, row: &[Placed]) -> u64
    requires course { course < course_count instance.now }
    requires fits { Each (Fits instance.now) row.now }
    ensures value { result ≡ days_cost instance.now course row.now }
    ensures bound { result ≤ 5 * 999999999 }
{
    instance.limits_hold();
    5 * u64::from(instance.min_days(course)).saturating_sub(day_count(instance, row))
}

/// Returns one point for each room beyond the first in which a course has lectures.
fn surplus_rooms(instance: &Instance, row: &[Placed]) -> u64
    requires { Each (Fits instance.now) row.now }
    ensures value { result ≡ rooms_cost instance.now row.now }
    ensures bound { result ≤ 1000 }
{
    instance.limits_hold();
    room_count(instance, row).saturating_sub(1)
}

/// Returns five points for each missing working day, over all courses.
fn days(instance: &Instance, timetable: &[Placed]) -> u64
    requires { IsTimetable instance.now timetable.now }
    ensures value { result ≡ (penalty instance.now timetable.now).days }
    ensures bound { result ≤ 2000 * (5 * 999999999) }
{
    instance.limits_hold();
    let mut rest = timetable;
    let mut total = 0;
    for number in 0..instance.courses() {
        let course = CourseNo::new(number);
        let (row, after) = cut_row(rest, course);
        total += missing_days(instance, course, row);
        rest = after;
    }
    total
}

/// Returns one point for each room beyond the first, over all courses.
fn stability(instance: &Instance, timetable: &[Placed]) -> u64
    requires { IsTimetable instance.now timetable.now }
    ensures value { result ≡ (penalty instance.now timetable.now).stability }
    ensures bound { result ≤ 2000 * 1000 }
{
    instance.limits_hold();
    let mut rest = timetable;
    let mut total = 0;
    for number in 0..instance.courses() {
        let (row, after) = cut_row(rest, CourseNo::new(number));
        total += surplus_rooms(instance, row);
        rest = after;
    }
    total
}

/// Returns what a timetable costs under the soft constraints.
pub fn penalty(instance: &Instance, timetable: &[Placed]) -> Cost
    requires { IsTimetable instance.now timetable.now }
    ensures value { result ≡ penalty instance.now timetable.now }
    ensures bound { total result < 2 ^ 63 }
{
    instance.limits_hold();
    Cost {
        capacity: capacity(instance, timetable),
        days: days(instance, timetable),
        compactness: compactness(instance, timetable),
        stability: stability(instance, timetable),
    }
}

/// Returns what one course costs under the constraints that are counted course by course: all but
/// the compactness of curricula, which is 0 here.
pub fn course_cost(instance: &Instance, timetable: &[Placed], course: CourseNo) -> Cost
    requires timetable { IsTimetable instance.now timetable.now }
    requires course { course < course_count instance.now }
    ensures value { result ≡ course_cost instance.now timetable.now course }
    ensures bound { total result < 2 ^ 63 }
{
    instance.limits_hold();
    let row = course_row(instance, timetable, course);
    Cost {
        capacity: capacity(instance, row),
        days: missing_days(instance, course, row),
        compactness: 0,
        stability: surplus_rooms(instance, row),
    }
}
