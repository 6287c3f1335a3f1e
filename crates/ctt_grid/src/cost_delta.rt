//! What adding one lecture does to the penalty.

ghost use Rattle.std.specs.Prelude.{◌≡◌, ◌<◌, ◌≤◌, ◌+◌, ◌-◌, ◌*◌, ◌&&◌, ◌==◌, nat_lt, cond};
ghost use Rattle.ctt_problem.specs.Problem.{course_of, day_of};
ghost use Rattle.ctt_problem.specs.Timetable.{Fits};
ghost use Rattle.ctt_rules.specs.Penalty.{total};
ghost use Rattle.ctt_grid.specs.CostDelta.{IsSmallDelta, with_delta, without_delta, gain_of};
ghost use Rattle.ctt_grid.specs.Counts.{HaveSizes};
ghost use Rattle.ctt_grid.specs.Seen.{seen_day, seen_room, seen_lectures, seen_days, seen_delta, NoneThere};

use crate::compactness_delta::compactness_delta;
use crate::counts_after::CountsAfter;
use ctt_problem::{Instance, Placed};
use ctt_rules::Cost;

/// The increases and decreases in the costs of a timetable if a lecture is added, in points.
#[derive(Clone, Copy, Default, PartialEq, Eq)]
pub(crate) struct CostDelta {
    /// The students beyond the capacity of its room.
    pub(crate) seats: u64,
    /// The decrease in the cost of days: 5 if its course has too few days and it adds one, else 0.
    pub(crate) day: u64,
    /// The increase in the compactness cost, from the curricula in which it stands alone.
    pub(crate) alone: u64,
    /// The decrease in the compactness cost, from the lectures beside it that stood alone.
    pub(crate) lone_neighbours: u64,
    /// The increase in the stability cost: 1 if its course gets a further room, else 0.
    pub(crate) room: u64,
}

/// Returns 5 if a lecture would add a day to a course that has too few, else 0.
fn missing_day(counts: &CountsAfter, instance: &Instance, lecture: &Placed) -> u64
    requires fits { Fits instance.now lecture.now }
    requires sizes { HaveSizes instance.now counts.now.base.now }
    ensures value { result
        ≡ cond (seen_day instance.now counts.now lecture.now.course
        (day_of instance.now lecture.now.slot) == 0
        && nat_lt (seen_days instance.now counts.now lecture.now.course)
        (course_of instance.now lecture.now.course).min_days) 5 0 }
    ensures bound { result ≤ 5 }
{
    let course = lecture.course;
    let least = u64::from(instance.min_days(course));
    let is_new = counts.on_day(instance, course, instance.day_of(lecture.slot)) == 0;
    if is_new && counts.days(instance, course) < least {
        5
    } else {
        0
    }
}

/// Returns 1 if a lecture would give its course a further room, else 0.
fn further_room(counts: &CountsAfter, instance: &Instance, lecture: &Placed) -> u64
    requires fits { Fits instance.now lecture.now }
    requires sizes { HaveSizes instance.now counts.now.base.now }
    ensures value { result
        ≡ cond (seen_room counts.now lecture.now.course lecture.now.room == 0
        && nat_lt 0 (seen_lectures counts.now lecture.now.course)) 1 0 }
    ensures bound { result ≤ 1 }
{
    let course = lecture.course;
    let is_new = counts.in_room(instance, course, lecture.room) == 0;
    let has_others = counts.lectures(instance, course) > 0;
    if is_new && has_others { 1 } else { 0 }
}

/// Returns the increases and decreases in the costs if a lecture is added.
pub(crate) fn cost_delta(counts: &CountsAfter, instance: &Instance, lecture: &Placed) -> CostDelta
    requires fits { Fits instance.now lecture.now }
    requires sizes { HaveSizes instance.now counts.now.base.now }
    requires own { NoneThere instance.now counts.now lecture.now }
    ensures value { result ≡ seen_delta instance.now counts.now lecture.now }
    ensures bound { IsSmallDelta result }
{
    instance.limits_hold();
    let students = instance.students(lecture.course);
    let curricula = instance.curricula_of(lecture.course);
    let period = instance.period_of(lecture.slot);
    let delta = compactness_delta(counts, instance, curricula, lecture.slot, period);
    CostDelta {
        seats: u64::from(students.saturating_sub(instance.capacity(lecture.room))),
        day: missing_day(counts, instance, lecture),
        alone: 2 * delta.alone,
        lone_neighbours: 2 * delta.lone_neighbours,
        room: further_room(counts, instance, lecture),
    }
}

/// Returns the costs with a lecture, given the costs without it.
pub(crate) fn with_lecture(cost: Cost, delta: &CostDelta) -> Cost
    requires small { total cost ≤ 7000000000000000 }
    requires delta { IsSmallDelta delta.now }
    ensures { result ≡ with_delta cost delta.now }
{
    Cost {
        capacity: cost.capacity + delta.seats,
        days: cost.days.saturating_sub(delta.day),
        compactness: (cost.compactness + delta.alone).saturating_sub(delta.lone_neighbours),
        stability: cost.stability + delta.room,
    }
}

/// Returns the costs without a lecture, given the costs with it.
pub(crate) fn without_lecture(cost: Cost, delta: &CostDelta) -> Cost
    requires small { total cost ≤ 7000000000000000 }
    requires delta { IsSmallDelta delta.now }
    ensures { result ≡ without_delta cost delta.now }
{
    Cost {
        capacity: cost.capacity.saturating_sub(delta.seats),
        days: cost.days + delta.day,
        compactness: (cost.compactness + delta.lone_neighbours).saturating_sub(delta.alone),
        stability: cost.stability.saturating_sub(delta.room),
    }
}

/// Returns what a lecture adds to the penalty, which may be negative.
pub(crate) fn gain(delta: &CostDelta) -> i64
    requires { IsSmallDelta delta.now }
    ensures { result ≡ gain_of delta.now }
{
    (delta.seats + delta.alone + delta.room) as i64 - (delta.day + delta.lone_neighbours) as i64
}
