//! What a change would do to the penalty.

ghost use Rattle.std.specs.Prelude.{◌≡◌, ◌<◌, ◌≤◌, ◌+◌, ◌*◌};
ghost use Rattle.ctt_problem.specs.Problem.{AreMembers, course_count};
ghost use Rattle.ctt_problem.specs.Timetable.{course_row};
ghost use Rattle.ctt_rules.specs.Hard.{Lawful};
ghost use Rattle.ctt_rules.specs.Penalty.{course_cost, total, alone_cost, lectures_of};
ghost use Rattle.ctt_board.specs.Boards.{delta};
ghost use Rattle.ctt_board.specs.Changes.{ChangeFits};
ghost use Rattle.ctt_board.specs.Costs.{touches, touches_curriculum, courses_cost, curricula_cost};

use arrayvec::ArrayVec;
use ctt_board::{After, Cell, Change, Rooms};
use ctt_problem::{CourseNo, CurriculumNo, Instance, Marks, Placed, SlotNo};
use ctt_rules::{count_alone, mark_slots};

/// Returns the lectures of a course, by slot.
fn row<R: Rooms>(after: &After<R>, course: CourseNo) -> ArrayVec<Placed, 2000>
    requires { course < course_count after.now.problem }
    ensures { result.items ≡ course_row course after.now.list }
{
    after.lawful();
    let instance = after.instance();
    instance.limits_hold();
    let mut row = ArrayVec::new();
    for number in 0..instance.slots() {
        let slot = SlotNo::new(number);
        if let Some(room) = after.room_at(course, slot) {
            row.push(Placed { course, slot, room });
        }
    }
    row
}

/// Returns what the lectures of a course cost, without the compactness of its curricula.
fn course_cost<R: Rooms>(after: &After<R>, course: CourseNo) -> u64
    requires { course < course_count after.now.problem }
    ensures value { result ≡ total (course_cost after.now.problem after.now.list course) }
    ensures bound { result ≤ 3000000000000 }
{
    after.lawful();
    let instance = after.instance();
    instance.limits_hold();
    let row = row(after, course);
    ctt_rules::course_cost(instance, row.as_slice(), course).total()
}

/// Returns the compactness cost of the curriculum with these members.
fn curriculum_cost<R: Rooms>(after: &After<R>, members: &[CourseNo]) -> u64
    requires { AreMembers (course_count after.now.problem) members.now }
    ensures value { result
        ≡ alone_cost after.now.problem (lectures_of members.now after.now.list) }
    ensures bound { result ≤ 8000000 }
{
    after.lawful();
    let instance = after.instance();
    instance.limits_hold();
    let mut slots = Marks::new();
    for member in members {
        let row = row(after, *member);
        mark_slots(instance, &mut slots, row.as_slice());
    }
    let mut count = 0;
    for member in members {
        let row = row(after, *member);
        count += count_alone(instance, &slots, row.as_slice());
    }
    2 * count
}

/// Returns whether some cell belongs to the course.
fn touches(cells: &[Cell], course: CourseNo) -> bool
    ensures { result ≡ touches cells.now course }
{
    cells.iter().any(|x| x.course == course)
}

/// Returns whether some cell belongs to a member of the curriculum.
fn touches_curriculum(cells: &[Cell], members: &[CourseNo]) -> bool
    ensures { result ≡ touches_curriculum cells.now members.now }
{
    cells.iter().any(|x| members.contains(&x.course))
}

/// Returns the cost, without compactness, of the courses that the cells touch.
fn courses_cost<R: Rooms>(after: &After<R>, cells: &[Cell]) -> u64
    ensures value { result ≡ courses_cost after.now.problem cells.now after.now.list }
    ensures bound { result ≤ 2000 * 3000000000000 }
{
    let instance = after.instance();
    instance.limits_hold();
    let mut total = 0;
    for number in 0..instance.courses() {
        let course = CourseNo::new(number);
        if touches(cells, course) {
            total += course_cost(after, course);
        }
    }
    total
}

/// Returns the compactness cost of the curricula that the cells touch.
fn curricula_cost<R: Rooms>(after: &After<R>, cells: &[Cell]) -> u64
    ensures value { result ≡ curricula_cost after.now.problem cells.now after.now.list }
    ensures bound { result ≤ 20000 * 8000000 }
{
    let instance = after.instance();
    instance.limits_hold();
    let mut total = 0;
    for number in 0..instance.curricula() {
        let members = instance.members(CurriculumNo::new(number));
        if touches_curriculum(cells, members) {
            total += curriculum_cost(after, members);
        }
    }
    total
}

/// Returns the cost of the courses and curricula that the cells touch.
fn touched_cost<R: Rooms>(after: &After<R>, cells: &[Cell]) -> u64
    ensures value { result ≡ courses_cost after.now.problem cells.now after.now.list
        + curricula_cost after.now.problem cells.now after.now.list }
    ensures bound { result ≤ 2000 * 3000000000000 + 20000 * 8000000 }
{
    courses_cost(after, cells) + curricula_cost(after, cells)
}

/// Returns the penalty after a change that fits, minus the penalty before it.
pub(crate) fn delta<R: Rooms>(instance: &Instance, rooms: &R, change: &Change) -> i64
    requires same { R.problem rooms.now ≡ instance.now }
    requires lawful { Lawful instance.now (R.list rooms.now) }
    requires fits { ChangeFits instance.now change.now (R.list rooms.now) }
    ensures { result ≡ delta instance.now (R.list rooms.now) change.now }
{
    let cells = change.cells();
    let before = After::new(instance, rooms, &[]);
    let after = After::new(instance, rooms, cells);
    touched_cost(&after, cells) as i64 - touched_cost(&before, cells) as i64
}
