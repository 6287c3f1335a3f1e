//! What a timetable is worth as a proposal in place of another.

ghost use Rattle.std.specs.Prelude.{◌≡◌, ◌<◌, ◌≤◌};
ghost use Rattle.ctt_problem.specs.Problem.{course_count, slot_count};
ghost use Rattle.ctt_rules.specs.Hard.{missing_count};
ghost use Rattle.ctt_search.specs.Scores.{is_new, new_count, changes_of, changes, score, IsSmallScore};

use ctt_board::Sheet;
use ctt_problem::{CourseNo, SlotNo};

/// What is compared of two timetables.
#[derive(Clone, Copy, Debug, PartialEq, Eq)]
pub struct Score {
    /// The missing lectures, over all courses.
    pub missing: u64,
    /// The lectures that are changed to get there from the start.
    pub changes: u64,
    /// The penalty.
    pub cost: u64,
}

/// Counts the missing lectures of all courses.
fn count_missing<'i, S: Sheet<'i>>(sheet: &S) -> u64
    ensures { result ≡ missing_count (S.problem sheet.now) (S.list sheet.now) }
{
    let instance = sheet.instance();
    instance.limits_hold();
    let mut total = 0;
    for number in 0..instance.courses() {
        let course = CourseNo::new(number);
        let placed = sheet.count(course);
        total += u64::from(instance.lectures(course)).abs_diff(u64::from(placed));
    }
    total
}

/// Returns whether a course has a lecture in a slot of a sheet that does not stand so in the start.
fn is_new<'i, S: Sheet<'i>>(start: &S, sheet: &S, course: CourseNo, slot: SlotNo) -> bool
    requires same { S.problem start.now ≡ S.problem sheet.now }
    requires course { course < course_count (S.problem sheet.now) }
    requires slot { slot < slot_count (S.problem sheet.now) }
    ensures { result ≡ is_new (S.list start.now) (S.list sheet.now) course slot }
{
    let room = sheet.room_at(course, slot);
    room.is_some() && room != start.room_at(course, slot)
}

/// Counts the lectures of a course on a sheet that do not stand so in the start.
fn count_new<'i, S: Sheet<'i>>(start: &S, sheet: &S, course: CourseNo) -> u32
    requires same { S.problem start.now ≡ S.problem sheet.now }
    requires course { course < course_count (S.problem sheet.now) }
    ensures value { result
        ≡ new_count (S.problem sheet.now) (S.list start.now) (S.list sheet.now) course }
    ensures few { result ≤ 2000 }
{
    let instance = sheet.instance();
    instance.limits_hold();
    let mut count = 0;
    for number in 0..instance.slots() {
        if is_new(start, sheet, course, SlotNo::new(number)) {
            count += 1;
        }
    }
    count
}

/// Counts the lectures of a course that are changed to get from the start to a sheet.
fn count_changes_of<'i, S: Sheet<'i>>(start: &S, sheet: &S, course: CourseNo) -> u32
    requires same { S.problem start.now ≡ S.problem sheet.now }
    requires course { course < course_count (S.problem sheet.now) }
    ensures value { result
        ≡ changes_of (S.problem sheet.now) (S.list start.now) (S.list sheet.now) course }
    ensures few { result ≤ 2000 }
{
    let new = count_new(start, sheet, course);
    let gone = count_new(sheet, start, course);
    new + gone.saturating_sub(new)
}

/// Counts the lectures that are changed to get from the start to a sheet. A lecture with another
/// slot or room counts once, and so does one that is placed or dropped.
pub fn count_changes<'i, S: Sheet<'i>>(start: &S, sheet: &S) -> u64
    requires same { S.problem start.now ≡ S.problem sheet.now }
    ensures value { result ≡ changes (S.problem sheet.now) (S.list start.now) (S.list sheet.now) }
    ensures few { result ≤ 4000000 }
{
    let instance = sheet.instance();
    instance.limits_hold();
    let mut total = 0;
    for number in 0..instance.courses() {
        total += u64::from(count_changes_of(start, sheet, CourseNo::new(number)));
    }
    total
}

/// Returns the missing lectures of a sheet, its changes from the start, and its penalty.
pub fn score_of<'i, S: Sheet<'i>>(start: &S, sheet: &S) -> Score
    requires same { S.problem start.now ≡ S.problem sheet.now }
    ensures value { result ≡ score (S.problem sheet.now) (S.list start.now) (S.list sheet.now) }
    ensures small { IsSmallScore result }
{
    Score {
        missing: count_missing(sheet),
        changes: count_changes(start, sheet),
        cost: sheet.cost().total(),
    }
}
