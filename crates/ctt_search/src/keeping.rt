//! Which timetables may be proposed in place of the start.

ghost use Rattle.std.specs.Prelude.{◌≡◌, ◌<◌};
ghost use Rattle.std.specs.Bool.{OnTrue};
ghost use Rattle.ctt_problem.specs.BitRows.{HasSize};
ghost use Rattle.ctt_problem.specs.Problem.{course_count, slot_count};
ghost use Rattle.ctt_search.specs.Scores.{score, IsSmallScore};
ghost use Rattle.ctt_search.specs.Wishes.{KeepsPins, KeepsPin, KeepsPinsOf, IsWithin, IsProposal};

use crate::aim::Aim;
use crate::score::Score;
use crate::wish::Wish;
use ctt_board::Sheet;
use ctt_problem::{BitRows, CourseNo, SlotNo};

/// Returns whether a number of changes is within the bound, if there is one.
fn is_within(most: Option<u32>, changes: u64) -> bool
    ensures { OnTrue result (IsWithin most changes) }
{
    match most {
        None => true,
        Some(most) => changes <= u64::from(most),
    }
}

/// Returns whether the lecture of a course in a slot of the start, if it is pinned, still stands
/// there.
fn keeps_pin<'i, S: Sheet<'i>>(
    start: &S,
    sheet: &S,
    pins: &BitRows,
    course: CourseNo,
    slot: SlotNo,
) -> bool
    requires same { S.problem start.now ≡ S.problem sheet.now }
    requires size { HasSize pins.now (slot_count (S.problem sheet.now))
        (course_count (S.problem sheet.now)) }
    requires course { course < course_count (S.problem sheet.now) }
    requires slot { slot < slot_count (S.problem sheet.now) }
    ensures { OnTrue result (KeepsPin pins.now (S.list start.now) (S.list sheet.now) course slot) }
{
    if !pins.is_marked(usize::from(slot.get()), usize::from(course.get())) {
        return true;
    }
    match start.room_at(course, slot) {
        None => true,
        Some(room) => sheet.room_at(course, slot) == Some(room),
    }
}

/// Returns whether each pinned lecture of a course still stands where it stands in the start.
fn keeps_pins_of<'i, S: Sheet<'i>>(start: &S, sheet: &S, pins: &BitRows, course: CourseNo) -> bool
    requires same { S.problem start.now ≡ S.problem sheet.now }
    requires size { HasSize pins.now (slot_count (S.problem sheet.now))
        (course_count (S.problem sheet.now)) }
    requires course { course < course_count (S.problem sheet.now) }
    ensures { OnTrue result (KeepsPinsOf (S.problem sheet.now) pins.now (S.list start.now)
        (S.list sheet.now) course) }
{
    for number in 0..sheet.instance().slots() {
        if !keeps_pin(start, sheet, pins, course, SlotNo::new(number)) {
            return false;
        }
    }
    true
}

/// Returns whether each pinned lecture still stands where it stands in the start.
fn keeps_pins<'i, S: Sheet<'i>>(start: &S, sheet: &S, pins: &BitRows) -> bool
    requires same { S.problem start.now ≡ S.problem sheet.now }
    requires size { HasSize pins.now (slot_count (S.problem sheet.now))
        (course_count (S.problem sheet.now)) }
    ensures { OnTrue result (KeepsPins (S.problem sheet.now) pins.now (S.list start.now)
        (S.list sheet.now)) }
{
    for number in 0..sheet.instance().courses() {
        if !keeps_pins_of(start, sheet, pins, CourseNo::new(number)) {
            return false;
        }
    }
    true
}

/// Returns whether a sheet may be proposed in place of the start, given the scores of both.
pub(crate) fn may_propose<'i, S: Sheet<'i>>(
    start: &S,
    sheet: &S,
    aim: Aim,
    wish: &Wish,
    own: &Score,
    reached: &Score,
) -> bool
    requires same { S.problem start.now ≡ S.problem sheet.now }
    requires size { HasSize wish.now.pins (slot_count (S.problem sheet.now))
        (course_count (S.problem sheet.now)) }
    requires own { own.now ≡ score (S.problem sheet.now) (S.list start.now) (S.list start.now) }
    requires own_small { IsSmallScore own.now }
    requires reached { reached.now
        ≡ score (S.problem sheet.now) (S.list start.now) (S.list sheet.now) }
    requires small { IsSmallScore reached.now }
    ensures { OnTrue result (IsProposal (S.problem sheet.now) aim wish.now.pins
        wish.now.most_changes (S.list start.now) (S.list sheet.now)) }
{
    sheet.lawful();
    if !is_within(wish.most_changes, reached.changes) {
        return false;
    }
    if !aim.is_at_most(reached, own) {
        return false;
    }
    keeps_pins(start, sheet, &wish.pins)
}
