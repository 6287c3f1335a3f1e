//! The clashes of a course with the courses that have a lecture in a slot.

ghost use Rattle.std.specs.Prelude.{◌≡◌, ◌<◌, ℕ, List, is_some, IsSome};
ghost use Rattle.ctt_problem.specs.Marks.{is_marked};
ghost use Rattle.ctt_problem.specs.Problem.{course_count, slot_count};
ghost use Rattle.ctt_problem.specs.Timetable.{without};
ghost use Rattle.ctt_problem.specs.declared.placed.Placed.{Placed};
ghost use Rattle.ctt_rules.specs.Hard.{Lawful};
ghost use Rattle.ctt_board.specs.Changes.{clash_at, room_at};

use crate::sheet::Rooms;
use ctt_problem::{CourseNo, Instance, Marks, SlotNo};

/// Returns the first marked course that clashes with this one. The marks are the courses with a
/// lecture in one slot.
fn first_clash_among(instance: &Instance, standing: &Marks, course: CourseNo) -> Option<CourseNo>
    requires { course < course_count instance.now }
    ensures { (slot : ℕ) (t : List Placed) → Lawful instance.now t
        → ((c : ℕ) → is_marked standing.now c ≡ is_some (room_at c slot t))
        → result ≡ clash_at instance.now course slot t }
{
    instance.limits_hold();
    let courses = instance.courses() as usize;
    let number = standing.first_common_below(&instance.clashing(course), courses)?;
    Some(CourseNo::new(number as u16))
}

/// Returns the first course, by number, that has a lecture in a slot and clashes with this one.
pub fn first_clash<R: Rooms>(
    instance: &Instance,
    rooms: &R,
    course: CourseNo,
    slot: SlotNo,
) -> Option<CourseNo>
    requires same { R.problem rooms.now ≡ instance.now }
    requires course { course < course_count instance.now }
    requires slot { slot < slot_count instance.now }
    ensures { result ≡ clash_at instance.now course slot (R.list rooms.now) }
{
    rooms.lawful();
    let standing = rooms.standing(slot);
    first_clash_among(instance, &standing, course)
}

/// Returns the first course, by number, that has a lecture in a slot and clashes with this one,
/// after the lecture of `leaving` has left the slot.
pub fn first_clash_without<R: Rooms>(
    instance: &Instance,
    rooms: &R,
    course: CourseNo,
    slot: SlotNo,
    leaving: CourseNo,
) -> Option<CourseNo>
    requires same { R.problem rooms.now ≡ instance.now }
    requires course { course < course_count instance.now }
    requires slot { slot < slot_count instance.now }
    requires leaving { leaving < course_count instance.now }
    requires there { IsSome (room_at leaving slot (R.list rooms.now)) }
    ensures { result ≡ clash_at instance.now course slot (without leaving slot (R.list rooms.now)) }
{
    rooms.lawful();
    instance.limits_hold();
    let mut standing = rooms.standing(slot);
    standing.unmark(leaving.get() as usize);
    first_clash_among(instance, &standing, course)
}
