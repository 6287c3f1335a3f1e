//! Marks on the courses that have a lecture in a slot.

ghost use Rattle.std.specs.Prelude.{◌≡◌, ◌<◌, ◌==◌, ◌&&◌, ◌||◌, ℕ};
ghost use Rattle.std.specs.List.{AllByRecursion as Each};
ghost use Rattle.ctt_problem.specs.Marks.{is_marked};
ghost use Rattle.ctt_problem.specs.Timetable.{has_lecture};

use ctt_problem::{Marks, Placed, SlotNo};

/// Marks the course of a lecture if the lecture is in the slot.
fn mark_if_there(marks: &mut Marks, lecture: &Placed, slot: SlotNo)
    requires { lecture.now.course < 2000 }
    ensures { (course : ℕ)
        → is_marked marks.new course
        ≡ (is_marked marks.old course
        || (lecture.now.course == course && lecture.now.slot == slot)) }
{
    if lecture.slot == slot {
        marks.mark(lecture.course.get() as usize);
    }
}

/// Returns marks on the courses of those lectures that are in a slot.
pub(crate) fn courses_in_slot(lectures: &[Placed], slot: SlotNo) -> Marks
    requires { Each (λ l. l.course < 2000) lectures.now }
    ensures { (course : ℕ) → is_marked result course ≡ has_lecture course slot lectures.now }
{
    let mut marks = Marks::new();
    for lecture in lectures {
        mark_if_there(&mut marks, lecture, slot);
    }
    marks
}
