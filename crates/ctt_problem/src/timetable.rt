//! Timetables: lists of lectures, strictly ascending by course and slot.

ghost use Rattle.std.specs.Prelude.{◌≡◌, ◌↔◌, ◌<◌, IsTrue};
ghost use Rattle.std.specs.Bool.{OnTrue, OnFalse};
ghost use Rattle.ctt_problem.specs.Timetable.{IsTimetable, ByNeighbours, before};

use crate::instance::Instance;
use crate::placed::Placed;

/// Returns whether a lecture comes before another in the order by course and then by slot.
pub fn is_before(a: &Placed, b: &Placed) -> bool
    ensures { result ≡ before a.now b.now }
{
    let (a_course, b_course) = (a.course.get(), b.course.get());
    a_course < b_course || (a_course == b_course && a.slot.get() < b.slot.get())
}

/// Returns whether each lecture is in range and comes after the previous one.
fn ascends(instance: &Instance, lectures: &[Placed]) -> bool
    ensures yes { OnTrue result (ByNeighbours instance.now lectures.now) }
    ensures no { OnFalse result (ByNeighbours instance.now lectures.now → ⊥) }
{
    for (k, lecture) in lectures.iter().enumerate() {
        if !lecture.fits(instance) {
            return false;
        }
        if k > 0 && !is_before(&lectures[k - 1], lecture) {
            return false;
        }
    }
    true
}

/// Returns whether a list of lectures is a timetable of the instance: all numbers are in range, and
/// the list is strictly ascending by course and slot. The empty list is a timetable.
pub fn is_timetable(instance: &Instance, lectures: &[Placed]) -> bool
    ensures { IsTrue result ↔ IsTimetable instance.now lectures.now }
{
    ascends(instance, lectures)
}
