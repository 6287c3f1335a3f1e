//! What closures block in the weeks of teachers.

ghost use Rattle.std.specs.Prelude.{◌≡◌, ◌<◌};
ghost use Rattle.ctt_problem.specs.Problem.{slot_count, teacher_count};
ghost use Rattle.ctt_views.specs.Closures.{teacher_closed};

use ctt_problem::{Instance, SlotNo, TeacherNo};

/// Returns whether closures block all courses of a teacher in a slot.
pub(crate) fn teacher_closed(instance: &Instance, teacher: TeacherNo, slot: SlotNo) -> bool
    requires teacher { teacher < teacher_count instance.now }
    requires slot { slot < slot_count instance.now }
    ensures { result ≡ teacher_closed instance.now teacher slot }
{
    for course in instance.taught_by(teacher) {
        if !instance.closed(*course, slot) {
            return false;
        }
    }
    true
}
