//! Marks on the slots of lectures, and lectures with no marked slot next to theirs.

ghost use Rattle.std.specs.Prelude.{◌≡◌, ◌<◌, ◌≤◌, ◌||◌, not, ℕ, length, count_by};
ghost use Rattle.std.specs.List.{AllByRecursion as Each};
ghost use Rattle.ctt_problem.specs.Marks.{is_marked};
ghost use Rattle.ctt_problem.specs.Problem.{slot_count};
ghost use Rattle.ctt_problem.specs.Timetable.{Fits};
ghost use Rattle.ctt_rules.specs.Neighbours.{busy, is_beside};

use ctt_problem::{Instance, Marks, Placed, SlotNo};

/// Marks the slots of lectures.
pub fn mark_slots(instance: &Instance, slots: &mut Marks, lectures: &[Placed])
    requires { Each (Fits instance.now) lectures.now }
    ensures { (s : ℕ) → is_marked slots.new s ≡ (is_marked slots.old s || busy lectures.now s) }
{
    instance.limits_hold();
    for lecture in lectures {
        slots.mark(lecture.slot.get() as usize);
    }
}

/// Returns whether the slot before or after, on the same day, is marked.
fn is_beside(instance: &Instance, slots: &Marks, slot: SlotNo) -> bool
    requires { slot < slot_count instance.now }
    ensures { result ≡ is_beside instance.now (is_marked slots.now) slot }
{
    instance.limits_hold();
    let period = instance.period_of(slot);
    let number = slot.get() as usize;
    (period > 0 && slots.is_marked(number - 1))
        || (period + 1 < instance.periods() && slots.is_marked(number + 1))
}

/// Counts the lectures with no marked slot directly before or after theirs on the same day.
pub fn count_alone(instance: &Instance, slots: &Marks, lectures: &[Placed]) -> u64
    requires { Each (Fits instance.now) lectures.now }
    ensures count { result
        ≡ count_by (λ l. not (is_beside instance.now (is_marked slots.now) l.slot)) lectures.now }
    ensures few { result ≤ length lectures.now }
{
    let mut count = 0;
    for lecture in lectures {
        if !is_beside(instance, slots, lecture.slot) {
            count += 1;
        }
    }
    count
}
