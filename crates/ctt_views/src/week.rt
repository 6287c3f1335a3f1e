//! The lectures of a timetable, slot by slot.

ghost use Rattle.std.specs.Prelude.{◌≡◌, ◌<◌, ℕ, [], length, map, get_or, IfOk, OnOk};
ghost use Rattle.std.specs.List.{AllByRecursion as Each};
ghost use Rattle.ctt_problem.specs.Problem.{slot_count};
ghost use Rattle.ctt_problem.specs.Timetable.{Fits, IsTimetable, slot_row};
ghost use Rattle.ctt_views.specs.Weeks.{WeekFits, by_slot, lectures_in};

use ctt_problem::{Instance, Placed, SlotNo, add_to, empty_lists};
use std::alloc::{AllocError, Global};
use std::marker::Model;

/// The lectures in each slot.
#[derive(Drop)]
pub(crate) struct Week {
    slots: Vec<Vec<Placed>>,
}

impl Model for Week {
    ghost use Rattle.std.specs.Prelude.{List, map};
    ghost use Rattle.ctt_problem.specs.declared.placed.Placed.{Placed as Lecture};

    ghost Value = { List (List Lecture) };

    ghost view = { λ w. map (λ v. v.items) w.slots.items };
}

/// Adds each lecture to those of its slot.
fn add_lectures(slots: &mut [Vec<Placed>], timetable: &[Placed]) -> Result<(), AllocError>
    requires within { Each (λ l. l.slot < length slots.old) timetable.now }
    requires none { (s : ℕ) → get_or (map (λ v. v.items) slots.old) s [] ≡ [] }
    ensures size { OnOk result (length slots.new ≡ length slots.old) }
    ensures rows { OnOk result
        ((s : ℕ)
        → s < length slots.old
        → get_or (map (λ v. v.items) slots.new) s [] ≡ slot_row s timetable.now) }
{
    for lecture in timetable {
        add_to(slots, lecture.slot.get() as usize, *lecture)?;
    }
    Ok(())
}

/// Groups lectures by slot, for the first `count` slots.
fn lectures_by_slot(
    alloc: Global,
    count: u16,
    timetable: &[Placed],
) -> Result<Vec<Vec<Placed>>, AllocError>
    requires { Each (λ l. l.slot < count) timetable.now }
    ensures size { IfOk result (λ v. length v.items ≡ count) }
    ensures rows { IfOk result (λ v.
        (s : ℕ)
        → s < count
        → get_or (map (λ v. v.items) v.items) s [] ≡ slot_row s timetable.now) }
{
    let mut slots = empty_lists(alloc, usize::from(count))?;
    add_lectures(&mut slots, timetable)?;
    Ok(slots)
}

impl Week {
    /// Groups the lectures of a timetable by slot.
    pub(crate) fn new(
        alloc: Global,
        instance: &Instance,
        timetable: &[Placed],
    ) -> Result<Self, AllocError>
        requires { IsTimetable instance.now timetable.now }
        ensures rows { IfOk result (λ week. week ≡ by_slot (slot_count instance.now) timetable.now) }
        ensures fits { IfOk result (λ week. WeekFits instance.now week) }
    {
        let count = instance.slots();
        let slots = lectures_by_slot(alloc, count, timetable)?;
        Ok(Week { slots })
    }

    /// Returns the lectures in a slot.
    pub(crate) fn row(&self, instance: &Instance, slot: SlotNo) -> &[Placed]
        requires week { WeekFits instance.now self.now }
        requires slot { slot < slot_count instance.now }
        ensures row { result.now ≡ lectures_in self.now slot }
        ensures fits { Each (Fits instance.now) result.now }
    {
        &self.slots[slot.get() as usize]
    }
}
