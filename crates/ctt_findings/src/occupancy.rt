//! The lectures in rooms that are already taken.

ghost use Rattle.std.specs.Prelude.{◌≡◌, ◌<◌, ◌==◌, ◌&&◌, ◌||◌, ◌++◌, [], ℕ, false, length, IfOk, OnOk};
ghost use Rattle.ctt_problem.specs.Timetable.{IsTimetable};
ghost use Rattle.ctt_rules.specs.Earlier.{in_row};
ghost use Rattle.ctt_findings.specs.Findings.{occupancy_finding, occupancy_from};

use crate::adding::push_some;
use crate::finding::Finding;
use ctt_problem::{Instance, Marks, NoMemory, Placed};
use std::alloc::Global;
use std::marker::Model;

/// The rooms that are taken in each slot.
#[derive(Drop)]
struct TakenRooms {
    slots: Vec<Marks>,
}

impl Model for TakenRooms {
    ghost use Rattle.std.specs.Prelude.{List, ℕ};

    ghost Value = { List (List ℕ) };

    ghost view = { λ t. t.slots.items };
}

impl TakenRooms {
    /// Creates a table of `slots` slots, in which no room is taken.
    fn new(alloc: Global, slots: u16) -> Result<Self, NoMemory>
        ensures size { IfOk result (λ taken. length taken ≡ slots) }
        ensures none { IfOk result (λ taken. (s r : ℕ) → in_row taken s r ≡ false) }
    {
        let slots = vec![in alloc; Marks::new(); slots as usize]?;
        Ok(TakenRooms { slots })
    }

    /// Takes the room of a lecture in its slot, and returns whether it was already taken.
    fn take(&mut self, lecture: &Placed) -> bool
        requires slot { lecture.now.slot < length self.old }
        requires room { lecture.now.room < 2000 }
        ensures size { length self.new ≡ length self.old }
        ensures was { result ≡ in_row self.old lecture.now.slot lecture.now.room }
        ensures taken { (s r : ℕ) → in_row self.new s r
            ≡ ((lecture.now.slot == s && lecture.now.room == r) || in_row self.old s r) }
    {
        !self.slots[lecture.slot.get() as usize].mark(lecture.room.get() as usize)
    }
}

/// Returns a finding for a lecture, if its room is taken.
fn occupancy(taken: bool, lecture: &Placed) -> Option<Finding>
    ensures { result ≡ occupancy_finding taken lecture.now }
{
    if !taken {
        return None;
    }
    Some(Finding::Occupancy(*lecture))
}

/// Adds the lectures in rooms that an earlier lecture takes in the same slot.
pub(crate) fn push_occupancy(
    alloc: Global,
    found: &mut Vec<Finding>,
    instance: &Instance,
    timetable: &[Placed],
) -> Result<(), NoMemory>
    requires { IsTimetable instance.now timetable.now }
    ensures { OnOk result (found.new.items ≡ found.old.items ++ occupancy_from [] timetable.now) }
{
    instance.limits_hold();
    let mut taken = TakenRooms::new(alloc, instance.slots())?;
    for lecture in timetable {
        push_some(found, occupancy(taken.take(lecture), lecture))?;
    }
    Ok(())
}
