//! Lectures in one slot whose courses clash or that share a room, counted in blocks of 64 slots.

ghost use Rattle.std.specs.Prelude.{◌≡◌, ◌<◌, ◌≤◌, ◌+◌, ◌-◌, ◌*◌, ◌^◌, ◌==◌, ◌&&◌, ◌||◌, ℕ, [], cond, false, not, nat_le, nat_lt};
ghost use Rattle.ctt_problem.specs.Marks.{is_marked, count_marked};
ghost use Rattle.ctt_problem.specs.Timetable.{IsTimetable, Fits};
ghost use Rattle.ctt_rules.specs.Hard.{conflict_count, occupancy_count};
ghost use Rattle.ctt_rules.specs.Earlier.{clashes_with, in_row, new_conflicts, only_in, room_taken, tally};

use ctt_problem::{Instance, Marks, Placed};
use std::marker::Model;

/// The numbers that are marked in each of 64 consecutive slots.
#[derive(Drop)]
struct SlotMarks {
    rows: [Marks; 64],
}

impl Model for SlotMarks {
    ghost use Rattle.std.specs.Prelude.{List, ℕ};

    ghost Value = { List (List ℕ) };

    ghost view = { λ m. m.rows };
}

impl SlotMarks {
    /// Creates marks with no number marked.
    fn new() -> Self
        ensures { (row n : ℕ) → in_row result row n ≡ false }
    {
        let none = Marks::new();
        SlotMarks { rows: [none; 64] }
    }

    /// Marks a number in a slot, and returns whether it was unmarked before.
    fn mark(&mut self, row: usize, number: usize) -> bool
        requires row { row < 64 }
        requires number { number < 2000 }
        ensures fresh { result ≡ not (in_row self.old row number) }
        ensures marked { (r n : ℕ)
            → in_row self.new r n ≡ ((row == r && number == n) || in_row self.old r n) }
    {
        self.rows[row].mark(number)
    }

    /// Counts the numbers that are marked both in a slot and in `marks`.
    fn common_count(&self, row: usize, marks: &Marks) -> u32
        requires { row < 64 }
        ensures count { result
            ≡ count_marked (λ n. in_row self.now row n && is_marked marks.now n) }
        ensures few { result ≤ 2000 }
    {
        self.rows[row].common_count(marks)
    }
}

/// How often lectures in one slot break a hard constraint together.
#[derive(Clone, Copy)]
pub(crate) struct Sharing {
    /// Pairs of lectures whose courses clash.
    pub(crate) conflicts: u64,
    /// Lectures beyond the first in a room.
    pub(crate) occupancy: u64,
}

/// The lectures seen so far in the 64 slots from `first` on, and their counts.
#[derive(Drop)]
struct Block {
    first: u16,
    courses: SlotMarks,
    rooms: SlotMarks,
    sharing: Sharing,
}

impl Block {
    /// Creates a block in which no lecture has been seen.
    fn new(first: u16) -> Self
        ensures first { result.first ≡ first }
        ensures courses { (row n : ℕ) → in_row result.courses row n ≡ false }
        ensures rooms { (row n : ℕ) → in_row result.rooms row n ≡ false }
        ensures conflicts { result.sharing.conflicts ≡ 0 }
        ensures occupancy { result.sharing.occupancy ≡ 0 }
    {
        Block {
            first,
            courses: SlotMarks::new(),
            rooms: SlotMarks::new(),
            sharing: Sharing {
                conflicts: 0,
                occupancy: 0,
            },
        }
    }

    /// Counts a lecture against those seen so far, and records it, if it is in one of the slots.
    fn meet(&mut self, instance: &Instance, lecture: &Placed)
        requires fits { Fits instance.now lecture.now }
        requires small { self.now.sharing.conflicts + 2000 < 2 ^ 64 }
        requires few { self.now.sharing.occupancy + 1 < 2 ^ 64 }
        ensures first { self.new.first ≡ self.old.first }
        ensures courses { (row n : ℕ) → row < 64 → in_row self.new.courses row n
            ≡ ((lecture.now.slot == self.old.first + row && lecture.now.course == n)
            || in_row self.old.courses row n) }
        ensures rooms { (row n : ℕ) → row < 64 → in_row self.new.rooms row n
            ≡ ((lecture.now.slot == self.old.first + row && lecture.now.room == n)
            || in_row self.old.rooms row n) }
        ensures conflicts { self.new.sharing.conflicts ≡ self.old.sharing.conflicts
            + cond (nat_le self.old.first lecture.now.slot
            && nat_lt lecture.now.slot (self.old.first + 64))
            (count_marked (λ n. in_row self.old.courses (lecture.now.slot - self.old.first) n
            && clashes_with instance.now lecture.now.course n)) 0 }
        ensures occupancy { self.new.sharing.occupancy ≡ self.old.sharing.occupancy
            + cond (nat_le self.old.first lecture.now.slot
            && nat_lt lecture.now.slot (self.old.first + 64))
            (cond (in_row self.old.rooms (lecture.now.slot - self.old.first) lecture.now.room) 1 0)
            0 }
    {
        instance.limits_hold();
        let slot = lecture.slot.get();
        if self.first <= slot && slot - self.first < 64 {
            let row = (slot - self.first) as usize;
            let clashing = instance.clashing(lecture.course);
            self.sharing.conflicts += u64::from(self.courses.common_count(row, &clashing));
            self.courses.mark(row, lecture.course.get() as usize);
            let is_taken = !self.rooms.mark(row, lecture.room.get() as usize);
            self.sharing.occupancy += u64::from(is_taken);
        }
    }
}

/// Counts the conflicts and shared rooms in one block.
fn count_block(instance: &Instance, timetable: &[Placed], first: u16) -> Sharing
    requires { IsTimetable instance.now timetable.now }
    ensures conflicts { result.conflicts
        ≡ tally (only_in first (first + 64) (new_conflicts instance.now)) [] timetable.now }
    ensures occupancy { result.occupancy
        ≡ tally (only_in first (first + 64) room_taken) [] timetable.now }
    ensures small { result.conflicts ≤ 2000 * 4000000 }
    ensures few { result.occupancy ≤ 4000000 }
{
    instance.limits_hold();
    let mut block = Block::new(first);
    for lecture in timetable {
        block.meet(instance, lecture);
    }
    block.sharing
}

/// Counts the pairs of lectures in one slot whose courses clash, and the lectures beyond the first
/// in each room and slot.
pub(crate) fn count_sharing(instance: &Instance, timetable: &[Placed]) -> Sharing
    requires { IsTimetable instance.now timetable.now }
    ensures conflicts { result.conflicts ≡ conflict_count instance.now timetable.now }
    ensures occupancy { result.occupancy ≡ occupancy_count instance.now timetable.now }
{
    instance.limits_hold();
    let slots = instance.slots();
    let mut sharing = Sharing {
        conflicts: 0,
        occupancy: 0,
    };
    let mut first = 0;
    while first < slots {
        let block = count_block(instance, timetable, first);
        sharing.conflicts += block.conflicts;
        sharing.occupancy += block.occupancy;
        first += 64;
    }
    sharing
}
