//! The traits of lawful timetables, from a read-only view to a sheet.

ghost use Rattle.std.specs.Prelude.{◌≡◌, ◌<◌, ◌^◌, ◌++◌, ℕ, [], length, is_some, IfOk, OnOk, OnErr};
ghost use Rattle.ctt_problem.specs.Problem.{course_count, slot_count, room_count};
ghost use Rattle.ctt_problem.specs.Marks.{is_marked};
ghost use Rattle.ctt_problem.specs.Timetable.{course_row, slot_row};
ghost use Rattle.ctt_rules.specs.Hard.{Lawful};
ghost use Rattle.ctt_rules.specs.Penalty.{penalty, total};
ghost use Rattle.ctt_board.specs.Changes.{room_at, holder_at, apply, ChangeFits, apply_all, ChangesFit};
ghost use Rattle.ctt_board.specs.Boards.{delta};
ghost use Rattle.ctt_board.specs.Fitting.{fits};

use crate::change::Change;
use ctt_problem::{CourseNo, Instance, Marks, NoMemory, Placed, RoomNo, SlotNo};
use ctt_rules::Cost;
use std::alloc::Global;

/// A lawful timetable with look-ups by course, slot and room: a sheet, or a view of a sheet after a
/// change.
pub trait Rooms: Drop {
    ghost use Rattle.std.specs.Prelude.{List};
    ghost use Rattle.ctt_problem.specs.Problem.{Problem};
    ghost use Rattle.ctt_problem.specs.declared.placed.Placed.{Placed};

    /// The instance of the timetable.
    ghost problem: { Self → Problem };

    /// The lectures.
    ghost list: { Self → List Placed };

    /// Computes nothing. Its contract states that the timetable is lawful.
    fn lawful(&self)
        ensures { Lawful (problem self.now) (list self.now) };

    /// Returns the room of the lecture of a course in a slot, if there is one.
    fn room_at(&self, course: CourseNo, slot: SlotNo) -> Option<RoomNo>
        requires course { course < course_count (problem self.now) }
        requires slot { slot < slot_count (problem self.now) }
        ensures { result ≡ room_at course slot (list self.now) };

    /// Returns the course whose lecture has a room in a slot, if there is one.
    fn holder(&self, slot: SlotNo, room: RoomNo) -> Option<CourseNo>
        requires slot { slot < slot_count (problem self.now) }
        requires room { room < room_count (problem self.now) }
        ensures { result ≡ holder_at slot room (list self.now) };

    /// Returns marks on the courses that have a lecture in a slot.
    fn standing(&self, slot: SlotNo) -> Marks
        requires { slot < slot_count (problem self.now) }
        ensures { (course : ℕ)
            → is_marked result course ≡ is_some (room_at course slot (list self.now)) };

    /// Returns how many lectures of a course are placed.
    fn count(&self, course: CourseNo) -> u32
        requires { course < course_count (problem self.now) }
        ensures { result ≡ length (course_row course (list self.now)) };
}

/// A lawful timetable that can be changed, with its costs. Structs that own a sheet use this trait
/// as their bound, since it does not name the lifetime of the instance.
pub trait Timetable: Rooms + Send + Sync {
    /// Returns the four costs of the timetable.
    fn cost(&self) -> Cost
        ensures value { result ≡ penalty (Self.problem self.now) (Self.list self.now) }
        ensures bound { total result < 2 ^ 63 };

    /// Returns the penalty after a change minus the present penalty.
    fn delta(&self, change: &Change) -> i64
        requires { ChangeFits (Self.problem self.now) change.now (Self.list self.now) }
        ensures { result ≡ delta (Self.problem self.now) (Self.list self.now) change.now };

    /// Returns whether a change fits. Allocates nothing.
    fn accepts(&self, change: &Change) -> bool
        ensures { result ≡ fits (Self.problem self.now) change.now (Self.list self.now) };

    /// Makes a change. Allocates nothing.
    fn apply(&mut self, change: &Change)
        requires { ChangeFits (Self.problem self.old) change.now (Self.list self.old) }
        ensures problem { Self.problem self.new ≡ Self.problem self.old }
        ensures list { Self.list self.new ≡ apply change.now (Self.list self.old) };

    /// Makes changes in order. Allocates nothing.
    fn apply_all(&mut self, changes: &[Change])
        requires { ChangesFit (Self.problem self.old) changes.now (Self.list self.old) }
        ensures problem { Self.problem self.new ≡ Self.problem self.old }
        ensures list { Self.list self.new ≡ apply_all changes.now (Self.list self.old) };

    /// Returns the lectures of a course, by slot.
    fn course_row(&self, course: CourseNo) -> Result<Vec<Placed>, NoMemory>
        requires { course < course_count (Self.problem self.now) }
        ensures { IfOk result (λ row. row.items ≡ course_row course (Self.list self.now)) };

    /// Appends the lectures of a course, by slot, to a list. If memory runs out, the list is
    /// unchanged.
    fn append_course_row(&self, course: CourseNo, list: &mut Vec<Placed>) -> Result<(), NoMemory>
        requires { course < course_count (Self.problem self.now) }
        ensures row { OnOk result
            (list.new.items ≡ list.old.items ++ course_row course (Self.list self.now)) }
        ensures kept { OnErr result (list.new.items ≡ list.old.items) };

    /// Returns the lectures in a slot, by course.
    fn slot_row(&self, slot: SlotNo) -> Result<Vec<Placed>, NoMemory>
        requires { slot < slot_count (Self.problem self.now) }
        ensures { IfOk result (λ row. row.items ≡ slot_row slot (Self.list self.now)) };

    /// Returns all lectures, by course and slot.
    fn list(&self) -> Result<Vec<Placed>, NoMemory>
        ensures { IfOk result (λ all. all.items ≡ Self.list self.now) };

    /// Returns an equal sheet.
    fn copy(&self) -> Result<Self, NoMemory>
        ensures { IfOk result
            (λ sheet. (Self.problem sheet ≡ Self.problem self.now)
            × (Self.list sheet ≡ Self.list self.now)) };
}

/// A lawful timetable of a borrowed instance.
pub trait Sheet<'i>: Timetable {
    /// Returns the empty timetable, with all the memory that changes need.
    fn empty(alloc: Global, instance: &'i Instance) -> Result<Self, NoMemory>
        ensures { IfOk result
            (λ sheet. (Self.problem sheet ≡ instance.now) × (Self.list sheet ≡ [])) };

    /// Returns the instance.
    fn instance(&self) -> &'i Instance
        ensures { result.now ≡ Self.problem self.now };
}
