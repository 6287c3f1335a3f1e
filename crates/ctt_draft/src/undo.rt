//! A draft's undo record: the cells that it changed, with the rooms they had in its snapshot.

ghost use Rattle.std.specs.Prelude.{◌≡◌, ◌<◌, ◌≤◌, ◌+◌, [], length, IfOk, OnOk, OnErr};
ghost use Rattle.std.specs.Vec.{vec_len, vec_capacity};
ghost use Rattle.ctt_problem.specs.Problem.{course_count, slot_count};
ghost use Rattle.ctt_draft.specs.Undo.{is_named, noted, all_noted, AreWithin, IsUndo};

use ctt_board::{Cell, Rooms};
use ctt_problem::{BitRows, CourseNo, Instance, NoMemory, SlotNo};
use std::alloc::Global;
use std::marker::Model;

/// The cells that were changed, each once and in order of their first change, with the rooms that
/// they had before it.
#[derive(Drop)]
pub(crate) struct Undo {
    cells: Vec<Cell>,
    /// For each slot, the courses whose cells are recorded.
    marks: BitRows,
}

impl Model for Undo {
    ghost use Rattle.ctt_draft.specs.Undo.{UndoValue, IsUndo};

    ghost Value = { UndoValue };

    ghost view = { λ u. record {
      courses = u.marks.width;
      slots = u.marks.rows;
      cells = u.cells.items;
    } };

    ghost invariant = { λ u. IsUndo u.cells.items u.marks };
}

impl Undo {
    /// Creates an empty record for the cells of an instance.
    pub(crate) fn new(alloc: Global, instance: &Instance) -> Result<Self, NoMemory>
        ensures { IfOk result (λ undo.
            undo ≡ record {
              courses = course_count instance.now;
              slots = slot_count instance.now;
              cells = [];
            }) }
    {
        instance.limits_hold();
        let courses = instance.courses() as usize;
        let slots = instance.slots() as usize;
        Ok(Undo {
            cells: Vec::new(alloc),
            marks: BitRows::new(alloc, slots, courses)?,
        })
    }

    /// Returns the recorded cells, in order of their first change.
    pub(crate) fn cells(&self) -> &[Cell]
        ensures value { result.now ≡ self.now.cells }
        ensures within { AreWithin self.now.courses self.now.slots self.now.cells }
    {
        self.cells.as_slice()
    }

    /// Returns whether the cell of a course in a slot is recorded.
    pub(crate) fn has(&self, course: CourseNo, slot: SlotNo) -> bool
        requires course { course < self.now.courses }
        requires slot { slot < self.now.slots }
        ensures { result ≡ is_named course slot self.now.cells }
    {
        self.marks
            .is_marked(slot.get() as usize, course.get() as usize)
    }

    /// Records those of these cells that are not recorded yet, with their present rooms.
    pub(crate) fn record<R: Rooms>(&mut self, rooms: &R, cells: &[Cell]) -> Result<(), NoMemory>
        requires courses { self.old.courses ≡ course_count (R.problem rooms.now) }
        requires slots { self.old.slots ≡ slot_count (R.problem rooms.now) }
        requires within { AreWithin self.old.courses self.old.slots cells.now }
        ensures ok { OnOk result (self.new
            ≡ record self.old { cells = all_noted (R.list rooms.now) cells.now self.old.cells }) }
        ensures err { OnErr result (self.new ≡ self.old) }
    {
        self.cells.reserve(cells.len())?;
        note_all(&mut self.cells, &mut self.marks, rooms, cells);
        Ok(())
    }
}

/// Records a cell with its present room, if it is not recorded yet.
fn note<R: Rooms>(recorded: &mut Vec<Cell>, marks: &mut BitRows, rooms: &R, cell: &Cell)
    requires room { vec_len recorded.old < vec_capacity recorded.old }
    requires undo { IsUndo recorded.old.items marks.old }
    requires courses { marks.old.width ≡ course_count (R.problem rooms.now) }
    requires slots { marks.old.rows ≡ slot_count (R.problem rooms.now) }
    requires course { cell.now.course < marks.old.width }
    requires slot { cell.now.slot < marks.old.rows }
    ensures cells { recorded.new.items ≡ noted (R.list rooms.now) cell.now recorded.old.items }
    ensures len { vec_len recorded.new ≤ vec_len recorded.old + 1 }
    ensures capacity { vec_capacity recorded.old ≤ vec_capacity recorded.new }
    ensures courses { marks.new.width ≡ marks.old.width }
    ensures slots { marks.new.rows ≡ marks.old.rows }
    ensures undo { IsUndo recorded.new.items marks.new }
{
    let course = cell.course;
    let slot = cell.slot;
    let row = slot.get() as usize;
    let number = course.get() as usize;
    if !marks.is_marked(row, number) {
        marks.mark(row, number);
        let room = rooms.room_at(course, slot);
        recorded.push(Cell { course, slot, room }).unwrap();
    }
}

/// Records those of these cells that are not recorded yet. The list has the capacity for them.
fn note_all<R: Rooms>(recorded: &mut Vec<Cell>, marks: &mut BitRows, rooms: &R, cells: &[Cell])
    requires room { vec_len recorded.old + length cells.now ≤ vec_capacity recorded.old }
    requires undo { IsUndo recorded.old.items marks.old }
    requires courses { marks.old.width ≡ course_count (R.problem rooms.now) }
    requires slots { marks.old.rows ≡ slot_count (R.problem rooms.now) }
    requires within { AreWithin marks.old.width marks.old.rows cells.now }
    ensures cells { recorded.new.items ≡ all_noted (R.list rooms.now) cells.now recorded.old.items }
    ensures courses { marks.new.width ≡ marks.old.width }
    ensures slots { marks.new.rows ≡ marks.old.rows }
    ensures undo { IsUndo recorded.new.items marks.new }
{
    for cell in cells {
        note(recorded, marks, rooms, cell);
    }
}
