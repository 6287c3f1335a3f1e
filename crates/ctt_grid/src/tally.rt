//! Updates of tables of counts and of marks.

ghost use Rattle.std.specs.Prelude.{◌<◌, ◌≤◌};
ghost use Rattle.std.specs.List.{AllByRecursion as Each};
ghost use Rattle.ctt_problem.specs.BitRows.{AddsMarks};
ghost use Rattle.ctt_grid.specs.Counts.{TakesMarks, in_one_slot};
ghost use Rattle.ctt_grid.specs.Tables.{at, AddsAtEach, one_at};

use crate::table::Table;
use ctt_problem::{BitRows, CurriculumNo, SlotNo};

/// Adds 1 to the count in a row and a column.
pub(crate) fn add_one(counts: &mut Table<u16>, row: usize, column: usize)
    requires row { row < counts.old.rows }
    requires column { column < counts.old.width }
    requires few { at counts.old row column 0 ≤ 65534 }
    ensures { AddsAtEach counts.old counts.new (one_at row column) }
{
    let count = counts.get(row, column);
    counts.set(row, column, count + 1);
}

/// Subtracts 1 from the count in a row and a column.
pub(crate) fn take_one(counts: &mut Table<u16>, row: usize, column: usize)
    requires row { row < counts.old.rows }
    requires column { column < counts.old.width }
    requires some { 1 ≤ at counts.old row column 0 }
    ensures { AddsAtEach counts.new counts.old (one_at row column) }
{
    let count = counts.get(row, column);
    counts.set(row, column, count - 1);
}

/// Marks a slot in the rows of these curricula.
pub(crate) fn mark_slot(table: &mut BitRows, curricula: &[CurriculumNo], slot: SlotNo)
    requires curricula { Each (λ q. q < table.old.rows) curricula.now }
    requires slot { slot < table.old.width }
    ensures { AddsMarks table.old table.new (in_one_slot curricula.now slot) }
{
    for curriculum in curricula {
        table.mark(curriculum.get() as usize, slot.get() as usize);
    }
}

/// Unmarks a slot in the rows of these curricula.
pub(crate) fn unmark_slot(table: &mut BitRows, curricula: &[CurriculumNo], slot: SlotNo)
    requires curricula { Each (λ q. q < table.old.rows) curricula.now }
    requires slot { slot < table.old.width }
    ensures { TakesMarks table.old table.new (in_one_slot curricula.now slot) }
{
    for curriculum in curricula {
        table.unmark(curriculum.get() as usize, slot.get() as usize);
    }
}
