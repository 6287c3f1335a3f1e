//! The columns of a comparison: the name of each, and what stands in its cells.

ghost use Rattle.std.specs.Prelude.{◌≡◌, IfOk, filter};
ghost use Rattle.ctt_commands.specs.Columns.{cell_of, columns_in, cell_content, counted, fault_cell, is_shown, column_name, score_cell};

use crate::row::{Row, Score};
use std::alloc::{AllocError, Global};

/// A column.
#[derive(Clone, Copy, PartialEq, Eq)]
pub(crate) enum Column {
    Instance,
    File,
    Lectures,
    Conflicts,
    Availability,
    Occupancy,
    Barred,
    Blocked,
    Violations,
    Capacity,
    Days,
    Compactness,
    Stability,
    Total,
    Lawful,
    Complete,
    Fault,
}

/// All columns, from the left.
const COLUMNS: &[Column] = &[
    Column::Instance,
    Column::File,
    Column::Lectures,
    Column::Conflicts,
    Column::Availability,
    Column::Occupancy,
    Column::Barred,
    Column::Blocked,
    Column::Violations,
    Column::Capacity,
    Column::Days,
    Column::Compactness,
    Column::Stability,
    Column::Total,
    Column::Lawful,
    Column::Complete,
    Column::Fault,
];

/// Which columns a table has that others do not have.
#[derive(Clone, Copy)]
pub(crate) struct Shape {
    /// Whether it has the instances.
    pub(crate) instances: bool,
    /// Whether it has the lectures in blocked rooms.
    pub(crate) blocked: bool,
    /// Whether it has the faults, and so rows of the files that are refused.
    pub(crate) faults: bool,
}

/// What stands in a cell.
#[derive(Clone, Copy)]
pub(crate) enum Cell<'r> {
    Text(&'r str),
    Count(u64),
    Answer(bool),
    Nothing,
}

/// Returns the name of a column.
pub(crate) fn name(column: Column) -> &'static str
    ensures { result.now ≡ column_name column }
{
    match column {
        Column::Instance => "instance",
        Column::File => "file",
        Column::Lectures => "lectures",
        Column::Conflicts => "conflicts",
        Column::Availability => "availability",
        Column::Occupancy => "occupancy",
        Column::Barred => "barred",
        Column::Blocked => "blocked",
        Column::Violations => "violations",
        Column::Capacity => "capacity",
        Column::Days => "days",
        Column::Compactness => "compactness",
        Column::Stability => "stability",
        Column::Total => "total",
        Column::Lawful => "lawful",
        Column::Complete => "complete",
        Column::Fault => "fault",
    }
}

/// Returns whether a table of this shape has a column.
fn is_shown(shape: Shape, column: Column) -> bool
    ensures { result ≡ is_shown shape column }
{
    match column {
        Column::Instance => shape.instances,
        Column::Blocked => shape.blocked,
        Column::Fault => shape.faults,
        _ => true,
    }
}

/// Returns those of these columns that a table of this shape has.
fn shown_among(alloc: Global, shape: Shape, all: &[Column]) -> Result<Vec<Column>, AllocError>
    ensures { IfOk result (λ shown. shown.items ≡ filter (is_shown shape) all.now) }
{
    let mut shown = Vec::new(alloc);
    for column in all {
        if is_shown(shape, *column) {
            shown.push(*column)?;
        }
    }
    Ok(shown)
}

/// Returns the columns of a table of this shape, from the left.
pub(crate) fn columns(alloc: Global, shape: Shape) -> Result<Vec<Column>, AllocError>
    ensures { IfOk result (λ shown. shown.items ≡ columns_in shape) }
{
    shown_among(alloc, shape, COLUMNS)
}

/// Returns what a score has in a column.
fn counted<'r>(score: &Score, column: Column) -> Cell<'r>
    ensures { cell_content result ≡ counted column score.now }
{
    match column {
        Column::Lectures => Cell::Count(score.hard.lectures),
        Column::Conflicts => Cell::Count(score.hard.conflicts),
        Column::Availability => Cell::Count(score.hard.availability),
        Column::Occupancy => Cell::Count(score.hard.occupancy),
        Column::Barred => Cell::Count(score.hard.barred),
        Column::Blocked => Cell::Count(score.hard.blocked),
        Column::Violations => Cell::Count(score.violations),
        Column::Capacity => Cell::Count(score.cost.capacity),
        Column::Days => Cell::Count(score.cost.days),
        Column::Compactness => Cell::Count(score.cost.compactness),
        Column::Stability => Cell::Count(score.cost.stability),
        Column::Total => Cell::Count(score.total),
        Column::Lawful => Cell::Answer(score.lawful),
        Column::Complete => Cell::Answer(score.complete),
        Column::Instance | Column::File | Column::Fault => Cell::Nothing,
    }
}

/// Returns the cell of a fault.
fn fault_cell(row: &Row) -> Cell<'_>
    ensures { cell_content result ≡ fault_cell row.now.judged }
{
    match &row.judged {
        Ok(_) => Cell::Nothing,
        Err(fault) => Cell::Text(fault),
    }
}

/// Returns the cell of the counts, the costs and the judgements in a column.
fn score_cell<'r>(row: &Row, column: Column) -> Cell<'r>
    ensures { cell_content result ≡ score_cell column row.now.judged }
{
    match &row.judged {
        Ok(score) => counted(score, column),
        Err(_) => Cell::Nothing,
    }
}

/// Returns the cell of a row in a column.
pub(crate) fn cell_in(row: &Row, column: Column) -> Cell<'_>
    ensures { cell_content result ≡ cell_of row.now column }
{
    match column {
        Column::Instance => Cell::Text(&row.instance),
        Column::File => Cell::Text(&row.file),
        Column::Fault => fault_cell(row),
        _ => score_cell(row, column),
    }
}
