//! Rows as a JSON array.

ghost use Rattle.std.specs.Prelude.{◌≡◌, ◌∷◌, ◌++◌, [], false, OnOk, IfOk, codes, string_bytes};
ghost use Rattle.serde_json.specs.Data.{array, no_members, object, put as with_member};
ghost use Rattle.serde_json.specs.View.{members_view, view};
ghost use Rattle.serde_json.specs.Written.{compact_text, has_float};
ghost use Rattle.ctt_commands.specs.Columns.{cell_of, cell_content, content_data, column_name};
ghost use Rattle.ctt_commands.specs.Tables.{json, objects, with_cells};

use crate::column::{Cell, Column, cell_in, name};
use crate::row::Row;
use serde_json::{Map, Value};
use std::alloc::{AllocError, Global};

/// Returns a cell as a value.
fn value(alloc: Global, cell: Cell<'_>) -> Result<Value, AllocError>
    ensures { IfOk result (λ value. view value ≡ content_data (cell_content cell.entry)) }
{
    match cell {
        Cell::Text(text) => Ok(Value::String(String::from_str(alloc, text)?)),
        Cell::Count(count) => Ok(Value::from(count)),
        Cell::Answer(answer) => Ok(Value::Bool(answer)),
        Cell::Nothing => Ok(Value::Null),
    }
}

/// Adds the cell of a row in a column as a member.
fn put_cell(
    alloc: Global,
    members: &mut Map<String, Value>,
    row: &Row,
    column: Column,
) -> Result<(), AllocError>
    ensures { OnOk result (members_view members.new.entries
        ≡ with_member (column_name column) (content_data (cell_of row.now column))
        (members_view members.old.entries)) }
{
    let value = value(alloc, cell_in(row, column))?;
    serde_json::put(members, alloc, name(column), value)
}

/// Returns the object of a row.
fn object(alloc: Global, columns: &[Column], row: &Row) -> Result<Value, AllocError>
    ensures { IfOk result (λ value.
        view value ≡ object (with_cells row.now columns.now no_members)) }
{
    let mut members = Map::new(alloc);
    for column in columns {
        put_cell(alloc, &mut members, row, *column)?;
    }
    Ok(Value::Object(members))
}

/// Adds a value to an array.
fn add(list: &mut Vec<Value>, value: Value) -> Result<(), AllocError>
    ensures { OnOk result (list.new.items ≡ list.old.items ++ value ∷ []) }
{
    list.push(value)?;
    Ok(())
}

/// Returns the array of the objects of rows.
fn array(alloc: Global, columns: &[Column], rows: &[Row]) -> Result<Value, AllocError>
    ensures { IfOk result (λ value. view value ≡ array (objects columns.now rows.now)) }
{
    let mut list = Vec::with_capacity(alloc, rows.len())?;
    for row in rows {
        add(&mut list, object(alloc, columns, row)?)?;
    }
    Ok(Value::Array(list))
}

/// Returns the rows as an array of objects, whose keys are the names of the columns.
pub(crate) fn json(alloc: Global, columns: &[Column], rows: &[Row]) -> Result<Vec<u8>, AllocError>
    ensures { IfOk result (λ text. text.items ≡ json columns.now rows.now) }
{
    let mut text = array(alloc, columns, rows)?.to_string(alloc)?;
    text.push_str("\n")?;
    Ok(text.into_bytes())
}
