//! Rows as comma-separated values.

ghost use Rattle.std.specs.Prelude.{◌≡◌, ◌∷◌, ◌++◌, flat_map, map, OnOk, IfOk, string_bytes};
ghost use Rattle.ctt_findings.specs.Csv.{csv, csv_line, next_field};

use crate::texts::Texts;
use ctt_findings::{push_field, push_next_field};
use std::alloc::{AllocError, Global};

/// Adds the fields after the first.
fn push_others(text: &mut Vec<u8>, others: &[String]) -> Result<(), AllocError>
    ensures { OnOk result (text.new.items
        ≡ text.old.items ++ flat_map next_field (map string_bytes others.now)) }
{
    for other in others {
        push_next_field(text, other.as_bytes())?;
    }
    Ok(())
}

/// Adds the line of a row.
fn push_line(text: &mut Vec<u8>, cells: &Texts) -> Result<(), AllocError>
    ensures { OnOk result (text.new.items ≡ text.old.items ++ csv_line cells.now) }
{
    let Some((first, others)) = cells.as_slice().split_first() else {
        return text.extend_from_slice(b"\n");
    };
    push_field(text, first.as_bytes())?;
    push_others(text, others)?;
    text.extend_from_slice(b"\n")
}

/// Adds the lines of the rows.
fn push_lines(text: &mut Vec<u8>, rows: &[Texts]) -> Result<(), AllocError>
    ensures { OnOk result (text.new.items ≡ text.old.items ++ csv rows.now) }
{
    for row in rows {
        push_line(text, row)?;
    }
    Ok(())
}

/// Returns the rows as CSV, after the names of the columns.
pub(crate) fn csv(alloc: Global, head: &Texts, rows: &[Texts]) -> Result<Vec<u8>, AllocError>
    ensures { IfOk result (λ text. text.items ≡ csv (head.now ∷ rows.now)) }
{
    let mut text = Vec::new(alloc);
    push_line(&mut text, head)?;
    push_lines(&mut text, rows)?;
    Ok(text)
}
