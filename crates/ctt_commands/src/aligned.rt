//! Rows as a table with aligned columns.

ghost use Rattle.std.specs.Prelude.{◌≡◌, ◌+◌, ◌∷◌, ◌++◌, flat_map, replicate, OnOk, IfOk};
ghost use Rattle.ctt_commands.specs.Tables.{aligned, aligned_line, each_below, column_gap, others, right, widest_cell, text_width, column_widths};

use crate::texts::Texts;
use std::alloc::{AllocError, Global};
use unicode_width::UnicodeWidthStr;

/// Returns the width of a text in terminal columns.
fn width(text: &str) -> usize
    ensures { result ≡ text_width text.now }
{
    text.width()
}

/// Returns the width of the widest cell in a column.
fn widest(head: &Texts, rows: &[Texts], column: usize) -> usize
    ensures { result ≡ widest_cell column (head.now ∷ rows.now) }
{
    let mut widest = width(head.text(column));
    for row in rows {
        widest = widest.max(width(row.text(column)));
    }
    widest
}

/// Returns the widths of all columns.
#[tactic(auto, using(crate::proofs::TableLemmas::each_more))]
fn widths(alloc: Global, head: &Texts, rows: &[Texts]) -> Result<Vec<usize>, AllocError>
    ensures { IfOk result (λ made. made.items ≡ column_widths head.now rows.now) }
{
    let mut widths = Vec::new(alloc);
    for column in 0..head.len() {
        widths.push(widest(head, rows, column))?;
    }
    Ok(widths)
}

/// Adds blanks.
pub(crate) fn push_blanks(text: &mut Vec<u8>, count: usize) -> Result<(), AllocError>
    ensures { OnOk result (text.new.items ≡ text.old.items ++ replicate count 32) }
{
    for _ in 0..count {
        text.push(b' ')?;
    }
    Ok(())
}

/// Adds the blanks that fill a column.
fn push_gap(
    text: &mut Vec<u8>,
    widths: &[usize],
    cells: &Texts,
    column: usize,
) -> Result<(), AllocError>
    ensures { OnOk result (text.new.items ≡ text.old.items ++ column_gap widths.now cells.now column) }
{
    let all = match widths.get(column) {
        Some(width) => *width,
        None => 0,
    };
    push_blanks(text, all.saturating_sub(width(cells.text(column))))
}

/// Adds a cell after the first, at the right of its column.
fn push_right(
    text: &mut Vec<u8>,
    widths: &[usize],
    cells: &Texts,
    column: usize,
) -> Result<(), AllocError>
    ensures { OnOk result (text.new.items ≡ text.old.items ++ right widths.now cells.now column) }
{
    text.push(b' ')?;
    push_gap(text, widths, cells, column)?;
    text.extend_from_slice(cells.text(column).as_bytes())
}

/// Adds the cells after the first.
fn push_others(text: &mut Vec<u8>, widths: &[usize], cells: &Texts) -> Result<(), AllocError>
    ensures { OnOk result (text.new.items ≡ text.old.items
        ++ each_below (λ k. right widths.now cells.now (k + 1)) (others cells.now)) }
{
    for column in 0..cells.len().saturating_sub(1) {
        push_right(text, widths, cells, column + 1)?;
    }
    Ok(())
}

/// Adds the line of a row.
fn push_line(text: &mut Vec<u8>, widths: &[usize], cells: &Texts) -> Result<(), AllocError>
    ensures { OnOk result (text.new.items ≡ text.old.items ++ aligned_line widths.now cells.now) }
{
    text.extend_from_slice(cells.text(0).as_bytes())?;
    push_gap(text, widths, cells, 0)?;
    push_others(text, widths, cells)?;
    text.extend_from_slice(b"\n")
}

/// Adds the lines of the rows.
fn push_lines(text: &mut Vec<u8>, widths: &[usize], rows: &[Texts]) -> Result<(), AllocError>
    ensures { OnOk result (text.new.items ≡ text.old.items
        ++ flat_map (aligned_line widths.now) rows.now) }
{
    for row in rows {
        push_line(text, widths, row)?;
    }
    Ok(())
}

/// Returns the rows as a table, below the names of the columns.
pub(crate) fn aligned(alloc: Global, head: &Texts, rows: &[Texts]) -> Result<Vec<u8>, AllocError>
    ensures { IfOk result (λ text. text.items ≡ aligned head.now rows.now) }
{
    let widths = widths(alloc, head, rows)?;
    let mut text = Vec::new(alloc);
    push_line(&mut text, &widths, head)?;
    push_lines(&mut text, &widths, rows)?;
    Ok(text)
}
