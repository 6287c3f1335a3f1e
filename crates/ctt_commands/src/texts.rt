//! Rows as texts.

ghost use Rattle.std.specs.Prelude.{◌≡◌, ◌∷◌, ◌++◌, [], OnOk, IfOk, length, map, string_bytes};
ghost use Rattle.ctt_commands.specs.Columns.{cell_of, cell_content, column_name, content_word};
ghost use Rattle.ctt_commands.specs.Tables.{text_at, texts_of};

use crate::column::{Cell, Column, cell_in, name};
use crate::row::Row;
use std::alloc::{AllocError, Global};
use std::fmt::Write;
use std::marker::Model;

/// The texts of a row, one for each column.
#[derive(Drop)]
pub(crate) struct Texts {
    texts: Vec<String>,
}

impl Model for Texts {
    ghost use Rattle.std.specs.Prelude.{List, ℕ, map, string_bytes};

    ghost Value = { List (List ℕ) };

    ghost view = { λ c. map string_bytes c.texts.items };
}

impl Texts {
    /// Creates a row without texts.
    fn new(alloc: Global) -> Self
        ensures { result ≡ [] }
    {
        Texts {
            texts: Vec::new(alloc),
        }
    }

    /// Adds a text.
    fn push(&mut self, text: String) -> Result<(), AllocError>
        ensures { OnOk result (self.new ≡ self.old ++ string_bytes text ∷ []) }
    {
        Ok(self.texts.push(text)?)
    }

    /// Returns the texts.
    pub(crate) fn as_slice(&self) -> &[String]
        ensures { map string_bytes result.now ≡ self.now }
    {
        self.texts.as_slice()
    }

    /// Returns the number of columns.
    pub(crate) fn len(&self) -> usize
        ensures { result ≡ length self.now }
    {
        self.texts.len()
    }

    /// Returns the text in a column, or an empty one after the last.
    pub(crate) fn text(&self, column: usize) -> &str
        ensures { result.now ≡ text_at self.now column }
    {
        match self.texts.get(column) {
            Some(text) => text.as_str(),
            None => "",
        }
    }
}

/// Returns a cell as a word, or an empty text.
fn word(alloc: Global, cell: Cell<'_>) -> Result<String, AllocError>
    ensures { IfOk result (λ text. string_bytes text ≡ content_word (cell_content cell.entry)) }
{
    match cell {
        Cell::Text(text) => String::from_str(alloc, text),
        Cell::Count(count) => format!(in alloc; "{count}"),
        Cell::Answer(true) => String::from_str(alloc, "yes"),
        Cell::Answer(false) => String::from_str(alloc, "no"),
        Cell::Nothing => Ok(String::new(alloc)),
    }
}

/// Returns the names of columns.
pub(crate) fn head(alloc: Global, columns: &[Column]) -> Result<Texts, AllocError>
    ensures { IfOk result (λ head. head ≡ map column_name columns.now) }
{
    let mut head = Texts::new(alloc);
    for column in columns {
        head.push(String::from_str(alloc, name(*column))?)?;
    }
    Ok(head)
}

/// Returns the cells of a row as words.
fn texts_of(alloc: Global, columns: &[Column], row: &Row) -> Result<Texts, AllocError>
    ensures { IfOk result (λ texts. texts ≡ texts_of columns.now row.now) }
{
    let mut texts = Texts::new(alloc);
    for column in columns {
        texts.push(word(alloc, cell_in(row, *column))?)?;
    }
    Ok(texts)
}

/// Returns the cells of all rows as words.
pub(crate) fn all_texts(
    alloc: Global,
    columns: &[Column],
    rows: &[Row],
) -> Result<Vec<Texts>, AllocError>
    ensures { IfOk result (λ all. all.items ≡ map (texts_of columns.now) rows.now) }
{
    let mut all = Vec::with_capacity(alloc, rows.len())?;
    for row in rows {
        all.push(texts_of(alloc, columns, row)?)?;
    }
    Ok(all)
}
