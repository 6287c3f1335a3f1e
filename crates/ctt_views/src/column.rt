//! One column of the table of a week.

ghost use Rattle.std.specs.Prelude.{◌≡◌, ◌∷◌, ◌++◌, [], max, get_or, OnOk, string_bytes};
ghost use Rattle.ctt_views.specs.Week.{blanks, filled, widest, width};

use std::alloc::{AllocError, Global};
use std::fmt::Write;
use std::marker::Model;
use unicode_width::UnicodeWidthStr;

/// The texts of a column from top to bottom, and the width of the widest.
#[derive(Drop)]
pub(crate) struct Column {
    texts: Vec<String>,
    width: usize,
}

impl Model for Column {
    ghost use Rattle.std.specs.Prelude.{◌≡◌, List, ℕ, map, string_bytes};
    ghost use Rattle.ctt_views.specs.Week.{widest};

    ghost Value = { List (List ℕ) };

    ghost view = { λ c. map string_bytes c.texts.items };

    ghost invariant = { λ c. c.width ≡ widest (map string_bytes c.texts.items) };
}

/// Returns the width of a text in terminal columns.
fn width(text: &str) -> usize
    ensures { result ≡ width text.now }
{
    text.width()
}

fn greater(a: usize, b: usize) -> usize
    ensures { result ≡ max a b }
{
    if a < b { b } else { a }
}

fn push_blanks(line: &mut String, count: usize) -> Result<(), AllocError>
    ensures { OnOk result (string_bytes line.new ≡ string_bytes line.old ++ blanks count) }
{
    for _ in 0..count {
        line.push_str(" ")?;
    }
    Ok(())
}

impl Column {
    /// Creates a column without texts.
    pub(crate) fn new(alloc: Global) -> Self
        ensures { result ≡ [] }
    {
        Column {
            texts: Vec::new(alloc),
            width: 0,
        }
    }

    /// Adds a text below the others.
    pub(crate) fn push(&mut self, text: String) -> Result<(), AllocError>
        ensures { OnOk result (self.new ≡ self.old ++ string_bytes text ∷ []) }
    {
        let width = width(text.as_str());
        self.texts.push(text)?;
        self.width = greater(self.width, width);
        Ok(())
    }

    /// Returns the width of the widest text in terminal columns.
    fn widest(&self) -> usize
        ensures { result ≡ widest self.now }
    {
        self.width
    }

    /// Returns the text at a place, counted from the top; below the last it is empty.
    fn text(&self, place: usize) -> &str
        ensures { result.now ≡ get_or self.now place [] }
    {
        match self.texts.get(place) {
            Some(text) => text.as_str(),
            None => "",
        }
    }

    /// Adds the text at a place to a line, padded with blanks to the width of the column.
    pub(crate) fn push_to(&self, line: &mut String, place: usize) -> Result<(), AllocError>
        ensures { OnOk result (string_bytes line.new
            ≡ string_bytes line.old ++ filled place self.now) }
    {
        let text = self.text(place);
        write!(line, "| {text}")?;
        push_blanks(line, self.widest().saturating_sub(width(text)))?;
        line.push_str(" ")
    }
}
