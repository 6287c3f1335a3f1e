//! A two-dimensional table of a fixed size.
ghost use Rattle.std.specs.Prelude.{◌≡◌, ℕ, ◌<◌, ◌≤◌, ◌*◌, ◌==◌, ◌&&◌, cond, length, get_or, IfOk};
ghost use Rattle.ctt_grid.specs.Tables.{at};

use std::alloc::{AllocError, Global};
use std::marker::Model;

/// A value for each row and column, stored row by row.
#[derive(Drop)]
pub(crate) struct Table<T> {
    rows: usize,
    width: usize,
    cells: Vec<T>,
}

impl<T> Model for Table<T> {
    ghost use Rattle.std.specs.Prelude.{◌≡◌, ◌*◌, ◌≤◌, length};
    ghost use Rattle.ctt_grid.specs.Tables.{Grid, grid_code};

    ghost Value = { Grid T };

    ghost coded = { grid_code T.code };

    ghost view = { λ t. record { rows = t.rows; width = t.width; cells = t.cells.items } };

    ghost invariant = { λ t. length t.cells.items ≡ t.rows * t.width };
}

impl<T: Copy> Table<T> {
    /// Returns a table of this size with the same value everywhere.
    pub(crate) fn new(
        alloc: Global,
        rows: usize,
        width: usize,
        value: T,
    ) -> Result<Self, AllocError>
        requires { rows * width ≤ 100000000 }
        ensures rows { IfOk result (λ t. (t.rows ≡ rows) × (t.width ≡ width)) }
        ensures size { IfOk result (λ t. length t.cells ≡ rows * width) }
        ensures cells { IfOk result
            (λ t. (row column : ℕ) → row < rows → column < width → at t row column value ≡ value) }
    {
        let mut cells = Vec::new(alloc);
        cells.resize(rows * width, value)?;
        Ok(Table { rows, width, cells })
    }

    /// Returns the value in a row and a column.
    pub(crate) fn get(&self, row: usize, column: usize) -> T
        requires row { row < self.now.rows }
        requires column { column < self.now.width }
        ensures { (d : T) → result ≡ at self.now row column d }
    {
        self.cells[row * self.width + column]
    }

    /// Returns the values of a row, by column.
    pub(crate) fn row(&self, row: usize) -> &[T]
        requires { row < self.now.rows }
        ensures length { length result.now ≡ self.now.width }
        ensures cells { (column : ℕ) (d : T) → column < self.now.width
            → get_or result.now column d ≡ at self.now row column d }
    {
        let start = row * self.width;
        &self.cells[start..start + self.width]
    }

    /// Writes a value into a row and a column.
    pub(crate) fn set(&mut self, row: usize, column: usize, value: T)
        requires row { row < self.old.rows }
        requires column { column < self.old.width }
        ensures rows { self.new.rows ≡ self.old.rows }
        ensures width { self.new.width ≡ self.old.width }
        ensures cells { (r k : ℕ) (d : T) → k < self.old.width
            → at self.new r k d ≡ cond (r == row && k == column) value (at self.old r k d) }
    {
        self.cells[row * self.width + column] = value;
    }

    /// Returns an equal table from the same allocator.
    pub(crate) fn copy(&self) -> Result<Self, AllocError>
        ensures { IfOk result (λ t. t ≡ self.now) }
    {
        Ok(Table {
            rows: self.rows,
            width: self.width,
            cells: Vec::from_slice(*self.cells.allocator(), &self.cells)?,
        })
    }
}
