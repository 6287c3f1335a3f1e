//! A table of bits.

ghost use Rattle.std.specs.Prelude.{◌≡◌, ◌<◌, ◌≤◌, ◌==◌, ◌&&◌, ℕ, true, false, IfOk};
ghost use Rattle.std.specs.List.{list_any};
ghost use Rattle.ctt_problem.specs.Marks.{is_marked};
ghost use Rattle.ctt_problem.specs.BitRows.{is_marked_in, marks_of, words_for, AddsMarks, HasSize, SetsMark};

use crate::marks::Marks;
use std::alloc::{AllocError, Global};
use std::marker::Model;

/// A table of bits: which of the numbers below `width` are marked in each row. It has at most
/// 20,000 rows of at most 2,000 numbers. A row occupies whole words of 64 bits, and the rows are
/// contiguous.
#[derive(Drop)]
pub struct BitRows {
    rows: usize,
    width: usize,
    words: Vec<u64>,
}

impl Model for BitRows {
    ghost use Rattle.ctt_problem.specs.BitRows.{BitTable, IsBitTable};

    ghost Value = { BitTable };

    ghost view = { λ b. record { rows = b.rows; width = b.width; words = b.words.items } };

    ghost invariant = { λ b.
        IsBitTable (record { rows = b.rows; width = b.width; words = b.words.items }) };
}

/// Returns how many words a row of `width` numbers needs.
fn words_for(width: usize) -> usize
    requires { width ≤ 2000 }
    ensures { result ≡ words_for width }
{
    (width + 63) / 64
}

impl BitRows {
    /// Returns a table without marks. Fails if memory runs out.
    pub fn new(alloc: Global, rows: usize, width: usize) -> Result<Self, AllocError>
        requires rows { rows ≤ 20000 }
        requires width { width ≤ 2000 }
        ensures size { IfOk result (λ b. HasSize b rows width) }
        ensures marks { IfOk result (λ b. (row n : ℕ) → is_marked_in b row n ≡ false) }
    {
        let words = vec![in alloc; 0; rows * words_for(width)]?;
        Ok(BitRows { rows, width, words })
    }

    /// Marks a number in a row. Allocates nothing.
    pub fn mark(&mut self, row: usize, number: usize)
        requires row { row < self.old.rows }
        requires number { number < self.old.width }
        ensures { SetsMark self.old self.new row number true }
    {
        let place = row * words_for(self.width) + number / 64;
        self.words[place] |= 1 << (number % 64);
    }

    /// Marks all numbers of `marks` in a row.
    pub fn mark_all(&mut self, row: usize, marks: &Marks)
        requires row { row < self.old.rows }
        requires within { (n : ℕ) → self.old.width ≤ n → is_marked marks.now n ≡ false }
        ensures { AddsMarks self.old self.new (λ r n. r == row && is_marked marks.now n) }
    {
        let count = words_for(self.width);
        let start = row * count;
        let mut all = self.row(row);
        all.add(marks);
        self.words[start..start + count].copy_from_slice(&all.words()[..count]);
    }

    /// Unmarks a number in a row. Allocates nothing.
    pub fn unmark(&mut self, row: usize, number: usize)
        requires row { row < self.old.rows }
        requires number { number < self.old.width }
        ensures { SetsMark self.old self.new row number false }
    {
        let place = row * words_for(self.width) + number / 64;
        self.words[place] &= !(1 << (number % 64));
    }

    /// Returns whether a number is marked in a row.
    pub fn is_marked(&self, row: usize, number: usize) -> bool
        requires row { row < self.now.rows }
        requires number { number < self.now.width }
        ensures { result ≡ is_marked_in self.now row number }
    {
        let place = row * words_for(self.width) + number / 64;
        (self.words[place] >> (number % 64)) & 1 == 1
    }

    /// Returns whether any number is marked in any row.
    pub(crate) fn has_marks(&self) -> bool
        ensures { result ≡ list_any (λ b. b) (marks_of self.now) }
    {
        for word in &self.words {
            if *word != 0 {
                return true;
            }
        }
        false
    }

    /// Returns the marks of a row.
    #[inline(always)]
    pub fn row(&self, row: usize) -> Marks
        requires { row < self.now.rows }
        ensures { (n : ℕ) → is_marked result n ≡ is_marked_in self.now row n }
    {
        let count = words_for(self.width);
        let start = row * count;
        Marks::of_words(&self.words[start..start + count])
    }

    /// Returns a copy. Fails if memory runs out.
    pub fn copy(&self) -> Result<Self, AllocError>
        ensures { IfOk result (λ b. b ≡ self.now) }
    {
        Ok(BitRows {
            rows: self.rows,
            width: self.width,
            words: Vec::from_slice(*self.words.allocator(), &self.words)?,
        })
    }
}
