//! A set of small numbers, such as those of courses, slots or rooms.

ghost use Rattle.std.specs.Prelude.{◌≡◌, ℕ, ◌<◌, ◌≤◌, ◌==◌, ◌&&◌, ◌||◌, false, not, nat_le, nat_lt, length, IfSome};
ghost use Rattle.ctt_problem.specs.Marks.{is_marked, count_marked, IsLeast};

use std::marker::Model;

/// A set of marked numbers below 2,000, one bit each. Allocates nothing.
#[derive(Clone, Copy, PartialEq, Eq)]
pub struct Marks {
    words: [u64; 32],
}

impl Model for Marks {
    ghost use Rattle.std.specs.Prelude.{List, ℕ};
    ghost use Rattle.ctt_problem.specs.Marks.{AreMarks};

    ghost Value = { List ℕ };

    ghost view = { λ m. m.words };

    ghost invariant = { λ m. AreMarks m.words };

    ghost inverse = { λ words. record { words = words } };
}

impl Marks {
    /// Returns a set in which no number is marked.
    pub fn new() -> Self
        ensures { (n : ℕ) → is_marked result n ≡ false }
    {
        Marks { words: [0; 32] }
    }

    /// Returns the marks stored in words, each with the bits of 64 numbers.
    #[inline(always)]
    pub fn of_words(words: &[u64]) -> Self
        requires few { length words.now ≤ 32 }
        requires within { (n : ℕ) → 2000 ≤ n → is_marked words.now n ≡ false }
        ensures { (n : ℕ) → is_marked result n ≡ is_marked words.now n }
    {
        let mut all = [0; 32];
        all[..words.len()].copy_from_slice(words);
        Marks { words: all }
    }

    /// Returns the 32 words, each with the bits of 64 numbers.
    pub(crate) fn words(&self) -> &[u64]
        ensures value { result.now ≡ self.now }
        ensures size { length result.now ≡ 32 }
    {
        &self.words
    }

    /// Marks a number, and returns whether it was unmarked before.
    pub fn mark(&mut self, number: usize) -> bool
        requires { number < 2000 }
        ensures fresh { result ≡ not (is_marked self.old number) }
        ensures marked { (n : ℕ) → is_marked self.new n ≡ (n == number || is_marked self.old n) }
    {
        let bit = 1u64 << (number % 64);
        let word = self.words[number / 64];
        self.words[number / 64] = word | bit;
        word & bit == 0
    }

    /// Unmarks a number, and returns whether it was marked before.
    pub fn unmark(&mut self, number: usize) -> bool
        requires { number < 2000 }
        ensures was { result ≡ is_marked self.old number }
        ensures marked { (n : ℕ)
            → is_marked self.new n ≡ (not (n == number) && is_marked self.old n) }
    {
        let bit = 1u64 << (number % 64);
        let word = self.words[number / 64];
        self.words[number / 64] = word & !bit;
        word & bit != 0
    }

    /// Returns whether a number is marked. No number from 2,000 on is.
    pub fn is_marked(&self, number: usize) -> bool
        ensures marked { result ≡ is_marked self.now number }
        ensures within { 2000 ≤ number → result ≡ false }
    {
        number < 2000 && (self.words[number / 64] >> (number % 64)) & 1 == 1
    }

    /// Marks all numbers that are marked in `other`.
    pub fn add(&mut self, other: &Self)
        ensures { (n : ℕ) → is_marked self.new n ≡ (is_marked self.old n || is_marked other.now n) }
    {
        for place in 0..32 {
            self.words[place] |= other.words[place];
        }
    }

    /// Marks all numbers below `count`.
    pub fn mark_below(&mut self, count: usize)
        requires { count ≤ 2000 }
        ensures { (n : ℕ) → is_marked self.new n ≡ (is_marked self.old n || nat_lt n count) }
    {
        for place in 0..count / 64 {
            self.words[place] |= u64::MAX;
        }
        self.words[count / 64] |= (1 << (count % 64)) - 1;
    }

    /// Returns whether any number is marked in both. Looks at all words without an early exit, so
    /// that the loop has no branches.
    fn has_common(&self, other: &Self) -> bool
        ensures { result ≡ false
            → (n : ℕ)
            → (is_marked self.now n && is_marked other.now n) ≡ false }
    {
        let mut common = 0;
        for place in 0..32 {
            common |= self.words[place] & other.words[place];
        }
        common != 0
    }

    /// Counts the numbers that are marked in both, word by word.
    fn count_common(&self, other: &Self) -> u32
        ensures { result ≡ count_marked (λ n. is_marked self.now n && is_marked other.now n) }
    {
        let mut count = 0;
        for place in 0..32 {
            count += (self.words[place] & other.words[place]).count_ones();
        }
        count
    }

    /// Counts the numbers that are marked in both. Optimized for the usual case, in which there are
    /// none.
    #[tactic(auto, using(crate::proofs::MarkLemmas::count_none))]
    pub fn common_count(&self, other: &Self) -> u32
        ensures { result ≡ count_marked (λ n. is_marked self.now n && is_marked other.now n) }
    {
        if self.has_common(other) {
            self.count_common(other)
        } else {
            0
        }
    }

    /// Returns the least number below `count` that is marked in both.
    pub fn first_common_below(&self, other: &Self, count: usize) -> Option<usize>
        requires { count ≤ 2000 }
        ensures least { IsLeast
            (λ n. nat_lt n count && (is_marked self.now n && is_marked other.now n)) result }
        ensures within { IfSome result (λ n. n < count) }
    {
        for place in 0..(count + 63) / 64 {
            let common = self.words[place] & other.words[place];
            if common != 0 {
                let number = place * 64 + common.trailing_zeros() as usize;
                return (number < count).then_some(number);
            }
        }
        None
    }

    /// Returns the least marked number in `first..end`.
    pub fn next_between(&self, first: usize, end: usize) -> Option<usize>
        requires { end ≤ 2000 }
        ensures least { IsLeast (λ n. nat_lt n end && (nat_le first n && is_marked self.now n))
            result }
        ensures within { IfSome result (λ n. n < end) }
    {
        let words = &self.words;
        if first >= end {
            return None;
        }
        let here = words[first / 64] & (u64::MAX << (first % 64));
        if here != 0 {
            let number = first / 64 * 64 + here.trailing_zeros() as usize;
            return (number < end).then_some(number);
        }
        for place in first / 64 + 1..(end + 63) / 64 {
            let word = words[place];
            if word != 0 {
                let number = place * 64 + word.trailing_zeros() as usize;
                return (number < end).then_some(number);
            }
        }
        None
    }
}
