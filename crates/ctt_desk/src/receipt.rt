//! Receipts of commits.

ghost use Rattle.std.specs.Prelude.{◌≡◌, ◌≤◌, ◌↔◌, IsTrue, length};
ghost use mathlib.Core.List.{IsPrefix};
ghost use Rattle.ctt_core.specs.Runs.{Legal};

use crate::naming::Naming;
use crate::observed_prefix::ObservedPrefix;
use std::marker::Model;

/// Evidence that a draft was accepted. Contracts see the history that ends with that draft.
#[derive(Drop)]
pub struct Receipt<J: Naming> {
    pub(crate) front: ObservedPrefix<J>,
}

impl<J: Naming> Model for Receipt<J> {
    ghost use Rattle.std.specs.Prelude.{List};
    ghost use Rattle.ctt_core.specs.Runs.{Legal};
    ghost use Rattle.ctt_core.specs.declared.journal.JournalEntry.{JournalEntry};

    ghost Value = { List JournalEntry };

    ghost view = { λ r. r.front };

    ghost invariant = { λ r. Legal J.problem J.opening r.front };
}

impl<J: Naming> Receipt<J> {
    /// Returns the position of the draft in the journal, counted from 1.
    pub fn number(&self) -> u64
        ensures number { result ≡ length self.now }
        ensures legal { Legal J.problem J.opening self.now }
    {
        self.front.len()
    }

    /// Returns a copy.
    pub fn again(&self) -> Self
        ensures { result ≡ self.now }
    {
        Receipt {
            front: self.front.again(),
        }
    }

    /// Returns whether the other receipt's history begins with this one's: it does if it is at
    /// least as long.
    pub fn begins(&self, other: &Self) -> bool
        ensures begins { IsTrue result → IsPrefix self.now other.now }
        ensures shorter { IsTrue result ↔ (length self.now ≤ length other.now) }
    {
        self.front.begins(&other.front)
    }
}
