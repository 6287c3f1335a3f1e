//! Closed desks.

ghost use Rattle.std.specs.Prelude.{◌≡◌, IfOk, length};
ghost use Rattle.ctt_rules.specs.Hard.{Lawful};
ghost use Rattle.ctt_rules.specs.Penalty.{penalty};
ghost use Rattle.ctt_core.specs.Runs.{after, Legal};

use crate::naming::Naming;
use crate::observed_prefix::ObservedPrefix;
use ctt_board::Timetable;
use ctt_core::JournalEntry;
use ctt_problem::{NoMemory, Placed};
use ctt_rules::Cost;
use std::marker::Model;

/// What a closed desk leaves: its journal and its timetable. Contracts see the journal.
pub struct Closed<S: Timetable, J: Naming> {
    pub(crate) journal: Vec<JournalEntry>,
    pub(crate) sheet: S,
    /// The journal as a seen history.
    pub(crate) front: ObservedPrefix<J>,
}

// A derived `Drop` would be proved again in every dependent crate.
impl<S: Timetable, J: Naming> Drop for Closed<S, J> {
    fn drop(self) {
        let Closed {
            journal: _,
            sheet: _,
            front: _,
        } = self;
    }
}

impl<S: Timetable, J: Naming> Model for Closed<S, J> {
    ghost use Rattle.std.specs.Prelude.{◌≡◌, List};
    ghost use Rattle.ctt_core.specs.declared.journal.JournalEntry.{JournalEntry};
    ghost use Rattle.ctt_desk.specs.Histories.{Standing};

    ghost Value = { List JournalEntry };

    ghost view = { λ c. c.journal.items };

    ghost invariant = { λ c.
        Standing J.problem (S.problem c.sheet) J.opening (S.list c.sheet) c.journal.items
        × (c.front ≡ c.journal.items) };
}

impl<S: Timetable, J: Naming> Closed<S, J> {
    /// Returns the lectures of the final timetable, ordered by course and slot.
    pub fn list(&self) -> Result<Vec<Placed>, NoMemory>
        ensures list { IfOk result (λ list. list.items ≡ after J.problem J.opening self.now) }
        ensures lawful { Lawful J.problem (after J.problem J.opening self.now) }
    {
        self.sheet.list()
    }

    /// Returns the costs of the final timetable.
    pub fn cost(&self) -> Cost
        ensures { result ≡ penalty J.problem (after J.problem J.opening self.now) }
    {
        self.sheet.cost()
    }

    /// Returns how many drafts were accepted.
    pub fn accepted(&self) -> u64
        ensures accepted { result ≡ length self.now }
        ensures legal { Legal J.problem J.opening self.now }
    {
        self.journal.len() as u64
    }

    /// Returns the journal as a seen history.
    pub(crate) fn front(&self) -> &ObservedPrefix<J>
        ensures { result.now ≡ self.now }
    {
        &self.front
    }

    /// Returns the accepted drafts in commit order.
    pub fn journal(&self) -> &[JournalEntry]
        ensures journal { result.now ≡ self.now }
        ensures legal { Legal J.problem J.opening self.now }
    {
        self.journal.as_slice()
    }
}
