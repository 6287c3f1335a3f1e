//! The changes of accepted commits.

ghost use Rattle.std.specs.Prelude.{◌≡◌, []};
ghost use Rattle.ctt_desk.specs.Published.{Leads};

use crate::naming::Naming;
use crate::observed_prefix::ObservedPrefix;
use ctt_board::Change;
use std::alloc::Global;
use std::marker::Model;

/// The changes that an accepted commit makes in a copy, and the histories before and after it.
#[derive(Drop)]
pub(crate) struct Update<J: Naming> {
    changes: Vec<Change>,
    before: ObservedPrefix<J>,
    front: ObservedPrefix<J>,
}

impl<J: Naming> Model for Update<J> {
    ghost use Rattle.ctt_desk.specs.Published.{UpdateValue, Leads};

    ghost Value = { UpdateValue };

    ghost view = { λ u. record { changes = u.changes.items; before = u.before; front = u.front } };

    ghost invariant = { λ u. Leads J.problem J.opening u.changes.items u.before u.front };
}

impl<J: Naming> Update<J> {
    /// Makes the update of a commit that extends the history `before` to `front`.
    pub(crate) fn new(
        changes: Vec<Change>,
        before: ObservedPrefix<J>,
        front: ObservedPrefix<J>,
    ) -> Self
        requires { Leads J.problem J.opening changes.items before front }
        ensures { result ≡ record { changes = changes.items; before = before; front = front } }
    {
        Update {
            changes,
            before,
            front,
        }
    }

    /// Makes the update that changes nothing and leaves the history as it is.
    pub(crate) fn none(alloc: Global, front: &ObservedPrefix<J>) -> Self
        ensures { result ≡ record { changes = []; before = front.now; front = front.now } }
    {
        Update {
            changes: Vec::new(alloc),
            before: front.again(),
            front: front.again(),
        }
    }

    /// Returns the changes in the order in which they are made.
    pub(crate) fn changes(&self) -> &[Change]
        ensures changes { result.now ≡ self.now.changes }
        ensures leads { Leads J.problem J.opening self.now.changes self.now.before self.now.front }
    {
        self.changes.as_slice()
    }

    /// Returns the history after the commit.
    pub(crate) fn front(&self) -> &ObservedPrefix<J>
        ensures { result.now ≡ self.now.front }
    {
        &self.front
    }
}
