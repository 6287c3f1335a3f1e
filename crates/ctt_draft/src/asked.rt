//! Calls with their replies.

ghost use Rattle.std.specs.Prelude.{◌≡◌, ◌↔◌, IsTrue, IfOk};
ghost use Rattle.std.specs.List.{AllByRecursion as Each};
ghost use Rattle.ctt_draft.specs.Drafts.{AskedFits};
ghost use Rattle.ctt_draft.specs.Undoing.{done_edit};

use ctt_edits::{Call, Edit, Reply};
use ctt_problem::{Instance, NoMemory};
use std::alloc::Global;
use std::marker::Model;

/// A call with its reply.
pub struct Asked {
    /// The edit or look that was asked for.
    pub call: Call,
    /// The reply that the planner got.
    pub reply: Reply,
}

// A derived `Drop` is proved anew in each crate above.
impl Drop for Asked {
    fn drop(self) {
        let Asked { call: _, reply: _ } = self;
    }
}

impl Asked {
    /// Returns whether the numbers in the call and in the reply are valid for the instance, and
    /// each cost and the absolute value of each price is at most 9,223,372,036,854,775,807.
    pub fn fits(&self, instance: &Instance) -> bool
        ensures { IsTrue result ↔ AskedFits instance.now self.now }
    {
        self.call.fits(instance) && self.reply.fits(instance)
    }

    /// Returns the edit, if the call is one that was accepted.
    pub fn done_edit(&self) -> Option<Edit>
        ensures { result ≡ done_edit self.now }
    {
        match self.call {
            Call::Edit(edit) => match self.reply {
                Reply::Done => Some(edit),
                _ => None,
            },
            Call::Look(_) => None,
        }
    }
}

/// Calls with their replies, in order.
pub struct AskedCalls {
    list: Vec<Asked>,
}

// A derived `Drop` is proved anew in each crate above.
impl Drop for AskedCalls {
    fn drop(self) {
        let AskedCalls { list: _ } = self;
    }
}

impl Model for AskedCalls {
    ghost use Rattle.std.specs.Prelude.{List};
    ghost use Rattle.ctt_draft.specs.declared.asked.Asked.{Asked};

    ghost Value = { List Asked };

    ghost view = { λ a. a.list.items };
}

impl AskedCalls {
    /// Wraps a list of calls with their replies.
    pub fn new(list: Vec<Asked>) -> Self
        ensures { result ≡ list.items }
    {
        AskedCalls { list }
    }

    /// Copies a list of calls with their replies.
    pub fn copy_of(alloc: Global, asked: &[Asked]) -> Result<Self, NoMemory>
        ensures { IfOk result (λ copy. copy ≡ asked.now) }
    {
        let mut list = Vec::with_capacity(alloc, asked.len())?;
        for one in asked {
            let reply = one.reply.copy()?;
            list.push(Asked {
                call: one.call,
                reply,
            })?;
        }
        Ok(AskedCalls { list })
    }

    /// Returns the calls with their replies, in order.
    pub fn as_slice(&self) -> &[Asked]
        ensures { result.now ≡ self.now }
    {
        self.list.as_slice()
    }

    /// Returns the list itself. Takes no memory.
    pub fn into_vec(self) -> Vec<Asked>
        ensures { result.items ≡ self }
    {
        let AskedCalls { list } = self;
        list
    }

    /// Returns whether each call and each reply fits the instance.
    pub fn fits(&self, instance: &Instance) -> bool
        ensures { IsTrue result ↔ Each (AskedFits instance.now) self.now }
    {
        self.as_slice().iter().all(|asked| asked.fits(instance))
    }
}
