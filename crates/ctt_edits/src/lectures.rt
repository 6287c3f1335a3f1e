//! The lectures in a reply.

ghost use Rattle.std.specs.Prelude.{◌≡◌, ◌↔◌, IfOk, IsTrue};

use ctt_problem::{NoMemory, Placed};
use std::marker::Model;

/// A list of lectures; contracts see the list.
pub struct Lectures {
    list: Vec<Placed>,
}

// Written by hand because a derived `Drop` is proved again in each dependent crate.
impl Drop for Lectures {
    fn drop(self) {
        let Lectures { list: _ } = self;
    }
}

impl Model for Lectures {
    ghost use Rattle.std.specs.Prelude.{List};
    ghost use Rattle.ctt_problem.specs.declared.placed.Placed.{Placed};

    ghost Value = { List Placed };

    ghost view = { λ l. l.list.items };
}

impl Lectures {
    /// Returns the lectures of a list.
    pub fn new(list: Vec<Placed>) -> Self
        ensures { result ≡ list.items }
    {
        Lectures { list }
    }

    /// Returns the list.
    pub fn as_slice(&self) -> &[Placed]
        ensures { result.now ≡ self.now }
    {
        self.list.as_slice()
    }

    /// Returns the list itself. Takes no memory.
    pub fn into_vec(self) -> Vec<Placed>
        ensures { result.items ≡ self }
    {
        let Lectures { list } = self;
        list
    }

    /// Returns equal lectures.
    pub(crate) fn copy(&self) -> Result<Self, NoMemory>
        ensures { IfOk result (λ lectures. lectures ≡ self.now) }
    {
        let list = self.list.as_slice().to_vec(*self.list.allocator())?;
        Ok(Lectures { list })
    }

    /// Returns whether the lectures are equal.
    pub(crate) fn is_same(&self, other: &Lectures) -> bool
        ensures { IsTrue result ↔ (self.now ≡ other.now) }
    {
        self.list.as_slice() == other.list.as_slice()
    }
}
