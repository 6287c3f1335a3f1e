//! Edits with their prices.

ghost use Rattle.std.specs.Prelude.{◌≡◌, ◌↔◌, ◌++◌, ◌∷◌, [], IfOk, OnOk, IsTrue};
ghost use Rattle.ctt_edits.specs.Fitting.{PricedFits};

use crate::edit::Edit;
use crate::reply::GREATEST;
use ctt_problem::{Instance, NoMemory};
use std::alloc::Global;
use std::marker::Model;

/// An edit with what it would add to the penalty.
#[derive(Clone, Copy, PartialEq, Eq)]
pub struct PricedEdit {
    /// The edit.
    pub edit: Edit,
    /// The penalty after it minus the penalty before it.
    pub price: i64,
}

impl PricedEdit {
    /// Returns whether its edit is of the instance, and its absolute price is at most
    /// 9,223,372,036,854,775,807.
    pub fn fits(&self, instance: &Instance) -> bool
        ensures { IsTrue result ↔ PricedFits instance.now self.now }
    {
        self.edit.fits(instance) && self.price.unsigned_abs() <= GREATEST
    }
}

/// Appends an element to a list.
pub(crate) fn add<T: Copy>(list: &mut Vec<T>, one: &T) -> Result<(), NoMemory>
    ensures { OnOk result (list.new.items ≡ list.old.items ++ one.now ∷ []) }
{
    list.push(*one)?;
    Ok(())
}

/// A list of edits with their prices; contracts see the list.
pub struct PricedEdits {
    list: Vec<PricedEdit>,
}

// Written by hand because a derived `Drop` is proved again in each dependent crate.
impl Drop for PricedEdits {
    fn drop(self) {
        let PricedEdits { list: _ } = self;
    }
}

impl Model for PricedEdits {
    ghost use Rattle.std.specs.Prelude.{List};
    ghost use Rattle.ctt_edits.specs.declared.priced_edit.PricedEdit.{PricedEdit};

    ghost Value = { List PricedEdit };

    ghost view = { λ p. p.list.items };
}

impl PricedEdits {
    /// Returns the edits of a list.
    pub fn new(list: Vec<PricedEdit>) -> Self
        ensures { result ≡ list.items }
    {
        PricedEdits { list }
    }

    /// Returns the empty list.
    pub fn none(alloc: Global) -> Self
        ensures { result ≡ [] }
    {
        PricedEdits {
            list: Vec::new(alloc),
        }
    }

    /// Appends an edit with its price.
    pub fn push(&mut self, priced: &PricedEdit) -> Result<(), NoMemory>
        ensures { OnOk result (self.new ≡ self.old ++ priced.now ∷ []) }
    {
        add(&mut self.list, priced)
    }

    /// Returns the list.
    pub fn as_slice(&self) -> &[PricedEdit]
        ensures { result.now ≡ self.now }
    {
        self.list.as_slice()
    }

    /// Returns the list itself. Takes no memory.
    pub fn into_vec(self) -> Vec<PricedEdit>
        ensures { result.items ≡ self }
    {
        let PricedEdits { list } = self;
        list
    }

    /// Returns an equal list.
    pub(crate) fn copy(&self) -> Result<Self, NoMemory>
        ensures { IfOk result (λ edits. edits ≡ self.now) }
    {
        let list = self.list.as_slice().to_vec(*self.list.allocator())?;
        Ok(PricedEdits { list })
    }

    /// Returns whether the edits and their prices are equal.
    pub(crate) fn is_same(&self, other: &PricedEdits) -> bool
        ensures { IsTrue result ↔ (self.now ≡ other.now) }
    {
        self.list.as_slice() == other.list.as_slice()
    }
}
