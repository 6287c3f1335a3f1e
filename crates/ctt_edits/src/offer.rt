//! Offers: what an edit costs, or why it is refused.

ghost use Rattle.std.specs.Prelude.{◌≡◌, ◌↔◌, ◌++◌, ◌∷◌, [], IfOk, OnOk, IsTrue};
ghost use Rattle.ctt_edits.specs.Fitting.{OfferFits};

use crate::fault::EditFault;
use crate::priced_edit::{PricedEdit, add};
use ctt_problem::{Instance, NoMemory};
use std::alloc::Global;
use std::marker::Model;

/// What an edit offers, or a slot: the best that one of the edits to it offers.
#[derive(Clone, Copy, PartialEq, Eq)]
pub enum Offer {
    /// The edit can be made at this price.
    Priced(PricedEdit),
    /// The edit is refused.
    Refused(EditFault),
    /// There is no edit.
    Nothing,
}

impl Offer {
    /// Returns whether its edit is of the instance with an absolute price of at most
    /// 9,223,372,036,854,775,807, or the course that its fault names is of the instance.
    pub fn fits(&self, instance: &Instance) -> bool
        ensures { IsTrue result ↔ OfferFits instance.now self.now }
    {
        match self {
            Offer::Priced(priced) => priced.fits(instance),
            Offer::Refused(fault) => fault.fits(instance),
            Offer::Nothing => true,
        }
    }
}

/// A list of offers; contracts see the list.
pub struct Offers {
    list: Vec<Offer>,
}

// Written by hand because a derived `Drop` is proved again in each dependent crate.
impl Drop for Offers {
    fn drop(self) {
        let Offers { list: _ } = self;
    }
}

impl Model for Offers {
    ghost use Rattle.std.specs.Prelude.{List};
    ghost use Rattle.ctt_edits.specs.declared.offer.Offer.{Offer};

    ghost Value = { List Offer };

    ghost view = { λ o. o.list.items };
}

impl Offers {
    /// Returns the offers of a list.
    pub fn new(list: Vec<Offer>) -> Self
        ensures { result ≡ list.items }
    {
        Offers { list }
    }

    /// Returns the empty list.
    pub fn none(alloc: Global) -> Self
        ensures { result ≡ [] }
    {
        Offers {
            list: Vec::new(alloc),
        }
    }

    /// Appends an offer.
    pub fn push(&mut self, offer: &Offer) -> Result<(), NoMemory>
        ensures { OnOk result (self.new ≡ self.old ++ offer.now ∷ []) }
    {
        add(&mut self.list, offer)
    }

    /// Returns the list.
    pub fn as_slice(&self) -> &[Offer]
        ensures { result.now ≡ self.now }
    {
        self.list.as_slice()
    }

    /// Returns the list itself. Takes no memory.
    pub fn into_vec(self) -> Vec<Offer>
        ensures { result.items ≡ self }
    {
        let Offers { list } = self;
        list
    }

    /// Returns an equal list.
    pub(crate) fn copy(&self) -> Result<Self, NoMemory>
        ensures { IfOk result (λ offers. offers ≡ self.now) }
    {
        let list = self.as_slice().to_vec(*self.list.allocator())?;
        Ok(Offers { list })
    }

    /// Returns whether the offers are equal.
    pub(crate) fn is_same(&self, other: &Offers) -> bool
        ensures { IsTrue result ↔ (self.now ≡ other.now) }
    {
        self.as_slice() == other.as_slice()
    }
}
