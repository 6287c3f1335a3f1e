//! Replies to edits and looks.

ghost use Rattle.std.specs.Prelude.{◌≡◌, ◌↔◌, IfOk, IsTrue};
ghost use Rattle.std.specs.List.{AllByRecursion as Each};
ghost use Rattle.ctt_problem.specs.Timetable.{Fits};
ghost use Rattle.ctt_edits.specs.Fitting.{CostFits, ShortfallFits, PricedFits, OfferFits, ReplyFits};

use crate::fault::EditFault;
use crate::lectures::Lectures;
use crate::offer::{Offer, Offers};
use crate::priced_edit::{PricedEdit, PricedEdits};
use crate::shortfall::{Shortfall, Shortfalls};
use ctt_problem::{Instance, NoMemory, Placed};
use ctt_rules::Cost;

/// The reply to an edit or a look.
#[derive(Drop)]
pub enum Reply {
    /// The edit was made.
    Done,
    /// The edit was not made, has no price, or is a pattern whose edits are all refused.
    Refused(EditFault),
    /// The lectures requested, by course and slot.
    Lectures(Lectures),
    /// The costs requested.
    Costs(Cost),
    /// What the edit would add to the penalty.
    Price(i64),
    /// The courses with missing lectures, ascending.
    Missing(Shortfalls),
    /// The edits requested, the cheapest first.
    Edits(PricedEdits),
    /// What each slot offers, in the order of the slots.
    Slots(Offers),
}

impl Reply {
    /// Returns an equal reply.
    pub fn copy(&self) -> Result<Reply, NoMemory>
        ensures { IfOk result (λ reply. reply ≡ self.now) }
    {
        match self {
            Reply::Done => Ok(Reply::Done),
            Reply::Refused(fault) => Ok(Reply::Refused(*fault)),
            Reply::Lectures(lectures) => Ok(Reply::Lectures(lectures.copy()?)),
            Reply::Costs(cost) => Ok(Reply::Costs(*cost)),
            Reply::Price(price) => Ok(Reply::Price(*price)),
            Reply::Missing(courses) => Ok(Reply::Missing(courses.copy()?)),
            Reply::Edits(edits) => Ok(Reply::Edits(edits.copy()?)),
            Reply::Slots(offers) => Ok(Reply::Slots(offers.copy()?)),
        }
    }

    /// Returns whether the replies are equal.
    pub fn is_same(&self, other: &Reply) -> bool
        ensures { IsTrue result ↔ (self.now ≡ other.now) }
    {
        match (self, other) {
            (Reply::Done, Reply::Done) => true,
            (Reply::Refused(fault), Reply::Refused(other_fault)) => fault == other_fault,
            (Reply::Lectures(lectures), Reply::Lectures(others)) => lectures.is_same(others),
            (Reply::Costs(cost), Reply::Costs(other_cost)) => cost == other_cost,
            (Reply::Price(price), Reply::Price(other_price)) => price == other_price,
            (Reply::Missing(courses), Reply::Missing(others)) => courses.is_same(others),
            (Reply::Edits(edits), Reply::Edits(others)) => edits.is_same(others),
            (Reply::Slots(offers), Reply::Slots(others)) => offers.is_same(others),
            _ => false,
        }
    }

    /// Returns whether its numbers are those of the instance, each cost and each absolute price is
    /// at most 9,223,372,036,854,775,807, and at most 999,999,999 lectures of a course are missing.
    pub fn fits(&self, instance: &Instance) -> bool
        ensures { IsTrue result ↔ ReplyFits instance.now self.now }
    {
        match self {
            Reply::Done => true,
            Reply::Refused(fault) => fault.fits(instance),
            Reply::Lectures(lectures) => all_fit(instance, lectures.as_slice()),
            Reply::Costs(cost) => cost_fits(cost),
            Reply::Price(price) => price.unsigned_abs() <= GREATEST,
            Reply::Missing(courses) => shortfalls_fit(instance, courses.as_slice()),
            Reply::Edits(edits) => priced_fit(instance, edits.as_slice()),
            Reply::Slots(offers) => offers_fit(instance, offers.as_slice()),
        }
    }
}

/// The maximum of a cost or an absolute price in a reply: 2^63 - 1.
pub(crate) const GREATEST: u64 = 9_223_372_036_854_775_807;

/// Returns whether all lectures are of the instance.
fn all_fit(instance: &Instance, lectures: &[Placed]) -> bool
    ensures { IsTrue result ↔ Each (Fits instance.now) lectures.now }
{
    lectures.iter().all(|lecture| lecture.fits(instance))
}

/// Returns whether all courses are of the instance, and at most 999,999,999 lectures of each are
/// missing.
fn shortfalls_fit(instance: &Instance, courses: &[Shortfall]) -> bool
    ensures { IsTrue result ↔ Each (ShortfallFits instance.now) courses.now }
{
    courses.iter().all(|short| short.fits(instance))
}

/// Returns whether all edits are of the instance, and no absolute price is above the maximum.
fn priced_fit(instance: &Instance, edits: &[PricedEdit]) -> bool
    ensures { IsTrue result ↔ Each (PricedFits instance.now) edits.now }
{
    edits.iter().all(|priced| priced.fits(instance))
}

/// Returns whether all edits and courses are of the instance, and no absolute price is above the
/// maximum.
fn offers_fit(instance: &Instance, offers: &[Offer]) -> bool
    ensures { IsTrue result ↔ Each (OfferFits instance.now) offers.now }
{
    offers.iter().all(|offer| offer.fits(instance))
}

/// Returns whether each of the four costs is at most the maximum.
fn cost_fits(cost: &Cost) -> bool
    ensures { IsTrue result ↔ CostFits cost.now }
{
    cost.capacity <= GREATEST
        && cost.days <= GREATEST
        && cost.compactness <= GREATEST
        && cost.stability <= GREATEST
}
