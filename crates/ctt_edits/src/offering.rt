//! What the slots offer to the edits of a pattern.

ghost use Rattle.std.specs.Prelude.{◌≡◌, ◌<◌, IfOk};
ghost use Rattle.ctt_problem.specs.Problem.{slot_count};
ghost use Rattle.ctt_edits.specs.Edits.{EditFits};
ghost use Rattle.ctt_edits.specs.Offers.{pattern_of, fault_rank, is_better, offer, slot_offer, offers};
ghost use Rattle.ctt_edits.specs.Patterns.{PatternFits};

use crate::edit::Edit;
use crate::fault::EditFault;
use crate::offer::{Offer, Offers};
use crate::priced_edit::PricedEdit;
use crate::pricing::price;
use crate::slot_pattern::SlotPattern;
use ctt_board::Sheet;
use ctt_problem::{NoMemory, SlotNo};
use std::alloc::Global;

/// Returns the place of a fault in the order in which faults are looked for.
fn rank(fault: &EditFault) -> u8
    ensures { result ≡ fault_rank fault.now }
{
    match fault {
        EditFault::NotPlaced => 0,
        EditFault::SameSlot => 1,
        EditFault::SameCourse => 2,
        EditFault::AlreadyThere => 3,
        EditFault::CourseFull => 4,
        EditFault::Unavailable => 5,
        EditFault::Barred => 6,
        EditFault::Blocked => 7,
        EditFault::Clash(_) => 8,
        EditFault::RoomTaken(_) => 9,
    }
}

/// Returns whether an offer is better than another one.
fn is_better(offer: &Offer, other: &Offer) -> bool
    ensures { result ≡ is_better offer.now other.now }
{
    match (offer, other) {
        (Offer::Priced(priced), Offer::Priced(other)) => priced.price < other.price,
        (Offer::Priced(_), _) => true,
        (Offer::Refused(fault), Offer::Refused(other)) => rank(other) < rank(fault),
        (Offer::Refused(_), Offer::Nothing) => true,
        _ => false,
    }
}

/// Returns what an edit offers.
fn offer<'i, S: Sheet<'i>>(sheet: &S, edit: &Edit) -> Offer
    requires { EditFits (S.problem sheet.now) edit.now }
    ensures { result ≡ offer (S.problem sheet.now) (S.list sheet.now) edit.now }
{
    match price(sheet, edit) {
        Ok(price) => Offer::Priced(PricedEdit { edit: *edit, price }),
        Err(fault) => Offer::Refused(fault),
    }
}

/// Returns the best offer of the edits of a pattern to a slot, of equally good ones the first.
fn slot_offer<'i, S: Sheet<'i>>(sheet: &S, pattern: &SlotPattern, slot: SlotNo) -> Offer
    requires pattern { PatternFits (S.problem sheet.now) (pattern_of pattern.now) }
    requires slot { slot < slot_count (S.problem sheet.now) }
    ensures { result ≡ slot_offer (S.problem sheet.now) (S.list sheet.now) pattern.now slot }
{
    let others = pattern.other_choices(sheet.instance());
    let mut best = Offer::Nothing;
    for other in others.start..others.end {
        let offer = offer(sheet, &pattern.edit(slot, other));
        if is_better(&offer, &best) {
            best = offer;
        }
    }
    best
}

/// Returns the best offer of each slot, in the order of the slots.
pub(crate) fn offers<'i, S: Sheet<'i>>(
    alloc: Global,
    sheet: &S,
    pattern: &SlotPattern,
) -> Result<Offers, NoMemory>
    requires { PatternFits (S.problem sheet.now) (pattern_of pattern.now) }
    ensures { IfOk result (λ list.
        list ≡ offers (S.problem sheet.now) (S.list sheet.now) pattern.now) }
{
    let mut list = Offers::none(alloc);
    for slot in 0..sheet.instance().slots() {
        list.push(&slot_offer(sheet, pattern, SlotNo::new(slot)))?;
    }
    Ok(list)
}
