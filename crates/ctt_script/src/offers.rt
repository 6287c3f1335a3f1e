//! Parsing what slots offer.

ghost use Rattle.std.specs.Prelude.{◌≡◌, None, codes};
ghost use Rattle.ctt_text.specs.Forms.{list_of, one_more};
ghost use Rattle.ctt_script.specs.Amounts.{price_of};
ghost use Rattle.ctt_script.specs.Kinds.{fault_kind};
ghost use Rattle.ctt_script.specs.JournalWords.{word, mark_or, parses, IsRead, GivesJournal};
ghost use Rattle.ctt_script.specs.Replies.{offer_form, offers_form};

use crate::amounts::price;
use crate::calls::read_edit;
use crate::journal_fault::JournalFault;
use crate::kinds::{FaultKind, fault_kind, is_word};
use crate::replies::read_fault_after;
use crate::single_words::{read_count, read_word};
use ctt_edits::{Offer, Offers, PricedEdit};
use ctt_text::{Instance, Reader};
use std::alloc::Global;

/// Returns the kind of fault that a word names, or `Some(None)` for `none`.
fn fault_or_none(word: &str) -> Option<Option<FaultKind>>
    ensures { result ≡ mark_or (codes "none") fault_kind word.now }
{
    if is_word(word, "none") {
        Some(None)
    } else {
        Some(Some(fault_kind(word)?))
    }
}

/// Parses the keyword of a fault, or `none`.
#[tactic(auto, using(crate::proofs::Steps::read_word))]
fn read_fault_or_none(reader: &mut Reader) -> Result<Option<FaultKind>, JournalFault>
    ensures { IsRead (λ kind. (kind, reader.new)) result
        (parses (word (mark_or (codes "none") fault_kind) None) reader.old) }
{
    let at = reader.next();
    let word = read_word(reader)?;
    fault_or_none(word).ok_or(JournalFault::BadWord(at))
}

/// Returns the price that a word gives, or `Some(None)` for `-`.
fn price_or_dash(word: &str) -> Option<Option<i64>>
    ensures { result ≡ mark_or (codes "-") price_of word.now }
{
    if is_word(word, "-") {
        Some(None)
    } else {
        Some(Some(price(word.as_bytes())?))
    }
}

/// Parses a price, or `-`.
#[tactic(auto, using(crate::proofs::Steps::read_word))]
fn read_price_or_dash(reader: &mut Reader) -> Result<Option<i64>, JournalFault>
    ensures { IsRead (λ price. (price, reader.new)) result
        (parses (word (mark_or (codes "-") price_of) None) reader.old) }
{
    let at = reader.next();
    let word = read_word(reader)?;
    price_or_dash(word).ok_or(JournalFault::BadWord(at))
}

/// Parses what a slot offers, and adds it to the list: a price and its edit, or `-` and a fault or
/// `none`.
#[tactic(auto, using(crate::proofs::Steps::read_one_offer))]
fn read_one_offer(
    reader: &mut Reader,
    instance: &Instance,
    list: &mut Offers,
) -> Result<(), JournalFault>
    ensures { GivesJournal (λ _. (list.new, reader.new)) result
        (parses (one_more (offer_form instance.now) list.old) reader.old) }
{
    match read_price_or_dash(reader)? {
        Some(price) => {
            let edit = read_edit(reader, instance)?;
            list.push(&Offer::Priced(PricedEdit { edit, price }))?;
        }
        None => match read_fault_or_none(reader)? {
            Some(kind) => {
                let fault = read_fault_after(reader, instance, kind)?;
                list.push(&Offer::Refused(fault))?;
            }
            None => list.push(&Offer::Nothing)?,
        },
    }
    Ok(())
}

/// Parses what each of `count` slots offers.
fn read_so_many_offers(
    alloc: Global,
    reader: &mut Reader,
    instance: &Instance,
    count: u32,
) -> Result<Offers, JournalFault>
    ensures { GivesJournal (λ list. (list, reader.new)) result
        (parses (list_of (offer_form instance.now) count) reader.old) }
{
    let mut list = Offers::none(alloc);
    for _ in 0..count {
        read_one_offer(reader, instance, &mut list)?;
    }
    Ok(list)
}

/// Parses a count, and what each of that many slots offers.
#[tactic(auto, using(crate::proofs::Steps::read_bind), unfolding(crate::specs::Replies::offers_form))]
pub(crate) fn read_offers(
    alloc: Global,
    reader: &mut Reader,
    instance: &Instance,
) -> Result<Offers, JournalFault>
    ensures { GivesJournal (λ list. (list, reader.new)) result
        (parses (offers_form instance.now) reader.old) }
{
    let count = read_count(reader)?;
    read_so_many_offers(alloc, reader, instance, count)
}
