//! Parsing replies.

ghost use Rattle.ctt_text.specs.Forms.{list_of, one_more};
ghost use Rattle.ctt_script.specs.JournalWords.{parses, IsRead, GivesJournal};
ghost use Rattle.ctt_script.specs.Replies.{fault_after, fault_form, lecture, lectures, costs_form, shortfall_form, shortfalls, priced_form, priced_edits, reply_after, reply_form};

use crate::calls::read_edit;
use crate::journal_fault::JournalFault;
use crate::kinds::{FaultKind, ReplyKind};
use crate::offers::read_offers;
use crate::single_words::{
    read_amount, read_count, read_course, read_fault_kind, read_price, read_reply_kind, read_room,
    read_slot,
};
use ctt_edits::{EditFault, Lectures, PricedEdit, PricedEdits, Reply, Shortfall, Shortfalls};
use ctt_rules::Cost;
use ctt_text::{Instance, Placed, Reader};
use std::alloc::Global;

/// Parses what follows the keyword of a fault.
#[tactic(auto, using(crate::proofs::Steps::row), unfolding(crate::specs::Replies::fault_after))]
pub(crate) fn read_fault_after(
    reader: &mut Reader,
    instance: &Instance,
    kind: FaultKind,
) -> Result<EditFault, JournalFault>
    ensures { IsRead (λ fault. (fault, reader.new)) result
        (parses (fault_after instance.now kind) reader.old) }
{
    match kind {
        FaultKind::NotPlaced => Ok(EditFault::NotPlaced),
        FaultKind::SameSlot => Ok(EditFault::SameSlot),
        FaultKind::SameCourse => Ok(EditFault::SameCourse),
        FaultKind::AlreadyThere => Ok(EditFault::AlreadyThere),
        FaultKind::CourseFull => Ok(EditFault::CourseFull),
        FaultKind::Unavailable => Ok(EditFault::Unavailable),
        FaultKind::Barred => Ok(EditFault::Barred),
        FaultKind::Blocked => Ok(EditFault::Blocked),
        FaultKind::Clash => Ok(EditFault::Clash(read_course(reader, instance)?)),
        FaultKind::RoomTaken => Ok(EditFault::RoomTaken(read_course(reader, instance)?)),
    }
}

/// Parses a fault.
#[tactic(auto, using(crate::proofs::Steps::row), unfolding(crate::specs::Replies::fault_form))]
fn read_fault(reader: &mut Reader, instance: &Instance) -> Result<EditFault, JournalFault>
    ensures { IsRead (λ fault. (fault, reader.new)) result
        (parses (fault_form instance.now) reader.old) }
{
    let kind = read_fault_kind(reader)?;
    read_fault_after(reader, instance, kind)
}

/// Parses a lecture: a course, a room and a slot.
#[tactic(auto, using(crate::proofs::Steps::row), unfolding(crate::specs::Replies::lecture))]
fn read_lecture(reader: &mut Reader, instance: &Instance) -> Result<Placed, JournalFault>
    ensures { IsRead (λ lecture. (lecture, reader.new)) result
        (parses (lecture instance.now) reader.old) }
{
    let course = read_course(reader, instance)?;
    let room = read_room(reader, instance)?;
    let slot = read_slot(reader, instance)?;
    Ok(Placed { course, slot, room })
}

/// Parses a lecture, and adds it to the list.
#[tactic(auto, using(crate::proofs::Steps::read_one_more))]
fn read_one_lecture(
    reader: &mut Reader,
    instance: &Instance,
    lectures: &mut Vec<Placed>,
) -> Result<(), JournalFault>
    ensures { GivesJournal (λ _. (lectures.new.items, reader.new)) result
        (parses (one_more (lecture instance.now) lectures.old.items) reader.old) }
{
    let lecture = read_lecture(reader, instance)?;
    lectures.push(lecture)?;
    Ok(())
}

/// Parses `count` lectures.
fn read_so_many_lectures(
    alloc: Global,
    reader: &mut Reader,
    instance: &Instance,
    count: u32,
) -> Result<Vec<Placed>, JournalFault>
    ensures { GivesJournal (λ lectures. (lectures.items, reader.new)) result
        (parses (list_of (lecture instance.now) count) reader.old) }
{
    let mut lectures = Vec::with_capacity(alloc, (count as usize).min(16))?;
    for _ in 0..count {
        read_one_lecture(reader, instance, &mut lectures)?;
    }
    Ok(lectures)
}

/// Parses a count, and that many lectures.
#[tactic(auto, using(crate::proofs::Steps::read_bind), unfolding(crate::specs::Replies::lectures))]
fn read_lectures(
    alloc: Global,
    reader: &mut Reader,
    instance: &Instance,
) -> Result<Vec<Placed>, JournalFault>
    ensures { GivesJournal (λ lectures. (lectures.items, reader.new)) result
        (parses (lectures instance.now) reader.old) }
{
    let count = read_count(reader)?;
    read_so_many_lectures(alloc, reader, instance, count)
}

/// Parses the costs for capacity, days, compactness and stability, in this order.
#[tactic(auto, using(crate::proofs::Steps::row), unfolding(crate::specs::Replies::costs_form))]
fn read_costs(reader: &mut Reader) -> Result<Cost, JournalFault>
    ensures { IsRead (λ costs. (costs, reader.new)) result (parses costs_form reader.old) }
{
    let capacity = read_amount(reader)?;
    let days = read_amount(reader)?;
    let compactness = read_amount(reader)?;
    let stability = read_amount(reader)?;
    Ok(Cost {
        capacity,
        days,
        compactness,
        stability,
    })
}

/// Parses a course and the number of its missing lectures.
#[tactic(auto, using(crate::proofs::Steps::row), unfolding(crate::specs::Replies::shortfall_form))]
fn read_shortfall(reader: &mut Reader, instance: &Instance) -> Result<Shortfall, JournalFault>
    ensures { IsRead (λ short. (short, reader.new)) result
        (parses (shortfall_form instance.now) reader.old) }
{
    let course = read_course(reader, instance)?;
    let missing = read_count(reader)?;
    Ok(Shortfall { course, missing })
}

/// Parses a course with missing lectures, and adds it to the list.
#[tactic(auto, using(crate::proofs::Steps::read_one_more))]
fn read_one_shortfall(
    reader: &mut Reader,
    instance: &Instance,
    list: &mut Vec<Shortfall>,
) -> Result<(), JournalFault>
    ensures { GivesJournal (λ _. (list.new.items, reader.new)) result
        (parses (one_more (shortfall_form instance.now) list.old.items) reader.old) }
{
    let one = read_shortfall(reader, instance)?;
    list.push(one)?;
    Ok(())
}

/// Parses `count` courses with missing lectures.
fn read_so_many_shortfall(
    alloc: Global,
    reader: &mut Reader,
    instance: &Instance,
    count: u32,
) -> Result<Vec<Shortfall>, JournalFault>
    ensures { GivesJournal (λ list. (list.items, reader.new)) result
        (parses (list_of (shortfall_form instance.now) count) reader.old) }
{
    let mut list = Vec::with_capacity(alloc, (count as usize).min(16))?;
    for _ in 0..count {
        read_one_shortfall(reader, instance, &mut list)?;
    }
    Ok(list)
}

/// Parses a count, and that many courses with missing lectures.
#[tactic(auto, using(crate::proofs::Steps::row), unfolding(crate::specs::Replies::shortfalls))]
fn read_shortfalls(
    alloc: Global,
    reader: &mut Reader,
    instance: &Instance,
) -> Result<Vec<Shortfall>, JournalFault>
    ensures { GivesJournal (λ list. (list.items, reader.new)) result
        (parses (shortfalls instance.now) reader.old) }
{
    let count = read_count(reader)?;
    read_so_many_shortfall(alloc, reader, instance, count)
}

/// Parses a price and its edit, and adds them to the list.
#[tactic(auto, using(crate::proofs::Steps::read_one_priced))]
fn read_one_priced(
    reader: &mut Reader,
    instance: &Instance,
    list: &mut PricedEdits,
) -> Result<(), JournalFault>
    ensures { GivesJournal (λ _. (list.new, reader.new)) result
        (parses (one_more (priced_form instance.now) list.old) reader.old) }
{
    let price = read_price(reader)?;
    let edit = read_edit(reader, instance)?;
    list.push(&PricedEdit { edit, price })?;
    Ok(())
}

/// Parses `count` edits with their prices.
fn read_so_many_priced(
    alloc: Global,
    reader: &mut Reader,
    instance: &Instance,
    count: u32,
) -> Result<PricedEdits, JournalFault>
    ensures { GivesJournal (λ list. (list, reader.new)) result
        (parses (list_of (priced_form instance.now) count) reader.old) }
{
    let mut list = PricedEdits::none(alloc);
    for _ in 0..count {
        read_one_priced(reader, instance, &mut list)?;
    }
    Ok(list)
}

/// Parses a count, and that many edits with their prices.
#[tactic(auto, using(crate::proofs::Steps::row), unfolding(crate::specs::Replies::priced_edits))]
fn read_priced_edits(
    alloc: Global,
    reader: &mut Reader,
    instance: &Instance,
) -> Result<PricedEdits, JournalFault>
    ensures { GivesJournal (λ list. (list, reader.new)) result
        (parses (priced_edits instance.now) reader.old) }
{
    let count = read_count(reader)?;
    read_so_many_priced(alloc, reader, instance, count)
}

/// Parses what follows the keyword of a reply.
#[tactic(auto, using(crate::proofs::Steps::row), unfolding(crate::specs::Replies::reply_after))]
fn read_reply_after(
    alloc: Global,
    reader: &mut Reader,
    instance: &Instance,
    kind: ReplyKind,
) -> Result<Reply, JournalFault>
    ensures { GivesJournal (λ reply. (reply, reader.new)) result
        (parses (reply_after instance.now kind) reader.old) }
{
    match kind {
        ReplyKind::Done => Ok(Reply::Done),
        ReplyKind::Refused => Ok(Reply::Refused(read_fault(reader, instance)?)),
        ReplyKind::Lectures => Ok(Reply::Lectures(Lectures::new(read_lectures(
            alloc, reader, instance,
        )?))),
        ReplyKind::Costs => Ok(Reply::Costs(read_costs(reader)?)),
        ReplyKind::Price => Ok(Reply::Price(read_price(reader)?)),
        ReplyKind::Missing => Ok(Reply::Missing(Shortfalls::new(read_shortfalls(
            alloc, reader, instance,
        )?))),
        ReplyKind::Edits => Ok(Reply::Edits(read_priced_edits(alloc, reader, instance)?)),
        ReplyKind::Slots => Ok(Reply::Slots(read_offers(alloc, reader, instance)?)),
    }
}

/// Parses a reply.
#[tactic(auto, using(crate::proofs::Steps::row), unfolding(crate::specs::Replies::reply_form))]
pub(crate) fn read_reply(
    alloc: Global,
    reader: &mut Reader,
    instance: &Instance,
) -> Result<Reply, JournalFault>
    ensures { GivesJournal (λ reply. (reply, reader.new)) result
        (parses (reply_form instance.now) reader.old) }
{
    let kind = read_reply_kind(reader)?;
    read_reply_after(alloc, reader, instance, kind)
}
