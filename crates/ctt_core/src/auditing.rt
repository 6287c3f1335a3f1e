//! Auditing a journal: its drafts are rerun one after another, and their replies compared.

ghost use Rattle.std.specs.Prelude.{◌≡◌, IfErr, IfOk, OnOk, OnErr, Ok, List};
ghost use Rattle.std.specs.List.{AllByRecursion as Each};
ghost use Rattle.ctt_problem.specs.Timetable.{Fits};
ghost use Rattle.ctt_problem.specs.declared.placed.Placed.{Placed};
ghost use Rattle.ctt_edits.specs.Calls.{CallFits, reply};
ghost use Rattle.ctt_edits.specs.Edits.{EditFits};
ghost use Rattle.ctt_edits.specs.Openings.{opening};
ghost use Rattle.ctt_edits.specs.declared.call.Call.TheVariants.{Edit as Edits};
ghost use Rattle.ctt_draft.specs.Drafts.{AskedFits, after_call};
ghost use Rattle.ctt_core.specs.Audits.{Finds, IsNoList, IsVerdict, LeavesList, Replayed};
ghost use Rattle.ctt_core.specs.Entries.{EntryFits};
ghost use Rattle.ctt_core.specs.Runs.{after, Legal};
ghost use Rattle.ctt_core.specs.declared.auditing.NoList.TheVariants.{NoMemory as OutOfMemory};
ghost use Rattle.ctt_core.specs.declared.auditing.Verdict.TheVariants.{Agrees};

use crate::desk_fault::DeskFault;
use crate::journal::JournalEntry;
use crate::opening::place_all;
use ctt_board::{Rooms, Sheet, Timetable};
use ctt_draft::Asked;
use ctt_edits::{Call, Edit, EditFault, Reply, check};
use ctt_problem::{Instance, NoMemory, Placed};
use std::alloc::Global;

/// The verdict of an audit.
#[derive(Clone, Copy, PartialEq, Eq)]
pub enum Verdict {
    /// Each reply is the one that its call gets at its place in the journal.
    Agrees,
    /// The first lecture of the opening that cannot be placed, counted from 1, and the reason.
    BadOpening(u64, EditFault),
    /// The first reply that differs: its entry, and its call within the entry, both counted from 1.
    Differs(u64, u64),
}

/// Why a journal leaves no timetable.
#[derive(Clone, Copy, PartialEq, Eq)]
pub enum NoList {
    /// The verdict of an audit, which is not `Agrees`.
    Found(Verdict),
    /// Memory ran out.
    NoMemory,
}

impl From<NoMemory> for NoList {
    ghost from_gives = { λ _ none. none ≡ OutOfMemory };

    fn from(_error: NoMemory) -> NoList {
        NoList::NoMemory
    }
}

/// Makes an edit, if it has no fault, and returns the reply that a planner would get.
fn make<'i, S: Sheet<'i>>(sheet: &mut S, edit: &Edit) -> Reply
    requires { EditFits (S.problem sheet.old) edit.now }
    ensures told { result ≡ reply (S.problem sheet.old) (S.list sheet.old) (Edits edit.now) }
    ensures problem { S.problem sheet.new ≡ S.problem sheet.old }
    ensures list { S.list sheet.new
        ≡ after_call (S.problem sheet.old) (S.list sheet.old) (Edits edit.now) }
{
    let checked = check(sheet, edit);
    match checked {
        Ok(change) => {
            sheet.apply(&change);
            Reply::Done
        }
        Err(fault) => Reply::Refused(fault),
    }
}

/// Makes a call and returns the reply that a planner would get.
fn answer<'i, S: Sheet<'i>>(alloc: Global, sheet: &mut S, call: &Call) -> Result<Reply, NoMemory>
    requires { CallFits (S.problem sheet.old) call.now }
    ensures told { IfOk result (λ told.
        told ≡ reply (S.problem sheet.old) (S.list sheet.old) call.now) }
    ensures problem { S.problem sheet.new ≡ S.problem sheet.old }
    ensures list { OnOk result (S.list sheet.new
        ≡ after_call (S.problem sheet.old) (S.list sheet.old) call.now) }
    ensures kept { OnErr result (S.list sheet.new ≡ S.list sheet.old) }
{
    match call {
        Call::Look(look) => ctt_edits::look(alloc, sheet, look),
        Call::Edit(edit) => Ok(make(sheet, edit)),
    }
}

/// Makes calls on a sheet until a reply differs from the recorded one, and returns the number of
/// that call, counted from 1.
fn run_calls<'i, S: Sheet<'i>>(
    alloc: Global,
    sheet: &mut S,
    asked: &[Asked],
) -> Result<Option<u64>, NoMemory>
    requires { Each (AskedFits (S.problem sheet.old)) asked.now }
    ensures problem { S.problem sheet.new ≡ S.problem sheet.old }
    ensures found { IfOk result (Replayed (S.problem sheet.old) (S.list sheet.old)
        (S.list sheet.new) asked.now) }
{
    for (at, one) in asked.iter().enumerate() {
        let told = answer(alloc, sheet, &one.call)?;
        if !told.is_same(&one.reply) {
            return Ok(Some(at as u64 + 1));
        }
    }
    Ok(None)
}

/// Runs entries on a sheet, one after another, until a reply differs from the recorded one.
fn run_entries<'i, S: Sheet<'i>>(
    alloc: Global,
    sheet: &mut S,
    entries: &[JournalEntry],
) -> Result<Verdict, NoMemory>
    requires { Each (EntryFits (S.problem sheet.old)) entries.now }
    ensures problem { S.problem sheet.new ≡ S.problem sheet.old }
    ensures found { IfOk result (Finds (S.problem sheet.old) (S.list sheet.old) entries.now) }
    ensures left { IfOk result (λ verdict.
        verdict ≡ Agrees
        → S.list sheet.new ≡ after (S.problem sheet.old) (S.list sheet.old) entries.now) }
{
    for (at, entry) in entries.iter().enumerate() {
        if let Some(call) = run_calls(alloc, sheet, entry.asked.as_slice())? {
            return Ok(Verdict::Differs(at as u64 + 1, call));
        }
    }
    Ok(Verdict::Agrees)
}

/// Audits a journal on a sheet of this kind.
fn found_on<'i, S: Sheet<'i>>(
    alloc: Global,
    instance: &'i Instance,
    lectures: &[Placed],
    entries: &[JournalEntry],
) -> Result<Verdict, NoMemory>
    requires lectures { Each (Fits instance.now) lectures.now }
    requires entries { Each (EntryFits instance.now) entries.now }
    ensures { IfOk result (IsVerdict instance.now lectures.now entries.now) }
{
    match place_all::<S>(alloc, instance, lectures) {
        Ok(mut sheet) => run_entries(alloc, &mut sheet, entries),
        Err(DeskFault::Unlawful(at, fault)) => Ok(Verdict::BadOpening(at, fault)),
        Err(DeskFault::NoMemory) => Err(NoMemory),
    }
}

/// Audits a journal: reruns its drafts one after another on the opening with these lectures, which
/// are placed in the given order, and compares each reply with the recorded one.
///
/// The caller chooses the kind of sheet, as in `audit::<GridSheet>`.
pub fn audit<'i, S: Sheet<'i>>(
    alloc: Global,
    instance: &'i Instance,
    lectures: &[Placed],
    entries: &[JournalEntry],
) -> Result<Verdict, NoMemory>
    requires lectures { Each (Fits instance.now) lectures.now }
    requires entries { Each (EntryFits instance.now) entries.now }
    ensures found { IfOk result (IsVerdict instance.now lectures.now entries.now) }
    ensures agrees { IfOk result (λ verdict.
        (t : List Placed) → opening instance.now lectures.now ≡ Ok t
        → Legal instance.now t entries.now → verdict ≡ Agrees) }
{
    found_on::<S>(alloc, instance, lectures, entries)
}

/// Returns the timetable that a journal leaves on the opening with these lectures, if its audit
/// agrees; otherwise returns the verdict of that audit.
pub fn list_after<'i, S: Sheet<'i>>(
    alloc: Global,
    instance: &'i Instance,
    lectures: &[Placed],
    entries: &[JournalEntry],
) -> Result<Vec<Placed>, NoList>
    requires lectures { Each (Fits instance.now) lectures.now }
    requires entries { Each (EntryFits instance.now) entries.now }
    ensures list { IfOk result (λ list.
        LeavesList instance.now lectures.now entries.now list.items) }
    ensures none { IfErr result (IsNoList instance.now lectures.now entries.now) }
{
    match place_all::<S>(alloc, instance, lectures) {
        Ok(mut sheet) => {
            let found = run_entries(alloc, &mut sheet, entries)?;
            sheet.lawful();
            match found {
                Verdict::Agrees => Ok(sheet.list()?),
                found => Err(NoList::Found(found)),
            }
        }
        Err(DeskFault::Unlawful(at, fault)) => {
            Err(NoList::Found(Verdict::BadOpening(at, fault)))
        }
        Err(DeskFault::NoMemory) => Err(NoList::NoMemory),
    }
}
