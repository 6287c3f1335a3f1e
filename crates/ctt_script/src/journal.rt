//! Parsing journals.

ghost use Rattle.std.specs.Prelude.{◌≡◌, ◌⊎◌, ℕ, List, IfOk, IfErr, OnOk, MatchResult, Ok, Err};
ghost use Rattle.std.specs.List.{AllByRecursion as Each};
ghost use Rattle.std.specs.Str.{IsUtf8};
ghost use Rattle.std.specs.Str.Lossy.{utf8_valid_len};
ghost use Rattle.ctt_text.specs.Words.{words};
ghost use Rattle.ctt_text.specs.Reading.{Gives};
ghost use Rattle.ctt_core.specs.declared.journal.JournalEntry.{JournalEntry};
ghost use Rattle.ctt_edits.specs.Fitting.{AreFew};
ghost use Rattle.ctt_core.specs.Entries.{EntryFits};
ghost use Rattle.ctt_script.specs.Entries.{IsShort};
ghost use Rattle.ctt_text.specs.Forms.{list_of, one_more};
ghost use Rattle.ctt_script.specs.JournalWords.{parses, GivesJournal, journal_wants_memory};
ghost use Rattle.ctt_script.specs.Journals.{asked_form, entry_form, journal_form};
ghost use Rattle.ctt_script.specs.JournalText.{journal_answer, JournalSpells, JournalBreaksAt, IsJournalCauseOf};
ghost use Rattle.ctt_script.specs.declared.journal_fault.JournalFault.{JournalFault};
ghost use Rattle.ctt_script.specs.declared.journal_fault.JournalFault.TheVariants.{NotText, NoMemory};

use crate::calls::read_call;
use crate::journal_fault::JournalFault;
use crate::replies::read_reply;
use crate::single_words::{read_count, read_label, read_number_below};
use ctt_core::{JournalEntry, PlannerNo};
use ctt_draft::{Asked, AskedCalls};
use ctt_text::{Instance, Reader};
use std::alloc::Global;

/// Parses a call and its reply.
#[tactic(auto, using(crate::proofs::Steps::row), unfolding(crate::specs::Journals::asked_form))]
fn read_asked(
    alloc: Global,
    reader: &mut Reader,
    instance: &Instance,
) -> Result<Asked, JournalFault>
    ensures { GivesJournal (λ asked. (asked, reader.new)) result
        (parses (asked_form instance.now) reader.old) }
{
    let call = read_call(reader, instance)?;
    let reply = read_reply(alloc, reader, instance)?;
    Ok(Asked { call, reply })
}

/// Parses a call and its reply, and adds them to the list.
#[tactic(auto, using(crate::proofs::Steps::read_one_more))]
fn read_one_asked(
    alloc: Global,
    reader: &mut Reader,
    instance: &Instance,
    asked: &mut Vec<Asked>,
) -> Result<(), JournalFault>
    ensures { GivesJournal (λ _. (asked.new.items, reader.new)) result
        (parses (one_more (asked_form instance.now) asked.old.items) reader.old) }
{
    let one = read_asked(alloc, reader, instance)?;
    asked.push(one)?;
    Ok(())
}

/// Parses `count` calls with their replies.
fn read_so_many_asked(
    alloc: Global,
    reader: &mut Reader,
    instance: &Instance,
    count: u32,
) -> Result<Vec<Asked>, JournalFault>
    ensures { GivesJournal (λ asked. (asked.items, reader.new)) result
        (parses (list_of (asked_form instance.now) count) reader.old) }
{
    let mut asked = Vec::with_capacity(alloc, (count as usize).min(16))?;
    for _ in 0..count {
        read_one_asked(alloc, reader, instance, &mut asked)?;
    }
    Ok(asked)
}

/// Parses an entry.
///
/// A fault other than [`JournalFault::NoMemory`] names the first word that the grammar does not
/// allow after the earlier ones, or that is missing.
#[tactic(auto, using(crate::proofs::Steps::row), unfolding(crate::specs::Journals::entry_form))]
pub fn read_entry(
    alloc: Global,
    reader: &mut Reader,
    instance: &Instance,
) -> Result<JournalEntry, JournalFault>
    ensures { GivesJournal (λ entry. (entry, reader.new)) result
        (parses (entry_form instance.now) reader.old) }
{
    read_label(reader, "entry")?;
    let planner = read_number_below(reader, 1000)?;
    let count = read_count(reader)?;
    let asked = read_so_many_asked(alloc, reader, instance, count)?;
    Ok(JournalEntry {
        planner: PlannerNo::new(planner),
        asked: AskedCalls::new(asked),
    })
}

/// Parses an entry, and adds it to the list.
#[tactic(auto, using(crate::proofs::Steps::read_one_more))]
fn read_one_entry(
    alloc: Global,
    reader: &mut Reader,
    instance: &Instance,
    entries: &mut Vec<JournalEntry>,
) -> Result<(), JournalFault>
    ensures { GivesJournal (λ _. (entries.new.items, reader.new)) result
        (parses (one_more (entry_form instance.now) entries.old.items) reader.old) }
{
    let entry = read_entry(alloc, reader, instance)?;
    entries.push(entry)?;
    Ok(())
}

/// Parses `count` entries.
fn read_so_many_entries(
    alloc: Global,
    reader: &mut Reader,
    instance: &Instance,
    count: u32,
) -> Result<Vec<JournalEntry>, JournalFault>
    ensures { GivesJournal (λ entries. (entries.items, reader.new)) result
        (parses (list_of (entry_form instance.now) count) reader.old) }
{
    let mut entries = Vec::new(alloc);
    for _ in 0..count {
        read_one_entry(alloc, reader, instance, &mut entries)?;
    }
    Ok(entries)
}

/// Parses a journal, from `journal` to `END.`.
#[tactic(auto, using(crate::proofs::Steps::row), unfolding(crate::specs::Journals::journal_form))]
fn read_entries(
    alloc: Global,
    reader: &mut Reader,
    instance: &Instance,
) -> Result<Vec<JournalEntry>, JournalFault>
    ensures { GivesJournal (λ entries. (entries.items, reader.new)) result
        (parses (journal_form instance.now) reader.old) }
{
    read_label(reader, "journal")?;
    let count = read_count(reader)?;
    let entries = read_so_many_entries(alloc, reader, instance, count)?;
    read_label(reader, "END.")?;
    Ok(entries)
}

/// Parses a journal from a text, and ignores what follows its `END.`.
fn read_text(
    alloc: Global,
    instance: &Instance,
    text: &str,
) -> Result<Vec<JournalEntry>, JournalFault>
    ensures { Gives journal_wants_memory (λ list.
        list.items) result (journal_answer instance.now (words text.now)) }
{
    let mut reader = Reader::new(text);
    read_entries(alloc, &mut reader, instance)
}

/// Parses a journal from the bytes of its file, and ignores what follows its `END.`.
///
/// A text that is not UTF-8 is refused with [`JournalFault::NotText`], whatever its words. Any
/// other fault except [`JournalFault::NoMemory`] names the first word that the grammar does not
/// allow after the earlier ones, or that is missing.
pub fn read_journal(
    alloc: Global,
    instance: &Instance,
    text: &[u8],
) -> Result<Vec<JournalEntry>, JournalFault>
    ensures text { OnOk result (IsUtf8 text.now) }
    ensures spelled { IfOk result (λ list. JournalSpells instance.now (words text.now) list.items) }
    ensures fits { IfOk result (λ list. Each (EntryFits instance.now) list.items) }
    ensures few { IfOk result (λ list. AreFew list.items) }
    ensures short { IfOk result (λ list. Each IsShort list.items) }
    ensures accepted { (entries : List JournalEntry) → IsUtf8 text.now
        → JournalSpells instance.now (words text.now) entries
        → MatchResult result (λ list. list.items ≡ entries) (λ fault. fault ≡ NoMemory) }
    ensures fault { IfErr result (IsJournalCauseOf instance.now text.now) }
    ensures not_text { ¬ IsUtf8 text.now → result ≡ Err (NotText (utf8_valid_len text.now)) }
    ensures broken { (k : ℕ) (fault : JournalFault) → IsUtf8 text.now
        → JournalBreaksAt instance.now (words text.now) k fault → (result ≡ Err fault)
        ⊎ (result ≡ Err NoMemory) }
{
    instance.limits_hold();
    match str::from_utf8(text) {
        Ok(text) => read_text(alloc, instance, text),
        Err(error) => Err(JournalFault::NotText(error.valid_up_to() as u64)),
    }
}
