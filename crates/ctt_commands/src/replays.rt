//! Reading journals and minutes of an instance.

ghost use Rattle.std.specs.Prelude.{◌≡◌, IfOk, IfErr, IfSome, string_bytes};
ghost use Rattle.std.specs.List.{AllByRecursion as Each};
ghost use Rattle.ctt_problem.specs.Timetable.{Fits};
ghost use Rattle.ctt_core.specs.Entries.{EntryFits};
ghost use Rattle.ctt_script.specs.Entries.{IsWritable};
ghost use Rattle.ctt_files.specs.Refusals.{IsOfInstanceOr};
ghost use Rattle.ctt_files.specs.Texts.{IsInstanceIn, IsStart};
ghost use Rattle.ctt_commands.specs.Commands.{IsReplay, ReplayFits};
ghost use Rattle.ctt_commands.specs.Recoveries.{IsRecoveredAs};
ghost use Rattle.ctt_commands.specs.Refusals.{IsOfJournal, IsOfMinutes, IsOfReplay};
ghost use Rattle.ctt_commands.specs.Texts.{IsJournalText};

use crate::refused::refuse_journal;
use crate::task::Replay;
use ctt_core::JournalEntry;
use ctt_files::{Fault, Files, Sides, fetch_instance, fetch_start, read_file};
use ctt_log::{Blocks, read_blocks};
use ctt_problem::{Instance, Placed, drop_whole};
use ctt_script::read_journal;
use ctt_words::ReplayFiles;
use std::alloc::Global;

/// Parses the entries of the journal in a file.
fn fetch_entries<F: Files>(
    alloc: Global,
    files: &mut F,
    instance: &Instance,
    journal: String,
) -> Result<Vec<JournalEntry>, Fault>
    ensures spelled { IfOk result (λ entries.
        IfSome (F.held files.old (string_bytes journal)) (λ text.
        IsJournalText instance.now text entries.items)) }
    ensures fit { IfOk result (λ entries. Each (EntryFits instance.now) entries.items) }
    ensures kept { F.held files.new ≡ F.held files.old }
    ensures cause { IfErr result (IsOfJournal journal (F.held files.old) instance.now) }
{
    let file = journal.clone()?;
    let text = read_file(alloc, files, journal)?;
    match read_journal(alloc, instance, &text) {
        Ok(entries) => Ok(entries),
        Err(met) => Err(refuse_journal(alloc, &file, &text, met)),
    }
}

/// Reads a journal, and then the start.
fn fetch_behind<F: Files>(
    alloc: Global,
    files: &mut F,
    instance: &Instance,
    journal: String,
    start: Option<String>,
) -> Result<(Vec<JournalEntry>, Vec<Placed>), Fault>
    ensures journal { IfOk result (λ r.
        IfSome (F.held files.old (string_bytes journal)) (λ text.
        IsJournalText instance.now text r.0.items)) }
    ensures start { IfOk result (λ r. IsStart instance.now (F.held files.old) start r.1.items) }
    ensures entries_fit { IfOk result (λ r. Each (EntryFits instance.now) r.0.items) }
    ensures start_fits { IfOk result (λ r. Each (Fits instance.now) r.1.items) }
    ensures kept { F.held files.new ≡ F.held files.old }
    ensures cause { IfErr result (IsOfReplay journal start (F.held files.old) instance.now) }
{
    let entries = fetch_entries(alloc, files, instance, journal)?;
    match fetch_start(alloc, files, instance, start) {
        Ok(lectures) => Ok((entries, lectures)),
        Err(fault) => {
            drop_whole(entries);
            Err(fault)
        }
    }
}

/// Reads the instance, the journal and the start, in this order.
pub(crate) fn fetch_replay<F: Files>(
    alloc: Global,
    files: &mut F,
    names: ReplayFiles,
) -> Result<Replay, Fault>
    ensures replay { IfOk result (IsReplay (F.held files.old) names) }
    ensures fits { IfOk result ReplayFits }
    ensures kept { F.held files.new ≡ F.held files.old }
    ensures cause { IfErr result
        (IsOfInstanceOr (IsOfReplay names.journal names.start) (F.held files.old)
        names.instance names.sides) }
{
    let ReplayFiles {
        instance,
        sides,
        journal,
        start,
    } = names;
    let instance = fetch_instance(alloc, files, instance, sides)?;
    match fetch_behind(alloc, files, &instance, journal, start) {
        Ok((entries, start)) => Ok(Replay {
            instance,
            entries,
            start,
        }),
        Err(fault) => {
            drop_whole(instance);
            Err(fault)
        }
    }
}

/// Parses the whole entries of the minutes in a file.
fn fetch_blocks<F: Files>(
    alloc: Global,
    files: &mut F,
    instance: &Instance,
    minutes: String,
) -> Result<Blocks, Fault>
    ensures recovered { IfOk result (λ blocks.
        IfSome (F.held files.old (string_bytes minutes)) (λ text.
        IsRecoveredAs instance.now text blocks.entries.items blocks.torn)) }
    ensures fit { IfOk result (λ blocks. IsWritable instance.now blocks.entries.items) }
    ensures kept { F.held files.new ≡ F.held files.old }
    ensures cause { IfErr result (IsOfMinutes minutes (F.held files.old) instance.now) }
{
    let file = minutes.clone()?;
    let text = read_file(alloc, files, minutes)?;
    match read_blocks(alloc, instance, &text) {
        Ok(blocks) => Ok(blocks),
        Err(met) => Err(refuse_journal(alloc, &file, &text, met)),
    }
}

/// Reads the instance, and then its minutes.
pub(crate) fn fetch_minutes<F: Files>(
    alloc: Global,
    files: &mut F,
    instance: String,
    sides: Sides,
    minutes: String,
) -> Result<(Instance, Blocks), Fault>
    ensures instance { IfOk result (λ r. IsInstanceIn (F.held files.old) instance sides r.0) }
    ensures recovered { IfOk result (λ r.
        IfSome (F.held files.old (string_bytes minutes)) (λ text.
        IsRecoveredAs r.0 text r.1.entries.items r.1.torn)) }
    ensures fit { IfOk result (λ r. IsWritable r.0 r.1.entries.items) }
    ensures kept { F.held files.new ≡ F.held files.old }
    ensures cause { IfErr result
        (IsOfInstanceOr (IsOfMinutes minutes) (F.held files.old) instance sides) }
{
    let instance = fetch_instance(alloc, files, instance, sides)?;
    match fetch_blocks(alloc, files, &instance, minutes) {
        Ok(blocks) => Ok((instance, blocks)),
        Err(fault) => {
            drop_whole(instance);
            Err(fault)
        }
    }
}
