//! The command `run`.

ghost use Rattle.std.specs.Prelude.{◌≡◌, ◌⊎◌, List, true, false, IsTrue, Ok, OnErr, OnOk, IfOk, IfErr, IfSome};
ghost use Rattle.std.specs.Io.KnownBytes.{Appends};
ghost use Rattle.std.specs.List.{AllByRecursion as Each};
ghost use Rattle.ctt_problem.specs.Timetable.{Fits};
ghost use Rattle.ctt_problem.specs.declared.placed.Placed.{Placed};
ghost use Rattle.ctt_edits.specs.Openings.{opening};
ghost use Rattle.ctt_script.specs.Entries.{IsWritable};
ghost use Rattle.ctt_script.specs.WrittenText.{journal_text};
ghost use Rattle.ctt_files.specs.Faults.{IfUnwritten, MayHaveWritten};
ghost use Rattle.ctt_files.specs.Output.{AppendsFront};
ghost use Rattle.ctt_files.specs.Storing.{IsGiven, KeepOthers, Stores};
ghost use Rattle.ctt_files.specs.declared.fault.Fault.TheVariants.{Machine};
ghost use Rattle.ctt_files.specs.declared.fault.MachineFault.TheVariants.{CannotWrite};
ghost use Rattle.ctt_files.specs.declared.outcome.Outcome.TheVariants.{Done};
ghost use Rattle.ctt_commands.specs.Faults.{IsRunFault, KeptUnless, RunFaultFits};
ghost use Rattle.ctt_commands.specs.Refusals.{IsAnswerFault, IsOfRun};
ghost use Rattle.ctt_commands.specs.Runs.{Answered, AnswersScript, PrintsFront, RunsScript};

use crate::refused::refused_opening;
use ctt_core::JournalEntry;
use ctt_files::{
    Fault, Files, MachineFault, Outcome, Sides, Sink, Source, fetch_instance, fetch_start,
};
use ctt_problem::{Instance, NoMemory, Placed, drop_whole};
use ctt_script::{ScriptFault, run_script, write_journal};
use std::alloc::Global;

/// Converts the fault of a run of the script in this file.
fn fault_of_run(alloc: Global, instance: &Instance, fault: ScriptFault, script: String) -> Fault
    requires { RunFaultFits instance.now fault }
    ensures { IsRunFault instance.now script fault result }
{
    match fault {
        ScriptFault::Unlawful(at, fault) => refused_opening(alloc, instance, at, &fault),
        ScriptFault::Read => Fault::Machine(MachineFault::CannotRead(script)),
        ScriptFault::TooLong => Fault::Machine(MachineFault::TooLong(script)),
        ScriptFault::Write => Fault::Machine(MachineFault::CannotWrite),
        ScriptFault::NoMemory => Fault::Machine(MachineFault::NoMemory),
    }
}

/// Returns the journal of these entries if it is wanted, and else an empty text.
fn journal_if(
    alloc: Global,
    wanted: bool,
    instance: &Instance,
    entries: &[JournalEntry],
) -> Result<Vec<u8>, NoMemory>
    requires { IsWritable instance.now entries.now }
    ensures { IfOk result (λ text.
        IsTrue wanted → text.items ≡ journal_text instance.now entries.now) }
{
    if wanted {
        write_journal(alloc, instance, entries)
    } else {
        Ok(Vec::new(alloc))
    }
}

/// Runs a script on a desk that opens with these lectures, and prints the answers. Returns the
/// journal of the accepted drafts if it is wanted, and else an empty text. `name` is the script's
/// file, for faults.
fn answer<R: Source, W: Sink>(
    alloc: Global,
    instance: &Instance,
    lectures: &[Placed],
    script: &mut R,
    name: String,
    out: &mut W,
    wanted: bool,
) -> Result<Vec<u8>, Fault>
    requires fit { Each (Fits instance.now) lectures.now }
    requires unread { R.has_failed script.old ≡ false }

    ensures answers { IfOk result (λ journal. (opened : List Placed)
        × (opening instance.now lectures.now ≡ Ok opened)
        × IfSome (R.left script.old) (λ text.
        Answered instance.now opened text (W.taken out.old) (W.taken out.new) wanted journal.items)) }
    ensures flushed { OnOk result (W.unflushed out.new ≡ 0) }
    ensures unmarked { OnOk result (W.has_failed out.new ≡ W.has_failed out.old) }

    ensures front { OnErr result ((out.new ≡ out.old)
        ⊎ PrintsFront instance.now lectures.now (R.left script.old)
        (W.taken out.old) (W.taken out.new)) }
    ensures cause { IfErr result (λ fault. IfUnwritten fault
        (W.has_failed out.new ≡ true)
        (IsAnswerFault instance.now lectures.now name (R.left script.old) fault
        × (W.has_failed out.new ≡ W.has_failed out.old))) }
    ensures unwritten { IfErr result (λ fault. MayHaveWritten fault ⊎ (out.new ≡ out.old)) }
{
    match run_script(alloc, instance, lectures, script, out) {
        Ok(desk) => {
            let journal = journal_if(alloc, wanted, instance, desk.journal());
            drop_whole(desk);
            Ok(journal?)
        }
        Err(fault) => Err(fault_of_run(alloc, instance, fault, name)),
    }
}

/// Stores a journal, if a file is given for it.
fn store_journal<F: Files>(
    files: &mut F,
    journal: Option<String>,
    text: &[u8],
) -> Result<Outcome, Fault>
    ensures done { IfOk result (λ outcome. outcome ≡ Done) }
    ensures stores { OnOk result (Stores journal (F.held files.old) (F.held files.new) (λ bytes.
        bytes ≡ text.now)) }
    ensures fault { IfErr result (λ fault. (fault ≡ Machine CannotWrite) × IsGiven journal) }
    ensures others { KeepOthers journal (F.held files.old) (F.held files.new) }
{
    let Some(name) = journal else {
        return Ok(Outcome::Done);
    };
    match files.store(&name, text) {
        Ok(()) => Ok(Outcome::Done),
        Err(_) => Err(Fault::Machine(MachineFault::CannotWrite)),
    }
}

/// Runs a script on a desk of an instance, and prints the answers, then stores the journal of the
/// accepted drafts, if a file is given for it. The script's file is opened first, then the start is
/// read, and then the script.
pub fn run<F: Files, W: Sink>(
    alloc: Global,
    files: &mut F,
    out: &mut W,
    instance: String,
    sides: Sides,
    script: String,
    start: Option<String>,
    journal: Option<String>,
) -> Result<Outcome, Fault>
    ensures runs { OnOk result
        (RunsScript instance sides script start journal (F.held files.old) (F.held files.new)
        (W.taken out.old) (W.taken out.new)) }
    ensures done { IfOk result (λ outcome. outcome ≡ Done) }
    ensures flushed { OnOk result (W.unflushed out.new ≡ 0) }
    ensures unmarked { OnOk result (W.has_failed out.new ≡ W.has_failed out.old) }
    ensures front { OnErr result ((out.new ≡ out.old)
        ⊎ AnswersScript (AppendsFront (W.taken out.old) (W.taken out.new))
        instance sides script start (F.held files.old)) }
    ensures cause { IfErr result (λ fault. IfUnwritten fault
        ((W.has_failed out.new ≡ true) ⊎ (IsGiven journal
        × AnswersScript (Appends (W.taken out.old) (W.taken out.new))
        instance sides script start (F.held files.old)))
        (IsOfRun (F.held files.old) instance sides script start fault
        × (W.has_failed out.new ≡ W.has_failed out.old))) }
    ensures unwritten { IfErr result (λ fault. MayHaveWritten fault ⊎ (out.new ≡ out.old)) }
    ensures unstored { IfErr result (λ fault. KeptUnless fault
        ((W.has_failed out.new ≡ W.has_failed out.old) × IsGiven journal)
        (F.held files.new ≡ F.held files.old)) }
    ensures others { KeepOthers journal (F.held files.old) (F.held files.new) }
{
    let instance = fetch_instance(alloc, files, instance, sides)?;
    let Ok(mut input) = files.fetch(&script) else {
        drop_whole(instance);
        return Err(Fault::Machine(MachineFault::CannotRead(script)));
    };
    let lectures = match fetch_start(alloc, files, &instance, start) {
        Ok(lectures) => lectures,
        Err(fault) => {
            drop_whole(instance);
            return Err(fault);
        }
    };
    let wanted = journal.is_some();
    let answered = answer(alloc, &instance, &lectures, &mut input, script, out, wanted);
    drop_whole(instance);
    store_journal(files, journal, &answered?)
}
