//! The commands `audit` and `list`.

ghost use Rattle.std.specs.Prelude.{◌≡◌, ◌⊎◌, [], IfOk, IfErr, string_bytes};
ghost use Rattle.std.specs.List.{AllByRecursion as Each};
ghost use Rattle.ctt_problem.specs.Timetable.{Fits};
ghost use Rattle.ctt_core.specs.Entries.{EntryFits};
ghost use Rattle.ctt_files.specs.declared.fault.Fault.TheVariants.{Machine};
ghost use Rattle.ctt_files.specs.declared.fault.MachineFault.TheVariants.{NoMemory as OutOfMemory};
ghost use Rattle.ctt_commands.specs.Commands.{ReplayFits};
ghost use Rattle.ctt_commands.specs.Refusals.{IsNoOpening};
ghost use Rattle.ctt_commands.specs.Verdicts.{IsVerdictFault, ShowsAudit, ShowsLeft, ShowsVerdict, VerdictFits};

use crate::refused::refused_opening;
use crate::task::Replay;
use ctt_board::Sheet;
use ctt_core::{JournalEntry, NoList, Verdict, audit as audit_entries, list_after};
use ctt_files::{Fault, MachineFault, Outcome, Output};
use ctt_grid::GridSheet;
use ctt_problem::{Instance, Placed};
use ctt_text::write_solution;
use std::alloc::Global;

/// Returns the text of a verdict, unless the opening is refused, which is a fault.
fn show_verdict(alloc: Global, instance: &Instance, verdict: Verdict) -> Result<Output, Fault>
    requires { VerdictFits instance.now verdict }
    ensures shows { IfOk result (ShowsVerdict verdict) }
    ensures alone { IfOk result (λ output. string_bytes output.diagnostics ≡ []) }
    ensures cause { IfErr result (IsVerdictFault instance.now verdict) }
{
    let (words, outcome) = match verdict {
        Verdict::Agrees => (String::from_str(alloc, "agrees\n")?, Outcome::Done),
        Verdict::Differs(entry, call) => (
            format!(in alloc; "differs {entry} {call}\n")?,
            Outcome::Differs,
        ),
        Verdict::BadOpening(at, fault) => {
            return Err(refused_opening(alloc, instance, at, &fault));
        }
    };
    Ok(Output::new(alloc, words.into_bytes(), outcome))
}

/// Audits entries on the opening with these lectures, on sheets of this kind.
fn show_audit<'i, S: Sheet<'i>>(
    alloc: Global,
    instance: &'i Instance,
    lectures: &[Placed],
    entries: &[JournalEntry],
) -> Result<Output, Fault>
    requires lectures { Each (Fits instance.now) lectures.now }
    requires entries { Each (EntryFits instance.now) entries.now }
    ensures shows { IfOk result (ShowsAudit instance.now lectures.now entries.now) }
    ensures alone { IfOk result (λ output. string_bytes output.diagnostics ≡ []) }
    ensures cause { IfErr result (λ fault. IsNoOpening instance.now lectures.now fault
        ⊎ (fault ≡ Machine OutOfMemory)) }
{
    let verdict = audit_entries::<S>(alloc, instance, lectures, entries)?;
    show_verdict(alloc, instance, verdict)
}

/// Returns the timetable that entries leave on the opening with these lectures, or the verdict of
/// the audit if it does not agree.
fn show_left<'i, S: Sheet<'i>>(
    alloc: Global,
    instance: &'i Instance,
    lectures: &[Placed],
    entries: &[JournalEntry],
) -> Result<Output, Fault>
    requires lectures { Each (Fits instance.now) lectures.now }
    requires entries { Each (EntryFits instance.now) entries.now }
    ensures shows { IfOk result (ShowsLeft instance.now lectures.now entries.now) }
    ensures alone { IfOk result (λ output. string_bytes output.diagnostics ≡ []) }
    ensures cause { IfErr result (λ fault. IsNoOpening instance.now lectures.now fault
        ⊎ (fault ≡ Machine OutOfMemory)) }
{
    match list_after::<S>(alloc, instance, lectures, entries) {
        Ok(list) => {
            let solution = write_solution(alloc, instance, &list)?;
            Ok(Output::new(alloc, solution, Outcome::Done))
        }
        Err(NoList::Found(verdict)) => show_verdict(alloc, instance, verdict),
        Err(NoList::NoMemory) => Err(Fault::Machine(MachineFault::NoMemory)),
    }
}

/// Audits a journal, and returns whether its entries have the replies that their drafts get if they
/// are run whole, one after another.
pub(crate) fn audit(alloc: Global, replay: &Replay) -> Result<Output, Fault>
    requires { ReplayFits replay.now }
    ensures shows { IfOk result (ShowsAudit replay.now.instance replay.now.start.items
        replay.now.entries.items) }
    ensures alone { IfOk result (λ output. string_bytes output.diagnostics ≡ []) }
    ensures cause { IfErr result (λ fault. IsNoOpening replay.now.instance replay.now.start.items
        fault ⊎ (fault ≡ Machine OutOfMemory)) }
{
    let (lectures, entries) = (replay.start.as_slice(), replay.entries.as_slice());
    show_audit::<GridSheet>(alloc, &replay.instance, lectures, entries)
}

/// Returns the timetable after a journal as a solution, if the audit agrees, and else its verdict.
pub(crate) fn list(alloc: Global, replay: &Replay) -> Result<Output, Fault>
    requires { ReplayFits replay.now }
    ensures shows { IfOk result (ShowsLeft replay.now.instance replay.now.start.items
        replay.now.entries.items) }
    ensures alone { IfOk result (λ output. string_bytes output.diagnostics ≡ []) }
    ensures cause { IfErr result (λ fault. IsNoOpening replay.now.instance replay.now.start.items
        fault ⊎ (fault ≡ Machine OutOfMemory)) }
{
    let (lectures, entries) = (replay.start.as_slice(), replay.entries.as_slice());
    show_left::<GridSheet>(alloc, &replay.instance, lectures, entries)
}
