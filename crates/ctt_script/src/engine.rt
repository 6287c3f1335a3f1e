//! Running a script.

ghost use Rattle.std.specs.Prelude.{◌≡◌, ◌⊎◌, ◌↔◌, ℕ, ◌+◌, ◌∷◌, [], ◌≤◌, List, length, true, false, Ok, Err, IfOk, IfErr, OnOk, OnErr, IfSome, Some, string_bytes};
ghost use Rattle.std.specs.List.{AllByRecursion as Each};
ghost use Rattle.std.specs.Io.KnownBytes.{Appends};
ghost use Rattle.ctt_problem.specs.Timetable.{Fits};
ghost use Rattle.ctt_problem.specs.declared.placed.Placed.{Placed as Lecture};
ghost use Rattle.ctt_edits.specs.declared.fault.EditFault.{EditFault};
ghost use Rattle.ctt_core.specs.Runs.{EventFits};
ghost use Rattle.ctt_core.specs.Laws.{Stands};
ghost use Rattle.ctt_edits.specs.Openings.{opening};
ghost use Rattle.ctt_script.specs.AnswerText.{answer_text, script_run};
ghost use Rattle.ctt_script.specs.Answering.{PlaysItems, IsAtRun, Wrote, WroteFront};
ghost use Rattle.ctt_script.specs.Entries.{IsWritable};
ghost use Rattle.ctt_files.specs.Output.{AppendsFront};
ghost use Rattle.ctt_script.specs.RunFaults.{IsRunCause, MayHavePrinted};
ghost use Rattle.ctt_script.specs.ScriptText.{items_of, script};
ghost use Rattle.ctt_script.specs.declared.script_fault.ScriptFault.TheVariants as script_fault;

use crate::answers::{write_answer, write_bad_line};
use crate::lines::Lines;
use crate::script::{PLANNERS, has_words, read_line};
use crate::script_fault::ScriptFault;
use ctt_board::Sheet;
use ctt_core::{Answer, Desk, Event};
use ctt_files::{INPUT_LIMIT, Sink, Source, put_long, put_whole, read_all};
use ctt_grid::GridSheet;
use ctt_text::{Instance, NoMemory, Placed, drop_whole};
use std::alloc::Global;

/// Answers an event, and adds the line of the answer.
fn answer_event<'i, S: Sheet<'i>>(
    desk: &mut Desk<'i, S>,
    instance: &Instance,
    event: &Event,
    answers: &mut String,
) -> Result<(), NoMemory>
    requires same { desk.old.problem ≡ instance.now }
    requires planners { length desk.old.drafts ≡ 64 }
    requires fits { EventFits instance.now 64 event.now }
    requires stands { IsAtRun desk.old }
    ensures { OnOk result
        (PlaysItems desk.old desk.new (string_bytes answers.old) (string_bytes answers.new)
        (Some event.now ∷ [])) }
{
    instance.limits_hold();
    desk.lawful();
    let answer = desk.step(*event);
    if let Answer::NoMemory = answer {
        return Err(NoMemory);
    }
    write_answer(answers, instance, &answer)?;
    Ok(())
}

/// Answers a line of a script if it has words, and adds the line of the answer.
fn answer_line<'i, S: Sheet<'i>>(
    desk: &mut Desk<'i, S>,
    instance: &Instance,
    line: &[u8],
    answers: &mut String,
) -> Result<(), NoMemory>
    requires same { desk.old.problem ≡ instance.now }
    requires planners { length desk.old.drafts ≡ 64 }
    requires stands { IsAtRun desk.old }
    ensures { OnOk result
        (PlaysItems desk.old desk.new (string_bytes answers.old) (string_bytes answers.new)
        (items_of instance.now (line.now ∷ []))) }
{
    match read_line(instance, line) {
        Some(event) => answer_event(desk, instance, &event, answers),
        None if has_words(line) => Ok(write_bad_line(answers)?),
        None => Ok(()),
    }
}

/// Answers the lines of a script, and writes the answers to the sink in blocks.
fn answer_lines<'i, S: Sheet<'i>, W: Sink>(
    alloc: Global,
    desk: &mut Desk<'i, S>,
    instance: &Instance,
    text: &[u8],
    writer: &mut W,
) -> Result<(), ScriptFault>
    requires same { desk.old.problem ≡ instance.now }
    requires planners { length desk.old.drafts ≡ 64 }
    requires stands { IsAtRun desk.old }
    ensures written { OnOk result
        (Wrote desk.old desk.new (script instance.now text.now) (W.taken writer.old)
        (W.taken writer.new)) }
    ensures part { OnErr result
        (WroteFront desk.old (script instance.now text.now) (W.taken writer.old)
        (W.taken writer.new)) }
    ensures flushed { OnOk result (W.unflushed writer.new ≡ 0) }
    ensures fault { IfErr result (λ fault. (fault ≡ script_fault.Write)
        ⊎ (fault ≡ script_fault.NoMemory)) }
    ensures failed { (result ≡ Err script_fault.Write) → W.has_failed writer.new ≡ true }
    ensures unmarked { (result ≡ Err script_fault.Write)
        ⊎ (W.has_failed writer.new ≡ W.has_failed writer.old) }
{
    let mut answers = String::new(alloc);
    for line in Lines::new(text) {
        answer_line(desk, instance, line, &mut answers)?;
        put_long(writer, &mut answers)?;
    }
    put_whole(writer, answers.as_bytes())?;
    Ok(())
}

/// Runs a script of 64 planners on a desk whose opening timetable has these lectures, placed in
/// this order, and writes one answer line for each line that has words. Returns the desk as the
/// script leaves it.
///
/// The whole script is read before anything is written, by at most one read more than it has bytes,
/// and none of it is read if the opening is refused. No read follows a failed one. All that was
/// written is flushed at the end, and a failed flush counts as a failed write. If a write fails, or
/// memory runs out, a prefix of the answers may have been written.
#[tactic(auto, using(crate::proofs::ScriptRuns::not_read))]
pub fn run_script<'i, R: Source, W: Sink>(
    alloc: Global,
    instance: &'i Instance,
    lectures: &[Placed],
    reader: &mut R,
    writer: &mut W,
) -> Result<Desk<'i, GridSheet<'i>>, ScriptFault>
    requires fit { Each (Fits instance.now) lectures.now }
    requires unmarked { R.has_failed reader.old ≡ false }

    ensures problem { IfOk result (λ desk. desk.problem ≡ instance.now) }
    ensures opening { IfOk result (λ desk. opening instance.now lectures.now ≡ Ok desk.opening) }
    ensures answers { IfOk result (λ desk. IfSome (R.left reader.old) (λ text.
        Appends (W.taken writer.old) (W.taken writer.new)
        (answer_text instance.now desk.opening text))) }
    ensures flushed { OnOk result (W.unflushed writer.new ≡ 0) }
    ensures stands { IfOk result (λ desk. IfSome (R.left reader.old) (λ text.
        Stands desk (script_run instance.now desk.opening text))) }
    ensures entries { IfOk result (λ desk. IsWritable instance.now desk.journal) }
    ensures short { OnOk result (IfSome (R.left reader.old) (λ text. length text ≤ 67108864)) }

    ensures cause { IfErr result (λ fault.
        IsRunCause instance.now lectures.now (R.left reader.old) fault) }
    ensures refused { (at : ℕ) (fault : EditFault)
        → opening instance.now lectures.now ≡ Err (at, fault)
        → (result ≡ Err (script_fault.Unlawful at fault)) ⊎ (result ≡ Err script_fault.NoMemory) }
    ensures unread { (at : ℕ) (fault : EditFault)
        → opening instance.now lectures.now ≡ Err (at, fault)
        → (reader.new ≡ reader.old) × (writer.new ≡ writer.old) }
    ensures read { (result ≡ Err script_fault.Read) ↔ (R.has_failed reader.new ≡ true) }
    ensures end { OnOk result (IfSome (R.left reader.old) (λ _. R.left reader.new ≡ Some [])) }
    ensures once { R.retries reader.new ≡ R.retries reader.old }
    ensures fewer { IfSome (R.left reader.old) (λ old. IfSome (R.left reader.new) (λ new.
        R.pulls reader.new + length new ≤ R.pulls reader.old + length old + 1)) }
    ensures unwritten { IfErr result (λ fault. MayHavePrinted fault ⊎ (writer.new ≡ writer.old)) }
    ensures failed { (result ≡ Err script_fault.Write) → W.has_failed writer.new ≡ true }
    ensures unmarked { (result ≡ Err script_fault.Write)
        ⊎ (W.has_failed writer.new ≡ W.has_failed writer.old) }
    ensures front { OnErr result ((t0 : List Lecture) → opening instance.now lectures.now ≡ Ok t0
        → IfSome (R.left reader.old) (λ text. AppendsFront (W.taken writer.old) (W.taken writer.new)
        (answer_text instance.now t0 text))) }
{
    instance.limits_hold();
    let mut desk: Desk<'i, GridSheet<'i>> = Desk::new(alloc, instance, lectures, PLANNERS)?;
    desk.lawful();
    let text = match read_all(alloc, reader, INPUT_LIMIT) {
        Ok(text) => text,
        Err(fault) => {
            drop_whole(desk);
            return Err(ScriptFault::from(fault));
        }
    };
    let answered = answer_lines(alloc, &mut desk, instance, &text, writer);
    drop_whole(text);
    match answered {
        Ok(()) => Ok(desk),
        Err(fault) => {
            drop_whole(desk);
            Err(fault)
        }
    }
}
