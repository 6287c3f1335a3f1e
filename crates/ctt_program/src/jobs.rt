//! The program, from the words of its command line to its exit status.

ghost use Rattle.std.specs.Prelude.{◌≡◌, ◌≤◌, ◌⊎◌, true, false, OnOk, IfOk, IfErr};
ghost use Rattle.ctt_files.specs.Faults.{status_of};
ghost use Rattle.ctt_files.specs.Outcomes.{outcome_status};
ghost use Rattle.ctt_words.specs.Jobs.{HasInputs, HasScripts};
ghost use Rattle.ctt_program.specs.Jobs.{Does, DoesCommand, Stops, StopsCommand};
ghost use Rattle.std.specs.String.{string_bytes};
ghost use Rattle.ctt_program.specs.Served.{IsServed, IsTurned, Reports, said_of, texts};
ghost use Rattle.ctt_program.specs.Streams.{stream};

use crate::desk::{DeskJob, desk};
use crate::office::Office;
use ctt_commands::{act, load, run};
use ctt_files::{
    Fault, Files, MachineFault, NO_MEMORY, Outcome, Sink, UsageFault, deliver, print, write_stderr,
};
use ctt_problem::drop_whole;
use ctt_words::{Asked, Command, Job, WordsFault, read_words};
use std::alloc::{AllocError, Global};
use std::marker::Sync;
use std::sync::Wait;
use std::thread::Threads;

/// Does a command: loads its files, answers its task, and delivers the output.
fn do_command<R: Threads + Wait + Sync, F: Files, W: Sink, V: Sink>(
    rt: &R,
    alloc: Global,
    command: Command,
    files: &mut F,
    out: &mut W,
    err: &mut V,
) -> Result<Outcome, Fault>
    requires { HasInputs command }
    ensures does { IfOk result (λ outcome. DoesCommand command outcome
        (F.held files.old) (F.held files.new) (stream W.taken W.has_failed out.old out.new)
        (stream V.taken V.has_failed err.old err.new)) }
    ensures stops { IfErr result (λ fault. StopsCommand command fault
        (F.held files.old) (F.held files.new) (stream W.taken W.has_failed out.old out.new)
        (stream V.taken V.has_failed err.old err.new)) }
    ensures flushed { OnOk result (W.unflushed out.new ≡ 0) }
    ensures unmarked { OnOk result (W.has_failed out.new ≡ W.has_failed out.old) }
{
    let task = load(alloc, files, command)?;
    let acted = act(rt, alloc, &task);
    drop_whole(task);
    match acted {
        Ok(output) => deliver(out, err, output),
        Err(fault) => Err(fault),
    }
}

/// Does a job.
fn do_job<R: Threads + Wait + Sync, F: Files, O: Office, W: Sink, V: Sink>(
    rt: &R,
    alloc: Global,
    job: Job,
    files: &mut F,
    office: &O,
    out: &mut W,
    err: &mut V,
) -> Result<Outcome, Fault>
    requires { HasScripts job }
    ensures does { IfOk result (λ outcome. Does job outcome
        (F.held files.old) (F.held files.new) (stream W.taken W.has_failed out.old out.new)
        (stream V.taken V.has_failed err.old err.new)) }
    ensures stops { IfErr result (λ fault. Stops job fault
        (F.held files.old) (F.held files.new) (stream W.taken W.has_failed out.old out.new)
        (stream V.taken V.has_failed err.old err.new)) }
    ensures flushed { OnOk result ((W.unflushed out.new ≡ 0) ⊎ (out.new ≡ out.old)) }
    ensures unmarked { OnOk result (W.has_failed out.new ≡ W.has_failed out.old) }
{
    match job {
        Job::Answer(command) => do_command(rt, alloc, command, files, out, err),
        Job::Run {
            instance,
            sides,
            script,
            start,
            journal,
        } => run(alloc, files, out, instance, sides, script, start, journal),
        Job::Desk {
            instance,
            sides,
            seats,
            start,
            minutes,
        } => {
            let asked = DeskJob::new(instance, sides, seats, start, minutes);
            desk(rt, alloc, files, office, out, err, asked)
        }
    }
}

/// Returns what is said of a fault: its line, and that of its point if it is asked for.
fn said_of(alloc: Global, point: bool, fault: &Fault) -> Result<String, AllocError>
    ensures { IfOk result (λ text. string_bytes text ≡ said_of point fault.now) }
{
    let mut text = fault.line(alloc)?;
    if point {
        text.push_str(fault.point())?;
    }
    Ok(text)
}

/// Reports a fault on standard error, with its point if it is asked for, and returns its exit
/// status.
///
/// If memory runs out for what is said, that is reported instead.
pub(crate) fn report<V: Sink>(alloc: Global, point: bool, fault: &Fault, err: &mut V) -> u8
    ensures reports { Reports point fault.now result
        (stream V.taken V.has_failed err.old err.new) }
    ensures status { (result ≡ status_of fault.now) ⊎ (result ≡ 3) }
{
    match said_of(alloc, point, fault) {
        Ok(text) => {
            write_stderr(err, text.as_bytes());
            fault.status()
        }
        Err(_) => {
            write_stderr(err, NO_MEMORY.as_bytes());
            3
        }
    }
}

/// Returns the exit status of a job that has ended so, and reports its fault, if it has one, with
/// its point if it is asked for.
fn end<V: Sink>(alloc: Global, point: bool, ended: Result<Outcome, Fault>, err: &mut V) -> u8
    ensures done { IfOk ended (λ outcome. result ≡ outcome_status outcome) }
    ensures quiet { OnOk ended (err.new ≡ err.old) }
    ensures reports { IfErr ended (λ fault.
        Reports point fault result (stream V.taken V.has_failed err.old err.new)) }
    ensures status { IfErr ended (λ fault. (result ≡ status_of fault) ⊎ (result ≡ 3)) }
{
    match ended {
        Ok(outcome) => outcome.status(),
        Err(fault) => report(alloc, point, &fault, err),
    }
}

/// Prints the help that words ask for, or reports why they ask for no job, and returns the exit
/// status.
fn turn_away<W: Sink, V: Sink>(alloc: Global, fault: WordsFault, out: &mut W, err: &mut V) -> u8
    ensures turned { IsTurned fault result (stream W.taken W.has_failed out.old out.new)
        (stream V.taken V.has_failed err.old err.new) }
    ensures known { result ≤ 3 }
    ensures flushed { result ≡ 0 → (W.unflushed out.new ≡ 0) ⊎ (out.new ≡ out.old) }
    ensures unmarked { (result ≡ 3) ⊎ (W.has_failed out.new ≡ W.has_failed out.old) }
    ensures unprinted { result ≡ 2 → out.new ≡ out.old }
{
    match fault {
        WordsFault::Help(text) => match print(out, text.as_bytes()) {
            Ok(()) => 0,
            Err(fault) => report(alloc, false, &fault, err),
        },
        WordsFault::Refused(text) => {
            report(alloc, false, &Fault::Usage(UsageFault::Words(text)), err)
        }
        WordsFault::NoMemory => report(alloc, false, &Fault::Machine(MachineFault::NoMemory), err),
    }
}

/// Does the job that the words ask for, the first of which is the program's name, and returns the
/// exit status: 0 if it was done, 1 if a text is refused, a word or a name is not found or an audit
/// does not agree, 2 if the words are refused or ask for too many scripts or seats, and 3 if the
/// machine failed. If solutions were required to be more than they are, the status is 4 if one is
/// not lawful, and 5 if all are lawful but one is not complete. Answers go to `out`, and the reason
/// why a job was not done, or a file not compared, to `err`.
pub fn program<R: AllocGlobal + Threads + Wait + Sync, F: Files, O: Office, W: Sink, V: Sink>(
    rt: &R,
    words: &[&str],
    files: &mut F,
    office: &O,
    out: &mut W,
    err: &mut V,
) -> u8
    requires out { W.has_failed out.old ≡ false }
    requires err { V.has_failed err.old ≡ false }
    ensures known { result ≤ 5 }
    ensures flushed { result ≡ 0 → (W.unflushed out.new ≡ 0) ⊎ (out.new ≡ out.old) }
    ensures unmarked { result ≡ 0 → W.has_failed out.new ≡ false }
    ensures unprinted { result ≡ 2 → out.new ≡ out.old }
    ensures unwritten { W.has_failed out.new ≡ true → result ≡ 3 }
    ensures served { IsServed (texts words.now) result (F.held files.old) (F.held files.new)
        (stream W.taken W.has_failed out.old out.new)
        (stream V.taken V.has_failed err.old err.new) }
{
    let alloc = rt.alloc();
    match read_words(alloc, words) {
        Ok(asked) => {
            let Asked { job, point } = asked;
            let ended = do_job(rt, alloc, job, files, office, out, err);
            end(alloc, point, ended, err)
        }
        Err(fault) => turn_away(alloc, fault, out, err),
    }
}
