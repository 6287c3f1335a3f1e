//! The command `crew`.

ghost use Rattle.std.specs.Prelude.{◌≡◌, ◌≤◌, [], length, map, IfOk, IfErr};
ghost use Rattle.ctt_seat.specs.Attended.{IsCrewText};
ghost use Rattle.ctt_commands.specs.Commands.{IsDoneAlone};
ghost use Rattle.ctt_commands.specs.Faults.{fault_of_crew};
ghost use Rattle.ctt_commands.specs.Refusals.{IsOfWork};

use ctt_crew::{CrewFault, NoGate};
use ctt_files::{Fault, MachineFault, Outcome, Output};
use ctt_problem::Instance;
use std::alloc::Global;
use std::marker::Sync;
use std::sync::Wait;
use std::thread::Threads;

/// Converts the fault of a crew that could not be run.
fn refused_crew(fault: CrewFault) -> Fault
    ensures { result ≡ fault_of_crew fault }
{
    match fault {
        CrewFault::NoPlace => Fault::Machine(MachineFault::NoPlace),
        CrewFault::NoThread(_) => Fault::Machine(MachineFault::NoThread),
        CrewFault::NoMemory => Fault::Machine(MachineFault::NoMemory),
    }
}

/// Runs scripts on one desk of an instance, which opens empty, with one planner and one thread per
/// script, and returns the answers when all have ended.
pub(crate) fn crew<R: Threads + Wait + Sync>(
    rt: &R,
    alloc: Global,
    instance: &Instance,
    texts: &[Vec<u8>],
) -> Result<Output, Fault>
    requires some { 1 ≤ length texts.now }
    requires few { length texts.now ≤ 64 }
    ensures crew { IfOk result (λ output.
        IsCrewText instance.now [] (map (λ t. t.items) texts.now) output.text.items) }
    ensures alone { IfOk result IsDoneAlone }
    ensures cause { IfErr result IsOfWork }
{
    let mut scripts: Vec<&[u8]> = Vec::with_capacity(alloc, texts.len())?;
    for text in texts {
        scripts.push(text.as_slice())?;
    }
    match ctt_crew::crew(rt, alloc, instance, &scripts, &NoGate) {
        Ok(answers) => Ok(Output::new(alloc, answers, Outcome::Done)),
        Err(fault) => Err(refused_crew(fault)),
    }
}
