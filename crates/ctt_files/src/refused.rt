//! The faults of the program for texts that are refused.

ghost use Rattle.ctt_files.specs.Faults.{IsBarredFault, IsBlockedFault, IsInstanceFault, IsSolutionFault};

use crate::fault::{ContentsFault, Fault, MachineFault};
use ctt_text::{BarredFault, BlockedFault, ReadFault, SolutionFault};
use std::alloc::Global;

/// Returns the fault for the text of an instance in the file of this name.
pub(crate) fn refuse_instance(alloc: Global, file: &str, text: &[u8], met: ReadFault) -> Fault
    ensures { IsInstanceFault file.now text.now met result }
{
    match met {
        ReadFault::NoMemory => Fault::Machine(MachineFault::NoMemory),
        _ => match met.point(alloc, file, text) {
            Ok(point) => Fault::Contents(ContentsFault::Instance { met, point }),
            Err(_) => Fault::Machine(MachineFault::NoMemory),
        },
    }
}

/// Returns the fault for the text of a solution in the file of this name.
pub(crate) fn refuse_solution(alloc: Global, file: &str, text: &[u8], met: SolutionFault) -> Fault
    ensures { IsSolutionFault file.now text.now met result }
{
    match met {
        SolutionFault::NoMemory => Fault::Machine(MachineFault::NoMemory),
        _ => match met.point(alloc, file, text) {
            Ok(point) => Fault::Contents(ContentsFault::Solution { met, point }),
            Err(_) => Fault::Machine(MachineFault::NoMemory),
        },
    }
}

/// Returns the fault for the text of barred rooms in the file of this name.
pub(crate) fn refuse_barred(alloc: Global, file: &str, text: &[u8], met: BarredFault) -> Fault
    ensures { IsBarredFault file.now text.now met result }
{
    match met {
        BarredFault::NoMemory => Fault::Machine(MachineFault::NoMemory),
        _ => match met.point(alloc, file, text) {
            Ok(point) => Fault::Contents(ContentsFault::Barred { met, point }),
            Err(_) => Fault::Machine(MachineFault::NoMemory),
        },
    }
}

/// Returns the fault for the text of what is blocked in the file of this name.
pub(crate) fn refuse_blocked(alloc: Global, file: &str, text: &[u8], met: BlockedFault) -> Fault
    ensures { IsBlockedFault file.now text.now met result }
{
    match met {
        BlockedFault::NoMemory => Fault::Machine(MachineFault::NoMemory),
        _ => match met.point(alloc, file, text) {
            Ok(point) => Fault::Contents(ContentsFault::Blocked { met, point }),
            Err(_) => Fault::Machine(MachineFault::NoMemory),
        },
    }
}
