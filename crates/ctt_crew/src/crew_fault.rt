//! Why a crew could not finish.

ghost use Rattle.std.specs.Prelude.{◌≡◌};
ghost use Rattle.ctt_crew.specs.CrewFaults.{crew_fault_of};
ghost use Rattle.ctt_crew.specs.declared.crew_fault.CrewFault.TheVariants as crew_fault;

use ctt_core::PlannerNo;
use ctt_desk::SharedFault;
use ctt_problem::NoMemory;
use std::alloc::{AllocError, AllocFailed};
use thiserror::Error;

/// Why a crew could not finish its scripts.
#[derive(Clone, Copy, Debug, PartialEq, Eq, Error)]
pub enum CrewFault {
    /// `left_right` refused a place for a planner.
    #[error("no place")]
    NoPlace,
    /// The thread of this planner could not be started.
    #[error("no thread")]
    NoThread(PlannerNo),
    /// There is not enough memory.
    #[error("no memory")]
    NoMemory,
}

impl From<SharedFault> for CrewFault {
    ghost from_gives = { λ fault given. given ≡ crew_fault_of fault };

    /// Converts the fault of a crew's desk, which opens empty and so is never `Unlawful`.
    fn from(fault: SharedFault) -> CrewFault {
        match fault {
            SharedFault::NoPlace => CrewFault::NoPlace,
            _ => CrewFault::NoMemory,
        }
    }
}

impl From<NoMemory> for CrewFault {
    ghost from_gives = { λ _ given. given ≡ crew_fault.NoMemory };

    fn from(_error: NoMemory) -> CrewFault {
        CrewFault::NoMemory
    }
}

impl From<AllocError> for CrewFault {
    ghost from_gives = { λ _ given. given ≡ crew_fault.NoMemory };

    fn from(_error: AllocError) -> CrewFault {
        CrewFault::NoMemory
    }
}

impl<T: Drop> From<AllocFailed<T>> for CrewFault {
    ghost from_gives = { λ _ given. given ≡ crew_fault.NoMemory };

    fn from(_error: AllocFailed<T>) -> CrewFault {
        CrewFault::NoMemory
    }
}
