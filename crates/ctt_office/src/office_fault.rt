//! Why a desk could not be run to its end.

ghost use Rattle.std.specs.Prelude.{◌≡◌};
ghost use Rattle.ctt_office.specs.OfficeFaults.{at_seat, office_fault_of};
ghost use Rattle.ctt_office.specs.declared.office_fault.OfficeFault.TheVariants.{NoMemory as OutOfMemory};

use ctt_desk::SharedFault;
use ctt_text::NoMemory;
use std::alloc::{AllocError, AllocFailed};
use thiserror::Error;

/// Why a seat could not be served.
#[derive(Clone, Copy, Debug, PartialEq, Eq)]
pub enum SeatFault {
    /// The input device of the seat could not be opened.
    CannotRead,
    /// The output device of the seat could not be opened.
    CannotWrite,
    /// Out of memory.
    NoMemory,
}

/// Why a desk could not be run, or not to its end.
#[derive(Clone, Copy, Debug, PartialEq, Eq, Error)]
pub enum OfficeFault {
    /// `left_right` refused a place to a planner.
    #[error("no place")]
    NoPlace,
    /// The thread of a planner could not be started.
    #[error("no thread")]
    NoThread,
    /// The input device of the seat with this index could not be opened.
    #[error("cannot read seat {0}")]
    CannotRead(usize),
    /// The output device of a seat could not be opened.
    #[error("cannot write")]
    CannotWrite,
    /// The minutes could not be written completely.
    #[error("the minutes cannot be written")]
    NotWritten,
    /// Out of memory.
    #[error("no memory")]
    NoMemory,
}

impl OfficeFault {
    /// Converts the fault of the seat with this index.
    pub(crate) fn at_seat(place: usize, fault: SeatFault) -> OfficeFault
        ensures { result ≡ at_seat place fault }
    {
        match fault {
            SeatFault::CannotRead => OfficeFault::CannotRead(place),
            SeatFault::CannotWrite => OfficeFault::CannotWrite,
            SeatFault::NoMemory => OfficeFault::NoMemory,
        }
    }
}

impl From<SharedFault> for OfficeFault {
    ghost from_gives = { λ fault given. given ≡ office_fault_of fault };

    /// Converts the fault of a shared desk. The desk already has a lawful opening, so that only
    /// memory or a place can be lacking.
    fn from(fault: SharedFault) -> OfficeFault {
        match fault {
            SharedFault::NoPlace => OfficeFault::NoPlace,
            _ => OfficeFault::NoMemory,
        }
    }
}

impl From<NoMemory> for OfficeFault {
    ghost from_gives = { λ _ given. given ≡ OutOfMemory };

    fn from(_error: NoMemory) -> OfficeFault {
        OfficeFault::NoMemory
    }
}

impl From<AllocError> for OfficeFault {
    ghost from_gives = { λ _ given. given ≡ OutOfMemory };

    fn from(_error: AllocError) -> OfficeFault {
        OfficeFault::NoMemory
    }
}

impl<T: Drop> From<AllocFailed<T>> for OfficeFault {
    ghost from_gives = { λ _ given. given ≡ OutOfMemory };

    fn from(_error: AllocFailed<T>) -> OfficeFault {
        OfficeFault::NoMemory
    }
}
