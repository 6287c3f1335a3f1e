//! Why a desk is not made, a draft not opened or a look not answered.

use ctt_core::DeskFault;
use ctt_edits::EditFault;
use ctt_problem::NoMemory;
use std::alloc::AllocError;
use thiserror::Error;

/// Why a desk was not made, a draft not opened or a look not answered.
#[derive(Clone, Copy, Debug, PartialEq, Eq, Error)]
pub enum SharedFault {
    /// The first lecture of the opening that cannot be placed, counted from 1, and why it cannot.
    #[error("lecture {0} of the opening: {1}")]
    Unlawful(u64, EditFault),
    /// `left_right` refused a place, or refused to enter.
    #[error("no place")]
    NoPlace,
    /// There is not enough memory.
    #[error("no memory")]
    NoMemory,
}

impl From<DeskFault> for SharedFault {
    ghost use Rattle.std.specs.Prelude.{◌≡◌};
    ghost use Rattle.ctt_desk.specs.Faults.{shared};

    ghost from_gives = { λ fault told. told ≡ shared fault };

    fn from(fault: DeskFault) -> SharedFault {
        match fault {
            DeskFault::Unlawful(at, fault) => SharedFault::Unlawful(at, fault),
            DeskFault::NoMemory => SharedFault::NoMemory,
        }
    }
}

impl From<NoMemory> for SharedFault {
    ghost use Rattle.std.specs.Prelude.{◌≡◌};
    ghost use Rattle.ctt_desk.specs.declared.shared_fault.SharedFault.TheVariants.{NoMemory as OutOfMemory};

    ghost from_gives = { λ _ fault. fault ≡ OutOfMemory };

    fn from(_e: NoMemory) -> SharedFault {
        SharedFault::NoMemory
    }
}

impl From<AllocError> for SharedFault {
    ghost use Rattle.std.specs.Prelude.{◌≡◌};
    ghost use Rattle.ctt_desk.specs.declared.shared_fault.SharedFault.TheVariants.{NoMemory as OutOfMemory};

    ghost from_gives = { λ _ fault. fault ≡ OutOfMemory };

    fn from(_e: AllocError) -> SharedFault {
        SharedFault::NoMemory
    }
}
