//! Why a desk cannot be created.

use ctt_edits::EditFault;
use ctt_problem::NoMemory;
use std::alloc::AllocError;
use thiserror::Error;

/// Why a desk cannot be created from an opening timetable.
#[derive(Clone, Copy, Debug, Error)]
pub enum DeskFault {
    /// The first lecture that cannot be placed, counted from 1, and the reason.
    #[error("lecture {0} of the opening: {1}")]
    Unlawful(u64, EditFault),
    /// Memory ran out.
    #[error("no memory")]
    NoMemory,
}

impl From<NoMemory> for DeskFault {
    ghost use Rattle.std.specs.Prelude.{◌≡◌};
    ghost use Rattle.ctt_core.specs.declared.desk_fault.DeskFault.TheVariants.{NoMemory as OutOfMemory};

    ghost from_gives = { λ _ fault. fault ≡ OutOfMemory };

    fn from(_e: NoMemory) -> DeskFault {
        DeskFault::NoMemory
    }
}

impl From<AllocError> for DeskFault {
    ghost use Rattle.std.specs.Prelude.{◌≡◌};
    ghost use Rattle.ctt_core.specs.declared.desk_fault.DeskFault.TheVariants.{NoMemory as OutOfMemory};

    ghost from_gives = { λ _ fault. fault ≡ OutOfMemory };

    fn from(_e: AllocError) -> DeskFault {
        DeskFault::NoMemory
    }
}
