//! Why a script could not be run.

ghost use Rattle.std.specs.Prelude.{◌≡◌};
ghost use Rattle.ctt_core.specs.declared.desk_fault.DeskFault.{DeskFault};
ghost use Rattle.ctt_script.specs.RunFaults.{of_desk, of_input};
ghost use Rattle.ctt_script.specs.declared.script_fault.ScriptFault.TheVariants as script_fault;

use ctt_core::DeskFault;
use ctt_edits::EditFault;
use ctt_files::{Failed, InputFault};
use ctt_text::NoMemory;
use std::alloc::AllocError;
use thiserror::Error;

/// Why a script could not be run to its end.
#[derive(Clone, Copy, Debug, PartialEq, Eq, Error)]
pub enum ScriptFault {
    /// The first lecture of the opening timetable that cannot be placed, counted from 1, and why.
    #[error("lecture {0} of the opening: {1}")]
    Unlawful(u64, EditFault),
    /// A read failed.
    #[error("a read failed")]
    Read,
    /// The script has more than 67,108,864 bytes.
    #[error("too long")]
    TooLong,
    /// A write or a flush failed, or a write accepted no bytes.
    #[error("a write failed")]
    Write,
    /// There is not enough memory.
    #[error("no memory")]
    NoMemory,
}

impl From<DeskFault> for ScriptFault {
    ghost from_gives = { λ fault given. given ≡ of_desk fault };

    fn from(fault: DeskFault) -> ScriptFault {
        match fault {
            DeskFault::Unlawful(at, fault) => ScriptFault::Unlawful(at, fault),
            DeskFault::NoMemory => ScriptFault::NoMemory,
        }
    }
}

impl From<InputFault> for ScriptFault {
    ghost from_gives = { λ fault given. given ≡ of_input fault };

    fn from(fault: InputFault) -> ScriptFault {
        match fault {
            InputFault::Read => ScriptFault::Read,
            InputFault::TooLong => ScriptFault::TooLong,
            InputFault::NoMemory => ScriptFault::NoMemory,
        }
    }
}

impl From<Failed> for ScriptFault {
    ghost from_gives = { λ _ given. given ≡ script_fault.Write };

    fn from(_failed: Failed) -> ScriptFault {
        ScriptFault::Write
    }
}

impl From<NoMemory> for ScriptFault {
    ghost from_gives = { λ _ given. given ≡ script_fault.NoMemory };

    fn from(_error: NoMemory) -> ScriptFault {
        ScriptFault::NoMemory
    }
}

impl From<AllocError> for ScriptFault {
    ghost from_gives = { λ _ given. given ≡ script_fault.NoMemory };

    fn from(_error: AllocError) -> ScriptFault {
        ScriptFault::NoMemory
    }
}
