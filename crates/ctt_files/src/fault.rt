//! The faults of the program.

ghost use Rattle.std.specs.Prelude.{◌≡◌};
ghost use Rattle.ctt_files.specs.Faults.{contents_point, point_of, status_of};
ghost use Rattle.ctt_files.specs.declared.fault.Fault.TheVariants.{Contents, Machine, Usage};
ghost use Rattle.ctt_files.specs.declared.fault.MachineFault.TheVariants.{NoMemory};

use ctt_text::{BarredFault, BlockedFault, ReadFault, SolutionFault};
use std::alloc::{AllocError, AllocFailed};

/// Why the program did not do its job, by its exit status.
#[derive(Debug, Drop)]
pub enum Fault {
    /// The contents of a file are refused, or lack what is asked for: status 1.
    Contents(ContentsFault),
    /// The words of the command line are refused: status 2.
    Usage(UsageFault),
    /// The machine failed, or may not do what is asked for: status 3.
    Machine(MachineFault),
}

/// Why the contents of a file are refused, or what they lack.
#[derive(Debug, Drop)]
pub enum ContentsFault {
    /// The instance is invalid. As in those below, the point is the line that says where and why.
    Instance { met: ReadFault, point: String },
    /// The solution is invalid.
    Solution { met: SolutionFault, point: String },
    /// The text of barred rooms is invalid.
    Barred { met: BarredFault, point: String },
    /// The text of what is blocked is invalid.
    Blocked { met: BlockedFault, point: String },
    /// The journal is invalid, at this byte or word.
    Journal { number: u8, at: u64, point: String },
    /// The list of pairs is invalid, in this line.
    Pairs { number: u8, at: u64, point: String },
    /// A lecture of the opening cannot be placed. The text is the line that says which one, and
    /// why.
    Opening(String),
    /// The instance has no curriculum of this name.
    NoCurriculum(String),
    /// The instance has no teacher of this name.
    NoTeacher(String),
    /// The instance has no course of this name.
    NoCourse(String),
    /// The instance has no room of this name.
    NoRoom(String),
    /// The file has no word of this number, as it is no number from 1.
    NoWord { word: String, file: String },
    /// The file has no byte of this number, as it is no number.
    NoByte { byte: String, file: String },
    /// The file ends before the word or the byte that is asked for. The text is the line that says
    /// where.
    Ends(String),
}

/// Why the words of the command line are refused.
#[derive(Debug, Drop)]
pub enum UsageFault {
    /// They ask for no job. The text says why, in whole lines.
    Words(String),
    /// One of them is not a text.
    WordsNotText,
    /// A crew has too many scripts.
    TooManyScripts,
    /// A desk has too many seats, or the same seat twice.
    BadSeats,
}

/// What the machine could not or may not do.
#[derive(Debug, Drop)]
pub enum MachineFault {
    /// The file of this name could not be opened or read.
    CannotRead(String),
    /// The file of this name is longer than the limit.
    TooLong(String),
    /// A write to standard output, or to a file to be stored, failed.
    CannotWrite,
    /// Memory ran out.
    NoMemory,
    /// The thread of a planner could not be started.
    NoThread,
    /// A planner was refused a place at the desk.
    NoPlace,
    /// The file of this name, in which the minutes should be stored, is not empty.
    MinutesExist(String),
}

impl Fault {
    /// Returns the exit status of the program.
    pub fn status(&self) -> u8
        ensures { result ≡ status_of self.now }
    {
        match self {
            Fault::Contents(_) => 1,
            Fault::Usage(_) => 2,
            Fault::Machine(_) => 3,
        }
    }

    /// Returns the line that says where and why a text is refused, as
    /// `FILE:LINE:COLUMN: CODE: SENTENCE` and a line feed. It is empty for any other fault.
    pub fn point(&self) -> &str
        ensures { result.now ≡ point_of self.now }
    {
        match self {
            Fault::Contents(met) => met.point(),
            Fault::Usage(_) | Fault::Machine(_) => "",
        }
    }
}

impl ContentsFault {
    /// Returns the line that says where and why a text is refused, or an empty text.
    fn point(&self) -> &str
        ensures { result.now ≡ contents_point self.now }
    {
        match self {
            ContentsFault::Instance { point, .. }
            | ContentsFault::Solution { point, .. }
            | ContentsFault::Barred { point, .. }
            | ContentsFault::Blocked { point, .. }
            | ContentsFault::Journal { point, .. }
            | ContentsFault::Pairs { point, .. } => point,
            _ => "",
        }
    }
}

impl From<ContentsFault> for Fault {
    ghost from_gives = { λ met fault. fault ≡ Contents met };

    fn from(met: ContentsFault) -> Fault {
        Fault::Contents(met)
    }
}

impl From<UsageFault> for Fault {
    ghost from_gives = { λ met fault. fault ≡ Usage met };

    fn from(met: UsageFault) -> Fault {
        Fault::Usage(met)
    }
}

impl From<MachineFault> for Fault {
    ghost from_gives = { λ met fault. fault ≡ Machine met };

    fn from(met: MachineFault) -> Fault {
        Fault::Machine(met)
    }
}

impl From<ctt_problem::NoMemory> for Fault {
    ghost from_gives = { λ _ fault. fault ≡ Machine NoMemory };

    fn from(_fault: ctt_problem::NoMemory) -> Fault {
        Fault::Machine(MachineFault::NoMemory)
    }
}

impl From<AllocError> for Fault {
    ghost from_gives = { λ _ fault. fault ≡ Machine NoMemory };

    fn from(_error: AllocError) -> Fault {
        Fault::Machine(MachineFault::NoMemory)
    }
}

impl<T: Drop> From<AllocFailed<T>> for Fault {
    ghost from_gives = { λ _ fault. fault ≡ Machine NoMemory };

    fn from(_error: AllocFailed<T>) -> Fault {
        Fault::Machine(MachineFault::NoMemory)
    }
}
