//! The codes of faults, as the documents have them.

ghost use Rattle.std.specs.Prelude.{◌≡◌};
ghost use Rattle.ctt_text.specs.FaultCodes.{barred_at, barred_code, barred_told, blocked_at, blocked_code, blocked_told, instance_at, instance_code, instance_told, solution_at, solution_code, solution_told};

use crate::fault::{BarredFault, BlockedFault, ReadFault, SolutionFault};

impl ReadFault {
    /// Returns the code of the fault, and the number of the word or byte.
    fn told(&self) -> (&'static str, u64)
        ensures code { result.0.now ≡ (instance_told self.now).0 }
        ensures at { result.1 ≡ (instance_told self.now).1 }
    {
        match self {
            ReadFault::NotText(at) => ("I1", *at),
            ReadFault::Missing(at) => ("I2", *at),
            ReadFault::Expected(at) => ("I3", *at),
            ReadFault::BadNumber(at) => ("I4", *at),
            ReadFault::TooLarge(at) => ("I5", *at),
            ReadFault::RepeatedName(at) => ("I6", *at),
            ReadFault::UnknownCourse(at) => ("I7", *at),
            ReadFault::DayOut(at) => ("I8", *at),
            ReadFault::PeriodOut(at) => ("I9", *at),
            ReadFault::NoMemory => ("memory", 0),
        }
    }

    /// Returns the code of the fault. Running out of memory has none of its own, and gives
    /// `memory`.
    pub fn code(&self) -> &'static str
        ensures { result.now ≡ instance_code self.now }
    {
        self.told().0
    }

    /// Returns the number of the word, or of the bytes that are valid. It is 0 if memory ran out.
    pub fn at(&self) -> u64
        ensures { result ≡ instance_at self.now }
    {
        self.told().1
    }
}

impl SolutionFault {
    /// Returns the code of the fault, and the number of the word or byte.
    fn told(&self) -> (&'static str, u64)
        ensures code { result.0.now ≡ (solution_told self.now).0 }
        ensures at { result.1 ≡ (solution_told self.now).1 }
    {
        match self {
            SolutionFault::NotText(at) => ("S1", *at),
            SolutionFault::Cut(at) => ("S2", *at),
            SolutionFault::UnknownCourse(at) => ("S3", *at),
            SolutionFault::UnknownRoom(at) => ("S4", *at),
            SolutionFault::BadNumber(at) => ("S5", *at),
            SolutionFault::DayOut(at) => ("S6", *at),
            SolutionFault::PeriodOut(at) => ("S7", *at),
            SolutionFault::Repeated(at) => ("S8", *at),
            SolutionFault::NoMemory => ("memory", 0),
        }
    }

    /// Returns the code of the fault. Running out of memory has none of its own, and gives
    /// `memory`.
    pub fn code(&self) -> &'static str
        ensures { result.now ≡ solution_code self.now }
    {
        self.told().0
    }

    /// Returns the number of the word, or of the bytes that are valid. It is 0 if memory ran out.
    pub fn at(&self) -> u64
        ensures { result ≡ solution_at self.now }
    {
        self.told().1
    }
}

impl BarredFault {
    /// Returns the code of the fault, and the number of the word or byte.
    fn told(&self) -> (&'static str, u64)
        ensures code { result.0.now ≡ (barred_told self.now).0 }
        ensures at { result.1 ≡ (barred_told self.now).1 }
    {
        match self {
            BarredFault::NotText(at) => ("B1", *at),
            BarredFault::Missing(at) => ("B2", *at),
            BarredFault::Expected(at) => ("B3", *at),
            BarredFault::BadNumber(at) => ("B4", *at),
            BarredFault::TooLarge(at) => ("B5", *at),
            BarredFault::UnknownCourse(at) => ("B6", *at),
            BarredFault::UnknownRoom(at) => ("B7", *at),
            BarredFault::NoMemory => ("memory", 0),
        }
    }

    /// Returns the code of the fault. Running out of memory has none of its own, and gives
    /// `memory`.
    pub fn code(&self) -> &'static str
        ensures { result.now ≡ barred_code self.now }
    {
        self.told().0
    }

    /// Returns the number of the word, or of the bytes that are valid. It is 0 if memory ran out.
    pub fn at(&self) -> u64
        ensures { result ≡ barred_at self.now }
    {
        self.told().1
    }
}

impl BlockedFault {
    /// Returns the code of the fault, and the number of the word or byte.
    fn told(&self) -> (&'static str, u64)
        ensures code { result.0.now ≡ (blocked_told self.now).0 }
        ensures at { result.1 ≡ (blocked_told self.now).1 }
    {
        match self {
            BlockedFault::NotText(at) => ("L1", *at),
            BlockedFault::Missing(at) => ("L2", *at),
            BlockedFault::Expected(at) => ("L3", *at),
            BlockedFault::BadNumber(at) => ("L4", *at),
            BlockedFault::TooLarge(at) => ("L5", *at),
            BlockedFault::UnknownName(at) => ("L6", *at),
            BlockedFault::DayOut(at) => ("L7", *at),
            BlockedFault::PeriodOut(at) => ("L8", *at),
            BlockedFault::NoMemory => ("memory", 0),
        }
    }

    /// Returns the code of the fault. Running out of memory has none of its own, and gives
    /// `memory`.
    pub fn code(&self) -> &'static str
        ensures { result.now ≡ blocked_code self.now }
    {
        self.told().0
    }

    /// Returns the number of the word, or of the bytes that are valid. It is 0 if memory ran out.
    pub fn at(&self) -> u64
        ensures { result ≡ blocked_at self.now }
    {
        self.told().1
    }
}
