//! What can be wrong with a word, and the fault of each text for it.

ghost use Rattle.ctt_text.specs.WordFaults.{barred_fault, blocked_fault, instance_fault, solution_fault};

use crate::fault::{BarredFault, BlockedFault, ReadFault, SolutionFault};

/// What is wrong with the word at a place of a text.
#[derive(Clone, Copy, Debug, PartialEq, Eq)]
pub enum WordFault {
    /// The text ends before the word.
    Missing,
    /// The word is not the fixed word expected.
    OtherWord,
    /// The word is not a number.
    BadNumber,
    /// The number is above its limit.
    TooLarge,
    /// No course has this name.
    UnknownCourse,
    /// No room has this name.
    UnknownRoom,
    /// No teacher has this name.
    UnknownTeacher,
    /// The day is not below the number of days.
    DayOut,
    /// The period is not below the number of periods per day.
    PeriodOut,
}

/// The faults of a text. A text never asks for the fault of a kind of word that it does not have.
pub trait TextFault: Sized {
    ghost use Rattle.std.specs.Prelude.{ℕ, ◌≡◌};
    ghost use Rattle.ctt_text.specs.declared.text_fault.WordFault.{WordFault};

    /// The fault for what is wrong with the word of this number.
    ghost of_word: { WordFault → ℕ → Self };

    /// Returns the fault for what is wrong with a word. Words are counted from 1.
    fn of_word(fault: WordFault, at: u64) -> Self
        ensures { result ≡ of_word fault at };
}

impl TextFault for ReadFault {
    ghost of_word = { instance_fault };

    fn of_word(fault: WordFault, at: u64) -> ReadFault {
        match fault {
            WordFault::Missing => ReadFault::Missing(at),
            WordFault::BadNumber => ReadFault::BadNumber(at),
            WordFault::TooLarge => ReadFault::TooLarge(at),
            WordFault::UnknownCourse => ReadFault::UnknownCourse(at),
            WordFault::DayOut => ReadFault::DayOut(at),
            WordFault::PeriodOut => ReadFault::PeriodOut(at),
            WordFault::OtherWord | WordFault::UnknownRoom | WordFault::UnknownTeacher => {
                ReadFault::Expected(at)
            }
        }
    }
}

impl TextFault for SolutionFault {
    ghost of_word = { solution_fault };

    fn of_word(fault: WordFault, at: u64) -> SolutionFault {
        match fault {
            WordFault::Missing => SolutionFault::Cut(at),
            WordFault::UnknownCourse => SolutionFault::UnknownCourse(at),
            WordFault::UnknownRoom => SolutionFault::UnknownRoom(at),
            WordFault::DayOut => SolutionFault::DayOut(at),
            WordFault::PeriodOut => SolutionFault::PeriodOut(at),
            WordFault::BadNumber
            | WordFault::OtherWord
            | WordFault::TooLarge
            | WordFault::UnknownTeacher => SolutionFault::BadNumber(at),
        }
    }
}

impl TextFault for BarredFault {
    ghost of_word = { barred_fault };

    fn of_word(fault: WordFault, at: u64) -> BarredFault {
        match fault {
            WordFault::Missing => BarredFault::Missing(at),
            WordFault::OtherWord => BarredFault::Expected(at),
            WordFault::TooLarge => BarredFault::TooLarge(at),
            WordFault::UnknownCourse => BarredFault::UnknownCourse(at),
            WordFault::UnknownRoom => BarredFault::UnknownRoom(at),
            WordFault::BadNumber
            | WordFault::DayOut
            | WordFault::PeriodOut
            | WordFault::UnknownTeacher => BarredFault::BadNumber(at),
        }
    }
}

impl TextFault for BlockedFault {
    ghost of_word = { blocked_fault };

    fn of_word(fault: WordFault, at: u64) -> BlockedFault {
        match fault {
            WordFault::Missing => BlockedFault::Missing(at),
            WordFault::OtherWord => BlockedFault::Expected(at),
            WordFault::BadNumber => BlockedFault::BadNumber(at),
            WordFault::TooLarge => BlockedFault::TooLarge(at),
            WordFault::DayOut => BlockedFault::DayOut(at),
            WordFault::PeriodOut => BlockedFault::PeriodOut(at),
            WordFault::UnknownCourse | WordFault::UnknownRoom | WordFault::UnknownTeacher => {
                BlockedFault::UnknownName(at)
            }
        }
    }
}
