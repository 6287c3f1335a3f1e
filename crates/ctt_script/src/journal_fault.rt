//! Why a journal could not be parsed.

ghost use Rattle.std.specs.Prelude.{◌≡◌, IfOk};
ghost use Rattle.std.specs.String.{string_bytes};
ghost use Rattle.ctt_script.specs.JournalFaults.{fault_of_word, journal_point, journal_sentence};
ghost use Rattle.ctt_script.specs.declared.journal_fault.JournalFault.TheVariants as journal_fault;
ghost use Rattle.ctt_text.specs.Words.{words};

use ctt_text::{NoMemory, TextFault, WordFault, about, byte_point, word_point};
use std::alloc::{AllocError, AllocFailed, Global};
use thiserror::Error;

/// Why a journal could not be parsed. Words are counted from 1.
#[derive(Clone, Copy, Debug, PartialEq, Eq, Error)]
pub enum JournalFault {
    /// The text is not UTF-8; this is the length in bytes of its longest valid prefix.
    #[error("journal J1 {0}")]
    NotText(u64),
    /// The text ends before this word, which is missing.
    #[error("journal J2 {0}")]
    Missing(u64),
    /// This word is not allowed in its place.
    #[error("journal J3 {0}")]
    BadWord(u64),
    /// There is not enough memory.
    #[error("no memory")]
    NoMemory,
}

impl JournalFault {
    /// Returns what is wrong with the word.
    fn sentence(&self, alloc: Global, text: &[u8]) -> Result<String, AllocError>
        ensures { IfOk result (λ sentence. string_bytes sentence
            ≡ journal_sentence (words text.now) self.now) }
    {
        match self {
            JournalFault::Missing(_) => String::from_str(alloc, "the words end before END."),
            JournalFault::BadWord(at) => about(alloc, "not valid here: ", text, *at),
            JournalFault::NotText(_) | JournalFault::NoMemory => {
                String::from_str(alloc, "no memory")
            }
        }
    }

    /// Returns the line that says where and why the journal or the minutes in this file are
    /// refused: `FILE:LINE:COLUMN: CODE: SENTENCE`.
    pub fn point(&self, alloc: Global, file: &str, text: &[u8]) -> Result<String, AllocError>
        ensures { IfOk result (λ line. string_bytes line
            ≡ journal_point file.now text.now self.now) }
    {
        let (code, at) = match self {
            JournalFault::NotText(at) => return byte_point(alloc, file, text, "J1", *at),
            JournalFault::Missing(at) => ("J2", *at),
            JournalFault::BadWord(at) => ("J3", *at),
            JournalFault::NoMemory => ("memory", 0),
        };
        let sentence = self.sentence(alloc, text)?;
        word_point(alloc, file, text, code, at, &sentence)
    }
}

impl From<AllocError> for JournalFault {
    ghost from_gives = { λ _ e. e ≡ journal_fault.NoMemory };

    fn from(_e: AllocError) -> JournalFault {
        JournalFault::NoMemory
    }
}

impl From<NoMemory> for JournalFault {
    ghost from_gives = { λ _ e. e ≡ journal_fault.NoMemory };

    fn from(_e: NoMemory) -> JournalFault {
        JournalFault::NoMemory
    }
}

impl<T: Drop> From<AllocFailed<T>> for JournalFault {
    ghost from_gives = { λ _ e. e ≡ journal_fault.NoMemory };

    fn from(_e: AllocFailed<T>) -> JournalFault {
        JournalFault::NoMemory
    }
}

impl TextFault for JournalFault {
    ghost of_word = { fault_of_word };

    fn of_word(fault: WordFault, at: u64) -> JournalFault {
        match fault {
            WordFault::Missing => JournalFault::Missing(at),
            _ => JournalFault::BadWord(at),
        }
    }
}
