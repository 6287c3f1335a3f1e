//! Where and why the texts of side files are refused.

ghost use Rattle.std.specs.Prelude.{◌≡◌, ◌<◌, IfOk};
ghost use Rattle.std.specs.String.{string_bytes};
ghost use Rattle.ctt_text.specs.Points.{barred_point, barred_sentence, blocked_point, blocked_sentence, blocked_word, not_choice, side_end, unknown_name};
ghost use Rattle.ctt_text.specs.Words.{words};

use crate::entries::{closure_entry, pair_entry};
use crate::fault::{BarredFault, BlockedFault};
use crate::places::{nth_word, stated};
use crate::point::{about, byte_point, entry_point, no_day, no_period, not_number, other_word};
use crate::shown::shown_word;
use std::alloc::{AllocError, Global};

/// Returns the sentence for a side file that lacks a word, in which an entry has `len` words.
fn missing(
    alloc: Global,
    text: &[u8],
    at: u64,
    label: &str,
    len: u32,
    entry: &str,
) -> Result<String, AllocError>
    requires { 0 < len }
    ensures { IfOk result (λ sentence. string_bytes sentence
        ≡ side_end label.now len entry.now (words text.now) at) }
{
    let entries = 2 + u64::from(len) * u64::from(stated(text, 2));
    if at == 1 {
        format!(in alloc; "the words end before {label}")
    } else if at == 2 {
        String::from_str(alloc, "the words end before the number of entries")
    } else if entries < at {
        String::from_str(alloc, "the words end before END.")
    } else if at.saturating_sub(3) % u64::from(len) == 0 {
        format!(in alloc; "the words end before {entry}")
    } else {
        format!(in alloc; "the words end in {entry}")
    }
}

impl BarredFault {
    /// Returns what is wrong with the word.
    fn sentence(&self, alloc: Global, text: &[u8]) -> Result<String, AllocError>
        ensures { IfOk result (λ sentence. string_bytes sentence
            ≡ barred_sentence (words text.now) self.now) }
    {
        match self {
            BarredFault::Missing(at) => {
                missing(alloc, text, *at, "Barred:", 2, "a pair, which has two")
            }
            BarredFault::Expected(1) => other_word(alloc, "Barred:", text, 1),
            BarredFault::Expected(at) => other_word(alloc, "END.", text, *at),
            BarredFault::BadNumber(at) => not_number(alloc, text, *at),
            BarredFault::TooLarge(at) => about(alloc, "more than 2,000,000 pairs: ", text, *at),
            BarredFault::UnknownCourse(at) => about(alloc, "no course ", text, *at),
            BarredFault::UnknownRoom(at) => about(alloc, "no room ", text, *at),
            BarredFault::NotText(_) | BarredFault::NoMemory => {
                String::from_str(alloc, "no memory")
            }
        }
    }

    /// Returns the line that says where and why the text of this file is refused:
    /// `FILE:LINE:COLUMN: CODE: ENTRY: SENTENCE`.
    pub fn point(&self, alloc: Global, file: &str, text: &[u8]) -> Result<String, AllocError>
        ensures { IfOk result (λ line. string_bytes line
            ≡ barred_point file.now text.now self.now) }
    {
        if let BarredFault::NotText(at) = self {
            return byte_point(alloc, file, text, "B1", *at);
        }
        let entry = pair_entry(alloc, text, self.at())?;
        let sentence = self.sentence(alloc, text)?;
        entry_point(alloc, file, text, self.code(), self.at(), &entry, &sentence)
    }
}

/// Returns the word that closures have there: their label, their end, or the kinds of an entry.
fn blocked_word(text: &[u8], at: u64) -> &'static str
    ensures { result.now ≡ blocked_word (words text.now) at }
{
    if at == 1 {
        "Blocked:"
    } else if 2 + 4 * u64::from(stated(text, 2)) < at {
        "END."
    } else {
        "room, teacher or course"
    }
}

/// Returns the sentence for a number that an entry has in place of a day or a period.
fn not_choice(alloc: Global, text: &[u8], at: u64) -> Result<String, AllocError>
    ensures { IfOk result (λ sentence. string_bytes sentence
        ≡ not_choice (words text.now) at) }
{
    if at == 2 {
        not_number(alloc, text, at)
    } else {
        about(
            alloc,
            "neither * nor a number up to 999,999,999: ",
            text,
            at,
        )
    }
}

/// Returns the sentence for a name that its kind, the word before, does not have.
fn unknown_name(alloc: Global, text: &[u8], at: u64) -> Result<String, AllocError>
    ensures { IfOk result (λ sentence. string_bytes sentence
        ≡ unknown_name (words text.now) at) }
{
    let kind = shown_word(alloc, nth_word(text, at.saturating_sub(1)))?;
    let name = about(alloc, " ", text, at)?;
    format!(in alloc; "no {kind}{name}")
}

impl BlockedFault {
    /// Returns what is wrong with the word.
    fn sentence(&self, alloc: Global, text: &[u8]) -> Result<String, AllocError>
        ensures { IfOk result (λ sentence. string_bytes sentence
            ≡ blocked_sentence (words text.now) self.now) }
    {
        match self {
            BlockedFault::Missing(at) => {
                missing(alloc, text, *at, "Blocked:", 4, "an entry, which has four")
            }
            BlockedFault::Expected(at) => other_word(alloc, blocked_word(text, *at), text, *at),
            BlockedFault::BadNumber(at) => not_choice(alloc, text, *at),
            BlockedFault::TooLarge(at) => {
                about(alloc, "more than 2,000,000 entries: ", text, *at)
            }
            BlockedFault::UnknownName(at) => unknown_name(alloc, text, *at),
            BlockedFault::DayOut(at) => no_day(alloc, text, *at),
            BlockedFault::PeriodOut(at) => no_period(alloc, text, *at),
            BlockedFault::NotText(_) | BlockedFault::NoMemory => {
                String::from_str(alloc, "no memory")
            }
        }
    }

    /// Returns the line that says where and why the text of this file is refused:
    /// `FILE:LINE:COLUMN: CODE: ENTRY: SENTENCE`.
    pub fn point(&self, alloc: Global, file: &str, text: &[u8]) -> Result<String, AllocError>
        ensures { IfOk result (λ line. string_bytes line
            ≡ blocked_point file.now text.now self.now) }
    {
        if let BlockedFault::NotText(at) = self {
            return byte_point(alloc, file, text, "L1", *at);
        }
        let entry = closure_entry(alloc, text, self.at())?;
        let sentence = self.sentence(alloc, text)?;
        entry_point(alloc, file, text, self.code(), self.at(), &entry, &sentence)
    }
}
