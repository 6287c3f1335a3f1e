//! Where and why the texts of instances and solutions are refused.

ghost use Rattle.std.specs.Prelude.{◌≡◌, ◌++◌, IfOk, codes};
ghost use Rattle.std.specs.String.{string_bytes};
ghost use Rattle.ctt_text.specs.Points.{instance_point, instance_sentence, is_extended, solution_point, solution_sentence, unexpected};
ghost use Rattle.ctt_text.specs.Sections.{section_of, unended};
ghost use Rattle.ctt_text.specs.Words.{words};

use crate::entries::{instance_entry, lecture_entry};
use crate::fault::{ReadFault, SolutionFault};
use crate::places::nth_word;
use crate::point::{about, byte_point, entry_point, no_day, no_period, not_number, other_word};
use crate::sections::{fixed_word, limit, section_of, unended};
use std::alloc::{AllocError, Global};

/// Returns whether a word is a label that only the extended format has.
fn is_extended(text: &[u8], at: u64) -> bool
    ensures { result ≡ is_extended (words text.now) at }
{
    at == 13 && nth_word(text, at) == "Min_Max_Daily_Lectures:".as_bytes()
}

/// Returns the sentence for an instance that lacks a word.
fn missing(alloc: Global, text: &[u8], at: u64) -> Result<String, AllocError>
    ensures { IfOk result (λ sentence. string_bytes sentence ≡ codes "the words end "
        ++ unended (section_of at (words text.now)).0 (section_of at (words text.now)).1) }
{
    let (section, place) = section_of(text, at);
    let end = unended(section, place);
    format!(in alloc; "the words end {end}")
}

/// Returns the sentence for a word of an instance that is not the fixed one of its place.
fn unexpected(alloc: Global, text: &[u8], at: u64) -> Result<String, AllocError>
    ensures { IfOk result (λ sentence. string_bytes sentence ≡ unexpected (words text.now) at) }
{
    if is_extended(text, at) {
        return String::from_str(
            alloc,
            "this is the extended format (.ectt), which is not read",
        );
    }
    let (section, place) = section_of(text, at);
    other_word(alloc, fixed_word(section, place), text, at)
}

impl ReadFault {
    /// Returns what is wrong with the word.
    fn sentence(&self, alloc: Global, text: &[u8]) -> Result<String, AllocError>
        ensures { IfOk result (λ sentence. string_bytes sentence
            ≡ instance_sentence (words text.now) self.now) }
    {
        match self {
            ReadFault::Missing(at) => missing(alloc, text, *at),
            ReadFault::Expected(at) => unexpected(alloc, text, *at),
            ReadFault::BadNumber(at) => not_number(alloc, text, *at),
            ReadFault::TooLarge(at) => about(alloc, limit(*at), text, *at),
            ReadFault::RepeatedName(at) => {
                about(alloc, "a name that is there already: ", text, *at)
            }
            ReadFault::UnknownCourse(at) => about(alloc, "no course ", text, *at),
            ReadFault::DayOut(at) => no_day(alloc, text, *at),
            ReadFault::PeriodOut(at) => no_period(alloc, text, *at),
            ReadFault::NotText(_) | ReadFault::NoMemory => String::from_str(alloc, "no memory"),
        }
    }

    /// Returns the line that says where and why the text of this file is refused:
    /// `FILE:LINE:COLUMN: CODE: ENTRY: SENTENCE`.
    pub fn point(&self, alloc: Global, file: &str, text: &[u8]) -> Result<String, AllocError>
        ensures { IfOk result (λ line. string_bytes line
            ≡ instance_point file.now text.now self.now) }
    {
        if let ReadFault::NotText(at) = self {
            return byte_point(alloc, file, text, "I1", *at);
        }
        let entry = instance_entry(alloc, text, self.at())?;
        let sentence = self.sentence(alloc, text)?;
        entry_point(alloc, file, text, self.code(), self.at(), &entry, &sentence)
    }
}

impl SolutionFault {
    /// Returns what is wrong with the word.
    fn sentence(&self, alloc: Global, text: &[u8]) -> Result<String, AllocError>
        ensures { IfOk result (λ sentence. string_bytes sentence
            ≡ solution_sentence (words text.now) self.now) }
    {
        match self {
            SolutionFault::Cut(_) => {
                String::from_str(alloc, "the words end in an entry, which has four")
            }
            SolutionFault::UnknownCourse(at) => about(alloc, "no course ", text, *at),
            SolutionFault::UnknownRoom(at) => about(alloc, "no room ", text, *at),
            SolutionFault::BadNumber(at) => not_number(alloc, text, *at),
            SolutionFault::DayOut(at) => no_day(alloc, text, *at),
            SolutionFault::PeriodOut(at) => no_period(alloc, text, *at),
            SolutionFault::Repeated(at) => about(
                alloc,
                "the course has a lecture in this slot already: period ",
                text,
                *at,
            ),
            SolutionFault::NotText(_) | SolutionFault::NoMemory => {
                String::from_str(alloc, "no memory")
            }
        }
    }

    /// Returns the line that says where and why the text of this file is refused:
    /// `FILE:LINE:COLUMN: CODE: ENTRY: SENTENCE`.
    pub fn point(&self, alloc: Global, file: &str, text: &[u8]) -> Result<String, AllocError>
        ensures { IfOk result (λ line. string_bytes line
            ≡ solution_point file.now text.now self.now) }
    {
        if let SolutionFault::NotText(at) = self {
            return byte_point(alloc, file, text, "S1", *at);
        }
        let entry = lecture_entry(alloc, self.at())?;
        let sentence = self.sentence(alloc, text)?;
        entry_point(alloc, file, text, self.code(), self.at(), &entry, &sentence)
    }
}
