//! The first wrong word of a line.

ghost use Rattle.std.specs.Prelude.{◌≡◌, ◌++◌, [], OnOk, string_bytes};
ghost use Rattle.ctt_text.specs.Words.{words};
ghost use Rattle.ctt_office.specs.BadWords.{bad_word, bad_word_line, first_untext};

use ctt_line::{Word, push_words};
use ctt_text::{Reader, Words};
use std::alloc::AllocError;
use std::marker::Model;

/// The first wrong word of a line, with its number, counted from 1. The word is empty if the line
/// ends too early, or if the word is not UTF-8.
#[derive(Drop)]
pub struct BadWord<'a> {
    at: u64,
    word: &'a str,
}

impl<'a> Model for BadWord<'a> {
    ghost use Rattle.ctt_office.specs.BadWords.{BadValue};

    ghost Value = { BadValue };

    ghost view = { λ b. record { at = b.at; word = b.word.now } };
}

impl<'a> BadWord<'a> {
    /// Returns the word of a text with this number, counted from 1.
    pub(crate) fn of(text: &'a str, at: u64) -> Self
        ensures { result ≡ bad_word at (words text.now) }
    {
        let mut reader = Reader::new(text);
        for _ in 1..at {
            let Some(_) = reader.word() else {
                return BadWord { at, word: "" };
            };
        }
        match reader.word() {
            Some(word) => BadWord { at, word },
            None => BadWord { at, word: "" },
        }
    }

    /// Returns the first word of a line that is not UTF-8, by its number alone.
    pub(crate) fn first_untext(line: &[u8]) -> Self
        ensures { result ≡ record { at = first_untext 1 (words line.now); word = [] } }
    {
        let at = first_untext(line);
        BadWord { at, word: "" }
    }

    /// Adds the answer to the line.
    pub(crate) fn write(&self, text: &mut String) -> Result<(), AllocError>
        ensures { OnOk result (string_bytes text.new
            ≡ string_bytes text.old ++ bad_word_line self.now) }
    {
        text.push_str("bad line")?;
        push_words(text, &[Word::number(self.at)])?;
        if !self.word.is_empty() {
            push_words(text, &[Word::text(self.word)])?;
        }
        text.push('\n')
    }
}

/// Returns the number of the first word that is not UTF-8, counted from 1.
fn first_untext(line: &[u8]) -> u64
    ensures { result ≡ first_untext 1 (words line.now) }
{
    let _len = line.len();
    let mut at = 1;
    for word in Words::new(line) {
        match str::from_utf8(word) {
            Ok(_) => at += 1,
            Err(_) => return at,
        }
    }
    at
}
