//! Lines that say where and why a text is refused.

ghost use Rattle.std.specs.Prelude.{◌≡◌, ◌++◌, IfOk, codes, if◌then◌else◌, option_map, unwrap_or};
ghost use Rattle.std.specs.String.{string_bytes};
ghost use Rattle.ctt_text.specs.Points.{about, byte_point, encoding_said, has_byte_mark, is_utf16, is_utf32, no_day, no_period, not_number, other_word, point_line, wide_said, word_point};
ghost use Rattle.ctt_text.specs.Words.{words};

use crate::places::{nth_word, place_text, word_place};
use crate::shown::shown_word;
use std::alloc::{AllocError, Global};

/// What is said of a text that begins with a byte order mark.
const BYTE_MARK_SAID: &str = "the file begins with a byte order mark";

/// Returns the line of a fault after these bytes.
fn point_line(
    alloc: Global,
    file: &str,
    front: &[u8],
    code: &str,
    sentence: &str,
) -> Result<String, AllocError>
    ensures { IfOk result (λ line. string_bytes line
        ≡ point_line file.now front.now code.now sentence.now) }
{
    let place = place_text(alloc, file, front)?;
    format!(in alloc; "{place}{code}: {sentence}\n")
}

/// Returns whether a text begins with a byte order mark.
fn has_byte_mark(text: &[u8]) -> bool
    ensures { result ≡ has_byte_mark text.now }
{
    text.starts_with(&[0xEF, 0xBB, 0xBF])
}

/// Returns whether a text begins as one of UTF-16 does.
fn is_utf16(text: &[u8]) -> bool
    ensures { result ≡ is_utf16 text.now }
{
    text.starts_with(&[0xFF, 0xFE]) || text.starts_with(&[0xFE, 0xFF])
}

/// Returns whether a text begins as one of UTF-32 does.
fn is_utf32(text: &[u8]) -> bool
    ensures { result ≡ is_utf32 text.now }
{
    text.starts_with(&[0xFF, 0xFE, 0, 0]) || text.starts_with(&[0, 0, 0xFE, 0xFF])
}

/// Returns what is said of a text that begins as one of UTF-32 or of UTF-16 does.
fn wide_said(text: &[u8]) -> Option<&'static str>
    ensures { option_map (λ said. said.now) result ≡ wide_said text.now }
{
    if is_utf32(text) {
        Some("the file is UTF-32, not UTF-8")
    } else if is_utf16(text) {
        Some("the file is UTF-16, not UTF-8")
    } else {
        None
    }
}

/// Returns what is said of a text by how it begins.
pub fn encoding_said(text: &[u8]) -> Option<&'static str>
    ensures { option_map (λ said. said.now) result ≡ encoding_said text.now }
{
    if has_byte_mark(text) {
        Some(BYTE_MARK_SAID)
    } else {
        wide_said(text)
    }
}

/// Returns what is said of a text that is not UTF-8.
fn not_text_said(text: &[u8]) -> &'static str
    ensures { result.now ≡ unwrap_or (wide_said text.now) (codes "not UTF-8 from this byte on") }
{
    match wide_said(text) {
        Some(said) => said,
        None => "not UTF-8 from this byte on",
    }
}

/// Returns the line of a fault of the word of this number, counted from 1. If the file begins with
/// a byte order mark, that is what is wrong with its first word.
pub fn word_point(
    alloc: Global,
    file: &str,
    text: &[u8],
    code: &str,
    at: u64,
    sentence: &str,
) -> Result<String, AllocError>
    ensures { IfOk result (λ line. string_bytes line
        ≡ word_point file.now text.now code.now at sentence.now) }
{
    let front = &text[..word_place(text, at)];
    if has_byte_mark(text) && at == 1 {
        point_line(alloc, file, front, code, BYTE_MARK_SAID)
    } else {
        point_line(alloc, file, front, code, sentence)
    }
}

/// Returns the line of a fault of the word of this number in this entry.
pub(crate) fn entry_point(
    alloc: Global,
    file: &str,
    text: &[u8],
    code: &str,
    at: u64,
    entry: &str,
    sentence: &str,
) -> Result<String, AllocError>
    ensures { IfOk result (λ line. string_bytes line
        ≡ word_point file.now text.now code.now at (entry.now ++ sentence.now)) }
{
    let said = format!(in alloc; "{entry}{sentence}")?;
    word_point(alloc, file, text, code, at, &said)
}

/// Returns the line of a text that is not UTF-8 after its first `at` bytes.
pub fn byte_point(
    alloc: Global,
    file: &str,
    text: &[u8],
    code: &str,
    at: u64,
) -> Result<String, AllocError>
    ensures { IfOk result (λ line. string_bytes line ≡ byte_point file.now text.now code.now at) }
{
    let front = &text[..at.min(text.len() as u64) as usize];
    point_line(alloc, file, front, code, not_text_said(text))
}

/// Returns a sentence that says what is wrong, and then shows the word.
pub fn about(alloc: Global, wrong: &str, text: &[u8], at: u64) -> Result<String, AllocError>
    ensures { IfOk result (λ sentence. string_bytes sentence ≡ about wrong.now (words text.now) at) }
{
    let word = shown_word(alloc, nth_word(text, at))?;
    format!(in alloc; "{wrong}{word}")
}

/// Returns a sentence that says what is expected in the place of a word.
pub(crate) fn other_word(
    alloc: Global,
    expected: &str,
    text: &[u8],
    at: u64,
) -> Result<String, AllocError>
    ensures { IfOk result (λ sentence. string_bytes sentence
        ≡ other_word expected.now (words text.now) at) }
{
    let found = about(alloc, ", found ", text, at)?;
    format!(in alloc; "expected {expected}{found}")
}

/// Returns the sentence for a day that there is not.
pub(crate) fn no_day(alloc: Global, text: &[u8], at: u64) -> Result<String, AllocError>
    ensures { IfOk result (λ sentence. string_bytes sentence ≡ no_day (words text.now) at) }
{
    let day = about(alloc, "no day ", text, at)?;
    format!(in alloc; "{day}: days count from 0")
}

/// Returns the sentence for a period that there is not.
pub(crate) fn no_period(alloc: Global, text: &[u8], at: u64) -> Result<String, AllocError>
    ensures { IfOk result (λ sentence. string_bytes sentence ≡ no_period (words text.now) at) }
{
    let period = about(alloc, "no period ", text, at)?;
    format!(in alloc; "{period}: periods count from 0")
}

/// Returns the sentence for a word that is not a number.
pub(crate) fn not_number(alloc: Global, text: &[u8], at: u64) -> Result<String, AllocError>
    ensures { IfOk result (λ sentence. string_bytes sentence ≡ not_number (words text.now) at) }
{
    about(alloc, "not a number up to 999,999,999: ", text, at)
}
