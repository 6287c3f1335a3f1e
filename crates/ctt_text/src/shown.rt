//! Words as lines of faults show them.

ghost use Rattle.std.specs.Prelude.{◌≡◌, [], IfOk, Some, if◌then◌else◌};
ghost use Rattle.std.specs.Fmt.{take_chars};
ghost use Rattle.std.specs.Str.{is_utf8};
ghost use Rattle.std.specs.String.{string_bytes};
ghost use Rattle.ctt_text.specs.Points.{is_control, printable, printable_char, shown_word};

use std::alloc::{AllocError, Global};
use std::fmt;

/// Returns whether a character is a control character.
fn is_control(letter: char) -> bool
    ensures { result ≡ is_control letter }
{
    matches!(letter, '\0'..='\x1f' | '\x7f'..='\u{9f}')
}

/// A character, or a question mark in the place of a control character.
#[derive(Clone, Copy)]
struct PrintableChar(char);

impl fmt::Display for PrintableChar {
    ghost output = { λ letter. Some (printable_char letter.0) };

    fn fmt<W: fmt::Write>(&self, f: &mut fmt::Formatter<W>) -> fmt::Result {
        if is_control(self.0) {
            f.write_str("?")
        } else {
            f.write_char(self.0)
        }
    }
}

/// A text, with a question mark in the place of each control character.
#[derive(Clone, Copy)]
struct Printable<'a>(&'a str);

impl fmt::Display for Printable<'_> {
    ghost output = { λ text. Some (printable text.0.now) };

    fn fmt<W: fmt::Write>(&self, f: &mut fmt::Formatter<W>) -> fmt::Result {
        for letter in self.0.chars() {
            PrintableChar(letter).fmt(f)?;
        }
        Ok(())
    }
}

/// Returns a word as text, or an empty text if it is not UTF-8.
fn as_text(word: &[u8]) -> &str
    ensures { result.now ≡ (if is_utf8 word.now then word.now else []) }
{
    match str::from_utf8(word) {
        Ok(word) => word,
        Err(_) => "",
    }
}

/// Returns the first 40 characters of a text.
fn cut(alloc: Global, text: &str) -> Result<String, AllocError>
    ensures { IfOk result (λ cut. string_bytes cut ≡ take_chars 40 text.now) }
{
    format!(in alloc; "{text:.40}")
}

/// Returns a word as it is shown: its first 40 characters, with a question mark in the place of
/// each control character, or nothing if it is not UTF-8.
pub(crate) fn shown_word(alloc: Global, word: &[u8]) -> Result<String, AllocError>
    ensures { IfOk result (λ text. string_bytes text ≡ shown_word word.now) }
{
    let cut = cut(alloc, as_text(word))?;
    format!(in alloc; "{}", Printable(&cut))
}
