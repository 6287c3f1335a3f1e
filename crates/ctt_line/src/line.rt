//! Appending words and lines to a text.

ghost use Rattle.std.specs.Prelude.{◌≡◌, ◌++◌, OnOk, string_bytes};
ghost use Rattle.ctt_line.specs.Lines.{line, rest_of_line, words_part};

use crate::word::{Form, Word};
use itoa::Buffer;
use std::alloc::AllocError;

/// Appends a word.
#[inline(always)]
#[tactic(auto, using(std::proofs::lemmas::Fmt::decimal_digit))]
fn push_word(text: &mut String, word: &Word<'_>) -> Result<(), AllocError>
    ensures { OnOk result (string_bytes text.new ≡ string_bytes text.old ++ word.now) }
{
    match word.form() {
        Form::Text(word) => text.push_str(word),
        Form::Number(number) if number < 10 => text.push((b'0' + number as u8) as char),
        Form::Number(number) => text.push_str(Buffer::new().format(number)),
        Form::Amount(amount) => text.push_str(Buffer::new().format(amount)),
    }
}

/// Appends words, with a blank before each.
#[inline(always)]
pub fn push_words(text: &mut String, words: &[Word<'_>]) -> Result<(), AllocError>
    ensures { OnOk result (string_bytes text.new
        ≡ string_bytes text.old ++ words_part words.now) }
{
    for word in words {
        text.push(' ')?;
        push_word(text, word)?;
    }
    Ok(())
}

/// Appends the rest of a line: words with a blank before each, and a line feed.
fn end_line(text: &mut String, words: &[Word<'_>]) -> Result<(), AllocError>
    ensures { OnOk result (string_bytes text.new
        ≡ string_bytes text.old ++ rest_of_line words.now) }
{
    for word in words {
        text.push(' ')?;
        push_word(text, word)?;
    }
    text.push('\n')
}

/// Appends a line: words separated by single blanks, and a line feed.
pub fn push_line(text: &mut String, words: &[Word<'_>]) -> Result<(), AllocError>
    ensures { OnOk result (string_bytes text.new ≡ string_bytes text.old ++ line words.now) }
{
    let Some((first, rest)) = words.split_first() else {
        return text.push('\n');
    };
    push_word(text, first)?;
    end_line(text, rest)
}
