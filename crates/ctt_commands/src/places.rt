//! The mark below a word.

ghost use Rattle.std.specs.Prelude.{◌≡◌, ◌++◌, flat_map, chars, false, unwrap_or, OnOk};
ghost use Rattle.unicode_width.specs.Width.{char_width};
ghost use Rattle.ctt_commands.specs.Places.{below, below_byte, below_char};

use crate::aligned::push_blanks;
use ctt_text::begins_char;
use std::alloc::AllocError;
use unicode_width::UnicodeWidthChar;

/// Returns the columns that a character takes in a terminal.
fn char_columns(letter: char) -> usize
    ensures { result ≡ unwrap_or (char_width false letter) 0 }
{
    match letter.width() {
        Some(width) => width,
        None => 0,
    }
}

/// Adds what is below a character of a line.
fn push_below_char(text: &mut Vec<u8>, letter: char) -> Result<(), AllocError>
    ensures { OnOk result (text.new.items ≡ text.old.items ++ below_char letter) }
{
    if letter == '\t' {
        text.extend_from_slice(b"\t")
    } else {
        push_blanks(text, char_columns(letter))
    }
}

/// Adds what is below the characters of a line.
fn push_below_text(text: &mut Vec<u8>, line: &str) -> Result<(), AllocError>
    ensures { OnOk result (text.new.items
        ≡ text.old.items ++ flat_map below_char (chars line.now)) }
{
    for letter in line.chars() {
        push_below_char(text, letter)?;
    }
    Ok(())
}

/// Adds what is below the bytes of a line that is not UTF-8.
fn push_below_bytes(text: &mut Vec<u8>, line: &[u8]) -> Result<(), AllocError>
    ensures { OnOk result (text.new.items ≡ text.old.items ++ flat_map below_byte line.now) }
{
    for byte in line {
        if *byte == b'\t' {
            text.push(b'\t')?;
        } else if begins_char(*byte) {
            text.push(b' ')?;
        }
    }
    Ok(())
}

/// Adds what is below a line, up to the mark.
pub(crate) fn push_below(text: &mut Vec<u8>, line: &[u8]) -> Result<(), AllocError>
    ensures { OnOk result (text.new.items ≡ text.old.items ++ below line.now) }
{
    match str::from_utf8(line) {
        Ok(line) => push_below_text(text, line),
        Err(_) => push_below_bytes(text, line),
    }
}
