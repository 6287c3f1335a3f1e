//! The command `where`: the place of a word or a byte in a text.

ghost use Rattle.std.specs.Prelude.{◌≡◌, ◌⊎◌, ◌++◌, ◌≤◌, ◌<◌, false, true, length, take, IfOk, IfErr, OnOk};
ghost use Rattle.std.specs.String.{string_bytes};
ghost use Rattle.ctt_files.specs.declared.fault.ContentsFault.TheVariants.{Ends};
ghost use Rattle.ctt_files.specs.declared.fault.Fault.TheVariants.{Contents, Machine};
ghost use Rattle.ctt_files.specs.declared.fault.MachineFault.TheVariants.{NoMemory as OutOfMemory};
ghost use Rattle.ctt_commands.specs.Commands.{IsDoneAlone};
ghost use Rattle.ctt_text.specs.TextPlaces.{last_line};
ghost use Rattle.ctt_commands.specs.Places.{IsUnfound, ShowsPlace, byte_text, end_line, marked_line, no_number, place_number, shown_place};

use crate::places::push_below;
use ctt_files::{ContentsFault, Fault, MachineFault, Outcome, Output};
use ctt_text::{first_line, last_line, number, place_text, word_at, word_place};
use std::alloc::{AllocError, Global};

/// Returns the number that asks for a place: of a byte, from 0, or of a word, from 1.
pub(crate) fn place_number(asked: &[u8], byte: bool) -> Option<u32>
    ensures { result ≡ place_number byte asked.now }
{
    let number = number(asked)?;
    if byte || number > 0 {
        Some(number)
    } else {
        None
    }
}

/// Returns the fault that what is asked for is no such number.
pub(crate) fn no_number(asked: String, file: String, byte: bool) -> Fault
    ensures { result ≡ no_number byte asked file }
{
    if byte {
        Fault::Contents(ContentsFault::NoByte { byte: asked, file })
    } else {
        Fault::Contents(ContentsFault::NoWord { word: asked, file })
    }
}

/// Adds the line around a place, and a mark below the character there.
fn push_marked(line: &mut Vec<u8>, text: &[u8], lead: &[u8], start: usize) -> Result<(), AllocError>
    requires within { start ≤ length text.now }
    requires lead { lead.now ≡ last_line (take start text.now) }
    ensures { OnOk result (line.new.items ≡ line.old.items ++ marked_line text.now start) }
{
    line.extend_from_slice(lead)?;
    line.extend_from_slice(first_line(&text[start..]))?;
    line.push(b'\n')?;
    push_below(line, lead)?;
    line.extend_from_slice(b"^\n")
}

/// Returns a place in a text with what is there, its line, and a mark below it.
fn shown_place(
    alloc: Global,
    file: &str,
    text: &[u8],
    start: usize,
    what: &[u8],
) -> Result<Vec<u8>, AllocError>
    requires { start ≤ length text.now }
    ensures { IfOk result (λ shown. shown.items ≡ shown_place file.now text.now start what.now) }
{
    let lead = last_line(alloc, &text[..start])?;
    let mut shown = place_text(alloc, file, &text[..start])?.into_bytes();
    shown.extend_from_slice(what)?;
    shown.push(b'\n')?;
    push_marked(&mut shown, text, &lead, start)?;
    Ok(shown)
}

/// Returns a byte in hexadecimal.
fn byte_text(alloc: Global, byte: u8) -> Result<String, AllocError>
    ensures { IfOk result (λ text. string_bytes text ≡ byte_text byte) }
{
    format!(in alloc; "0x{:x}{:x}", byte / 16, byte % 16)
}

/// Returns the line of where a text ends that has too few words.
fn words_end(alloc: Global, file: &str, text: &[u8], number: u32) -> Result<String, AllocError>
    ensures { IfOk result (λ line. string_bytes line ≡ end_line file.now text.now number false) }
{
    let end = word_place(text, u64::from(number));
    let place = place_text(alloc, file, &text[..end])?;
    format!(in alloc; "{place}the words end here, before word {number}\n")
}

/// Returns the line of where a text ends that has too few bytes.
fn bytes_end(alloc: Global, file: &str, text: &[u8], number: u32) -> Result<String, AllocError>
    ensures { IfOk result (λ line. string_bytes line ≡ end_line file.now text.now number true) }
{
    let place = place_text(alloc, file, text)?;
    format!(in alloc; "{place}the bytes end here, before byte {number}\n")
}

/// Returns the fault of a text that ends at the place of this line.
fn end_fault(line: Result<String, AllocError>) -> Fault
    ensures told { IfOk line (λ text. result ≡ Contents (Ends text)) }
    ensures memory { IfErr line (λ error. result ≡ Machine OutOfMemory) }
{
    match line {
        Ok(text) => Fault::Contents(ContentsFault::Ends(text)),
        Err(_) => Fault::Machine(MachineFault::NoMemory),
    }
}

/// Finds a word by its number.
fn find_word(alloc: Global, file: &str, text: &[u8], number: u32) -> Result<Output, Fault>
    ensures shows { IfOk result (λ output.
        ShowsPlace file.now number false output.text.items text.now) }
    ensures alone { IfOk result IsDoneAlone }
    ensures cause { IfErr result (IsUnfound file.now text.now number false) }
{
    let Some((start, end)) = word_at(text, u64::from(number)) else {
        return Err(end_fault(words_end(alloc, file, text, number)));
    };
    let shown = shown_place(alloc, file, text, start, &text[start..end])?;
    Ok(Output::new(alloc, shown, Outcome::Done))
}

/// Finds a byte by its number.
fn find_byte(alloc: Global, file: &str, text: &[u8], number: u32) -> Result<Output, Fault>
    ensures shows { IfOk result (λ output.
        ShowsPlace file.now number true output.text.items text.now) }
    ensures alone { IfOk result IsDoneAlone }
    ensures cause { IfErr result (IsUnfound file.now text.now number true) }
{
    let start = number as usize;
    if start >= text.len() {
        return Err(end_fault(bytes_end(alloc, file, text, number)));
    }
    let what = byte_text(alloc, text[start])?;
    let shown = shown_place(alloc, file, text, start, what.as_bytes())?;
    Ok(Output::new(alloc, shown, Outcome::Done))
}

/// Returns the place of a word in a text, as `FILE:LINE:COLUMN: WORD`, then its line, and a mark
/// below the word; or that of a byte. Words, lines and columns are counted from 1, bytes from 0, and
/// columns are characters.
pub(crate) fn find(
    alloc: Global,
    file: &str,
    text: &[u8],
    number: u32,
    byte: bool,
) -> Result<Output, Fault>
    ensures shows { IfOk result (λ output.
        ShowsPlace file.now number byte output.text.items text.now) }
    ensures alone { IfOk result IsDoneAlone }
    ensures cause { IfErr result (IsUnfound file.now text.now number byte) }
{
    if byte {
        find_byte(alloc, file, text, number)
    } else {
        find_word(alloc, file, text, number)
    }
}
