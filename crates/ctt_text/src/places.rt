//! Places in a text: where a word is, and the line and the column of a place.

ghost use Rattle.std.specs.Prelude.{◌≡◌, ◌≤◌, ◌-◌, [], count_by, drop, position, slice_index_or, take, length, IfNone, IfSome, IfOk};
ghost use Rattle.std.specs.String.{string_bytes};
ghost use Rattle.ctt_text.specs.Numbers.{number_of};
ghost use Rattle.ctt_text.specs.Places.{meant};
ghost use Rattle.ctt_text.specs.Sections.{nth_word, stated};
ghost use Rattle.ctt_text.specs.TextPlaces.{HasNoWord, IsWordAt, before_word, begins_char, first_line, is_feed, last_line, place_text, through_words};
ghost use Rattle.ctt_text.specs.Words.{words};

use crate::numbers::number;
use crate::words::{Words, first_word, word_start};
use std::alloc::{AllocError, Global};

/// Returns the index at which the first `count` words end, or the last if there are fewer.
fn words_end(text: &[u8], count: u64) -> usize
    ensures within { result ≤ length text.now }
    ensures rest { words (drop result text.now) ≡ drop count (words text.now) }
    ensures front { take result text.now ≡ through_words count text.now }
{
    let mut end = 0;
    for _ in 0..count {
        let Some((_, len)) = first_word(&text[end..]) else {
            return end;
        };
        end += len;
    }
    end
}

/// Returns the indices at which the word of this number, counted from 1, begins and ends.
pub fn word_at(text: &[u8], number: u64) -> Option<(usize, usize)>
    ensures none { IfNone result (HasNoWord text.now number) }
    ensures found { IfSome result (λ at. IsWordAt text.now number at.0 at.1) }
{
    if number == 0 {
        return None;
    }
    let before = words_end(text, number - 1);
    let (start, end) = first_word(&text[before..])?;
    Some((before + start, before + end))
}

/// Returns the index at which the word of this number, counted from 1, begins. If it is missing,
/// this is where the last word ends.
pub fn word_place(text: &[u8], number: u64) -> usize
    ensures within { result ≤ length text.now }
    ensures place { take result text.now ≡ before_word number text.now }
{
    let before = words_end(text, number.saturating_sub(1));
    match word_start(&text[before..]) {
        Some(start) => before + start,
        None => before,
    }
}

/// Takes the first `count` words away, or all if there are fewer.
pub(crate) fn skip_words(words: &mut Words, count: u64)
    ensures { words.new ≡ drop count words.old }
{
    for _ in 0..count {
        let Some(_) = words.next() else {
            return;
        };
    }
}

/// Returns the word of this number, counted from 1, or an empty one if it is missing.
pub(crate) fn nth_word(text: &[u8], number: u64) -> &[u8]
    ensures { result.now ≡ nth_word number (words text.now) }
{
    let mut words = Words::new(text);
    skip_words(&mut words, number.saturating_sub(1));
    match words.next() {
        Some(word) => word,
        None => &[],
    }
}

/// Returns the number that this word states, or 0.
pub(crate) fn stated(text: &[u8], at: u64) -> u32
    ensures exact { result ≡ stated at (words text.now) }
    ensures bounded { result ≤ 999999999 }
{
    match number(nth_word(text, at)) {
        Some(number) => number,
        None => 0,
    }
}

/// Counts the line feeds.
pub fn count_feeds(text: &[u8]) -> usize
    ensures { result ≡ count_by is_feed text.now }
{
    text.iter().filter(|byte| **byte == b'\n').count()
}

/// Counts the characters.
pub fn count_chars(text: &[u8]) -> usize
    ensures { result ≡ count_by begins_char text.now }
{
    text.iter().filter(|byte| begins_char(**byte)).count()
}

/// Returns whether a byte begins a character of UTF-8.
pub fn begins_char(byte: u8) -> bool
    ensures { result ≡ begins_char byte }
{
    !(128..192).contains(&byte)
}

/// Returns the bytes after the last line feed.
pub fn last_line(alloc: Global, text: &[u8]) -> Result<Vec<u8>, AllocError>
    ensures { IfOk result (λ line. line.items ≡ last_line text.now) }
{
    let mut line = Vec::new(alloc);
    for byte in text {
        if *byte == b'\n' {
            line.clear();
        } else {
            line.push(*byte)?;
        }
    }
    Ok(line)
}

/// Returns the index of the first line feed.
fn feed_start(text: &[u8]) -> Option<usize>
    ensures { result ≡ position is_feed text.now }
{
    text.iter().position(|byte| *byte == b'\n')
}

/// Returns the bytes before the first line feed.
pub fn first_line(text: &[u8]) -> &[u8]
    ensures { result.now ≡ first_line text.now }
{
    match feed_start(text) {
        Some(end) => &text[..end],
        None => text,
    }
}

/// Returns the place after these bytes of a file, as `FILE:LINE:COLUMN: `. Lines and columns are
/// counted from 1, and columns are characters.
pub fn place_text(alloc: Global, file: &str, front: &[u8]) -> Result<String, AllocError>
    ensures { IfOk result (λ place. string_bytes place ≡ place_text file.now front.now) }
{
    let lead = last_line(alloc, front)?;
    let line = 1 + count_feeds(front);
    let column = 1 + count_chars(&lead);
    format!(in alloc; "{file}:{line}:{column}: ")
}
