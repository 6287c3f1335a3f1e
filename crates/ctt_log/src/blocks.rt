//! The recovery of the whole entries at the beginning of minutes.

ghost use Rattle.std.specs.Prelude.{◌≡◌, ◌≤◌, ◌||◌, ℕ, Bool, List, [], length, take, drop, flat_map, IfOk, IfErr, IfSome, MatchResult, is_some};
ghost use mathlib.Core.List.{IsPrefix};
ghost use Rattle.std.specs.List.{AllByRecursion as Each};
ghost use Rattle.std.specs.Str.{IsUtf8};
ghost use Rattle.ctt_core.specs.Entries.{EntryFits};
ghost use Rattle.ctt_core.specs.declared.journal.JournalEntry.{JournalEntry};
ghost use Rattle.ctt_edits.specs.Fitting.{AreFew};
ghost use Rattle.ctt_script.specs.Entries.{CanBeWritten, IsShort};
ghost use Rattle.ctt_script.specs.WrittenText.{entry_text};
ghost use Rattle.ctt_script.specs.declared.journal_fault.JournalFault.TheVariants.{NoMemory as OutOfMemory};
ghost use Rattle.ctt_text.specs.Words.{words};
ghost use Rattle.ctt_log.specs.Recovery.{EndsLine, HasNoNewline, IsLinesFault, IsMinutesFault, IsReadOf, IsReadWhole, IsRecovered, IsTornAfter, IsTornAt, IsTornIn, IsTornPlace};

use ctt_core::JournalEntry;
use ctt_script::{JournalFault, read_entry};
use ctt_text::{Instance, Reader, Words, drop_whole, word_place};
use std::alloc::Global;

/// The most entries that are accepted.
const ENTRY_LIMIT: u32 = 999_999_999;

/// The whole entries at the beginning of minutes.
#[derive(Drop)]
pub struct Blocks {
    /// The entries, in order.
    pub entries: Vec<JournalEntry>,
    /// The byte at which what is torn begins, if anything follows these entries.
    pub torn: Option<usize>,
}

/// Returns the length in bytes of the whole lines at the beginning.
fn lines_len(text: &[u8]) -> usize
    ensures within { result ≤ length text.now }
    ensures ends { EndsLine (take result text.now) }
    ensures unended { HasNoNewline (drop result text.now) }
{
    let mut len = text.len();
    while len > 0 {
        if text[len - 1] == b'\n' {
            return len;
        }
        len -= 1;
    }
    0
}

/// Counts the words of a text.
fn count_words(text: &[u8]) -> usize
    ensures { result ≡ length (words text.now) }
{
    let _len = text.len();
    Words::new(text).count()
}

/// Returns the byte at which an incomplete entry begins, by the number of its first word: that of
/// its line, or that of the word if a whole entry ends in the line.
fn torn_place(lines: &[u8], number: u64) -> usize
    ensures { IsTornPlace lines.now number result }
{
    let word = word_place(lines, number);
    let line = lines_len(&lines[..word]);
    if count_words(&lines[..line]) as u64 == number.saturating_sub(1) {
        line
    } else {
        word
    }
}

/// Returns the byte at which what is torn begins: the entry whose first word has this number, or
/// what follows the lines.
fn torn_at(lines: &str, lacks: Option<u64>, is_cut: bool) -> Option<usize>
    ensures torn { is_some result ≡ is_some lacks || is_cut }
    ensures place { IfSome result (λ at. IsTornAfter lines.now lacks at) }
{
    match lacks {
        Some(number) => Some(torn_place(lines.as_bytes(), number)),
        None if is_cut => Some(lines.len()),
        None => None,
    }
}

/// Parses entries to the end, or up to one that lacks a word, and returns the number of its first
/// word.
fn read_whole(
    alloc: Global,
    reader: &mut Reader,
    instance: &Instance,
    entries: &mut Vec<JournalEntry>,
) -> Result<Option<u64>, JournalFault>
    requires { entries.old.items ≡ [] }
    ensures read { IsReadWhole instance.now reader.old result entries.new.items }
    ensures few { AreFew entries.new.items }
{
    for _ in 0..ENTRY_LIMIT {
        if reader.is_at_end() {
            return Ok(None);
        }
        let number = reader.next();
        match read_entry(alloc, reader, instance) {
            Ok(entry) => entries.push(entry)?,
            Err(JournalFault::Missing(_)) => return Ok(Some(number)),
            Err(JournalFault::BadWord(word)) => return Err(JournalFault::BadWord(word)),
            Err(_) => return Err(JournalFault::NoMemory),
        }
    }
    Err(JournalFault::NoMemory)
}

/// Parses the entries of whole lines. `is_cut` says that an incomplete line follows them.
fn read_lines(
    alloc: Global,
    instance: &Instance,
    lines: &str,
    is_cut: bool,
) -> Result<Blocks, JournalFault>
    ensures read { IfOk result (λ b. (lacks : Bool)
        × IsReadOf instance.now lines.now b.entries.items lacks
        × (is_some b.torn ≡ lacks || is_cut)) }
    ensures torn { IfOk result (λ b. IfSome b.torn
        (IsTornIn instance.now lines.now b.entries.items)) }
    ensures fits { IfOk result (λ b. Each (EntryFits instance.now) b.entries.items) }
    ensures few { IfOk result (λ b. AreFew b.entries.items) }
    ensures short { IfOk result (λ b. Each IsShort b.entries.items) }
    ensures fault { IfErr result (IsLinesFault instance.now lines.now) }
{
    instance.limits_hold();
    let mut reader = Reader::new(lines);
    let mut entries = Vec::new(alloc);
    let lacks = match read_whole(alloc, &mut reader, instance, &mut entries) {
        Ok(lacks) => lacks,
        Err(fault) => {
            drop_whole(entries);
            return Err(fault);
        }
    };
    Ok(Blocks {
        entries,
        torn: torn_at(lines, lacks, is_cut),
    })
}

/// Parses minutes: entries one after another, as a journal has them. An incomplete last entry is
/// left out. Anything else that is not an entry is a fault, which names the first word that is
/// wrong.
///
/// If minutes are cut at any byte, these are the first of the entries that were written.
pub fn read_blocks(alloc: Global, instance: &Instance, text: &[u8]) -> Result<Blocks, JournalFault>
    ensures recovered { IfOk result (λ b.
        IsRecovered instance.now text.now b.entries.items (is_some b.torn)) }
    ensures torn { IfOk result (λ b. IfSome b.torn
        (IsTornAt instance.now text.now b.entries.items)) }
    ensures fits { IfOk result (λ b. Each (EntryFits instance.now) b.entries.items) }
    ensures few { IfOk result (λ b. AreFew b.entries.items) }
    ensures short { IfOk result (λ b. Each IsShort b.entries.items) }
    ensures cut { (entries : List JournalEntry) (n : ℕ) → Each (CanBeWritten instance.now) entries
        → IsUtf8 (flat_map (entry_text instance.now) entries)
        → text.now ≡ take n (flat_map (entry_text instance.now) entries)
        → MatchResult result (λ b. IsPrefix b.entries.items entries)
        (λ fault. fault ≡ OutOfMemory) }
    ensures fault { IfErr result (IsMinutesFault instance.now text.now) }
{
    instance.limits_hold();
    instance.names_are_words();
    let len = lines_len(text);
    match str::from_utf8(&text[..len]) {
        Ok(lines) => read_lines(alloc, instance, lines, len < text.len()),
        Err(error) => Err(JournalFault::NotText(error.valid_up_to() as u64)),
    }
}
