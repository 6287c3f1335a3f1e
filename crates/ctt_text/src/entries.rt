//! Which entry of a text a word is in, and which of its fields.

ghost use Rattle.std.specs.Prelude.{◌≡◌, ◌≤◌, [], IfOk};
ghost use Rattle.std.specs.String.{string_bytes};
ghost use Rattle.ctt_text.specs.Entries.{closure_entry, closure_field, course_field, curriculum_at, curriculum_field, curriculum_in, entry_text, instance_entry, is_aside, lecture_entry, lecture_field, pair_entry, pair_field, room_field, section_entry, slot_field};
ghost use Rattle.ctt_text.specs.Sections.{after_rooms, stated};
ghost use Rattle.ctt_text.specs.Words.{words};

use crate::places::{skip_words, stated};
use crate::sections::{Section, section_of, skip_curriculum};
use crate::words::Words;
use std::alloc::{AllocError, Global};

/// Returns an entry by its number, from 1, among so many, and one of its fields.
fn entry_text(
    alloc: Global,
    kind: &str,
    number: u64,
    count: u32,
    field: &str,
) -> Result<String, AllocError>
    ensures { IfOk result (λ entry. string_bytes entry
        ≡ entry_text kind.now number count field.now) }
{
    format!(in alloc; "{kind} {number} of {count}: {field}: ")
}

/// Returns the name of a field of a course.
fn course_field(place: u64) -> &'static str
    ensures { result.now ≡ course_field place }
{
    match place {
        0 => "name",
        1 => "teacher",
        2 => "lectures",
        3 => "days",
        _ => "students",
    }
}

/// Returns the name of a field of a room.
fn room_field(place: u64) -> &'static str
    ensures { result.now ≡ room_field place }
{
    match place {
        0 => "name",
        _ => "seats",
    }
}

/// Returns the name of a field of a curriculum.
fn curriculum_field(place: u64) -> &'static str
    ensures { result.now ≡ curriculum_field place }
{
    match place {
        0 => "name",
        1 => "number of courses",
        _ => "course",
    }
}

/// Returns the name of a field of an unavailability.
fn slot_field(place: u64) -> &'static str
    ensures { result.now ≡ slot_field place }
{
    match place {
        0 => "course",
        1 => "day",
        _ => "period",
    }
}

/// Returns the name of a field of a lecture.
fn lecture_field(place: u64) -> &'static str
    ensures { result.now ≡ lecture_field place }
{
    match place {
        0 => "course",
        1 => "room",
        2 => "day",
        _ => "period",
    }
}

/// Returns the name of a field of a barred pair.
fn pair_field(place: u64) -> &'static str
    ensures { result.now ≡ pair_field place }
{
    match place {
        0 => "course",
        _ => "room",
    }
}

/// Returns the name of a field of a closure.
fn closure_field(place: u64) -> &'static str
    ensures { result.now ≡ closure_field place }
{
    match place {
        0 => "kind",
        1 => "name",
        2 => "day",
        _ => "period",
    }
}

/// Returns the curriculum that has a place among the words of so many, and the number of the word
/// there, all counted from 0.
fn curriculum_in(words: &mut Words, count: u32, place: u64) -> (u32, u64)
    ensures found { result ≡ curriculum_in count 0 place words.old }
    ensures bounded { result.0 ≤ count }
{
    let mut left = place;
    for number in 0..count {
        let len = skip_curriculum(words);
        if left < len {
            return (number, left);
        }
        left -= len;
    }
    (count, left)
}

/// Returns the entry of a place among the words of the curricula.
fn curriculum_entry(alloc: Global, text: &[u8], place: u64) -> Result<String, AllocError>
    ensures { IfOk result (λ entry. string_bytes entry
        ≡ curriculum_at (curriculum_in (stated 12 (words text.now)) 0 place
        (after_rooms (words text.now))) (stated 12 (words text.now))) }
{
    let count = stated(text, 12);
    let before = 17 + 5 * u64::from(stated(text, 4)) + 2 * u64::from(stated(text, 6));
    let mut words = Words::new(text);
    skip_words(&mut words, before);
    let (number, place) = curriculum_in(&mut words, count, place);
    let field = curriculum_field(place);
    entry_text(alloc, "curriculum", u64::from(number) + 1, count, field)
}

/// Returns the entry of a place in a section, or nothing of a word that is in none.
fn section_entry(
    alloc: Global,
    text: &[u8],
    section: Section,
    place: u64,
) -> Result<String, AllocError>
    ensures { IfOk result (λ entry. string_bytes entry
        ≡ section_entry (words text.now) section place) }
{
    match section {
        Section::Courses => {
            let field = course_field(place % 5);
            entry_text(alloc, "course", place / 5 + 1, stated(text, 4), field)
        }
        Section::Rooms => {
            let field = room_field(place % 2);
            entry_text(alloc, "room", place / 2 + 1, stated(text, 6), field)
        }
        Section::Curricula => curriculum_entry(alloc, text, place),
        Section::Unavailability => {
            let field = slot_field(place % 3);
            let count = stated(text, 14);
            entry_text(alloc, "unavailability", place / 3 + 1, count, field)
        }
        _ => Ok(String::new(alloc)),
    }
}

/// Returns the entry of a word of an instance, which is counted from 1.
pub(crate) fn instance_entry(alloc: Global, text: &[u8], at: u64) -> Result<String, AllocError>
    ensures { IfOk result (λ entry. string_bytes entry ≡ instance_entry (words text.now) at) }
{
    let (section, place) = section_of(text, at);
    section_entry(alloc, text, section, place)
}

/// Returns the entry of a word of a solution, which is counted from 1.
pub(crate) fn lecture_entry(alloc: Global, at: u64) -> Result<String, AllocError>
    ensures { IfOk result (λ entry. string_bytes entry ≡ lecture_entry at) }
{
    let place = at.saturating_sub(1);
    let number = place / 4 + 1;
    let field = lecture_field(place % 4);
    format!(in alloc; "lecture {number}: {field}: ")
}

/// Returns whether a word of a side file whose entries have so many words is in no entry.
fn is_aside(text: &[u8], len: u32, at: u64) -> bool
    ensures { result ≡ is_aside len (words text.now) at }
{
    at < 3 || 2 + u64::from(len) * u64::from(stated(text, 2)) < at
}

/// Returns the entry of a word of barred rooms, which is counted from 1.
pub(crate) fn pair_entry(alloc: Global, text: &[u8], at: u64) -> Result<String, AllocError>
    ensures { IfOk result (λ entry. string_bytes entry ≡ pair_entry (words text.now) at) }
{
    if is_aside(text, 2, at) {
        return Ok(String::new(alloc));
    }
    let place = at.saturating_sub(3);
    let field = pair_field(place % 2);
    entry_text(alloc, "pair", place / 2 + 1, stated(text, 2), field)
}

/// Returns the entry of a word of closures, which is counted from 1.
pub(crate) fn closure_entry(alloc: Global, text: &[u8], at: u64) -> Result<String, AllocError>
    ensures { IfOk result (λ entry. string_bytes entry ≡ closure_entry (words text.now) at) }
{
    if is_aside(text, 4, at) {
        return Ok(String::new(alloc));
    }
    let place = at.saturating_sub(3);
    let field = closure_field(place % 4);
    entry_text(alloc, "entry", place / 4 + 1, stated(text, 2), field)
}
