//! The sections of an instance's text.

ghost use Rattle.std.specs.Prelude.{◌≡◌, ◌≤◌, ◌+◌, ◌*◌, drop};
ghost use Rattle.ctt_text.specs.Sections.{curricula_len, fixed_word, header_label, limit, section_in, section_of, stated, unended};
ghost use Rattle.ctt_text.specs.Words.{words};

use crate::numbers::number;
use crate::places::{skip_words, stated};
use crate::words::Words;

/// A section of an instance's text. A heading is a section of one word.
#[derive(Clone, Copy, Debug, PartialEq, Eq)]
pub(crate) enum Section {
    Header,
    CoursesHeading,
    Courses,
    RoomsHeading,
    Rooms,
    CurriculaHeading,
    Curricula,
    UnavailabilityHeading,
    Unavailability,
    End,
}

/// Takes the next word, and returns the number that it states, or 0.
fn next_stated(words: &mut Words) -> u32
    ensures stated { result ≡ stated 1 words.old }
    ensures bounded { result ≤ 999999999 }
    ensures rest { words.new ≡ drop 1 words.old }
{
    match words.next() {
        Some(word) => number(word).unwrap_or(0),
        None => 0,
    }
}

/// Takes the words of a curriculum, and returns their number.
pub(crate) fn skip_curriculum(words: &mut Words) -> u64
    ensures len { result ≡ 2 + stated 2 words.old }
    ensures rest { words.new ≡ drop (2 + stated 2 words.old) words.old }
    ensures bounded { result ≤ 1000000001 }
{
    skip_words(words, 1);
    let members = u64::from(next_stated(words));
    skip_words(words, members);
    2 + members
}

/// Takes the words of so many curricula, and returns their number.
fn skip_curricula(words: &mut Words, count: u32) -> u64
    ensures exact { result ≡ curricula_len count words.old }
    ensures bounded { result ≤ 1000000001 * count }
{
    let mut len = 0;
    for _ in 0..count {
        len += skip_curriculum(words);
    }
    len
}

/// Counts the words of the curricula, which follow so many words.
fn curricula_len(text: &[u8], before: u64) -> u64
    ensures { result ≡ curricula_len (stated 12 (words text.now)) (drop before (words text.now)) }
{
    let mut words = Words::new(text);
    skip_words(&mut words, before);
    skip_curricula(&mut words, stated(text, 12))
}

/// Returns the section that has a place, and its number there, both counted from 0.
fn section_in(sections: &[(Section, u64)], place: u64) -> (Section, u64)
    ensures { result ≡ section_in place sections.now }
{
    let mut left = place;
    for (section, len) in sections {
        if left < *len {
            return (*section, left);
        }
        left -= *len;
    }
    (Section::End, left)
}

/// Returns the section of a word, which is counted from 1, and the number of the word there,
/// counted from 0.
pub(crate) fn section_of(text: &[u8], at: u64) -> (Section, u64)
    ensures { result ≡ section_of at (words text.now) }
{
    if at <= 14 {
        return (Section::Header, at.saturating_sub(1));
    }
    let courses = 5 * u64::from(stated(text, 4));
    let rooms = 2 * u64::from(stated(text, 6));
    let later = [
        (Section::CoursesHeading, 1),
        (Section::Courses, courses),
        (Section::RoomsHeading, 1),
        (Section::Rooms, rooms),
        (Section::CurriculaHeading, 1),
        (
            Section::Curricula,
            curricula_len(text, 17 + courses + rooms),
        ),
        (Section::UnavailabilityHeading, 1),
        (Section::Unavailability, 3 * u64::from(stated(text, 14))),
    ];
    section_in(&later, at - 15)
}

/// Returns where words end that lack this word of a section.
pub(crate) fn unended(section: Section, place: u64) -> &'static str
    ensures { result.now ≡ unended section place }
{
    match section {
        Section::Header => "in the header",
        Section::CoursesHeading => "before COURSES:",
        Section::Courses if place % 5 == 0 => "before a course, which has five",
        Section::Courses => "in a course, which has five",
        Section::RoomsHeading => "before ROOMS:",
        Section::Rooms if place % 2 == 0 => "before a room, which has two",
        Section::Rooms => "in a room, which has two",
        Section::CurriculaHeading => "before CURRICULA:",
        Section::Curricula => "in the curricula, each a name, a number and so many courses",
        Section::UnavailabilityHeading => "before UNAVAILABILITY_CONSTRAINTS:",
        Section::Unavailability if place % 3 == 0 => "before an unavailability, which has three",
        Section::Unavailability => "in an unavailability, which has three",
        Section::End => "before END.",
    }
}

/// Returns the label at an even place of the header, counted from 0.
fn header_label(place: u64) -> &'static str
    ensures { result.now ≡ header_label place }
{
    match place {
        0 => "Name:",
        2 => "Courses:",
        4 => "Rooms:",
        6 => "Days:",
        8 => "Periods_per_day:",
        10 => "Curricula:",
        _ => "Constraints:",
    }
}

/// Returns the fixed word of a section, at this place of it.
pub(crate) fn fixed_word(section: Section, place: u64) -> &'static str
    ensures { result.now ≡ fixed_word section place }
{
    match section {
        Section::Header => header_label(place),
        Section::CoursesHeading => "COURSES:",
        Section::RoomsHeading => "ROOMS:",
        Section::CurriculaHeading => "CURRICULA:",
        Section::UnavailabilityHeading => "UNAVAILABILITY_CONSTRAINTS:",
        _ => "END.",
    }
}

/// Returns what exceeds its limit in a number, the word of this number, counted from 1.
pub(crate) fn limit(at: u64) -> &'static str
    ensures { result.now ≡ limit at }
{
    match at {
        4 => "more than 2,000 courses: ",
        6 => "more than 1,000 rooms: ",
        8 => "more than 2,000 days: ",
        10 => "more than 2,000 periods a day, or 2,000 slots: ",
        12 => "more than 20,000 curricula: ",
        _ => "more than 2,000,000 constraints: ",
    }
}
