//! Parsing of the lines of a seat.

ghost use Rattle.std.specs.Prelude.{◌≡◌};
ghost use Rattle.ctt_text.specs.Words.{words};
ghost use Rattle.ctt_script.specs.ScriptText.{own_event};
ghost use Rattle.ctt_office.specs.SeatText.{LineFits, one_word_request, seat_line_of, seat_line, step_line, words_line};

use crate::bad_word::BadWord;
use ctt_core::{Event, PlannerNo};
use ctt_script::{is_word, read_own_text};
use ctt_text::{Instance, Reader};

/// What a line of a seat asks for.
#[derive(Drop)]
pub enum SeatLine<'a> {
    /// Nothing: it has no words.
    Blank,
    /// To leave.
    Leave,
    /// For the words with which a line may begin.
    Help,
    /// To redo the edits of the draft that ended stale last.
    Redo,
    /// To undo the last edit.
    Undo,
    /// A step of the planner, or a look.
    Step(Event),
    /// Nothing that is known; this is the first wrong word.
    Bad(BadWord<'a>),
    /// Nothing: it is longer than `LINE_LIMIT`.
    TooLong,
}

/// A request that is one word.
#[derive(Clone, Copy)]
pub(crate) enum Alone {
    Leave,
    Help,
    Redo,
    Undo,
}

/// Returns the request that a word is, if it is one.
#[tactic(auto, unfolding(crate::specs::SeatText::one_word_request))]
fn alone_of(word: &str) -> Option<Alone>
    ensures { result ≡ one_word_request word.now }
{
    if is_word(word, "leave") {
        Some(Alone::Leave)
    } else if is_word(word, "help") {
        Some(Alone::Help)
    } else if is_word(word, "redo") {
        Some(Alone::Redo)
    } else if is_word(word, "undo") {
        Some(Alone::Undo)
    } else {
        None
    }
}

/// Returns what a line of this one word asks for.
fn line_of<'a>(word: Alone) -> SeatLine<'a>
    ensures { result ≡ seat_line_of word }
{
    match word {
        Alone::Leave => SeatLine::Leave,
        Alone::Help => SeatLine::Help,
        Alone::Redo => SeatLine::Redo,
        Alone::Undo => SeatLine::Undo,
    }
}

/// Parses a text as a step, or returns the first wrong word.
fn read_step<'a>(instance: &Instance, planner: PlannerNo, text: &'a str) -> SeatLine<'a>
    ensures line { result ≡ step_line (words text.now)
        (own_event instance.now planner (words text.now)) }
    ensures fits { LineFits instance.now planner result }
{
    match read_own_text(instance, planner, text) {
        Ok(event) => SeatLine::Step(event),
        Err(at) => SeatLine::Bad(BadWord::of(text, at)),
    }
}

/// Parses a line that is UTF-8.
fn read_text<'a>(instance: &Instance, planner: PlannerNo, text: &'a str) -> SeatLine<'a>
    ensures line { result ≡ words_line instance.now planner (words text.now) }
    ensures fits { LineFits instance.now planner result }
{
    let mut reader = Reader::new(text);
    let Some(first) = reader.word() else {
        return SeatLine::Blank;
    };
    match alone_of(first) {
        Some(word) => {
            if reader.is_at_end() {
                line_of(word)
            } else {
                SeatLine::Bad(BadWord::of(text, 2))
            }
        }
        None => read_step(instance, planner, text),
    }
}

/// Parses a line of this planner's seat, without its newline.
pub fn read_seat_line<'a>(instance: &Instance, planner: PlannerNo, line: &'a [u8]) -> SeatLine<'a>
    ensures line { result ≡ seat_line instance.now planner line.now }
    ensures fits { LineFits instance.now planner result }
{
    match str::from_utf8(line) {
        Ok(text) => read_text(instance, planner, text),
        Err(_) => SeatLine::Bad(BadWord::first_untext(line)),
    }
}
