//! Parsing the lines of a script.

ghost use Rattle.std.specs.Prelude.{◌≡◌, ℕ, ◌<◌, Result, IfOk, IfSome, IfNone, OnSome, true};
ghost use Rattle.std.specs.Str.{IsUtf8};
ghost use Rattle.ctt_text.specs.Left.{Left};
ghost use Rattle.ctt_text.specs.Words.{words};
ghost use Rattle.ctt_core.specs.Runs.{EventFits};
ghost use Rattle.ctt_core.specs.declared.event.Event.{Event};
ghost use Rattle.ctt_script.specs.JournalWords.{word, parses, IsRead};
ghost use Rattle.ctt_script.specs.Kinds.{step_kind};
ghost use Rattle.ctt_script.specs.Events.{first_of, step_after, event_after, event_form, own_first_of, own_after, own_form};
ghost use Rattle.ctt_script.specs.ScriptText.{all_parsed, whole_or_word, word_of_fault, item, own_event, own_item, has_words};
ghost use Rattle.ctt_script.specs.declared.kinds.StepKind.TheVariants as step;
ghost use Rattle.ctt_script.specs.declared.script.Start.TheVariants as begin;
ghost use Rattle.ctt_script.specs.declared.script.OwnStart.TheVariants as own;
ghost use Rattle.ctt_script.specs.declared.journal_fault.JournalFault.{JournalFault};

use crate::amounts::number_below;
use crate::calls::{read_call_after, read_look};
use crate::journal_fault::JournalFault;
use crate::kinds::{StepKind, is_word, step_kind};
use crate::single_words::read_word;
use ctt_core::{Event, PlannerNo};
use ctt_text::{Instance, Reader, Words};

/// The number of planners in a script, and the most that a crew may have.
pub const PLANNERS: u16 = 64;

/// What a line begins with: `show`, or the number of a planner.
#[derive(Clone, Copy)]
pub(crate) enum Start {
    Show,
    Planner(PlannerNo),
}

/// Returns what the first word of a line means.
#[tactic(auto, unfolding(crate::specs::Events::first_of))]
fn first_of(word: &str) -> Option<Start>
    ensures { result ≡ first_of word.now }
{
    if is_word(word, "show") {
        Some(Start::Show)
    } else {
        Some(Start::Planner(PlannerNo::new(number_below(word.as_bytes(), PLANNERS)?)))
    }
}

/// Parses the first word of a line.
#[tactic(auto, using(crate::proofs::Steps::read_word))]
fn read_start(reader: &mut Reader) -> Result<Start, JournalFault>
    ensures { IsRead (λ start. (start, reader.new)) result
        (parses (word first_of begin.Show) reader.old) }
{
    let at = reader.next();
    let word = read_word(reader)?;
    first_of(word).ok_or(JournalFault::BadWord(at))
}

/// Parses the keyword of a step.
#[tactic(auto, using(crate::proofs::Steps::read_word))]
fn read_step_kind(reader: &mut Reader) -> Result<StepKind, JournalFault>
    ensures { IsRead (λ kind. (kind, reader.new)) result
        (parses (word step_kind step.Open) reader.old) }
{
    let at = reader.next();
    let word = read_word(reader)?;
    step_kind(word).ok_or(JournalFault::BadWord(at))
}

/// Parses what follows the keyword of a planner's step.
#[inline(always)]
#[tactic(auto, using(crate::proofs::Steps::row), unfolding(crate::specs::Events::step_after))]
fn read_step_after(
    reader: &mut Reader,
    instance: &Instance,
    planner: PlannerNo,
    kind: StepKind,
) -> Result<Event, JournalFault>
    ensures { IsRead (λ event. (event, reader.new)) result
        (parses (step_after instance.now planner kind) reader.old) }
{
    match kind {
        StepKind::Open => Ok(Event::Open(planner)),
        StepKind::Commit => Ok(Event::Commit(planner)),
        StepKind::Refresh => Ok(Event::Refresh(planner)),
        StepKind::Abandon => Ok(Event::Abandon(planner)),
        StepKind::Status => Ok(Event::Status(planner)),
        StepKind::Peek => Ok(Event::Peek(planner, read_look(reader, instance)?)),
        StepKind::Ask(kind) => Ok(Event::Ask(planner, read_call_after(reader, instance, kind)?)),
    }
}

/// Parses what follows the first word of a line.
#[tactic(auto, using(crate::proofs::Steps::row), unfolding(crate::specs::Events::event_after))]
fn read_event_after(
    reader: &mut Reader,
    instance: &Instance,
    start: Start,
) -> Result<Event, JournalFault>
    ensures { IsRead (λ event. (event, reader.new)) result
        (parses (event_after instance.now start) reader.old) }
{
    match start {
        Start::Show => Ok(Event::Show(read_look(reader, instance)?)),
        Start::Planner(planner) => {
            let kind = read_step_kind(reader)?;
            read_step_after(reader, instance, planner, kind)
        }
    }
}

/// Parses an event.
#[tactic(auto, using(crate::proofs::Steps::read_bind), unfolding(crate::specs::Events::event_form))]
fn read_event(reader: &mut Reader, instance: &Instance) -> Result<Event, JournalFault>
    ensures { IsRead (λ event. (event, reader.new)) result
        (parses (event_form instance.now) reader.old) }
{
    let start = read_start(reader)?;
    read_event_after(reader, instance, start)
}

/// What a line of one planner's own script begins with: `show`, or the keyword of a step.
#[derive(Clone, Copy)]
pub(crate) enum OwnStart {
    Show,
    Step(StepKind),
}

/// Returns what the first word of a line means in one planner's own script.
#[tactic(auto, unfolding(crate::specs::Events::own_first_of))]
fn own_first_of(word: &str) -> Option<OwnStart>
    ensures { result ≡ own_first_of word.now }
{
    if is_word(word, "show") {
        Some(OwnStart::Show)
    } else {
        Some(OwnStart::Step(step_kind(word)?))
    }
}

/// Parses the first word of a line of one planner's own script.
#[tactic(auto, using(crate::proofs::Steps::read_word))]
fn read_own_start(reader: &mut Reader) -> Result<OwnStart, JournalFault>
    ensures { IsRead (λ start. (start, reader.new)) result
        (parses (word own_first_of own.Show) reader.old) }
{
    let at = reader.next();
    let word = read_word(reader)?;
    own_first_of(word).ok_or(JournalFault::BadWord(at))
}

/// Parses what follows the first word of a line of one planner's own script.
#[tactic(auto, using(crate::proofs::Steps::row), unfolding(crate::specs::Events::own_after))]
fn read_own_after(
    reader: &mut Reader,
    instance: &Instance,
    planner: PlannerNo,
    start: OwnStart,
) -> Result<Event, JournalFault>
    ensures { IsRead (λ event. (event, reader.new)) result
        (parses (own_after instance.now planner start) reader.old) }
{
    match start {
        OwnStart::Show => Ok(Event::Show(read_look(reader, instance)?)),
        OwnStart::Step(kind) => read_step_after(reader, instance, planner, kind),
    }
}

/// Parses an event in one planner's own script.
#[tactic(auto, using(crate::proofs::Steps::read_bind), unfolding(crate::specs::Events::own_form))]
fn read_own_event(
    reader: &mut Reader,
    instance: &Instance,
    planner: PlannerNo,
) -> Result<Event, JournalFault>
    ensures { IsRead (λ event. (event, reader.new)) result
        (parses (own_form instance.now planner) reader.old) }
{
    let start = read_own_start(reader)?;
    read_own_after(reader, instance, planner, start)
}

/// Returns the event that was parsed, if no word is left after it.
fn only_event(reader: &Reader, read: Result<Event, JournalFault>) -> Option<Event>
    ensures { (all : Result (Event × Left) JournalFault)
        → IsRead (λ event. (event, reader.now)) read all → result ≡ all_parsed all }
{
    match read {
        Ok(event) => {
            if reader.is_at_end() {
                Some(event)
            } else {
                None
            }
        }
        Err(_) => None,
    }
}

/// Returns the line as text, if it is UTF-8.
fn text_of(line: &[u8]) -> Option<&str>
    ensures text { IfSome result (λ text. text.now ≡ line.now) }
    ensures utf8 { OnSome result (IsUtf8 line.now) }
    ensures none { IfNone result (¬ IsUtf8 line.now) }
{
    str::from_utf8(line).ok()
}

/// Parses a line of a script of 64 planners. Returns `None` if it is not an event.
pub fn read_line(instance: &Instance, line: &[u8]) -> Option<Event>
    ensures item { result ≡ item instance.now line.now }
    ensures words { OnSome result (has_words line.now ≡ true) }
    ensures fits { IfSome result (EventFits instance.now 64) }
{
    instance.limits_hold();
    let text = text_of(line)?;
    let mut reader = Reader::new(text);
    let read = read_event(&mut reader, instance);
    only_event(&reader, read)
}

/// Parses a line of one planner's own script, in which no line names the planner. Returns `None` if
/// it is not an event.
pub fn read_own_line(instance: &Instance, planner: PlannerNo, line: &[u8]) -> Option<Event>
    ensures item { result ≡ own_item instance.now planner line.now }
    ensures words { OnSome result (has_words line.now ≡ true) }
    ensures fits { (planners : ℕ) → planner < planners
        → IfSome result (EventFits instance.now planners) }
{
    instance.limits_hold();
    let text = text_of(line)?;
    let mut reader = Reader::new(text);
    let read = read_own_event(&mut reader, instance, planner);
    only_event(&reader, read)
}

/// Returns the number of the word at which parsing stopped.
fn word_of(fault: JournalFault) -> u64
    ensures { result ≡ word_of_fault fault }
{
    match fault {
        JournalFault::NotText(at) | JournalFault::Missing(at) | JournalFault::BadWord(at) => at,
        JournalFault::NoMemory => 0,
    }
}

/// Returns the event that was parsed, or the number of the first word that is left after it, or of
/// the word at which parsing stopped.
fn event_or_word(reader: &Reader, read: Result<Event, JournalFault>) -> Result<Event, u64>
    ensures { (all : Result (Event × Left) JournalFault)
        → IsRead (λ event. (event, reader.now)) read all → result ≡ whole_or_word all }
{
    match read {
        Ok(event) => {
            if reader.is_at_end() {
                Ok(event)
            } else {
                Err(reader.next())
            }
        }
        Err(fault) => Err(word_of(fault)),
    }
}

/// Parses a text as an event of one planner's own script. The error is the number, counted from 1,
/// of the first word that is not allowed; if the text ends too early, it is one more than the
/// number of words.
pub fn read_own_text(instance: &Instance, planner: PlannerNo, text: &str) -> Result<Event, u64>
    ensures event { result ≡ own_event instance.now planner (words text.now) }
    ensures fits { (planners : ℕ) → planner < planners
        → IfOk result (EventFits instance.now planners) }
{
    instance.limits_hold();
    let mut reader = Reader::new(text);
    let read = read_own_event(&mut reader, instance, planner);
    event_or_word(&reader, read)
}

/// Returns whether a line has words.
pub fn has_words(line: &[u8]) -> bool
    ensures { result ≡ has_words line.now }
{
    Words::new(line).next().is_some()
}
