//! A script as events on a desk, one by one or all at once, and what the desk leaves.

ghost use Rattle.std.specs.Prelude.{IsTrue, length};
ghost use Rattle.std.specs.List.{AllByRecursion as Each};
ghost use Rattle.ctt_problem.specs.Timetable.{Fits};
ghost use Rattle.ctt_core.specs.Runs.{EventFits};

use crate::cases::{On, Script};
use crate::story::{Story, repeated};
use ctt_board::Sheet;
use ctt_core::{Answer, Desk, DeskFault, Event};
use ctt_script::{Lines, PLANNERS, read_line};
use ctt_text::{Instance, NoMemory, Placed, drop_whole};

/// Records the lectures and the cost of a desk, and this number of entries of its journal.
pub(crate) fn tell_desk<'i, S: Sheet<'i>>(desk: &Desk<'i, S>, entries: usize, story: &mut Story) {
    let list = repeated!(story, NoMemory, desk.list());
    story.timetable(desk.instance(), list, desk.cost());
    story.count("entries", entries as u64);
}

/// Records the answer of a desk to an event, unless memory ran out, and returns whether it was
/// recorded.
fn tells_step<'i, S: Sheet<'i>>(desk: &mut Desk<'i, S>, story: &mut Story, event: &Event) -> bool {
    if !event.fits(desk.instance(), desk.planners()) {
        return false;
    }
    let small = desk.instance();
    story.tells(small, desk.step(*event))
}

/// What a line of a script asks for.
trait OfLine: Drop {
    /// Parses a line. Returns `None` if it is bad.
    fn of_line(small: &Instance, line: &[u8]) -> Option<Self>;
}

impl OfLine for Event {
    fn of_line(small: &Instance, line: &[u8]) -> Option<Self> {
        read_line(small, line)
    }
}

/// Parses the lines of a script, and records the bad ones.
fn asked_in<T: OfLine>(story: &mut Story, script: &Script) -> Vec<T> {
    let mut list = Vec::new(story.alloc());
    for line in Lines::new(script.lines.as_bytes()) {
        match T::of_line(script.small, line) {
            Some(one) => story.add(&mut list, one),
            None => story.bad_line(line),
        }
    }
    list
}

/// Returns whether a desk of the instance with this number of planners accepts these events.
fn all_fit(events: &[Event], instance: &Instance, planners: u16) -> bool
    ensures { IsTrue result → Each (EventFits instance.now planners) events.now }
{
    for event in events {
        if !event.fits(instance, planners) {
            return false;
        }
    }
    true
}

/// Sends events to a desk at once. If memory runs out for the list of answers, no event was taken.
fn run_all<'i, S: Sheet<'i>>(
    desk: &mut Desk<'i, S>,
    story: &mut Story,
    events: &[Event],
) -> Result<Vec<Answer>, NoMemory>
    requires { Each (EventFits desk.old.problem (length desk.old.drafts)) events.now }
{
    match desk.run(events) {
        Ok(answers) => Ok(answers),
        Err(NoMemory) => {
            story.call_again();
            desk.run(events)
        }
    }
}

/// Records the answers of a desk to events at once. If memory runs out for an event, the later ones
/// find another desk than they should, so the case is run anew.
fn tell_answers<'i, S: Sheet<'i>>(desk: &mut Desk<'i, S>, story: &mut Story, events: &[Event]) {
    if !all_fit(events, desk.instance(), desk.planners()) {
        return story.say("unfit");
    }
    let small = desk.instance();
    match run_all(desk, story, events) {
        Ok(answers) => story.answers(small, answers),
        Err(NoMemory) => story.no_memory(),
    }
}

/// Runs a script on a desk, event by event, each once more if memory runs out, or all at once, and
/// records what the desk has then.
fn play_at<'i, S: Sheet<'i>>(
    desk: &mut Desk<'i, S>,
    story: &mut Story,
    on: &On,
    script: &Script<'i>,
) {
    let events = asked_in::<Event>(story, script);
    if matches!(on, On::Run) {
        tell_answers(desk, story, &events);
    } else {
        for event in &events {
            if !tells_step(desk, story, event) {
                story.call_again();
                if !tells_step(desk, story, event) {
                    story.no_memory();
                }
            }
        }
    }
}

/// Creates a desk whose opening has these lectures.
fn open<'i, S: Sheet<'i>>(
    story: &mut Story,
    small: &'i Instance,
    lectures: &[Placed],
) -> Result<Desk<'i, S>, DeskFault>
    requires { Each (Fits small.now) lectures.now }
{
    let alloc = story.alloc();
    repeated!(
        story,
        DeskFault::NoMemory,
        Desk::<S>::new(alloc, small, lectures, PLANNERS)
    )
}

/// Runs a script event by event, or all at once.
pub(crate) fn play<'i, S: Sheet<'i>>(script: &Script<'i>, story: &mut Story, on: &On) {
    match open::<S>(story, script.small, script.opening) {
        Ok(mut desk) => {
            play_at(&mut desk, story, on, script);
            let entries = desk.journal().len();
            tell_desk(&desk, entries, story);
            drop_whole(desk);
        }
        Err(DeskFault::Unlawful(at, fault)) => story.unlawful(script.small, at, fault),
        Err(DeskFault::NoMemory) => story.no_memory(),
    }
}
