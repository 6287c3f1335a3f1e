//! Cases: rows of a table, each of which is a script with its opening and the ways in which it is
//! run.

ghost use Rattle.std.specs.Prelude.{IfOk};
ghost use Rattle.ctt_problem.specs.Timetable.{IsTimetable};
ghost use Rattle.ctt_trials.specs.Scripts.{IsTimetable-prop};

use crate::story::{Story, repeated};
use crate::{desks, drafts, journals, scripts, shared, sheets, shown};
use ctt_board::Sheet;
use ctt_grid::{GridSheet, ListSheet};
use ctt_text::{Instance, Placed, SolutionFault, drop_whole, read_solution};
use std::sync::Wait;

/// How a case is run.
pub(crate) enum Way {
    /// Without a sheet.
    Plain(Plain),
    /// On list sheets.
    List(On),
    /// On grid sheets.
    Grid(On),
    /// As a script that is parsed and run on grid sheets.
    Script(SeatAnswer),
    /// At a shared desk.
    Shared,
}

/// How a case is run without a sheet.
pub(crate) enum Plain {
    /// Record the reports on its opening.
    Reports,
    /// Write its opening and parse it again.
    Written,
    /// Record the rows that its line reads.
    Rows,
    /// Read its lines as an input of at most four bytes.
    Input,
}

/// How a case is run on sheets of one kind.
pub(crate) enum On {
    /// Make its lines, each of which is a call, on a sheet.
    Lines,
    /// Place one lecture on a sheet.
    Placement,
    /// Make a draft that is stale on another sheet.
    Draft,
    /// Make a draft of a thousand calls.
    LongDraft,
    /// Record which changes a sheet accepts.
    Accepted,
    /// Record which changes a sheet accepts where a room and a course are blocked.
    AcceptedBlocked,
    /// Send its lines as events, one by one.
    Step,
    /// Send its lines as events, all at once.
    Run,
    /// Audit its lines, which are the text of a journal.
    Audit,
    /// Record what its lines, which are the text of a journal, leave.
    Left,
}

/// What is recorded of a script that is run.
pub(crate) enum SeatAnswer {
    /// Its answers, and what it leaves.
    Answers,
    /// The length of its answers, and its journal.
    Journal,
    /// That its answers could not be flushed.
    Unflushed,
    /// The part of its answers that a writer with room for three bytes takes.
    Cut,
}

/// One way in which a case is run.
pub(crate) struct Play {
    pub(crate) way: Way,
    /// The name of the way, if its output should be that of the last way without a name; else
    /// empty.
    pub(crate) called: &'static str,
}

/// A case of a table.
pub(crate) struct Case {
    /// The name of the case, or empty.
    pub(crate) name: &'static str,
    /// The text of the timetable with which the case begins.
    pub(crate) opening: &'static str,
    pub(crate) lines: &'static str,
    pub(crate) plays: &'static [Play],
}

/// The lines of a case, with its instance and the lectures of its opening.
#[derive(Drop)]
pub(crate) struct Script<'i> {
    pub(crate) small: &'i Instance,
    pub(crate) opening: &'i [Placed],
    pub(crate) lines: &'i str,
    ghost timetable: { IsTimetable small.now opening.now } by { IsTimetable-prop small.now opening.now },
}

/// Runs a case without a sheet.
fn play_plain(script: &Script, story: &mut Story, plain: &Plain) {
    match plain {
        Plain::Reports => shown::play_reports(script, story),
        Plain::Written => shown::play_written(script, story),
        Plain::Rows => sheets::tell_rows(script, story),
        Plain::Input => shown::play_input(script, story),
    }
}

/// Runs a case on sheets of one kind.
fn play_on<'i, S: Sheet<'i>>(script: &Script<'i>, story: &mut Story, on: &On) {
    match on {
        On::Lines | On::Placement | On::Accepted | On::AcceptedBlocked => {
            sheets::play::<S>(script, story, on);
        }
        On::Draft | On::LongDraft => drafts::play::<S>(script, story, on),
        On::Step | On::Run => desks::play::<S>(script, story, on),
        On::Audit | On::Left => {
            journals::read_text::<S>(script, story, on, script.lines.as_bytes());
        }
    }
}

/// Runs a case in one way.
fn play_once<R: Wait>(script: &Script, story: &mut Story, rt: &R, way: &Way) {
    match way {
        Way::Plain(plain) => play_plain(script, story, plain),
        Way::List(on) => play_on::<ListSheet>(script, story, on),
        Way::Grid(on) => play_on::<GridSheet>(script, story, on),
        Way::Script(told) => scripts::play(script, story, told),
        Way::Shared => shared::play(script, story, rt),
    }
}

/// Runs a case with the lectures of its opening.
fn play_opened<R: Wait>(
    story: &mut Story,
    rt: &R,
    small: &Instance,
    opening: &[Placed],
    case: &Case,
)
    requires { IsTimetable small.now opening.now }
{
    let script = Script {
        small,
        opening,
        lines: case.lines,
    };
    let (mut from, mut to) = (0, 0);
    for play in case.plays {
        let here = story.len();
        play_once(&script, story, rt, &play.way);
        if play.called.is_empty() {
            (from, to) = (here, story.len());
        } else {
            story.compare(from, to, here, play.called);
        }
    }
}

/// Parses the text of a timetable.
pub(crate) fn read_lectures(
    story: &mut Story,
    small: &Instance,
    text: &[u8],
) -> Result<Vec<Placed>, SolutionFault>
    ensures { IfOk result (λ list. IsTimetable small.now list.items) }
{
    let alloc = story.alloc();
    repeated!(
        story,
        SolutionFault::NoMemory,
        read_solution(alloc, small, text)
    )
}

/// Runs a case.
fn play_case<R: Wait>(story: &mut Story, rt: &R, small: &Instance, case: &Case) {
    match read_lectures(story, small, case.opening.as_bytes()) {
        Ok(opening) => {
            play_opened(story, rt, small, &opening, case);
            drop_whole(opening);
        }
        Err(_fault) => story.no_memory(),
    }
}

/// Runs cases, each once more if memory ran out for one of its calls that cannot be repeated.
pub(crate) fn play_cases<R: Wait>(story: &mut Story, rt: &R, small: &Instance, cases: &[Case]) {
    for case in cases {
        if !case.name.is_empty() {
            story.say(case.name);
        }
        let here = story.len();
        play_case(story, rt, small, case);
        if story.takes_back(here) {
            play_case(story, rt, small, case);
        }
    }
}
