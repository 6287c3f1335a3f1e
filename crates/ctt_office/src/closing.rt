//! The end of a desk: its journal, its last lines, and the writer of its minutes.

ghost use Rattle.std.specs.Prelude.{◌≡◌, ◌≤◌, ◌+◌, ℕ, [], Err, Ok, true, is_some, length, IfErr, IfOk, IfSome, OnOk};
ghost use Rattle.std.specs.Vec.{vec_capacity};
ghost use mathlib.Core.List.{IsPrefix};
ghost use Rattle.ctt_core.specs.Runs.{Legal};
ghost use Rattle.ctt_desk.specs.Names.{IsNameOf};
ghost use Rattle.ctt_seat.specs.Attended.{IsCrewText};
ghost use Rattle.ctt_seat.specs.CrewText.{closing_text};
ghost use Rattle.ctt_office.specs.OfficeFaults.{IsOfficeFault};
ghost use Rattle.ctt_log.specs.Minutes.{AreMinutesOf, IsPartOf};
ghost use Rattle.ctt_office.specs.Recorded.{IsRecorded};
ghost use Rattle.ctt_office.specs.declared.office_fault.OfficeFault.TheVariants.{NotWritten};

use crate::office_fault::OfficeFault;
use ctt_board::Timetable;
use ctt_desk::{Closed, Named, Naming, Opened, Planner, SharedDesk};
use ctt_log::{Begun, Durable, LogWriter, WriteAheadLog};
use ctt_seat::{closing_report, end_desk};
use ctt_text::drop_whole;
use std::alloc::Global;
use std::marker::PhantomData;
use std::sync::Wait;

/// A planner without a seat, who closes the desk after he has seen what is in the minutes: so they
/// can be compared with the journal.
#[derive(Drop)]
pub(crate) struct Keeper<S: Timetable, J: Naming> {
    planner: Planner<S, J>,
    /// An empty list with room for the planner, as a desk is closed with a list of planners.
    list: Vec<Planner<S, J>>,
    ghost empty: { list.items ≡ [] },
    ghost room: { 1 ≤ vec_capacity list },
}

/// Creates the shared desk that `J` names, with its planners but the last, who is its keeper.
pub(crate) fn desk_named<S: Timetable, J: Naming, R: Wait>(
    rt: &R,
    alloc: Global,
    opened: Opened<S>,
    count: u16,
) -> Result<(SharedDesk<S, J>, Vec<Planner<S, J>>, Keeper<S, J>), OfficeFault>
    requires named { IsNameOf J.problem J.opening J.planners J.book opened count }
    requires some { 1 ≤ count }
    ensures planners { IfOk result (λ made. length made.1.items + 1 ≡ count) }
    ensures fault { (seats : ℕ) → IfErr result (IsOfficeFault seats) }
{
    let list = Vec::with_capacity(alloc, 1)?;
    let named = Named {
        opened,
        count,
        name: PhantomData,
    };
    let (desk, mut planners) = SharedDesk::new(rt, named)?;
    let planner = planners.pop().unwrap();
    Ok((desk, planners, Keeper { planner, list }))
}

/// Closes a desk whose seats have ended, and returns its journal, and whether that begins with what
/// the keeper has seen.
fn close_by<S: Timetable, J: Naming, R: Wait>(
    rt: &R,
    desk: SharedDesk<S, J>,
    planner: Planner<S, J>,
    list: Vec<Planner<S, J>>,
) -> (Closed<S, J>, bool)
    requires empty { list.items ≡ [] }
    requires room { 1 ≤ vec_capacity list }
    ensures { result.1 ≡ true → IsPrefix planner.front result.0 }
{
    let mut list = list;
    list.push(planner).unwrap();
    match desk.close(rt, list.as_mut_slice()) {
        Ok(closed) => (closed, true),
        Err(closed) => (closed, false),
    }
}

/// Closes a desk whose seats have ended. Returns its journal, the writer of the minutes, and
/// whether that has the entry of each draft of the journal.
fn close_on<S: Timetable, J: Naming + Begun, W: Durable, R: Wait>(
    rt: &R,
    desk: SharedDesk<S, J>,
    keeper: Keeper<S, J>,
    pages: LogWriter<W, J>,
) -> (Closed<S, J>, W, bool)
    ensures whole { result.2 ≡ true
        → AreMinutesOf J.problem result.0 J.start (W.Sink.taken result.1) }
    ensures part { IsPartOf W.Sink.taken J.problem J.opening J.start result.1 }
{
    let Keeper { planner, list } = keeper;
    let mut planner = planner;
    pages.show(&mut planner);
    let (closed, is_seen) = close_by(rt, desk, planner, list);
    let (writer, is_whole) = pages.end(&closed, is_seen);
    (closed, writer, is_whole)
}

/// Closes a desk whose seats have ended, with its log, if there is one.
fn close_all<S: Timetable, J: Naming + Begun, W: Durable, R: Wait>(
    rt: &R,
    alloc: Global,
    desk: SharedDesk<S, J>,
    keeper: Keeper<S, J>,
    log: Option<WriteAheadLog<W, J>>,
) -> (Closed<S, J>, Option<W>, bool)
    ensures given { is_some result.1 ≡ is_some log }
    ensures whole { result.2 ≡ true → IfSome result.1
        (λ writer. AreMinutesOf J.problem result.0 J.start (W.Sink.taken writer)) }
    ensures part { IfSome result.1 (IsPartOf W.Sink.taken J.problem J.opening J.start) }
{
    match log {
        Some(log) => {
            let (closed, writer, is_whole) = close_on(rt, desk, keeper, log.into_writer());
            (closed, Some(writer), is_whole)
        }
        None => {
            drop_whole(keeper);
            (end_desk(rt, alloc, desk), None, true)
        }
    }
}

/// Returns the fault of the seats, if any, or `NotWritten` if the minutes lack an accepted draft.
fn check_end(ended: Result<(), OfficeFault>, is_whole: bool) -> Result<(), OfficeFault>
    ensures well { OnOk result ((ended ≡ Ok tt) × (is_whole ≡ true)) }
    ensures first { IfErr ended (λ fault. result ≡ Err fault) }
    ensures last { OnOk ended (IfErr result (λ fault. fault ≡ NotWritten)) }
    ensures fault { (seats : ℕ) → IfErr ended (IsOfficeFault seats)
        → IfErr result (IsOfficeFault seats) }
{
    ended?;
    if is_whole {
        Ok(())
    } else {
        Err(OfficeFault::NotWritten)
    }
}

/// Returns the last lines of a closed desk, or the fault with which it ended.
fn last_lines<S: Timetable, J: Naming>(
    alloc: Global,
    closed: &Closed<S, J>,
    ended: Result<(), OfficeFault>,
) -> Result<Vec<u8>, OfficeFault>
    ensures text { IfOk result (λ text. IsCrewText J.problem J.opening [] text.items) }
    ensures lines { IfOk result (λ text.
        text.items ≡ closing_text J.problem J.opening [] closed.now) }
    ensures legal { Legal J.problem J.opening closed.now }
    ensures well { OnOk result (ended ≡ Ok tt) }
    ensures fault { (seats : ℕ) → IfErr ended (IsOfficeFault seats)
        → IfErr result (IsOfficeFault seats) }
{
    closed.accepted();
    ended?;
    Ok(closing_report(alloc, closed, Vec::new(alloc))?)
}

/// Closes a desk whose seats have ended. Returns its last lines, or the fault of its seats or of
/// its minutes, and the writer of the minutes.
pub(crate) fn close<S: Timetable, J: Naming + Begun, W: Durable, R: Wait>(
    rt: &R,
    alloc: Global,
    desk: SharedDesk<S, J>,
    keeper: Keeper<S, J>,
    log: Option<WriteAheadLog<W, J>>,
    ended: Result<(), OfficeFault>,
) -> (Result<Vec<u8>, OfficeFault>, Option<W>)
    ensures text { IfOk result.0 (λ text. IsCrewText J.problem J.opening [] text.items) }
    ensures recorded { IfOk result.0 (λ text.
        IsRecorded W.Sink.taken J.problem J.opening J.start result.1 text.items) }
    ensures part { IfSome result.1 (IsPartOf W.Sink.taken J.problem J.opening J.start) }
    ensures given { is_some result.1 ≡ is_some log }
    ensures fault { (seats : ℕ) → IfErr ended (IsOfficeFault seats)
        → IfErr result.0 (IsOfficeFault seats) }
{
    let (closed, minutes, is_whole) = close_all(rt, alloc, desk, keeper, log);
    let text = last_lines(alloc, &closed, check_end(ended, is_whole));
    drop_whole(closed);
    (text, minutes)
}
