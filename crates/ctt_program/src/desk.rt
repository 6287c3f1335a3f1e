//! The command `desk`.

ghost use Rattle.std.specs.Prelude.{◌≡◌, ◌⊎◌, ◌≤◌, ◌<◌, ◌++◌, Err, true, is_some, length, codes, OnOk, OnErr, IfOk, IfErr};
ghost use Rattle.std.specs.String.{string_bytes};
ghost use Rattle.ctt_office.specs.OfficeFaults.{IsOfficeFault};
ghost use Rattle.ctt_files.specs.Faults.{IfUnwritten};
ghost use Rattle.ctt_files.specs.Output.{AppendsFront};
ghost use Rattle.ctt_files.specs.declared.fault.Fault.TheVariants.{Machine, Usage};
ghost use Rattle.ctt_files.specs.declared.fault.MachineFault.TheVariants.{CannotWrite, NoMemory};
ghost use Rattle.ctt_files.specs.declared.fault.UsageFault.TheVariants.{BadSeats};
ghost use Rattle.ctt_files.specs.declared.outcome.Outcome.TheVariants.{Done};
ghost use Rattle.ctt_commands.specs.Refusals.{IsOfOpening, IsOfWork};
ghost use Rattle.ctt_program.specs.Desks.{AreLastLines, DoesDesk, IsOfOldMinutes, IsOfPlan, IsOfSeats, IsOpenOn, IsToldOf, IsUnread, IsUnreadAt, StopsDesk, TellsLines, Warns};
ghost use Rattle.ctt_program.specs.Seats.{has_seat, has_twice};
ghost use Rattle.ctt_program.specs.Streams.{HasFailed, IsUnmarked, IsUntouched, stream};

use crate::office::{Office, STANDARD};
use ctt_board::Sheet;
use ctt_commands::refused_opening;
use ctt_desk::{Opened, SharedFault};
use ctt_files::{
    Failed, Fault, Files, MachineFault, Outcome, Sides, Sink, UsageFault, fetch_instance,
    fetch_start, print, write_stderr,
};
use ctt_grid::GridSheet;
use ctt_office::{OfficeFault, keep_desk};
use ctt_problem::{Instance, drop_whole};
use std::alloc::{AllocError, Global};
use std::marker::Sync;
use std::sync::Wait;
use std::thread::Threads;

/// The most seats that a desk can have.
const SEAT_LIMIT: usize = 64;

/// The warning at a desk without minutes.
const NO_MINUTES: &str = "timedesk: no minutes: what is committed ends with the desk\n";

/// What a desk is asked for besides its instance: a seat for each planner, the solution that it
/// opens with, and the file for its minutes.
#[derive(Drop)]
pub struct DeskPlan {
    pub seats: Vec<String>,
    pub start: Option<String>,
    pub minutes: Option<String>,
}

/// What a desk is asked for. `sides` are the side files of the instance.
#[derive(Drop)]
pub struct DeskJob {
    pub instance: String,
    pub sides: Sides,
    pub plan: DeskPlan,
}

impl DeskJob {
    /// Creates what is asked for.
    pub fn new(
        instance: String,
        sides: Sides,
        seats: Vec<String>,
        start: Option<String>,
        minutes: Option<String>,
    ) -> Self
        ensures { result ≡ record {
          instance = instance;
          sides = sides;
          plan = record { seats = seats; start = start; minutes = minutes };
        } }
    {
        let plan = DeskPlan {
            seats,
            start,
            minutes,
        };
        DeskJob {
            instance,
            sides,
            plan,
        }
    }
}

/// Returns whether one of the seats has this name.
fn has_seat(seats: &[String], name: &str) -> bool
    ensures { result ≡ has_seat name.now seats.now }
{
    seats.iter().any(|seat| seat.as_str() == name)
}

/// Returns whether a seat is given twice.
fn has_twice(seats: &[String]) -> bool
    ensures { result ≡ has_twice seats.now }
{
    for place in 0..seats.len() {
        if has_seat(&seats[place + 1..], seats[place].as_str()) {
            return true;
        }
    }
    false
}

/// Returns the name of the file from which the lines of a seat are read.
fn input_name(alloc: Global, seat: &str) -> Result<String, AllocError>
    ensures { IfOk result (λ name. string_bytes name ≡ seat.now ++ codes ".in") }
{
    let mut name = String::new(alloc);
    name.push_str(seat)?;
    name.push_str(".in")?;
    Ok(name)
}

/// Returns the fault that the lines of a seat cannot be read.
fn fault_of_seat(alloc: Global, seat: &str) -> Fault
    ensures { IsUnreadAt seat.now result ⊎ (result ≡ Machine NoMemory) }
{
    match input_name(alloc, seat) {
        Ok(name) => Fault::Machine(MachineFault::CannotRead(name)),
        Err(_) => Fault::Machine(MachineFault::NoMemory),
    }
}

/// Converts a fault of a desk with these seats.
fn fault_of_office(alloc: Global, seats: &[String], fault: OfficeFault) -> Fault
    requires { IsOfficeFault (length seats.now) fault }
    ensures cause { IfUnwritten result (Unit {0}) (IsOfWork result ⊎ IsUnread seats.now result) }
    ensures told { IsToldOf seats.now fault result }
{
    match fault {
        OfficeFault::NoPlace => Fault::Machine(MachineFault::NoPlace),
        OfficeFault::NoThread => Fault::Machine(MachineFault::NoThread),
        OfficeFault::CannotRead(place) => fault_of_seat(alloc, seats[place].as_str()),
        OfficeFault::CannotWrite | OfficeFault::NotWritten => {
            Fault::Machine(MachineFault::CannotWrite)
        }
        OfficeFault::NoMemory => Fault::Machine(MachineFault::NoMemory),
    }
}

/// Opens the timetable with which a desk begins: the solution in a file, or the empty one.
fn open_on<'i, S: Sheet<'i>, F: Files>(
    alloc: Global,
    files: &mut F,
    instance: &'i Instance,
    start: Option<String>,
) -> Result<Opened<S>, Fault>
    ensures problem { IfOk result (λ opened. opened.problem ≡ instance.now) }
    ensures opens { IfOk result (λ opened.
        IsOpenOn instance.now start (F.held files.old) opened.list) }
    ensures kept { F.held files.new ≡ F.held files.old }
    ensures cause { IfErr result (λ fault.
        IsOfOpening start (F.held files.old) instance.now fault ⊎ (fault ≡ Machine NoMemory)) }
{
    let lectures = fetch_start(alloc, files, instance, start)?;
    match Opened::<S>::new(alloc, instance, &lectures) {
        Ok(opened) => Ok(opened),
        Err(SharedFault::Unlawful(at, fault)) => {
            Err(refused_opening(alloc, instance, at, &fault))
        }
        Err(SharedFault::NoPlace) => Err(Fault::Machine(MachineFault::NoPlace)),
        Err(SharedFault::NoMemory) => Err(Fault::Machine(MachineFault::NoMemory)),
    }
}

/// Returns the file for minutes, if one is given.
///
/// `MinutesExist` if it has bytes.
fn require_unused<O: Office>(office: &O, minutes: Option<String>) -> Result<Option<String>, Fault>
    ensures same { IfOk result (λ given. given ≡ minutes) }
    ensures cause { IfErr result (IsOfOldMinutes minutes) }
{
    let Some(name) = minutes else {
        return Ok(None);
    };
    if office.has_bytes(&name) {
        return Err(Fault::Machine(MachineFault::MinutesExist(name)));
    }
    Ok(Some(name))
}

/// Returns a plan if its seats are fit for a desk, and its file for minutes is unused.
fn require_fit<O: Office>(office: &O, plan: DeskPlan) -> Result<DeskPlan, Fault>
    ensures same { IfOk result (λ fit. fit ≡ plan) }
    ensures few { OnOk result (length plan.seats.items ≤ 64) }
    ensures many { 64 < length plan.seats.items → result ≡ Err (Usage BadSeats) }
    ensures twice { has_twice plan.seats.items ≡ true → result ≡ Err (Usage BadSeats) }
    ensures cause { IfErr result (IsOfPlan plan) }
{
    if plan.seats.len() > SEAT_LIMIT || has_twice(&plan.seats) {
        return Err(Fault::Usage(UsageFault::BadSeats));
    }
    let DeskPlan {
        seats,
        start,
        minutes,
    } = plan;
    match require_unused(office, minutes) {
        Ok(minutes) => Ok(DeskPlan {
            seats,
            start,
            minutes,
        }),
        Err(fault) => Err(fault),
    }
}

/// Opens the file for minutes, if one is given.
fn minutes_in<O: Office>(office: &O, minutes: Option<String>) -> Result<Option<O::Minutes>, Failed>
    ensures { IfOk result (λ writer. is_some writer ≡ is_some minutes) }
{
    match minutes {
        Some(name) => Ok(Some(office.open_minutes(&name)?)),
        None => Ok(None),
    }
}

/// Warns that commits end with the desk, unless minutes are written.
fn warn<V: Sink>(err: &mut V, is_written: bool)
    ensures { Warns is_written (stream V.taken V.has_failed err.old err.new) }
{
    if !is_written {
        write_stderr(err, NO_MINUTES.as_bytes());
    }
}

/// Runs a desk of the instance until all planners have left, and returns its last lines. If there
/// are no minutes, a warning is written to standard error before the first line of a seat is read.
fn keep<R: Threads + Wait + Sync, F: Files, O: Office, V: Sink>(
    rt: &R,
    alloc: Global,
    files: &mut F,
    office: &O,
    err: &mut V,
    instance: &Instance,
    plan: DeskPlan,
) -> Result<Vec<u8>, Fault>
    requires some { 1 ≤ length plan.seats.items }
    requires few { length plan.seats.items ≤ 64 }
    ensures lines { IfOk result (λ lines.
        AreLastLines instance.now plan.start (F.held files.old) lines.items) }
    ensures warned { OnOk result
        (Warns (is_some plan.minutes) (stream V.taken V.has_failed err.old err.new)) }
    ensures cause { IfErr result (λ fault. IfUnwritten fault
        (Unit {0}) (IsOfSeats plan (F.held files.old) instance.now fault)) }
    ensures stopped { OnErr result ((err.new ≡ err.old)
        ⊎ Warns (is_some plan.minutes) (stream V.taken V.has_failed err.old err.new)) }
    ensures kept { F.held files.new ≡ F.held files.old }
{
    let DeskPlan {
        seats,
        start,
        minutes,
    } = plan;
    let opened = open_on::<GridSheet, F>(alloc, files, instance, start)?;
    let Ok(writer) = minutes_in(office, minutes) else {
        drop_whole(opened);
        return Err(Fault::Machine(MachineFault::CannotWrite));
    };
    warn(err, writer.is_some());
    let (ended, writer) = keep_desk(rt, alloc, instance, opened, &seats, office, writer);
    drop_whole(writer);
    match ended {
        Ok(text) => Ok(text),
        Err(fault) => Err(fault_of_office(alloc, &seats, fault)),
    }
}

/// Writes the last lines of a desk to standard output, or to standard error if standard output is
/// a seat.
fn print_lines<W: Sink, V: Sink>(
    out: &mut W,
    err: &mut V,
    lines: &[u8],
    is_seat: bool,
) -> Result<Outcome, Fault>
    ensures done { IfOk result (λ outcome. outcome ≡ Done) }
    ensures tells { OnOk result (TellsLines is_seat lines.now
        (stream W.taken W.has_failed out.old out.new)
        (stream V.taken V.has_failed err.old err.new)) }
    ensures flushed { OnOk result ((W.unflushed out.new ≡ 0) ⊎ (out.new ≡ out.old)) }
    ensures unmarked { OnOk result (W.has_failed out.new ≡ W.has_failed out.old) }
    ensures printed { OnErr result ((out.new ≡ out.old)
        ⊎ (AppendsFront (W.taken out.old) (W.taken out.new) lines.now
        × (W.has_failed out.new ≡ true))) }
    ensures cause { IfErr result (λ fault. fault ≡ Machine CannotWrite) }
    ensures said { OnErr result ((err.new ≡ err.old) ⊎ (V.has_failed err.new ≡ true)) }
{
    if is_seat {
        print(err, lines)?;
    } else {
        print(out, lines)?;
    }
    Ok(Outcome::Done)
}

/// Runs a desk of an instance with these seats until all planners have left. Then writes the number
/// of accepted drafts and the costs, to standard output, or to standard error if standard output is
/// a seat. If the seats are refused or the file for minutes has bytes, nothing is opened. The
/// instance is read first, then its side files, and then the start.
pub fn desk<R: Threads + Wait + Sync, F: Files, O: Office, W: Sink, V: Sink>(
    rt: &R,
    alloc: Global,
    files: &mut F,
    office: &O,
    out: &mut W,
    err: &mut V,
    job: DeskJob,
) -> Result<Outcome, Fault>
    requires { 1 ≤ length job.plan.seats.items }
    ensures done { IfOk result (λ outcome. outcome ≡ Done) }
    ensures does { OnOk result (DoesDesk job.instance job.sides job.plan
        (F.held files.old) (F.held files.new) (stream W.taken W.has_failed out.old out.new)
        (stream V.taken V.has_failed err.old err.new)) }
    ensures stops { IfErr result (λ fault. StopsDesk job.instance job.sides job.plan fault
        (F.held files.old) (F.held files.new) (stream W.taken W.has_failed out.old out.new)
        (stream V.taken V.has_failed err.old err.new)) }
    ensures flushed { OnOk result ((W.unflushed out.new ≡ 0) ⊎ (out.new ≡ out.old)) }
    ensures unmarked { OnOk result (W.has_failed out.new ≡ W.has_failed out.old) }
    ensures many { 64 < length job.plan.seats.items → result ≡ Err (Usage BadSeats) }
    ensures twice { has_twice job.plan.seats.items ≡ true → result ≡ Err (Usage BadSeats) }
{
    let DeskJob {
        instance,
        sides,
        plan,
    } = job;
    let plan = require_fit(office, plan)?;
    let is_seat = has_seat(&plan.seats, STANDARD);
    let instance = fetch_instance(alloc, files, instance, sides)?;
    let kept = keep(rt, alloc, files, office, err, &instance, plan);
    drop_whole(instance);
    match kept {
        Ok(lines) => print_lines(out, err, &lines, is_seat),
        Err(fault) => Err(fault),
    }
}
