//! A desk with its seats, from its opening until all planners have left.

ghost use Rattle.std.specs.Prelude.{◌≡◌, ◌≤◌, ◌<◌, ◌+◌, ℕ, [], is_some, length, map, IfErr, IfOk, IfSome, OnOk, string_bytes};
ghost use Rattle.ctt_desk.specs.Names.{IsNameOf};
ghost use Rattle.ctt_seat.specs.Attended.{IsCrewText};
ghost use Rattle.ctt_office.specs.OfficeFaults.{IsOfficeFault, first_fault};
ghost use Rattle.ctt_log.specs.Minutes.{IsPartOf};
ghost use Rattle.ctt_office.specs.Recorded.{IsRecorded, taken_by};
ghost use Rattle.ctt_office.specs.declared.office_fault.OfficeFault.TheVariants.{NoMemory as OutOfMemory};

use crate::closing::{close, desk_named};
use crate::doors::Doors;
use crate::office_fault::{OfficeFault, SeatFault};
use crate::sitting::{GridTask, SeatTask, sit_on_grid};
use ctt_desk::{Naming, Opened, Planner, SharedDesk};
use ctt_grid::GridSheet;
use ctt_log::{Begun, Durable, WriteAheadLog};
use ctt_text::{Instance, drop_whole};
use std::alloc::Global;
use std::marker::{Brand, PhantomData, Send, Sync};
use std::sync::Wait;
use std::thread;
use std::thread::{JoinHandle, Threads};

/// Returns the first fault so far, after the seat with this index has ended too.
fn ended_also(
    ended: Result<(), OfficeFault>,
    place: usize,
    seat: Result<(), SeatFault>,
) -> Result<(), OfficeFault>
    ensures first { result ≡ first_fault ended place seat }
    ensures fault { (seats : ℕ) → place < seats → IfErr ended (IsOfficeFault seats)
        → IfErr result (IsOfficeFault seats) }
{
    ended?;
    match seat {
        Ok(()) => Ok(()),
        Err(fault) => Err(OfficeFault::at_seat(place, fault)),
    }
}

/// Waits until all seats have ended, and returns the fault of the first one that has one.
fn join_all<R: Threads>(
    rt: &R,
    threads: Vec<JoinHandle<Result<(), SeatFault>>>,
) -> Result<(), OfficeFault>
    ensures { IfErr result (IsOfficeFault (length threads.items)) }
{
    let mut ended = Ok(());
    for (place, thread) in threads.into_iter().enumerate() {
        ended = ended_also(ended, place, thread.join(rt));
    }
    ended
}

/// Adds the thread of a planner, if it was started.
fn push_started<T: Drop, E: Drop>(
    threads: &mut Vec<T>,
    started: Result<T, E>,
) -> Result<(), OfficeFault>
    ensures added { OnOk result (length threads.new.items ≡ length threads.old.items + 1) }
    ensures fault { (seats : ℕ) → IfErr result (IsOfficeFault seats) }
{
    match started {
        Ok(thread) => Ok(threads.push(thread)?),
        Err(_) => Err(OfficeFault::NoThread),
    }
}

/// Runs the seats of a desk, each on a thread of its own, until all have ended.
fn sit_at_once<
    'i,
    'x,
    J: Naming + Begun + Send + Sync,
    D: Doors,
    W: Durable + Send,
    R: Threads + Wait + Sync,
>(
    rt: &R,
    alloc: Global,
    desk: &'x SharedDesk<GridSheet<'i>, J>,
    seats: Vec<(Planner<GridSheet<'i>, J>, SeatTask<'i, 'x, J, D, W>)>,
) -> Result<(), OfficeFault>
    ensures { IfErr result (IsOfficeFault (length seats.entry.items)) }
{
    thread::scope(
        thread::scope_env(),
        rt,
        |scope| -> Result<(), OfficeFault>
            ensures { IfErr result (IsOfficeFault (length seats.entry.items)) }
        {
            let mut threads = Vec::new(alloc);
            for (planner, task) in seats {
                let work = GridTask {
                    desk,
                    planner,
                    task,
                };
                let sitting = move || sit_on_grid(work, rt);
                if let Err(fault) = push_started(&mut threads, scope.spawn(sitting)) {
                    drop_whole(threads);
                    return Err(fault);
                }
            }
            join_all(rt, threads)
        },
    )
}

/// Gives each planner a seat, in the order of the names.
fn seat_tasks<'i, 'x, P: Drop, J: Naming + Begun, D: Doors, W: Durable>(
    alloc: Global,
    instance: &'i Instance,
    planners: Vec<P>,
    names: &'x [String],
    doors: &'x D,
    log: Option<&'x WriteAheadLog<W, J>>,
) -> Result<Vec<(P, SeatTask<'i, 'x, J, D, W>)>, OfficeFault>
    requires problem { J.problem ≡ instance.now }
    requires counted { length planners.items ≡ length names.now }
    ensures each { IfOk result (λ seats. length seats.items ≡ length names.now) }
    ensures planners { IfOk result (λ seats. map (λ s. s.0) seats.items ≡ planners.items) }
    ensures names { IfOk result (λ seats.
        map (λ s. s.1.name.now) seats.items ≡ map string_bytes names.now) }
    ensures log { IfOk result (λ seats.
        map (λ s. s.1.log) seats.items ≡ map (λ _. log.entry) seats.items) }
    ensures fault { IfErr result (λ fault. fault ≡ OutOfMemory) }
{
    let mut seats = Vec::with_capacity(alloc, names.len())?;
    for (planner, name) in planners.into_iter().zip(names) {
        let task = SeatTask {
            alloc,
            instance,
            log,
            doors,
            name: name.as_str(),
            desk: PhantomData,
        };
        if let Err(refused) = seats.push((planner, task)) {
            drop_whole(refused);
            drop_whole(seats);
            return Err(OfficeFault::NoMemory);
        }
    }
    Ok(seats)
}

/// Runs the seats with these names until all have ended.
fn seat_all<
    'i,
    J: Naming + Begun + Send + Sync,
    D: Doors,
    W: Durable + Send,
    R: Threads + Wait + Sync,
>(
    rt: &R,
    alloc: Global,
    desk: &SharedDesk<GridSheet<'i>, J>,
    instance: &'i Instance,
    planners: Vec<Planner<GridSheet<'i>, J>>,
    names: &[String],
    doors: &D,
    log: Option<&WriteAheadLog<W, J>>,
) -> Result<(), OfficeFault>
    requires problem { J.problem ≡ instance.now }
    requires counted { length planners.items ≡ length names.now }
    ensures { IfErr result (IsOfficeFault (length names.now)) }
{
    let seats = seat_tasks(alloc, instance, planners, names, doors, log)?;
    sit_at_once(rt, alloc, desk, seats)
}

/// Creates a log on the writer, if there is one.
fn log_on<W: Durable, J: Naming + Begun>(minutes: Option<W>) -> Option<WriteAheadLog<W, J>>
    requires { J.start ≡ taken_by W.Sink.taken minutes }
    ensures { is_some result ≡ is_some minutes }
{
    match minutes {
        Some(writer) => Some(WriteAheadLog::new(writer)),
        None => None,
    }
}

/// Runs the desk that `J` names until all planners have left. It has a seat for each planner but
/// the last, who closes it.
#[tactic(auto, using(crate::proofs::RecordedLemmas::none_taken))]
fn keep_named<
    'i,
    J: Naming + Begun + Send + Sync,
    D: Doors,
    W: Durable + Send,
    R: Threads + Wait + Sync,
>(
    rt: &R,
    alloc: Global,
    instance: &'i Instance,
    opened: Opened<GridSheet<'i>>,
    count: u16,
    names: &[String],
    doors: &D,
    minutes: Option<W>,
) -> (Result<Vec<u8>, OfficeFault>, Option<W>)
    requires named { IsNameOf J.problem J.opening J.planners J.book opened count }
    requires begun { J.start ≡ taken_by W.Sink.taken minutes }
    requires problem { opened.problem ≡ instance.now }
    requires counted { length names.now + 1 ≡ count }
    ensures text { IfOk result.0 (λ text. IsCrewText J.problem J.opening [] text.items) }
    ensures recorded { IfOk result.0 (λ text.
        IsRecorded W.Sink.taken J.problem J.opening J.start result.1 text.items) }
    ensures part { IfSome result.1 (IsPartOf W.Sink.taken J.problem J.opening J.start) }
    ensures given { is_some result.1 ≡ is_some minutes }
    ensures fault { IfErr result.0 (IsOfficeFault (length names.now)) }
{
    match desk_named::<GridSheet<'i>, J, R>(rt, alloc, opened, count) {
        Ok((desk, planners, keeper)) => {
            let kept = log_on(minutes);
            let log = kept.as_ref();
            let sat = seat_all(rt, alloc, &desk, instance, planners, names, doors, log);
            close::<GridSheet<'i>, J, W, R>(rt, alloc, desk, keeper, kept, sat)
        }
        Err(fault) => (Err(fault), minutes),
    }
}

/// Runs a desk with a seat for each name until all planners have left. Each seat has a thread,
/// which opens its devices and answers each line before it reads the next one. If there is a writer
/// for minutes, each accepted draft is entered there before it is reported to its planner. Returns
/// the number of accepted drafts and the costs, as lines, and the writer of the minutes.
pub fn keep_desk<'i, D: Doors, W: Durable + Send, R: Threads + Wait + Sync>(
    rt: &R,
    alloc: Global,
    instance: &'i Instance,
    opened: Opened<GridSheet<'i>>,
    names: &[String],
    doors: &D,
    minutes: Option<W>,
) -> (Result<Vec<u8>, OfficeFault>, Option<W>)
    requires problem { opened.problem ≡ instance.now }
    requires some { 1 ≤ length names.now }
    requires few { length names.now ≤ 64 }
    ensures text { IfOk result.0
        (λ text. IsCrewText instance.now opened.entry.list [] text.items) }
    ensures recorded { IfOk result.0 (λ text. IsRecorded W.Sink.taken instance.now
        opened.entry.list (taken_by W.Sink.taken minutes) result.1 text.items) }
    ensures part { IfSome result.1 (IsPartOf W.Sink.taken instance.now opened.entry.list
        (taken_by W.Sink.taken minutes)) }
    ensures given { is_some result.1 ≡ is_some minutes }
    ensures fault { IfErr result.0 (IsOfficeFault (length names.now)) }
{
    let count = names.len() as u16 + 1;
    keep_named::<Brand, D, W, R>(rt, alloc, instance, opened, count, names, doors, minutes)
}
