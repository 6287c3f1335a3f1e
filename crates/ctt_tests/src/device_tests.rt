//! A script that is run with a writer or a reader that fails after so many bytes, for each number.

ghost use Rattle.std.specs.Prelude.{◌≡◌, None, false};
ghost use Rattle.std.specs.List.{AllByRecursion as Each};
ghost use Rattle.ctt_problem.specs.Timetable.{Fits};

use crate::small::{alg_first, small_instance, top_first};
use crate::stopped::Stopped;
use ctt_edits::EditFault;
use ctt_files::{Count, Failed, Sink, Source};
use ctt_script::{ScriptFault, run_script};
use ctt_text::{CourseNo, Instance, Placed, drop_whole};
use std::alloc::Global;

/// Planner 0 looks at a slot that planner 1 then fills, so the first draft is stale.
const SCRIPT: &str = "0 open
0 slot 0 2
0 place geo A 0 1
1 open
1 place top B 0 2
1 commit
0 commit
show cost
";

/// The answers to the script.
const ANSWERS: &str = "opened
lectures 0
done
opened
done
committed 1
stale slot 0 2
costs 10 15 0 0
";

/// How a writer fails once it is full, or at its flush.
#[derive(Clone, Copy, PartialEq, Eq)]
enum Failing {
    /// A write fails.
    Write,
    /// A write takes no byte.
    Idle,
    /// The flush fails.
    Flush,
}

/// A writer that compares what it takes with the answers.
#[derive(Drop)]
struct FailingWriter {
    failing: Failing,
    /// How many more bytes it takes.
    room: usize,
    taken: usize,
    is_same: bool,
    failures: u64,
    failed: bool,
    unflushed: Count,
}

impl FailingWriter {
    fn new(failing: Failing, room: usize) -> Self {
        FailingWriter {
            failing,
            room,
            taken: 0,
            is_same: true,
            failures: 0,
            failed: false,
            unflushed: Count::new(),
        }
    }
}

/// Returns whether these bytes stand in the answers after so many others.
fn stand_in_answers(before: usize, bytes: &[u8]) -> bool {
    match ANSWERS.as_bytes().get(before..) {
        Some(rest) => rest.starts_with(bytes),
        None => false,
    }
}

impl Sink for FailingWriter {
    ghost has_failed = { λ writer. writer.failed };

    ghost taken = { λ _. None };

    ghost unflushed = { λ writer. writer.unflushed.number };

    fn put(&mut self, bytes: &[u8]) -> Result<usize, Failed> {
        let count = bytes.len().min(self.room);
        if count == 0 {
            if bytes.is_empty() {
                return Ok(0);
            }
            self.failed = true;
            self.failures = self.failures.saturating_add(1);
            return if self.failing == Failing::Idle {
                Ok(0)
            } else {
                Err(Failed)
            };
        }
        self.is_same = self.is_same && stand_in_answers(self.taken, &bytes[..count]);
        self.taken = self.taken.saturating_add(count);
        self.room -= count;
        self.unflushed = self.unflushed.next();
        Ok(count)
    }

    fn flush(&mut self) -> Result<(), Failed> {
        if self.failing == Failing::Flush {
            self.failed = true;
            self.failures = self.failures.saturating_add(1);
            return Err(Failed);
        }
        self.unflushed = Count::new();
        Ok(())
    }
}

/// A reader of the script, byte by byte, that fails after so many.
#[derive(Drop)]
struct FailingReader {
    given: usize,
    until: usize,
    failures: u64,
    failed: bool,
    pulls: Count,
    retries: Count,
}

impl FailingReader {
    fn new(until: usize) -> Self
        ensures { result.failed ≡ false }
    {
        FailingReader {
            given: 0,
            until,
            failures: 0,
            failed: false,
            pulls: Count::new(),
            retries: Count::new(),
        }
    }
}

impl Source for FailingReader {
    ghost has_failed = { λ reader. reader.failed };

    ghost pulls = { λ reader. reader.pulls.number };

    ghost retries = { λ reader. reader.retries.number };

    ghost left = { λ _. None };

    fn pull(&mut self, buffer: &mut [u8]) -> Result<usize, Failed> {
        self.pulls = self.pulls.next();
        if self.failed {
            self.retries = self.retries.next();
        }
        if self.given >= self.until {
            self.failed = true;
            self.failures = self.failures.saturating_add(1);
            return Err(Failed);
        }
        let Some(byte) = SCRIPT.as_bytes().get(self.given) else {
            return Ok(0);
        };
        if buffer.is_empty() {
            return Ok(0);
        }
        buffer[0] = *byte;
        self.given = self.given.saturating_add(1);
        Ok(1)
    }
}

/// How a run ended, and what its devices met.
#[derive(Clone, Copy, PartialEq, Eq)]
struct Ran {
    /// How many bytes of the script were read.
    read: usize,
    failed_reads: u64,
    /// How many bytes were written, and whether they are the first of the answers.
    written: usize,
    is_same: bool,
    /// How many writes failed or took nothing, the flush included.
    failed_writes: u64,
    /// How many drafts the desk accepted, or why there is none.
    end: Result<usize, ScriptFault>,
}

/// Runs the script on an opening with these lectures. The reader fails after `until` bytes, and the
/// writer takes `room`.
fn play(
    alloc: Global,
    small: &Instance,
    lectures: &[Placed],
    until: usize,
    failing: Failing,
    room: usize,
) -> Ran
    requires { Each (Fits small.now) lectures.now }
{
    let mut reader = FailingReader::new(until);
    let mut writer = FailingWriter::new(failing, room);
    let end = match run_script(alloc, small, lectures, &mut reader, &mut writer) {
        Ok(desk) => {
            let entries = desk.journal().len();
            drop_whole(desk);
            Ok(entries)
        }
        Err(fault) => Err(fault),
    };
    Ran {
        read: reader.given,
        failed_reads: reader.failures,
        written: writer.taken,
        is_same: writer.is_same,
        failed_writes: writer.failures,
        end,
    }
}

/// Returns what is met with devices that do not fail.
fn whole() -> Ran {
    Ran {
        read: SCRIPT.len(),
        failed_reads: 0,
        written: ANSWERS.len(),
        is_same: true,
        failed_writes: 0,
        end: Ok(1),
    }
}

/// Returns whether a run whose writer takes so many bytes, or fails at its flush, reads the whole
/// script, writes so much of the answers, tries no more writes, and ends with a failed write.
fn is_cut(alloc: Global, small: &Instance, failing: Failing, room: usize) -> bool {
    let cut = Ran {
        written: room.min(ANSWERS.len()),
        failed_writes: 1,
        end: Err(ScriptFault::Write),
        ..whole()
    };
    play(alloc, small, &[], usize::MAX, failing, room) == cut
}

/// Returns whether a run whose reader fails after so many bytes tries no more reads and no write,
/// and ends with a failed read, although a write would fail too.
fn is_unread(alloc: Global, small: &Instance, until: usize) -> bool {
    let unread = Ran {
        read: until,
        failed_reads: 1,
        written: 0,
        end: Err(ScriptFault::Read),
        ..whole()
    };
    play(alloc, small, &[], until, Failing::Write, 0) == unread
}

/// Returns whether a run on an opening whose second lecture clashes tries no read and no write,
/// although both would fail.
fn is_unopened(alloc: Global, small: &Instance, first: &Placed, second: &Placed) -> bool {
    if !first.fits(small) || !second.fits(small) {
        return false;
    }
    let unopened = Ran {
        read: 0,
        written: 0,
        end: Err(ScriptFault::Unlawful(2, EditFault::Clash(CourseNo::new(0)))),
        ..whole()
    };
    play(alloc, small, &[*first, *second], 0, Failing::Write, 0) == unopened
}

/// Returns whether a run ends as it should with each failing writer.
fn is_cut_each_time(alloc: Global, small: &Instance) -> bool {
    let mut is_so = is_cut(alloc, small, Failing::Flush, usize::MAX);
    for room in 0..ANSWERS.len() {
        is_so = is_so && is_cut(alloc, small, Failing::Write, room);
        is_so = is_so && is_cut(alloc, small, Failing::Idle, room);
    }
    is_so
}

/// Returns whether a run ends as it should with each failing reader.
fn is_unread_each_time(alloc: Global, small: &Instance) -> bool {
    let mut is_so = is_unopened(alloc, small, &alg_first(), &top_first());
    for until in 0..=SCRIPT.len() {
        is_so = is_so && is_unread(alloc, small, until);
    }
    is_so
}

#[test]
fn failing_devices_leave_a_front_of_the_answers(rt: HostRuntime) -> Result<(), Stopped> {
    let small = small_instance(rt.alloc())?;
    let room = ANSWERS.len();
    let is_whole = play(rt.alloc(), &small, &[], usize::MAX, Failing::Write, room) == whole();
    let is_cut = is_cut_each_time(rt.alloc(), &small);
    let is_unread = is_unread_each_time(rt.alloc(), &small);
    drop_whole(small);
    assert!(rt; is_whole);
    assert!(rt; is_cut);
    assert!(rt; is_unread);
    Ok(())
}
