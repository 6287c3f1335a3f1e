//! Crews of two planners on two threads, on the small instance. Each planner waits for the other at
//! every line. The costs were computed by hand from the rules.

use crate::small::small_instance;
use crate::stopped::Stopped;
use ctt_core::PlannerNo;
use ctt_crew::{CrewFault, Gate, crew};
use ctt_text::{Instance, drop_whole};
use std::alloc::Global;
use std::process::Abort;
use std::sync::Wait;
use std::sync::atomic::{AtomicU64, Ordering};
use std::thread::{Threads, yield_now};

/// A gate at which two planners take turns, line by line, beginning with planner 0. It counts the
/// lines that arrived and those that were answered. It gives up after ten million checks, and
/// counts that too.
#[derive(Drop)]
struct TurnsGate {
    came: AtomicU64,
    answered: AtomicU64,
    given_up: AtomicU64,
}

/// Returns the turn, counted from 0, at which a planner of two has a line.
fn turn_of(planner: PlannerNo, line: u64) -> u64 {
    line.saturating_sub(1)
        .saturating_mul(2)
        .saturating_add(u64::from(planner.get()))
}

impl Gate for TurnsGate {
    fn before(&self, planner: PlannerNo, line: u64) {
        self.came.fetch_add(1, Ordering::SeqCst);
        for _ in 0..10_000_000u64 {
            if self.answered.load(Ordering::SeqCst) >= turn_of(planner, line) {
                return;
            }
            yield_now();
        }
        self.given_up.fetch_add(1, Ordering::SeqCst);
    }

    fn after(&self, _planner: PlannerNo, _line: u64) {
        self.answered.fetch_add(1, Ordering::SeqCst);
    }
}

/// Returns whether a crew of two planners with these scripts and this gate writes these answers.
fn is_answered<R: Threads + Wait + Sync>(
    rt: &R,
    alloc: Global,
    small: &Instance,
    gate: &TurnsGate,
    scripts: [&str; 2],
    answers: &str,
) -> Result<bool, CrewFault> {
    let [first, second] = scripts;
    let text = crew(
        rt,
        alloc,
        small,
        &[first.as_bytes(), second.as_bytes()],
        gate,
    )?;
    Ok(text.as_slice() == answers.as_bytes())
}

/// Fails unless two planners with these scripts write these answers and wait for each other at each
/// of `lines` lines.
fn expect_turns<R: Threads + Wait + Abort + Sync>(
    rt: &R,
    alloc: Global,
    scripts: [&str; 2],
    lines: u64,
    answers: &str,
) -> Result<(), Stopped> {
    let small = small_instance(alloc)?;
    let gate = TurnsGate {
        came: AtomicU64::new(0),
        answered: AtomicU64::new(0),
        given_up: AtomicU64::new(0),
    };
    let answered = is_answered(rt, alloc, &small, &gate, scripts, answers);
    drop_whole(small);
    assert!(rt; answered == Ok(true));
    assert_eq!(rt; gate.came.load(Ordering::SeqCst), lines);
    assert_eq!(rt; gate.answered.load(Ordering::SeqCst), lines);
    assert_eq!(rt; gate.given_up.load(Ordering::SeqCst), 0);
    Ok(())
}

#[test]
fn crew_of_two_at_once(rt: HostRuntime) -> Result<(), Stopped> {
    let script = "open\nabandon\n";
    let answers =
        "planner 0\nopened\nabandoned\nplanner 1\nopened\nabandoned\njournal 0\ncosts 0 20 0 0\n";
    expect_turns(&rt, rt.alloc(), [script, script], 4, answers)
}

/// Planner 1 looks at a slot in which planner 0 then commits a lecture.
#[test]
fn crew_of_two_of_whom_one_is_stale(rt: HostRuntime) -> Result<(), Stopped> {
    let places = "open\nplace geo A 0 1\ncommit\n";
    let looks = "open\nslot 0 1\ncommit\n";
    let answers =
        "planner 0\nopened\ndone\ncommitted 1\nplanner 1\nopened\nlectures 0\nstale slot 0 1\n\
        journal 1\ncosts 0 15 2 0\n";
    expect_turns(&rt, rt.alloc(), [places, looks], 6, answers)
}

/// Planner 0 ends with an open draft that places the lecture that planner 1 commits.
#[test]
fn crew_of_two_of_whom_one_leaves_a_draft(rt: HostRuntime) -> Result<(), Stopped> {
    let leaves = "open\nplace geo A 0 1\nopen\n";
    let commits = "open\nplace geo A 0 1\ncommit\n";
    let answers = "planner 0\nopened\ndone\nalready open\nplanner 1\nopened\ndone\ncommitted 1\n\
        journal 1\ncosts 0 15 2 0\n";
    expect_turns(&rt, rt.alloc(), [leaves, commits], 6, answers)
}
