//! Hooks around the lines of a crew's scripts.

use ctt_core::PlannerNo;
use std::marker::Sync;

/// Hooks that run before and after each line with words in a crew's scripts. Such lines are counted
/// from 1 in each script.
pub trait Gate: Sync {
    /// Runs before the planner's line is answered.
    fn before(&self, planner: PlannerNo, line: u64);

    /// Runs after the planner's line was answered.
    fn after(&self, planner: PlannerNo, line: u64);
}

/// A gate that does nothing.
#[derive(Clone, Copy)]
pub struct NoGate;

impl Gate for NoGate {
    fn before(&self, _planner: PlannerNo, _line: u64) {}

    fn after(&self, _planner: PlannerNo, _line: u64) {}
}
