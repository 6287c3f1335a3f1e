//! A row of a comparison: the report on a solution in short.

use ctt_rules::{Cost, Hard};

/// What a solution counts and costs, with the sums, and the two judgements on it.
#[derive(Clone, Copy)]
pub(crate) struct Score {
    pub(crate) hard: Hard,
    pub(crate) violations: u64,
    pub(crate) cost: Cost,
    pub(crate) total: u64,
    pub(crate) lawful: bool,
    pub(crate) complete: bool,
}

/// A file that is compared: the number and the name of its instance, its own name, and the score of
/// its solution, or the text of the fault for which it is refused.
#[derive(Drop)]
pub(crate) struct Row {
    pub(crate) number: usize,
    pub(crate) instance: String,
    pub(crate) file: String,
    pub(crate) judged: Result<Score, String>,
}
