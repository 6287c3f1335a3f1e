//! What a planner asks of a search.

use ctt_problem::BitRows;

/// What a planner asks of a search.
#[derive(Drop)]
pub struct Wish {
    /// What each change costs, beside the penalty.
    pub price: u32,
    /// How many lectures may be changed at most, if there is a bound.
    pub most_changes: Option<u32>,
    /// For each slot, the courses whose lectures there stay where they are.
    pub pins: BitRows,
    /// What the random draws begin with.
    pub seed: u64,
    /// How many steps the search takes, if it is not stopped.
    pub steps: u64,
}
