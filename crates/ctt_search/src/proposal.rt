//! What a search gives.

use crate::score::Score;

/// A timetable that is proposed in place of another.
#[derive(Drop)]
pub struct Proposal<S> {
    /// The timetable.
    pub sheet: S,
    /// What it is worth.
    pub score: Score,
    /// How many steps the search took.
    pub steps: u64,
}
