//! The order of timetables, by what a planner asks for.

ghost use Rattle.std.specs.Prelude.{◌≡◌};
ghost use Rattle.ctt_search.specs.Scores.{first, last, is_at_most, IsSmallScore};

use crate::score::Score;

/// What is compared of two timetables, after the missing lectures.
#[derive(Clone, Copy, Debug, PartialEq, Eq)]
pub enum Aim {
    /// The penalty and this price for each change, and then the changes.
    Cost(u32),
    /// The changes, and then the penalty.
    Changes,
}

impl Aim {
    /// Returns what is compared after the missing lectures.
    fn first(self, score: &Score) -> u64
        requires { IsSmallScore score.now }
        ensures { result ≡ first self score.now }
    {
        match self {
            Aim::Cost(price) => score.cost + u64::from(price) * score.changes,
            Aim::Changes => score.changes,
        }
    }

    /// Returns what is compared last.
    fn last(self, score: &Score) -> u64
        ensures { result ≡ last self score.now }
    {
        match self {
            Aim::Cost(_) => score.changes,
            Aim::Changes => score.cost,
        }
    }

    /// Returns whether a score is at most another: fewer lectures are missing, or as many and what
    /// is compared then is at most as much.
    pub(crate) fn is_at_most(self, score: &Score, other: &Score) -> bool
        requires small { IsSmallScore score.now }
        requires other_small { IsSmallScore other.now }
        ensures { result ≡ is_at_most self score.now other.now }
    {
        let (here, there) = (self.first(score), self.first(other));
        score.missing < other.missing
            || (score.missing == other.missing
                && (here < there || (here == there && self.last(score) <= self.last(other))))
    }
}
