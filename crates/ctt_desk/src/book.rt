//! The logbook in which a desk's history grows.

use ctt_core::JournalEntry;
use logbook::{Gain, Play, Rule};

/// The rule of the logbook: its first word is the length of the history.
pub struct BookRule;

impl Rule<JournalEntry, u64> for BookRule {
    ghost use Rattle.std.specs.Prelude.{[]};
    ghost use base.Fml.{ftrue};
    ghost use Rattle.ctt_desk.specs.Books.{IsKept};

    ghost holds = { λ cells history. IsKept cells history };

    ghost first = { [] };

    ghost hinted = { λ n history. Unit {0} };

    ghost shows = { λ history. [] };

    ghost keeps = { λ names history. ftrue };

    ghost moves = { λ ask before after answer. Unit {0} };
}

/// The empty gain: a step that adds an entry gets nothing in return.
pub struct NoTrade;

impl Gain<JournalEntry, u64> for NoTrade {
    ghost use base.Fml.{ftrue};

    ghost after = { λ names about answer. ftrue };
}

/// The step that adds an entry.
pub struct Addition;

impl Play<JournalEntry, u64> for Addition {
    ghost use Rattle.ctt_desk.specs.Books.{AppendsEntry};

    ghost then = { AppendsEntry };
}
