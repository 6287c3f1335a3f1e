//! Prefixes of a desk's history that were seen.

ghost use Rattle.std.specs.Prelude.{◌≡◌, ◌+◌, ◌<◌, ◌≤◌, ◌^◌, ◌++◌, ◌∷◌, ◌⊎◌, ◌↔◌, IsTrue, IfSome, [], length};
ghost use mathlib.Core.List.{IsPrefix};
ghost use Rattle.ctt_draft.specs.Drafts.{calls_of, replies_in, replies};
ghost use Rattle.ctt_core.specs.Runs.{after, Legal};
ghost use Rattle.ctt_desk.specs.Books.{head_of};
ghost use Rattle.ctt_desk.specs.Histories.{entry_of};

use crate::book::{Addition, BookRule, NoTrade};
use crate::naming::Naming;
use ctt_board::Timetable;
use ctt_core::{JournalEntry, PlannerNo};
use ctt_draft::Draft;
use logbook::{Offer, Plain, Seen, Word};
use std::marker::{Model, PhantomData};

/// The logbook word through which the history grows. It is under the lock.
#[derive(Drop)]
pub(crate) struct Head<J: Naming> {
    word: Word<JournalEntry, u64, BookRule>,
    desk: PhantomData<J>,
    ghost head_is: { word ≡ head_of J.book },
}

/// A legal prefix of the desk's history that was seen.
pub(crate) struct ObservedPrefix<J: Naming> {
    drafts: u64,
    seen: Seen<JournalEntry, u64, BookRule>,
    desk: PhantomData<J>,
}

// A derived `Drop` would be proved again in every dependent crate.
impl<J: Naming> Drop for ObservedPrefix<J> {
    fn drop(self) {
        let ObservedPrefix {
            drafts: _,
            seen: _,
            desk: _,
        } = self;
    }
}

impl<J: Naming> Model for ObservedPrefix<J> {
    ghost use Rattle.std.specs.Prelude.{◌≡◌, List, length};
    ghost use Rattle.ctt_core.specs.Runs.{Legal};
    ghost use Rattle.ctt_core.specs.declared.journal.JournalEntry.{JournalEntry};

    ghost Value = { List JournalEntry };

    ghost view = { λ f. f.seen.log };

    ghost invariant = { λ f. (f.drafts ≡ length f.seen.log) × (f.seen.book ≡ J.book)
        × Legal J.problem J.opening f.seen.log };
}

/// Returns the head and the empty front of a logbook that was just opened.
pub(crate) fn first<J: Naming>(
    word: Word<JournalEntry, u64, BookRule>,
    seen: Seen<JournalEntry, u64, BookRule>,
) -> (Head<J>, ObservedPrefix<J>)
    requires book { seen.book ≡ J.book }
    requires empty { seen.log ≡ [] }
    requires word { word ≡ head_of J.book }
    ensures { result.1 ≡ [] }
{
    let head = Head {
        word,
        desk: PhantomData,
    };
    let front = ObservedPrefix {
        drafts: 0,
        seen,
        desk: PhantomData,
    };
    (head, front)
}

impl<J: Naming> ObservedPrefix<J> {
    /// Returns how many drafts were seen.
    pub(crate) fn len(&self) -> u64
        ensures length { result ≡ length self.now }
        ensures legal { Legal J.problem J.opening self.now }
    {
        self.drafts
    }

    /// Returns a copy.
    pub(crate) fn again(&self) -> Self
        ensures same { result ≡ self.now }
        ensures legal { Legal J.problem J.opening result }
    {
        ObservedPrefix {
            drafts: self.drafts,
            seen: self.seen.again(),
            desk: PhantomData,
        }
    }

    /// Returns whether the other front begins with this one: it does if it is at least as long.
    pub(crate) fn begins(&self, other: &Self) -> bool
        ensures begins { IsTrue result → IsPrefix self.now other.now }
        ensures shorter { IsTrue result ↔ (length self.now ≤ length other.now) }
        ensures legal { Legal J.problem J.opening self.now }
    {
        let mut both = self.seen.again();
        both.learn(&other.seen);
        self.drafts <= other.drafts
    }

    /// Returns the longer of two fronts, which begins with the other.
    pub(crate) fn longer(&self, other: &Self) -> Self
        ensures one { (result ≡ self.now) ⊎ (result ≡ other.now) }
        ensures this { IsPrefix self.now result }
        ensures that { IsPrefix other.now result }
        ensures legal { Legal J.problem J.opening result }
    {
        let mut both = self.seen.again();
        both.learn(&other.seen);
        if self.drafts < other.drafts {
            other.again()
        } else {
            self.again()
        }
    }
}

/// A planner, and the draft whose calls become his journal entry.
#[derive(Drop)]
pub(crate) struct Proposal<'a, 'i, S: Timetable> {
    planner: PlannerNo,
    draft: &'a Draft<'i, S>,
}

impl<'a, 'i, S: Timetable> Plain<Proposal<'a, 'i, S>, JournalEntry, u64> for Addition {
    ghost use Rattle.std.specs.Prelude.{None};
    ghost use Rattle.ctt_desk.specs.Histories.{entry_of};

    ghost ask = { λ p. entry_of p.planner p.draft.now.asked };

    ghost state = { λ p. None };
}

/// Appends the entry of a draft to the desk's history, and returns the longer front. Returns
/// `None`, and appends nothing, if the desk's history is longer than `front`, which the lock rules
/// out.
pub(crate) fn extend<'i, S: Timetable, J: Naming>(
    front: &ObservedPrefix<J>,
    head: &Head<J>,
    planner: PlannerNo,
    draft: &Draft<'i, S>,
) -> Option<ObservedPrefix<J>>
    requires room { length front.now + 1 < 2 ^ 64 }
    requires legal { replies_in draft.now.asked
        ≡ replies J.problem (after J.problem J.opening front.now) (calls_of draft.now.asked) }
    ensures { IfSome result (λ longer.
        longer ≡ front.now ++ entry_of planner draft.now.asked ∷ []) }
{
    let proposal = Proposal { planner, draft };
    let mut seen = front.seen.again();
    let mut offer: Offer<JournalEntry, u64, BookRule, NoTrade> = seen.plain::<
        NoTrade,
        Proposal<S>,
        Addition,
    >(&proposal);
    let mut pen = seen.no_pen();
    let drafts = front.drafts;
    let found = head
        .word
        .compare_exchange::<Addition, NoTrade>(drafts, drafts + 1, &mut seen, &mut offer, &mut pen);
    if found != drafts {
        return None;
    }
    Some(ObservedPrefix {
        drafts: drafts + 1,
        seen,
        desk: PhantomData,
    })
}
