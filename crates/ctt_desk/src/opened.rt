//! Openings of desks that have no name yet.

ghost use Rattle.std.specs.Prelude.{◌≡◌, Ok, IfOk, IfErr};
ghost use Rattle.std.specs.List.{AllByRecursion as Each};
ghost use Rattle.ctt_problem.specs.Timetable.{Fits};
ghost use Rattle.ctt_edits.specs.Openings.{opening};
ghost use Rattle.ctt_desk.specs.Faults.{IsUnlawful};

use crate::book::BookRule;
use crate::shared_fault::SharedFault;
use ctt_board::{Sheet, Timetable};
use ctt_core::{JournalEntry, place_all};
use ctt_problem::{Instance, Placed};
use logbook::{Seen, Start, Word};
use std::alloc::Global;
use std::marker::Model;

/// The timetable that a desk opens with. Contracts see its instance, its lectures and the logbook
/// of its history, which a caller uses to name the desk.
#[derive(Drop)]
pub struct Opened<S: Timetable> {
    pub(crate) alloc: Global,
    pub(crate) opening: Vec<Placed>,
    pub(crate) sheet: S,
    /// The logbook word through which the history grows, and the history, which is still empty.
    pub(crate) word: Word<JournalEntry, u64, BookRule>,
    pub(crate) seen: Seen<JournalEntry, u64, BookRule>,
}

impl<S: Timetable> Model for Opened<S> {
    ghost use Rattle.std.specs.Prelude.{◌≡◌, []};
    ghost use Rattle.ctt_desk.specs.Names.{OpenedValue};
    ghost use Rattle.ctt_desk.specs.Books.{head_of};

    ghost Value = { OpenedValue };

    ghost view = { λ o. record {
      problem = S.problem o.sheet;
      list = o.opening.items;
      book = o.seen.book;
    } };

    ghost invariant = { λ o. (S.list o.sheet ≡ o.opening.items) × (o.seen.log ≡ [])
        × (o.word ≡ head_of o.seen.book) };
}

impl<'i, S: Sheet<'i>> Opened<S> {
    /// Places these lectures, in this order, on an empty timetable. Fails at the first lecture that
    /// cannot be placed, or if memory runs out.
    pub fn new(
        alloc: Global,
        instance: &'i Instance,
        lectures: &[Placed],
    ) -> Result<Self, SharedFault>
        requires { Each (Fits instance.now) lectures.now }
        ensures problem { IfOk result (λ opened. opened.problem ≡ instance.now) }
        ensures list { IfOk result (λ opened. opening instance.now lectures.now ≡ Ok opened.list) }
        ensures fault { IfErr result (IsUnlawful instance.now lectures.now) }
    {
        let sheet: S = place_all(alloc, instance, lectures)?;
        let opening = sheet.list()?;
        let (seen, mut first, _second) = Seen::open(Start::alone(), 0, 0);
        Ok(Opened {
            alloc,
            opening,
            sheet,
            word: Word::tracked(0, &mut first),
            seen,
        })
    }
}
