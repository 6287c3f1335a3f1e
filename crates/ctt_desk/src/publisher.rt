//! The writer of the published copies.

ghost use Rattle.std.specs.Prelude.{◌≡◌, ◌<◌, ◌^◌, [], IfOk};
ghost use Rattle.ctt_desk.specs.Published.{IsAfterHistory};

use crate::naming::Naming;
use crate::observed_prefix::ObservedPrefix;
use crate::shown::{Place, Published, Sees, Shown, View};
use crate::update::Update;
use ctt_board::Timetable;
use ctt_problem::{NoMemory, drop_whole};
use left_right::Absorb;
use left_right::writer::Writer;
use std::alloc::Global;
use std::marker::Model;
use std::sync::Wait;

/// The two copies: the one that readers enter, and a spare that lacks the latest update. Contracts
/// see the first.
pub(crate) struct Publisher<S: Timetable, J: Naming>
where
    Shown<S, J>: Absorb<(), State = ()>,
{
    writer: Writer<Shown<S, J>, (), View, Published<J>>,
    last: Update<J>,
}

impl<S: Timetable, J: Naming> Model for Publisher<S, J>
where
    Shown<S, J>: Absorb<(), State = ()>,
{
    ghost use Rattle.std.specs.Prelude.{◌≡◌};
    ghost use Rattle.ctt_desk.specs.Published.{ShownValue};

    ghost Value = { ShownValue };

    ghost view = { λ p. p.writer.desk.shown.value };

    ghost invariant = { λ p. (p.last.before ≡ p.writer.desk.spare.value.history)
        × (p.last.front ≡ p.writer.desk.shown.value.history) };
}

impl<S: Timetable, J: Naming> Publisher<S, J> {
    /// Publishes copies of an opening, with this many places for readers.
    pub(crate) fn new<R: Wait>(
        rt: &R,
        alloc: Global,
        opening: &S,
        front: &ObservedPrefix<J>,
        places: usize,
    ) -> Result<Self, NoMemory>
        requires places { (0 < places) × (places < 2 ^ 32) }
        requires opening { IsAfterHistory J.problem J.opening (S.problem opening.now)
            (S.list opening.now) front.now }
        requires front { front.now ≡ [] }
        ensures { IfOk result (λ publisher. publisher.history ≡ []) }
    {
        let first = Shown::copy_of(opening, front)?;
        let second = Shown::copy_of(opening, front)?;
        let third = Shown::copy_of(opening, front)?;
        let mut writer = Writer::new(alloc, first, second, places)?;
        // `Writer::new` promises nothing about the spare copy, so a third copy replaces it.
        let (open, mut spare) = writer.desk.open(rt);
        *spare = third;
        writer.desk = open.show_as::<Sees<J>>(spare);
        let last = Update::none(alloc, front);
        Ok(Publisher { writer, last })
    }

    /// Returns a reader that has seen nothing, or `None` if `left_right` refuses a place.
    pub(crate) fn place(&self) -> Option<Place<S, J>> {
        self.writer.factory().reader().ok()
    }

    /// Publishes the changes of a commit all at once. Allocates nothing; waits until no reader is
    /// left in the spare copy.
    pub(crate) fn publish<R: Wait>(self, rt: &R, update: Update<J>) -> Self
        requires { update.before ≡ self.history }
        ensures { result.history ≡ update.front }
    {
        let Publisher { mut writer, last } = self;
        let (open, mut spare) = writer.desk.open(rt);
        spare.take_in(&last);
        spare.take_in(&update);
        writer.desk = open.show_as::<Sees<J>>(spare);
        Publisher {
            writer,
            last: update,
        }
    }

    /// Ends the publishing: no reader can enter any more.
    pub(crate) fn end<R: Wait>(self, rt: &R) {
        let Publisher { writer, last: _ } = self;
        drop_whole(writer.take(rt));
    }
}
