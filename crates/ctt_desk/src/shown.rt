//! The copies of the timetable that readers enter, and their `left_right` protocol.

ghost use Rattle.std.specs.Prelude.{◌≡◌, IfOk};
ghost use mathlib.Core.List.{IsPrefix};
ghost use Rattle.ctt_desk.specs.Published.{IsAfterHistory};

use crate::naming::Naming;
use crate::observed_prefix::ObservedPrefix;
use crate::update::Update;
use crossbeam_utils::rule::{Outcome, Protocol};
use ctt_board::Timetable;
use ctt_core::JournalEntry;
use ctt_problem::NoMemory;
use left_right::Absorb;
use left_right::reader::{Reader, Reading};
use std::alloc::AllocError;
use std::collections::LinkedList;
use std::marker::{Model, PhantomData};

/// A published timetable with its history: the timetable is the opening after that history.
#[derive(Drop)]
pub struct Shown<S: Timetable, J: Naming> {
    pub(crate) sheet: S,
    pub(crate) front: ObservedPrefix<J>,
}

impl<S: Timetable, J: Naming> Model for Shown<S, J> {
    ghost use Rattle.ctt_desk.specs.Published.{IsAfterHistory, ShownValue};

    ghost Value = { ShownValue };

    ghost view = { λ s. record {
      problem = S.problem s.sheet;
      list = S.list s.sheet;
      history = s.front;
    } };

    ghost invariant = { λ s.
        IsAfterHistory J.problem J.opening (S.problem s.sheet) (S.list s.sheet) s.front };
}

impl<S: Timetable, J: Naming> Shown<S, J> {
    /// Copies a timetable together with its history.
    pub(crate) fn copy_of(sheet: &S, front: &ObservedPrefix<J>) -> Result<Self, NoMemory>
        requires { IsAfterHistory J.problem J.opening (S.problem sheet.now) (S.list sheet.now)
            front.now }
        ensures history { IfOk result (λ shown. shown.history ≡ front.now) }
        ensures right { IfOk result (λ shown.
            IsAfterHistory J.problem J.opening shown.problem shown.list shown.history) }
    {
        Ok(Shown {
            sheet: sheet.copy()?,
            front: front.again(),
        })
    }

    /// Applies the changes of a commit that follows this copy's history. Allocates nothing.
    pub(crate) fn take_in(&mut self, update: &Update<J>)
        requires { update.now.before ≡ self.old.history }
        ensures history { self.new.history ≡ update.now.front }
        ensures grows { IsPrefix self.old.history self.new.history }
        ensures right { IsAfterHistory J.problem J.opening self.new.problem self.new.list
            self.new.history }
    {
        self.sheet.apply_all(update.changes());
        self.front = update.front().again();
    }
}

// No operations are logged: the writer directly changes the copy that nobody reads.
impl<S: Timetable, J: Naming> Absorb<()> for Shown<S, J> {
    type State = ();

    ghost state = { λ _. tt };

    ghost applied = { λ s _. s };

    ghost never_fails = { Unit {0} };

    fn absorb_first(&mut self, _operation: &(), _other: &Shown<S, J>) -> Result<(), AllocError> {
        Ok(())
    }
}

/// The history that a `left_right` seat has seen. No value of this type is ever made.
pub struct View {
    pub seen: LinkedList<JournalEntry>,
}

/// The `left_right` protocol of the published copies.
pub struct Published<J: Naming> {
    desk: PhantomData<J>,
}

impl<S: Timetable, J: Naming> Protocol<Shown<S, J>, View> for Published<J> {
    ghost use Rattle.std.specs.Prelude.{[]};
    ghost use Rattle.ctt_desk.specs.Published.{Keeps, seeing};

    ghost holds = { λ x views. Keeps J.problem J.opening x.problem x.list x.history views };

    ghost first = { seeing [] };
}

/// The outcome of a step in which a reader enters or the writer publishes.
pub struct Sees<J: Naming> {
    desk: PhantomData<J>,
}

impl<S: Timetable, J: Naming> Outcome<Shown<S, J>, View> for Sees<J> {
    ghost use Rattle.ctt_desk.specs.Published.{SeesPublished};

    ghost then = { λ v x y w. SeesPublished J.problem J.opening v y.problem y.list y.history w };
}

/// The reader handle of a planner who is not reading.
pub(crate) type Place<S, J> = Reader<Shown<S, J>, View, Published<J>>;

/// The reader handle of a planner who is reading, with the copy that he reads.
pub(crate) type Visit<S, J> = Reading<Shown<S, J>, View, Published<J>>;

/// Enters the latest published copy, and returns it with its history, which begins with `front`.
/// Returns the place if the writer is gone, or if the copy is older than `front`.
pub(crate) fn enter<S: Timetable, J: Naming>(
    place: Place<S, J>,
    front: &ObservedPrefix<J>,
) -> Result<(Visit<S, J>, ObservedPrefix<J>), Place<S, J>>
    ensures right { IfOk result (λ entered.
        IsAfterHistory J.problem J.opening entered.0.part.value.problem entered.0.part.value.list
        entered.1) }
    ensures begins { IfOk result (λ entered. IsPrefix front.now entered.1) }
{
    let visit = match place.enter_as::<Sees<J>>() {
        Ok(visit) => visit,
        Err(place) => return Err(place),
    };
    let seen = visit.get().front.again();
    if !front.begins(&seen) {
        return Err(visit.leave());
    }
    Ok((visit, seen))
}
