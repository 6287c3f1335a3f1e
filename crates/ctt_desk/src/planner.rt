//! Planners.

ghost use Rattle.std.specs.Prelude.{◌≡◌, ◌+◌, ◌<◌, ◌≤◌, ◌↔◌, ◌⊎◌, [], length, IsTrue, IfOk, IfErr};
ghost use mathlib.Core.List.{IsPrefix};
ghost use Rattle.ctt_edits.specs.Fitting.{IsReply};
ghost use Rattle.ctt_edits.specs.Looks.{LookFits, shown as shown_of};
ghost use Rattle.ctt_draft.specs.Drafts.{calls_of, stale};
ghost use Rattle.ctt_core.specs.Runs.{after, Legal};
ghost use Rattle.ctt_desk.specs.Histories.{own};
ghost use Rattle.ctt_desk.specs.Planners.{new_planner, committed_more, seen_up_to, Grows, IsOpen, IsViewed};
ghost use Rattle.ctt_desk.specs.Refusals.{HasNotRead};

use crate::drafting::Drafting;
use crate::naming::Naming;
use crate::observed_prefix::ObservedPrefix;
use crate::receipt::Receipt;
use crate::shared_fault::SharedFault;
use crate::shown::{Place, Shown, enter};
use ctt_board::{Sheet, Timetable};
use ctt_core::PlannerNo;
use ctt_draft::Draft;
use ctt_edits::{Look, Reply, Row, edit_laws};
use ctt_problem::NoMemory;
use std::alloc::Global;
use std::marker::Model;

/// A planner, who opens and commits drafts. Contracts see the number, how many drafts the planner
/// has committed, and the front: the history that the planner has seen.
pub struct Planner<S: Timetable, J: Naming> {
    pub(crate) alloc: Global,
    pub(crate) number: PlannerNo,
    pub(crate) committed: u64,
    pub(crate) front: ObservedPrefix<J>,
    /// `None` only while the planner reads.
    pub(crate) place: Option<Place<S, J>>,
}

// A derived `Drop` would be proved again in every dependent crate.
impl<S: Timetable, J: Naming> Drop for Planner<S, J> {
    fn drop(self) {
        let Planner {
            alloc: _,
            number: _,
            committed: _,
            front: _,
            place: _,
        } = self;
    }
}

impl<S: Timetable, J: Naming> Model for Planner<S, J> {
    ghost use Rattle.std.specs.Prelude.{◌<◌, ◌≤◌, length, IsSome};
    ghost use Rattle.ctt_core.specs.Runs.{Legal};
    ghost use Rattle.ctt_desk.specs.Histories.{own};
    ghost use Rattle.ctt_desk.specs.Planners.{PlannerValue};

    ghost Value = { PlannerValue };

    ghost view = { λ p. record { number = p.number; committed = p.committed; front = p.front } };

    ghost invariant = { λ p. (p.number < J.planners) × Legal J.problem J.opening p.front
        × (p.committed ≤ length (own p.number p.front)) × IsSome p.place };
}

impl<S: Timetable, J: Naming> Planner<S, J> {
    /// Makes a planner who has committed and seen nothing.
    pub(crate) fn new(
        alloc: Global,
        number: u16,
        front: &ObservedPrefix<J>,
        place: Place<S, J>,
    ) -> Self
        requires number { number < J.planners }
        requires front { front.now ≡ [] }
        ensures { result ≡ new_planner number }
    {
        Planner {
            alloc,
            number: PlannerNo::new(number),
            committed: 0,
            front: front.again(),
            place: Some(place),
        }
    }

    /// Returns the planner's number, counted from 0.
    pub fn number(&self) -> PlannerNo
        ensures number { result ≡ self.now.number }
        ensures of_desk { self.now.number < J.planners }
    {
        self.number
    }

    /// Returns how many drafts the planner has committed: at most as many of his own as he has
    /// seen.
    pub fn committed(&self) -> u64
        ensures committed { result ≡ self.now.committed }
        ensures seen { self.now.committed ≤ length (own self.now.number self.now.front) }
    {
        self.committed
    }

    /// Returns how many drafts of the desk's history the planner has seen.
    pub fn seen(&self) -> u64
        ensures seen { result ≡ length self.now.front }
        ensures legal { Legal J.problem J.opening self.now.front }
    {
        self.front.len()
    }

    /// Returns a copy of the history that the planner has seen.
    pub(crate) fn front(&self) -> ObservedPrefix<J>
        ensures same { result ≡ self.now.front }
        ensures legal { Legal J.problem J.opening result }
    {
        self.front.again()
    }

    /// Returns whether a history begins with the planner's front.
    pub(crate) fn begins(&self, history: &ObservedPrefix<J>) -> bool
        ensures begins { IsTrue result → IsPrefix self.now.front history.now }
        ensures shorter { IsTrue result ↔ (length self.now.front ≤ length history.now) }
    {
        self.front.begins(history)
    }

    /// Replaces the planner's front.
    pub(crate) fn seeing(self, front: ObservedPrefix<J>) -> Self
        requires { self.committed ≤ length (own self.number front) }
        ensures { result ≡ seen_up_to self front }
    {
        let mut planner = self;
        planner.front = front;
        planner
    }

    /// Counts a commit, the last entry of `front`, and returns the planner with its receipt.
    #[inline(always)]
    pub(crate) fn with_receipt(self, front: ObservedPrefix<J>) -> (Self, Receipt<J>)
        requires { length (own self.number front) ≡ self.committed + 1 }
        ensures planner { result.0 ≡ committed_more (seen_up_to self front) }
        ensures receipt { result.1 ≡ front }
    {
        let seen = front.len();
        let committed = self.committed;
        prove!(committed < seen);
        let receipt = Receipt {
            front: front.again(),
        };
        let mut planner = self;
        planner.committed = committed + 1;
        planner.front = front;
        (planner, receipt)
    }

    /// Replaces the planner's front with the receipt's history, if that is longer.
    pub fn learn(&mut self, receipt: &Receipt<J>)
        ensures grows { Grows J.problem J.opening self.old self.new }
        ensures receipt { IsPrefix receipt.now self.new.front }
        ensures one { (self.new.front ≡ self.old.front) ⊎ (self.new.front ≡ receipt.now) }
    {
        self.front = self.front.longer(&receipt.front);
    }
}

impl<'i, S: Sheet<'i>, J: Naming> Planner<S, J> {
    /// Opens a draft on the latest published timetable, whose history the planner has then seen.
    #[tactic(auto, using(crate::proofs::PrefixLemmas::prefix_same))]
    pub fn open(self) -> Result<Drafting<'i, S, J>, (Self, SharedFault)>
        ensures ok { IfOk result (IsOpen J.problem J.opening self) }
        ensures err { IfErr result (λ refused.
            HasNotRead J.problem J.opening self refused.0 refused.1) }
    {
        let mut planner = self;
        match enter(planner.place.take().unwrap(), &planner.front) {
            Err(place) => {
                planner.place = Some(place);
                Err((planner, SharedFault::NoPlace))
            }
            Ok((visit, seen)) => {
                let opened = draft_on(planner.alloc, visit.get());
                planner.place = Some(visit.leave());
                planner.front = seen;
                match opened {
                    Ok(draft) => {
                        let since = planner.front();
                        Ok(Drafting {
                            planner,
                            draft,
                            since,
                        })
                    }
                    Err(_) => Err((planner, SharedFault::NoMemory)),
                }
            }
        }
    }

    /// Looks at the latest published timetable, whose history the planner has then seen.
    pub fn view(&mut self, look: &Look) -> Result<Reply, SharedFault>
        requires { LookFits J.problem look.now }
        ensures ok { IfOk result (IsViewed J.problem J.opening look.now self.old self.new) }
        ensures fits { IfOk result (IsReply J.problem) }
        ensures err { IfErr result (HasNotRead J.problem J.opening self.old self.new) }
    {
        match enter(self.place.take().unwrap(), &self.front) {
            Err(place) => {
                self.place = Some(place);
                Err(SharedFault::NoPlace)
            }
            Ok((visit, seen)) => {
                let told = look_at(self.alloc, &visit.get().sheet, look);
                self.place = Some(visit.leave());
                self.front = seen;
                Ok(told?)
            }
        }
    }

    /// Returns the least row that a draft read and that differs in the latest published timetable,
    /// whose history the planner has then seen.
    pub(crate) fn stale(&mut self, draft: &Draft<'i, S>) -> Result<Option<Row>, SharedFault>
        requires { draft.now.problem ≡ J.problem }
        ensures row { IfOk result (λ row. row ≡ stale J.problem draft.now.base
            (after J.problem J.opening self.new.front) (calls_of draft.now.asked)) }
        ensures grows { IfOk result (λ _. Grows J.problem J.opening self.old self.new) }
        ensures err { IfErr result (HasNotRead J.problem J.opening self.old self.new) }
    {
        match enter(self.place.take().unwrap(), &self.front) {
            Err(place) => {
                self.place = Some(place);
                Err(SharedFault::NoPlace)
            }
            Ok((visit, seen)) => {
                let row = stale_on(draft, visit.get());
                self.place = Some(visit.leave());
                self.front = seen;
                Ok(row)
            }
        }
    }
}

/// Returns the least row that a draft read and that differs in a published timetable.
fn stale_on<'i, S: Sheet<'i>, J: Naming>(draft: &Draft<'i, S>, shown: &Shown<S, J>) -> Option<Row>
    requires { draft.now.problem ≡ J.problem }
    ensures { result ≡ stale J.problem draft.now.base shown.now.list (calls_of draft.now.asked) }
{
    draft.stale(&shown.sheet).unwrap()
}

/// Opens a draft on a published timetable.
fn draft_on<'i, S: Sheet<'i>, J: Naming>(
    alloc: Global,
    shown: &Shown<S, J>,
) -> Result<Box<Draft<'i, S>>, NoMemory>
    ensures problem { IfOk result (λ draft. draft.value.problem ≡ shown.now.problem) }
    ensures base { IfOk result (λ draft. draft.value.base ≡ shown.now.list) }
    ensures asked { IfOk result (λ draft. draft.value.asked ≡ []) }
{
    let draft = Draft::open(alloc, &shown.sheet)?;
    Ok(Box::new(alloc, draft)?)
}

/// Answers a look at a sheet.
fn look_at<'i, S: Sheet<'i>>(alloc: Global, sheet: &S, look: &Look) -> Result<Reply, NoMemory>
    requires { LookFits (S.problem sheet.now) look.now }
    ensures told { IfOk result (λ told.
        told ≡ shown_of (S.problem sheet.now) (S.list sheet.now) look.now) }
    ensures fits { IfOk result (IsReply (S.problem sheet.now)) }
{
    edit_laws::replies_fit();
    sheet.instance().limits_hold();
    sheet.lawful();
    ctt_edits::look(alloc, sheet, look)
}
