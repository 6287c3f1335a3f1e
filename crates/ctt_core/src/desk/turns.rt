//! The turns of a desk: how it handles each event.

ghost use Rattle.std.specs.Prelude.{◌≡◌, ◌⊎◌, ◌+◌, ◌<◌, [], length, None, IfOk};
ghost use Rattle.ctt_edits.specs.Calls.{CallFits};
ghost use Rattle.ctt_edits.specs.Looks.{LookFits};
ghost use Rattle.ctt_core.specs.Runs.{EventFits};
ghost use Rattle.ctt_core.specs.Desks.{IsAnswerTo, next_state, draft_at, with_draft, IsFresh};
ghost use Rattle.ctt_core.specs.declared.answer.Answer.TheVariants.{Committed, NoMemory as OutOfMemory};
ghost use Rattle.ctt_core.specs.declared.event.Event.TheVariants.{Open, Ask, Peek, Status, Commit, Refresh, Abandon, Show};

use crate::answer::Answer;
use crate::desk::Desk;
use crate::draft_status::DraftStatus;
use crate::event::Event;
use crate::journal::JournalEntry;
use crate::open_draft::OpenDraft;
use crate::planner::PlannerNo;
use ctt_board::{Rooms, Sheet};
use ctt_draft::{AskedCalls, Draft};
use ctt_edits::{Call, Look};
use ctt_problem::NoMemory;
use std::alloc::Global;

/// Opens a draft on a sheet, in a box.
fn open_on<'i, S: Sheet<'i>>(alloc: Global, sheet: &S) -> Result<Box<Draft<'i, S>>, NoMemory>
    ensures problem { IfOk result (λ draft. draft.value.problem ≡ S.problem sheet.now) }
    ensures base { IfOk result (λ draft. draft.value.base ≡ S.list sheet.now) }
    ensures asked { IfOk result (λ draft. draft.value.asked ≡ []) }
{
    let draft = Draft::open(alloc, sheet)?;
    Ok(Box::new(alloc, draft)?)
}

impl<'i, S: Sheet<'i>> Desk<'i, S> {
    /// Opens a draft.
    fn open(&mut self, planner: PlannerNo) -> Answer
        requires { planner < length self.old.drafts }
        ensures answer { IsAnswerTo self.old (Open planner) result }
        ensures state { self.new ≡ next_state self.old (Open planner) result }
    {
        let place = planner.get() as usize;
        if self.drafts[place].is_some() {
            return Answer::AlreadyOpen;
        }
        match open_on(*self.opening.allocator(), &self.sheet) {
            Ok(draft) => {
                let since = self.journal.len() as u64;
                self.drafts[place] = Some(OpenDraft { since, draft });
                Answer::Opened
            }
            Err(_) => Answer::NoMemory,
        }
    }

    /// Makes a call in a draft.
    fn ask(&mut self, planner: PlannerNo, call: Call) -> Answer
        requires planner { planner < length self.old.drafts }
        requires fits { CallFits self.old.problem call }
        ensures answer { IsAnswerTo self.old (Ask planner call) result }
        ensures state { self.new ≡ next_state self.old (Ask planner call) result }
    {
        let place = planner.get() as usize;
        match &mut self.drafts[place] {
            None => Answer::NoDraft,
            Some(drafting) => match drafting.draft.call(call) {
                Ok(told) => Answer::Replied(told),
                Err(_) => Answer::NoMemory,
            },
        }
    }

    /// Looks at a draft. This is not a call: the draft is unchanged.
    fn peek(&mut self, planner: PlannerNo, look: &Look) -> Answer
        requires planner { planner < length self.old.drafts }
        requires fits { LookFits self.old.problem look.now }
        ensures answer { IsAnswerTo self.old (Peek planner look.now) result }
        ensures state { self.new ≡ next_state self.old (Peek planner look.now) result }
    {
        let place = planner.get() as usize;
        let told = match &self.drafts[place] {
            None => return Answer::NoDraft,
            Some(drafting) => drafting.draft.peek(look),
        };
        match told {
            Ok(told) => Answer::Replied(told),
            Err(_) => Answer::NoMemory,
        }
    }

    /// Returns the status of a draft. This is not a call: the draft is unchanged. Allocates
    /// nothing.
    fn status(&mut self, planner: PlannerNo) -> Answer
        requires { planner < length self.old.drafts }
        ensures answer { IsAnswerTo self.old (Status planner) result }
        ensures state { self.new ≡ next_state self.old (Status planner) result }
    {
        let place = planner.get() as usize;
        match &self.drafts[place] {
            None => Answer::NoDraft,
            Some(drafting) => {
                let accepted = self.journal.len() as u64;
                let stale = drafting.stale(&self.sheet, accepted);
                let behind = accepted.saturating_sub(drafting.since);
                Answer::Draft(DraftStatus::of(&drafting.draft, behind, stale))
            }
        }
    }

    /// Ends a planner's draft, if there is one.
    fn give_up(&mut self, planner: PlannerNo)
        requires { planner < length self.old.drafts }
        ensures { self.new ≡ with_draft planner None self.old }
    {
        self.drafts[planner.get() as usize] = None;
    }

    /// Ends a draft without accepting it.
    fn abandon(&mut self, planner: PlannerNo) -> Answer
        requires { planner < length self.old.drafts }
        ensures answer { IsAnswerTo self.old (Abandon planner) result }
        ensures state { self.new ≡ next_state self.old (Abandon planner) result }
    {
        let place = planner.get() as usize;
        if self.drafts[place].is_none() {
            return Answer::NoDraft;
        }
        self.give_up(planner);
        Answer::Abandoned
    }

    /// Looks at the timetable as it stands.
    fn show(&mut self, look: &Look) -> Answer
        requires { LookFits self.old.problem look.now }
        ensures answer { IsAnswerTo self.old (Show look.now) result }
        ensures state { self.new ≡ next_state self.old (Show look.now) result }
    {
        match ctt_edits::look(*self.opening.allocator(), &self.sheet, look) {
            Ok(told) => Answer::Replied(told),
            Err(_) => Answer::NoMemory,
        }
    }

    /// Settles a draft that is not stale, and appends it to the journal. Only the room of its entry
    /// may be refused, before anything has changed.
    fn accept(&mut self, planner: PlannerNo) -> Answer
        requires planner { planner < length self.old.drafts }
        requires fresh { IsFresh self.old (draft_at self.old.drafts planner) }
        ensures answer { (result ≡ OutOfMemory)
            ⊎ (result ≡ Committed (length self.old.journal + 1)) }
        ensures state { self.new ≡ next_state self.old (Commit planner) result }
    {
        let place = planner.get() as usize;
        if self.journal.reserve(1).is_err() {
            return Answer::NoMemory;
        }
        let draft = self.drafts[place].take().unwrap().draft;
        let work = Box::into_inner(draft).finish();
        work.settle(&mut self.sheet);
        let asked = AskedCalls::new(work.asked);
        self.journal.push(JournalEntry { planner, asked }).unwrap();
        Answer::Committed(self.journal.len() as u64)
    }

    /// Accepts a draft, or refuses and ends it if it is stale.
    fn commit(&mut self, planner: PlannerNo) -> Answer
        requires { planner < length self.old.drafts }
        ensures answer { IsAnswerTo self.old (Commit planner) result }
        ensures state { self.new ≡ next_state self.old (Commit planner) result }
    {
        let place = planner.get() as usize;
        let found = match &self.drafts[place] {
            None => return Answer::NoDraft,
            Some(drafting) => drafting.stale(&self.sheet, self.journal.len() as u64),
        };
        match found {
            Some(row) => {
                self.give_up(planner);
                Answer::Stale(row)
            }
            None => self.accept(planner),
        }
    }

    /// Brings a draft up to date, or ends it if it is stale.
    fn refresh(&mut self, planner: PlannerNo) -> Answer
        requires { planner < length self.old.drafts }
        ensures answer { IsAnswerTo self.old (Refresh planner) result }
        ensures state { self.new ≡ next_state self.old (Refresh planner) result }
    {
        let place = planner.get() as usize;
        match &mut self.drafts[place] {
            None => Answer::NoDraft,
            Some(drafting) => match drafting.draft.refresh(&self.sheet) {
                Err(_) => Answer::NoMemory,
                Ok(Some(row)) => {
                    self.give_up(planner);
                    Answer::Stale(row)
                }
                Ok(None) => {
                    drafting.since = self.journal.len() as u64;
                    Answer::Refreshed
                }
            },
        }
    }

    /// Dispatches an event to its handler.
    pub(crate) fn answer(&mut self, event: Event) -> Answer
        requires { EventFits self.old.problem (length self.old.drafts) event }
        ensures answer { IsAnswerTo self.old event result }
        ensures state { self.new ≡ next_state self.old event result }
    {
        match event {
            Event::Open(planner) => self.open(planner),
            Event::Ask(planner, call) => self.ask(planner, call),
            Event::Peek(planner, look) => self.peek(planner, &look),
            Event::Status(planner) => self.status(planner),
            Event::Commit(planner) => self.commit(planner),
            Event::Refresh(planner) => self.refresh(planner),
            Event::Abandon(planner) => self.abandon(planner),
            Event::Show(look) => self.show(&look),
        }
    }
}
