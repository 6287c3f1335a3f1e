//! The desk: a timetable, the planners' open drafts on it, and the journal.

ghost use Rattle.std.specs.Prelude.{◌≡◌, ℕ, List, [], ◌∷◌, length, None, Ok, IfOk, IfErr, OnErr};
ghost use Rattle.std.specs.List.{AllByRecursion as Each};
ghost use Rattle.ctt_problem.specs.Timetable.{Fits};
ghost use Rattle.ctt_rules.specs.Hard.{Lawful};
ghost use Rattle.ctt_rules.specs.Penalty.{penalty};
ghost use Rattle.ctt_core.specs.Runs.{after, Legal, Turn, answered, accepted_of, EventFits, onto};
ghost use Rattle.ctt_core.specs.Laws.{Stands};
ghost use Rattle.ctt_core.specs.Desks.{IsAnswerTo, next_state, draft_at, SameDesk};
ghost use Rattle.ctt_core.specs.declared.answer.Answer.TheVariants.{NoMemory as OutOfMemory};
ghost use Rattle.ctt_edits.specs.Openings.{opening};
ghost use Rattle.ctt_core.specs.Openings.{IsDeskFault};

use crate::answer::Answer;
use crate::desk_fault::DeskFault;
use crate::desk_laws;
use crate::event::Event;
use crate::journal::JournalEntry;
use crate::open_draft::OpenDraft;
use crate::opening::place_all;
use ctt_board::{Rooms, Sheet, Timetable};
use ctt_problem::{Instance, NoMemory, Placed};
use ctt_rules::Cost;
use std::alloc::{AllocError, Global};
use std::marker::Model;

mod turns;

/// A timetable with the planners' open drafts, and the drafts that were accepted since its opening.
pub struct Desk<'i, S: Timetable> {
    instance: &'i Instance,
    opening: Vec<Placed>,
    sheet: S,
    journal: Vec<JournalEntry>,
    drafts: Vec<Option<OpenDraft<'i, S>>>,
}

// A derived `Drop` is proved anew in each crate above.
impl<'i, S: Timetable> Drop for Desk<'i, S> {
    fn drop(self) {
        let Desk {
            instance: _,
            opening: _,
            sheet: _,
            journal: _,
            drafts: _,
        } = self;
    }
}

impl<'i, S: Timetable> Model for Desk<'i, S> {
    ghost use Rattle.ctt_core.specs.Desks.{DeskValue, IsDesk};

    ghost Value = { DeskValue };

    ghost view = { λ d. record {
      problem = d.instance.now;
      opening = d.opening.items;
      list = S.list d.sheet;
      journal = d.journal.items;
      drafts = d.drafts.items;
    } };

    ghost invariant = { λ d.
        IsDesk d.instance.now (S.problem d.sheet) d.opening.items (S.list d.sheet)
        d.journal.items d.drafts.items };
}

/// Returns a list with `None`, no draft, for each planner.
fn no_drafts<'i, S: Timetable>(
    alloc: Global,
    planners: u16,
) -> Result<Vec<Option<OpenDraft<'i, S>>>, AllocError>
    ensures planners { IfOk result (λ drafts. length drafts.items ≡ planners) }
    ensures none { IfOk result (λ drafts. (p : ℕ) → draft_at drafts.items p ≡ None) }
{
    let mut drafts = Vec::new(alloc);
    for _ in 0..planners {
        drafts.push(None)?;
    }
    Ok(drafts)
}

impl<'i, S: Sheet<'i>> Desk<'i, S> {
    /// Creates a desk for this many planners, whose opening timetable has these lectures, placed in
    /// the given order. Fails at the first lecture that cannot be placed.
    pub fn new(
        alloc: Global,
        instance: &'i Instance,
        lectures: &[Placed],
        planners: u16,
    ) -> Result<Self, DeskFault>
        requires { Each (Fits instance.now) lectures.now }
        ensures problem { IfOk result (λ desk. desk.problem ≡ instance.now) }
        ensures opening { IfOk result (λ desk.
            opening instance.now lectures.now ≡ Ok desk.opening) }
        ensures planners { IfOk result (λ desk. length desk.drafts ≡ planners) }
        ensures stands { IfOk result (λ desk. Stands desk []) }
        ensures fault { IfErr result (IsDeskFault instance.now lectures.now) }
    {
        let sheet: S = place_all(alloc, instance, lectures)?;
        sheet.lawful();
        let opening = sheet.list()?;
        let drafts = no_drafts(alloc, planners)?;
        Ok(Desk {
            instance,
            opening,
            sheet,
            journal: Vec::new(alloc),
            drafts,
        })
    }

    /// Returns the instance whose courses are timetabled.
    pub fn instance(&self) -> &'i Instance
        ensures { result.now ≡ self.now.problem }
    {
        self.instance
    }

    /// Returns the number of planners, who are numbered from 0.
    pub fn planners(&self) -> u16
        ensures { result ≡ length self.now.drafts }
    {
        self.drafts.len() as u16
    }

    /// Returns the timetable's lectures, ordered by course, then slot.
    pub fn list(&self) -> Result<Vec<Placed>, NoMemory>
        ensures { IfOk result (λ list. list.items ≡ self.now.list) }
    {
        self.sheet.list()
    }

    /// Returns the timetable's cost, which is its penalty.
    pub fn cost(&self) -> Cost
        ensures { result ≡ penalty self.now.problem self.now.list }
    {
        self.sheet.cost()
    }

    /// Returns the accepted drafts, in the order of their commits.
    pub fn journal(&self) -> &[JournalEntry]
        ensures { result.now ≡ self.now.journal }
    {
        self.journal.as_slice()
    }

    /// Computes nothing: its contract says that the opening and the timetable are lawful.
    pub fn lawful(&self)
        ensures opening { Lawful self.now.problem self.now.opening }
        ensures list { Lawful self.now.problem self.now.list }
    {
        self.sheet.lawful();
    }

    /// Answers an event. If memory runs out, nothing is done, and an open draft stays open.
    ///
    /// If the desk is in the state that a run of correct answers leads to, it moves to the state of
    /// the longer run, whose answers are correct too: the journal is the accepted history, each
    /// recorded reply is the one that its call gets at its place there, and the timetable is the
    /// opening with the journal applied. The timetable is always lawful.
    pub fn step(&mut self, event: Event) -> Answer
        requires { EventFits self.old.problem (length self.old.drafts) event }
        ensures answer { IsAnswerTo self.old event result }
        ensures state { self.new ≡ next_state self.old event result }
        ensures no_memory { result ≡ OutOfMemory → self.new ≡ self.old }
        ensures same { SameDesk self.old self.new }
        ensures stands { (past : List Turn) → Stands self.old past
            → Stands self.new (answered event result ∷ past) }
        ensures journal { (past : List Turn) → Stands self.old past
            → self.new.journal ≡ accepted_of (answered event result ∷ past) }
        ensures legal { (past : List Turn) → Stands self.old past
            → Legal self.new.problem self.new.opening self.new.journal }
        ensures list { (past : List Turn) → Stands self.old past
            → self.new.list ≡ after self.new.problem self.new.opening self.new.journal }
        ensures lawful { Lawful self.new.problem self.new.list }
    {
        desk_laws::desk_follows_reference();
        desk_laws::desk_is_serial();
        self.lawful();
        let answer = self.answer(event);
        self.lawful();
        answer
    }

    /// Answers events one after another. If there is no memory for the answers, no event is
    /// handled.
    ///
    /// What `step` guarantees for one event holds for all of them.
    pub fn run(&mut self, events: &[Event]) -> Result<Vec<Answer>, NoMemory>
        requires { Each (EventFits self.old.problem (length self.old.drafts)) events.now }
        ensures same { SameDesk self.old self.new }
        ensures length { IfOk result (λ answers. length answers.items ≡ length events.now) }
        ensures stands { IfOk result (λ answers.
            (past : List Turn) → Stands self.old past
            → Stands self.new (onto past events.now answers.items)) }
        ensures journal { IfOk result (λ answers.
            (past : List Turn) → Stands self.old past
            → self.new.journal ≡ accepted_of (onto past events.now answers.items)) }
        ensures legal { IfOk result (λ answers.
            (past : List Turn) → Stands self.old past
            → Legal self.new.problem self.new.opening self.new.journal) }
        ensures list { IfOk result (λ answers.
            (past : List Turn) → Stands self.old past
            → self.new.list ≡ after self.new.problem self.new.opening self.new.journal) }
        ensures lawful { Lawful self.new.problem self.new.list }
        ensures err { OnErr result (self.new ≡ self.old) }
    {
        desk_laws::desk_is_serial();
        self.lawful();
        let mut answers = Vec::with_capacity(*self.opening.allocator(), events.len())?;
        for event in events {
            let answer = self.step(*event);
            answers.push(answer).unwrap();
        }
        self.lawful();
        Ok(answers)
    }
}
