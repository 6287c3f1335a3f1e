//! A draft: one planner's calls on a private copy of the timetable.

ghost use Rattle.std.specs.Prelude.{◌≡◌, [], List, IfOk, OnOk, OnErr, None, Ok};
ghost use Rattle.ctt_problem.specs.declared.placed.Placed.{Placed as Lecture};
ghost use Rattle.ctt_edits.specs.Calls.{CallFits, reply, cells_of_call};
ghost use Rattle.ctt_edits.specs.declared.call.Call.TheVariants.{Look as Looks, Edit as Edits};
ghost use Rattle.ctt_edits.specs.declared.reply.Reply.TheVariants.{Done};
ghost use Rattle.ctt_edits.specs.Edits.{EditFits, edit_fault, change as change_of};
ghost use Rattle.ctt_edits.specs.Looks.{LookFits, shown};
ghost use Rattle.ctt_rules.specs.Hard.{Lawful};
ghost use Rattle.ctt_draft.specs.Drafts.{calls_of, changes, stale, whole};
ghost use Rattle.ctt_draft.specs.Replays.{replayed};
ghost use Rattle.ctt_draft.specs.DraftValues.{present, asked_more, IsTold};
ghost use Rattle.ctt_draft.specs.Undo.{undo_of};

use crate::asked::Asked;
use crate::draft_laws;
use crate::undo::Undo;
use crate::work::Work;
use ctt_board::{Cell, Change, Rooms, Sheet, Timetable};
use ctt_edits::{Call, Edit, Look, Reply, RowsRead, check};
use ctt_problem::{Instance, NoMemory};
use std::alloc::Global;
use std::marker::Model;

mod staleness;
mod undoing;

/// A planner's open draft: a snapshot of the timetable, the calls made since the draft was opened
/// with their replies, and the timetable that they leave. The snapshot (the contracts' `base`) is
/// taken when the draft is opened and at each refresh, so other planners' later work is not
/// visible. Only the timetable after the calls is stored; the undo record leads from it back to the
/// snapshot.
pub struct Draft<'i, S: Timetable> {
    instance: &'i Instance,
    present: S,
    undo: Undo,
    asked: Vec<Asked>,
    changes: Vec<Change>,
    rows: RowsRead,
}

// A derived `Drop` is proved anew in each crate above.
impl<'i, S: Timetable> Drop for Draft<'i, S> {
    fn drop(self) {
        let Draft {
            instance: _,
            present: _,
            undo: _,
            asked: _,
            changes: _,
            rows: _,
        } = self;
    }
}

impl<'i, S: Timetable> Model for Draft<'i, S> {
    ghost use Rattle.ctt_draft.specs.DraftValues.{DraftValue, IsDraft};
    ghost use Rattle.ctt_draft.specs.Undo.{put_back};

    ghost Value = { DraftValue };

    ghost view = { λ d. record {
      problem = d.instance.now;
      base = put_back d.instance.now d.undo.cells (S.list d.present);
      asked = d.asked.items;
    } };

    ghost invariant = { λ d.
        IsDraft d.instance.now (S.problem d.present)
        (put_back d.instance.now d.undo.cells (S.list d.present)) (S.list d.present)
        d.asked.items d.changes.items d.undo d.rows };
}

impl<'i, S: Sheet<'i>> Draft<'i, S> {
    /// Opens a draft without calls, with a sheet's timetable as its snapshot.
    pub fn open(alloc: Global, sheet: &S) -> Result<Self, NoMemory>
        ensures problem { IfOk result (λ draft. draft.problem ≡ S.problem sheet.now) }
        ensures base { IfOk result (λ draft. draft.base ≡ S.list sheet.now) }
        ensures asked { IfOk result (λ draft. draft.asked ≡ []) }
    {
        sheet.lawful();
        let instance = sheet.instance();
        let present = sheet.copy()?;
        let undo = Undo::new(alloc, instance)?;
        Ok(Draft {
            instance,
            present,
            undo,
            asked: Vec::new(alloc),
            changes: Vec::new(alloc),
            rows: RowsRead::new(),
        })
    }

    /// Returns the instance of the draft.
    pub fn instance(&self) -> &'i Instance
        ensures { result.now ≡ self.now.problem }
    {
        self.instance
    }

    /// Returns the calls with their replies, in order.
    pub fn asked(&self) -> &[Asked]
        ensures { result.now ≡ self.now.asked }
    {
        self.asked.as_slice()
    }

    /// Returns the changes that the calls made, in order. Replaying them on a timetable on which
    /// the draft is not stale has the same result as making the calls there.
    pub fn changes(&self) -> &[Change]
        ensures value { result.now ≡ changes self.now.problem self.now.base
            (calls_of self.now.asked) }
        ensures again { (t : List Lecture) → Lawful self.now.problem t
            → stale self.now.problem self.now.base t (calls_of self.now.asked) ≡ None
            → replayed self.now.problem result.now t
            ≡ whole self.now.problem t (calls_of self.now.asked) }
    {
        draft_laws::draft_replays();
        self.changes.as_slice()
    }

    /// Returns the cells that the changes name, each once and in order of first appearance, with
    /// the room that the snapshot has there, if any.
    pub fn undo(&self) -> &[Cell]
        ensures { result.now ≡ undo_of self.now.base
            (changes self.now.problem self.now.base (calls_of self.now.asked)) }
    {
        self.undo.cells()
    }

    /// Stores a call that changes nothing, with its reply.
    fn keep(&mut self, call: Call, told: &Reply) -> Result<(), NoMemory>
        requires fits { CallFits self.old.problem call }
        requires told { told.now ≡ reply self.old.problem (present self.old) call }
        requires still { cells_of_call self.old.problem (present self.old) call ≡ [] }
        ensures ok { OnOk result (self.new ≡ asked_more self.old call told.now) }
        ensures err { OnErr result (self.new ≡ self.old) }
    {
        let reply = told.copy()?;
        self.asked.push(Asked { call, reply })?;
        self.rows.add(self.instance, &call);
        Ok(())
    }

    /// Makes an accepted edit and stores it.
    fn make(&mut self, edit: Edit, change: Change) -> Result<(), NoMemory>
        requires fits { EditFits self.old.problem edit }
        requires accepted { edit_fault self.old.problem (present self.old) edit ≡ None }
        requires change { change ≡ change_of (present self.old) edit }
        ensures ok { OnOk result (self.new ≡ asked_more self.old (Edits edit) Done) }
        ensures err { OnErr result (self.new ≡ self.old) }
    {
        let call = Call::Edit(edit);
        self.present.lawful();
        self.changes.reserve(1)?;
        self.asked.reserve(1)?;
        self.undo.record(&self.present, change.cells())?;
        self.present.apply(&change);
        self.rows.add(self.instance, &call);
        let reply = Reply::Done;
        self.asked.push(Asked { call, reply }).unwrap();
        self.changes.push(change).unwrap();
        Ok(())
    }

    /// Returns the timetable as the calls leave it.
    fn present(&self) -> &S
        ensures problem { S.problem result.now ≡ self.now.problem }
        ensures list { S.list result.now ≡ present self.now }
    {
        &self.present
    }

    /// Answers a look and stores it with its reply.
    fn look(&mut self, look: Look) -> Result<Reply, NoMemory>
        requires fits { LookFits self.old.problem look }
        ensures ok { IfOk result (λ told.
            (told ≡ shown self.old.problem (present self.old) look)
            × (self.new ≡ asked_more self.old (Looks look) told)) }
        ensures err { OnErr result (self.new ≡ self.old) }
    {
        let told = ctt_edits::look(*self.changes.allocator(), self.present(), &look)?;
        self.keep(Call::Look(look), &told)?;
        Ok(told)
    }

    /// Makes an edit, or refuses it, and stores it with its reply.
    fn edit(&mut self, edit: &Edit) -> Result<Reply, NoMemory>
        requires fits { EditFits self.old.problem edit.now }
        ensures ok { IfOk result (λ told.
            (told ≡ reply self.old.problem (present self.old) (Edits edit.now))
            × (self.new ≡ asked_more self.old (Edits edit.now) told)) }
        ensures err { OnErr result (self.new ≡ self.old) }
    {
        let checked = check(self.present(), edit);
        match checked {
            Ok(change) => {
                self.make(*edit, change)?;
                Ok(Reply::Done)
            }
            Err(fault) => {
                let told = Reply::Refused(fault);
                self.keep(Call::Edit(*edit), &told)?;
                Ok(told)
            }
        }
    }

    /// Makes a call. If memory runs out, the call is not made and the draft is unchanged.
    pub fn call(&mut self, call: Call) -> Result<Reply, NoMemory>
        requires { CallFits self.old.problem call }
        ensures ok { IfOk result (λ told.
            (told ≡ reply self.old.problem (present self.old) call)
            × (self.new ≡ asked_more self.old call told)) }
        ensures err { OnErr result (self.new ≡ self.old) }
    {
        match call {
            Call::Look(look) => self.look(look),
            Call::Edit(edit) => self.edit(&edit),
        }
    }

    /// Returns what a look shows on the timetable as the calls leave it. This is not a call: it is
    /// not stored, and its rows do not count as read.
    pub fn peek(&self, look: &Look) -> Result<Reply, NoMemory>
        requires { LookFits self.now.problem look.now }
        ensures { IfOk result (λ told. told ≡ shown self.now.problem (present self.now) look.now) }
    {
        ctt_edits::look(*self.changes.allocator(), self.present(), look)
    }

    /// Computes nothing: its contract says that the snapshot and the timetable that the calls leave
    /// are lawful, that each call fits, and that the replies are those that the calls get on the
    /// snapshot.
    pub fn lawful(&self)
        ensures base { Lawful self.now.problem self.now.base }
        ensures present { Lawful self.now.problem (present self.now) }
        ensures told { IsTold self.now.problem self.now.base self.now.asked }
    {
        self.present.lawful();
    }

    /// Ends the draft and returns its calls with their replies, and the changes that they made.
    pub fn finish(self) -> Work
        ensures asked { result.asked.items ≡ self.entry.asked }
        ensures changes { result.changes.items
            ≡ changes self.entry.problem self.entry.base (calls_of self.entry.asked) }
        ensures told { IsTold self.entry.problem self.entry.base self.entry.asked }
    {
        let Draft {
            instance: _,
            present: _,
            undo: _,
            asked,
            changes,
            rows: _,
        } = self;
        Work { asked, changes }
    }
}
