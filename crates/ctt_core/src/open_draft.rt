//! Open drafts.

ghost use Rattle.std.specs.Prelude.{◌≡◌, None};
ghost use Rattle.ctt_draft.specs.Drafts.{calls_of, stale};
ghost use Rattle.ctt_draft.specs.DraftValues.{Settles};
ghost use Rattle.ctt_core.specs.Desks.{IsCounted};

use ctt_board::{Sheet, Timetable};
use ctt_draft::{Draft, draft_laws};
use ctt_edits::Row;
use std::marker::Model;

/// A planner's open draft.
#[derive(Drop)]
pub(crate) struct OpenDraft<'i, S: Timetable> {
    /// The number of drafts that had been accepted when its snapshot was taken.
    pub(crate) since: u64,
    pub(crate) draft: Box<Draft<'i, S>>,
}

impl<'i, S: Timetable> Model for OpenDraft<'i, S> {
    ghost use Rattle.ctt_core.specs.Answers.{OpenValue};

    ghost Value = { OpenValue };

    ghost view = { λ d. record { since = d.since; draft = d.draft.value } };
}

impl<'i, S: Sheet<'i>> OpenDraft<'i, S> {
    /// Returns the row that makes the draft stale on a sheet, if there is one. The sheet has the
    /// timetable after this many accepted drafts, so it is the draft's snapshot if none of them was
    /// accepted since that was taken.
    pub(crate) fn stale(&self, sheet: &S, accepted: u64) -> Option<Row>
        requires same { S.problem sheet.now ≡ self.now.draft.problem }
        requires counted { IsCounted (S.list sheet.now) accepted self.now }
        ensures row { result ≡ stale self.now.draft.problem self.now.draft.base (S.list sheet.now)
            (calls_of self.now.draft.asked) }
        ensures fresh { result ≡ None → Settles self.now.draft (S.list sheet.now) }
    {
        if self.since == accepted {
            draft_laws::settles_at_once();
            self.draft.lawful();
            return None;
        }
        self.draft.stale(sheet).unwrap()
    }
}
