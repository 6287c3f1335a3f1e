//! What a planner with an open draft sees of the published timetable.

ghost use Rattle.std.specs.Prelude.{IfOk, IfErr};
ghost use Rattle.ctt_edits.specs.Fitting.{IsReply};
ghost use Rattle.ctt_edits.specs.Looks.{LookFits};
ghost use Rattle.ctt_desk.specs.Planners.{IsSameDraft, IsStatus, IsViewed};
ghost use Rattle.ctt_desk.specs.Refusals.{HasNotRead};

use crate::drafting::Drafting;
use crate::naming::Naming;
use crate::shared_fault::SharedFault;
use ctt_board::Sheet;
use ctt_core::DraftStatus;
use ctt_edits::{Look, Reply};

impl<'i, S: Sheet<'i>, J: Naming> Drafting<'i, S, J> {
    /// Compares the draft with the latest published timetable, whose history the planner has then
    /// seen. The draft and its base are unchanged.
    pub fn status(&mut self) -> Result<DraftStatus, SharedFault>
        ensures ok { IfOk result (IsStatus J.problem J.opening self.old self.new) }
        ensures draft { IsSameDraft self.old self.new }
        ensures err { IfErr result
            (HasNotRead J.problem J.opening self.old.planner self.new.planner) }
    {
        let stale = self.planner.stale(&self.draft)?;
        let behind = self.planner.seen() - self.since.len();
        Ok(DraftStatus::of(&self.draft, behind, stale))
    }

    /// Looks at the latest published timetable, whose history the planner has then seen. The draft
    /// and its base are unchanged, and the look is not one of its calls.
    pub fn view(&mut self, look: &Look) -> Result<Reply, SharedFault>
        requires { LookFits J.problem look.now }
        ensures ok { IfOk result
            (IsViewed J.problem J.opening look.now self.old.planner self.new.planner) }
        ensures fits { IfOk result (IsReply J.problem) }
        ensures draft { IsSameDraft self.old self.new }
        ensures err { IfErr result
            (HasNotRead J.problem J.opening self.old.planner self.new.planner) }
    {
        self.planner.view(look)
    }
}
