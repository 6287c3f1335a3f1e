//! The journal's entries, which are the accepted drafts.

ghost use Rattle.std.specs.Prelude.{◌↔◌, IsTrue};
ghost use Rattle.ctt_core.specs.Entries.{EntryFits};

use crate::planner::PlannerNo;
use ctt_draft::AskedCalls;
use ctt_problem::Instance;

/// An accepted draft: its planner, and its calls with their replies.
pub struct JournalEntry {
    /// The planner whose draft it was.
    pub planner: PlannerNo,
    /// The calls with their replies, in order.
    pub asked: AskedCalls,
}

// A derived `Drop` is proved anew in each crate above.
impl Drop for JournalEntry {
    fn drop(self) {
        let JournalEntry {
            planner: _,
            asked: _,
        } = self;
    }
}

impl JournalEntry {
    /// Returns whether the planner's number is below 1,000, and each call and each reply fits: its
    /// numbers are valid for the instance, and each cost and the absolute value of each price is at
    /// most 9,223,372,036,854,775,807.
    pub fn fits(&self, instance: &Instance) -> bool
        ensures { IsTrue result ↔ EntryFits instance.now self.now }
    {
        self.planner.fits(1000) && self.asked.fits(instance)
    }
}
