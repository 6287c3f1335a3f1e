//! The events that a desk answers.

ghost use Rattle.std.specs.Prelude.{◌↔◌, IsTrue};
ghost use Rattle.ctt_core.specs.Runs.{EventFits};

use crate::planner::PlannerNo;
use ctt_edits::{Call, Look};
use ctt_problem::Instance;

/// One step of a planner, or a look at the timetable as it stands.
#[derive(Clone, Copy)]
pub enum Event {
    /// The planner opens a draft on the timetable as it stands.
    Open(PlannerNo),
    /// The planner makes a call in the open draft.
    Ask(PlannerNo, Call),
    /// The planner looks at the open draft. This is not a call: nothing is stored.
    Peek(PlannerNo, Look),
    /// The planner asks for the status of the open draft. This is not a call: nothing is stored.
    Status(PlannerNo),
    /// The planner asks for the open draft to be accepted.
    Commit(PlannerNo),
    /// The planner asks for the open draft to be brought up to date.
    Refresh(PlannerNo),
    /// The planner gives up the open draft.
    Abandon(PlannerNo),
    /// Somebody looks at the timetable as it stands.
    Show(Look),
}

impl Event {
    /// Returns whether the numbers in the event are valid for the instance and for this many
    /// planners.
    pub fn fits(&self, instance: &Instance, planners: u16) -> bool
        ensures { IsTrue result ↔ EventFits instance.now planners self.now }
    {
        match self {
            Event::Open(planner)
            | Event::Status(planner)
            | Event::Commit(planner)
            | Event::Refresh(planner)
            | Event::Abandon(planner) => planner.fits(planners),
            Event::Ask(planner, call) => planner.fits(planners) && call.fits(instance),
            Event::Peek(planner, look) => planner.fits(planners) && look.fits(instance),
            Event::Show(look) => look.fits(instance),
        }
    }
}
