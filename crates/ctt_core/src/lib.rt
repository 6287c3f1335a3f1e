//! The desk: many planners' drafts on one timetable, one step at a time.
#![tactic(auto)]

mod answer;
mod auditing;
mod desk;
mod desk_fault;
pub mod desk_laws;
mod draft_status;
mod event;
mod journal;
mod open_draft;
mod opening;
mod planner;

pub use answer::Answer;
pub use auditing::{NoList, Verdict, audit, list_after};
pub use desk::Desk;
pub use desk_fault::DeskFault;
pub use draft_status::DraftStatus;
pub use event::Event;
pub use journal::JournalEntry;
pub use opening::place_all;
pub use planner::PlannerNo;
