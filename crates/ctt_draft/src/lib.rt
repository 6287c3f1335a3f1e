//! Drafts: a planner's calls on a private copy of the timetable, their replies and their changes.
#![tactic(auto)]

mod asked;
mod comparing;
mod draft;
pub mod draft_laws;
mod replaying;
mod undo;
mod work;

pub use asked::{Asked, AskedCalls};
pub use draft::Draft;
pub use replaying::replay;
pub use work::Work;
