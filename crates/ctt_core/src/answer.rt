//! The answers of a desk.

use crate::draft_status::DraftStatus;
use ctt_edits::{Reply, Row};

/// The answer to an event.
#[derive(Drop)]
pub enum Answer {
    /// A draft was opened.
    Opened,
    /// The planner has an open draft already.
    AlreadyOpen,
    /// The planner has no open draft.
    NoDraft,
    /// The reply to the call or the look.
    Replied(Reply),
    /// The status of the draft.
    Draft(DraftStatus),
    /// The draft was accepted. The number is that of all drafts accepted so far, this one included.
    Committed(u64),
    /// The draft is up to date.
    Refreshed,
    /// The draft was refused because this row has changed. It has ended.
    Stale(Row),
    /// The draft was given up.
    Abandoned,
    /// Memory ran out. Nothing was done.
    NoMemory,
}
