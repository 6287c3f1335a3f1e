//! The status of an open draft.

ghost use Rattle.std.specs.Prelude.{◌≡◌, length};
ghost use Rattle.ctt_draft.specs.Drafts.{calls_of, changes};

use ctt_board::Sheet;
use ctt_draft::Draft;
use ctt_edits::Row;

/// The status of an open draft, compared with the timetable that the accepted drafts leave.
#[derive(Clone, Copy, PartialEq, Eq)]
pub struct DraftStatus {
    /// The number of edits that were accepted in the draft.
    pub edits: u64,
    /// The number of drafts that were accepted since its snapshot was taken.
    pub behind: u64,
    /// The row for which a commit would be refused as stale now, if there is one.
    pub stale: Option<Row>,
}

impl DraftStatus {
    /// Returns the status of a draft, given the number of drafts accepted since its snapshot was
    /// taken, and the row that makes it stale, if there is one.
    pub fn of<'i, S: Sheet<'i>>(draft: &Draft<'i, S>, behind: u64, stale: Option<Row>) -> Self
        ensures { result ≡ record {
          edits = length (changes draft.now.problem draft.now.base (calls_of draft.now.asked));
          behind = behind;
          stale = stale;
        } }
    {
        let edits = draft.changes().len() as u64;
        DraftStatus {
            edits,
            behind,
            stale,
        }
    }
}
