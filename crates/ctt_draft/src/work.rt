//! The result of a finished draft.

ghost use Rattle.std.specs.Prelude.{◌≡◌};
ghost use Rattle.ctt_board.specs.Changes.{apply_all, ChangesFit};

use crate::asked::Asked;
use ctt_board::{Change, Timetable};

/// The calls of a draft with their replies, and the changes that they made.
#[derive(Drop)]
pub struct Work {
    pub asked: Vec<Asked>,
    pub changes: Vec<Change>,
}

impl Work {
    /// Makes the changes on a sheet, in order. Allocates nothing.
    pub fn settle<S: Timetable>(&self, sheet: &mut S)
        requires { ChangesFit (S.problem sheet.old) self.now.changes.items (S.list sheet.old) }
        ensures problem { S.problem sheet.new ≡ S.problem sheet.old }
        ensures list { S.list sheet.new ≡ apply_all self.now.changes.items (S.list sheet.old) }
    {
        sheet.apply_all(&self.changes);
    }
}
