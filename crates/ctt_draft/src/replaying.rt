//! Replaying changes on another sheet.

ghost use Rattle.std.specs.Prelude.{◌≡◌};
ghost use Rattle.ctt_draft.specs.Replays.{replayed, all_fit};

use ctt_board::{Change, Timetable, change_laws};

/// Makes changes on a sheet, in order, stopping before the first that does not fit, and returns
/// whether all were made. Allocates nothing.
pub fn replay<S: Timetable>(changes: &[Change], sheet: &mut S) -> bool
    ensures problem { S.problem sheet.new ≡ S.problem sheet.old }
    ensures list { S.list sheet.new
        ≡ replayed (S.problem sheet.old) changes.now (S.list sheet.old) }
    ensures all { result ≡ all_fit (S.problem sheet.old) changes.now (S.list sheet.old) }
{
    change_laws::fits_as_tested();
    for change in changes {
        if !sheet.accepts(change) {
            return false;
        }
        sheet.lawful();
        // Called for its contract alone, which says that no removal follows an addition.
        let _in_turn = change.cells();
        sheet.apply(change);
    }
    true
}
