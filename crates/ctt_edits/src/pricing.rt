//! The price of an edit: what it would add to the penalty.

ghost use Rattle.std.specs.Prelude.{◌≡◌};
ghost use Rattle.ctt_edits.specs.Edits.{EditFits};
ghost use Rattle.ctt_edits.specs.Looks.{priced};

use crate::checking::check;
use crate::edit::Edit;
use crate::fault::EditFault;
use ctt_board::Sheet;

/// Returns the penalty after an edit minus the penalty before it, or the first fault of the edit.
/// Allocates nothing.
pub fn price<'i, S: Sheet<'i>>(sheet: &S, edit: &Edit) -> Result<i64, EditFault>
    requires { EditFits (S.problem sheet.now) edit.now }
    ensures { result ≡ priced (S.problem sheet.now) (S.list sheet.now) edit.now }
{
    let change = check(sheet, edit)?;
    Ok(sheet.delta(&change))
}
