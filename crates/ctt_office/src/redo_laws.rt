//! Laws of a desk with seats, for the layers above. These functions compute nothing.

ghost use Rattle.ctt_office.specs.RedoLaws.{RedoIsAsking};

/// States that redoing edits in a new draft gives the same draft as asking for those that can be
/// made, one by one, each answered as done.
pub fn redo_is_asking()
    ensures { RedoIsAsking }
{}
