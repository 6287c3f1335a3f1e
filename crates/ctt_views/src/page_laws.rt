//! Laws of the page. None of these functions computes anything.

ghost use Rattle.ctt_views.specs.Laws.{LecturesStandOnce, NamesHoldNoTag};

/// Proves that an escaped name has no `<`, so that it opens no tag.
pub fn names_hold_no_tag()
    ensures { NamesHoldNoTag }
{}

/// Proves that each grid shows a lecture that belongs to it exactly once, in the cell of its slot.
pub fn lectures_stand_once()
    ensures { LecturesStandOnce }
{}
