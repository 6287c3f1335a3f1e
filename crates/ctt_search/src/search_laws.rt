//! Laws of searches, for the crates above. The function computes nothing.

ghost use Rattle.ctt_search.specs.Between.{EditsLead};

/// States that the edits between two lawful timetables, made in turn on the one as the calls of a
/// draft, each fit at their turn, and leave the other.
pub fn edits_lead()
    ensures { EditsLead }
{}
