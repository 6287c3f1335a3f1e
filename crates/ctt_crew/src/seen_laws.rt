//! Laws of the answers that planners get. These functions compute nothing.

ghost use Rattle.ctt_crew.specs.SeenLaws.{CommitsStay, SeenStays};

/// States that what a planner has seen stays seen, whatever his lines ask for.
pub fn seen_stays()
    ensures { SeenStays }
{}

/// States that a history that begins with all that a planner had seen when he left also begins with
/// the history of each of his receipts. So the last lines of a crew's report count every commit
/// that the planners' answers name.
pub fn commits_stay()
    ensures { CommitsStay }
{}
