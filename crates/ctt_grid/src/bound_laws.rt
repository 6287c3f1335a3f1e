//! Laws of timetables and costs. None of these functions computes anything.

ghost use Rattle.ctt_grid.specs.BoundLaws.{LengthIsBounded, PenaltyFits};

/// States that a timetable has at most as many lectures as there are pairs of a course and a slot.
pub(crate) fn length_is_bounded()
    ensures { LengthIsBounded }
{}

/// States that a penalty, and so each of its parts, is below 2^63.
pub(crate) fn penalty_fits()
    ensures { PenaltyFits }
{}
