//! A law of changes, for the crates above. The function computes nothing.

ghost use Rattle.ctt_board.specs.Fitting.{FitsAsTested};

/// States that a change fits a lawful timetable exactly if the test, cell by cell, returns true.
pub fn fits_as_tested()
    ensures { FitsAsTested }
{}
