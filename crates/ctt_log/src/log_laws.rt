//! Laws of minutes, for the layers above. None of these functions computes anything.

ghost use Rattle.ctt_log.specs.Recovery.{CutLosesNothing};

/// States that minutes which are cut where what is torn begins have the same whole entries, and
/// nothing is torn, unless a whole entry ends in the line in which the torn one begins.
pub fn cut_loses_nothing()
    ensures { CutLosesNothing }
{}
