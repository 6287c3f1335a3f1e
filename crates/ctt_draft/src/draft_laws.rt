//! Laws of drafts, for the layers above. None of these functions computes anything.

ghost use Rattle.ctt_draft.specs.DraftValues.{SettlesAtOnce};
ghost use Rattle.ctt_draft.specs.DraftLaws.{DraftFrame, SettlingFits, UndoPutsBack};
ghost use Rattle.ctt_draft.specs.Replays.{ReplayStops, ReplayIsSettling, DraftReplays};

/// States that a draft that is not stale gets the same replies and makes the same changes on the
/// present timetable as on its snapshot.
pub fn draft_frame()
    ensures { DraftFrame }
{}

/// States that the changes of a draft that is not stale fit the present timetable, made in order.
pub fn settling_fits()
    ensures { SettlingFits }
{}

/// States that a draft is not stale on its snapshot, and that it can be settled there.
pub fn settles_at_once()
    ensures { SettlesAtOnce }
{}

/// States that putting the cells of the undo record back on the timetable that a draft's changes
/// leave gives its snapshot.
pub fn undo_puts_back()
    ensures { UndoPutsBack }
{}

/// States that a replay makes the changes before the first one that does not fit, and no others.
pub fn replay_stops()
    ensures { ReplayStops }
{}

/// States that if each change fits after the earlier ones, a replay makes all of them and has the
/// same result as settling them.
pub fn replay_is_settling()
    ensures { ReplayIsSettling }
{}

/// States that replaying the changes of a draft that is not stale on the present timetable has the
/// same result as making its calls there.
pub fn draft_replays()
    ensures { DraftReplays }
{}
