//! Laws of runs and desks, for the layers above. None of these functions computes anything.

ghost use Rattle.ctt_core.specs.OpenDrafts.{DraftsAreTold, AcceptedAreTold};
ghost use Rattle.ctt_core.specs.Laws.{Headline, DeskShowsReference, DeskFollowsReference, DeskIsSerial, StatusForetells, JournalAgrees, OntoJoins, AfterJoins, LegalJoins};

/// States that after any correct run the accepted history is legal and the timetable is lawful.
pub fn headline()
    ensures { Headline }
{}

/// States that a desk in the state of a correct run shows what the reference desk shows.
pub fn desk_shows_reference()
    ensures { DeskShowsReference }
{}

/// States that a desk in the state of a correct run answers correctly, and moves to the state of
/// the longer run.
pub fn desk_follows_reference()
    ensures { DeskFollowsReference }
{}

/// States for any run, correct or not, how a planner's open draft follows from the lists of events
/// and answers. The draft is that of the planner's last opening, unless it has ended since. Its
/// calls are those since then that got a reply, and its snapshot includes the commits before that
/// opening, or before the planner's last refresh. The accepted history has, for each accepted
/// commit in order, the draft that its planner had open.
pub fn drafts_are_told()
    ensures drafts { DraftsAreTold }
    ensures accepted { AcceptedAreTold }
{}

/// States for any run, correct or not, that the right answer to a commit directly after a status is
/// the one that the status foretold: stale by the reported row, or accepted if it reported none.
pub fn status_foretells()
    ensures { StatusForetells }
{}

/// States that adding events to a run, and then more events, is adding all of them.
pub fn onto_joins()
    ensures { OntoJoins }
{}

/// States that, for a desk in the state of a correct run, the journal is the accepted history,
/// which is legal, and the timetable is the opening with the journal applied, and lawful.
pub fn desk_is_serial()
    ensures { DeskIsSerial }
{}

/// States that, for a desk of at most 1,000 planners in the state of a correct run, the entries of
/// the journal fit, and `Agrees` is the only verdict of an audit of it on lectures that make the
/// desk's opening.
pub fn journal_agrees()
    ensures { JournalAgrees }
{}

/// States what two histories, one after the other, leave, and when they are legal together.
pub fn histories_join()
    ensures after { AfterJoins }
    ensures legal { LegalJoins }
{}
