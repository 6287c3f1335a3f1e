//! Laws of the texts of instances, solutions, barred rooms and closures, each stated as the contract
//! of a function that computes nothing.

ghost use Rattle.ctt_text.specs.InstanceLaws.{ReadsWhatIsSpelled, SpellsOne, FailsWhereBroken, BreaksOnce, SpellsOrBreaks, SpelledIsProblem, SpelledIsNamed};
ghost use Rattle.ctt_text.specs.BarredLaws.{ReadsBarred, SpellsOneBarred, BarredFailsWhereBroken, BarredBreaksOnce, BarredSpellsOrBreaks};
ghost use Rattle.ctt_text.specs.BlockedLaws.{ReadsBlocked, SpellsOneBlocked, BlockedFailsWhereBroken, BlockedBreaksOnce, BlockedSpellsOrBreaks};
ghost use Rattle.ctt_text.specs.SolutionLaws.{ReadsSolutions, SpellsOneTimetable, SolutionFailsWhereBroken, SolutionBreaksOnce, SolutionSpellsOrBreaks, SpelledIsTimetable, WrittenSpells};

/// States that parsing returns an instance if and only if the words spell it.
pub fn reads_what_is_spelled()
    ensures { ReadsWhatIsSpelled }
{}

/// States that words spell at most one instance.
pub fn spells_one()
    ensures { SpellsOne }
{}

/// States that parsing an instance fails with a fault if and only if the words break the form at
/// some place with that fault.
pub fn fails_where_broken()
    ensures { FailsWhereBroken }
{}

/// States that words break the form of an instance at most at one place, with one fault.
pub fn breaks_once()
    ensures { BreaksOnce }
{}

/// States that words either spell an instance or break the form, and never both.
pub fn spells_or_breaks()
    ensures { SpellsOrBreaks }
{}

/// States that an instance that words spell is within the limits, with its references in range.
pub fn spelled_is_problem()
    ensures { SpelledIsProblem }
{}

/// States that the names of an instance that a text spells are words, distinct within each list.
pub fn spelled_is_named()
    ensures { SpelledIsNamed }
{}

/// States that parsing returns a timetable if and only if the words spell it.
pub fn reads_solutions()
    ensures { ReadsSolutions }
{}

/// States that words spell at most one timetable.
pub fn spells_one_timetable()
    ensures { SpellsOneTimetable }
{}

/// States that parsing a solution fails with a fault if and only if the words break the form at
/// some place with that fault.
pub fn solution_fails_where_broken()
    ensures { SolutionFailsWhereBroken }
{}

/// States that words break the form of a solution at most at one place, with one fault.
pub fn solution_breaks_once()
    ensures { SolutionBreaksOnce }
{}

/// States that words either spell a timetable or break the form of a solution, and never both.
pub fn solution_spells_or_breaks()
    ensures { SolutionSpellsOrBreaks }
{}

/// States that what words spell is a timetable of the instance.
pub fn spelled_is_timetable()
    ensures { SpelledIsTimetable }
{}

/// States that the written form of a timetable spells this timetable and no other.
pub fn written_spells()
    ensures { WrittenSpells }
{}

/// States that parsing returns a table of barred rooms if and only if the words spell it.
pub fn reads_barred()
    ensures { ReadsBarred }
{}

/// States that words spell at most one table of barred rooms.
pub fn spells_one_barred()
    ensures { SpellsOneBarred }
{}

/// States that parsing barred rooms fails with a fault if and only if the words break the form at
/// some place with that fault.
pub fn barred_fails_where_broken()
    ensures { BarredFailsWhereBroken }
{}

/// States that words break the form of barred rooms at most at one place, with one fault.
pub fn barred_breaks_once()
    ensures { BarredBreaksOnce }
{}

/// States that words either spell a table of barred rooms or break the form, and never both.
pub fn barred_spells_or_breaks()
    ensures { BarredSpellsOrBreaks }
{}

/// States that parsing returns two tables, of what is closed for courses and for rooms, if and only
/// if the words spell them.
pub fn reads_blocked()
    ensures { ReadsBlocked }
{}

/// States that words spell at most one pair of tables of closures.
pub fn spells_one_blocked()
    ensures { SpellsOneBlocked }
{}

/// States that parsing closures fails with a fault if and only if the words break the form at some
/// place with that fault.
pub fn blocked_fails_where_broken()
    ensures { BlockedFailsWhereBroken }
{}

/// States that words break the form of closures at most at one place, with one fault.
pub fn blocked_breaks_once()
    ensures { BlockedBreaksOnce }
{}

/// States that words either spell two tables of closures or break the form, and never both.
pub fn blocked_spells_or_breaks()
    ensures { BlockedSpellsOrBreaks }
{}
