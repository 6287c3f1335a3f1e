//! Laws of the text form of journals, each the contract of a function that computes nothing.

ghost use Rattle.ctt_script.specs.JournalLaws.{ReadsJournals, SpellsOneJournal, JournalFailsWhereBroken, JournalBreaksOnce, JournalSpellsOrBreaks};

/// States that parsing returns entries if and only if the words spell them.
pub fn reads_journals()
    ensures { ReadsJournals }
{}

/// States that words spell at most one list of entries.
pub fn spells_one_journal()
    ensures { SpellsOneJournal }
{}

/// States that parsing returns a fault if and only if the words break the grammar with that fault.
pub fn journal_fails_where_broken()
    ensures { JournalFailsWhereBroken }
{}

/// States that words break the grammar at one word at most, and with one fault.
pub fn journal_breaks_once()
    ensures { JournalBreaksOnce }
{}

/// States that words either spell a journal or break the grammar, and never both.
pub fn journal_spells_or_breaks()
    ensures { JournalSpellsOrBreaks }
{}
