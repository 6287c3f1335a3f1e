//! Journals: their entries are written, parsed and audited.

ghost use Rattle.std.specs.Prelude.{IfOk};
ghost use Rattle.std.specs.List.{AllByRecursion as Each};
ghost use Rattle.ctt_core.specs.Entries.{EntryFits};
ghost use Rattle.ctt_script.specs.Entries.{IsWritable};

use crate::cases::{On, Script};
use crate::story::{Story, repeated};
use ctt_board::Sheet;
use ctt_core::{JournalEntry, NoList, Verdict, audit, list_after};
use ctt_script::{JournalFault, read_journal, write_journal};
use ctt_text::{Instance, NoMemory, Placed};

/// Records the verdict on a journal.
fn tell_found(story: &mut Story, small: &Instance, found: Verdict) {
    match found {
        Verdict::Agrees => story.say("agrees"),
        Verdict::Differs(entry, call) => {
            story.pair("differs", entry);
            story.count("", call);
        }
        Verdict::BadOpening(at, fault) => story.unlawful(small, at, fault),
    }
}

/// Records the verdict on entries, or notes that memory ran out.
fn tell_audit(story: &mut Story, small: &Instance, told: Result<Verdict, NoMemory>) {
    match told {
        Ok(found) => tell_found(story, small, found),
        Err(NoMemory) => story.no_memory(),
    }
}

/// Records the timetable that entries leave, or the verdict on them.
fn tell_left(story: &mut Story, small: &Instance, told: Result<Vec<Placed>, NoList>) {
    match told {
        Ok(list) => story.lectures(small, Ok(list)),
        Err(NoList::Found(found)) => tell_found(story, small, found),
        Err(NoList::NoMemory) => story.no_memory(),
    }
}

/// Audits entries and records the verdict, or records the timetable that they leave.
fn tell_entries<'i, S: Sheet<'i>>(
    script: &Script<'i>,
    story: &mut Story,
    on: &On,
    entries: &[JournalEntry],
)
    requires { Each (EntryFits script.now.small.now) entries.now }
{
    let alloc = story.alloc();
    if matches!(on, On::Left) {
        let left = repeated!(
            story,
            NoList::NoMemory,
            list_after::<S>(alloc, script.small, script.opening, entries)
        );
        tell_left(story, script.small, left);
    } else {
        let found = repeated!(
            story,
            NoMemory,
            audit::<S>(alloc, script.small, script.opening, entries)
        );
        tell_audit(story, script.small, found);
    }
}

/// Parses the text of a journal.
fn read_entries(
    story: &mut Story,
    small: &Instance,
    text: &[u8],
) -> Result<Vec<JournalEntry>, JournalFault>
    ensures { IfOk result (λ entries. Each (EntryFits small.now) entries.items) }
{
    let alloc = story.alloc();
    repeated!(
        story,
        JournalFault::NoMemory,
        read_journal(alloc, small, text)
    )
}

/// Parses the text of a journal, and records the verdict, or the timetable that it leaves.
pub(crate) fn read_text<'i, S: Sheet<'i>>(
    script: &Script<'i>,
    story: &mut Story,
    on: &On,
    text: &[u8],
) {
    match read_entries(story, script.small, text) {
        Ok(entries) => tell_entries::<S>(script, story, on, &entries),
        Err(_fault) => story.no_memory(),
    }
}

/// Writes and records the journal of entries, and records what an audit of its text finds.
pub(crate) fn tell_journal<'i, S: Sheet<'i>>(
    script: &Script<'i>,
    story: &mut Story,
    entries: &[JournalEntry],
)
    requires { IsWritable script.now.small.now entries.now }
{
    let alloc = story.alloc();
    match repeated!(story, NoMemory, write_journal(alloc, script.small, entries)) {
        Ok(text) => {
            story.bytes(&text);
            read_text::<S>(script, story, &On::Audit, &text);
        }
        Err(NoMemory) => story.no_memory(),
    }
}
