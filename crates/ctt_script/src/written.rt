//! Writing journals as text.

ghost use Rattle.std.specs.Prelude.{◌≡◌, ◌++◌, ◌∷◌, [], ℕ, List, OnOk, IfOk, codes, string_bytes};
ghost use Rattle.std.specs.List.{AllByRecursion as Each};
ghost use Rattle.std.specs.Fmt.{decimal};
ghost use Rattle.std.specs.Str.{IsUtf8};
ghost use Rattle.ctt_text.specs.Words.{words};
ghost use Rattle.ctt_edits.specs.Fitting.{AreFew};
ghost use Rattle.ctt_draft.specs.Drafts.{AskedFits};
ghost use Rattle.ctt_core.specs.Entries.{EntryFits};
ghost use Rattle.ctt_script.specs.Entries.{IsShort};
ghost use Rattle.ctt_script.specs.JournalText.{JournalSpells};
ghost use Rattle.ctt_line.specs.Lines.{line};
ghost use Rattle.ctt_script.specs.WrittenText.{asked_text, entry_text, journal_text};

use crate::answers::write_reply;
use crate::call_words::write_call;
use ctt_core::{JournalEntry, PlannerNo};
use ctt_draft::Asked;
use ctt_line::{Word, push_line};
use ctt_text::{Instance, NoMemory};
use std::alloc::{AllocError, Global};

/// Adds the lines of a call and its reply.
fn write_asked(text: &mut String, instance: &Instance, asked: &Asked) -> Result<(), AllocError>
    requires { AskedFits instance.now asked.now }
    ensures { OnOk result (string_bytes text.new
        ≡ string_bytes text.old ++ asked_text instance.now asked.now) }
{
    write_call(text, instance, &asked.call)?;
    write_reply(text, instance, &asked.reply)
}

/// Adds the first line of an entry.
fn write_entry_head(text: &mut String, planner: PlannerNo, calls: u64) -> Result<(), AllocError>
    ensures { OnOk result (string_bytes text.new
        ≡ string_bytes text.old ++ line (codes "entry" ∷ decimal planner ∷ decimal calls ∷ [])) }
{
    let planner = Word::number(u64::from(planner.get()));
    push_line(text, &[Word::text("entry"), planner, Word::number(calls)])
}

/// Adds the lines of an entry: its head line, then the lines of each call and its reply.
pub fn write_entry(
    text: &mut String,
    instance: &Instance,
    planner: PlannerNo,
    asked: &[Asked],
) -> Result<(), AllocError>
    requires { Each (AskedFits instance.now) asked.now }
    ensures { OnOk result (string_bytes text.new ≡ string_bytes text.old
        ++ entry_text instance.now (record { planner = planner; asked = asked.now })) }
{
    write_entry_head(text, planner, asked.len() as u64)?;
    for one in asked {
        write_asked(text, instance, one)?;
    }
    Ok(())
}

/// Writes a journal as text.
///
/// Parsing the text returns the same journal, whatever follows it.
pub fn write_journal(
    alloc: Global,
    instance: &Instance,
    entries: &[JournalEntry],
) -> Result<Vec<u8>, NoMemory>
    requires fits { Each (EntryFits instance.now) entries.now }
    requires few { AreFew entries.now }
    requires short { Each IsShort entries.now }
    ensures text { IfOk result (λ text. text.items ≡ journal_text instance.now entries.now) }
    ensures utf8 { IfOk result (λ text. IsUtf8 text.items) }
    ensures spelled { IfOk result (λ text. (rest : List ℕ)
        → JournalSpells instance.now (words (text.items ++ rest)) entries.now) }
{
    instance.limits_hold();
    instance.names_are_words();
    let mut text = String::new(alloc);
    push_line(
        &mut text,
        &[Word::text("journal"), Word::number(entries.len() as u64)],
    )?;
    for entry in entries {
        write_entry(&mut text, instance, entry.planner, entry.asked.as_slice())?;
    }
    text.push_str("END.\n")?;
    Ok(text.into_bytes())
}
