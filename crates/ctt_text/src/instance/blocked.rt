//! Parsing closures: in which slots rooms, teachers and courses are blocked.

ghost use Rattle.std.specs.Prelude.{◌≡◌, ◌<◌, ◌⊎◌, ℕ, List, Bool, OnOk, IfOk, IfErr, MatchResult, Err};
ghost use Rattle.std.specs.Str.{IsUtf8};
ghost use Rattle.std.specs.Str.Lossy.{utf8_valid_len};
ghost use Rattle.ctt_text.specs.Words.{words};
ghost use Rattle.ctt_text.specs.Forms.{times};
ghost use Rattle.ctt_text.specs.Places.{known, known_name};
ghost use Rattle.ctt_text.specs.Reading.{Gives};
ghost use Rattle.ctt_text.specs.BlockedPlaces.{GivesBlocked, reads_blocked, wants_memory, kind_of, names_of, count_of, closing, IsClosing, blocked_entry, none_closed, closures, AreTablesOf, closures_in};
ghost use Rattle.ctt_text.specs.BlockedText.{BlockSpells, BlockBreaksAt};
ghost use Rattle.ctt_text.specs.BlockedLaws.{blocked_answer, IsBlockedCauseOf};
ghost use Rattle.ctt_text.specs.declared.instance.closing.Kind.TheVariants.{Room};
ghost use Rattle.ctt_text.specs.declared.fault.BlockedFault.{BlockedFault};
ghost use Rattle.ctt_text.specs.declared.fault.BlockedFault.TheVariants.{Expected, UnknownName, NotText, NoMemory};

use crate::fault::BlockedFault;
use crate::instance::closing::{Closing, Kind, Tables};
use crate::reader::Reader;
use crate::word_parsers::{
    next_count, next_course, next_days, next_fixed, next_periods, next_room, next_teacher,
    next_word,
};
use ctt_problem::{BitRows, Instance};
use std::alloc::Global;

/// Returns the kind that a word states.
fn kind_of(word: &str) -> Option<Kind>
    ensures { result ≡ kind_of word.now }
{
    if word == "room" {
        Some(Kind::Room)
    } else if word == "teacher" {
        Some(Kind::Teacher)
    } else if word == "course" {
        Some(Kind::Course)
    } else {
        None
    }
}

/// Parses the kind of an entry.
#[tactic(auto, using(crate::proofs::Steps::read_known))]
fn read_kind(reader: &mut Reader) -> Result<Kind, BlockedFault>
    ensures { GivesBlocked (λ kind. (kind, reader.new)) result
        (reads_blocked (known Expected kind_of Room) reader.old) }
{
    let at = reader.next();
    let word = next_word::<BlockedFault>(reader)?;
    match kind_of(word) {
        Some(kind) => Ok(kind),
        None => Err(BlockedFault::Expected(at)),
    }
}

/// Parses the name of a room, a teacher or a course, and returns its number.
fn read_name(reader: &mut Reader, instance: &Instance, kind: Kind) -> Result<u16, BlockedFault>
    ensures within { IfOk result (λ number. number < count_of instance.now kind) }
    ensures exact { GivesBlocked (λ number. (number, reader.new)) result
        (reads_blocked (known_name UnknownName (names_of instance.now kind)) reader.old) }
{
    match kind {
        Kind::Room => Ok(next_room::<BlockedFault>(reader, instance)?.get()),
        Kind::Teacher => Ok(next_teacher::<BlockedFault>(reader, instance)?.get()),
        Kind::Course => Ok(next_course::<BlockedFault>(reader, instance)?.get()),
    }
}

/// Parses an entry.
#[tactic(auto, using(crate::proofs::Steps::read_bind, crate::proofs::Steps::read_done), unfolding(crate::specs::BlockedPlaces::closing))]
fn read_closing(reader: &mut Reader, instance: &Instance) -> Result<Closing, BlockedFault>
    ensures within { IfOk result (IsClosing instance.now) }
    ensures exact { GivesBlocked (λ e. (e, reader.new)) result
        (reads_blocked (closing instance.now) reader.old) }
{
    let kind = read_kind(reader)?;
    let number = read_name(reader, instance, kind)?;
    let day = next_days::<BlockedFault>(reader, instance.days())?;
    let period = next_periods::<BlockedFault>(reader, instance.periods())?;
    Ok(Closing {
        kind,
        number,
        day,
        period,
    })
}

/// Parses an entry, and marks what it closes.
#[tactic(auto, using(crate::proofs::Steps::read_bind, crate::proofs::Steps::read_done), unfolding(crate::specs::BlockedPlaces::blocked_entry))]
fn read_entry(
    reader: &mut Reader,
    instance: &Instance,
    tables: &mut Tables,
) -> Result<(), BlockedFault>
    requires size { AreTablesOf instance.now tables.old }
    ensures size { AreTablesOf instance.now tables.new }
    ensures exact { GivesBlocked (λ _. (closures_in tables.new, reader.new)) result
        (reads_blocked (blocked_entry instance.now (closures_in tables.old)) reader.old) }
{
    let closing = read_closing(reader, instance)?;
    tables.close(instance, &closing);
    Ok(())
}

/// Parses `count` entries, and marks what they close.
fn read_entries(
    reader: &mut Reader,
    instance: &Instance,
    count: u32,
    tables: &mut Tables,
) -> Result<(), BlockedFault>
    requires size { AreTablesOf instance.now tables.old }
    ensures size { AreTablesOf instance.now tables.new }
    ensures exact { GivesBlocked (λ _. (closures_in tables.new, reader.new)) result
        (reads_blocked (times (blocked_entry instance.now) count (closures_in tables.old))
        reader.old) }
{
    for _ in 0..count {
        read_entry(reader, instance, tables)?;
    }
    Ok(())
}

/// Returns tables in which nothing is closed. Fails if memory runs out.
#[tactic(auto, using(ctt_problem::proofs::BitRowLemmas::marks_none))]
fn open_tables(alloc: Global, instance: &Instance) -> Result<Tables, BlockedFault>
    ensures size { IfOk result (AreTablesOf instance.now) }
    ensures none { IfOk result (λ tables. closures_in tables ≡ none_closed instance.now) }
    ensures memory { IfErr result (λ fault. fault ≡ NoMemory) }
{
    instance.limits_hold();
    let slots = instance.slots() as usize;
    let closed = BitRows::new(alloc, instance.courses() as usize, slots)?;
    let blocked = BitRows::new(alloc, instance.rooms() as usize, slots)?;
    Ok(Tables { closed, blocked })
}

/// Parses `count` entries into new tables.
fn read_tables(
    alloc: Global,
    reader: &mut Reader,
    instance: &Instance,
    count: u32,
) -> Result<Tables, BlockedFault>
    ensures size { IfOk result (AreTablesOf instance.now) }
    ensures exact { GivesBlocked (λ tables. (closures_in tables, reader.new)) result
        (reads_blocked (times (blocked_entry instance.now) count (none_closed instance.now))
        reader.old) }
{
    let mut tables = open_tables(alloc, instance)?;
    read_entries(reader, instance, count, &mut tables)?;
    Ok(tables)
}

/// Parses the whole text, up to `END.`.
#[tactic(auto, using(crate::proofs::Steps::read_bind, crate::proofs::Steps::read_done), unfolding(crate::specs::BlockedPlaces::closures, crate::specs::SideFile::side_file))]
fn read_closures(
    alloc: Global,
    reader: &mut Reader,
    instance: &Instance,
) -> Result<Tables, BlockedFault>
    ensures size { IfOk result (AreTablesOf instance.now) }
    ensures exact { GivesBlocked (λ tables. (closures_in tables, reader.new)) result
        (reads_blocked (closures instance.now) reader.old) }
{
    let count = next_count::<BlockedFault>(reader, "Blocked:", 2_000_000)?;
    let tables = read_tables(alloc, reader, instance, count)?;
    next_fixed::<BlockedFault>(reader, "END.")?;
    Ok(tables)
}

/// Parses what is closed.
fn read_text(alloc: Global, instance: &Instance, text: &str) -> Result<Tables, BlockedFault>
    ensures size { IfOk result (AreTablesOf instance.now) }
    ensures exact { Gives wants_memory closures_in result
        (blocked_answer instance.now (words text.now)) }
{
    let mut reader = Reader::new(text);
    read_closures(alloc, &mut reader, instance)
}

/// Parses the bytes of a file of closures: in which slots rooms, teachers and courses are blocked. A
/// teacher who is blocked blocks all courses of that teacher. Replaces what other closures blocked
/// in the instance; what its own text lists as unavailable stays. After a fault the instance is
/// unchanged.
///
/// A text that is not UTF-8 is refused as [`BlockedFault::NotText`], whatever its words. Any other
/// fault except `NoMemory` names the first word that is not valid after the words before it.
pub fn read_blocked(alloc: Global, instance: &mut Instance, text: &[u8]) -> Result<(), BlockedFault>
    ensures text { OnOk result (IsUtf8 text.now) }
    ensures spelled { OnOk result
        (BlockSpells instance.old (words text.now) instance.new.closed instance.new.blocked) }
    ensures others { instance.new
        ≡ record instance.old { closed = instance.new.closed; blocked = instance.new.blocked } }
    ensures kept { IfErr result (λ _. instance.new ≡ instance.old) }
    ensures accepted { (closed blocked : List Bool)
        → IsUtf8 text.now
        → BlockSpells instance.old (words text.now) closed blocked
        → MatchResult result
        (λ _. instance.new ≡ record instance.old { closed = closed; blocked = blocked })
        (λ fault. fault ≡ NoMemory) }
    ensures fault { IfErr result (IsBlockedCauseOf instance.old text.now) }
    ensures not_text { ¬ IsUtf8 text.now → result ≡ Err (NotText (utf8_valid_len text.now)) }
    ensures broken { (k : ℕ) (fault : BlockedFault)
        → IsUtf8 text.now
        → BlockBreaksAt instance.old (words text.now) k fault
        → (result ≡ Err fault) ⊎ (result ≡ Err NoMemory) }
{
    instance.limits_hold();
    match str::from_utf8(text) {
        Ok(text) => {
            let tables = read_text(alloc, instance, text)?;
            let Tables { closed, blocked } = tables;
            instance.set_blocked(closed, blocked);
            Ok(())
        }
        Err(error) => Err(BlockedFault::NotText(error.valid_up_to() as u64)),
    }
}
