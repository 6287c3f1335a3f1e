//! Parsing which rooms are barred for which courses.

ghost use Rattle.std.specs.Prelude.{◌≡◌, ◌<◌, ◌⊎◌, ℕ, List, Bool, OnOk, IfOk, IfErr, MatchResult, Err};
ghost use Rattle.std.specs.Str.{IsUtf8};
ghost use Rattle.std.specs.Str.Lossy.{utf8_valid_len};
ghost use Rattle.ctt_text.specs.Words.{words};
ghost use Rattle.ctt_text.specs.Forms.{times};
ghost use Rattle.ctt_text.specs.Reading.{Gives};
ghost use Rattle.ctt_problem.specs.Problem.{course_count, room_count};
ghost use Rattle.ctt_problem.specs.BitRows.{marks_of, HasSize};
ghost use Rattle.ctt_text.specs.BarredPlaces.{GivesBarred, reads_barred, wants_memory, barred_pair, none_barred, barred_rooms};
ghost use Rattle.ctt_text.specs.BarredText.{BarSpells, BarBreaksAt};
ghost use Rattle.ctt_text.specs.BarredLaws.{barred_answer, IsBarredCauseOf};
ghost use Rattle.ctt_text.specs.declared.fault.BarredFault.{BarredFault};
ghost use Rattle.ctt_text.specs.declared.fault.BarredFault.TheVariants.{NotText, NoMemory};

use crate::fault::BarredFault;
use crate::reader::Reader;
use crate::word_parsers::{next_count, next_course, next_fixed, next_room};
use ctt_problem::{BitRows, Instance};
use std::alloc::Global;

/// Parses one pair, and marks it in the table.
#[tactic(auto, using(crate::proofs::Steps::read_bind, crate::proofs::Steps::read_done, ctt_problem::proofs::BitRowLemmas::marks_set), unfolding(crate::specs::BarredPlaces::barred_pair))]
fn read_pair(
    reader: &mut Reader,
    instance: &Instance,
    table: &mut BitRows,
) -> Result<(), BarredFault>
    requires size { HasSize table.old (course_count instance.now) (room_count instance.now) }
    ensures size { HasSize table.new (course_count instance.now) (room_count instance.now) }
    ensures exact { GivesBarred (λ _. (marks_of table.new, reader.new)) result
        (reads_barred (barred_pair instance.now (marks_of table.old)) reader.old) }
{
    let course = next_course::<BarredFault>(reader, instance)?;
    let room = next_room::<BarredFault>(reader, instance)?;
    table.mark(course.get() as usize, room.get() as usize);
    Ok(())
}

/// Parses `count` pairs, and marks them in the table.
fn read_pairs(
    reader: &mut Reader,
    instance: &Instance,
    count: u32,
    table: &mut BitRows,
) -> Result<(), BarredFault>
    requires size { HasSize table.old (course_count instance.now) (room_count instance.now) }
    ensures size { HasSize table.new (course_count instance.now) (room_count instance.now) }
    ensures exact { GivesBarred (λ _. (marks_of table.new, reader.new)) result
        (reads_barred (times (barred_pair instance.now) count (marks_of table.old)) reader.old) }
{
    for _ in 0..count {
        read_pair(reader, instance, table)?;
    }
    Ok(())
}

/// Parses `count` pairs into a new table.
#[tactic(auto, using(ctt_problem::proofs::BitRowLemmas::marks_none))]
fn read_table(
    alloc: Global,
    reader: &mut Reader,
    instance: &Instance,
    count: u32,
) -> Result<BitRows, BarredFault>
    ensures size { IfOk result (λ table.
        HasSize table (course_count instance.now) (room_count instance.now)) }
    ensures exact { GivesBarred
        (λ table. (marks_of table, reader.new)) result
        (reads_barred (times (barred_pair instance.now) count (none_barred instance.now))
        reader.old) }
{
    instance.limits_hold();
    let courses = instance.courses() as usize;
    let rooms = instance.rooms() as usize;
    let mut table = BitRows::new(alloc, courses, rooms)?;
    read_pairs(reader, instance, count, &mut table)?;
    Ok(table)
}

/// Parses the whole text, up to `END.`.
#[tactic(auto, using(crate::proofs::Steps::read_bind, crate::proofs::Steps::read_done), unfolding(crate::specs::BarredPlaces::barred_rooms, crate::specs::SideFile::side_file))]
fn read_rooms(
    alloc: Global,
    reader: &mut Reader,
    instance: &Instance,
) -> Result<BitRows, BarredFault>
    ensures size { IfOk result (λ table.
        HasSize table (course_count instance.now) (room_count instance.now)) }
    ensures exact { GivesBarred
        (λ table. (marks_of table, reader.new)) result (reads_barred (barred_rooms instance.now) reader.old) }
{
    let count = next_count::<BarredFault>(reader, "Barred:", 2_000_000)?;
    let table = read_table(alloc, reader, instance, count)?;
    next_fixed::<BarredFault>(reader, "END.")?;
    Ok(table)
}

/// Parses the table of barred rooms.
fn read_text(alloc: Global, instance: &Instance, text: &str) -> Result<BitRows, BarredFault>
    ensures size { IfOk result (λ table.
        HasSize table (course_count instance.now) (room_count instance.now)) }
    ensures exact { Gives wants_memory marks_of result
        (barred_answer instance.now (words text.now)) }
{
    let mut reader = Reader::new(text);
    read_rooms(alloc, &mut reader, instance)
}

/// Parses the bytes of a file that states which rooms are barred for which courses, and replaces
/// the barred rooms of the instance by these. After a fault the instance is unchanged.
///
/// A text that is not UTF-8 is refused as [`BarredFault::NotText`], whatever its words. Any other
/// fault except `NoMemory` names the first word that is not valid after the words before it.
pub fn read_barred(alloc: Global, instance: &mut Instance, text: &[u8]) -> Result<(), BarredFault>
    ensures text { OnOk result (IsUtf8 text.now) }
    ensures spelled { OnOk result (BarSpells instance.old (words text.now) instance.new.barred) }
    ensures others { instance.new ≡ record instance.old { barred = instance.new.barred } }
    ensures kept { IfErr result (λ _. instance.new ≡ instance.old) }
    ensures accepted { (table : List Bool)
        → IsUtf8 text.now
        → BarSpells instance.old (words text.now) table
        → MatchResult result (λ _. instance.new ≡ record instance.old { barred = table })
        (λ fault. fault ≡ NoMemory) }
    ensures fault { IfErr result (IsBarredCauseOf instance.old text.now) }
    ensures not_text { ¬ IsUtf8 text.now → result ≡ Err (NotText (utf8_valid_len text.now)) }
    ensures broken { (k : ℕ) (fault : BarredFault)
        → IsUtf8 text.now
        → BarBreaksAt instance.old (words text.now) k fault
        → (result ≡ Err fault) ⊎ (result ≡ Err NoMemory) }
{
    instance.limits_hold();
    match str::from_utf8(text) {
        Ok(text) => {
            let table = read_text(alloc, instance, text)?;
            instance.set_barred(table);
            Ok(())
        }
        Err(error) => Err(BarredFault::NotText(error.valid_up_to() as u64)),
    }
}
