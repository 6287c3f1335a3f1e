//! Parsing a solution.

ghost use Rattle.std.specs.Prelude.{◌≡◌, ◌⊎◌, ℕ, List, IfOk, OnOk, IfErr, MatchResult};
ghost use Rattle.std.specs.Str.{IsUtf8};
ghost use Rattle.std.specs.Str.Lossy.{utf8_valid_len};
ghost use Rattle.ctt_text.specs.Words.{words};
ghost use Rattle.ctt_text.specs.Reading.{Gives};
ghost use Rattle.ctt_problem.specs.Timetable.{IsTimetable};
ghost use Rattle.ctt_text.specs.SolutionPlaces.{GivesLectures, reads_lectures, lacks_memory, entry, solution};
ghost use Rattle.ctt_text.specs.SolutionText.{SolSpells, SolutionBreaksAt};
ghost use Rattle.ctt_text.specs.SolutionLaws.{solution_answer, IsSolutionCauseOf};
ghost use Rattle.ctt_problem.specs.declared.placed.Placed.{Placed};
ghost use Rattle.ctt_text.specs.declared.fault.SolutionFault.{SolutionFault};
ghost use Rattle.ctt_text.specs.declared.fault.SolutionFault.TheVariants.{NotText, NoMemory};

use crate::fault::SolutionFault;
use crate::reader::Reader;
use crate::solution::free_slot::read_slot;
use crate::solution::lectures::Lectures;
use crate::word_parsers::{next_course, next_day, next_room};
use ctt_problem::{Instance, Placed};
use std::alloc::Global;

/// Parses one entry, and adds its lecture.
#[tactic(auto, using(crate::proofs::Steps::read_bind, crate::proofs::Steps::read_done), unfolding(crate::specs::SolutionPlaces::entry))]
fn read_entry(
    reader: &mut Reader,
    instance: &Instance,
    lectures: &mut Lectures,
) -> Result<(), SolutionFault>
    requires { lectures.old.problem ≡ instance.now }
    ensures problem { lectures.new.problem ≡ lectures.old.problem }
    ensures exact { GivesLectures (λ _. (lectures.new.list, reader.new)) result
        (reads_lectures (entry instance.now lectures.old.list) reader.old) }
{
    let course = next_course::<SolutionFault>(reader, instance)?;
    let room = next_room::<SolutionFault>(reader, instance)?;
    let day = next_day::<SolutionFault>(reader, instance)?;
    let slot = read_slot(reader, instance, lectures, course, day)?;
    lectures.add(Placed { course, slot, room });
    Ok(())
}

/// Parses all entries.
fn read_lectures(
    alloc: Global,
    reader: &mut Reader,
    instance: &Instance,
) -> Result<Vec<Placed>, SolutionFault>
    ensures { GivesLectures (λ list. (list.items, reader.new)) result
        (reads_lectures (solution instance.now reader.old.words) reader.old) }
{
    let mut lectures = Lectures::new(alloc, instance)?;
    while !reader.is_at_end() {
        read_entry(reader, instance, &mut lectures)?;
    }
    Ok(lectures.into_list(alloc)?)
}

/// Parses a solution.
fn read_text(alloc: Global, instance: &Instance, text: &str) -> Result<Vec<Placed>, SolutionFault>
    ensures { Gives lacks_memory (λ list. list.items) result
        (solution_answer instance.now (words text.now)) }
{
    let mut reader = Reader::new(text);
    read_lectures(alloc, &mut reader, instance)
}

/// Parses a solution from the bytes of its file.
///
/// The result is the timetable that the text spells. A text that is not UTF-8 is refused as
/// [`SolutionFault::NotText`], whatever its words. Any other fault except `NoMemory` names the
/// first word that is not valid after the words before it.
pub fn read_solution(
    alloc: Global,
    instance: &Instance,
    text: &[u8],
) -> Result<Vec<Placed>, SolutionFault>
    ensures text { OnOk result (IsUtf8 text.now) }
    ensures spelled { IfOk result (λ list. SolSpells instance.now (words text.now) list.items) }
    ensures timetable { IfOk result (λ list. IsTimetable instance.now list.items) }
    ensures accepted { (t : List Placed)
        → IsUtf8 text.now
        → SolSpells instance.now (words text.now) t
        → MatchResult result (λ list. list.items ≡ t) (λ fault. fault ≡ NoMemory) }
    ensures fault { IfErr result (IsSolutionCauseOf instance.now text.now) }
    ensures not_text { ¬ IsUtf8 text.now → result ≡ Err (NotText (utf8_valid_len text.now)) }
    ensures broken { (k : ℕ) (fault : SolutionFault)
        → IsUtf8 text.now
        → SolutionBreaksAt instance.now (words text.now) k fault
        → (result ≡ Err fault) ⊎ (result ≡ Err NoMemory) }
{
    instance.limits_hold();
    match str::from_utf8(text) {
        Ok(text) => read_text(alloc, instance, text),
        Err(error) => Err(SolutionFault::NotText(error.valid_up_to() as u64)),
    }
}
