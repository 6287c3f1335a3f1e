//! Parsing an instance.

ghost use Rattle.std.specs.Prelude.{◌≡◌, ◌≤◌, ◌*◌, ◌⊎◌, ℕ, IfOk, IfErr, OnOk, Ok, Err, length};
ghost use Rattle.std.specs.Str.{IsUtf8};
ghost use Rattle.std.specs.Str.Lossy.{utf8_valid_len};
ghost use Rattle.ctt_text.specs.Words.{words};
ghost use Rattle.ctt_text.specs.Reading.{Gives};
ghost use Rattle.ctt_problem.specs.Problem.{Problem, IsProblem};
ghost use Rattle.ctt_problem.specs.BitRows.{marks_of, HasSize};
ghost use Rattle.ctt_problem.specs.Named.{IsNamed};
ghost use Rattle.ctt_text.specs.InstancePlaces.{GivesRead, reads, wants_memory, instance};
ghost use Rattle.ctt_text.specs.LastSections.{last_sections};
ghost use Rattle.ctt_text.specs.InstanceText.{Spells, InstanceBreaksAt};
ghost use Rattle.ctt_text.specs.InstanceLaws.{answer, IsCauseOf};
ghost use Rattle.ctt_text.specs.declared.fault.ReadFault.{ReadFault};
ghost use Rattle.ctt_text.specs.declared.fault.ReadFault.TheVariants.{NoMemory, NotText};

use crate::fault::ReadFault;
use crate::instance::courses::{CourseSection, read_course_section};
use crate::instance::curricula::{CurriculumSection, read_curriculum_section};
use crate::instance::header::{Header, read_header};
use crate::instance::instance_words::read_fixed;
use crate::instance::rooms::{RoomSection, read_room_section};
use crate::instance::unavailability::read_unavailability_section;
use crate::reader::Reader;
use ctt_problem::{BitRows, Instance, Parts, drop_whole};
use std::alloc::{AllocError, Global};
use std::marker::Model;

/// The sections of an instance as parsed.
#[derive(Drop)]
struct Sections<'a> {
    header: Header<'a>,
    courses: CourseSection,
    rooms: RoomSection,
    curricula: CurriculumSection,
    unavailable: BitRows,
}

impl<'a> Model for Sections<'a> {
    ghost use Rattle.ctt_problem.specs.Problem.{Problem};
    ghost use Rattle.std.specs.Prelude.{◌*◌, length};
    ghost use Rattle.ctt_text.specs.InstancePlaces.{problem_of};
    ghost use Rattle.ctt_problem.specs.BitRows.{marks_of, HasSize};

    ghost Value = { Problem };

    ghost view = { λ s. problem_of s.header s.courses s.rooms s.curricula (marks_of s.unavailable) };

    ghost invariant = { λ s.
        HasSize s.unavailable (length s.courses.names) (s.header.days * s.header.periods) };
}

/// The sections after the rooms.
#[derive(Drop)]
struct LastSections {
    curricula: CurriculumSection,
    unavailable: BitRows,
}

/// Parses the sections after the rooms, up to `END.`.
#[tactic(auto, using(crate::proofs::Steps::read_bind, crate::proofs::Steps::read_done), unfolding(crate::specs::LastSections::last_sections))]
fn read_last_sections<'a>(
    alloc: Global,
    reader: &mut Reader<'a>,
    header: &Header<'a>,
    courses: &CourseSection,
) -> Result<LastSections, ReadFault>
    requires slots { header.now.days * header.now.periods ≤ 2000 }
    requires courses { length courses.now.names ≡ header.now.courses }
    requires few { header.now.courses ≤ 2000 }
    ensures size { IfOk result (λ last.
        HasSize last.unavailable header.now.courses (header.now.days * header.now.periods)) }
    ensures exact { GivesRead (λ last. ((last.curricula, marks_of last.unavailable), reader.new))
        result (reads (last_sections header.now courses.now.names) reader.old) }
{
    let curricula = read_curriculum_section(alloc, reader, header, courses)?;
    let unavailable = read_unavailability_section(alloc, reader, header, courses)?;
    read_fixed(reader, "END.")?;
    Ok(LastSections {
        curricula,
        unavailable,
    })
}

/// Parses all sections, up to `END.`.
#[tactic(auto, using(crate::proofs::Steps::read_bind, crate::proofs::Steps::read_done), unfolding(crate::specs::InstancePlaces::instance))]
fn read_sections<'a>(alloc: Global, reader: &mut Reader<'a>) -> Result<Sections<'a>, ReadFault>
    ensures { GivesRead (λ sections. (sections, reader.new)) result (reads instance reader.old) }
{
    let header = read_header(reader)?;
    let courses = read_course_section(alloc, reader, &header)?;
    let rooms = match read_room_section(alloc, reader, &header) {
        Ok(rooms) => rooms,
        Err(fault) => {
            drop_whole(courses);
            return Err(fault);
        }
    };
    let last = match read_last_sections(alloc, reader, &header, &courses) {
        Ok(last) => last,
        Err(fault) => {
            drop_whole(courses);
            drop_whole(rooms);
            return Err(fault);
        }
    };
    Ok(Sections {
        header,
        courses,
        rooms,
        curricula: last.curricula,
        unavailable: last.unavailable,
    })
}

impl<'a> Sections<'a> {
    /// Builds the instance. Fails if memory runs out.
    fn into_instance(self, alloc: Global) -> Result<Instance, AllocError>
        requires problem { IsProblem self }
        requires named { IsNamed self }
        ensures { IfOk result (λ i. i ≡ self.entry) }
    {
        let Sections {
            header,
            courses,
            rooms,
            curricula,
            unavailable,
        } = self;
        let parts = Parts {
            name: header.name,
            course_names: courses.names,
            courses: courses.facts,
            teacher_names: courses.teachers,
            room_names: rooms.names,
            capacities: rooms.capacities,
            curriculum_names: curricula.names,
            curricula: curricula.members,
            days: header.days as u16,
            periods: header.periods as u16,
            unavailable,
        };
        Instance::new(alloc, parts)
    }
}

/// Parses an instance.
fn read_text(alloc: Global, text: &str) -> Result<Instance, ReadFault>
    ensures { Gives wants_memory (λ i. i) result (answer (words text.now)) }
{
    let mut reader = Reader::new(text);
    let sections = read_sections(alloc, &mut reader)?;
    Ok(sections.into_instance(alloc)?)
}

/// Parses an instance from the bytes of its file.
///
/// The result is the instance that the text spells. A text that is not UTF-8 is refused as
/// [`ReadFault::NotText`], whatever its words. Any other fault except `NoMemory` names the first
/// word that is not valid after the words before it.
pub fn read_instance(alloc: Global, text: &[u8]) -> Result<Instance, ReadFault>
    ensures text { OnOk result (IsUtf8 text.now) }
    ensures spelled { IfOk result (λ i. Spells (words text.now) i) }
    ensures accepted { (i : Problem)
        → IsUtf8 text.now
        → Spells (words text.now) i
        → (result ≡ Ok i) ⊎ (result ≡ Err NoMemory) }
    ensures fault { IfErr result (IsCauseOf text.now) }
    ensures not_text { ¬ IsUtf8 text.now → result ≡ Err (NotText (utf8_valid_len text.now)) }
    ensures broken { (k : ℕ) (fault : ReadFault)
        → IsUtf8 text.now
        → InstanceBreaksAt (words text.now) k fault
        → (result ≡ Err fault) ⊎ (result ≡ Err NoMemory) }
{
    match str::from_utf8(text) {
        Ok(text) => read_text(alloc, text),
        Err(error) => Err(ReadFault::NotText(error.valid_up_to() as u64)),
    }
}
