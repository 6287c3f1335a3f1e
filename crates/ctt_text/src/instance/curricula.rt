//! Parsing the section of curricula.

ghost use Rattle.std.specs.Prelude.{◌≤◌, length, codes};
ghost use Rattle.ctt_text.specs.Places.{after};
ghost use Rattle.ctt_text.specs.declared.fault.ReadFault.TheVariants.{Expected};
ghost use Rattle.ctt_text.specs.Forms.{times};
ghost use Rattle.ctt_text.specs.InstancePlaces.{GivesRead, reads, curriculum, no_curricula};

use crate::fault::ReadFault;
use crate::instance::courses::CourseSection;
use crate::instance::header::Header;
use crate::instance::instance_words::{read_fixed, read_new_name, read_number};
use crate::instance::members::read_members;
use crate::reader::Reader;
use ctt_problem::{CourseNo, Names};
use std::alloc::Global;
use std::marker::Model;

/// The curricula parsed so far.
#[derive(Drop)]
pub(crate) struct CurriculumSection {
    pub(crate) names: Names,
    pub(crate) members: Vec<Vec<CourseNo>>,
}

impl Model for CurriculumSection {
    ghost use Rattle.std.specs.Prelude.{map};
    ghost use Rattle.ctt_text.specs.InstancePlaces.{Curricula};

    ghost Value = { Curricula };

    ghost view = { λ s. record { names = s.names; members = map (λ m. m.items) s.members.items } };
}

/// Parses one curriculum, and appends it to the section.
#[tactic(auto, using(crate::proofs::Steps::read_bind, crate::proofs::Steps::read_done, std::proofs::lemmas::List::map_push), unfolding(crate::specs::InstancePlaces::curriculum))]
fn read_one_curriculum(
    alloc: Global,
    reader: &mut Reader,
    courses: &Names,
    section: &mut CurriculumSection,
) -> Result<(), ReadFault>
    requires { length courses.now ≤ 2000 }
    ensures { GivesRead (λ _. (section.new, reader.new)) result
        (reads (curriculum courses.now section.old) reader.old) }
{
    let name = read_new_name(reader, &section.names)?;
    let count = read_number(reader)?;
    let members = read_members(alloc, reader, courses, count)?;
    section.names.add(alloc, name)?;
    section.members.push(members)?;
    Ok(())
}

/// Parses `count` curricula.
fn read_curricula(
    alloc: Global,
    reader: &mut Reader,
    courses: &Names,
    count: u32,
) -> Result<CurriculumSection, ReadFault>
    requires { length courses.now ≤ 2000 }
    ensures { GivesRead (λ section. (section, reader.new)) result
        (reads (times (curriculum courses.now) count no_curricula) reader.old) }
{
    let mut section = CurriculumSection {
        names: Names::new(alloc),
        members: Vec::new(alloc),
    };
    for _ in 0..count {
        read_one_curriculum(alloc, reader, courses, &mut section)?;
    }
    Ok(section)
}

/// Parses the section: its heading, and as many curricula as the header states.
#[tactic(auto, using(crate::proofs::Steps::read_bind))]
pub(crate) fn read_curriculum_section(
    alloc: Global,
    reader: &mut Reader,
    header: &Header,
    courses: &CourseSection,
) -> Result<CurriculumSection, ReadFault>
    requires { length courses.now.names ≤ 2000 }
    ensures { GivesRead (λ section. (section, reader.new)) result
        (reads
        (after Expected (codes "CURRICULA:")
        (times (curriculum courses.now.names) header.now.curricula no_curricula))
        reader.old) }
{
    read_fixed(reader, "CURRICULA:")?;
    read_curricula(alloc, reader, &courses.names, header.curricula)
}
