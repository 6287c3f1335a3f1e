//! Parsing the section of courses.

ghost use Rattle.std.specs.Prelude.{◌≡◌, ◌≤◌, ◌<◌, ◌+◌, length, IfOk, OnOk, codes};
ghost use Rattle.ctt_text.specs.Places.{after};
ghost use Rattle.ctt_text.specs.declared.fault.ReadFault.TheVariants.{Expected};
ghost use Rattle.ctt_text.specs.Forms.{times};
ghost use Rattle.ctt_text.specs.InstancePlaces.{GivesRead, reads, course, no_courses};

use crate::fault::ReadFault;
use crate::instance::header::Header;
use crate::instance::instance_words::{read_any, read_fixed, read_new_name, read_number};
use crate::reader::Reader;
use ctt_problem::{CourseFacts, Names, TeacherNo};
use std::alloc::Global;
use std::marker::Model;

/// The courses parsed so far, and the names of their teachers.
#[derive(Drop)]
pub(crate) struct CourseSection {
    pub(crate) names: Names,
    pub(crate) facts: Vec<CourseFacts>,
    pub(crate) teachers: Names,
}

impl Model for CourseSection {
    ghost use Rattle.ctt_text.specs.InstancePlaces.{Courses};

    ghost Value = { Courses };

    ghost view = { λ s. record { names = s.names; facts = s.facts.items; teachers = s.teachers } };
}

/// Parses one course, and appends it to the section.
#[tactic(auto, using(crate::proofs::Steps::read_bind, crate::proofs::Steps::read_done), unfolding(crate::specs::InstancePlaces::course))]
fn read_one_course(
    alloc: Global,
    reader: &mut Reader,
    section: &mut CourseSection,
) -> Result<(), ReadFault>
    requires { length section.old.teachers < 2000 }
    ensures teachers { OnOk result (length section.new.teachers ≤ length section.old.teachers + 1) }
    ensures names { OnOk result (length section.new.names ≡ length section.old.names + 1) }
    ensures exact { GivesRead (λ _. (section.new, reader.new)) result
        (reads (course section.old) reader.old) }
{
    let name = read_new_name(reader, &section.names)?;
    let teacher = read_any(reader)?;
    let lectures = read_number(reader)?;
    let min_days = read_number(reader)?;
    let students = read_number(reader)?;
    let teacher = section.teachers.number_or_add(alloc, teacher)?;
    section.names.add(alloc, name)?;
    section.facts.push(CourseFacts {
        teacher: TeacherNo::new(teacher as u16),
        lectures,
        min_days,
        students,
    })?;
    Ok(())
}

impl CourseSection {
    /// Returns a section without courses.
    fn new(alloc: Global) -> Self
        ensures { result ≡ no_courses }
    {
        CourseSection {
            names: Names::new(alloc),
            facts: Vec::new(alloc),
            teachers: Names::new(alloc),
        }
    }
}

/// Parses `count` courses.
fn read_courses(alloc: Global, reader: &mut Reader, count: u32) -> Result<CourseSection, ReadFault>
    requires { count ≤ 2000 }
    ensures count { IfOk result (λ section. length section.names ≡ count) }
    ensures exact { GivesRead (λ section. (section, reader.new)) result
        (reads (times course count no_courses) reader.old) }
{
    let mut section = CourseSection::new(alloc);
    for _ in 0..count {
        read_one_course(alloc, reader, &mut section)?;
    }
    Ok(section)
}

/// Parses the section: its heading, and as many courses as the header states.
#[tactic(auto, using(crate::proofs::Steps::read_bind))]
pub(crate) fn read_course_section(
    alloc: Global,
    reader: &mut Reader,
    header: &Header,
) -> Result<CourseSection, ReadFault>
    requires { header.now.courses ≤ 2000 }
    ensures count { IfOk result (λ section. length section.names ≡ header.now.courses) }
    ensures exact { GivesRead (λ section. (section, reader.new)) result
        (reads (after Expected (codes "COURSES:") (times course header.now.courses no_courses))
        reader.old) }
{
    read_fixed(reader, "COURSES:")?;
    read_courses(alloc, reader, header.courses)
}
