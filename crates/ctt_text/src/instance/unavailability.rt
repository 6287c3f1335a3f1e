//! Parsing the section of unavailable periods.

ghost use Rattle.std.specs.Prelude.{◌≡◌, ◌<◌, ◌≤◌, ◌+◌, ◌*◌, length, codes, IfOk, Ok};
ghost use Rattle.ctt_text.specs.Places.{after};
ghost use Rattle.ctt_text.specs.declared.fault.ReadFault.TheVariants.{Expected};
ghost use Rattle.ctt_problem.specs.BitRows.{marks_of, HasSize};
ghost use Rattle.ctt_text.specs.Forms.{times};
ghost use Rattle.ctt_text.specs.InstancePlaces.{GivesRead, reads, unavailability, all_available};

use crate::fault::ReadFault;
use crate::instance::courses::CourseSection;
use crate::instance::header::Header;
use crate::instance::instance_words::{read_course, read_day, read_fixed, read_period};
use crate::reader::Reader;
use ctt_problem::{BitRows, Names};
use std::alloc::Global;

/// Parses one period in which a course is unavailable, and marks it in the table.
#[tactic(auto, using(crate::proofs::Steps::read_bind, crate::proofs::Steps::read_done, ctt_problem::proofs::BitRowLemmas::marks_set), unfolding(crate::specs::InstancePlaces::unavailability))]
fn read_one_period(
    reader: &mut Reader,
    courses: &Names,
    days: u32,
    periods: u32,
    table: &mut BitRows,
) -> Result<(), ReadFault>
    requires slots { days * periods ≤ 2000 }
    requires size { HasSize table.old (length courses.now) (days * periods) }
    ensures size { HasSize table.new (length courses.now) (days * periods) }
    ensures exact { GivesRead (λ _. (marks_of table.new, reader.new)) result
        (reads (unavailability courses.now days periods (marks_of table.old)) reader.old) }
{
    let course = read_course(reader, courses)?;
    let day = read_day(reader, days)?;
    let period = read_period(reader, periods)?;
    table.mark(course, (day * periods + period) as usize);
    Ok(())
}

/// Parses `count` periods in which a course is unavailable, and marks them in the table.
fn read_periods(
    reader: &mut Reader,
    courses: &Names,
    days: u32,
    periods: u32,
    count: u32,
    table: &mut BitRows,
) -> Result<(), ReadFault>
    requires slots { days * periods ≤ 2000 }
    requires size { HasSize table.old (length courses.now) (days * periods) }
    ensures size { HasSize table.new (length courses.now) (days * periods) }
    ensures exact { GivesRead (λ _. (marks_of table.new, reader.new)) result
        (reads (times (unavailability courses.now days periods) count (marks_of table.old)) reader.old) }
{
    for _ in 0..count {
        read_one_period(reader, courses, days, periods, table)?;
    }
    Ok(())
}

/// Parses the section: its heading, and as many periods in which a course is unavailable as the
/// header states.
#[tactic(auto, using(crate::proofs::Steps::read_bind, ctt_problem::proofs::BitRowLemmas::marks_none))]
pub(crate) fn read_unavailability_section(
    alloc: Global,
    reader: &mut Reader,
    header: &Header,
    courses: &CourseSection,
) -> Result<BitRows, ReadFault>
    requires slots { header.now.days * header.now.periods ≤ 2000 }
    requires courses { length courses.now.names ≡ header.now.courses }
    requires few { header.now.courses ≤ 2000 }
    ensures size { IfOk result (λ table.
        HasSize table header.now.courses (header.now.days * header.now.periods)) }
    ensures exact { GivesRead (λ table. (marks_of table, reader.new)) result
        (reads
        (after Expected (codes "UNAVAILABILITY_CONSTRAINTS:")
        (times (unavailability courses.now.names header.now.days header.now.periods)
        header.now.constraints (all_available header.now))) reader.old) }
{
    read_fixed(reader, "UNAVAILABILITY_CONSTRAINTS:")?;
    let slots = (header.days * header.periods) as usize;
    let mut table = BitRows::new(alloc, header.courses as usize, slots)?;
    read_periods(
        reader,
        &courses.names,
        header.days,
        header.periods,
        header.constraints,
        &mut table,
    )?;
    Ok(table)
}
