//! The header of an instance.

ghost use Rattle.std.specs.Prelude.{◌≤◌, ◌*◌, IfOk, codes};
ghost use Rattle.ctt_text.specs.Places.{any, after};
ghost use Rattle.ctt_text.specs.InstancePlaces.{GivesRead, reads, two_counts, calendar, header};
ghost use Rattle.ctt_text.specs.declared.fault.ReadFault.TheVariants.{Expected};

use crate::fault::ReadFault;
use crate::instance::instance_words::{read_any, read_count, read_fixed, read_period_count};
use crate::reader::Reader;
use std::marker::Model;

/// The name of an instance, and the sizes of its sections.
#[derive(Drop)]
pub(crate) struct Header<'a> {
    pub(crate) name: &'a str,
    pub(crate) courses: u32,
    pub(crate) rooms: u32,
    pub(crate) days: u32,
    pub(crate) periods: u32,
    pub(crate) curricula: u32,
    pub(crate) constraints: u32,
}

impl<'a> Model for Header<'a> {
    ghost use Rattle.ctt_text.specs.InstancePlaces.{Header};

    ghost Value = { Header };

    ghost view = { λ h. record {
      name = h.name.now;
      courses = h.courses;
      rooms = h.rooms;
      days = h.days;
      periods = h.periods;
      curricula = h.curricula;
      constraints = h.constraints;
    } };
}

/// Parses the name of the instance, after its label.
#[tactic(auto, using(crate::proofs::Steps::read_bind))]
fn read_name<'a>(reader: &mut Reader<'a>) -> Result<&'a str, ReadFault>
    ensures { GivesRead (λ name. (name.now, reader.new)) result
        (reads (after Expected (codes "Name:") any) reader.old) }
{
    read_fixed(reader, "Name:")?;
    read_any(reader)
}

/// Parses two counts, each after its label. An argument is a label and the greatest count allowed.
#[tactic(auto, using(crate::proofs::Steps::read_bind, crate::proofs::Steps::read_done), unfolding(crate::specs::InstancePlaces::two_counts))]
fn read_two_counts(
    reader: &mut Reader,
    first: (&str, u32),
    second: (&str, u32),
) -> Result<(u32, u32), ReadFault>
    ensures first { IfOk result (λ c. c.0 ≤ first.entry.1) }
    ensures exact { GivesRead (λ c. (c, reader.new)) result
        (reads (two_counts first.entry.0.now first.entry.1 second.entry.0.now second.entry.1)
        reader.old) }
{
    let first = read_count(reader, first.0, first.1)?;
    let second = read_count(reader, second.0, second.1)?;
    Ok((first, second))
}

/// Parses the number of days and the number of periods per day.
#[tactic(auto, using(crate::proofs::Steps::read_bind, crate::proofs::Steps::read_done), unfolding(crate::specs::InstancePlaces::calendar))]
fn read_calendar(reader: &mut Reader) -> Result<(u32, u32), ReadFault>
    ensures days { IfOk result (λ c. c.0 ≤ 2000) }
    ensures periods { IfOk result (λ c. c.1 ≤ 2000) }
    ensures slots { IfOk result (λ c. c.0 * c.1 ≤ 2000) }
    ensures exact { GivesRead (λ c. (c, reader.new)) result (reads calendar reader.old) }
{
    let days = read_count(reader, "Days:", 2000)?;
    read_fixed(reader, "Periods_per_day:")?;
    let periods = read_period_count(reader, days)?;
    Ok((days, periods))
}

/// Parses the header.
#[tactic(auto, using(crate::proofs::Steps::read_bind, crate::proofs::Steps::read_done), unfolding(crate::specs::InstancePlaces::header))]
pub(crate) fn read_header<'a>(reader: &mut Reader<'a>) -> Result<Header<'a>, ReadFault>
    ensures courses { IfOk result (λ h. h.courses ≤ 2000) }
    ensures days { IfOk result (λ h. h.days ≤ 2000) }
    ensures periods { IfOk result (λ h. h.periods ≤ 2000) }
    ensures slots { IfOk result (λ h. h.days * h.periods ≤ 2000) }
    ensures exact { GivesRead (λ h. (h, reader.new)) result (reads header reader.old) }
{
    let name = read_name(reader)?;
    let (courses, rooms) = read_two_counts(reader, ("Courses:", 2000), ("Rooms:", 1000))?;
    let (days, periods) = read_calendar(reader)?;
    let (curricula, constraints) = read_two_counts(
        reader,
        ("Curricula:", 20_000),
        ("Constraints:", 2_000_000),
    )?;
    Ok(Header {
        name,
        courses,
        rooms,
        days,
        periods,
        curricula,
        constraints,
    })
}
