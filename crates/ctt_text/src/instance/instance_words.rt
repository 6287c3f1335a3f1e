//! Parsers of a single word of an instance.

ghost use Rattle.std.specs.Prelude.{◌≡◌, ◌<◌, ◌≤◌, ◌*◌, length, IfOk, false};
ghost use Rattle.ctt_text.specs.Places.{any, fixed, number, new_name, known_name, after};
ghost use Rattle.ctt_problem.specs.Problem.{is_among};
ghost use Rattle.ctt_text.specs.InstancePlaces.{GivesRead, reads, number_up_to, day_below, period_below, period_count};
ghost use Rattle.ctt_text.specs.declared.fault.ReadFault.TheVariants.{Expected, BadNumber, RepeatedName, UnknownCourse};

use crate::fault::ReadFault;
use crate::reader::Reader;
use crate::word_parsers::{
    next_day_below, next_fixed, next_number, next_number_at_most, next_period_below, next_word,
};
use ctt_problem::Names;

/// Parses any word.
#[tactic(auto, using(crate::proofs::Steps::read_one), unfolding(crate::specs::Places::any))]
pub(crate) fn read_any<'a>(reader: &mut Reader<'a>) -> Result<&'a str, ReadFault>
    ensures { GivesRead (λ word. (word.now, reader.new)) result (reads any reader.old) }
{
    next_word(reader)
}

/// Parses the fixed word `text`.
pub(crate) fn read_fixed(reader: &mut Reader, text: &str) -> Result<(), ReadFault>
    ensures { GivesRead (λ _. (tt, reader.new)) result
        (reads (fixed Expected text.now) reader.old) }
{
    next_fixed(reader, text)
}

/// Parses a number, at most 999,999,999.
pub(crate) fn read_number(reader: &mut Reader) -> Result<u32, ReadFault>
    ensures { GivesRead (λ number. (number, reader.new)) result
        (reads (number BadNumber) reader.old) }
{
    next_number(reader)
}

/// Parses a name that is not among `names`.
#[tactic(auto, using(crate::proofs::Steps::read_one), unfolding(crate::specs::Places::new_name))]
pub(crate) fn read_new_name<'a>(
    reader: &mut Reader<'a>,
    names: &Names,
) -> Result<&'a str, ReadFault>
    ensures new { IfOk result (λ name. is_among names.now name.now ≡ false) }
    ensures exact { GivesRead (λ name. (name.now, reader.new)) result
        (reads (new_name RepeatedName names.now) reader.old) }
{
    let at = reader.next();
    let name = next_word::<ReadFault>(reader)?;
    if names.contains(name) {
        return Err(ReadFault::RepeatedName(at));
    }
    Ok(name)
}

/// Parses the name of a course, and returns its number.
#[tactic(auto, using(crate::proofs::Steps::read_known), unfolding(crate::specs::Places::known_name))]
pub(crate) fn read_course(reader: &mut Reader, courses: &Names) -> Result<usize, ReadFault>
    ensures known { IfOk result (λ course. course < length courses.now) }
    ensures exact { GivesRead (λ course. (course, reader.new)) result
        (reads (known_name UnknownCourse courses.now) reader.old) }
{
    let at = reader.next();
    let name = next_word::<ReadFault>(reader)?;
    courses.number(name).ok_or(ReadFault::UnknownCourse(at))
}

/// Parses a number of at most `greatest`.
#[tactic(auto, unfolding(crate::specs::InstancePlaces::number_up_to, crate::specs::Places::number_at_most))]
pub(crate) fn read_number_up_to(reader: &mut Reader, greatest: u32) -> Result<u32, ReadFault>
    ensures limit { IfOk result (λ number. number ≤ greatest) }
    ensures exact { GivesRead (λ number. (number, reader.new)) result
        (reads (number_up_to greatest) reader.old) }
{
    next_number_at_most(reader, greatest)
}

/// Parses the number of periods per day: at most 2,000, with at most 2,000 slots in all.
#[tactic(auto, using(crate::proofs::Steps::read_number_if), unfolding(crate::specs::InstancePlaces::period_count))]
pub(crate) fn read_period_count(reader: &mut Reader, days: u32) -> Result<u32, ReadFault>
    requires { days ≤ 2000 }
    ensures limit { IfOk result (λ number. number ≤ 2000) }
    ensures slots { IfOk result (λ number. days * number ≤ 2000) }
    ensures exact { GivesRead (λ number. (number, reader.new)) result
        (reads (period_count days) reader.old) }
{
    let at = reader.next();
    let number = read_number(reader)?;
    if number <= 2000 && days * number <= 2000 {
        Ok(number)
    } else {
        Err(ReadFault::TooLarge(at))
    }
}

/// Parses a day below `days`.
#[tactic(auto, unfolding(crate::specs::InstancePlaces::day_below))]
pub(crate) fn read_day(reader: &mut Reader, days: u32) -> Result<u32, ReadFault>
    ensures limit { IfOk result (λ number. number < days) }
    ensures exact { GivesRead (λ number. (number, reader.new)) result
        (reads (day_below days) reader.old) }
{
    next_day_below(reader, days)
}

/// Parses a period below `periods`.
#[tactic(auto, unfolding(crate::specs::InstancePlaces::period_below))]
pub(crate) fn read_period(reader: &mut Reader, periods: u32) -> Result<u32, ReadFault>
    ensures limit { IfOk result (λ number. number < periods) }
    ensures exact { GivesRead (λ number. (number, reader.new)) result
        (reads (period_below periods) reader.old) }
{
    next_period_below(reader, periods)
}

/// Parses the fixed word `label`, and then a number of at most `greatest`.
#[tactic(auto, using(crate::proofs::Steps::read_bind))]
pub(crate) fn read_count(reader: &mut Reader, label: &str, greatest: u32) -> Result<u32, ReadFault>
    ensures limit { IfOk result (λ number. number ≤ greatest) }
    ensures exact { GivesRead (λ number. (number, reader.new)) result
        (reads (after Expected label.now (number_up_to greatest)) reader.old) }
{
    read_fixed(reader, label)?;
    read_number_up_to(reader, greatest)
}
