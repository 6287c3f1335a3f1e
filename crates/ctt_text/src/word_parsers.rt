//! Parsers of a single word, generic over the faults of the text.

ghost use Rattle.std.specs.Prelude.{◌≡◌, ◌<◌, ◌≤◌, nat_lt, IfOk, IfSome};
ghost use Rattle.ctt_text.specs.Places.{after, choice, choice_if, fixed, number, number_at_most, number_if, known_name};
ghost use Rattle.ctt_problem.specs.Problem.{course_count, room_count, teacher_count};
ghost use Rattle.ctt_text.specs.Reading.{Reads, reading, word_at};
ghost use Rattle.ctt_problem.specs.Named.{IsWord};
ghost use Rattle.ctt_text.specs.declared.text_fault.WordFault.TheVariants.{Missing, OtherWord, BadNumber, TooLarge, UnknownCourse, UnknownRoom, UnknownTeacher, DayOut, PeriodOut};

use crate::reader::Reader;
use crate::text_fault::{TextFault, WordFault};
use ctt_problem::{CourseNo, Instance, RoomNo, TeacherNo};

/// Takes the next word, whatever it is.
pub fn next_word<'a, F: TextFault + Drop>(reader: &mut Reader<'a>) -> Result<&'a str, F>
    ensures word { IfOk result (λ word. IsWord word.now) }
    ensures exact { Reads (λ word. (word.now, reader.new)) result
        (word_at (F.of_word Missing) reader.old) }
{
    let at = reader.next();
    match reader.word() {
        Some(word) => Ok(word),
        None => Err(F::of_word(WordFault::Missing, at)),
    }
}

/// Parses the fixed word `text`.
#[tactic(auto, using(crate::proofs::Steps::read_known), unfolding(crate::specs::Places::fixed))]
pub fn next_fixed<F: TextFault + Drop>(reader: &mut Reader, text: &str) -> Result<(), F>
    ensures { Reads (λ _. (tt, reader.new)) result
        (reading (F.of_word Missing) (fixed (F.of_word OtherWord) text.now) reader.old) }
{
    let at = reader.next();
    if next_word::<F>(reader)? == text {
        Ok(())
    } else {
        Err(F::of_word(WordFault::OtherWord, at))
    }
}

/// Parses a number, at most 999,999,999.
#[tactic(auto, using(crate::proofs::Steps::read_known), unfolding(crate::specs::Places::number))]
pub fn next_number<F: TextFault + Drop>(reader: &mut Reader) -> Result<u32, F>
    ensures { Reads (λ number. (number, reader.new)) result
        (reading (F.of_word Missing) (number (F.of_word BadNumber)) reader.old) }
{
    let at = reader.next();
    match reader.number() {
        Some(number) => Ok(number),
        None if reader.is_at_end() => Err(F::of_word(WordFault::Missing, at)),
        None => Err(F::of_word(WordFault::BadNumber, at)),
    }
}

/// Parses a number of at most `greatest`.
#[tactic(auto, using(crate::proofs::Steps::read_number_if), unfolding(crate::specs::Places::number_at_most))]
pub(crate) fn next_number_at_most<F: TextFault + Drop>(
    reader: &mut Reader,
    greatest: u32,
) -> Result<u32, F>
    ensures limit { IfOk result (λ number. number ≤ greatest) }
    ensures exact { Reads (λ number. (number, reader.new)) result
        (reading (F.of_word Missing)
        (number_at_most (F.of_word BadNumber) greatest (F.of_word TooLarge))
        reader.old) }
{
    let at = reader.next();
    let number = next_number::<F>(reader)?;
    if number <= greatest {
        Ok(number)
    } else {
        Err(F::of_word(WordFault::TooLarge, at))
    }
}

/// Parses the fixed word `label`, and then a number of at most `greatest`.
#[tactic(auto, using(crate::proofs::Steps::read_bind))]
pub(crate) fn next_count<F: TextFault + Drop>(
    reader: &mut Reader,
    label: &str,
    greatest: u32,
) -> Result<u32, F>
    ensures limit { IfOk result (λ number. number ≤ greatest) }
    ensures exact { Reads (λ number. (number, reader.new)) result
        (reading (F.of_word Missing)
        (after (F.of_word OtherWord) label.now
        (number_at_most (F.of_word BadNumber) greatest (F.of_word TooLarge)))
        reader.old) }
{
    next_fixed::<F>(reader, label)?;
    next_number_at_most(reader, greatest)
}

/// Parses the name of a course.
#[tactic(auto, using(crate::proofs::Steps::read_known), unfolding(crate::specs::Places::known_name))]
pub fn next_course<F: TextFault + Drop>(
    reader: &mut Reader,
    instance: &Instance,
) -> Result<CourseNo, F>
    ensures within { IfOk result (λ course. course < course_count instance.now) }
    ensures exact { Reads (λ course. (course, reader.new)) result
        (reading (F.of_word Missing)
        (known_name (F.of_word UnknownCourse) instance.now.course_names)
        reader.old) }
{
    let at = reader.next();
    let name = next_word::<F>(reader)?;
    match instance.find_course(name) {
        Some(course) => Ok(course),
        None => Err(F::of_word(WordFault::UnknownCourse, at)),
    }
}

/// Parses the name of a room.
#[tactic(auto, using(crate::proofs::Steps::read_known), unfolding(crate::specs::Places::known_name))]
pub fn next_room<F: TextFault + Drop>(reader: &mut Reader, instance: &Instance) -> Result<RoomNo, F>
    ensures within { IfOk result (λ room. room < room_count instance.now) }
    ensures exact { Reads (λ room. (room, reader.new)) result
        (reading (F.of_word Missing)
        (known_name (F.of_word UnknownRoom) instance.now.room_names)
        reader.old) }
{
    let at = reader.next();
    let name = next_word::<F>(reader)?;
    match instance.find_room(name) {
        Some(room) => Ok(room),
        None => Err(F::of_word(WordFault::UnknownRoom, at)),
    }
}

/// Parses the name of a teacher.
#[tactic(auto, using(crate::proofs::Steps::read_known), unfolding(crate::specs::Places::known_name))]
pub(crate) fn next_teacher<F: TextFault + Drop>(
    reader: &mut Reader,
    instance: &Instance,
) -> Result<TeacherNo, F>
    ensures within { IfOk result (λ teacher. teacher < teacher_count instance.now) }
    ensures exact { Reads (λ teacher. (teacher, reader.new)) result
        (reading (F.of_word Missing)
        (known_name (F.of_word UnknownTeacher) instance.now.teacher_names)
        reader.old) }
{
    let at = reader.next();
    let name = next_word::<F>(reader)?;
    match instance.find_teacher(name) {
        Some(teacher) => Ok(teacher),
        None => Err(F::of_word(WordFault::UnknownTeacher, at)),
    }
}

/// Parses a day below `days`.
#[tactic(auto, using(crate::proofs::Steps::read_number_if))]
pub(crate) fn next_day_below<F: TextFault + Drop>(reader: &mut Reader, days: u32) -> Result<u32, F>
    ensures within { IfOk result (λ day. day < days) }
    ensures exact { Reads (λ day. (day, reader.new)) result
        (reading (F.of_word Missing)
        (number_if (F.of_word BadNumber) (λ n. nat_lt n days) (F.of_word DayOut))
        reader.old) }
{
    let at = reader.next();
    let day = next_number::<F>(reader)?;
    if day < days {
        Ok(day)
    } else {
        Err(F::of_word(WordFault::DayOut, at))
    }
}

/// Parses a period below `periods`.
#[tactic(auto, using(crate::proofs::Steps::read_number_if))]
pub(crate) fn next_period_below<F: TextFault + Drop>(
    reader: &mut Reader,
    periods: u32,
) -> Result<u32, F>
    ensures within { IfOk result (λ period. period < periods) }
    ensures exact { Reads (λ period. (period, reader.new)) result
        (reading (F.of_word Missing)
        (number_if (F.of_word BadNumber) (λ n. nat_lt n periods) (F.of_word PeriodOut))
        reader.old) }
{
    let at = reader.next();
    let period = next_number::<F>(reader)?;
    if period < periods {
        Ok(period)
    } else {
        Err(F::of_word(WordFault::PeriodOut, at))
    }
}

/// Parses a day of the instance.
pub(crate) fn next_day<F: TextFault + Drop>(
    reader: &mut Reader,
    instance: &Instance,
) -> Result<u16, F>
    ensures within { IfOk result (λ day. day < instance.now.days) }
    ensures exact { Reads (λ day. (day, reader.new)) result
        (reading (F.of_word Missing)
        (number_if (F.of_word BadNumber) (λ n. nat_lt n instance.now.days) (F.of_word DayOut))
        reader.old) }
{
    let day = next_day_below::<F>(reader, u32::from(instance.days()))?;
    Ok(day as u16)
}

/// Parses a number, at most 999,999,999, or `*`, for which it returns `None`.
#[tactic(auto, using(crate::proofs::Steps::read_known), unfolding(crate::specs::Places::choice))]
pub(crate) fn next_choice<F: TextFault + Drop>(reader: &mut Reader) -> Result<Option<u32>, F>
    ensures { Reads (λ choice. (choice, reader.new)) result
        (reading (F.of_word Missing) (choice (F.of_word BadNumber)) reader.old) }
{
    let at = reader.next();
    if let Some(number) = reader.number() {
        return Ok(Some(number));
    }
    if next_word::<F>(reader)? == "*" {
        Ok(None)
    } else {
        Err(F::of_word(WordFault::BadNumber, at))
    }
}

/// Parses a day below `days`, or `*`.
#[tactic(auto, using(crate::proofs::Steps::read_choice_if))]
pub(crate) fn next_days<F: TextFault + Drop>(
    reader: &mut Reader,
    days: u16,
) -> Result<Option<u16>, F>
    ensures within { IfOk result (λ day. IfSome day (λ day. day < days)) }
    ensures exact { Reads (λ day. (day, reader.new)) result
        (reading (F.of_word Missing)
        (choice_if (F.of_word BadNumber) (λ n. nat_lt n days) (F.of_word DayOut))
        reader.old) }
{
    let at = reader.next();
    match next_choice::<F>(reader)? {
        None => Ok(None),
        Some(day) if day < u32::from(days) => Ok(Some(day as u16)),
        Some(_) => Err(F::of_word(WordFault::DayOut, at)),
    }
}

/// Parses a period below `periods`, or `*`.
#[tactic(auto, using(crate::proofs::Steps::read_choice_if))]
pub(crate) fn next_periods<F: TextFault + Drop>(
    reader: &mut Reader,
    periods: u16,
) -> Result<Option<u16>, F>
    ensures within { IfOk result (λ period. IfSome period (λ period. period < periods)) }
    ensures exact { Reads (λ period. (period, reader.new)) result
        (reading (F.of_word Missing)
        (choice_if (F.of_word BadNumber) (λ n. nat_lt n periods) (F.of_word PeriodOut))
        reader.old) }
{
    let at = reader.next();
    match next_choice::<F>(reader)? {
        None => Ok(None),
        Some(period) if period < u32::from(periods) => Ok(Some(period as u16)),
        Some(_) => Err(F::of_word(WordFault::PeriodOut, at)),
    }
}
