//! Parsing the period of a lecture, whose slot must be free for the course.

ghost use Rattle.std.specs.Prelude.{◌≡◌, ◌<◌, IfOk, false};
ghost use Rattle.ctt_problem.specs.Problem.{course_count, slot_count};
ghost use Rattle.ctt_problem.specs.Timetable.{has_lecture};
ghost use Rattle.ctt_text.specs.SolutionPlaces.{GivesLectures, reads_lectures, free_slot};

use crate::fault::SolutionFault;
use crate::reader::Reader;
use crate::solution::lectures::Lectures;
use crate::word_parsers::next_number;
use ctt_problem::{CourseNo, Instance, SlotNo};

/// Parses a period of the day, and returns its slot. The course must not have a lecture in it
/// already.
#[tactic(auto, using(crate::proofs::SolutionSteps::read_free_slot))]
pub(crate) fn read_slot(
    reader: &mut Reader,
    instance: &Instance,
    lectures: &Lectures,
    course: CourseNo,
    day: u16,
) -> Result<SlotNo, SolutionFault>
    requires problem { lectures.now.problem ≡ instance.now }
    requires course { course < course_count instance.now }
    requires day { day < instance.now.days }
    ensures limit { IfOk result (λ slot. slot < slot_count instance.now) }
    ensures free { IfOk result (λ slot. has_lecture course slot lectures.now.list ≡ false) }
    ensures exact { GivesLectures (λ slot. (slot, reader.new)) result
        (reads_lectures (free_slot instance.now lectures.now.list course day) reader.old) }
{
    let at = reader.next();
    let period = next_number::<SolutionFault>(reader)?;
    if period >= u32::from(instance.periods()) {
        return Err(SolutionFault::PeriodOut(at));
    }
    let slot = instance.slot_of(day, period as u16);
    if lectures.has(course, slot) {
        return Err(SolutionFault::Repeated(at));
    }
    Ok(slot)
}
