//! Writing the line of a lecture that is set aside.

ghost use Rattle.std.specs.Prelude.{◌≡◌, ◌++◌, OnOk, string_bytes};
ghost use Rattle.ctt_problem.specs.Timetable.{Fits};
ghost use Rattle.ctt_edits.specs.Fitting.{FaultFits};
ghost use Rattle.ctt_commands.specs.Mended.{aside_line};

use ctt_edits::EditFault;
use ctt_problem::{Instance, Placed};
use ctt_script::write_fault;
use std::alloc::AllocError;
use std::fmt::Write;

/// Adds the line of a lecture that is set aside, with the reason.
pub(crate) fn write_aside(
    text: &mut String,
    instance: &Instance,
    lecture: &Placed,
    fault: &EditFault,
) -> Result<(), AllocError>
    requires lecture { Fits instance.now lecture.now }
    requires fault { FaultFits instance.now fault.now }
    ensures { OnOk result (string_bytes text.new
        ≡ string_bytes text.old ++ aside_line instance.now (lecture.now, fault.now)) }
{
    let course = instance.course_name(lecture.course);
    let room = instance.room_name(lecture.room);
    let day = instance.day_of(lecture.slot);
    let period = instance.period_of(lecture.slot);
    write!(text, "timedesk: set aside {course} {room} {day} {period} ")?;
    write_fault(text, instance, fault)
}
