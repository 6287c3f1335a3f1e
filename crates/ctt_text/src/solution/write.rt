//! Writing a solution.

ghost use Rattle.std.specs.Prelude.{◌≡◌, ◌++◌, OnOk, IfOk, string_bytes};
ghost use Rattle.std.specs.Str.{IsUtf8};
ghost use Rattle.ctt_text.specs.Words.{words};
ghost use Rattle.ctt_text.specs.SolutionText.{SolSpells};
ghost use Rattle.ctt_problem.specs.Timetable.{Fits, IsTimetable};
ghost use Rattle.ctt_text.specs.Written.{words_of, line_of, soltext};

use ctt_line::{Word, push_line};
use ctt_problem::{Instance, NoMemory, Placed};
use std::alloc::{AllocError, Global};

/// Appends the line of a lecture to the text.
fn write_line(text: &mut String, instance: &Instance, lecture: &Placed) -> Result<(), AllocError>
    requires { Fits instance.now lecture.now }
    ensures { OnOk result
        (string_bytes text.new
        ≡ string_bytes text.old ++ line_of (words_of instance.now lecture.now)) }
{
    let course = Word::text(instance.course_name(lecture.course));
    let room = Word::text(instance.room_name(lecture.room));
    let day = Word::number(u64::from(instance.day_of(lecture.slot)));
    let period = Word::number(u64::from(instance.period_of(lecture.slot)));
    push_line(text, &[course, room, day, period])
}

/// Writes a timetable as the text of a solution: one line per lecture, in order.
///
/// Parsing the text gives the same timetable.
pub fn write_solution(
    alloc: Global,
    instance: &Instance,
    lectures: &[Placed],
) -> Result<Vec<u8>, NoMemory>
    requires { IsTimetable instance.now lectures.now }
    ensures text { IfOk result (λ text. text.items ≡ soltext instance.now lectures.now) }
    ensures utf8 { IfOk result (λ text. IsUtf8 text.items) }
    ensures spelled { IfOk result (λ text. SolSpells instance.now (words text.items) lectures.now) }
{
    instance.limits_hold();
    instance.names_are_words();
    let mut text = String::new(alloc);
    for lecture in lectures {
        write_line(&mut text, instance, lecture)?;
    }
    Ok(text.into_bytes())
}
