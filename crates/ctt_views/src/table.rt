//! The tables of a week as text.

ghost use Rattle.std.specs.Prelude.{◌≡◌, ◌++◌, IfOk, IfSome, OnOk, string_bytes};
ghost use Rattle.ctt_problem.specs.Timetable.{IsTimetable};
ghost use Rattle.ctt_views.specs.Week.{SelectionFits, for_each, gap, line, table, tables, title, week};

use crate::column::Column;
use crate::columns::columns;
use crate::selection::{Selection, select};
use ctt_problem::{Instance, NoMemory, Placed, RoomNo};
use std::alloc::{AllocError, Global};
use std::fmt::Write;

/// Adds the line above a table, which names the selection.
fn push_title(
    text: &mut String,
    instance: &Instance,
    selection: &Selection,
) -> Result<(), AllocError>
    requires { SelectionFits instance.now selection.now }
    ensures { OnOk result (string_bytes text.new
        ≡ string_bytes text.old ++ title instance.now selection.now) }
{
    match selection {
        Selection::Curriculum(curriculum) => {
            let name = instance.curriculum_name(*curriculum);
            writeln!(text, "curriculum {name}")
        }
        Selection::Teacher(teacher) => {
            let name = instance.teacher_name(*teacher);
            writeln!(text, "teacher {name}")
        }
        Selection::Course(course) => {
            let name = instance.course_name(*course);
            writeln!(text, "course {name}")
        }
        Selection::Room(room) => {
            let name = instance.room_name(*room);
            writeln!(text, "room {name}")
        }
    }
}

/// Adds a line of a table.
fn push_line(text: &mut String, columns: &[Column], place: usize) -> Result<(), AllocError>
    ensures { OnOk result (string_bytes text.new
        ≡ string_bytes text.old ++ line columns.now place) }
{
    for column in columns {
        column.push_to(text, place)?;
    }
    text.push_str("|\n")
}

/// Adds the first `count` lines of a table.
#[tactic(auto, using(crate::proofs::WeekLemmas::each_more))]
fn push_lines(text: &mut String, columns: &[Column], count: usize) -> Result<(), AllocError>
    ensures { OnOk result (string_bytes text.new
        ≡ string_bytes text.old ++ for_each (line columns.now) count) }
{
    for place in 0..count {
        push_line(text, columns, place)?;
    }
    Ok(())
}

/// Adds the table of a selection.
fn push_table(
    alloc: Global,
    text: &mut String,
    instance: &Instance,
    selection: &Selection,
    timetable: &[Placed],
) -> Result<(), AllocError>
    requires selection { SelectionFits instance.now selection.now }
    requires timetable { IsTimetable instance.now timetable.now }
    ensures { OnOk result (string_bytes text.new
        ≡ string_bytes text.old ++ table instance.now selection.now timetable.now) }
{
    let lectures = select(alloc, instance, selection, timetable)?;
    let columns = columns(alloc, instance, selection, &lectures)?;
    push_title(text, instance, selection)?;
    push_lines(text, &columns, instance.periods() as usize + 1)
}

/// Adds a blank line, but not before the first table.
fn push_gap(text: &mut String, number: u16) -> Result<(), AllocError>
    ensures { OnOk result (string_bytes text.new ≡ string_bytes text.old ++ gap number) }
{
    if number == 0 {
        return Ok(());
    }
    text.push_str("\n")
}

/// Adds the table of each room, with blank lines between them.
#[tactic(auto, using(crate::proofs::WeekLemmas::each_more))]
fn push_tables(
    alloc: Global,
    text: &mut String,
    instance: &Instance,
    timetable: &[Placed],
) -> Result<(), AllocError>
    requires { IsTimetable instance.now timetable.now }
    ensures { OnOk result (string_bytes text.new
        ≡ string_bytes text.old ++ tables instance.now timetable.now) }
{
    for number in 0..instance.rooms() {
        let room = Selection::Room(RoomNo::new(number));
        push_gap(text, number)?;
        push_table(alloc, text, instance, &room, timetable)?;
    }
    Ok(())
}

/// Adds the week of a selection, or the weeks of all rooms if there is no selection.
fn push_week(
    alloc: Global,
    text: &mut String,
    instance: &Instance,
    selection: Option<Selection>,
    timetable: &[Placed],
) -> Result<(), AllocError>
    requires selection { IfSome selection (SelectionFits instance.now) }
    requires timetable { IsTimetable instance.now timetable.now }
    ensures { OnOk result (string_bytes text.new
        ≡ string_bytes text.old ++ week instance.now selection timetable.now) }
{
    match selection {
        Some(selection) => push_table(alloc, text, instance, &selection, timetable),
        None => push_tables(alloc, text, instance, timetable),
    }
}

/// Returns the week of a timetable as a table: a column for each day, a line for each period, and
/// in each cell the courses with their rooms. Without a selection there is a table for each room.
pub fn week_text(
    alloc: Global,
    instance: &Instance,
    selection: Option<Selection>,
    timetable: &[Placed],
) -> Result<String, NoMemory>
    requires selection { IfSome selection (SelectionFits instance.now) }
    requires timetable { IsTimetable instance.now timetable.now }
    ensures { IfOk result (λ text. string_bytes text
        ≡ week instance.now selection timetable.now) }
{
    let mut text = String::new(alloc);
    push_week(alloc, &mut text, instance, selection, timetable)?;
    Ok(text)
}
