//! The texts of the cells of a week.

ghost use Rattle.std.specs.Prelude.{◌≡◌, ◌<◌, ◌++◌, IfOk, OnOk, string_bytes};
ghost use Rattle.std.specs.List.{AllByRecursion as Each};
ghost use Rattle.ctt_problem.specs.Problem.{slot_count};
ghost use Rattle.ctt_problem.specs.Timetable.{Fits, slot_row};
ghost use Rattle.ctt_views.specs.Week.{SelectionFits, cell, comma, entries, entry, mark};

use crate::selection::{Selection, is_closed};
use ctt_problem::{Instance, Placed, SlotNo};
use std::alloc::{AllocError, Global};
use std::fmt::Write;

/// Adds a comma and a blank, unless the cell is empty.
fn push_comma(cell: &mut String) -> Result<(), AllocError>
    ensures { OnOk result (string_bytes cell.new
        ≡ string_bytes cell.old ++ comma (string_bytes cell.old)) }
{
    if cell.as_str().is_empty() {
        return Ok(());
    }
    cell.push_str(", ")
}

/// Adds a lecture: its course and its room, after a comma if the cell is not empty.
fn push_entry(cell: &mut String, instance: &Instance, lecture: &Placed) -> Result<(), AllocError>
    requires { Fits instance.now lecture.now }
    ensures { OnOk result (string_bytes cell.new ≡ string_bytes cell.old
        ++ (comma (string_bytes cell.old) ++ entry instance.now lecture.now)) }
{
    push_comma(cell)?;
    let course = instance.course_name(lecture.course);
    let room = instance.room_name(lecture.room);
    write!(cell, "{course} {room}")
}

/// Returns the text of the lectures in a slot.
fn entries(
    alloc: Global,
    instance: &Instance,
    lectures: &[Placed],
    slot: SlotNo,
) -> Result<String, AllocError>
    requires { Each (Fits instance.now) lectures.now }
    ensures { IfOk result (λ cell. string_bytes cell
        ≡ entries instance.now (slot_row slot lectures.now)) }
{
    let mut cell = String::new(alloc);
    for lecture in lectures {
        if lecture.slot == slot {
            push_entry(&mut cell, instance, lecture)?;
        }
    }
    Ok(cell)
}

/// Adds the mark of a slot in which the selection is closed: `-` in an empty cell, ` !` in another.
fn push_mark(cell: &mut String, closed: bool) -> Result<(), AllocError>
    ensures { OnOk result (string_bytes cell.new
        ≡ string_bytes cell.old ++ mark closed (string_bytes cell.old)) }
{
    if !closed {
        return Ok(());
    }
    let mark = if cell.as_str().is_empty() { "-" } else { " !" };
    cell.push_str(mark)
}

/// Returns the text of the cell of a slot. `lectures` are those in the selection.
pub(crate) fn cell(
    alloc: Global,
    instance: &Instance,
    selection: &Selection,
    lectures: &[Placed],
    slot: SlotNo,
) -> Result<String, AllocError>
    requires selection { SelectionFits instance.now selection.now }
    requires fits { Each (Fits instance.now) lectures.now }
    requires slot { slot < slot_count instance.now }
    ensures { IfOk result (λ text. string_bytes text
        ≡ cell instance.now selection.now lectures.now slot) }
{
    let mut text = entries(alloc, instance, lectures, slot)?;
    push_mark(&mut text, is_closed(instance, selection, slot))?;
    Ok(text)
}
