//! The cells of a grid, and the lectures in them.

ghost use Rattle.std.specs.Prelude.{◌≡◌, ◌<◌, ◌++◌, OnOk, filter, flat_map, string_bytes};
ghost use Rattle.std.specs.List.{AllByRecursion as Each};
ghost use Rattle.ctt_problem.specs.Problem.{slot_count};
ghost use Rattle.ctt_problem.specs.Timetable.{Fits};
ghost use Rattle.ctt_views.specs.Cells.{cell, cell_start, lecture_text, mark, names_text, shown_text};
ghost use Rattle.ctt_views.specs.Grids.{GridFits, is_of};
ghost use Rattle.ctt_views.specs.Weeks.{WeekFits};

use crate::grid::{Grid, Place, is_blocked_in, is_closed, is_of};
use crate::signs::push_signs;
use crate::view::{View, link};
use crate::week::Week;
use ctt_problem::{Instance, Placed, SlotNo};
use std::alloc::AllocError;
use std::fmt::Write;

/// Adds the names of a lecture's course and room.
#[tactic(auto, unfolding(crate::specs::Cells::names_text))]
fn push_names(
    page: &mut String,
    instance: &Instance,
    view: &View,
    lecture: &Placed,
) -> Result<(), AllocError>
    requires { Fits instance.now lecture.now }
    ensures { OnOk result (string_bytes page.new
        ≡ string_bytes page.old ++ names_text instance.now view.now lecture.now) }
{
    let colour = lecture.course.get();
    let course = link(instance, view, Grid::Course(lecture.course));
    let room = link(instance, view, Grid::Room(lecture.room));
    write!(
        page,
        "<p style='--course:{colour}'>{course} <small>{room}</small>"
    )
}

/// Adds a lecture as a grid shows it: its names and its signs.
#[tactic(auto, unfolding(crate::specs::Cells::lecture_text))]
fn push_lecture(
    page: &mut String,
    instance: &Instance,
    week: &Week,
    view: &View,
    grid: &Grid,
    lecture: &Placed,
) -> Result<(), AllocError>
    requires week { WeekFits instance.now week.now }
    requires grid { GridFits instance.now grid.now }
    requires lecture { Fits instance.now lecture.now }
    ensures { OnOk result (string_bytes page.new
        ≡ string_bytes page.old ++ lecture_text instance.now week.now view.now grid.now lecture.now) }
{
    push_names(page, instance, view, lecture)?;
    push_signs(page, instance, week, view, grid, lecture)?;
    page.push_str("</p>")
}

/// Adds a lecture, if it belongs to the grid.
fn push_shown(
    page: &mut String,
    instance: &Instance,
    week: &Week,
    view: &View,
    grid: &Grid,
    lecture: &Placed,
) -> Result<(), AllocError>
    requires week { WeekFits instance.now week.now }
    requires grid { GridFits instance.now grid.now }
    requires lecture { Fits instance.now lecture.now }
    ensures { OnOk result (string_bytes page.new
        ≡ string_bytes page.old ++ shown_text instance.now week.now view.now grid.now lecture.now) }
{
    if is_of(instance, grid, lecture) {
        push_lecture(page, instance, week, view, grid, lecture)
    } else {
        Ok(())
    }
}

/// Adds those of the lectures that belong to the grid.
fn push_lectures(
    page: &mut String,
    instance: &Instance,
    week: &Week,
    view: &View,
    grid: &Grid,
    row: &[Placed],
) -> Result<(), AllocError>
    requires week { WeekFits instance.now week.now }
    requires grid { GridFits instance.now grid.now }
    requires row { Each (Fits instance.now) row.now }
    ensures { OnOk result (string_bytes page.new
        ≡ string_bytes page.old
        ++ flat_map (lecture_text instance.now week.now view.now grid.now)
        (filter (is_of instance.now grid.now) row.now)) }
{
    for lecture in row {
        push_shown(page, instance, week, view, grid, lecture)?;
    }
    Ok(())
}

/// Returns the mark of a slot that closures block in a grid, or else of one in which the course of
/// the grid is unavailable.
#[tactic(auto, unfolding(crate::specs::Cells::mark))]
fn mark(blocked: bool, closed: bool) -> &'static str
    ensures { result.now ≡ mark blocked closed }
{
    if blocked {
        "<em>&#9644;&#160;blocked</em>"
    } else if closed {
        "<em>closed</em>"
    } else {
        ""
    }
}

/// Begins the cell of a slot in a grid.
#[tactic(auto, unfolding(crate::specs::Cells::cell_start))]
fn push_cell_start(
    page: &mut String,
    instance: &Instance,
    grid: &Grid,
    slot: SlotNo,
) -> Result<(), AllocError>
    requires grid { GridFits instance.now grid.now }
    requires slot { slot < slot_count instance.now }
    ensures { OnOk result (string_bytes page.new
        ≡ string_bytes page.old ++ cell_start instance.now grid.now slot) }
{
    let place = Place {
        grid: *grid,
        slot: Some(slot),
    };
    let blocked = is_blocked_in(instance, grid, slot);
    let mark = mark(blocked, is_closed(instance, grid, slot));
    write!(page, "<td id='{place}'>{mark}")
}

/// Adds the cell of a slot in a grid.
#[tactic(auto, unfolding(crate::specs::Cells::cell))]
pub(crate) fn push_cell(
    page: &mut String,
    instance: &Instance,
    week: &Week,
    view: &View,
    grid: &Grid,
    slot: SlotNo,
) -> Result<(), AllocError>
    requires week { WeekFits instance.now week.now }
    requires grid { GridFits instance.now grid.now }
    requires slot { slot < slot_count instance.now }
    ensures { OnOk result (string_bytes page.new
        ≡ string_bytes page.old ++ cell instance.now week.now view.now grid.now slot) }
{
    push_cell_start(page, instance, grid, slot)?;
    push_lectures(page, instance, week, view, grid, week.row(instance, slot))?;
    page.push_str("</td>")
}
