//! The headings of grids.

ghost use Rattle.std.specs.Prelude.{◌≡◌, ◌<◌, ◌++◌, OnOk, string_bytes};
ghost use Rattle.ctt_problem.specs.Problem.{course_count};
ghost use Rattle.ctt_views.specs.Grids.{GridFits};
ghost use Rattle.ctt_views.specs.Headings.{course_note, grid_start, heading, note, room_note, table_start};

use crate::grid::{Grid, name_of, word_of};
use crate::phrases::{Amount, Named};
use crate::view::{View, link};
use ctt_problem::{CourseNo, Instance};
use std::alloc::AllocError;
use std::fmt::Write;

/// Adds the students and the teacher of a course.
#[tactic(auto, unfolding(crate::specs::Headings::course_note))]
fn push_course_note(
    page: &mut String,
    instance: &Instance,
    view: &View,
    course: CourseNo,
) -> Result<(), AllocError>
    requires { course < course_count instance.now }
    ensures { OnOk result (string_bytes page.new ≡ string_bytes page.old
        ++ course_note instance.now view.now course) }
{
    let students = Amount {
        count: u64::from(instance.students(course)),
        noun: "student",
    };
    let teacher = link(instance, view, Grid::Teacher(instance.teacher(course)));
    write!(page, ", {students}, teacher {teacher}")
}

/// Adds the seats of a room.
#[tactic(auto, unfolding(crate::specs::Headings::room_note))]
fn push_room_note(page: &mut String, seats: u32) -> Result<(), AllocError>
    ensures { OnOk result (string_bytes page.new ≡ string_bytes page.old ++ room_note seats) }
{
    let seats = Amount {
        count: u64::from(seats),
        noun: "seat",
    };
    write!(page, ", {seats}")
}

/// Adds what the heading of a grid says after the name.
fn push_note(
    page: &mut String,
    instance: &Instance,
    view: &View,
    grid: &Grid,
) -> Result<(), AllocError>
    requires { GridFits instance.now grid.now }
    ensures { OnOk result (string_bytes page.new
        ≡ string_bytes page.old ++ note instance.now view.now grid.now) }
{
    match grid {
        Grid::Curriculum(_) => Ok(()),
        Grid::Teacher(_) => Ok(()),
        Grid::Room(room) => push_room_note(page, instance.capacity(*room)),
        Grid::Course(course) => push_course_note(page, instance, view, *course),
    }
}

/// Begins the heading of a grid, with its name.
#[tactic(auto, unfolding(crate::specs::Headings::heading))]
fn push_heading(page: &mut String, instance: &Instance, grid: &Grid) -> Result<(), AllocError>
    requires { GridFits instance.now grid.now }
    ensures { OnOk result (string_bytes page.new
        ≡ string_bytes page.old ++ heading instance.now grid.now) }
{
    let name = Named(name_of(instance, grid));
    let word = word_of(grid);
    let grid = *grid;
    write!(page, "<section><h3 id='{grid}'>{word} {name}")
}

/// Begins the table of a grid, with the heading as label: the first cell of the line of days.
#[tactic(auto, unfolding(crate::specs::Headings::table_start))]
fn push_table_start(page: &mut String, grid: &Grid) -> Result<(), AllocError>
    ensures { OnOk result (string_bytes page.new
        ≡ string_bytes page.old ++ table_start grid.now) }
{
    let grid = *grid;
    write!(
        page,
        "</h3><div><table aria-labelledby='{grid}'>\n<tr><th>period</th>"
    )
}

/// Begins a grid: its heading, and its table.
#[tactic(auto, unfolding(crate::specs::Headings::grid_start))]
pub(crate) fn push_grid_start(
    page: &mut String,
    instance: &Instance,
    view: &View,
    grid: &Grid,
) -> Result<(), AllocError>
    requires { GridFits instance.now grid.now }
    ensures { OnOk result (string_bytes page.new
        ≡ string_bytes page.old ++ grid_start instance.now view.now grid.now) }
{
    push_heading(page, instance, grid)?;
    push_note(page, instance, view, grid)?;
    push_table_start(page, grid)
}
