//! The parts of the page with grids, and their index.

ghost use Rattle.std.specs.Prelude.{◌≡◌, ◌<◌, ◌++◌, OnOk, string_bytes};
ghost use Rattle.ctt_views.specs.Grids.{GridFits};
ghost use Rattle.ctt_views.specs.Parts.{count_of, entries, entry, grid_of, id_of, index, part_grids, part_link, part_start, part_text, parts, shown_entries, shown_link, shown_part, title_of};
ghost use Rattle.ctt_views.specs.Weeks.{WeekFits};

use crate::grid::{Grid, name_of, word_of};
use crate::grids::push_grid;
use crate::options::GridKind;
use crate::phrases::Named;
use crate::view::{View, has_kind};
use crate::week::Week;
use ctt_problem::{CourseNo, CurriculumNo, Instance, RoomNo, TeacherNo};
use std::alloc::AllocError;
use std::fmt::Write;

/// Returns the number of a part's grids.
fn count_of(instance: &Instance, kind: &GridKind) -> u16
    ensures { result ≡ count_of instance.now kind.now }
{
    match kind {
        GridKind::Curricula => instance.curricula(),
        GridKind::Teachers => instance.teachers(),
        GridKind::Rooms => instance.rooms(),
        GridKind::Courses => instance.courses(),
    }
}

/// Returns a grid of a part.
fn grid_of(instance: &Instance, kind: &GridKind, number: u16) -> Grid
    requires { number < count_of instance.now kind.now }
    ensures grid { result ≡ grid_of kind.now number }
    ensures fits { GridFits instance.now result }
{
    match kind {
        GridKind::Curricula => Grid::Curriculum(CurriculumNo::new(number)),
        GridKind::Teachers => Grid::Teacher(TeacherNo::new(number)),
        GridKind::Rooms => Grid::Room(RoomNo::new(number)),
        GridKind::Courses => Grid::Course(CourseNo::new(number)),
    }
}

/// Returns the id of a part.
pub(crate) fn id_of(kind: &GridKind) -> &'static str
    ensures { result.now ≡ id_of kind.now }
{
    match kind {
        GridKind::Curricula => "curricula",
        GridKind::Teachers => "teachers",
        GridKind::Rooms => "rooms",
        GridKind::Courses => "courses",
    }
}

/// Returns the title of a part.
fn title_of(kind: &GridKind) -> &'static str
    ensures { result.now ≡ title_of kind.now }
{
    match kind {
        GridKind::Curricula => "Curricula",
        GridKind::Teachers => "Teachers",
        GridKind::Rooms => "Rooms",
        GridKind::Courses => "Courses",
    }
}

/// Begins a part.
#[tactic(auto, unfolding(crate::specs::Parts::part_start))]
fn push_part_start(page: &mut String, kind: &GridKind) -> Result<(), AllocError>
    ensures { OnOk result (string_bytes page.new
        ≡ string_bytes page.old ++ part_start kind.now) }
{
    let id = id_of(kind);
    let title = title_of(kind);
    write!(
        page,
        "<details open><summary><h2 id='{id}'>{title}</h2></summary><article>\n"
    )
}

/// Adds the link to a part.
#[tactic(auto, unfolding(crate::specs::Parts::part_link))]
fn push_part_link(page: &mut String, kind: &GridKind) -> Result<(), AllocError>
    ensures { OnOk result (string_bytes page.new
        ≡ string_bytes page.old ++ part_link kind.now) }
{
    let id = id_of(kind);
    let title = title_of(kind);
    write!(page, "<a href='#{id}'>{title}</a> ")
}

/// Adds the link to a part, if the page has it.
pub(crate) fn push_shown_link(
    page: &mut String,
    view: &View,
    kind: &GridKind,
) -> Result<(), AllocError>
    ensures { OnOk result (string_bytes page.new
        ≡ string_bytes page.old ++ shown_link view.now kind.now) }
{
    if has_kind(view, kind) {
        push_part_link(page, kind)
    } else {
        Ok(())
    }
}

/// Adds the grids of a part.
fn push_part_grids(
    page: &mut String,
    instance: &Instance,
    week: &Week,
    view: &View,
    names: &str,
    kind: &GridKind,
) -> Result<(), AllocError>
    requires { WeekFits instance.now week.now }
    ensures { OnOk result (string_bytes page.new
        ≡ string_bytes page.old ++ part_grids instance.now week.now view.now names.now kind.now) }
{
    for number in 0..count_of(instance, kind) {
        let grid = grid_of(instance, kind, number);
        push_grid(page, instance, week, view, names, &grid)?;
    }
    Ok(())
}

/// Adds a part.
#[tactic(auto, unfolding(crate::specs::Parts::part_text))]
fn push_part(
    page: &mut String,
    instance: &Instance,
    week: &Week,
    view: &View,
    names: &str,
    kind: &GridKind,
) -> Result<(), AllocError>
    requires { WeekFits instance.now week.now }
    ensures { OnOk result (string_bytes page.new
        ≡ string_bytes page.old ++ part_text instance.now week.now view.now names.now kind.now) }
{
    push_part_start(page, kind)?;
    push_part_grids(page, instance, week, view, names, kind)?;
    page.push_str("</article></details>\n")
}

/// Adds a part, if the page has it.
fn push_shown_part(
    page: &mut String,
    instance: &Instance,
    week: &Week,
    view: &View,
    names: &str,
    kind: &GridKind,
) -> Result<(), AllocError>
    requires { WeekFits instance.now week.now }
    ensures { OnOk result (string_bytes page.new
        ≡ string_bytes page.old ++ shown_part instance.now week.now view.now names.now kind.now) }
{
    if has_kind(view, kind) {
        push_part(page, instance, week, view, names, kind)
    } else {
        Ok(())
    }
}

/// Adds the entry of a grid in the index.
#[tactic(auto, unfolding(crate::specs::Parts::entry))]
fn push_entry(page: &mut String, instance: &Instance, grid: &Grid) -> Result<(), AllocError>
    requires { GridFits instance.now grid.now }
    ensures { OnOk result (string_bytes page.new
        ≡ string_bytes page.old ++ entry instance.now grid.now) }
{
    let name = Named(name_of(instance, grid));
    let word = word_of(grid);
    let grid = *grid;
    write!(page, "<li><a href='#{grid}'>{word} {name}</a></li>\n")
}

/// Adds the entries of a part in the index.
fn push_entries(page: &mut String, instance: &Instance, kind: &GridKind) -> Result<(), AllocError>
    ensures { OnOk result (string_bytes page.new
        ≡ string_bytes page.old ++ entries instance.now kind.now) }
{
    for number in 0..count_of(instance, kind) {
        let grid = grid_of(instance, kind, number);
        push_entry(page, instance, &grid)?;
    }
    Ok(())
}

/// Adds the entries of a part in the index, if the page has it.
fn push_shown_entries(
    page: &mut String,
    instance: &Instance,
    view: &View,
    kind: &GridKind,
) -> Result<(), AllocError>
    ensures { OnOk result (string_bytes page.new
        ≡ string_bytes page.old ++ shown_entries instance.now view.now kind.now) }
{
    if has_kind(view, kind) {
        push_entries(page, instance, kind)
    } else {
        Ok(())
    }
}

/// Adds the index of the grids that the page has.
#[tactic(auto, unfolding(crate::specs::Parts::index))]
fn push_index(page: &mut String, instance: &Instance, view: &View) -> Result<(), AllocError>
    ensures { OnOk result (string_bytes page.new
        ≡ string_bytes page.old ++ index instance.now view.now) }
{
    page.push_str("<details><summary><h2 id='index'>Index</h2></summary><ul id='entries'>\n")?;
    push_shown_entries(page, instance, view, &GridKind::Curricula)?;
    push_shown_entries(page, instance, view, &GridKind::Teachers)?;
    push_shown_entries(page, instance, view, &GridKind::Rooms)?;
    push_shown_entries(page, instance, view, &GridKind::Courses)?;
    page.push_str("</ul></details>\n")
}

/// Adds the index and the grids of a page. The names of days are in one text.
#[tactic(auto, unfolding(crate::specs::Parts::parts))]
pub(crate) fn push_parts(
    page: &mut String,
    instance: &Instance,
    week: &Week,
    view: &View,
    names: &str,
) -> Result<(), AllocError>
    requires { WeekFits instance.now week.now }
    ensures { OnOk result (string_bytes page.new
        ≡ string_bytes page.old ++ parts instance.now week.now view.now names.now) }
{
    push_index(page, instance, view)?;
    push_shown_part(page, instance, week, view, names, &GridKind::Curricula)?;
    push_shown_part(page, instance, week, view, names, &GridKind::Teachers)?;
    push_shown_part(page, instance, week, view, names, &GridKind::Rooms)?;
    push_shown_part(page, instance, week, view, names, &GridKind::Courses)
}
