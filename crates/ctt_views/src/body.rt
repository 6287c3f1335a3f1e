//! What a page has below the verdict: one grid alone, or the grids of all kinds or of one, with their
//! index and the findings.

ghost use Rattle.std.specs.Prelude.{◌≡◌, ◌<◌, ◌^◌, ◌++◌, OnOk, string_bytes};
ghost use Rattle.std.specs.List.{AllByRecursion as Each};
ghost use Rattle.ctt_problem.specs.Problem.{slot_count};
ghost use Rattle.ctt_problem.specs.Timetable.{IsTimetable};
ghost use Rattle.ctt_rules.specs.Penalty.{total};
ghost use Rattle.ctt_findings.specs.Fitting.{FindingFits};
ghost use Rattle.ctt_views.specs.Bodies.{before_grids, findings_part, kind_note, lone_grid, main_start, nav, only_note, script_end, selected_grid};
ghost use Rattle.ctt_views.specs.Grids.{GridFits};
ghost use Rattle.ctt_views.specs.Page.{HasFindings};
ghost use Rattle.ctt_views.specs.Parts.{parts};
ghost use Rattle.ctt_views.specs.Week.{SelectionFits};
ghost use Rattle.ctt_views.specs.Weeks.{by_slot};

use crate::grid::Grid;
use crate::grids::push_grid;
use crate::options::GridKind;
use crate::parts::{id_of, push_parts, push_shown_link};
use crate::ranking::ranked_findings;
use crate::report::push_report;
use crate::sections::push_sections;
use crate::selection::Selection;
use crate::view::View;
use crate::week::Week;
use ctt_findings::Finding;
use ctt_problem::{Instance, NoMemory, Placed};
use ctt_rules::Assessment;
use std::alloc::{AllocError, Global};
use std::fmt::Write;

/// Returns the grid of a selection.
pub(crate) fn selected_grid(instance: &Instance, selection: &Selection) -> Grid
    requires { SelectionFits instance.now selection.now }
    ensures grid { result ≡ selected_grid selection.now }
    ensures fits { GridFits instance.now result }
{
    match selection {
        Selection::Curriculum(curriculum) => Grid::Curriculum(*curriculum),
        Selection::Teacher(teacher) => Grid::Teacher(*teacher),
        Selection::Course(course) => Grid::Course(*course),
        Selection::Room(room) => Grid::Room(*room),
    }
}

/// Begins what is shown of so many days.
#[tactic(auto, unfolding(crate::specs::Bodies::main_start))]
fn push_main_start(page: &mut String, days: u16) -> Result<(), AllocError>
    ensures { OnOk result (string_bytes page.new ≡ string_bytes page.old ++ main_start days) }
{
    write!(page, "<main id='grids' style='--days:{days}'>\n")
}

/// Adds a grid that stands alone.
#[tactic(auto, unfolding(crate::specs::Bodies::lone_grid))]
pub(crate) fn push_lone_grid(
    alloc: Global,
    page: &mut String,
    plain: bool,
    days: &str,
    instance: &Instance,
    timetable: &[Placed],
    grid: &Grid,
) -> Result<(), AllocError>
    requires timetable { IsTimetable instance.now timetable.now }
    requires grid { GridFits instance.now grid.now }
    ensures { OnOk result (string_bytes page.new ≡ string_bytes page.old
        ++ lone_grid plain days.now instance.now timetable.now grid.now) }
{
    let week = Week::new(alloc, instance, timetable)?;
    push_main_start(page, instance.days())?;
    push_grid(page, instance, &week, &View::alone(plain), days, grid)?;
    page.push_str("</main>")
}

/// Adds what says that a page has the grids of one kind only.
#[tactic(auto, unfolding(crate::specs::Bodies::kind_note))]
fn push_kind_note(page: &mut String, kind: &GridKind) -> Result<(), AllocError>
    ensures { OnOk result (string_bytes page.new ≡ string_bytes page.old ++ kind_note kind.now) }
{
    let id = id_of(kind);
    write!(
        page,
        "<p id='only'>This page has the grids of the {id} only. With <kbd>--grids</kbd> it has those \
         of another kind, and with <kbd>--teacher</kbd>, <kbd>--course</kbd>, <kbd>--room</kbd> or \
         <kbd>--curriculum</kbd> one alone.</p>\n"
    )
}

/// Adds what says that a page has the grids of one kind only, if it has.
fn push_only_note(page: &mut String, only: &Option<GridKind>) -> Result<(), AllocError>
    ensures { OnOk result (string_bytes page.new ≡ string_bytes page.old ++ only_note only.now) }
{
    match only {
        Some(kind) => push_kind_note(page, kind),
        None => Ok(()),
    }
}

/// Adds the links to the parts of a page, and an entry by which it is filtered.
#[tactic(auto, unfolding(crate::specs::Bodies::nav))]
fn push_nav(page: &mut String, view: &View) -> Result<(), AllocError>
    ensures { OnOk result (string_bytes page.new ≡ string_bytes page.old ++ nav view.now) }
{
    page.push_str(
        "<nav aria-label='Parts of the page'><div id='entry' role='search' hidden>\
         <label for='find'>Show</label> <input id='find' type='search' \
         placeholder='a teacher, a course ..' autocomplete='off'> \
         <span id='shown' role='status'></span></div>\n",
    )?;
    push_shown_link(page, view, &GridKind::Curricula)?;
    push_shown_link(page, view, &GridKind::Teachers)?;
    push_shown_link(page, view, &GridKind::Rooms)?;
    push_shown_link(page, view, &GridKind::Courses)?;
    page.push_str("<a href='#index'>Index</a> <a href='#findings'>Findings</a></nav>\n")
}

/// Adds what precedes the grids.
#[tactic(auto, unfolding(crate::specs::Bodies::before_grids))]
pub(crate) fn push_before_grids(
    page: &mut String,
    instance: &Instance,
    only: &Option<GridKind>,
    view: &View,
) -> Result<(), AllocError>
    ensures { OnOk result (string_bytes page.new
        ≡ string_bytes page.old ++ before_grids instance.now only.now view.now) }
{
    push_only_note(page, only)?;
    push_nav(page, view)?;
    push_main_start(page, instance.days())
}

/// Adds the index and the grids of a timetable.
pub(crate) fn push_week(
    alloc: Global,
    page: &mut String,
    instance: &Instance,
    timetable: &[Placed],
    view: &View,
    days: &str,
) -> Result<(), AllocError>
    requires { IsTimetable instance.now timetable.now }
    ensures { OnOk result (string_bytes page.new
        ≡ string_bytes page.old ++ parts instance.now
        (by_slot (slot_count instance.now) timetable.now) view.now days.now) }
{
    let week = Week::new(alloc, instance, timetable)?;
    push_parts(page, instance, &week, view, days)
}

/// Adds the report and ranked findings.
#[tactic(auto, unfolding(crate::specs::Bodies::findings_part))]
fn push_findings_part(
    page: &mut String,
    instance: &Instance,
    view: &View,
    days: &str,
    found: &[Finding],
    assessment: &Assessment,
) -> Result<(), AllocError>
    requires total { total assessment.now.cost < 2 ^ 64 }
    requires found { Each (FindingFits instance.now) found.now }
    ensures { OnOk result (string_bytes page.new ≡ string_bytes page.old
        ++ findings_part instance.now view.now days.now found.now assessment.now.hard
        assessment.now.cost assessment.now.lawful assessment.now.complete) }
{
    page.push_str(
        "<div id='found'><h2 id='findings'>Findings</h2>\n\
         <p>Days and periods are counted from 1.</p>\n",
    )?;
    push_report(page, view.plain, instance, assessment)?;
    push_sections(page, instance, view, days, found, assessment)?;
    page.push_str("</div></div>\n")
}

/// Adds the report and the findings of a timetable, ranked.
pub(crate) fn push_found(
    alloc: Global,
    page: &mut String,
    instance: &Instance,
    timetable: &[Placed],
    view: &View,
    days: &str,
    assessment: &Assessment,
) -> Result<(), NoMemory>
    requires total { total assessment.now.cost < 2 ^ 64 }
    requires timetable { IsTimetable instance.now timetable.now }
    ensures { OnOk result (HasFindings instance.now timetable.now view.now days.now
        assessment.now.hard assessment.now.cost assessment.now.lawful assessment.now.complete
        (string_bytes page.old) (string_bytes page.new)) }
{
    let found = ranked_findings(alloc, instance, timetable)?;
    push_findings_part(page, instance, view, days, &found, assessment)?;
    Ok(())
}

/// Ends what is shown, and adds a script.
#[tactic(auto, unfolding(crate::specs::Bodies::script_end))]
pub(crate) fn push_script_end(page: &mut String, script: &str) -> Result<(), AllocError>
    ensures { OnOk result (string_bytes page.new
        ≡ string_bytes page.old ++ script_end script.now) }
{
    write!(page, "</main>\n<script>{script}</script>")
}
