//! Grids: days as columns, periods as lines.

ghost use Rattle.std.specs.Prelude.{◌≡◌, ◌<◌, ◌++◌, OnOk, string_bytes};
ghost use Rattle.ctt_problem.specs.Problem.{slot_of};
ghost use Rattle.ctt_views.specs.Cells.{cell};
ghost use Rattle.ctt_views.specs.GridTexts.{day_head, each_below, grid_text, line, line_start};
ghost use Rattle.ctt_views.specs.Grids.{GridFits};
ghost use Rattle.ctt_views.specs.Weeks.{WeekFits};

use crate::cells::push_cell;
use crate::grid::Grid;
use crate::heading::push_grid_start;
use crate::phrases::Day;
use crate::view::View;
use crate::week::Week;
use ctt_problem::Instance;
use std::alloc::AllocError;
use std::fmt::Write;

/// Adds the head of the column of a day.
#[tactic(auto, unfolding(crate::specs::GridTexts::day_head))]
fn push_day_head(page: &mut String, names: &str, day: u16) -> Result<(), AllocError>
    ensures { OnOk result (string_bytes page.new
        ≡ string_bytes page.old ++ day_head names.now day) }
{
    let name = Day { names, day };
    write!(page, "<th scope='col' title='day {day}'>{name}</th>")
}

/// Adds the heads of the columns.
#[tactic(auto, using(crate::proofs::TextLemmas::each_more))]
fn push_day_heads(page: &mut String, names: &str, days: u16) -> Result<(), AllocError>
    ensures { OnOk result (string_bytes page.new
        ≡ string_bytes page.old ++ each_below (day_head names.now) days) }
{
    for day in 0..days {
        push_day_head(page, names, day)?;
    }
    Ok(())
}

/// Adds the cells of a period, day by day.
fn push_cells(
    page: &mut String,
    instance: &Instance,
    week: &Week,
    view: &View,
    grid: &Grid,
    period: u16,
) -> Result<(), AllocError>
    requires week { WeekFits instance.now week.now }
    requires grid { GridFits instance.now grid.now }
    requires period { period < instance.now.periods }
    ensures { OnOk result (string_bytes page.new
        ≡ string_bytes page.old ++ each_below
        (λ d. cell instance.now week.now view.now grid.now (slot_of instance.now d period))
        instance.now.days) }
{
    for day in 0..instance.days() {
        let slot = instance.slot_of(day, period);
        push_cell(page, instance, week, view, grid, slot)?;
    }
    Ok(())
}

/// Begins the line of a period.
#[tactic(auto, unfolding(crate::specs::GridTexts::line_start))]
fn push_line_start(page: &mut String, period: u16) -> Result<(), AllocError>
    ensures { OnOk result (string_bytes page.new ≡ string_bytes page.old ++ line_start period) }
{
    let number = u32::from(period) + 1;
    write!(
        page,
        "<tr><th scope='row' title='period {period}'>{number}</th>"
    )
}

/// Adds the line of a period.
#[tactic(auto, unfolding(crate::specs::GridTexts::line))]
fn push_line(
    page: &mut String,
    instance: &Instance,
    week: &Week,
    view: &View,
    grid: &Grid,
    period: u16,
) -> Result<(), AllocError>
    requires week { WeekFits instance.now week.now }
    requires grid { GridFits instance.now grid.now }
    requires period { period < instance.now.periods }
    ensures { OnOk result (string_bytes page.new
        ≡ string_bytes page.old ++ line instance.now week.now view.now grid.now period) }
{
    push_line_start(page, period)?;
    push_cells(page, instance, week, view, grid, period)?;
    page.push_str("</tr>\n")
}

/// Adds the lines of a grid, period by period.
fn push_lines(
    page: &mut String,
    instance: &Instance,
    week: &Week,
    view: &View,
    grid: &Grid,
) -> Result<(), AllocError>
    requires week { WeekFits instance.now week.now }
    requires grid { GridFits instance.now grid.now }
    ensures { OnOk result (string_bytes page.new
        ≡ string_bytes page.old
        ++ each_below (line instance.now week.now view.now grid.now) instance.now.periods) }
{
    for period in 0..instance.periods() {
        push_line(page, instance, week, view, grid, period)?;
    }
    Ok(())
}

/// Adds a grid. The names of days are in one text.
#[tactic(auto, unfolding(crate::specs::GridTexts::grid_text))]
pub(crate) fn push_grid(
    page: &mut String,
    instance: &Instance,
    week: &Week,
    view: &View,
    names: &str,
    grid: &Grid,
) -> Result<(), AllocError>
    requires week { WeekFits instance.now week.now }
    requires grid { GridFits instance.now grid.now }
    ensures { OnOk result (string_bytes page.new
        ≡ string_bytes page.old ++ grid_text instance.now week.now view.now names.now grid.now) }
{
    push_grid_start(page, instance, view, grid)?;
    push_day_heads(page, names, instance.days())?;
    page.push_str("</tr>\n")?;
    push_lines(page, instance, week, view, grid)?;
    page.push_str("</table></div></section>\n")
}
