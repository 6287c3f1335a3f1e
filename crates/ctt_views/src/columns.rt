//! The columns of a week: one for the periods, and one for each day.

ghost use Rattle.std.specs.Prelude.{◌≡◌, ◌<◌, IfOk};
ghost use Rattle.std.specs.List.{AllByRecursion as Each};
ghost use Rattle.ctt_problem.specs.Timetable.{Fits};
ghost use Rattle.ctt_views.specs.Week.{SelectionFits, columns, day_column, period_column};

use crate::cell::cell;
use crate::column::Column;
use crate::selection::Selection;
use ctt_problem::{Instance, Placed};
use std::alloc::{AllocError, Global};

/// Builds the column of the periods.
#[tactic(auto, using(crate::proofs::WeekLemmas::each_more))]
fn period_column(alloc: Global, instance: &Instance) -> Result<Column, AllocError>
    ensures { IfOk result (λ column. column ≡ period_column instance.now) }
{
    let mut column = Column::new(alloc);
    column.push(String::from_str(alloc, "period")?)?;
    for period in 0..instance.periods() {
        column.push(format!(in alloc; "{period}")?)?;
    }
    Ok(column)
}

/// Builds the column of a day. `lectures` are those in the selection.
#[tactic(auto, using(crate::proofs::WeekLemmas::each_more))]
fn day_column(
    alloc: Global,
    instance: &Instance,
    selection: &Selection,
    lectures: &[Placed],
    day: u16,
) -> Result<Column, AllocError>
    requires selection { SelectionFits instance.now selection.now }
    requires fits { Each (Fits instance.now) lectures.now }
    requires day { day < instance.now.days }
    ensures { IfOk result (λ column. column
        ≡ day_column instance.now selection.now lectures.now day) }
{
    let mut column = Column::new(alloc);
    column.push(format!(in alloc; "day {day}")?)?;
    for period in 0..instance.periods() {
        let slot = instance.slot_of(day, period);
        column.push(cell(alloc, instance, selection, lectures, slot)?)?;
    }
    Ok(column)
}

/// Builds all columns. `lectures` are those in the selection.
#[tactic(auto, using(crate::proofs::WeekLemmas::each_more))]
pub(crate) fn columns(
    alloc: Global,
    instance: &Instance,
    selection: &Selection,
    lectures: &[Placed],
) -> Result<Vec<Column>, AllocError>
    requires selection { SelectionFits instance.now selection.now }
    requires fits { Each (Fits instance.now) lectures.now }
    ensures { IfOk result (λ made. made.items
        ≡ columns instance.now selection.now lectures.now) }
{
    let mut columns = Vec::new(alloc);
    columns.push(period_column(alloc, instance)?)?;
    for day in 0..instance.days() {
        columns.push(day_column(alloc, instance, selection, lectures, day)?)?;
    }
    Ok(columns)
}
