//! The page as a whole.

ghost use Rattle.std.specs.Prelude.{◌≡◌, ◌<◌, ◌^◌, IfOk, IfSome, OnOk, string_bytes};
ghost use Rattle.ctt_problem.specs.Timetable.{IsTimetable};
ghost use Rattle.ctt_rules.specs.Penalty.{total};
ghost use Rattle.ctt_views.specs.Page.{HasAllGrids, HasBody, IsPage};
ghost use Rattle.ctt_views.specs.Week.{SelectionFits};

use crate::body::{
    push_before_grids, push_found, push_lone_grid, push_script_end, push_week, selected_grid,
};
use crate::options::PageOptions;
use crate::page_head::{own_name, push_head, push_verdict};
use crate::script::SCRIPT;
use crate::style::STYLE;
use crate::view::{View, only_kind};
use ctt_problem::{Instance, NoMemory, Placed};
use ctt_rules::{Assessment, assess};
use std::alloc::Global;

/// Adds the grids of all kinds or of one, and the findings.
fn push_all_grids(
    alloc: Global,
    page: &mut String,
    options: &PageOptions,
    days: &str,
    instance: &Instance,
    timetable: &[Placed],
    assessment: &Assessment,
) -> Result<(), NoMemory>
    requires total { total assessment.now.cost < 2 ^ 64 }
    requires timetable { IsTimetable instance.now timetable.now }
    ensures { OnOk result (HasAllGrids options.now days.now instance.now timetable.now
        assessment.now.hard assessment.now.cost assessment.now.lawful assessment.now.complete
        (string_bytes page.old) (string_bytes page.new)) }
{
    let only = only_kind(instance, options.grids);
    let view = View::new(only, options.plain);
    push_before_grids(page, instance, &only, &view)?;
    push_week(alloc, page, instance, timetable, &view, days)?;
    push_found(alloc, page, instance, timetable, &view, days, assessment)?;
    push_script_end(page, SCRIPT)?;
    Ok(())
}

/// Adds what a page shows below the verdict.
fn push_body(
    alloc: Global,
    page: &mut String,
    options: &PageOptions,
    days: &str,
    instance: &Instance,
    timetable: &[Placed],
    assessment: &Assessment,
) -> Result<(), NoMemory>
    requires total { total assessment.now.cost < 2 ^ 64 }
    requires timetable { IsTimetable instance.now timetable.now }
    requires selection { IfSome options.now.selection (SelectionFits instance.now) }
    ensures { OnOk result (HasBody options.now days.now instance.now timetable.now
        assessment.now.hard assessment.now.cost assessment.now.lawful assessment.now.complete
        (string_bytes page.old) (string_bytes page.new)) }
{
    match options.selection {
        Some(selection) => {
            let grid = selected_grid(instance, &selection);
            push_lone_grid(alloc, page, options.plain, days, instance, timetable, &grid)?;
            Ok(())
        }
        None => push_all_grids(alloc, page, options, days, instance, timetable, assessment),
    }
}

/// Returns a timetable as one HTML page without external resources: the verdict, an index and a grid
/// for each curriculum, teacher, room and course, the report, and the findings by kind. `solution`
/// names the file of the timetable, and `days` the days, with commas between the names.
pub fn page_text(
    alloc: Global,
    instance: &Instance,
    timetable: &[Placed],
    solution: &str,
    days: &str,
    options: &PageOptions,
) -> Result<String, NoMemory>
    requires timetable { IsTimetable instance.now timetable.now }
    requires selection { IfSome options.now.selection (SelectionFits instance.now) }
    ensures { IfOk result (λ page.
        IsPage solution.now days.now options.now instance.now timetable.now (string_bytes page)) }
{
    let assessment = assess(instance, timetable);
    let mut page = String::new(alloc);
    push_head(&mut page, STYLE, instance.name(), own_name(solution))?;
    push_verdict(&mut page, options.plain, &assessment)?;
    push_body(
        alloc,
        &mut page,
        options,
        days,
        instance,
        timetable,
        &assessment,
    )?;
    page.push_str("</body></html>\n")?;
    Ok(page)
}
