//! The report on a timetable as a table.

ghost use Rattle.std.specs.Prelude.{◌≡◌, ◌<◌, ◌^◌, ◌++◌, OnOk, string_bytes};
ghost use Rattle.ctt_rules.specs.Penalty.{total};
ghost use Rattle.ctt_views.specs.Report.{answer_row, barred_row, blocked_row, cost_rows, count_row, hard_rows, report, row, shown_costs, total_row};

use ctt_problem::Instance;
use ctt_rules::{Assessment, Cost, Hard};
use std::alloc::AllocError;
use std::fmt::Write;

/// Adds a line of the table.
#[tactic(auto, unfolding(crate::specs::Report::row))]
fn push_row(page: &mut String, key: &str, text: &str) -> Result<(), AllocError>
    ensures { OnOk result (string_bytes page.new
        ≡ string_bytes page.old ++ row key.now text.now) }
{
    writeln!(page, "<tr><th scope='row'>{key}</th><td>{text}</td></tr>")
}

/// Adds the line of a count. If it is not zero, it has the sign of its kind and links to the
/// findings.
#[tactic(auto, unfolding(crate::specs::Report::count_row, crate::specs::Report::row))]
fn push_count(
    page: &mut String,
    key: &str,
    kind: &str,
    sign: &str,
    count: u64,
) -> Result<(), AllocError>
    ensures { OnOk result (string_bytes page.new
        ≡ string_bytes page.old ++ count_row key.now kind.now sign.now count) }
{
    if count == 0 {
        push_row(page, key, "0")
    } else {
        writeln!(
            page,
            "<tr><th scope='row'>{key}</th><td><a href='#{kind}'>{sign} {count}</a></td></tr>"
        )
    }
}

/// Adds the line of the total.
#[tactic(auto, unfolding(crate::specs::Report::total_row, crate::specs::Report::row))]
fn push_total(page: &mut String, count: u64) -> Result<(), AllocError>
    ensures { OnOk result (string_bytes page.new
        ≡ string_bytes page.old ++ total_row count) }
{
    writeln!(page, "<tr><th scope='row'>total</th><td>{count}</td></tr>")
}

/// Adds the line with the count of lectures in barred rooms, if any room is barred.
#[tactic(auto, unfolding(crate::specs::Report::barred_row))]
fn push_barred(page: &mut String, barred: bool, count: u64) -> Result<(), AllocError>
    ensures { OnOk result (string_bytes page.new
        ≡ string_bytes page.old ++ barred_row barred count) }
{
    if barred {
        push_count(page, "barred", "barred", "&#9632;", count)
    } else {
        Ok(())
    }
}

/// Adds the line with the count of lectures in blocked rooms, if any room is blocked in any slot.
#[tactic(auto, unfolding(crate::specs::Report::blocked_row))]
fn push_blocked(page: &mut String, blocked: bool, count: u64) -> Result<(), AllocError>
    ensures { OnOk result (string_bytes page.new
        ≡ string_bytes page.old ++ blocked_row blocked count) }
{
    if blocked {
        push_count(page, "blocked", "blocked", "&#9644;", count)
    } else {
        Ok(())
    }
}

/// Adds the line of a judgement.
#[tactic(auto, unfolding(crate::specs::Report::answer_row))]
fn push_answer(page: &mut String, key: &str, answer: bool) -> Result<(), AllocError>
    ensures { OnOk result (string_bytes page.new
        ≡ string_bytes page.old ++ answer_row key.now answer) }
{
    if answer {
        push_row(page, key, "yes")
    } else {
        push_row(page, key, "<b>&#10007; no</b>")
    }
}

/// Adds the lines of the hard counts of a timetable of an instance.
#[tactic(auto, unfolding(crate::specs::Report::hard_rows))]
fn push_hard(page: &mut String, instance: &Instance, hard: &Hard) -> Result<(), AllocError>
    ensures { OnOk result (string_bytes page.new
        ≡ string_bytes page.old ++ hard_rows instance.now hard.now) }
{
    push_count(page, "lectures", "lectures", "&#9661;", hard.lectures)?;
    push_count(page, "conflicts", "conflict", "&#9650;", hard.conflicts)?;
    push_count(
        page,
        "availability",
        "availability",
        "&#9660;",
        hard.availability,
    )?;
    push_count(page, "occupancy", "occupancy", "&#9670;", hard.occupancy)?;
    push_barred(page, instance.has_barred(), hard.barred)?;
    push_blocked(page, instance.has_blocked(), hard.blocked)
}

/// Adds the lines of the four costs and their total.
#[tactic(auto, unfolding(crate::specs::Report::cost_rows))]
fn push_costs(page: &mut String, cost: &Cost) -> Result<(), AllocError>
    requires { total cost.now < 2 ^ 64 }
    ensures { OnOk result (string_bytes page.new
        ≡ string_bytes page.old ++ cost_rows cost.now) }
{
    let total = cost.total();
    push_count(page, "capacity", "capacity", "&#9679;", cost.capacity)?;
    push_count(page, "days", "days", "&#9651;", cost.days)?;
    push_count(
        page,
        "compactness",
        "compactness",
        "&#9675;",
        cost.compactness,
    )?;
    push_count(page, "stability", "stability", "&#9671;", cost.stability)?;
    push_total(page, total)
}

/// Adds the lines of the costs, unless the page is plain.
#[tactic(auto, unfolding(crate::specs::Report::shown_costs))]
fn push_shown_costs(page: &mut String, plain: bool, cost: &Cost) -> Result<(), AllocError>
    requires { total cost.now < 2 ^ 64 }
    ensures { OnOk result (string_bytes page.new
        ≡ string_bytes page.old ++ shown_costs plain cost.now) }
{
    if plain {
        Ok(())
    } else {
        push_costs(page, cost)
    }
}

/// Adds the report on an instance as a table.
#[tactic(auto, unfolding(crate::specs::Report::report))]
pub(crate) fn push_report(
    page: &mut String,
    plain: bool,
    instance: &Instance,
    assessment: &Assessment,
) -> Result<(), AllocError>
    requires { total assessment.now.cost < 2 ^ 64 }
    ensures { OnOk result (string_bytes page.new
        ≡ string_bytes page.old ++ report plain instance.now assessment.now.hard
        assessment.now.cost assessment.now.lawful assessment.now.complete) }
{
    page.push_str("<details><summary><h3 id='report'>Report</h3></summary><table>\n")?;
    push_hard(page, instance, &assessment.hard)?;
    push_shown_costs(page, plain, &assessment.cost)?;
    push_answer(page, "lawful", assessment.lawful)?;
    push_answer(page, "complete", assessment.complete)?;
    page.push_str("</table></details>\n")
}
