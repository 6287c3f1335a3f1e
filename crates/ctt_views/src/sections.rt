//! The findings: the first to mend, and all of them kind by kind.

ghost use Rattle.std.specs.Prelude.{◌≡◌, ◌<◌, ◌^◌, ◌++◌, [], OnOk, cond, filter, flat_map, string_bytes, take};
ghost use Rattle.std.specs.List.{AllByRecursion as Each};
ghost use Rattle.ctt_rules.specs.Penalty.{total};
ghost use Rattle.ctt_findings.specs.Fitting.{FindingFits};
ghost use Rattle.ctt_views.specs.Items.{finding_item};
ghost use Rattle.ctt_views.specs.Sections.{all_sections, blocked_section, broken_rules, costs, costs_start, first, is_of_kind, section, section_start, sections};

use crate::items::push_finding;
use crate::phrases::Amount;
use crate::ranking::kind_word;
use crate::view::View;
use ctt_findings::Finding;
use ctt_problem::Instance;
use ctt_rules::{Assessment, Cost, Hard};
use std::alloc::AllocError;
use std::fmt::Write;

/// Returns whether a finding is of this kind.
fn is_of_kind(finding: &Finding, kind: &str) -> bool
    ensures { result ≡ is_of_kind kind.now finding.now }
{
    kind_word(finding) == kind
}

/// Adds a finding, if it is of this kind.
fn push_if_of_kind(
    page: &mut String,
    instance: &Instance,
    view: &View,
    days: &str,
    kind: &str,
    finding: &Finding,
) -> Result<(), AllocError>
    requires { FindingFits instance.now finding.now }
    ensures { OnOk result (string_bytes page.new
        ≡ string_bytes page.old ++ cond (is_of_kind kind.now finding.now)
        (finding_item instance.now view.now days.now finding.now) []) }
{
    if is_of_kind(finding, kind) {
        push_finding(page, instance, view, days, finding)
    } else {
        Ok(())
    }
}

/// Adds the findings of a kind.
fn push_items(
    page: &mut String,
    instance: &Instance,
    view: &View,
    days: &str,
    found: &[Finding],
    kind: &str,
) -> Result<(), AllocError>
    requires { Each (FindingFits instance.now) found.now }
    ensures { OnOk result (string_bytes page.new
        ≡ string_bytes page.old ++ flat_map (finding_item instance.now view.now days.now)
        (filter (is_of_kind kind.now) found.now)) }
{
    for finding in found {
        push_if_of_kind(page, instance, view, days, kind, finding)?;
    }
    Ok(())
}

/// The head of the section of a kind: the word that names the kind, a title, and the total.
#[derive(Clone, Copy)]
struct Head {
    kind: &'static str,
    title: &'static str,
    total: Amount,
}

/// Returns the head of a section.
fn head_of(kind: &'static str, title: &'static str, count: u64, noun: &'static str) -> Head
    ensures kind { result.kind.now ≡ kind.now }
    ensures title { result.title.now ≡ title.now }
    ensures count { result.total.count ≡ count }
    ensures noun { result.total.noun.now ≡ noun.now }
{
    Head {
        kind,
        title,
        total: Amount { count, noun },
    }
}

/// Begins the section of a kind.
#[tactic(auto, unfolding(crate::specs::Sections::section_start))]
fn push_section_start(page: &mut String, head: &Head) -> Result<(), AllocError>
    ensures { OnOk result (string_bytes page.new
        ≡ string_bytes page.old ++ section_start head.now.kind.now head.now.title.now
        head.now.total.count head.now.total.noun.now) }
{
    let kind = head.kind;
    let title = head.title;
    let total = head.total;
    write!(
        page,
        "<details><summary><h4 id='{kind}'>{title}: {total}</h4></summary><ul>\n"
    )
}

/// Adds the section of a kind.
#[tactic(auto, unfolding(crate::specs::Sections::section))]
fn push_section(
    page: &mut String,
    instance: &Instance,
    view: &View,
    days: &str,
    found: &[Finding],
    head: &Head,
) -> Result<(), AllocError>
    requires { Each (FindingFits instance.now) found.now }
    ensures { OnOk result (string_bytes page.new
        ≡ string_bytes page.old ++ section instance.now view.now days.now found.now head.now.kind.now
        head.now.title.now head.now.total.count head.now.total.noun.now) }
{
    push_section_start(page, head)?;
    push_items(page, instance, view, days, found, head.kind)?;
    page.push_str("</ul></details>\n")
}

/// Adds the section of the lectures in blocked rooms, if any room of the instance is blocked.
#[tactic(auto, unfolding(crate::specs::Sections::blocked_section))]
fn push_blocked(
    page: &mut String,
    blocked: bool,
    instance: &Instance,
    view: &View,
    days: &str,
    found: &[Finding],
    count: u64,
) -> Result<(), AllocError>
    requires { Each (FindingFits instance.now) found.now }
    ensures { OnOk result (string_bytes page.new
        ≡ string_bytes page.old
        ++ blocked_section blocked instance.now view.now days.now found.now count) }
{
    if blocked {
        let head = head_of("blocked", "&#9644;&#160;blocked", count, "time");
        push_section(page, instance, view, days, found, &head)
    } else {
        Ok(())
    }
}

/// Adds what breaks hard rules.
#[tactic(auto, unfolding(crate::specs::Sections::broken_rules))]
fn push_broken_rules(
    page: &mut String,
    instance: &Instance,
    view: &View,
    days: &str,
    found: &[Finding],
    hard: &Hard,
) -> Result<(), AllocError>
    requires { Each (FindingFits instance.now) found.now }
    ensures { OnOk result (string_bytes page.new
        ≡ string_bytes page.old ++ broken_rules instance.now view.now days.now found.now hard.now) }
{
    let title = "&#9661;&#160;lectures missing or surplus";
    let lectures = head_of("lectures", title, hard.lectures, "lecture");
    let conflict = head_of("conflict", "&#9650;&#160;conflict", hard.conflicts, "time");
    let availability = head_of(
        "availability",
        "&#9660;&#160;unavailable",
        hard.availability,
        "time",
    );
    let occupancy = head_of(
        "occupancy",
        "&#9670;&#160;room taken",
        hard.occupancy,
        "time",
    );
    let barred = head_of("barred", "&#9632;&#160;barred", hard.barred, "time");
    page.push_str("<div><h3 id='hard'>Hard rules</h3>\n")?;
    push_section(page, instance, view, days, found, &lectures)?;
    push_section(page, instance, view, days, found, &conflict)?;
    push_section(page, instance, view, days, found, &availability)?;
    push_section(page, instance, view, days, found, &occupancy)?;
    push_section(page, instance, view, days, found, &barred)?;
    let blocked = instance.has_blocked();
    push_blocked(page, blocked, instance, view, days, found, hard.blocked)
}

/// Begins what costs points: the head, with their total.
#[tactic(auto, unfolding(crate::specs::Sections::costs_start))]
fn push_costs_start(page: &mut String, total: u64) -> Result<(), AllocError>
    ensures { OnOk result (string_bytes page.new
        ≡ string_bytes page.old ++ costs_start total) }
{
    let total = Amount {
        count: total,
        noun: "point",
    };
    write!(page, "</div>\n<div><h3 id='costs'>Costs: {total}</h3>\n")
}

/// Adds what costs points.
#[tactic(auto, unfolding(crate::specs::Sections::costs))]
fn push_costs(
    page: &mut String,
    instance: &Instance,
    view: &View,
    days: &str,
    found: &[Finding],
    cost: &Cost,
) -> Result<(), AllocError>
    requires total { total cost.now < 2 ^ 64 }
    requires found { Each (FindingFits instance.now) found.now }
    ensures { OnOk result (string_bytes page.new
        ≡ string_bytes page.old ++ costs instance.now view.now days.now found.now cost.now) }
{
    let capacity = head_of(
        "capacity",
        "&#9679;&#160;too few seats",
        cost.capacity,
        "point",
    );
    let few_days = head_of("days", "&#9651;&#160;too few days", cost.days, "point");
    let compactness = head_of(
        "compactness",
        "&#9675;&#160;alone",
        cost.compactness,
        "point",
    );
    let stability = head_of(
        "stability",
        "&#9671;&#160;several rooms",
        cost.stability,
        "point",
    );
    push_costs_start(page, cost.total())?;
    push_section(page, instance, view, days, found, &capacity)?;
    push_section(page, instance, view, days, found, &few_days)?;
    push_section(page, instance, view, days, found, &compactness)?;
    push_section(page, instance, view, days, found, &stability)
}

/// Returns the first five findings, or all if there are fewer.
fn first_five(found: &[Finding]) -> &[Finding]
    ensures { result.now ≡ take 5 found.now }
{
    let count = if found.len() < 5 { found.len() } else { 5 };
    &found[..count]
}

/// Adds findings as items of a list.
fn push_findings(
    page: &mut String,
    instance: &Instance,
    view: &View,
    days: &str,
    found: &[Finding],
) -> Result<(), AllocError>
    requires { Each (FindingFits instance.now) found.now }
    ensures { OnOk result (string_bytes page.new
        ≡ string_bytes page.old ++ flat_map (finding_item instance.now view.now days.now) found.now) }
{
    for finding in found {
        push_finding(page, instance, view, days, finding)?;
    }
    Ok(())
}

/// Adds the first five findings.
#[tactic(auto, unfolding(crate::specs::Sections::first))]
fn push_first(
    page: &mut String,
    instance: &Instance,
    view: &View,
    days: &str,
    found: &[Finding],
) -> Result<(), AllocError>
    requires { Each (FindingFits instance.now) found.now }
    ensures { OnOk result (string_bytes page.new
        ≡ string_bytes page.old ++ first instance.now view.now days.now found.now) }
{
    page.push_str("<details><summary><h3 id='first'>To mend first</h3></summary><ol>\n")?;
    push_findings(page, instance, view, days, first_five(found))?;
    page.push_str("</ol></details>\n")
}

/// Adds ranked findings: the first of them, and then all, kind by kind in the order of the report.
#[tactic(auto, unfolding(crate::specs::Sections::all_sections))]
fn push_all_sections(
    page: &mut String,
    instance: &Instance,
    view: &View,
    days: &str,
    found: &[Finding],
    assessment: &Assessment,
) -> Result<(), AllocError>
    requires total { total assessment.now.cost < 2 ^ 64 }
    requires found { Each (FindingFits instance.now) found.now }
    ensures { OnOk result (string_bytes page.new
        ≡ string_bytes page.old ++ all_sections instance.now view.now days.now found.now
        assessment.now.hard assessment.now.cost) }
{
    push_first(page, instance, view, days, found)?;
    push_broken_rules(page, instance, view, days, found, &assessment.hard)?;
    push_costs(page, instance, view, days, found, &assessment.cost)
}

/// Adds ranked findings; on a plain page only those that break hard rules.
#[tactic(auto, unfolding(crate::specs::Sections::sections))]
pub(crate) fn push_sections(
    page: &mut String,
    instance: &Instance,
    view: &View,
    days: &str,
    found: &[Finding],
    assessment: &Assessment,
) -> Result<(), AllocError>
    requires total { total assessment.now.cost < 2 ^ 64 }
    requires found { Each (FindingFits instance.now) found.now }
    ensures { OnOk result (string_bytes page.new
        ≡ string_bytes page.old ++ sections instance.now view.now days.now found.now
        assessment.now.hard assessment.now.cost) }
{
    if view.plain {
        push_broken_rules(page, instance, view, days, found, &assessment.hard)
    } else {
        push_all_sections(page, instance, view, days, found, assessment)
    }
}
