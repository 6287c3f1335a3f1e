//! The findings in the order in which a planner mends them.

ghost use Rattle.std.specs.Prelude.{◌≡◌, IfOk};
ghost use Rattle.std.specs.List.{AllByRecursion as Each};
ghost use Rattle.ctt_problem.specs.Timetable.{IsTimetable};
ghost use Rattle.ctt_findings.specs.Findings.{findings};
ghost use Rattle.ctt_findings.specs.Fitting.{FindingFits};
ghost use Rattle.ctt_views.specs.Ranking.{AreRanked, kind_word, points, rank};

use ctt_findings::{Finding, find_all};
use ctt_problem::{Instance, NoMemory, Placed};
use std::alloc::Global;

/// Returns the word that names the kind of a finding.
pub(crate) fn kind_word(finding: &Finding) -> &'static str
    ensures { result.now ≡ kind_word finding.now }
{
    match finding {
        Finding::Lectures(_, _, _) => "lectures",
        Finding::Conflict(_, _, _, _) => "conflict",
        Finding::Availability(_) => "availability",
        Finding::Occupancy(_) => "occupancy",
        Finding::Barred(_) => "barred",
        Finding::Blocked(_) => "blocked",
        Finding::Capacity(_, _) => "capacity",
        Finding::Days(_, _, _, _) => "days",
        Finding::Compactness(_, _, _) => "compactness",
        Finding::Stability(_, _, _) => "stability",
    }
}

/// Returns the points of a finding. What breaks a hard rule has none.
pub(crate) fn points(finding: &Finding) -> u64
    ensures { result ≡ points finding.now }
{
    match finding {
        Finding::Lectures(_, _, _) => 0,
        Finding::Conflict(_, _, _, _) => 0,
        Finding::Availability(_) => 0,
        Finding::Occupancy(_) => 0,
        Finding::Barred(_) => 0,
        Finding::Blocked(_) => 0,
        Finding::Capacity(_, points) => *points,
        Finding::Days(_, _, _, points) => *points,
        Finding::Compactness(_, _, points) => *points,
        Finding::Stability(_, _, points) => *points,
    }
}

/// Returns the rank of a finding. The lowest comes first.
fn rank(finding: &Finding) -> u64
    ensures { result ≡ rank finding.now }
{
    let points = points(finding);
    if points == 0 { 0 } else { u64::MAX - points }
}

/// Returns all findings of a timetable, ranked.
pub(crate) fn ranked_findings(
    alloc: Global,
    instance: &Instance,
    timetable: &[Placed],
) -> Result<Vec<Finding>, NoMemory>
    requires { IsTimetable instance.now timetable.now }
    ensures ranked { IfOk result (λ found.
        AreRanked (findings instance.now timetable.now) found.items) }
    ensures fit { IfOk result (λ found. Each (FindingFits instance.now) found.items) }
{
    let mut found = find_all(alloc, instance, timetable)?;
    found.sort_by_key(|finding| rank(finding))?;
    Ok(found)
}
