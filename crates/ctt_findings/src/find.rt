//! All findings of a timetable.

ghost use Rattle.std.specs.Prelude.{◌≡◌, ◌++◌, IfOk, OnOk};
ghost use Rattle.std.specs.List.{AllByRecursion as Each};
ghost use Rattle.ctt_problem.specs.Timetable.{IsTimetable};
ghost use Rattle.ctt_findings.specs.Findings.{findings, hard_findings, soft_findings};
ghost use Rattle.ctt_findings.specs.Fitting.{FindingFits};

use crate::compactness::push_compactness;
use crate::conflicts::push_conflicts;
use crate::courses::{DayCount, LectureCount, RoomCount, push_of_courses};
use crate::finding::Finding;
use crate::lectures::{BarredRoom, BlockedRoom, Overfull, Unavailable, push_of_lectures};
use crate::occupancy::push_occupancy;
use ctt_problem::{Instance, NoMemory, Placed};
use std::alloc::Global;

/// Adds what breaks the hard rules.
fn push_hard(
    alloc: Global,
    found: &mut Vec<Finding>,
    instance: &Instance,
    timetable: &[Placed],
) -> Result<(), NoMemory>
    requires { IsTimetable instance.now timetable.now }
    ensures { OnOk result (found.new.items
        ≡ found.old.items ++ hard_findings instance.now timetable.now) }
{
    push_of_courses::<LectureCount>(found, instance, timetable)?;
    push_conflicts(found, instance, timetable)?;
    push_of_lectures::<Unavailable>(found, instance, timetable)?;
    push_occupancy(alloc, found, instance, timetable)?;
    push_of_lectures::<BarredRoom>(found, instance, timetable)?;
    push_of_lectures::<BlockedRoom>(found, instance, timetable)
}

/// Adds what costs points.
fn push_soft(
    alloc: Global,
    found: &mut Vec<Finding>,
    instance: &Instance,
    timetable: &[Placed],
) -> Result<(), NoMemory>
    requires { IsTimetable instance.now timetable.now }
    ensures { OnOk result (found.new.items
        ≡ found.old.items ++ soft_findings instance.now timetable.now) }
{
    push_of_lectures::<Overfull>(found, instance, timetable)?;
    push_of_courses::<DayCount>(found, instance, timetable)?;
    push_compactness(alloc, found, instance, timetable)?;
    push_of_courses::<RoomCount>(found, instance, timetable)
}

/// Returns everything in a timetable that breaks a hard rule or costs points, each finding once.
///
/// The kinds come in the order of the report. Within a kind findings are sorted by course and slot:
/// conflicts by both courses first, and isolated lectures by curriculum first.
pub fn find_all(
    alloc: Global,
    instance: &Instance,
    timetable: &[Placed],
) -> Result<Vec<Finding>, NoMemory>
    requires { IsTimetable instance.now timetable.now }
    ensures all { IfOk result (λ found. found.items ≡ findings instance.now timetable.now) }
    ensures fit { IfOk result (λ found. Each (FindingFits instance.now) found.items) }
{
    instance.limits_hold();
    let mut found = Vec::new(alloc);
    push_hard(alloc, &mut found, instance, timetable)?;
    push_soft(alloc, &mut found, instance, timetable)?;
    Ok(found)
}
