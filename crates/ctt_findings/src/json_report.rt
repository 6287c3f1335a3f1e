//! The report on a timetable as JSON, without its findings or with them.

ghost use Rattle.std.specs.Prelude.{◌≡◌, ◌++◌, ◌^◌, ◌<◌, false, IfOk, OnOk, codes, option_map};
ghost use Rattle.serde_json.specs.Data.{boolean, object, put as with_member};
ghost use Rattle.serde_json.specs.View.{members_view};
ghost use Rattle.serde_json.specs.Written.{compact_text, has_float};
ghost use Rattle.ctt_problem.specs.Problem.{has_barred, has_blocked};
ghost use Rattle.ctt_problem.specs.Timetable.{IsTimetable};
ghost use Rattle.ctt_rules.specs.Penalty.{total};
ghost use Rattle.ctt_findings.specs.ReportText.{IsExplainedJson, IsJsonReport, members_of, with_barred, with_blocked, with_cost, with_file, with_hard};

use crate::find::find_all;
use crate::json_members::{put_count, put_text};
use crate::objects::objects;
use ctt_problem::{Instance, NoMemory, Placed};
use ctt_rules::{Assessment, Cost, Hard, assess};
use serde_json::{Map, Value};
use std::alloc::{AllocError, Global};

/// Adds the name of the solution's file, if it is asked for.
fn put_file(
    alloc: Global,
    report: &mut Map<String, Value>,
    file: Option<&str>,
) -> Result<(), AllocError>
    ensures { OnOk result (members_view report.new.entries
        ≡ with_file (option_map (λ name. name.now) file.entry) (members_view report.old.entries)) }
{
    match file {
        Some(name) => put_text(alloc, report, "file", name),
        None => Ok(()),
    }
}

/// Adds the count of lectures in barred rooms, if any room is barred.
fn put_barred(
    alloc: Global,
    report: &mut Map<String, Value>,
    barred: bool,
    count: u64,
) -> Result<(), AllocError>
    ensures { OnOk result (members_view report.new.entries
        ≡ with_barred barred count (members_view report.old.entries)) }
{
    if barred {
        put_count(alloc, report, "barred", count)
    } else {
        Ok(())
    }
}

/// Adds the count of lectures in blocked rooms, if any room is blocked in any slot.
fn put_blocked(
    alloc: Global,
    report: &mut Map<String, Value>,
    blocked: bool,
    count: u64,
) -> Result<(), AllocError>
    ensures { OnOk result (members_view report.new.entries
        ≡ with_blocked blocked count (members_view report.old.entries)) }
{
    if blocked {
        put_count(alloc, report, "blocked", count)
    } else {
        Ok(())
    }
}

/// Adds a Boolean member.
fn put_answer(
    alloc: Global,
    report: &mut Map<String, Value>,
    key: &str,
    answer: bool,
) -> Result<(), AllocError>
    ensures { OnOk result (members_view report.new.entries
        ≡ with_member key.now (boolean answer) (members_view report.old.entries)) }
{
    serde_json::put(report, alloc, key, Value::Bool(answer))
}

/// Adds the hard counts of a timetable of an instance.
fn put_hard(
    alloc: Global,
    report: &mut Map<String, Value>,
    instance: &Instance,
    hard: &Hard,
) -> Result<(), AllocError>
    ensures { OnOk result (members_view report.new.entries
        ≡ with_hard (has_barred instance.now) (has_blocked instance.now) hard.now
        (members_view report.old.entries)) }
{
    put_count(alloc, report, "lectures", hard.lectures)?;
    put_count(alloc, report, "conflicts", hard.conflicts)?;
    put_count(alloc, report, "availability", hard.availability)?;
    put_count(alloc, report, "occupancy", hard.occupancy)?;
    put_barred(alloc, report, instance.has_barred(), hard.barred)?;
    put_blocked(alloc, report, instance.has_blocked(), hard.blocked)
}

/// Adds the four costs and their total.
fn put_cost(alloc: Global, report: &mut Map<String, Value>, cost: &Cost) -> Result<(), AllocError>
    requires { total cost.now < 2 ^ 64 }
    ensures { OnOk result (members_view report.new.entries
        ≡ with_cost cost.now (members_view report.old.entries)) }
{
    put_count(alloc, report, "capacity", cost.capacity)?;
    put_count(alloc, report, "days", cost.days)?;
    put_count(alloc, report, "compactness", cost.compactness)?;
    put_count(alloc, report, "stability", cost.stability)?;
    put_count(alloc, report, "total", cost.total())
}

/// Builds the members of the report, without its findings.
fn members(
    alloc: Global,
    file: Option<&str>,
    instance: &Instance,
    assessment: &Assessment,
) -> Result<Map<String, Value>, AllocError>
    requires { total assessment.now.cost < 2 ^ 64 }
    ensures { IfOk result (λ report. members_view report.entries
        ≡ members_of (option_map (λ name. name.now) file.entry) instance.now assessment.now.hard
        assessment.now.cost assessment.now.lawful assessment.now.complete) }
{
    let mut report = Map::new(alloc);
    put_file(alloc, &mut report, file)?;
    put_text(alloc, &mut report, "instance", instance.name())?;
    put_hard(alloc, &mut report, instance, &assessment.hard)?;
    put_cost(alloc, &mut report, &assessment.cost)?;
    put_answer(alloc, &mut report, "lawful", assessment.lawful)?;
    put_answer(alloc, &mut report, "complete", assessment.complete)?;
    Ok(report)
}

/// Returns an object as one line, which ends with a line feed.
fn line(alloc: Global, members: Map<String, Value>) -> Result<Vec<u8>, AllocError>
    ensures { IfOk result (λ text. has_float (object (members_view members.entries)) ≡ false
        → text.items ≡ compact_text (object (members_view members.entries)) ++ codes "\n") }
{
    let mut text = Value::Object(members).to_string(alloc)?;
    text.push_str("\n")?;
    Ok(text.into_bytes())
}

/// Returns the report on a timetable as one line of JSON, with the name of the solution's file if it
/// is given.
pub fn report_json(
    alloc: Global,
    file: Option<&str>,
    instance: &Instance,
    timetable: &[Placed],
) -> Result<Vec<u8>, NoMemory>
    requires { IsTimetable instance.now timetable.now }
    ensures { IfOk result (λ bytes. IsJsonReport (option_map (λ name. name.now) file.entry)
        instance.now timetable.now bytes.items) }
{
    let assessment = assess(instance, timetable);
    let report = members(alloc, file, instance, &assessment)?;
    Ok(line(alloc, report)?)
}

/// Returns the report on a timetable with all findings as one line of JSON, with the name of the
/// solution's file if it is given.
pub fn explained_json(
    alloc: Global,
    file: Option<&str>,
    instance: &Instance,
    timetable: &[Placed],
) -> Result<Vec<u8>, NoMemory>
    requires { IsTimetable instance.now timetable.now }
    ensures { IfOk result (λ bytes. IsExplainedJson (option_map (λ name. name.now) file.entry)
        instance.now timetable.now bytes.items) }
{
    let found = find_all(alloc, instance, timetable)?;
    let assessment = assess(instance, timetable);
    let mut report = members(alloc, file, instance, &assessment)?;
    let array = objects(alloc, instance, &found)?;
    serde_json::put(&mut report, alloc, "findings", array)?;
    Ok(line(alloc, report)?)
}
