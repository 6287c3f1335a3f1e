//! The rows of the files that are compared.

ghost use Rattle.std.specs.Prelude.{◌≡◌, ◌++◌, ◌<◌, ◌^◌, List, IfOk, OnOk, string_bytes};
ghost use Rattle.std.specs.List.{AllByRecursion as Each};
ghost use Rattle.ctt_problem.specs.Timetable.{IsTimetable};
ghost use Rattle.ctt_commands.specs.Groups.{CandidateFits, GroupFits};
ghost use Rattle.ctt_commands.specs.Lists.{InTurn};
ghost use Rattle.ctt_commands.specs.Rows.{AreAllRows, AreGroupRows, IsFaulty, IsRowOf, IsRow, IsScore, IsJudgement, violations};
ghost use Rattle.ctt_commands.specs.declared.row.Row.{Row};

use crate::fault_texts::fault_text;
use crate::group::{Candidate, Group};
use crate::row::{Row, Score};
use ctt_files::Fault;
use ctt_problem::{Instance, Placed};
use ctt_rules::{Hard, assess};
use std::alloc::{AllocError, Global};

/// Returns how often all hard rules are broken.
fn violations(hard: &Hard) -> u64
    requires { violations hard.now < 2 ^ 64 }
    ensures { result ≡ violations hard.now }
{
    hard.lectures + hard.conflicts + hard.availability + hard.occupancy + hard.barred + hard.blocked
}

/// Scores a timetable.
fn score(instance: &Instance, timetable: &[Placed]) -> Score
    requires { IsTimetable instance.now timetable.now }
    ensures { IsScore instance.now timetable.now result }
{
    instance.limits_hold();
    let found = assess(instance, timetable);
    Score {
        hard: found.hard,
        violations: violations(&found.hard),
        cost: found.cost,
        total: found.cost.total(),
        lawful: found.lawful,
        complete: found.complete,
    }
}

/// Returns the row of a file with its score or the text of its fault.
fn named(
    alloc: Global,
    number: usize,
    instance: &str,
    file: &str,
    judged: Result<Score, String>,
) -> Result<Row, AllocError>
    ensures names { IfOk result (IsRowOf number instance.now file.now) }
    ensures judged { IfOk result (λ row. row.judged ≡ judged) }
{
    Ok(Row {
        number,
        instance: String::from_str(alloc, instance)?,
        file: String::from_str(alloc, file)?,
        judged,
    })
}

/// Returns the score of a file's solution, or the text of the fault for which it is refused.
fn verdict(
    alloc: Global,
    instance: &Instance,
    candidate: &Candidate,
) -> Result<Result<Score, String>, AllocError>
    requires { CandidateFits instance.now candidate.now }
    ensures { IfOk result (IsJudgement instance.now candidate.now) }
{
    match &candidate.solution {
        Ok(timetable) => Ok(Ok(score(instance, timetable))),
        Err(fault) => Ok(Err(fault_text(alloc, fault)?)),
    }
}

/// Returns the row of a file that is compared as a solution of an instance.
fn row_of(
    alloc: Global,
    number: usize,
    name: &str,
    instance: &Instance,
    candidate: &Candidate,
) -> Result<Row, AllocError>
    requires { CandidateFits instance.now candidate.now }
    ensures { IfOk result (IsRow number name.now instance.now candidate.now) }
{
    let judged = verdict(alloc, instance, candidate)?;
    named(alloc, number, name, &candidate.file, judged)
}

/// Adds the rows of the files of an instance.
fn push_solutions(
    alloc: Global,
    rows: &mut Vec<Row>,
    number: usize,
    name: &str,
    instance: &Instance,
    candidates: &[Candidate],
) -> Result<(), AllocError>
    requires { Each (CandidateFits instance.now) candidates.now }
    ensures { OnOk result ((added : List Row) × (rows.new.items ≡ rows.old.items ++ added)
        × InTurn (IsRow number name.now instance.now) candidates.now added) }
{
    for candidate in candidates {
        rows.push(row_of(alloc, number, name, instance, candidate)?)?;
    }
    Ok(())
}

/// Adds the rows of files whose instance is refused.
fn push_refused(
    alloc: Global,
    rows: &mut Vec<Row>,
    number: usize,
    name: &str,
    fault: &Fault,
    files: &[String],
) -> Result<(), AllocError>
    ensures { OnOk result ((added : List Row) × (rows.new.items ≡ rows.old.items ++ added)
        × InTurn (λ file row. IsRowOf number name.now (string_bytes file) row
        × IsFaulty fault.now row.judged) files.now added) }
{
    for file in files {
        let judged = Err(fault_text(alloc, fault)?);
        rows.push(named(alloc, number, name, file, judged)?)?;
    }
    Ok(())
}

/// Adds the rows of the files of an instance, or of one that is refused.
fn push_group(
    alloc: Global,
    rows: &mut Vec<Row>,
    number: usize,
    group: &Group,
) -> Result<(), AllocError>
    requires { GroupFits group.now }
    ensures { OnOk result ((added : List Row) × (rows.new.items ≡ rows.old.items ++ added)
        × AreGroupRows number group.now added) }
{
    match group {
        Group::Read {
            name,
            instance,
            candidates,
        } => push_solutions(alloc, rows, number, name, instance, candidates),
        Group::Refused { name, fault, files } => {
            push_refused(alloc, rows, number, name, fault, files)
        }
    }
}

/// Returns the rows of all files, in the order of the instances.
pub(crate) fn rows_of(alloc: Global, groups: &[Group]) -> Result<Vec<Row>, AllocError>
    requires { Each GroupFits groups.now }
    ensures { IfOk result (λ rows. AreAllRows 0 groups.now rows.items) }
{
    let mut rows = Vec::new(alloc);
    let mut number = 0;
    for group in groups {
        push_group(alloc, &mut rows, number, group)?;
        number += 1;
    }
    Ok(rows)
}
