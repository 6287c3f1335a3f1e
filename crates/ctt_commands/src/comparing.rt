//! The command `compare`.

ghost use Rattle.std.specs.Prelude.{◌≡◌, ◌∷◌, ◌||◌, [], IfErr, IfOk, filter, string_bytes, true};
ghost use Rattle.std.specs.List.{AllByRecursion as Each, list_all, list_any};
ghost use Rattle.ctt_files.specs.declared.fault.Fault.TheVariants.{Machine};
ghost use Rattle.ctt_files.specs.declared.fault.MachineFault.TheVariants.{NoMemory as OutOfMemory};
ghost use Rattle.ctt_commands.specs.Columns.{columns_in};
ghost use Rattle.ctt_commands.specs.Compare.{Compares, has_faults, has_score, has_blocked_room, is_complete, is_lawful, judged, outcome_of, shape_of, shown_rows, table_of, text_in};
ghost use Rattle.ctt_commands.specs.Groups.{GroupFits};

use crate::aligned::aligned;
use crate::column::{Column, Shape, columns};
use crate::csv_rows::csv;
use crate::fault_texts::refusals;
use crate::forms::{TableForm, table_form};
use crate::group::Group;
use crate::json_rows::json;
use crate::ranking::order;
use crate::row::{Row, Score};
use crate::rows::rows_of;
use crate::texts::{all_texts, head};
use ctt_files::{Fault, Outcome, Output};
use ctt_words::CompareOptions;
use std::alloc::{AllocError, Global};

/// Returns whether a room of the instance is blocked in a slot.
fn is_blocked_in(group: &Group) -> bool
    ensures { result ≡ has_blocked_room group.now }
{
    match group {
        Group::Read { instance, .. } => instance.has_blocked(),
        Group::Refused { .. } => false,
    }
}

/// Returns whether any room of an instance is blocked in any slot.
fn is_any_blocked(groups: &[Group]) -> bool
    ensures { result ≡ list_any has_blocked_room groups.now }
{
    groups.iter().any(|group| is_blocked_in(group))
}

/// Returns whether the faults are shown, by whether that is asked for.
fn has_faults(form: TableForm, asked: bool) -> bool
    ensures { result ≡ has_faults form asked }
{
    match form {
        TableForm::Aligned => false,
        TableForm::Csv | TableForm::Json => asked,
    }
}

/// Returns which columns a comparison has.
fn shape_of(form: TableForm, several: bool, faults: bool, groups: &[Group]) -> Shape
    ensures { result ≡ shape_of form several faults groups.now }
{
    Shape {
        instances: several,
        blocked: is_any_blocked(groups),
        faults: has_faults(form, faults),
    }
}

/// Returns the rows that are shown, by whether the faults are.
fn shown_rows(alloc: Global, faults: bool, rows: Vec<Row>) -> Result<Vec<Row>, AllocError>
    ensures { IfOk result (λ shown. shown.items ≡ shown_rows faults rows.items) }
{
    let mut shown = Vec::new(alloc);
    for row in rows {
        if faults || row.judged.is_ok() {
            shown.push(row)?;
        }
    }
    Ok(shown)
}

/// Returns rows in this form, with the names of their columns.
fn text_in(
    alloc: Global,
    form: TableForm,
    columns: &[Column],
    rows: &[Row],
) -> Result<Vec<u8>, AllocError>
    ensures { IfOk result (λ text. text.items ≡ text_in form columns.now rows.now) }
{
    match form {
        TableForm::Aligned => {
            aligned(
                alloc,
                &head(alloc, columns)?,
                &all_texts(alloc, columns, rows)?,
            )
        }
        TableForm::Csv => csv(
            alloc,
            &head(alloc, columns)?,
            &all_texts(alloc, columns, rows)?,
        ),
        TableForm::Json => json(alloc, columns, rows),
    }
}

/// Returns the table of rows.
fn table_of(
    alloc: Global,
    form: TableForm,
    shape: Shape,
    rows: Vec<Row>,
) -> Result<Vec<u8>, AllocError>
    ensures { IfOk result (λ text. text.items ≡ table_of form shape rows.items) }
{
    let columns = columns(alloc, shape)?;
    let shown = shown_rows(alloc, shape.faults, rows)?;
    text_in(alloc, form, &columns, &shown)
}

/// Returns whether a solution is complete.
fn is_complete(judged: &Result<Score, String>) -> bool
    ensures { result ≡ is_complete judged.now }
{
    match judged {
        Ok(score) => score.complete,
        Err(_) => false,
    }
}

/// Returns whether a solution is lawful.
fn is_lawful(judged: &Result<Score, String>) -> bool
    ensures { result ≡ is_lawful judged.now }
{
    match judged {
        Ok(score) => score.lawful,
        Err(_) => false,
    }
}

/// Returns whether each row is of a complete solution.
fn are_complete(rows: &[Row]) -> bool
    ensures { result ≡ list_all (λ row. is_complete row.judged) rows.now }
{
    rows.iter().all(|row| is_complete(&row.judged))
}

/// Returns whether each row is of a lawful solution.
fn are_lawful(rows: &[Row]) -> bool
    ensures { result ≡ list_all (λ row. is_lawful row.judged) rows.now }
{
    rows.iter().all(|row| is_lawful(&row.judged))
}

/// Returns the outcome of the rows, if they have to be lawful and complete.
fn judge_strictly(rows: &[Row]) -> Outcome
    ensures { result ≡ judged true rows.now }
{
    if are_complete(rows) {
        Outcome::Done
    } else if are_lawful(rows) {
        Outcome::Incomplete
    } else {
        Outcome::Unlawful
    }
}

/// Returns the outcome, by the lines of the files that are refused and the rows.
fn judge_rows(strict: bool, refused: &str, rows: &[Row]) -> Outcome
    ensures { result ≡ outcome_of strict refused.now rows.now }
{
    if !refused.is_empty() {
        Outcome::Differs
    } else if strict {
        judge_strictly(rows)
    } else {
        Outcome::Done
    }
}

/// Returns a row for each solution, in the order of the instances and their files, and reports the
/// files that are refused. If one is, the outcome is `Differs`; otherwise, if that is asked for, it
/// says whether all solutions are lawful and complete. `several` says whether the instances have a
/// column.
pub(crate) fn compare(
    alloc: Global,
    several: bool,
    groups: &[Group],
    options: &CompareOptions,
) -> Result<Output, Fault>
    requires { Each GroupFits groups.now }
    ensures compares { IfOk result (Compares several options.now groups.now) }
    ensures cause { IfErr result (λ fault. fault ≡ Machine OutOfMemory) }
{
    let form = table_form(options.json, options.csv);
    let shape = shape_of(form, several, options.faults, groups);
    let refused = refusals(alloc, options.point, groups)?;
    let rows = rows_of(alloc, groups)?;
    let outcome = judge_rows(options.strict, &refused, &rows);
    let text = table_of(alloc, form, shape, order(options.sort, rows)?)?;
    Ok(Output {
        text,
        diagnostics: refused,
        outcome,
    })
}
