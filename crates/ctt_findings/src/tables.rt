//! The report and the findings as tables in CSV.

ghost use Rattle.std.specs.Prelude.{◌≡◌, ◌++◌, IfOk, OnOk, flat_map, map};
ghost use Rattle.std.specs.List.{AllByRecursion as Each};
ghost use Rattle.ctt_problem.specs.Timetable.{IsTimetable};
ghost use Rattle.ctt_findings.specs.Csv.{csv, csv_line, field, next_field};
ghost use Rattle.ctt_findings.specs.FactValues.{content_of};
ghost use Rattle.ctt_findings.specs.Fitting.{FindingFits};
ghost use Rattle.ctt_findings.specs.Lines.{text_of};
ghost use Rattle.ctt_findings.specs.ReportText.{IsCsvReport};
ghost use Rattle.ctt_findings.specs.Tables.{fact_row, finding_columns, findings_table, row_facts, value_at};

use crate::contents::row_facts;
use crate::csv_fields::{push_field, push_next_field};
use crate::fact::{Fact, FactValue};
use crate::find::find_all;
use crate::finding::Finding;
use crate::report_facts::report_facts;
use arrayvec::ArrayVec;
use ctt_problem::{Instance, NoMemory, Placed};
use ctt_rules::assess;
use itoa::Buffer;
use std::alloc::{AllocError, Global};

/// The columns of the table of the findings.
const COLUMNS: &[&str] = &[
    "kind",
    "curriculum",
    "teacher",
    "course",
    "other",
    "room",
    "day",
    "period",
    "placed",
    "stated",
    "days",
    "minimum",
    "rooms",
    "points",
];

/// Adds the names of the columns after the first.
fn push_other_names(text: &mut Vec<u8>, names: &[&str]) -> Result<(), AllocError>
    ensures { OnOk result (text.new.items ≡ text.old.items
        ++ flat_map next_field (map (λ name. name.now) names.now)) }
{
    for name in names {
        push_next_field(text, name.as_bytes())?;
    }
    Ok(())
}

/// Adds the line of the names of the columns.
fn push_head(text: &mut Vec<u8>, columns: &[&str]) -> Result<(), AllocError>
    ensures { OnOk result (text.new.items ≡ text.old.items
        ++ csv_line (map (λ name. name.now) columns.now)) }
{
    let Some((first, others)) = columns.split_first() else {
        return text.extend_from_slice(b"\n");
    };
    push_field(text, first.as_bytes())?;
    push_other_names(text, others)?;
    text.extend_from_slice(b"\n")
}

/// Adds a value as a field.
fn push_value(text: &mut Vec<u8>, value: &FactValue<'_>) -> Result<(), AllocError>
    ensures { OnOk result (text.new.items
        ≡ text.old.items ++ field (text_of (content_of value.now))) }
{
    match value {
        FactValue::Text(word) => push_field(text, word.as_bytes()),
        FactValue::Number(number) => { push_field(text, Buffer::new().format(*number).as_bytes()) }
    }
}

/// Returns the value of the fact with this key, or an empty text.
fn value_at<'i>(facts: &[Fact<'i>], key: &str) -> FactValue<'i>
    ensures { text_of (content_of result) ≡ value_at facts.now key.now }
{
    for fact in facts {
        if fact.key() == key {
            return fact.value();
        }
    }
    FactValue::Text("")
}

/// Adds the values of facts in the columns after the first.
fn push_other_values(
    text: &mut Vec<u8>,
    facts: &[Fact<'_>],
    columns: &[&str],
) -> Result<(), AllocError>
    ensures { OnOk result (text.new.items ≡ text.old.items
        ++ flat_map next_field (fact_row (map (λ name. name.now) columns.now) facts.now)) }
{
    for column in columns {
        text.push(b',')?;
        push_value(text, &value_at(facts, column))?;
    }
    Ok(())
}

/// Adds the row of facts: each value in the column of its key.
fn push_row(text: &mut Vec<u8>, facts: &[Fact<'_>], columns: &[&str]) -> Result<(), AllocError>
    ensures { OnOk result (text.new.items ≡ text.old.items
        ++ csv_line (fact_row (map (λ name. name.now) columns.now) facts.now)) }
{
    let Some((first, others)) = columns.split_first() else {
        return text.extend_from_slice(b"\n");
    };
    push_value(text, &value_at(facts, first))?;
    push_other_values(text, facts, others)?;
    text.extend_from_slice(b"\n")
}

/// Returns the keys of facts.
fn keys(facts: &ArrayVec<Fact<'_>, 14>) -> ArrayVec<&'static str, 14>
    ensures { map (λ key. key.now) result.items ≡ map (λ f. f.key) facts.now.items }
{
    let mut keys = ArrayVec::new();
    for fact in facts.as_slice() {
        keys.push(fact.key());
    }
    keys
}

/// Returns the report on a timetable as CSV: the names of its counts and judgements, and a row with
/// their values.
pub fn report_csv(
    alloc: Global,
    instance: &Instance,
    timetable: &[Placed],
) -> Result<Vec<u8>, NoMemory>
    requires { IsTimetable instance.now timetable.now }
    ensures { IfOk result (λ bytes. IsCsvReport instance.now timetable.now bytes.items) }
{
    let facts = report_facts(instance, &assess(instance, timetable));
    let keys = keys(&facts);
    let mut text = Vec::new(alloc);
    push_head(&mut text, keys.as_slice())?;
    push_row(&mut text, facts.as_slice(), keys.as_slice())?;
    Ok(text)
}

/// Adds the row of a finding.
fn push_finding(
    text: &mut Vec<u8>,
    instance: &Instance,
    finding: &Finding,
    columns: &[&str],
) -> Result<(), AllocError>
    requires { FindingFits instance.now finding.now }
    ensures { OnOk result (text.new.items ≡ text.old.items
        ++ csv_line (fact_row (map (λ name. name.now) columns.now)
        (row_facts instance.now finding.now))) }
{
    push_row(text, row_facts(instance, finding).as_slice(), columns)
}

/// Adds the rows of findings.
fn push_findings(
    text: &mut Vec<u8>,
    instance: &Instance,
    found: &[Finding],
    columns: &[&str],
) -> Result<(), AllocError>
    requires { Each (FindingFits instance.now) found.now }
    ensures { OnOk result (text.new.items ≡ text.old.items
        ++ csv (map (λ f. fact_row (map (λ name. name.now) columns.now)
        (row_facts instance.now f)) found.now)) }
{
    for finding in found {
        push_finding(text, instance, finding, columns)?;
    }
    Ok(())
}

/// Returns all findings of a timetable as CSV: the names of the columns, and a row for each finding
/// in the order of its line. A value that a finding does not have is empty.
#[tactic(auto, unfolding(crate::specs::Tables::finding_columns))]
pub fn findings_csv(
    alloc: Global,
    instance: &Instance,
    timetable: &[Placed],
) -> Result<Vec<u8>, NoMemory>
    requires { IsTimetable instance.now timetable.now }
    ensures { IfOk result (λ bytes. bytes.items
        ≡ findings_table instance.now timetable.now) }
{
    let found = find_all(alloc, instance, timetable)?;
    let mut text = Vec::new(alloc);
    push_head(&mut text, COLUMNS)?;
    push_findings(&mut text, instance, &found, COLUMNS)?;
    Ok(text)
}
