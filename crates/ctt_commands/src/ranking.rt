//! The order of the rows of a comparison.

ghost use Rattle.std.specs.Prelude.{◌≡◌, IfOk, filter};
ghost use Rattle.ctt_commands.specs.RowOrder.{AreOrdered, AreBestFirst, class_of, row_cmp, total_of, violations_of};

use crate::row::{Row, Score};
use std::alloc::AllocError;
use std::cmp::Ordering;

/// Returns 1 if the file is refused, and else 0.
fn class(judged: &Result<Score, String>) -> u8
    ensures { result ≡ class_of judged.now }
{
    match judged {
        Ok(_) => 0,
        Err(_) => 1,
    }
}

/// Returns how often a solution breaks a hard rule, or 0 if its file is refused.
fn violations(judged: &Result<Score, String>) -> u64
    ensures { result ≡ violations_of judged.now }
{
    match judged {
        Ok(score) => score.violations,
        Err(_) => 0,
    }
}

/// Returns the penalty of a solution, or 0 if its file is refused.
fn total(judged: &Result<Score, String>) -> u64
    ensures { result ≡ total_of judged.now }
{
    match judged {
        Ok(score) => score.total,
        Err(_) => 0,
    }
}

/// Compares rows by instance, class, violations, total and name.
fn compare_rows(a: &Row, b: &Row) -> Ordering
    ensures { result ≡ row_cmp a.now b.now }
{
    let instances = a.number.cmp(&b.number);
    let classes = class(&a.judged).cmp(&class(&b.judged));
    let violations = violations(&a.judged).cmp(&violations(&b.judged));
    let totals = total(&a.judged).cmp(&total(&b.judged));
    let names = a.file.cmp(&b.file);
    instances
        .then(classes)
        .then(violations)
        .then(totals)
        .then(names)
}

/// Sorts rows.
fn rank(mut rows: Vec<Row>) -> Result<Vec<Row>, AllocError>
    ensures { IfOk result (λ ranked. AreBestFirst rows.items ranked.items) }
{
    rows.sort_by(|a, b| compare_rows(a, b))?;
    Ok(rows)
}

/// Returns the rows, the best first in each instance if that is asked for.
pub(crate) fn order(sort: bool, rows: Vec<Row>) -> Result<Vec<Row>, AllocError>
    ensures { IfOk result (λ ordered. AreOrdered sort rows.items ordered.items) }
{
    if sort { rank(rows) } else { Ok(rows) }
}
