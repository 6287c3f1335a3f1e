//! The report on a timetable as text.

ghost use Rattle.std.specs.Prelude.{◌≡◌, ◌++◌, ◌^◌, ◌<◌, IfOk, OnOk, flat_map};
ghost use Rattle.std.specs.String.{string_bytes};
ghost use Rattle.ctt_problem.specs.Timetable.{IsTimetable};
ghost use Rattle.ctt_rules.specs.Penalty.{total};
ghost use Rattle.ctt_findings.specs.ReportText.{IsExplainedText, IsTextReport, fact_line, text_of};

use crate::fact::Fact;
use crate::find::find_all;
use crate::lines::push_lines;
use crate::report_facts::report_facts;
use ctt_line::{Word, push_line};
use ctt_problem::{Instance, NoMemory, Placed};
use ctt_rules::{Assessment, assess};
use std::alloc::{AllocError, Global};

/// Adds lines with a key and its value.
fn push_facts(report: &mut String, facts: &[Fact<'_>]) -> Result<(), AllocError>
    ensures { OnOk result (string_bytes report.new
        ≡ string_bytes report.old ++ flat_map fact_line facts.now) }
{
    for fact in facts {
        push_line(report, &[Word::text(fact.key()), fact.word()])?;
    }
    Ok(())
}

/// Returns the report on an instance as text.
fn text(alloc: Global, instance: &Instance, assessment: &Assessment) -> Result<String, AllocError>
    requires { total assessment.now.cost < 2 ^ 64 }
    ensures { IfOk result (λ text. string_bytes text
        ≡ text_of instance.now assessment.now.hard assessment.now.cost assessment.now.lawful
        assessment.now.complete) }
{
    let mut report = String::new(alloc);
    push_facts(&mut report, report_facts(instance, assessment).as_slice())?;
    Ok(report)
}

/// Returns the report on a timetable as lines of text: twelve, one more if any room is barred, and
/// one more if any room is blocked.
pub fn report_text(
    alloc: Global,
    instance: &Instance,
    timetable: &[Placed],
) -> Result<Vec<u8>, NoMemory>
    requires { IsTimetable instance.now timetable.now }
    ensures { IfOk result (λ bytes. IsTextReport instance.now timetable.now bytes.items) }
{
    let lines = text(alloc, instance, &assess(instance, timetable))?;
    Ok(lines.into_bytes())
}

/// Returns the report on a timetable as text, followed by the lines of all findings.
pub fn explained_text(
    alloc: Global,
    instance: &Instance,
    timetable: &[Placed],
) -> Result<Vec<u8>, NoMemory>
    requires { IsTimetable instance.now timetable.now }
    ensures { IfOk result (λ bytes. IsExplainedText instance.now timetable.now bytes.items) }
{
    let found = find_all(alloc, instance, timetable)?;
    let mut lines = text(alloc, instance, &assess(instance, timetable))?;
    push_lines(&mut lines, instance, &found)?;
    Ok(lines.into_bytes())
}
