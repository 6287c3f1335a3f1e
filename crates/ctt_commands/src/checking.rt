//! The report of the command `check`.

ghost use Rattle.std.specs.Prelude.{◌≡◌, [], IfOk, IfErr, option_map, string_bytes};
ghost use Rattle.ctt_problem.specs.Timetable.{IsTimetable};
ghost use Rattle.ctt_files.specs.declared.fault.Fault.TheVariants.{Machine};
ghost use Rattle.ctt_files.specs.declared.fault.MachineFault.TheVariants.{NoMemory as OutOfMemory};
ghost use Rattle.ctt_commands.specs.Forms.{table_form};
ghost use Rattle.ctt_commands.specs.Reports.{AreSentences, IsCsv, IsJson, IsJudged, IsLines, IsReport, IsText, file_if};

use crate::forms::{TableForm, table_form};
use crate::judging::judge;
use crate::task::Subject;
use ctt_files::{Fault, Output};
use ctt_findings::{
    explained_json, explained_text, findings_csv, report_csv, report_json, report_text,
};
use ctt_problem::{Instance, NoMemory, Placed};
use ctt_views::sentences_text;
use ctt_words::CheckOptions;
use std::alloc::Global;

/// Returns the lines of the report, with those of all findings if `explain` is set.
fn lines(
    alloc: Global,
    explain: bool,
    instance: &Instance,
    timetable: &[Placed],
) -> Result<Vec<u8>, NoMemory>
    requires { IsTimetable instance.now timetable.now }
    ensures { IfOk result (λ bytes. IsLines explain instance.now timetable.now bytes.items) }
{
    if explain {
        explained_text(alloc, instance, timetable)
    } else {
        report_text(alloc, instance, timetable)
    }
}

/// Returns the sentences of the findings, or an empty text if they are not wanted.
fn sentences(
    alloc: Global,
    wanted: bool,
    instance: &Instance,
    timetable: &[Placed],
) -> Result<Vec<u8>, NoMemory>
    requires { IsTimetable instance.now timetable.now }
    ensures { IfOk result (λ bytes. AreSentences wanted instance.now timetable.now bytes.items) }
{
    if wanted {
        sentences_text(alloc, instance, timetable)
    } else {
        Ok(Vec::new(alloc))
    }
}

/// Returns the report as text.
fn text(
    alloc: Global,
    options: &CheckOptions,
    instance: &Instance,
    timetable: &[Placed],
) -> Result<Vec<u8>, NoMemory>
    requires { IsTimetable instance.now timetable.now }
    ensures { IfOk result (λ bytes. IsText options.now instance.now timetable.now bytes.items) }
{
    let mut text = lines(alloc, options.explain, instance, timetable)?;
    let sentences = sentences(alloc, options.sentences, instance, timetable)?;
    text.extend_from_slice(&sentences)?;
    Ok(text)
}

/// Returns the report as CSV, or the table of the findings if `explain` is set.
fn csv(
    alloc: Global,
    explain: bool,
    instance: &Instance,
    timetable: &[Placed],
) -> Result<Vec<u8>, NoMemory>
    requires { IsTimetable instance.now timetable.now }
    ensures { IfOk result (λ bytes. IsCsv explain instance.now timetable.now bytes.items) }
{
    if explain {
        findings_csv(alloc, instance, timetable)
    } else {
        report_csv(alloc, instance, timetable)
    }
}

/// Returns the name of a file, if it is wanted.
fn file_if(wanted: bool, file: &str) -> Option<&str>
    ensures { option_map (λ name. name.now) result ≡ file_if wanted file.now }
{
    if wanted { Some(file) } else { None }
}

/// Returns the report as a JSON object, with the name of the solution's file if it is given, and
/// with all findings if `explain` is set.
fn json(
    alloc: Global,
    explain: bool,
    file: Option<&str>,
    instance: &Instance,
    timetable: &[Placed],
) -> Result<Vec<u8>, NoMemory>
    requires { IsTimetable instance.now timetable.now }
    ensures { IfOk result (λ bytes. IsJson explain (option_map (λ name. name.now) file.entry)
        instance.now timetable.now bytes.items) }
{
    if explain {
        explained_json(alloc, file, instance, timetable)
    } else {
        report_json(alloc, file, instance, timetable)
    }
}

/// Returns the report on the timetable of a file.
fn report(
    alloc: Global,
    options: &CheckOptions,
    file: &str,
    instance: &Instance,
    timetable: &[Placed],
) -> Result<Vec<u8>, NoMemory>
    requires { IsTimetable instance.now timetable.now }
    ensures { IfOk result (λ bytes. IsReport (table_form options.now.json options.now.csv)
        options.now file.now instance.now timetable.now bytes.items) }
{
    match table_form(options.json, options.csv) {
        TableForm::Aligned => text(alloc, options, instance, timetable),
        TableForm::Csv => csv(alloc, options.explain, instance, timetable),
        TableForm::Json => {
            let file = file_if(options.name, file);
            json(alloc, options.explain, file, instance, timetable)
        }
    }
}

/// Returns the report on a solution, with the outcome that is asked for.
pub(crate) fn check(
    alloc: Global,
    subject: &Subject,
    file: &str,
    options: &CheckOptions,
) -> Result<Output, Fault>
    requires { IsTimetable subject.now.instance subject.now.timetable.items }
    ensures report { IfOk result (λ output.
        IsReport (table_form options.now.json options.now.csv) options.now file.now
        subject.now.instance subject.now.timetable.items output.text.items) }
    ensures judged { IfOk result (λ output. IsJudged options.now.strict
        subject.now.instance subject.now.timetable.items output.outcome) }
    ensures alone { IfOk result (λ output. string_bytes output.diagnostics ≡ []) }
    ensures cause { IfErr result (λ fault. fault ≡ Machine OutOfMemory) }
{
    let (instance, timetable) = (&subject.instance, subject.timetable.as_slice());
    let text = report(alloc, options, file, instance, timetable)?;
    let outcome = judge(instance, timetable, options.strict);
    Ok(Output::new(alloc, text, outcome))
}
