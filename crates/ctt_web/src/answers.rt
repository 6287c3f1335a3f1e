//! What the program prints of the files of a page, and why it refuses them.

ghost use Rattle.std.specs.Prelude.{◌≡◌, ◌⊎◌, IfErr, IfOk};
ghost use Rattle.ctt_problem.specs.Timetable.{IsTimetable};
ghost use Rattle.ctt_files.specs.Refusals.{IsOfInstanceOr, IsOfSolution};
ghost use Rattle.ctt_files.specs.declared.fault.Fault.TheVariants.{Machine};
ghost use Rattle.ctt_files.specs.declared.fault.MachineFault.TheVariants.{NoMemory as OutOfMemory};
ghost use Rattle.ctt_web.specs.Answers.{Answers, AnswersIn, AnswersOn, HasSentenceLines, IsMet, IsRefused, Shows};
ghost use Rattle.ctt_web.specs.declared.wanted.Wanted.TheVariants as wanted_of;

use crate::asked::Asked;
use crate::files::PageFiles;
use crate::names::{Names, name_in, names_of};
use crate::wanted::Wanted;
use ctt_files::{Fault, Files, MachineFault, fetch_instance, fetch_solution};
use ctt_findings::{explained_text, findings_csv, report_json, report_text};
use ctt_problem::{Instance, NoMemory, Placed, drop_whole};
use ctt_views::{PageOptions, page_text, sentences_text};
use std::alloc::Global;

/// Returns the lines of the report, and then the sentences of all findings.
fn sentences(alloc: Global, instance: &Instance, timetable: &[Placed]) -> Result<Vec<u8>, NoMemory>
    requires { IsTimetable instance.now timetable.now }
    ensures { IfOk result (λ text. HasSentenceLines instance.now timetable.now text.items) }
{
    let mut text = report_text(alloc, instance, timetable)?;
    let sentences = sentences_text(alloc, instance, timetable)?;
    text.extend_from_slice(&sentences)?;
    Ok(text)
}

/// Returns the page of all weeks.
fn page(
    alloc: Global,
    instance: &Instance,
    timetable: &[Placed],
    file: &str,
    days: &str,
) -> Result<Vec<u8>, NoMemory>
    requires { IsTimetable instance.now timetable.now }
    ensures { IfOk result (λ text.
        Shows wanted_of.Page file.now days.now instance.now timetable.now text.items) }
{
    let options = PageOptions {
        selection: None,
        plain: false,
        grids: None,
    };
    let page = page_text(alloc, instance, timetable, file, days, &options)?;
    Ok(page.into_bytes())
}

/// Returns what is wanted of the timetable of a file.
fn show(
    alloc: Global,
    wanted: Wanted,
    instance: &Instance,
    timetable: &[Placed],
    file: &str,
    days: &str,
) -> Result<Vec<u8>, NoMemory>
    requires { IsTimetable instance.now timetable.now }
    ensures { IfOk result (λ text.
        Shows wanted file.now days.now instance.now timetable.now text.items) }
{
    match wanted {
        Wanted::Report => explained_text(alloc, instance, timetable),
        Wanted::Sentences => sentences(alloc, instance, timetable),
        Wanted::Row => report_json(alloc, Some(file), instance, timetable),
        Wanted::Findings => findings_csv(alloc, instance, timetable),
        Wanted::Page => page(alloc, instance, timetable, file, days),
    }
}

/// Reads the solution, and returns what is wanted of it.
fn answer_on<F: Files>(
    alloc: Global,
    files: &mut F,
    wanted: Wanted,
    instance: &Instance,
    solution: String,
    days: &str,
) -> Result<Vec<u8>, Fault>
    ensures answers { IfOk result (λ text. AnswersOn wanted (F.held files.old) solution days.now
        instance.now text.items) }
    ensures cause { IfErr result (IsOfSolution solution (F.held files.old) instance.now) }
{
    let file = solution.clone()?;
    let timetable = fetch_solution(alloc, files, instance, solution)?;
    Ok(show(alloc, wanted, instance, &timetable, &file, days)?)
}

/// Reads the files, the instance first, and returns what is wanted of the solution.
fn answer_in<F: Files>(
    alloc: Global,
    files: &mut F,
    wanted: Wanted,
    names: Names,
    days: &str,
) -> Result<Vec<u8>, Fault>
    ensures answers { IfOk result (λ text. AnswersIn wanted (F.held files.old) names days.now
        text.items) }
    ensures cause { IfErr result (IsOfInstanceOr (IsOfSolution names.solution)
        (F.held files.old) names.instance names.sides) }
{
    let Names {
        instance,
        sides,
        solution,
    } = names;
    let instance = fetch_instance(alloc, files, instance, sides)?;
    let done = answer_on(alloc, files, wanted, &instance, solution, days);
    drop_whole(instance);
    done
}

/// Returns the fault of a file in memory. Such a file is always read, and so what the machine
/// could not do is said to be want of memory, unless the file is too long.
fn in_memory(fault: Fault) -> Fault
    ensures kept { (result ≡ fault) ⊎ (result ≡ Machine OutOfMemory) }
    ensures met { IsMet result }
{
    match fault {
        Fault::Machine(MachineFault::TooLong(name)) => Fault::Machine(MachineFault::TooLong(name)),
        Fault::Machine(_) => Fault::Machine(MachineFault::NoMemory),
        Fault::Usage(met) => Fault::Usage(met),
        Fault::Contents(met) => Fault::Contents(met),
    }
}

/// Returns what is wanted of the files that a page passes.
pub(crate) fn answer(
    alloc: Global,
    wanted: Wanted,
    bytes: &[u8],
    asked: &Asked,
) -> Result<Vec<u8>, Fault>
    ensures answers { IfOk result (λ text. Answers wanted bytes.now asked.now text.items) }
    ensures cause { IfErr result (IsRefused bytes.now asked.now) }
    ensures met { IfErr result IsMet }
{
    let names = names_of(alloc, bytes, asked)?;
    let days = name_in(alloc, bytes, asked.days)?;
    let mut files = PageFiles::new(bytes, asked);
    match answer_in(alloc, &mut files, wanted, names, &days) {
        Ok(text) => Ok(text),
        Err(fault) => Err(in_memory(fault)),
    }
}
