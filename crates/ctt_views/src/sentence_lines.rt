//! The sentences of a timetable's findings as plain text.

ghost use Rattle.std.specs.Prelude.{◌≡◌, ◌++◌, IfOk, OnOk, flat_map, string_bytes};
ghost use Rattle.std.specs.List.{AllByRecursion as Each};
ghost use Rattle.ctt_problem.specs.Timetable.{IsTimetable};
ghost use Rattle.ctt_findings.specs.Fitting.{FindingFits};
ghost use Rattle.ctt_views.specs.Sentences.{HasSentences, sentence_line};

use crate::ranking::ranked_findings;
use crate::sentences::push_sentence_line;
use ctt_findings::Finding;
use ctt_problem::{Instance, NoMemory, Placed};
use std::alloc::{AllocError, Global};

/// Adds the lines of findings.
fn push_lines(text: &mut String, instance: &Instance, found: &[Finding]) -> Result<(), AllocError>
    requires { Each (FindingFits instance.now) found.now }
    ensures { OnOk result (string_bytes text.new
        ≡ string_bytes text.old ++ flat_map (sentence_line instance.now) found.now) }
{
    for finding in found {
        push_sentence_line(text, instance, finding)?;
    }
    Ok(())
}

/// Returns a line for each finding of a timetable: what is to mend, in words. What breaks a hard
/// rule comes first, and then what costs points, more points first. Days and periods are counted
/// from 1.
pub fn sentences_text(
    alloc: Global,
    instance: &Instance,
    timetable: &[Placed],
) -> Result<Vec<u8>, NoMemory>
    requires { IsTimetable instance.now timetable.now }
    ensures { IfOk result (λ bytes. HasSentences instance.now timetable.now bytes.items) }
{
    let found = ranked_findings(alloc, instance, timetable)?;
    let mut text = String::new(alloc);
    push_lines(&mut text, instance, &found)?;
    Ok(text.into_bytes())
}
