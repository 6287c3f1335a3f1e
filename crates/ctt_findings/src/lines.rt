//! Findings as lines of text.

ghost use Rattle.std.specs.Prelude.{◌≡◌, ◌++◌, OnOk, flat_map, map, string_bytes};
ghost use Rattle.std.specs.List.{AllByRecursion as Each};
ghost use Rattle.ctt_findings.specs.Fitting.{FindingFits};
ghost use Rattle.ctt_findings.specs.Lines.{line, text_of_fact};

use crate::contents::facts;
use crate::fact::Fact;
use crate::finding::Finding;
use arrayvec::ArrayVec;
use ctt_line::Word;
use ctt_problem::Instance;
use std::alloc::AllocError;

/// Returns the values of facts as words of a line.
fn words<'i>(facts: &ArrayVec<Fact<'i>, 8>) -> ArrayVec<Word<'i>, 8>
    ensures { result.items ≡ map text_of_fact facts.now.items }
{
    let mut words = ArrayVec::new();
    for fact in facts.as_slice() {
        words.push(fact.word());
    }
    words
}

/// Adds the line of a finding: its kind, and its facts with names in place of numbers.
pub(crate) fn push_line(
    text: &mut String,
    instance: &Instance,
    finding: &Finding,
) -> Result<(), AllocError>
    requires { FindingFits instance.now finding.now }
    ensures { OnOk result (string_bytes text.new
        ≡ string_bytes text.old ++ line instance.now finding.now) }
{
    let facts = facts(instance, finding);
    ctt_line::push_line(text, words(&facts).as_slice())
}

/// Adds the lines of findings.
pub(crate) fn push_lines(
    text: &mut String,
    instance: &Instance,
    found: &[Finding],
) -> Result<(), AllocError>
    requires { Each (FindingFits instance.now) found.now }
    ensures { OnOk result (string_bytes text.new
        ≡ string_bytes text.old ++ flat_map (line instance.now) found.now) }
{
    for finding in found {
        push_line(text, instance, finding)?;
    }
    Ok(())
}
