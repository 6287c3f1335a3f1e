//! The head of the page: its title, the verdict and the cost.

ghost use Rattle.std.specs.Prelude.{◌≡◌, ◌<◌, ◌^◌, ◌++◌, OnOk, Some, string_bytes};
ghost use Rattle.ctt_rules.specs.Penalty.{total};
ghost use Rattle.ctt_views.specs.Heads.{complete_text, cost_text, lawful_text, own_name, page_head, verdict};

use crate::escape::Escaped;
use crate::phrases::Amount;
use ctt_rules::Assessment;
use std::alloc::AllocError;
use std::fmt;
use std::fmt::Write;
use std::path::Path;

/// Returns the own name of a file, without the folders before it.
pub(crate) fn own_name(path: &str) -> &str
    ensures { result.now ≡ own_name path.now }
{
    match Path::new(path).file_name() {
        Some(name) => name,
        None => path,
    }
}

/// Adds what precedes the verdict: the HTML head with the style, a link over what precedes the
/// grids, and the names of the instance and of the solution as title.
#[tactic(auto, unfolding(crate::specs::Heads::page_head))]
pub(crate) fn push_head(
    page: &mut String,
    style: &str,
    name: &str,
    file: &str,
) -> Result<(), AllocError>
    ensures { OnOk result (string_bytes page.new
        ≡ string_bytes page.old ++ page_head style.now name.now file.now) }
{
    let title = Escaped(name);
    let file = Escaped(file);
    write!(
        page,
        "<!DOCTYPE html>\n<html lang='en'><head><meta charset='utf-8'>\n\
         <meta name='viewport' content='width=device-width, initial-scale=1'>\n\
         <title>{title}: {file}</title><style>{style}</style></head>\n\
         <body><a id='skip' href='#grids'>Skip to the grids</a>\n\
         <header><h1><bdi>{title}</bdi>: <bdi>{file}</bdi></h1>\n"
    )
}

/// Returns whether a timetable is lawful, in words.
fn lawful_text(lawful: bool) -> &'static str
    ensures { result.now ≡ lawful_text lawful }
{
    if lawful {
        "lawful"
    } else {
        "<b>&#10007;&#160;not lawful</b>"
    }
}

/// Returns whether a timetable is complete, in words.
fn complete_text(complete: bool) -> &'static str
    ensures { result.now ≡ complete_text complete }
{
    if complete {
        "complete"
    } else {
        "<b>&#10007;&#160;not complete</b>"
    }
}

/// What a timetable costs. Displayed unless the page is plain.
#[derive(Clone, Copy)]
struct CostText {
    plain: bool,
    points: u64,
}

impl fmt::Display for CostText {
    ghost output = { λ c. Some (cost_text c.plain c.points) };

    #[tactic(auto, unfolding(crate::specs::Heads::cost_text))]
    fn fmt<W: fmt::Write>(&self, f: &mut fmt::Formatter<W>) -> fmt::Result {
        if self.plain {
            Ok(())
        } else {
            let points = Amount {
                count: self.points,
                noun: "point",
            };
            write!(f, ": {points}")
        }
    }
}

/// Adds the verdict and the cost, in one line.
#[tactic(auto, unfolding(crate::specs::Heads::verdict))]
pub(crate) fn push_verdict(
    page: &mut String,
    plain: bool,
    assessment: &Assessment,
) -> Result<(), AllocError>
    requires { total assessment.now.cost < 2 ^ 64 }
    ensures { OnOk result (string_bytes page.new ≡ string_bytes page.old
        ++ verdict plain (total assessment.now.cost) assessment.now.lawful assessment.now.complete) }
{
    let lawful = lawful_text(assessment.lawful);
    let complete = complete_text(assessment.complete);
    let points = assessment.cost.total();
    let cost = CostText { plain, points };
    write!(
        page,
        "<p id='verdict'>{lawful}, {complete}{cost}</p></header>\n"
    )
}
