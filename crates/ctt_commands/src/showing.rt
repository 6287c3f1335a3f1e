//! The commands `week`, `page` and `mend`, which show a solution.

ghost use Rattle.std.specs.Prelude.{◌≡◌, [], IfOk, IfErr, IfSome, string_bytes};
ghost use Rattle.ctt_problem.specs.Timetable.{IsTimetable};
ghost use Rattle.ctt_text.specs.Written.{soltext};
ghost use Rattle.ctt_files.specs.declared.fault.Fault.TheVariants.{Machine};
ghost use Rattle.ctt_files.specs.declared.fault.MachineFault.TheVariants.{NoMemory as OutOfMemory};
ghost use Rattle.ctt_files.specs.declared.outcome.Outcome.TheVariants.{Done};
ghost use Rattle.ctt_views.specs.Page.{IsPage};
ghost use Rattle.ctt_views.specs.Week.{SelectionFits, week};
ghost use Rattle.ctt_commands.specs.Commands.{IsDoneAlone};
ghost use Rattle.ctt_commands.specs.Mended.{aside_text, mended, set_aside};
ghost use Rattle.ctt_commands.specs.Selections.{kind_of, names_of, options_of};

use crate::mended::mend as mend_lectures;
use crate::task::Subject;
use ctt_files::{Fault, Outcome, Output};
use ctt_grid::GridSheet;
use ctt_views::{GridKind, PageOptions, Selection, page_text, week_text};
use ctt_words::{Grids, PageWords};
use std::alloc::Global;

/// Returns the week of a solution: of a selection, or of all rooms.
pub(crate) fn week(
    alloc: Global,
    subject: &Subject,
    selection: Option<Selection>,
) -> Result<Output, Fault>
    requires timetable { IsTimetable subject.now.instance subject.now.timetable.items }
    requires selection { IfSome selection (SelectionFits subject.now.instance) }
    ensures week { IfOk result (λ output. output.text.items
        ≡ week subject.now.instance selection subject.now.timetable.items) }
    ensures alone { IfOk result IsDoneAlone }
    ensures cause { IfErr result (λ fault. fault ≡ Machine OutOfMemory) }
{
    let timetable = subject.timetable.as_slice();
    let text = week_text(alloc, &subject.instance, selection, timetable)?;
    Ok(Output::new(alloc, text.into_bytes(), Outcome::Done))
}

/// Returns the names of days as one text, which is empty if there are none.
fn names_of(days: &Option<String>) -> &str
    ensures { result.now ≡ names_of days.now }
{
    match days {
        Some(names) => names.as_str(),
        None => "",
    }
}

/// Returns the kind of the grids that a page is asked for.
fn kind_of(grids: Grids) -> GridKind
    ensures { result ≡ kind_of grids }
{
    match grids {
        Grids::Curricula => GridKind::Curricula,
        Grids::Teachers => GridKind::Teachers,
        Grids::Courses => GridKind::Courses,
        Grids::Rooms => GridKind::Rooms,
    }
}

/// Returns what a page shows.
fn options_of(selection: Option<Selection>, words: &PageWords) -> PageOptions
    ensures { result ≡ options_of selection words.now }
{
    let grids = match words.grids {
        Some(grids) => Some(kind_of(grids)),
        None => None,
    };
    PageOptions {
        selection,
        plain: words.plain,
        grids,
    }
}

/// Returns the page on a solution, for a browser.
pub(crate) fn page(
    alloc: Global,
    subject: &Subject,
    file: &str,
    selection: Option<Selection>,
    words: &PageWords,
) -> Result<Output, Fault>
    requires timetable { IsTimetable subject.now.instance subject.now.timetable.items }
    requires selection { IfSome selection (SelectionFits subject.now.instance) }
    ensures page { IfOk result (λ output. IsPage file.now (names_of words.now.days)
        (options_of selection words.now) subject.now.instance subject.now.timetable.items
        output.text.items) }
    ensures alone { IfOk result IsDoneAlone }
    ensures cause { IfErr result (λ fault. fault ≡ Machine OutOfMemory) }
{
    let names = names_of(&words.days);
    let timetable = subject.timetable.as_slice();
    let options = options_of(selection, words);
    let text = page_text(alloc, &subject.instance, timetable, file, names, &options)?;
    Ok(Output::new(alloc, text.into_bytes(), Outcome::Done))
}

/// Returns a solution without the lectures that cannot be placed one after another, in the order of
/// courses and slots, and reports these.
pub(crate) fn mend(alloc: Global, subject: &Subject) -> Result<Output, Fault>
    requires { IsTimetable subject.now.instance subject.now.timetable.items }
    ensures solution { IfOk result (λ output. output.text.items ≡ soltext subject.now.instance
        (mended subject.now.instance subject.now.timetable.items)) }
    ensures aside { IfOk result (λ output.
        string_bytes output.diagnostics ≡ aside_text subject.now.instance
        (set_aside subject.now.instance subject.now.timetable.items)) }
    ensures done { IfOk result (λ output. output.outcome ≡ Done) }
    ensures cause { IfErr result (λ fault. fault ≡ Machine OutOfMemory) }
{
    let timetable = subject.timetable.as_slice();
    let mended = mend_lectures::<GridSheet>(alloc, &subject.instance, timetable)?;
    Ok(Output {
        text: mended.solution,
        diagnostics: mended.aside,
        outcome: Outcome::Done,
    })
}
