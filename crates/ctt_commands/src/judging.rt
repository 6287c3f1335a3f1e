//! The outcome of a check.

ghost use Rattle.ctt_problem.specs.Timetable.{IsTimetable};
ghost use Rattle.ctt_commands.specs.Reports.{IsJudged};

use ctt_files::Outcome;
use ctt_problem::{Instance, Placed};
use ctt_rules::{is_complete, is_lawful};

/// Returns the outcome of a check: done, unless `strict` is set and the timetable is not complete.
pub(crate) fn judge(instance: &Instance, timetable: &[Placed], strict: bool) -> Outcome
    requires { IsTimetable instance.now timetable.now }
    ensures { IsJudged strict instance.now timetable.now result }
{
    if !strict || is_complete(instance, timetable) {
        Outcome::Done
    } else if is_lawful(instance, timetable) {
        Outcome::Incomplete
    } else {
        Outcome::Unlawful
    }
}
