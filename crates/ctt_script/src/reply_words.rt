//! Writing the words of replies and answers, except for lists.

ghost use Rattle.std.specs.Prelude.{◌≡◌, ◌++◌, ◌∷◌, IfSome, OnOk, codes, string_bytes};
ghost use Rattle.ctt_edits.specs.Fitting.{FaultFits};
ghost use Rattle.ctt_line.specs.Lines.{line};
ghost use Rattle.ctt_script.specs.AnswerText.{row_words, status_words};
ghost use Rattle.ctt_script.specs.Entries.{RowFits};
ghost use Rattle.ctt_script.specs.WrittenText.{joined};
ghost use Rattle.ctt_script.specs.WrittenWords.{cost_words, fault_words};

use crate::call_words::{course, day, period};
use ctt_core::DraftStatus;
use ctt_edits::{EditFault, Row};
use ctt_line::{Word, push_line, push_words};
use ctt_rules::Cost;
use ctt_text::Instance;
use std::alloc::AllocError;

/// Appends the words of a fault: its keyword, and the name of the course if it has one.
pub fn push_fault(
    text: &mut String,
    instance: &Instance,
    fault: &EditFault,
) -> Result<(), AllocError>
    requires { FaultFits instance.now fault.now }
    ensures { OnOk result (string_bytes text.new
        ≡ string_bytes text.old ++ joined (fault_words instance.now fault.now)) }
{
    match fault {
        EditFault::NotPlaced => text.push_str("notplaced"),
        EditFault::SameSlot => text.push_str("sameslot"),
        EditFault::SameCourse => text.push_str("samecourse"),
        EditFault::AlreadyThere => text.push_str("already"),
        EditFault::CourseFull => text.push_str("full"),
        EditFault::Unavailable => text.push_str("unavailable"),
        EditFault::Barred => text.push_str("barred"),
        EditFault::Blocked => text.push_str("blocked"),
        EditFault::Clash(number) => {
            text.push_str("clash")?;
            push_words(text, &[course(instance, *number)])
        }
        EditFault::RoomTaken(number) => {
            text.push_str("roomtaken")?;
            push_words(text, &[course(instance, *number)])
        }
    }
}

/// Adds the line of a fault.
#[tactic(auto, using(crate::proofs::WrittenText::joined_line))]
pub fn write_fault(
    text: &mut String,
    instance: &Instance,
    fault: &EditFault,
) -> Result<(), AllocError>
    requires { FaultFits instance.now fault.now }
    ensures { OnOk result (string_bytes text.new
        ≡ string_bytes text.old ++ line (fault_words instance.now fault.now)) }
{
    push_fault(text, instance, fault)?;
    text.push('\n')
}

/// Adds the line of the costs for capacity, days, compactness and stability, in this order.
pub fn write_costs(text: &mut String, cost: &Cost) -> Result<(), AllocError>
    ensures { OnOk result (string_bytes text.new
        ≡ string_bytes text.old ++ line (cost_words cost.now)) }
{
    push_line(
        text,
        &[
            Word::text("costs"),
            Word::number(cost.capacity),
            Word::number(cost.days),
            Word::number(cost.compactness),
            Word::number(cost.stability),
        ],
    )
}

/// Adds the line of a draft that is stale because this row has changed.
pub(crate) fn write_stale(
    text: &mut String,
    instance: &Instance,
    row: &Row,
) -> Result<(), AllocError>
    requires { RowFits instance.now row.now }
    ensures { OnOk result (string_bytes text.new
        ≡ string_bytes text.old ++ line (codes "stale" ∷ row_words instance.now row.now)) }
{
    match row {
        Row::Course(number) => {
            text.push_str("stale ")?;
            push_line(text, &[Word::text("course"), course(instance, *number)])
        }
        Row::Slot(slot) => {
            text.push_str("stale ")?;
            let (day, period) = (day(instance, *slot), period(instance, *slot));
            push_line(text, &[Word::text("slot"), day, period])
        }
    }
}

/// Adds the line of a draft's status: the number of its edits, the number of drafts accepted since
/// its snapshot, and whether it is fresh.
pub(crate) fn write_status(
    text: &mut String,
    instance: &Instance,
    status: &DraftStatus,
) -> Result<(), AllocError>
    requires { IfSome status.now.stale (RowFits instance.now) }
    ensures { OnOk result (string_bytes text.new
        ≡ string_bytes text.old ++ line (status_words instance.now status.now)) }
{
    text.push_str("draft")?;
    push_words(
        text,
        &[Word::number(status.edits), Word::number(status.behind)],
    )?;
    text.push(' ')?;
    match &status.stale {
        None => text.push_str("fresh\n"),
        Some(row) => write_stale(text, instance, row),
    }
}
