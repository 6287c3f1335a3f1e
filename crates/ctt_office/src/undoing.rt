//! Undoing of the last accepted edit of a draft, by one more edit.

ghost use Rattle.std.specs.Prelude.{◌≡◌, ◌++◌, OnOk, string_bytes};
ghost use Rattle.ctt_edits.specs.Edits.{EditFits};
ghost use Rattle.ctt_edits.specs.Fitting.{ReplyFits};
ghost use Rattle.ctt_seat.specs.Attended.{leaver};
ghost use Rattle.ctt_seat.specs.Seats.{seat_value};
ghost use Rattle.ctt_office.specs.Redone.{undone_line};
ghost use Rattle.ctt_office.specs.SeatAnswers.{AddsAnswer, Undoes, UndoesIn};

use crate::answering::write_no_memory;
use ctt_board::Sheet;
use ctt_core::Answer;
use ctt_desk::{Drafting, Naming};
use ctt_edits::{Call, Edit, Reply};
use ctt_script::{push_edit, write_fault};
use ctt_seat::{Seat, SeatAnswer, write_seat_answer};
use ctt_text::Instance;
use std::alloc::AllocError;

/// Adds the answer to an undo, which made this edit and got this reply.
#[tactic(auto, using(ctt_script::proofs::WrittenText::after_blank))]
fn write_undone(
    text: &mut String,
    instance: &Instance,
    edit: &Edit,
    reply: &Reply,
) -> Result<(), AllocError>
    requires edit { EditFits instance.now edit.now }
    requires reply { ReplyFits instance.now reply.now }
    ensures { OnOk result (string_bytes text.new
        ≡ string_bytes text.old ++ undone_line instance.now edit.now reply.now) }
{
    match reply {
        Reply::Refused(fault) => {
            text.push_str("refused ")?;
            write_fault(text, instance, fault)
        }
        _ => {
            text.push_str("done ")?;
            push_edit(text, instance, edit)?;
            text.push('\n')
        }
    }
}

/// Undoes the last accepted edit of a draft that is not undone yet, and adds the answer.
fn undo_in<'i, S: Sheet<'i>, J: Naming>(
    drafting: &mut Drafting<'i, S, J>,
    instance: &Instance,
    text: &mut String,
) -> Result<(), AllocError>
    requires { J.problem ≡ instance.now }
    ensures answered { OnOk result (AddsAnswer (UndoesIn instance.now drafting.old drafting.new)
        (string_bytes text.old) (string_bytes text.new)) }
    ensures planner { drafting.new.planner ≡ drafting.old.planner }
{
    let found = drafting.undoing();
    match found {
        Ok(Some(edit)) => match drafting.call(Call::Edit(edit)) {
            Ok(reply) => write_undone(text, instance, &edit, &reply),
            Err(_) => write_no_memory(instance, text),
        },
        Ok(None) => text.push_str("nothing to undo\n"),
        Err(_) => write_no_memory(instance, text),
    }
}

/// Undoes the last accepted edit of the open draft, if one is open, and adds the answer.
pub(crate) fn undo<'i, S: Sheet<'i>, J: Naming>(
    seat: &mut Seat<'i, S, J>,
    instance: &Instance,
    text: &mut String,
) -> Result<(), AllocError>
    requires { J.problem ≡ instance.now }
    ensures answered { OnOk result (AddsAnswer (Undoes instance.now seat.old seat.new)
        (string_bytes text.old) (string_bytes text.new)) }
    ensures planner { leaver (seat_value seat.new) ≡ leaver (seat_value seat.old) }
{
    match seat {
        Seat::Free(_) => write_seat_answer(text, instance, &SeatAnswer::Answer(Answer::NoDraft)),
        Seat::Drafting(drafting) => undo_in(drafting, instance, text),
    }
}
