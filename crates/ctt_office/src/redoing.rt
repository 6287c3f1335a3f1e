//! Redoing, in a new draft, of the accepted edits of a draft that ended stale.

ghost use Rattle.std.specs.Prelude.{◌≡◌, ◌≢◌, ◌++◌, [], IfNone, IfOk, IfSome, OnErr, OnOk, codes, flat_map, length, string_bytes};
ghost use Rattle.std.specs.Fmt.{decimal};
ghost use Rattle.std.specs.List.{AllByRecursion as Each};
ghost use Rattle.ctt_draft.specs.Drafts.{AskedFits};
ghost use Rattle.ctt_draft.specs.Undoing.{edits_done};
ghost use Rattle.ctt_edits.specs.Edits.{EditFits, edit_fault};
ghost use Rattle.ctt_edits.specs.Fitting.{FaultFits};
ghost use Rattle.ctt_edits.specs.declared.fault.EditFault.{EditFault as Fault};
ghost use Rattle.ctt_edits.specs.declared.reply.Reply.TheVariants.{Refused};
ghost use Rattle.ctt_desk.specs.Planners.{present_of};
ghost use Rattle.ctt_line.specs.Lines.{words_part};
ghost use Rattle.ctt_seat.specs.Attended.{leaver};
ghost use Rattle.ctt_seat.specs.CrewText.{unread_answer};
ghost use Rattle.ctt_seat.specs.Seats.{seat_value};
ghost use Rattle.ctt_office.specs.Ended.{EndedFits};
ghost use Rattle.ctt_office.specs.Redone.{IsMadeAgain, left_out, left_out_words, redone_line, remade};
ghost use Rattle.ctt_office.specs.SeatAnswers.{AddsAnswer, IsUncommitted, Redoes, RedoesCalls, told_line};

use crate::answering::write_no_memory;
use crate::seat_state::SeatState;
use ctt_board::Sheet;
use ctt_core::Answer;
use ctt_desk::{Drafting, Naming, Planner, SharedFault};
use ctt_draft::{Asked, AskedCalls};
use ctt_edits::{Call, Edit, EditFault, Look, Reply};
use ctt_line::{Word, push_words};
use ctt_script::{push_edit, push_fault};
use ctt_seat::{Seat, SeatAnswer, write_seat_answer};
use ctt_text::{Instance, NoMemory, drop_whole};
use std::alloc::{AllocError, Global};

/// The number of accepted edits of an ended draft, and how many of them were redone.
#[derive(Clone, Copy)]
struct Tally {
    made: u64,
    edits: u64,
}

/// Adds an edit that is left out, with its number and its fault, each word after a blank.
fn push_left_out(
    text: &mut String,
    instance: &Instance,
    number: u64,
    edit: &Edit,
    fault: &EditFault,
) -> Result<(), AllocError>
    requires edit { EditFits instance.now edit.now }
    requires fault { FaultFits instance.now fault.now }
    ensures { OnOk result (string_bytes text.new
        ≡ string_bytes text.old ++ words_part (left_out_words instance.now
        (record { number = number; edit = edit.now; fault = fault.now }))) }
{
    push_words(text, &[Word::text("refused"), Word::number(number)])?;
    text.push(' ')?;
    push_edit(text, instance, edit)?;
    text.push(' ')?;
    push_fault(text, instance, fault)
}

/// Returns the fault with which a reply refuses an edit, if it does.
fn refusal(reply: &Reply) -> Option<EditFault>
    ensures fault { IfSome result (λ fault. reply.now ≡ Refused fault) }
    ensures none { IfNone result ((fault : Fault) → reply.now ≢ Refused fault) }
{
    match reply {
        Reply::Refused(fault) => Some(*fault),
        _ => None,
    }
}

/// Returns the fault that an edit has in a draft, if any, by a peek at its price. The draft records
/// no call.
fn fault_of<'i, S: Sheet<'i>, J: Naming>(
    drafting: &Drafting<'i, S, J>,
    edit: &Edit,
) -> Result<Option<EditFault>, NoMemory>
    requires { EditFits J.problem edit.now }
    ensures fault { IfOk result (λ fault.
        fault ≡ edit_fault J.problem (present_of J.problem drafting.now) edit.now) }
    ensures fits { IfOk result (λ fault. IfSome fault (FaultFits J.problem)) }
{
    let price = drafting.peek(&Look::Price(*edit))?;
    let fault = refusal(&price);
    drop_whole(price);
    Ok(fault)
}

/// Redoes an edit in a draft if it has no fault, and else adds it to those left out. Returns
/// whether it was redone.
fn make_again<'i, S: Sheet<'i>, J: Naming>(
    drafting: &mut Drafting<'i, S, J>,
    instance: &Instance,
    number: u64,
    edit: &Edit,
    omitted: &mut String,
) -> Result<bool, NoMemory>
    requires same { J.problem ≡ instance.now }
    requires fits { EditFits instance.now edit.now }
    ensures again { IfOk result (IsMadeAgain instance.now number edit.now drafting.old drafting.new
        (string_bytes omitted.old) (string_bytes omitted.new)) }
    ensures planner { drafting.new.planner ≡ drafting.old.planner }
{
    match fault_of(drafting, edit)? {
        Some(fault) => {
            push_left_out(omitted, instance, number, edit, &fault)?;
            Ok(false)
        }
        None => {
            let done = drafting.call(Call::Edit(*edit))?;
            drop_whole(done);
            Ok(true)
        }
    }
}

/// Redoes the accepted edits of calls, and adds those left out.
fn make_all_again<'i, S: Sheet<'i>, J: Naming>(
    drafting: &mut Drafting<'i, S, J>,
    instance: &Instance,
    asked: &[Asked],
    omitted: &mut String,
) -> Result<Tally, NoMemory>
    requires same { J.problem ≡ instance.now }
    requires fits { Each (AskedFits instance.now) asked.now }
    ensures calls { OnOk result (drafting.new ≡ record drafting.old {
      asked = drafting.old.asked
          ++ remade instance.now (present_of instance.now drafting.old) (edits_done asked.now);
    }) }
    ensures left { OnOk result (string_bytes omitted.new ≡ string_bytes omitted.old
        ++ flat_map (λ x. words_part (left_out_words instance.now x)) (left_out instance.now
        (present_of instance.now drafting.old) 1 (edits_done asked.now))) }
    ensures made { IfOk result (λ redone. redone.made ≡ length (remade instance.now
        (present_of instance.now drafting.old) (edits_done asked.now))) }
    ensures edits { IfOk result (λ redone. redone.edits ≡ length (edits_done asked.now)) }
    ensures planner { drafting.new.planner ≡ drafting.old.planner }
{
    let mut made = 0;
    let mut edits = 0;
    for one in asked {
        if let Some(edit) = one.done_edit() {
            edits += 1;
            if make_again(drafting, instance, edits, &edit, omitted)? {
                made += 1;
            }
        }
    }
    Ok(Tally { made, edits })
}

/// Returns the answer for redone edits, with these words for those left out.
fn redone_text(alloc: Global, redone: &Tally, omitted: &str) -> Result<String, NoMemory>
    ensures { IfOk result (λ text. string_bytes text ≡ codes "redone " ++ (decimal redone.now.made
        ++ (codes " of " ++ (decimal redone.now.edits ++ (omitted.now ++ codes "\n"))))) }
{
    let mut text = String::new(alloc);
    text.push_str("redone")?;
    let counts = [
        Word::number(redone.made),
        Word::text("of"),
        Word::number(redone.edits),
    ];
    push_words(&mut text, &counts)?;
    text.push_str(omitted)?;
    text.push('\n')?;
    Ok(text)
}

/// Redoes the accepted edits of calls in a new draft, and adds the answer. If memory runs out,
/// nothing is added.
fn redo_in<'i, S: Sheet<'i>, J: Naming>(
    alloc: Global,
    drafting: &mut Drafting<'i, S, J>,
    instance: &Instance,
    asked: &[Asked],
    text: &mut String,
) -> Result<(), NoMemory>
    requires same { J.problem ≡ instance.now }
    requires fits { Each (AskedFits instance.now) asked.now }
    requires new { drafting.old.asked ≡ [] }
    ensures calls { OnOk result (drafting.new ≡ record drafting.old {
      asked = remade instance.now drafting.old.base (edits_done asked.now);
    }) }
    ensures line { OnOk result (string_bytes text.new ≡ string_bytes text.old
        ++ redone_line instance.now drafting.old.base (edits_done asked.now)) }
    ensures kept { OnErr result (string_bytes text.new ≡ string_bytes text.old) }
    ensures planner { drafting.new.planner ≡ drafting.old.planner }
{
    let mut omitted = String::new(alloc);
    let redone = make_all_again(drafting, instance, asked, &mut omitted)?;
    let line = redone_text(alloc, &redone, omitted.as_str())?;
    Ok(text.push_str(line.as_str())?)
}

/// Adds the answer to a planner for whom no draft could be opened.
fn write_unread(
    instance: &Instance,
    fault: SharedFault,
    text: &mut String,
) -> Result<(), AllocError>
    ensures { OnOk result (string_bytes text.new
        ≡ string_bytes text.old ++ told_line instance.now (unread_answer fault)) }
{
    let told = match fault {
        SharedFault::NoPlace => SeatAnswer::NoPlace,
        _ => SeatAnswer::Answer(Answer::NoMemory),
    };
    write_seat_answer(text, instance, &told)
}

/// Opens a draft, redoes the accepted edits of calls in it, and adds the answer. If it cannot be
/// opened, or memory runs out, the calls can still be redone.
fn redo_calls<'i, S: Sheet<'i>, J: Naming>(
    alloc: Global,
    instance: &Instance,
    planner: Planner<S, J>,
    asked: AskedCalls,
    text: &mut String,
) -> (SeatState<'i, S, J>, Result<(), AllocError>)
    requires same { J.problem ≡ instance.now }
    requires fits { Each (AskedFits instance.now) asked }
    ensures answered { OnOk result.1 (AddsAnswer (RedoesCalls instance.now J.opening planner asked
        result.0) (string_bytes text.old) (string_bytes text.new)) }
    ensures unanswered { OnErr result.1
        ((leaver (seat_value result.0.seat)).committed ≡ planner.committed) }
    ensures fits { EndedFits instance.now result.0.ended }
{
    match planner.open() {
        Ok(drafting) => {
            let mut drafting = drafting;
            match redo_in(alloc, &mut drafting, instance, asked.as_slice(), text) {
                Ok(()) => {
                    drop_whole(asked);
                    let seat = Seat::Drafting(drafting);
                    (SeatState { seat, ended: None }, Ok(()))
                }
                Err(_) => {
                    let seat = Seat::Free(drafting.abandon());
                    let ended = Some(asked);
                    (SeatState { seat, ended }, write_no_memory(instance, text))
                }
            }
        }
        Err((planner, fault)) => {
            let written = write_unread(instance, fault, text);
            let (seat, ended) = (Seat::Free(planner), Some(asked));
            (SeatState { seat, ended }, written)
        }
    }
}

/// Redoes the edits of the draft that ended stale last, if no draft is open, and adds the answer.
/// Nothing is committed.
pub(crate) fn redo<'i, S: Sheet<'i>, J: Naming>(
    alloc: Global,
    instance: &Instance,
    place: SeatState<'i, S, J>,
    text: &mut String,
) -> (SeatState<'i, S, J>, Result<(), AllocError>)
    requires same { J.problem ≡ instance.now }
    requires fits { EndedFits instance.now place.ended }
    ensures answered { OnOk result.1 (AddsAnswer (Redoes instance.now J.opening place.entry.seat
        place.entry.ended result.0) (string_bytes text.old) (string_bytes text.new)) }
    ensures unanswered { OnErr result.1 (IsUncommitted place.entry result.0) }
    ensures fits { EndedFits instance.now result.0.ended }
{
    let SeatState { seat, ended } = place;
    match seat {
        Seat::Drafting(drafting) => {
            let seat = Seat::Drafting(drafting);
            let told = SeatAnswer::Answer(Answer::AlreadyOpen);
            (
                SeatState { seat, ended },
                write_seat_answer(text, instance, &told),
            )
        }
        Seat::Free(planner) => match ended {
            Some(asked) => redo_calls(alloc, instance, planner, asked, text),
            None => {
                let seat = Seat::Free(planner);
                (
                    SeatState { seat, ended: None },
                    text.push_str("nothing to redo\n"),
                )
            }
        },
    }
}
