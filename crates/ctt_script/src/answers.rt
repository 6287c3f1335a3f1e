//! Writing replies and answers as lines.

ghost use Rattle.std.specs.Prelude.{◌≡◌, ◌++◌, ◌∷◌, OnOk, flat_map, length, string_bytes};
ghost use Rattle.std.specs.List.{AllByRecursion as Each};
ghost use Rattle.std.specs.Fmt.{decimal};
ghost use Rattle.ctt_line.specs.Lines.{line};
ghost use Rattle.ctt_edits.specs.Fitting.{ReplyFits};
ghost use Rattle.ctt_script.specs.AnswerText.{answer_words, bad_line};
ghost use Rattle.ctt_script.specs.Entries.{AnswerFits};
ghost use Rattle.ctt_script.specs.WrittenWords.{reply_words};

use crate::items::Item;
use crate::reply_words::{push_fault, write_costs, write_stale, write_status};
use ctt_core::Answer;
use ctt_edits::Reply;
use ctt_line::{Word, push_line, push_words};
use ctt_text::Instance;
use std::alloc::AllocError;

/// Adds the line of a list: its keyword, the number of its items, and the words of each.
#[tactic(auto, using(crate::proofs::WrittenText::items_end))]
fn write_items<T: Item>(
    text: &mut String,
    kind: &str,
    instance: &Instance,
    items: &[T],
) -> Result<(), AllocError>
    requires { Each (T.fits instance.now) items.now }
    ensures { OnOk result (string_bytes text.new ≡ string_bytes text.old ++ line (kind.now
        ∷ decimal (length items.now) ∷ flat_map (T.words instance.now) items.now)) }
{
    text.push_str(kind)?;
    push_words(text, &[Word::number(items.len() as u64)])?;
    for item in items {
        item.push(text, instance)?;
    }
    text.push('\n')
}

/// Adds the line of a reply.
#[tactic(auto, using(crate::proofs::WrittenText::after_blank))]
pub(crate) fn write_reply(
    text: &mut String,
    instance: &Instance,
    reply: &Reply,
) -> Result<(), AllocError>
    requires { ReplyFits instance.now reply.now }
    ensures { OnOk result (string_bytes text.new
        ≡ string_bytes text.old ++ line (reply_words instance.now reply.now)) }
{
    match reply {
        Reply::Done => text.push_str("done\n"),
        Reply::Refused(fault) => {
            text.push_str("refused ")?;
            push_fault(text, instance, fault)?;
            text.push('\n')
        }
        Reply::Lectures(lectures) => write_items(text, "lectures", instance, lectures.as_slice()),
        Reply::Costs(cost) => write_costs(text, cost),
        Reply::Price(price) => push_line(text, &[Word::text("price"), Word::amount(*price)]),
        Reply::Missing(courses) => write_items(text, "missing", instance, courses.as_slice()),
        Reply::Edits(edits) => write_items(text, "prices", instance, edits.as_slice()),
        Reply::Slots(offers) => write_items(text, "slots", instance, offers.as_slice()),
    }
}

/// Adds the line of an answer.
pub fn write_answer(
    text: &mut String,
    instance: &Instance,
    answer: &Answer,
) -> Result<(), AllocError>
    requires { AnswerFits instance.now answer.now }
    ensures { OnOk result (string_bytes text.new
        ≡ string_bytes text.old ++ line (answer_words instance.now answer.now)) }
{
    match answer {
        Answer::Opened => text.push_str("opened\n"),
        Answer::AlreadyOpen => text.push_str("already open\n"),
        Answer::NoDraft => text.push_str("no draft\n"),
        Answer::Replied(reply) => write_reply(text, instance, reply),
        Answer::Draft(status) => write_status(text, instance, status),
        Answer::Committed(number) => {
            push_line(text, &[Word::text("committed"), Word::number(*number)])
        }
        Answer::Refreshed => text.push_str("refreshed\n"),
        Answer::Stale(row) => write_stale(text, instance, row),
        Answer::Abandoned => text.push_str("abandoned\n"),
        Answer::NoMemory => text.push_str("no memory\n"),
    }
}

/// Adds `bad line`, the answer to a line that is not an event.
pub fn write_bad_line(text: &mut String) -> Result<(), AllocError>
    ensures { OnOk result (string_bytes text.new ≡ string_bytes text.old ++ bad_line) }
{
    text.push_str("bad line\n")
}
