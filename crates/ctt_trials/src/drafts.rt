//! Drafts without a desk.

ghost use Rattle.std.specs.Prelude.{◌≡◌, IfOk};

use crate::cases::{On, Script};
use crate::sheets::{call_of, empty, opened, tell_cells, tell_sheet};
use crate::story::{Story, repeated};
use ctt_board::Sheet;
use ctt_core::Answer;
use ctt_draft::{Draft, replay};
use ctt_edits::Reply;
use ctt_text::{NoMemory, drop_whole};

/// Opens a draft on a sheet.
fn open<'i, S: Sheet<'i>>(story: &mut Story, sheet: &S) -> Result<Draft<'i, S>, NoMemory>
    ensures { IfOk result (λ draft. draft.problem ≡ S.problem sheet.now) }
{
    let alloc = story.alloc();
    repeated!(story, NoMemory, Draft::open(alloc, sheet))
}

/// Makes the call of a line in a draft, once more if memory runs out.
fn ask<'i, S: Sheet<'i>>(
    draft: &mut Draft<'i, S>,
    story: &mut Story,
    line: &str,
) -> Result<Reply, NoMemory>
    ensures { draft.new.problem ≡ draft.old.problem }
{
    let Some(call) = call_of(draft.instance(), line.as_bytes()) else {
        return Err(NoMemory);
    };
    let asked = &call;
    match draft.call(*asked) {
        Ok(reply) => Ok(reply),
        Err(NoMemory) => {
            story.call_again();
            draft.call(*asked)
        }
    }
}

/// Makes the call of a line in a draft, and records the answer.
fn tell_asked<'i, S: Sheet<'i>>(draft: &mut Draft<'i, S>, story: &mut Story, line: &str)
    ensures { draft.new.problem ≡ draft.old.problem }
{
    let small = draft.instance();
    let told = ask(draft, story, line);
    story.reply(small, told);
}

/// Places geo and drops it again in a draft, a thousand calls in all, and records the length of the
/// answers.
fn ask_often<'i, S: Sheet<'i>>(draft: &mut Draft<'i, S>, story: &mut Story)
    ensures { draft.new.problem ≡ draft.old.problem }
{
    let here = story.len();
    for turn in 0..500u64 {
        tell_asked(draft, story, "place geo A 0 1");
        tell_asked(draft, story, "drop geo 0 1");
    }
    story.measure(here);
}

/// Records whether a draft is stale against a sheet.
fn tell_stale<'i, S: Sheet<'i>>(draft: &Draft<'i, S>, story: &mut Story, sheet: &S)
    requires { S.problem sheet.now ≡ draft.now.problem }
{
    match draft.stale(sheet) {
        Ok(Some(row)) => story.answer(sheet.instance(), Answer::Stale(row)),
        Ok(None) => story.say("not stale"),
        Err(NoMemory) => story.no_memory(),
    }
}

/// Makes the changes of a draft on a copy of another sheet.
fn tell_replayed<'i, S: Sheet<'i>>(draft: &Draft<'i, S>, story: &mut Story, sheet: &S) {
    match repeated!(story, NoMemory, sheet.copy()) {
        Ok(mut copy) => {
            story.count("replayed", u64::from(replay(draft.changes(), &mut copy)));
            tell_sheet(story, &copy);
        }
        Err(NoMemory) => story.no_memory(),
    }
}

/// Records the cells that undo a draft, and the numbers of its changes and calls.
fn tell_work<'i, S: Sheet<'i>>(draft: &Draft<'i, S>, story: &mut Story) {
    tell_cells(story, draft.undo());
    story.count("changes", draft.changes().len() as u64);
    story.count("calls", draft.asked().len() as u64);
}

/// Ends a draft, and settles it on a sheet unless it is stale there.
fn settle<'i, S: Sheet<'i>>(draft: Draft<'i, S>, story: &mut Story, sheet: &mut S)
    requires { S.problem sheet.old ≡ draft.problem }
{
    match draft.stale(sheet) {
        Ok(None) => {
            let work = draft.finish();
            story.count("calls", work.asked.len() as u64);
            story.count("changes", work.changes.len() as u64);
            work.settle(sheet);
            drop_whole(work);
            tell_sheet(story, sheet);
        }
        _ => {
            drop_whole(draft);
            story.no_memory();
        }
    }
}

/// Makes the calls of a draft on an empty sheet: a thousand, or a look at a slot and a placement of
/// geo, while another sheet has top in that slot.
fn ask_all<'i, S: Sheet<'i>>(
    draft: &mut Draft<'i, S>,
    story: &mut Story,
    on: &On,
    sheet: &S,
    other: &S,
)
    requires own { S.problem sheet.now ≡ draft.old.problem }
    requires other { S.problem other.now ≡ draft.old.problem }
    ensures { draft.new.problem ≡ draft.old.problem }
{
    if matches!(on, On::LongDraft) {
        return ask_often(draft, story);
    }
    tell_asked(draft, story, "slot 0 2");
    tell_asked(draft, story, "place geo A 0 1");
    tell_stale(draft, story, sheet);
    tell_stale(draft, story, other);
    tell_replayed(draft, story, other);
}

/// Runs a draft on an empty sheet, where it is settled. Another sheet has the lectures of a script.
fn one_draft<'i, S: Sheet<'i>>(story: &mut Story, on: &On, sheet: &mut S, other: &S)
    requires { S.problem other.now ≡ S.problem sheet.old }
{
    let Ok(mut draft) = open(story, sheet) else {
        return story.no_memory();
    };
    ask_all(&mut draft, story, on, sheet, other);
    tell_work(&draft, story);
    settle(draft, story, sheet);
}

/// Runs a draft on an empty sheet, with another sheet that has the lectures of a script.
pub(crate) fn play<'i, S: Sheet<'i>>(script: &Script<'i>, story: &mut Story, on: &On) {
    let Ok(mut sheet) = empty::<S>(story, script.small) else {
        return story.no_memory();
    };
    let Ok(other) = opened::<S>(story, script) else {
        return story.no_memory();
    };
    one_draft(story, on, &mut sheet, &other);
}
