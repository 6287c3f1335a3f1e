//! A script that is read from a device: its answers as they are written, and its journal, also if
//! the answers cannot be flushed.

ghost use Rattle.std.specs.Prelude.{IfOk};
ghost use Rattle.ctt_script.specs.Entries.{IsWritable};

use crate::cases::{Script, SeatAnswer};
use crate::desks::tell_desk;
use crate::journals::tell_journal;
use crate::story::Story;
use ctt_core::Desk;
use ctt_files::Device;
use ctt_grid::GridSheet;
use ctt_script::{ScriptFault, run_script};
use ctt_text::drop_whole;

/// Runs the lines of a script, and records the answers.
fn ran<'i>(script: &Script<'i>, story: &mut Story) -> Result<Desk<'i, GridSheet<'i>>, ScriptFault>
    ensures { IfOk result (λ desk. IsWritable script.now.small.now desk.journal) }
{
    let mut reader = Device::new(script.lines.as_bytes());
    run_script(
        story.alloc(),
        script.small,
        script.opening,
        &mut reader,
        story,
    )
}

/// Records what a desk has, or only the length of its answers, which begin at this offset, and its
/// journal.
fn tell_left<'i>(
    desk: &Desk<'i, GridSheet<'i>>,
    entries: usize,
    story: &mut Story,
    told: &SeatAnswer,
    script: &Script<'i>,
    here: usize,
)
    requires { IsWritable script.now.small.now desk.now.journal }
{
    if matches!(told, SeatAnswer::Journal) {
        story.measure(here);
        tell_journal::<GridSheet>(script, story, desk.journal());
    } else {
        tell_desk(desk, entries, story);
    }
}

/// Returns how many bytes of the answers are taken.
fn room_for(told: &SeatAnswer) -> usize {
    match told {
        SeatAnswer::Cut => 3,
        _ => usize::MAX,
    }
}

/// Runs a script, and records its answers and what it leaves, or only their length and its journal.
pub(crate) fn play(script: &Script, story: &mut Story, told: &SeatAnswer) {
    let here = story.len();
    story.is_deaf = matches!(told, SeatAnswer::Unflushed);
    story.room = room_for(told);
    match ran(script, story) {
        Ok(desk) => {
            let entries = desk.journal().len();
            tell_left(&desk, entries, story, told, script, here);
            drop_whole(desk);
        }
        Err(ScriptFault::Unlawful(at, fault)) => story.unlawful(script.small, at, fault),
        Err(ScriptFault::Write) => {
            if matches!(told, SeatAnswer::Cut) {
                story.bytes(b"\n");
            }
            story.say("not passed on");
        }
        Err(_fault) => story.no_memory(),
    }
}
