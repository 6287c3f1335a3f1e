//! Trials: the program, called over files in memory, and then the worked cases, run through the
//! calls of the crates below. The answer of each call is printed. A call that wants memory is made
//! again on the same values, where it left them as they were; otherwise its case is run anew. At
//! the end the numbers of both are printed. All that is printed before is the same, whichever one
//! request for memory is refused.
#![tactic(auto)]

mod barred;
mod blocked;
mod buffer;
mod called;
mod calls;
mod cases;
mod desks;
mod drafts;
mod files;
mod journals;
mod offered;
mod office;
mod scripts;
mod shared;
mod sheets;
mod shown;
mod story;
mod tables;
mod texts;
mod turns;
mod words;
mod worked;

use cases::play_cases;
use ctt_files::{Device, INPUT_LIMIT, read_all};
use ctt_text::{Instance, ReadFault, drop_whole, read_instance};
use std::alloc::Global;
use std::process::ExitCode;
use std::sync::Wait;
use story::{Story, repeated};
use tables::{of_texts, on_desks, on_shared_desks, on_sheets, refreshed_desks, refusing_desks};
use texts::SMALL;

/// Reads and parses the small instance.
fn small_instance(story: &mut Story) -> Option<Instance> {
    let alloc = story.alloc();
    let text = read_all(alloc, &mut Device::new(SMALL.as_bytes()), INPUT_LIMIT).ok()?;
    repeated!(story, ReadFault::NoMemory, read_instance(alloc, &text)).ok()
}

/// Runs all cases.
fn play<R: Wait>(story: &mut Story, rt: &R) {
    match small_instance(story) {
        Some(mut small) => {
            play_cases(story, rt, &small, on_sheets());
            play_cases(story, rt, &small, on_desks());
            play_cases(story, rt, &small, refreshed_desks());
            play_cases(story, rt, &small, refusing_desks());
            play_cases(story, rt, &small, of_texts());
            play_cases(story, rt, &small, on_shared_desks());
            blocked::play(story, rt, &mut small);
            barred::play(story, rt, &mut small);
            drop_whole(small);
        }
        None => story.no_memory(),
    }
}

/// Creates the transcript.
fn new_story(alloc: Global) -> Option<Story> {
    match Story::new(alloc) {
        Some(story) => Some(story),
        None => {
            let mut story = Story::new(alloc)?;
            story.call_again();
            Some(story)
        }
    }
}

fn main(rt: HostRuntime) -> ExitCode {
    let mut out = Device::new(rt.stdout());
    let Ok(repeated) = called::play(&rt, &mut out) else {
        return ExitCode::from(3);
    };
    let Some(mut story) = new_story(rt.alloc()) else {
        return ExitCode::from(3);
    };
    if repeated {
        story.call_again();
    }
    play(&mut story, &rt);
    if story.takes_back(0) {
        play(&mut story, &rt);
    }
    ExitCode::from(if story.write(&mut out) { 0 } else { 3 })
}
