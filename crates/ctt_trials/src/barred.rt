//! Rooms that are barred for courses.

use crate::cases::play_cases;
use crate::story::Story;
use crate::tables::{BARRED, OTHER_BARRED};
use ctt_text::{BarredFault, Instance, read_barred};
use std::sync::Wait;

/// Files that are refused, and one that bars room A for top.
const FILES: &[&str] = &[
    "",
    "Barred: 1 top",
    "Barred: 2 top A END.",
    "Barred: 1 top C END.",
    "Barred: 2000001",
    "Barred: x",
    "barred: 0 END.",
    "Barred: 0 END.",
    "Barred: 1 top A END.",
];

/// A file that bars room A for alg alone.
const OTHER_FILES: &[&str] = &["Barred: 1 alg A END."];

/// Parses a file of barred rooms, once more if memory runs out, which leaves the instance as it
/// was.
fn read(story: &mut Story, small: &mut Instance, text: &str) -> Option<BarredFault> {
    let told = read_barred(story.alloc(), small, text.as_bytes()).err();
    if told != Some(BarredFault::NoMemory) {
        return told;
    }
    story.call_again();
    read_barred(story.alloc(), small, text.as_bytes()).err()
}

/// Parses files, and records how each of them ends. A refused file leaves the instance as it was.
fn tell_read(story: &mut Story, small: &mut Instance, files: &[&str]) {
    for text in files {
        match read(story, small, text) {
            None => story.say("read"),
            Some(BarredFault::NoMemory) => story.no_memory(),
            Some(_) => story.say("refused"),
        }
        story.count("barred", u64::from(small.has_barred()));
    }
}

/// Runs cases before and after files of barred rooms.
pub(crate) fn play<R: Wait>(story: &mut Story, rt: &R, small: &mut Instance) {
    story.say("files of barred rooms");
    tell_read(story, small, FILES);
    play_cases(story, rt, small, BARRED);
    tell_read(story, small, OTHER_FILES);
    play_cases(story, rt, small, OTHER_BARRED);
}
