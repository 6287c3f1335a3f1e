//! Closures: slots in which rooms, teachers and courses are blocked.

use crate::cases::play_cases;
use crate::story::Story;
use crate::tables::{blocked, closed, swapped};
use ctt_text::{BlockedFault, Instance, read_blocked};
use std::sync::Wait;

/// Files that are refused, one with nothing, and one that blocks room B in the second period of
/// the first day, and top in that of the second.
const FILES: &[&str] = &[
    "",
    "Blocked: 1 room A 0",
    "blocked: 0 END.",
    "Blocked: 1 rooms A 0 1 END.",
    "Blocked: 0 room A 0 1 END.",
    "Blocked: *",
    "Blocked: 1 room A x 1 END.",
    "Blocked: 2000001",
    "Blocked: 1 room C x 9 END.",
    "Blocked: 1 teacher A 0 1 END.",
    "Blocked: 1 room A 2 x END.",
    "Blocked: 1 room A * 3 END.",
    "Blocked: 0 END.",
    "Blocked: 2 room B 0 1 course top 1 1 END.",
    "Blocked: 1 room A 9 9 END.",
];

/// A file that blocks a room, a teacher and a course where the solution has lectures.
const OTHER_FILES: &[&str] = &["Blocked: 3 room A 0 0 teacher t1 1 * course top 0 2 END."];

/// A file that blocks the rooms of the solution in other slots.
const SWAP_FILES: &[&str] = &["Blocked: 3 room A 0 2 room B 0 1 room A 0 2 END."];

/// A file that blocks nothing.
const LAST_FILES: &[&str] = &["Blocked: 0 END."];

/// Edits beside what is blocked, and into it.
pub(crate) const BLOCKED_ROOM: &str = "0 open
0 place top B 0 1
0 place top B 1 1
0 place top A 0 1
0 reroom geo B 0 1
0 move geo 1 2 A 1 1
0 move geo 0 1 B 1 2
0 price move geo 1 2 B 0 1
0 move geo 1 1 B 0 1
0 place top B 0 2
0 commit
";

/// The cheapest edits of patterns beside what is blocked.
pub(crate) const BLOCKED_PATTERNS: &str = "cheapest 10 place top * * *
cheapest 10 place top * 0 1
cheapest 10 reroom geo * 0 1
cheapest 10 move geo 1 2 B * *
price reroom geo B 0 1
place top B 0 1
";

/// Parses a file of closures, once more if memory runs out, which leaves the instance as it was.
fn read(story: &mut Story, small: &mut Instance, text: &str) -> Option<BlockedFault> {
    let told = read_blocked(story.alloc(), small, text.as_bytes()).err();
    if told != Some(BlockedFault::NoMemory) {
        return told;
    }
    story.call_again();
    read_blocked(story.alloc(), small, text.as_bytes()).err()
}

/// Parses files, and records how each of them ends. A refused file leaves the instance as it was.
fn tell_read(story: &mut Story, small: &mut Instance, files: &[&str]) {
    for text in files {
        match read(story, small, text) {
            None => story.say("read"),
            Some(BlockedFault::NoMemory) => story.no_memory(),
            Some(_) => story.say("refused"),
        }
        story.count("blocked", u64::from(small.has_blocked()));
    }
}

/// Runs cases behind files of closures. In the end nothing is blocked.
pub(crate) fn play<R: Wait>(story: &mut Story, rt: &R, small: &mut Instance) {
    story.say("files of closures");
    tell_read(story, small, FILES);
    play_cases(story, rt, small, blocked());
    tell_read(story, small, OTHER_FILES);
    play_cases(story, rt, small, closed());
    tell_read(story, small, SWAP_FILES);
    play_cases(story, rt, small, swapped());
    tell_read(story, small, LAST_FILES);
}
