//! The reports and the text of a timetable, and an input that is read whole.

use crate::cases::{Script, read_lectures};
use crate::story::{Story, repeated};
use ctt_files::{Device, InputFault, read_all};
use ctt_findings::{report_json, report_text};
use ctt_text::{NoMemory, write_solution};

/// Records both reports on a timetable.
pub(crate) fn play_reports(script: &Script, story: &mut Story) {
    let alloc = story.alloc();
    let text = repeated!(
        story,
        NoMemory,
        report_text(alloc, script.small, script.opening)
    );
    story.text(text);
    let json = repeated!(
        story,
        NoMemory,
        report_json(alloc, None, script.small, script.opening)
    );
    story.text(json);
}

/// Records whether a text is parsed as the timetable.
fn tell_read(script: &Script, story: &mut Story, text: &[u8]) {
    match read_lectures(story, script.small, text) {
        Ok(read) => {
            if read.as_slice() == script.opening {
                story.say("read again: the same");
            }
        }
        Err(_fault) => story.no_memory(),
    }
}

/// Writes a timetable, and parses it again.
pub(crate) fn play_written(script: &Script, story: &mut Story) {
    let alloc = story.alloc();
    match repeated!(
        story,
        NoMemory,
        write_solution(alloc, script.small, script.opening)
    ) {
        Ok(text) => {
            story.bytes(&text);
            tell_read(script, story, &text);
        }
        Err(_no_memory) => story.no_memory(),
    }
}

/// Reads an input of at most four bytes.
pub(crate) fn play_input(script: &Script, story: &mut Story) {
    match read_all(story.alloc(), &mut Device::new(script.lines.as_bytes()), 4) {
        Ok(bytes) => {
            story.bytes(&bytes);
            story.say("");
        }
        Err(InputFault::TooLong) => story.say("too long"),
        Err(InputFault::Read) => story.say("not read"),
        Err(InputFault::NoMemory) => story.no_memory(),
    }
}
