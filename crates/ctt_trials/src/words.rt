//! The words of a run, as a job.

use ctt_words::{Job, WordsFault, read_words};
use std::alloc::Global;

/// The words of a run without options.
const WORDS: &[&str] = &["timedesk", "run", "small.ctt", "row9.txt"];

/// Returns whether a job is the run of these words, with none of its options.
fn is_run(job: &Job) -> bool {
    match job {
        Job::Run {
            instance,
            sides,
            script,
            start,
            journal,
        } => {
            instance.as_str() == "small.ctt"
                && sides.barred.is_none()
                && sides.blocked.is_none()
                && script.as_str() == "row9.txt"
                && start.is_none()
                && journal.is_none()
        }
        _ => false,
    }
}

/// Returns whether the words of a run ask for it, or `None` if memory ran out.
pub(crate) fn reads_run(alloc: Global) -> Option<bool> {
    match read_words(alloc, WORDS) {
        Ok(asked) => Some(is_run(&asked.job)),
        Err(WordsFault::NoMemory) => None,
        Err(_) => Some(false),
    }
}
