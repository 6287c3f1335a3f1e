//! The program, a job for each command: from the words of the command line to the exit status.
#![tactic(auto)]

mod desk;
mod jobs;
mod office;
mod words;

pub use ctt_words::{Asked, Job, WordsFault, read_words};
pub use jobs::program;
pub use office::{Office, SystemOffice};
pub use words::serve;
