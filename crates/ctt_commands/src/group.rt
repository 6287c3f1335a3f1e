//! Solutions that are compared, by their instances.

use ctt_files::Fault;
use ctt_problem::{Instance, Placed};

/// A file that is compared: its name, and the timetable of its solution, or why it is refused.
#[derive(Drop)]
pub struct Candidate {
    pub file: String,
    pub solution: Result<Vec<Placed>, Fault>,
}

/// An instance, and the files that are compared as solutions of it.
#[derive(Drop)]
pub enum Group {
    /// The instance of the file `name`, and its solutions.
    Read {
        name: String,
        instance: Instance,
        candidates: Vec<Candidate>,
    },
    /// The file `name` is refused, and the files of its solutions are not read.
    Refused {
        name: String,
        fault: Fault,
        files: Vec<String>,
    },
}
