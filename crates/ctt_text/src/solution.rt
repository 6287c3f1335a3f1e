//! The text format of solutions.

mod free_slot;
mod lectures;
mod read;
mod write;

pub use read::read_solution;
pub use write::write_solution;
