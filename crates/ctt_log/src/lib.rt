//! The log of a desk on the disk: minutes, with the entry of each accepted draft, which is durable
//! before the draft is reported as accepted; and what is read of minutes that are cut.
#![tactic(auto)]

mod begun;
mod blocks;
mod durable;
pub mod log_laws;
mod log_writer;
mod write_ahead_log;

pub use begun::Begun;
pub use blocks::{Blocks, read_blocks};
pub use durable::Durable;
pub use log_writer::{Attempt, LogWriter};
pub use write_ahead_log::WriteAheadLog;
