//! Readers and writers with a failure mark, files by name, and the program's faults and outcomes.
#![tactic(auto)]

mod count;
mod device;
mod fault;
mod fault_line;
mod files;
mod input;
mod leaving;
mod outcome;
mod output;
mod refused;
mod sides;
mod sink;
mod source;
mod texts;

pub use count::Count;
pub use device::Device;
pub use fault::{ContentsFault, Fault, MachineFault, UsageFault};
pub use fault_line::NO_MEMORY;
pub use files::{FileInput, Files, SystemFiles, read_file, read_files};
pub use input::{INPUT_LIMIT, InputFault, read_all};
pub use leaving::Leaving;
pub use outcome::Outcome;
pub use output::{Output, deliver, print, write_stderr};
pub use sides::Sides;
pub use sink::{Sink, put_all, put_long, put_whole};
pub use source::{Failed, Source};
pub use texts::{fetch_instance, fetch_solution, fetch_start};
