//! Parsing and running scripts, writing their answers, and parsing and writing journals.
#![tactic(auto)]

mod amounts;
mod answers;
mod call_words;
mod calls;
mod engine;
mod items;
mod journal;
mod journal_fault;
pub mod journal_laws;
mod kinds;
mod lines;
mod offers;
mod patterns;
mod replies;
mod reply_words;
mod script;
mod script_fault;
mod single_words;
mod written;

pub use answers::{write_answer, write_bad_line};
pub use call_words::push_edit;
pub use ctt_files::{Device, Failed, InputFault, Sink, Source, read_all};
pub use engine::run_script;
pub use journal::{read_entry, read_journal};
pub use journal_fault::JournalFault;
pub use kinds::is_word;
pub use lines::{Lines, line_end};
pub use reply_words::{push_fault, write_costs, write_fault};
pub use script::{PLANNERS, has_words, read_line, read_own_line, read_own_text};
pub use script_fault::ScriptFault;
pub use written::{write_entry, write_journal};
