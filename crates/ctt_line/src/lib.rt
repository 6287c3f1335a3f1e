//! Lines of words, of which every text of the desk consists.
#![tactic(auto)]

mod line;
mod word;

pub use line::{push_line, push_words};
pub use word::Word;
