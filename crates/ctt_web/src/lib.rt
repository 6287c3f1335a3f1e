//! The checks of the program as a module for web pages: a page passes files as bytes, and gets what
//! the program prints of them. Nothing here opens a file, and no memory is used but the heap.
#![tactic(auto)]

mod answers;
mod asked;
mod border;
mod files;
mod names;
mod wanted;

pub use asked::{Asked, FileParts, Part};
pub use border::Reply;
