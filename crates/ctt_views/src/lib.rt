//! Views of a timetable: its weeks as plain text, and the whole as one self-contained HTML page.
#![tactic(auto)]

mod body;
mod cell;
mod cells;
mod closures;
mod column;
mod columns;
mod escape;
mod finding_places;
mod grid;
mod grids;
mod heading;
mod items;
mod options;
mod page;
mod page_head;
pub mod page_laws;
mod parts;
mod phrases;
mod ranking;
mod report;
mod script;
mod sections;
mod selection;
mod sentence_lines;
mod sentences;
mod signs;
mod spot;
mod style;
mod table;
mod view;
mod week;

pub use grid::Grid;
pub use options::{GridKind, PageOptions};
pub use page::page_text;
pub use selection::Selection;
pub use sentence_lines::sentences_text;
pub use table::week_text;
