//! The two kinds of sheet: one stores its lectures in tables, the other in a list.
#![tactic(auto)]

mod bound_laws;
mod compactness_delta;
mod cost_delta;
mod counts;
mod counts_after;
mod courses_in_slot;
mod delta;
mod fitting;
mod grid_sheet;
mod list_sheet;
mod table;
mod tables;
mod tally;

pub use grid_sheet::GridSheet;
pub use list_sheet::ListSheet;
