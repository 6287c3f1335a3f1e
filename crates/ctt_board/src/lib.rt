//! Changes to lawful timetables, and the traits that sheets implement.
#![tactic(auto)]

mod after;
mod cell;
mod change;
pub mod change_laws;
mod clashes;
mod sheet;
mod standing;

pub use after::{After, last_room};
pub use cell::Cell;
pub use change::Change;
pub use clashes::{first_clash, first_clash_without};
pub use sheet::{Rooms, Sheet, Timetable};
