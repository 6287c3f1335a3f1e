//! A crew: planners who run their scripts on threads at one shared desk, and their answers.
#![tactic(auto)]

mod attending;
mod closing;
mod crew_fault;
mod crew_run;
mod gate;
pub mod seen_laws;

pub use crew_fault::CrewFault;
pub use crew_run::crew;
pub use gate::{Gate, NoGate};
