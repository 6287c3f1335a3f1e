//! The rules of curriculum-based course timetabling: what a timetable breaks, and what it costs.
#![tactic(auto)]

mod assessment;
mod compactness;
mod cost;
mod hard;
mod lawful;
mod row;
mod sharing;
mod slots;
mod soft;

pub use assessment::{Assessment, assess};
pub use cost::Cost;
pub use hard::{Hard, hard_counts};
pub use lawful::{is_complete, is_lawful};
pub use row::course_row;
pub use slots::{count_alone, mark_slots};
pub use soft::{course_cost, penalty};
