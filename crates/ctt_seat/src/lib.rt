//! A seat: a planner at a shared desk, with or without an open draft, the answers that he gets, and
//! the report of a desk that its planners have left.
#![tactic(auto)]

mod closing;
mod seat;
mod seat_answer;

pub use closing::{closing_report, end_desk};
pub use seat::{Seat, SeatAnswer};
pub use seat_answer::write_seat_answer;
