//! Edits and looks: a planner's requests to a timetable, and the replies to them.
#![tactic(auto)]

mod call;
mod cheapest;
mod checking;
mod edit;
pub mod edit_laws;
mod fault;
mod lectures;
mod looks;
mod missing;
mod offer;
mod offering;
mod pattern;
mod priced_edit;
mod pricing;
mod reading;
mod reply;
mod row;
mod rows_read;
mod shortfall;
mod showing;
mod slot_pattern;

pub use call::Call;
pub use checking::check;
pub use edit::Edit;
pub use fault::EditFault;
pub use lectures::Lectures;
pub use looks::Look;
pub use offer::{Offer, Offers};
pub use pattern::Pattern;
pub use priced_edit::{PricedEdit, PricedEdits};
pub use pricing::price;
pub use reading::reads;
pub use reply::Reply;
pub use row::Row;
pub use rows_read::RowsRead;
pub use shortfall::{Shortfall, Shortfalls};
pub use showing::look;
pub use slot_pattern::SlotPattern;
