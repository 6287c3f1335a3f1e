//! The text formats of instances, barred rooms and closures.

mod barred;
mod blocked;
mod closing;
mod courses;
mod curricula;
mod header;
mod instance_words;
mod members;
mod read;
mod rooms;
mod unavailability;

pub use barred::read_barred;
pub use blocked::read_blocked;
pub use read::read_instance;
