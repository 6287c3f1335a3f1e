//! The side files of an instance.

/// The side files of an instance, by name: what they say is not in the instance's own file. A file
/// that is not given says nothing.
#[derive(Drop)]
pub struct Sides {
    /// The file of the rooms that are barred for courses.
    pub barred: Option<String>,
    /// The file of the slots in which rooms, teachers and courses are blocked.
    pub blocked: Option<String>,
}
