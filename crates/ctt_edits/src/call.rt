//! Calls: the requests of a planner.

ghost use Rattle.std.specs.Prelude.{◌↔◌, IsTrue};
ghost use Rattle.ctt_edits.specs.Calls.{CallFits};

use crate::edit::Edit;
use crate::looks::Look;
use ctt_problem::Instance;

/// A look or an edit.
#[derive(Clone, Copy, PartialEq, Eq)]
pub enum Call {
    /// A request that changes nothing.
    Look(Look),
    /// A request to change the timetable.
    Edit(Edit),
}

impl Call {
    /// Returns whether its numbers are those of the instance.
    pub fn fits(&self, instance: &Instance) -> bool
        ensures { IsTrue result ↔ CallFits instance.now self.now }
    {
        match self {
            Call::Look(look) => look.fits(instance),
            Call::Edit(edit) => edit.fits(instance),
        }
    }
}
