//! Openings of desks that have a name.

ghost use Rattle.ctt_desk.specs.Names.{IsNameOf};

use crate::naming::Naming;
use crate::opened::Opened;
use ctt_board::Timetable;
use std::marker::PhantomData;

/// An opening and a number of planners, as the name of the desk gives them.
#[derive(Drop)]
pub struct Named<S: Timetable, J: Naming> {
    /// The opening.
    pub opened: Opened<S>,
    /// How many planners the desk has.
    pub count: u16,
    /// The desk's name.
    pub name: PhantomData<J>,
    ghost named: { IsNameOf J.problem J.opening J.planners J.book opened count },
}
