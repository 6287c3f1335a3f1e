//! The names of desks.

use std::marker::Brand;

/// The name of a desk. A desk, its planners, their drafts and the receipts share one name, so none
/// of them can be used with another desk. A caller that passes `Brand` chooses what the name says.
pub trait Naming {
    ghost use Rattle.std.specs.Prelude.{ℕ, List};
    ghost use Rattle.logbook.specs.Pages.{Book};
    ghost use Rattle.ctt_problem.specs.Problem.{Problem};
    ghost use Rattle.ctt_problem.specs.declared.placed.Placed.{Placed};

    /// The instance whose courses are timetabled.
    ghost problem: { Problem };

    /// The lectures with which the desk opened.
    ghost opening: { List Placed };

    /// How many planners the desk has.
    ghost planners: { ℕ };

    /// The logbook of the desk's history.
    ghost book: { Book };
}

impl Naming for Brand {
    ghost use Rattle.std.specs.Prelude.{[]};
    ghost use Rattle.ctt_desk.specs.Names.{nothing};

    ghost problem = { nothing };

    ghost opening = { [] };

    ghost planners = { 0 };

    ghost book = { record { number = 0; log_name = 0; cells_name = 0 } };
}
