//! Changes to a timetable.

ghost use Rattle.std.specs.Prelude.{◌≡◌, true, false};
ghost use Rattle.ctt_board.specs.Changes.{in_turn, is_change, change_of};

use crate::cell::Cell;
use arrayvec::ArrayVec;
use std::marker::Model;

/// A change to a timetable: at most four cells, removals before additions.
#[derive(Drop)]
pub struct Change {
    cells: ArrayVec<Cell, 4>,
}

impl Model for Change {
    ghost use Rattle.std.specs.Prelude.{List, ◌≡◌, true};
    ghost use Rattle.ctt_board.specs.declared.cell.Cell.{Cell};

    ghost Value = { List Cell };

    ghost use Rattle.ctt_board.specs.Changes.{is_change};

    ghost view = { λ c. c.cells.items };

    ghost invariant = { λ c. is_change c.cells.items ≡ true };
}

/// Returns whether no removal follows an addition.
fn are_in_turn(cells: &[Cell]) -> bool
    ensures { result ≡ in_turn false cells.now }
{
    let mut added = false;
    for cell in cells {
        if added && cell.room.is_none() {
            return false;
        }
        added = cell.room.is_some();
    }
    true
}

impl Change {
    /// Returns the change of these cells, or `None` if there are more than four or a removal
    /// follows an addition.
    pub fn of(cells: &[Cell]) -> Option<Change>
        ensures { result ≡ change_of cells.now }
    {
        if !are_in_turn(cells) {
            return None;
        }
        let mut kept = ArrayVec::new();
        if kept.try_extend_from_slice(cells).is_err() {
            return None;
        }
        Some(Change { cells: kept })
    }

    /// Returns the cells, in order.
    pub fn cells(&self) -> &[Cell]
        ensures value { result.now ≡ self.now }
        ensures in_turn { is_change self.now ≡ true }
    {
        self.cells.as_slice()
    }
}
