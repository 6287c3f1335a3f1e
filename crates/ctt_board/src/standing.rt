//! Marks on the courses that have a lecture in a slot, after cells.

ghost use Rattle.std.specs.Prelude.{◌≡◌, ◌<◌, ◌==◌, ◌&&◌, ℕ, cond, is_some};
ghost use Rattle.std.specs.List.{AllByRecursion as Each};
ghost use Rattle.ctt_problem.specs.Marks.{is_marked};
ghost use Rattle.ctt_board.specs.Changes.{stands_by};

use crate::cell::Cell;
use ctt_problem::{Marks, SlotNo};

/// Marks or unmarks the course of a cell if the cell is in the slot.
fn change_if_there(standing: &mut Marks, cell: &Cell, slot: SlotNo)
    requires { cell.now.course < 2000 }
    ensures { (course : ℕ)
        → is_marked standing.new course
        ≡ cond (cell.now.course == course && cell.now.slot == slot) (is_some cell.now.room)
        (is_marked standing.old course) }
{
    if cell.slot == slot {
        let course = cell.course.get() as usize;
        match cell.room {
            None => standing.unmark(course),
            Some(_) => standing.mark(course),
        };
    }
}

/// Updates the marks on the courses in a slot by these cells.
pub(crate) fn change_standing(standing: &mut Marks, cells: &[Cell], slot: SlotNo)
    requires { Each (λ x. x.course < 2000) cells.now }
    ensures { (course : ℕ)
        → is_marked standing.new course
        ≡ stands_by cells.now course slot (is_marked standing.old course) }
{
    for cell in cells {
        change_if_there(standing, cell, slot);
    }
}
