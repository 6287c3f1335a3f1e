//! Opening timetables.

ghost use Rattle.std.specs.Prelude.{◌≡◌, Ok, IfOk, IfErr};
ghost use Rattle.std.specs.List.{AllByRecursion as Each};
ghost use Rattle.ctt_problem.specs.Timetable.{Fits};
ghost use Rattle.ctt_edits.specs.Edits.{edit_fault};
ghost use Rattle.ctt_edits.specs.declared.edit.Edit.TheVariants.{Place};
ghost use Rattle.ctt_edits.specs.Openings.{opening};
ghost use Rattle.ctt_core.specs.Openings.{IsDeskFault, IsPlaced};

use crate::desk_fault::DeskFault;
use ctt_board::{Rooms, Sheet, Timetable};
use ctt_edits::{Edit, EditFault, check};
use ctt_problem::{Instance, NoMemory, Placed};
use std::alloc::Global;

/// Places a lecture, or returns the fault that prevents it.
fn place<'i, S: Sheet<'i>>(sheet: &mut S, lecture: &Placed) -> Option<EditFault>
    requires { Fits (S.problem sheet.old) lecture.now }
    ensures fault { result ≡ edit_fault (S.problem sheet.old) (S.list sheet.old)
        (Place lecture.now.course lecture.now.slot lecture.now.room) }
    ensures problem { S.problem sheet.new ≡ S.problem sheet.old }
    ensures list { IsPlaced (S.list sheet.old) (S.list sheet.new) lecture.now result }
{
    let edit = Edit::Place(lecture.course, lecture.slot, lecture.room);
    let checked = check(sheet, &edit);
    match checked {
        Ok(change) => {
            sheet.apply(&change);
            None
        }
        Err(fault) => Some(fault),
    }
}

/// Returns a sheet on which the lectures are placed in the given order. Fails at the first lecture
/// that cannot be placed.
pub fn place_all<'i, S: Sheet<'i>>(
    alloc: Global,
    instance: &'i Instance,
    lectures: &[Placed],
) -> Result<S, DeskFault>
    requires { Each (Fits instance.now) lectures.now }
    ensures problem { IfOk result (λ sheet. S.problem sheet ≡ instance.now) }
    ensures list { IfOk result (λ sheet. opening instance.now lectures.now ≡ Ok (S.list sheet)) }
    ensures fault { IfErr result (IsDeskFault instance.now lectures.now) }
{
    let mut sheet: S = S::empty(alloc, instance)?;
    for (at, lecture) in lectures.iter().enumerate() {
        let fault = place(&mut sheet, lecture);
        if let Some(fault) = fault {
            return Err(DeskFault::Unlawful(at as u64 + 1, fault));
        }
    }
    Ok(sheet)
}
