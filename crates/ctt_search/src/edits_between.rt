//! The edits that lead from one timetable to another.

ghost use Rattle.std.specs.Prelude.{◌≡◌, ◌++◌, ◌∷◌, [], map, IfOk, OnOk};
ghost use Rattle.std.specs.List.{AllByRecursion as Each};
ghost use Rattle.ctt_problem.specs.Timetable.{Fits};
ghost use Rattle.ctt_search.specs.Between.{stands_in, only_in, drop_of, place_of, edits_between, Leads};

use crate::search_laws;
use ctt_board::Sheet;
use ctt_edits::Edit;
use ctt_problem::{NoMemory, Placed};
use std::alloc::Global;

/// Appends an element to a list.
fn add<T: Copy>(list: &mut Vec<T>, one: &T) -> Result<(), NoMemory>
    ensures { OnOk result (list.new.items ≡ list.old.items ++ one.now ∷ []) }
{
    list.push(*one)?;
    Ok(())
}

/// Returns whether a lecture stands on a sheet, in its slot and room.
fn stands<'i, S: Sheet<'i>>(sheet: &S, lecture: &Placed) -> bool
    requires { Fits (S.problem sheet.now) lecture.now }
    ensures { result ≡ stands_in (S.list sheet.now) lecture.now }
{
    sheet.room_at(lecture.course, lecture.slot) == Some(lecture.room)
}

/// Appends the edits that drop the lectures that do not stand so on a sheet.
fn add_drops<'i, S: Sheet<'i>>(
    sheet: &S,
    lectures: &[Placed],
    edits: &mut Vec<Edit>,
) -> Result<(), NoMemory>
    requires { Each (Fits (S.problem sheet.now)) lectures.now }
    ensures { OnOk result (edits.new.items
        ≡ edits.old.items ++ map drop_of (only_in lectures.now (S.list sheet.now))) }
{
    for lecture in lectures {
        if !stands(sheet, lecture) {
            add(edits, &Edit::Drop(lecture.course, lecture.slot))?;
        }
    }
    Ok(())
}

/// Appends the edits that place the lectures that do not stand so on a sheet.
fn add_places<'i, S: Sheet<'i>>(
    sheet: &S,
    lectures: &[Placed],
    edits: &mut Vec<Edit>,
) -> Result<(), NoMemory>
    requires { Each (Fits (S.problem sheet.now)) lectures.now }
    ensures { OnOk result (edits.new.items
        ≡ edits.old.items ++ map place_of (only_in lectures.now (S.list sheet.now))) }
{
    for lecture in lectures {
        if !stands(sheet, lecture) {
            add(
                edits,
                &Edit::Place(lecture.course, lecture.slot, lecture.room),
            )?;
        }
    }
    Ok(())
}

/// Returns the edits that lead from the start to a proposal: the lectures that do not stand so in
/// the proposal are dropped, and then those that do not stand so in the start are placed. Made in
/// turn on the start as the calls of a draft, each fits at its turn, and together they leave the
/// proposal.
pub fn edits_of<'i, S: Sheet<'i>>(
    start: &S,
    proposed: &S,
    alloc: Global,
) -> Result<Vec<Edit>, NoMemory>
    requires { S.problem proposed.now ≡ S.problem start.now }
    ensures value { IfOk result (λ edits.
        edits.items ≡ edits_between (S.list start.now) (S.list proposed.now)) }
    ensures leads { IfOk result (λ edits.
        Leads (S.problem start.now) (S.list start.now) edits.items (S.list proposed.now)) }
{
    start.lawful();
    proposed.lawful();
    search_laws::edits_lead();
    let mut edits = Vec::new(alloc);
    let before = start.list()?;
    let after = proposed.list()?;
    add_drops(proposed, before.as_slice(), &mut edits)?;
    add_places(start, after.as_slice(), &mut edits)?;
    Ok(edits)
}
