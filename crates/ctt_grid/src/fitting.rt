//! The test whether a change fits a lawful timetable.

ghost use Rattle.std.specs.Prelude.{◌≡◌, is_none};
ghost use Rattle.ctt_problem.specs.Timetable.{Fits};
ghost use Rattle.ctt_board.specs.Fitting.{is_known, obstacle, can_place, cell_fits, fits};

use ctt_board::{After, Cell, Change, Rooms, first_clash};
use ctt_problem::{Instance, Placed};

/// Returns whether the course, slot and room of a lecture are numbers of the instance.
fn is_known(instance: &Instance, lecture: &Placed) -> bool
    ensures { result ≡ is_known instance.now lecture.now }
{
    lecture.course.get() < instance.courses()
        && (lecture.slot.get() < instance.slots() && lecture.room.get() < instance.rooms())
}

/// Returns whether nothing keeps a lecture from its place.
fn is_free<R: Rooms>(instance: &Instance, rooms: &R, lecture: &Placed) -> bool
    requires same { R.problem rooms.now ≡ instance.now }
    requires fits { Fits instance.now lecture.now }
    ensures { result ≡ is_none (obstacle instance.now (R.list rooms.now) lecture.now.course
        lecture.now.slot lecture.now.room) }
{
    let course = lecture.course;
    let slot = lecture.slot;
    rooms.room_at(course, slot).is_none()
        && rooms.count(course) < instance.lectures(course)
        && !instance.unavailable(course, slot)
        && !instance.barred(course, lecture.room)
        && !instance.blocked(lecture.room, slot)
        && first_clash(instance, rooms, course, slot).is_none()
        && rooms.holder(slot, lecture.room).is_none()
}

/// Returns whether a lecture can be added.
#[tactic(auto, using(crate::proofs::FitLemmas::fits_of))]
fn can_place<R: Rooms>(instance: &Instance, rooms: &R, lecture: &Placed) -> bool
    requires same { R.problem rooms.now ≡ instance.now }
    ensures { result ≡ can_place instance.now (R.list rooms.now) lecture.now }
{
    is_known(instance, lecture) && is_free(instance, rooms, lecture)
}

/// Returns whether the lecture of a cell can be added or removed.
fn cell_fits<R: Rooms>(instance: &Instance, rooms: &R, cell: &Cell) -> bool
    requires same { R.problem rooms.now ≡ instance.now }
    ensures { result
        ≡ cell_fits instance.now (R.list rooms.now) cell.now.course cell.now.slot cell.now.room }
{
    rooms.lawful();
    let course = cell.course;
    let slot = cell.slot;
    match cell.room {
        None => {
            course.get() < instance.courses()
                && (slot.get() < instance.slots() && rooms.room_at(course, slot).is_some())
        }
        Some(room) => can_place(instance, rooms, &Placed { course, slot, room }),
    }
}

/// Returns whether each cell of a change can be made after the earlier ones. Allocates nothing.
pub(crate) fn fits<R: Rooms>(instance: &Instance, rooms: &R, change: &Change) -> bool
    requires same { R.problem rooms.now ≡ instance.now }
    ensures { result ≡ fits instance.now change.now (R.list rooms.now) }
{
    rooms.lawful();
    let cells = change.cells();
    for (number, cell) in cells.iter().enumerate() {
        let after = After::new(instance, rooms, &cells[..number]);
        if !cell_fits(instance, &after, cell) {
            return false;
        }
    }
    true
}
