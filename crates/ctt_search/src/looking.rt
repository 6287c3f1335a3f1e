//! Look-ups on a sheet by any numbers, for guesses.

ghost use Rattle.std.specs.Prelude.{◌≡◌};

use ctt_board::Sheet;
use ctt_problem::{CourseNo, RoomNo, SlotNo};

/// Returns the course whose lecture has a room in a slot, if there is one.
pub(crate) fn holder<'i, S: Sheet<'i>>(sheet: &S, slot: SlotNo, room: RoomNo) -> Option<CourseNo> {
    let instance = sheet.instance();
    if slot.fits(instance) && room.fits(instance) {
        sheet.holder(slot, room)
    } else {
        None
    }
}

/// Returns the room of the lecture of a course in a slot, if there is one.
pub(crate) fn room_of<'i, S: Sheet<'i>>(
    sheet: &S,
    course: CourseNo,
    slot: SlotNo,
) -> Option<RoomNo> {
    let instance = sheet.instance();
    if course.fits(instance) && slot.fits(instance) {
        sheet.room_at(course, slot)
    } else {
        None
    }
}

/// Returns whether lectures of a course are missing.
pub(crate) fn is_short<'i, S: Sheet<'i>>(sheet: &S, course: CourseNo) -> bool {
    let instance = sheet.instance();
    course.fits(instance) && sheet.count(course) < instance.lectures(course)
}
