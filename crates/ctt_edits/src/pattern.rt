//! Patterns: edits in which a part is left open.

ghost use Rattle.std.specs.Prelude.{◌≡◌, ◌↔◌, IsTrue};
ghost use Rattle.ctt_problem.specs.Problem.{slot_count, room_count};
ghost use Rattle.ctt_edits.specs.Patterns.{FitsIfGiven, IsRoomIfGiven, PatternFits, given_or_all};
ghost use Rattle.ctt_edits.specs.Candidates.{from_to, edit_by, first_choices, second_choices};

use crate::edit::Edit;
use ctt_problem::{CourseNo, Instance, RoomNo, SlotNo};
use std::ops::Range;

/// The word that stands for any room, slot or lecture in the text of a pattern.
const ANY: &str = "*";

/// An edit in which the new slot, the room or the other lecture may be left open. It stands for all
/// edits that fill in the open parts.
#[derive(Clone, Copy, PartialEq, Eq)]
pub enum Pattern {
    /// Places a lecture of the course in the slot, or any slot, and the room, or any room.
    Place(CourseNo, Option<SlotNo>, Option<RoomNo>),
    /// Moves the lecture of the course in the first slot to the second slot, or any slot, and the
    /// room, or any room.
    Move(CourseNo, SlotNo, Option<SlotNo>, Option<RoomNo>),
    /// Exchanges slot and room between the lecture of the course in the slot and any other lecture.
    Swap(CourseNo, SlotNo),
    /// Moves the lecture of the course in the slot to the room, or any room, in the same slot.
    Reroom(CourseNo, SlotNo, Option<RoomNo>),
}

/// Returns whether a slot, if it is given, is one of the instance.
fn slot_fits(instance: &Instance, slot: &Option<SlotNo>) -> bool
    ensures { IsTrue result ↔ FitsIfGiven (slot_count instance.now) slot.now }
{
    match slot {
        Some(slot) => slot.fits(instance),
        None => true,
    }
}

/// Returns whether a room, if it is given, is one of the instance and not named `*`.
fn room_fits(instance: &Instance, room: &Option<RoomNo>) -> bool
    ensures { IsTrue result ↔ IsRoomIfGiven instance.now room.now }
{
    match room {
        Some(room) => room.fits(instance) && instance.room_name(*room) != ANY,
        None => true,
    }
}

/// Returns the number of the given slot, or those of all slots if none is given.
fn slot_choices(instance: &Instance, slot: Option<SlotNo>) -> Range<u16>
    requires { FitsIfGiven (slot_count instance.now) slot }
    ensures { from_to result.start result.end ≡ given_or_all (slot_count instance.now) slot }
{
    let end = instance.slots();
    match slot {
        Some(slot) => slot.get()..slot.get() + 1,
        None => 0..end,
    }
}

/// Returns the number of the given room, or those of all rooms if none is given.
fn room_choices(instance: &Instance, room: Option<RoomNo>) -> Range<u16>
    requires { IsRoomIfGiven instance.now room }
    ensures { from_to result.start result.end ≡ given_or_all (room_count instance.now) room }
{
    let end = instance.rooms();
    match room {
        Some(room) => room.get()..room.get() + 1,
        None => 0..end,
    }
}

impl Pattern {
    /// Returns whether its numbers are those of the instance, and a given room is not named `*`.
    pub fn fits(&self, instance: &Instance) -> bool
        ensures { IsTrue result ↔ PatternFits instance.now self.now }
    {
        match self {
            Pattern::Place(course, slot, room) => {
                course.fits(instance) && slot_fits(instance, slot) && room_fits(instance, room)
            }
            Pattern::Move(course, slot, target, room) => {
                course.fits(instance)
                    && slot.fits(instance)
                    && slot_fits(instance, target)
                    && room_fits(instance, room)
            }
            Pattern::Swap(course, slot) => course.fits(instance) && slot.fits(instance),
            Pattern::Reroom(course, slot, room) => {
                course.fits(instance) && slot.fits(instance) && room_fits(instance, room)
            }
        }
    }

    /// Returns the numbers of the slots, or of a swap's other courses.
    pub(crate) fn first_choices(&self, instance: &Instance) -> Range<u16>
        requires { PatternFits instance.now self.now }
        ensures { from_to result.start result.end ≡ first_choices instance.now self.now }
    {
        match *self {
            Pattern::Place(_, slot, _) | Pattern::Move(_, _, slot, _) => slot_choices(
                instance, slot,
            ),
            Pattern::Swap(..) => 0..instance.courses(),
            Pattern::Reroom(_, slot, _) => slot_choices(instance, Some(slot)),
        }
    }

    /// Returns the numbers of the rooms, or of a swap's other slots.
    pub(crate) fn second_choices(&self, instance: &Instance) -> Range<u16>
        requires { PatternFits instance.now self.now }
        ensures { from_to result.start result.end ≡ second_choices instance.now self.now }
    {
        match *self {
            Pattern::Place(_, _, room)
            | Pattern::Move(_, _, _, room)
            | Pattern::Reroom(_, _, room) => room_choices(instance, room),
            Pattern::Swap(..) => 0..instance.slots(),
        }
    }

    /// Returns the edit that fills it in with these choices.
    pub(crate) fn edit(&self, first: u16, second: u16) -> Edit
        ensures { result ≡ edit_by self.now first second }
    {
        match *self {
            Pattern::Place(course, ..) => Edit::Place(
                course,
                SlotNo::new(first),
                RoomNo::new(second),
            ),
            Pattern::Move(course, slot, ..) => {
                Edit::Move(course, slot, SlotNo::new(first), RoomNo::new(second))
            }
            Pattern::Swap(course, slot) => {
                Edit::Swap(course, slot, CourseNo::new(first), SlotNo::new(second))
            }
            Pattern::Reroom(course, ..) => {
                Edit::Reroom(course, SlotNo::new(first), RoomNo::new(second))
            }
        }
    }
}
