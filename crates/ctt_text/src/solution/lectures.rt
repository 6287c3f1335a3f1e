//! The lectures of a solution while it is parsed.

ghost use Rattle.std.specs.Prelude.{◌≡◌, ◌+◌, ◌*◌, ◌/◌, ◌%◌, ◌<◌, [], false, IfOk};
ghost use Rattle.ctt_problem.specs.Problem.{course_count, slot_count};
ghost use Rattle.ctt_problem.specs.Timetable.{Fits, has_lecture, with};

use ctt_problem::{Compact, CourseNo, Instance, Placed, RoomNo, SlotNo};
use std::alloc::{AllocError, Global};
use std::marker::Model;

/// Lectures of an instance, as a table: for each course in turn, its room in each slot in turn.
#[derive(Drop)]
pub(crate) struct Lectures<'a> {
    instance: &'a Instance,
    rooms: Vec<Compact>,
}

impl<'a> Model for Lectures<'a> {
    ghost use Rattle.std.specs.Prelude.{◌≡◌, ◌*◌, length};
    ghost use Rattle.ctt_problem.specs.Problem.{course_count, slot_count};
    ghost use Rattle.ctt_text.specs.Lectures.{Collected, listed};

    ghost Value = { Collected };

    ghost view = { λ l. record {
      problem = l.instance.now;
      list = listed (slot_count l.instance.now) 0 l.rooms.items;
    } };

    ghost invariant = { λ l. length l.rooms.items
        ≡ course_count l.instance.now * slot_count l.instance.now };
}

impl<'a> Lectures<'a> {
    /// Returns the table of no lectures.
    pub(crate) fn new(alloc: Global, instance: &'a Instance) -> Result<Self, AllocError>
        ensures { IfOk result (λ lectures. lectures ≡ record { problem = instance.now; list = [] }) }
    {
        instance.limits_hold();
        let mut rooms = Vec::new(alloc);
        rooms.resize(
            usize::from(instance.courses()) * usize::from(instance.slots()),
            Compact::none(),
        )?;
        Ok(Lectures { instance, rooms })
    }

    /// Returns the place in the table of a course and a slot.
    fn place(&self, course: CourseNo, slot: SlotNo) -> usize
        requires course { course < course_count self.now.problem }
        requires slot { slot < slot_count self.now.problem }
        ensures exact { result ≡ course * slot_count self.now.problem + slot }
        ensures within { result < course_count self.now.problem * slot_count self.now.problem }
    {
        self.instance.limits_hold();
        usize::from(course.get()) * usize::from(self.instance.slots()) + usize::from(slot.get())
    }

    /// Returns the lecture of a room at a place in the table.
    fn lecture(&self, place: usize, room: RoomNo) -> Placed
        requires { place < course_count self.now.problem * slot_count self.now.problem }
        ensures { result ≡ record {
          course = place / slot_count self.now.problem;
          slot = place % slot_count self.now.problem;
          room = room;
        } }
    {
        self.instance.limits_hold();
        let slots = usize::from(self.instance.slots());
        Placed {
            course: CourseNo::new((place / slots) as u16),
            slot: SlotNo::new((place % slots) as u16),
            room,
        }
    }

    /// Returns whether a course has a lecture in a slot.
    pub(crate) fn has(&self, course: CourseNo, slot: SlotNo) -> bool
        requires course { course < course_count self.now.problem }
        requires slot { slot < slot_count self.now.problem }
        ensures { result ≡ has_lecture course slot self.now.list }
    {
        let place = self.place(course, slot);
        self.rooms[place].room().is_some()
    }

    /// Adds a lecture. Its course must not have a lecture in its slot already.
    pub(crate) fn add(&mut self, lecture: Placed)
        requires fits { Fits self.old.problem lecture }
        requires free { has_lecture lecture.course lecture.slot self.old.list ≡ false }
        ensures problem { self.new.problem ≡ self.old.problem }
        ensures list { self.new.list ≡ with lecture self.old.list }
    {
        self.instance.limits_hold();
        let place = self.place(lecture.course, lecture.slot);
        self.rooms[place] = Compact::of_room(lecture.room);
    }

    /// Returns all lectures, ordered by course and then by slot.
    pub(crate) fn into_list(self, alloc: Global) -> Result<Vec<Placed>, AllocError>
        ensures { IfOk result (λ list. list.items ≡ self.entry.list) }
    {
        let mut list = Vec::new(alloc);
        for (place, cell) in self.rooms.iter().enumerate() {
            if let Some(room) = cell.room() {
                list.push(self.lecture(place, room))?;
            }
        }
        Ok(list)
    }
}
