//! The counts of a timetable as a change would leave them. The timetable is unchanged, and nothing
//! is allocated.

ghost use Rattle.std.specs.Prelude.{◌≡◌, ◌<◌, ◌≤◌, ◌+◌, [], count_by, length, ◌==◌, ◌++◌, ◌∷◌};
ghost use Rattle.ctt_problem.specs.Problem.{course_count, slot_count, room_count, curriculum_count, members};
ghost use Rattle.ctt_problem.specs.Timetable.{Fits};
ghost use Rattle.ctt_grid.specs.CostDelta.{on_day, in_room, in_slot, gain_of};
ghost use Rattle.ctt_grid.specs.Counts.{HaveSizes};
ghost use Rattle.ctt_grid.specs.Seen.{seen_day, seen_room, seen_lectures, seen_curriculum, seen_days, seen_delta, NoneThere, OneThere};

use crate::cost_delta::{cost_delta, gain};
use crate::counts::Counts;
use arrayvec::ArrayVec;
use ctt_problem::{CourseNo, CurriculumNo, Instance, Placed, RoomNo, SlotNo};

/// The counts of a timetable, with the lectures that a change removes and adds.
#[derive(Drop)]
pub(crate) struct CountsAfter<'a> {
    pub(crate) base: &'a Counts,
    pub(crate) removed: ArrayVec<Placed, 4>,
    pub(crate) added: ArrayVec<Placed, 4>,
}

/// Returns how many of the lectures are of a course on a day.
fn on_day(instance: &Instance, lectures: &[Placed], course: CourseNo, day: u16) -> u64
    requires few { length lectures.now ≤ 4 }
    requires some { 0 < instance.now.periods }
    ensures value { result ≡ count_by (on_day instance.now course day) lectures.now }
    ensures bound { result ≤ 4 }
{
    let mut count = 0;
    for lecture in lectures {
        if lecture.course == course && lecture.slot.get() / instance.periods() == day {
            count += 1;
        }
    }
    count
}

/// Returns how many of the lectures are of a course in a room.
fn in_room(lectures: &[Placed], course: CourseNo, room: RoomNo) -> u64
    requires { length lectures.now ≤ 4 }
    ensures value { result ≡ count_by (in_room course room) lectures.now }
    ensures bound { result ≤ 4 }
{
    let mut count = 0;
    for lecture in lectures {
        if lecture.course == course && lecture.room == room {
            count += 1;
        }
    }
    count
}

/// Returns how many of the lectures are of a course.
fn of_course(lectures: &[Placed], course: CourseNo) -> u64
    requires { length lectures.now ≤ 4 }
    ensures value { result ≡ count_by (λ l. l.course == course) lectures.now }
    ensures bound { result ≤ 4 }
{
    let mut count = 0;
    for lecture in lectures {
        if lecture.course == course {
            count += 1;
        }
    }
    count
}

/// Returns whether a lecture is in a slot and its course belongs to a curriculum.
#[tactic(auto, using(crate::proofs::SeenLemmas::turned_and))]
fn is_in_slot(instance: &Instance, lecture: &Placed, curriculum: CurriculumNo, slot: SlotNo) -> bool
    requires { curriculum < curriculum_count instance.now }
    ensures { result ≡ in_slot (members instance.now curriculum) slot lecture.now }
{
    lecture.slot == slot && instance.members(curriculum).contains(&lecture.course)
}

/// Returns how many of the lectures are of a curriculum in a slot.
fn in_slot(instance: &Instance, lectures: &[Placed], curriculum: CurriculumNo, slot: SlotNo) -> u64
    requires few { length lectures.now ≤ 4 }
    requires curriculum { curriculum < curriculum_count instance.now }
    ensures value { result
        ≡ count_by (in_slot (members instance.now curriculum) slot) lectures.now }
    ensures bound { result ≤ 4 }
{
    let mut count = 0;
    for lecture in lectures {
        if is_in_slot(instance, lecture, curriculum, slot) {
            count += 1;
        }
    }
    count
}

impl<'a> CountsAfter<'a> {
    /// Returns the counts with no lecture removed or added.
    pub(crate) fn now(base: &'a Counts) -> Self
        ensures base { result.base.now ≡ base.now }
        ensures removed { result.removed.items ≡ [] }
        ensures added { result.added.items ≡ [] }
    {
        CountsAfter {
            base,
            removed: ArrayVec::new(),
            added: ArrayVec::new(),
        }
    }

    /// Returns the number of lectures of a course on a day.
    pub(crate) fn on_day(&self, instance: &Instance, course: CourseNo, day: u16) -> u64
        requires course { course < course_count instance.now }
        requires day { day < instance.now.days }
        requires some { 0 < instance.now.periods }
        requires sizes { HaveSizes instance.now self.now.base.now }
        ensures { result ≡ seen_day instance.now self.now course day }
    {
        let count = self.base.days.get(course.get() as usize, day as usize);
        let more = on_day(instance, &self.added, course, day);
        let less = on_day(instance, &self.removed, course, day);
        (u64::from(count) + more).saturating_sub(less)
    }

    /// Returns the number of lectures of a course in a room.
    pub(crate) fn in_room(&self, instance: &Instance, course: CourseNo, room: RoomNo) -> u64
        requires course { course < course_count instance.now }
        requires room { room < room_count instance.now }
        requires sizes { HaveSizes instance.now self.now.base.now }
        ensures { result ≡ seen_room self.now course room }
    {
        let count = self
            .base
            .rooms
            .get(course.get() as usize, room.get() as usize);
        let more = in_room(&self.added, course, room);
        let less = in_room(&self.removed, course, room);
        (u64::from(count) + more).saturating_sub(less)
    }

    /// Returns the number of lectures of a course.
    pub(crate) fn lectures(&self, instance: &Instance, course: CourseNo) -> u64
        requires course { course < course_count instance.now }
        requires sizes { HaveSizes instance.now self.now.base.now }
        ensures { result ≡ seen_lectures self.now course }
    {
        let count = self.base.lectures.get(0, course.get() as usize);
        let more = of_course(&self.added, course);
        let less = of_course(&self.removed, course);
        (u64::from(count) + more).saturating_sub(less)
    }

    /// Returns the number of days on which a course has a lecture.
    pub(crate) fn days(&self, instance: &Instance, course: CourseNo) -> u64
        requires course { course < course_count instance.now }
        requires some { 0 < instance.now.periods }
        requires sizes { HaveSizes instance.now self.now.base.now }
        ensures { result ≡ seen_days instance.now self.now course }
    {
        let mut count = 0;
        for day in 0..instance.days() {
            if self.on_day(instance, course, day) > 0 {
                count += 1;
            }
        }
        count
    }

    /// Returns the number of lectures of a curriculum in a slot.
    pub(crate) fn in_slot(&self, instance: &Instance, curriculum: CurriculumNo, slot: SlotNo) -> u64
        requires curriculum { curriculum < curriculum_count instance.now }
        requires slot { slot < slot_count instance.now }
        requires sizes { HaveSizes instance.now self.now.base.now }
        ensures value { result ≡ seen_curriculum instance.now self.now curriculum slot }
        ensures bound { result ≤ 5 }
    {
        let busy = self
            .base
            .curricula
            .is_marked(curriculum.get() as usize, slot.get() as usize);
        let more = in_slot(instance, &self.added, curriculum, slot);
        let less = in_slot(instance, &self.removed, curriculum, slot);
        (u64::from(busy) + more).saturating_sub(less)
    }

    /// Adds a lecture and returns what it adds to the penalty.
    pub(crate) fn add(&mut self, instance: &Instance, lecture: &Placed) -> i64
        requires fits { Fits instance.now lecture.now }
        requires sizes { HaveSizes instance.now self.old.base.now }
        requires room { length self.old.added.items < 4 }
        requires own { NoneThere instance.now self.old lecture.now }
        ensures gain { result ≡ gain_of (seen_delta instance.now self.old lecture.now) }
        ensures base { self.new.base.now ≡ self.old.base.now }
        ensures removed { self.new.removed.items ≡ self.old.removed.items }
        ensures added { self.new.added.items ≡ self.old.added.items ++ lecture.now ∷ [] }
    {
        let delta = cost_delta(self, instance, lecture);
        self.added.push(*lecture);
        gain(&delta)
    }

    /// Removes a lecture and returns what adding it again would add to the penalty.
    pub(crate) fn remove(&mut self, instance: &Instance, lecture: &Placed) -> i64
        requires fits { Fits instance.now lecture.now }
        requires sizes { HaveSizes instance.now self.old.base.now }
        requires room { length self.old.removed.items < 4 }
        requires own { OneThere instance.now self.old lecture.now }
        ensures gain { result ≡ gain_of (seen_delta instance.now self.new lecture.now) }
        ensures base { self.new.base.now ≡ self.old.base.now }
        ensures added { self.new.added.items ≡ self.old.added.items }
        ensures removed { self.new.removed.items ≡ self.old.removed.items ++ lecture.now ∷ [] }
    {
        self.removed.push(*lecture);
        gain(&cost_delta(self, instance, lecture))
    }
}
