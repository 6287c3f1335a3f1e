//! An instance that is spelled in two ways, and compared by all that its readers tell.

use crate::small::{SMALL_LATER, SMALL_SPACED, small_instance};
use crate::stopped::Stopped;
use ctt_text::{
    CourseNo, CurriculumNo, Instance, RoomNo, SlotNo, TeacherNo, drop_whole, read_instance,
};
use std::alloc::Global;

/// Returns whether two instances have the same name and as many of each thing.
fn same_counts(one: &Instance, other: &Instance) -> bool {
    one.name() == other.name()
        && one.courses() == other.courses()
        && one.rooms() == other.rooms()
        && one.teachers() == other.teachers()
        && one.curricula() == other.curricula()
        && one.days() == other.days()
        && one.periods() == other.periods()
        && one.slots() == other.slots()
}

/// Returns whether a course is the same in two instances, its slots aside.
fn same_course(one: &Instance, other: &Instance, course: CourseNo) -> bool {
    if !course.fits(one) || !course.fits(other) {
        return false;
    }
    one.course_name(course) == other.course_name(course)
        && one.teacher(course) == other.teacher(course)
        && one.lectures(course) == other.lectures(course)
        && one.min_days(course) == other.min_days(course)
        && one.students(course) == other.students(course)
}

/// Returns whether a course is unavailable in the same slots of two instances.
fn same_slots(one: &Instance, other: &Instance, course: CourseNo) -> bool {
    for slot in 0..one.slots() {
        let slot = SlotNo::new(slot);
        let fits = slot.fits(one) && slot.fits(other) && course.fits(one) && course.fits(other);
        if !fits || one.unavailable(course, slot) != other.unavailable(course, slot) {
            return false;
        }
    }
    true
}

/// Returns whether a room is the same in two instances.
fn same_room(one: &Instance, other: &Instance, room: RoomNo) -> bool {
    room.fits(one)
        && room.fits(other)
        && one.room_name(room) == other.room_name(room)
        && one.capacity(room) == other.capacity(room)
}

/// Returns whether a teacher has the same name in two instances.
fn same_teacher(one: &Instance, other: &Instance, teacher: TeacherNo) -> bool {
    teacher.fits(one)
        && teacher.fits(other)
        && one.teacher_name(teacher) == other.teacher_name(teacher)
}

/// Returns whether a curriculum has the same name and the same members, in the same order, in two
/// instances.
fn same_curriculum(one: &Instance, other: &Instance, curriculum: CurriculumNo) -> bool {
    curriculum.fits(one)
        && curriculum.fits(other)
        && one.curriculum_name(curriculum) == other.curriculum_name(curriculum)
        && one.members(curriculum) == other.members(curriculum)
}

/// Returns whether two instances are the same.
fn are_same(one: &Instance, other: &Instance) -> bool {
    let mut are_same = same_counts(one, other)
        && one.has_barred() == other.has_barred()
        && one.has_blocked() == other.has_blocked();
    for course in 0..one.courses() {
        let course = CourseNo::new(course);
        are_same = are_same && same_course(one, other, course) && same_slots(one, other, course);
    }
    for room in 0..one.rooms() {
        are_same = are_same && same_room(one, other, RoomNo::new(room));
    }
    for teacher in 0..one.teachers() {
        are_same = are_same && same_teacher(one, other, TeacherNo::new(teacher));
    }
    for curriculum in 0..one.curricula() {
        are_same = are_same && same_curriculum(one, other, CurriculumNo::new(curriculum));
    }
    are_same
}

/// Returns whether a text spells an instance.
fn spells(alloc: Global, text: &str, wanted: &Instance) -> Result<bool, Stopped> {
    let read = read_instance(alloc, text.as_bytes()).or(Err(Stopped::TextRefused))?;
    let is_same = are_same(&read, wanted);
    drop_whole(read);
    Ok(is_same)
}

#[test]
fn layout_is_not_part_of_an_instance(rt: HostRuntime) -> Result<(), Stopped> {
    let small = small_instance(rt.alloc())?;
    let spaced = spells(rt.alloc(), SMALL_SPACED, &small);
    let later = spells(rt.alloc(), SMALL_LATER, &small);
    drop_whole(small);
    assert!(rt; spaced?);
    assert!(rt; !later?);
    Ok(())
}
