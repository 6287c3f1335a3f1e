//! The pairs of lectures in one slot whose courses clash.

ghost use Rattle.std.specs.Prelude.{◌≡◌, ◌<◌, ◌++◌, filter_map, OnOk};
ghost use Rattle.std.specs.List.{AllByRecursion as Each};
ghost use Rattle.ctt_problem.specs.Marks.{is_marked};
ghost use Rattle.ctt_problem.specs.Problem.{course_count};
ghost use Rattle.ctt_problem.specs.Timetable.{IsTimetable, Fits};
ghost use Rattle.ctt_findings.specs.Findings.{cause, common_curriculum, conflict_finding, conflict_findings, conflicts_of};

use crate::adding::push_some;
use crate::finding::{Cause, Finding};
use ctt_problem::{CourseNo, CurriculumNo, Instance, Marks, NoMemory, Placed};
use ctt_rules::{course_row, hard_counts, mark_slots};

/// Returns the least curriculum that has both courses, or the number of curricula if none has.
fn common_curriculum(instance: &Instance, course: CourseNo, other: CourseNo) -> CurriculumNo
    requires { course < course_count instance.now }
    ensures { result ≡ common_curriculum instance.now course other }
{
    for curriculum in instance.curricula_of(course) {
        if instance.members(*curriculum).contains(&other) {
            return *curriculum;
        }
    }
    CurriculumNo::new(instance.curricula())
}

/// Returns why two courses clash: their common teacher, or else the least curriculum that has both.
fn cause(instance: &Instance, course: CourseNo, other: CourseNo) -> Cause
    requires course { course < course_count instance.now }
    requires other { other < course_count instance.now }
    ensures { result ≡ cause instance.now course other }
{
    let teacher = instance.teacher(course);
    if teacher == instance.teacher(other) {
        return Cause::Teacher(teacher);
    }
    Cause::Curriculum(common_curriculum(instance, course, other))
}

/// Returns a finding, if a lecture is in one of the slots of a course that clashes with its own.
fn conflict(
    instance: &Instance,
    course: CourseNo,
    slots: &Marks,
    lecture: &Placed,
) -> Option<Finding>
    requires course { course < course_count instance.now }
    requires lecture { Fits instance.now lecture.now }
    ensures { result ≡ conflict_finding instance.now course (is_marked slots.now) lecture.now }
{
    if !slots.is_marked(lecture.slot.get() as usize) {
        return None;
    }
    let cause = cause(instance, course, lecture.course);
    Some(Finding::Conflict(course, lecture.course, lecture.slot, cause))
}

/// Adds the lectures in one of the slots of a course that clashes with theirs.
fn push_between(
    found: &mut Vec<Finding>,
    instance: &Instance,
    course: CourseNo,
    slots: &Marks,
    row: &[Placed],
) -> Result<(), NoMemory>
    requires course { course < course_count instance.now }
    requires fits { Each (Fits instance.now) row.now }
    ensures { OnOk result (found.new.items ≡ found.old.items
        ++ filter_map (conflict_finding instance.now course (is_marked slots.now)) row.now) }
{
    for lecture in row {
        push_some(found, conflict(instance, course, slots, lecture))?;
    }
    Ok(())
}

/// Adds the conflicts of a course with the courses after it.
fn push_conflicts_of(
    found: &mut Vec<Finding>,
    instance: &Instance,
    timetable: &[Placed],
    course: CourseNo,
) -> Result<(), NoMemory>
    requires timetable { IsTimetable instance.now timetable.now }
    requires course { course < course_count instance.now }
    ensures { OnOk result (found.new.items
        ≡ found.old.items ++ conflicts_of instance.now timetable.now course) }
{
    instance.limits_hold();
    let mut slots = Marks::new();
    mark_slots(
        instance,
        &mut slots,
        course_row(instance, timetable, course),
    );
    let clashing = instance.clashing(course);
    let mut from = course.get() as usize + 1;
    while let Some(number) = clashing.next_between(from, instance.courses() as usize) {
        let row = course_row(instance, timetable, CourseNo::new(number as u16));
        push_between(found, instance, course, &slots, row)?;
        from = number + 1;
    }
    Ok(())
}

/// Adds the conflicts of each course with the courses after it.
fn push_all_conflicts(
    found: &mut Vec<Finding>,
    instance: &Instance,
    timetable: &[Placed],
) -> Result<(), NoMemory>
    requires { IsTimetable instance.now timetable.now }
    ensures { OnOk result (found.new.items
        ≡ found.old.items ++ conflict_findings instance.now timetable.now) }
{
    for number in 0..instance.courses() {
        push_conflicts_of(found, instance, timetable, CourseNo::new(number))?;
    }
    Ok(())
}

/// Adds the pairs of lectures in one slot whose courses clash. If their count is zero, no search is
/// made.
pub(crate) fn push_conflicts(
    found: &mut Vec<Finding>,
    instance: &Instance,
    timetable: &[Placed],
) -> Result<(), NoMemory>
    requires { IsTimetable instance.now timetable.now }
    ensures { OnOk result (found.new.items
        ≡ found.old.items ++ conflict_findings instance.now timetable.now) }
{
    if hard_counts(instance, timetable).conflicts == 0 {
        return Ok(());
    }
    push_all_conflicts(found, instance, timetable)
}
