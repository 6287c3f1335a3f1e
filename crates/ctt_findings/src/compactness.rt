//! The isolated lectures of curricula.

ghost use Rattle.std.specs.Prelude.{◌≡◌, ◌<◌, ◌++◌, ℕ, not, filter_map, OnOk};
ghost use Rattle.std.specs.List.{AllByRecursion as Each};
ghost use Rattle.ctt_problem.specs.Lists.{has};
ghost use Rattle.ctt_problem.specs.Marks.{is_marked};
ghost use Rattle.ctt_problem.specs.Problem.{curriculum_count, members};
ghost use Rattle.ctt_problem.specs.Timetable.{IsTimetable, Fits};
ghost use Rattle.ctt_rules.specs.Neighbours.{busy, is_beside};
ghost use Rattle.ctt_rules.specs.Penalty.{lectures_of};
ghost use Rattle.ctt_findings.specs.Findings.{compactness_finding, compactness_findings, compactness_of};

use crate::adding::push_some;
use crate::finding::Finding;
use crate::rows::Rows;
use ctt_problem::{CourseNo, CurriculumNo, Instance, Marks, NoMemory, Placed};
use ctt_rules::{count_alone, mark_slots};
use std::alloc::Global;
use std::slice::from_ref;

/// Marks the members of a curriculum.
fn members_of(instance: &Instance, curriculum: CurriculumNo) -> Marks
    requires { curriculum < curriculum_count instance.now }
    ensures { (c : ℕ) → is_marked result c ≡ has c (members instance.now curriculum) }
{
    instance.limits_hold();
    let mut courses = Marks::new();
    for course in instance.members(curriculum) {
        courses.mark(course.get() as usize);
    }
    courses
}

/// Marks the slots in which members of a curriculum have lectures.
fn slots_of(instance: &Instance, rows: &Rows<'_>, curriculum: CurriculumNo) -> Marks
    requires timetable { IsTimetable instance.now rows.now }
    requires curriculum { curriculum < curriculum_count instance.now }
    ensures { (s : ℕ) → is_marked result s
        ≡ busy (lectures_of (members instance.now curriculum) rows.now) s }
{
    let mut slots = Marks::new();
    for course in instance.members(curriculum) {
        mark_slots(instance, &mut slots, rows.row(instance, *course));
    }
    slots
}

/// Returns a finding of two points, if no slot next to a lecture's, on the same day, is marked.
fn alone(
    instance: &Instance,
    curriculum: CurriculumNo,
    slots: &Marks,
    lecture: &Placed,
) -> Option<Finding>
    requires { Fits instance.now lecture.now }
    ensures { result ≡ compactness_finding curriculum
        (not (is_beside instance.now (is_marked slots.now) lecture.now.slot)) lecture.now }
{
    if count_alone(instance, slots, from_ref(lecture)) == 0 {
        return None;
    }
    Some(Finding::Compactness(curriculum, *lecture, 2))
}

/// Adds the lectures of one course of a curriculum with no marked slot next to theirs.
fn push_alone(
    found: &mut Vec<Finding>,
    instance: &Instance,
    curriculum: CurriculumNo,
    slots: &Marks,
    row: &[Placed],
) -> Result<(), NoMemory>
    requires { Each (Fits instance.now) row.now }
    ensures { OnOk result (found.new.items ≡ found.old.items
        ++ filter_map (λ l. compactness_finding curriculum
        (not (is_beside instance.now (is_marked slots.now) l.slot)) l) row.now) }
{
    for lecture in row {
        push_some(found, alone(instance, curriculum, slots, lecture))?;
    }
    Ok(())
}

/// Adds the isolated lectures of one curriculum, course by course.
fn push_compactness_of(
    found: &mut Vec<Finding>,
    instance: &Instance,
    rows: &Rows<'_>,
    curriculum: CurriculumNo,
) -> Result<(), NoMemory>
    requires timetable { IsTimetable instance.now rows.now }
    requires curriculum { curriculum < curriculum_count instance.now }
    ensures { OnOk result (found.new.items
        ≡ found.old.items ++ compactness_of instance.now rows.now curriculum) }
{
    let courses = members_of(instance, curriculum);
    let slots = slots_of(instance, rows, curriculum);
    let mut from = 0;
    while let Some(number) = courses.next_between(from, instance.courses() as usize) {
        let row = rows.row(instance, CourseNo::new(number as u16));
        push_alone(found, instance, curriculum, &slots, row)?;
        from = number + 1;
    }
    Ok(())
}

/// Adds the isolated lectures of all curricula. The row of each course is looked up only once,
/// since a course may be in many curricula.
pub(crate) fn push_compactness(
    alloc: Global,
    found: &mut Vec<Finding>,
    instance: &Instance,
    timetable: &[Placed],
) -> Result<(), NoMemory>
    requires { IsTimetable instance.now timetable.now }
    ensures { OnOk result (found.new.items
        ≡ found.old.items ++ compactness_findings instance.now timetable.now) }
{
    let rows = Rows::of(alloc, instance, timetable)?;
    for number in 0..instance.curricula() {
        push_compactness_of(found, instance, &rows, CurriculumNo::new(number))?;
    }
    Ok(())
}
