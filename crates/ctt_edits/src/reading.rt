//! The rows that calls read, as marks on courses and slots.

ghost use Rattle.std.specs.Prelude.{◌≡◌, ◌<◌, ◌≤◌, ◌==◌, ◌||◌, ◌∷◌, [], ℕ, true, IfOk};
ghost use Rattle.std.specs.List.{list_any, AllByRecursion as Each};
ghost use Rattle.ctt_problem.specs.Lists.{has};
ghost use Rattle.ctt_problem.specs.Marks.{is_marked};
ghost use Rattle.ctt_problem.specs.Problem.{course_of, course_count, slot_count, teacher_count, mates};
ghost use Rattle.ctt_edits.specs.Calls.{CallFits, with_mates, is_choice, pattern_reads_course, pattern_reads_slot, edit_courses, edit_slots, look_reads_course, look_reads_slot, reads_course, reads_slot, reads};
ghost use Rattle.ctt_edits.specs.Edits.{EditFits};
ghost use Rattle.ctt_edits.specs.Looks.{LookFits};
ghost use Rattle.ctt_edits.specs.Patterns.{FitsIfGiven, PatternFits};

use crate::call::Call;
use crate::edit::Edit;
use crate::looks::Look;
use crate::pattern::Pattern;
use crate::row::Row;
use crate::rows_read::RowsRead;
use ctt_problem::{CourseNo, Instance, Marks, NoMemory, SlotNo, TeacherNo};
use std::alloc::Global;

fn mark_course(instance: &Instance, course: CourseNo, marks: &mut Marks)
    requires { course < course_count instance.now }
    ensures { (n : ℕ) → is_marked marks.new n ≡ (is_marked marks.old n || has n (course ∷ [])) }
{
    instance.limits_hold();
    marks.mark(course.get() as usize);
}

fn mark_slot(instance: &Instance, slot: SlotNo, marks: &mut Marks)
    requires { slot < slot_count instance.now }
    ensures { (n : ℕ) → is_marked marks.new n ≡ (is_marked marks.old n || has n (slot ∷ [])) }
{
    instance.limits_hold();
    marks.mark(slot.get() as usize);
}

/// Marks these courses.
pub(crate) fn mark_courses(instance: &Instance, courses: &[CourseNo], marks: &mut Marks)
    requires { Each (λ c. c < course_count instance.now) courses.now }
    ensures { (n : ℕ) → is_marked marks.new n ≡ (is_marked marks.old n || has n courses.now) }
{
    instance.limits_hold();
    for course in courses {
        marks.mark(course.get() as usize);
    }
}

/// Marks the curriculum mates of a course.
fn mark_mates(instance: &Instance, course: CourseNo, marks: &mut Marks)
    requires { course < course_count instance.now }
    ensures { (n : ℕ) → is_marked marks.new n
        ≡ (is_marked marks.old n || mates instance.now course n) }
{
    for curriculum in instance.curricula_of(course) {
        mark_courses(instance, instance.members(*curriculum), marks);
    }
}

/// Marks the courses of a teacher.
pub(crate) fn mark_taught(instance: &Instance, teacher: TeacherNo, marks: &mut Marks)
    requires { teacher < teacher_count instance.now }
    ensures marked { (n : ℕ) → n < course_count instance.now
        → is_marked marks.new n
        ≡ (is_marked marks.old n || (course_of instance.now n).teacher == teacher) }
    ensures past { (n : ℕ) → course_count instance.now ≤ n
        → is_marked marks.new n ≡ is_marked marks.old n }
{
    mark_courses(instance, instance.taught_by(teacher), marks);
}

/// Marks all courses.
fn mark_all(instance: &Instance, marks: &mut Marks)
    ensures marked { (n : ℕ) → n < course_count instance.now
        → is_marked marks.new n ≡ (is_marked marks.old n || true) }
    ensures past { (n : ℕ) → course_count instance.now ≤ n
        → is_marked marks.new n ≡ is_marked marks.old n }
{
    marks.mark_below(instance.courses() as usize);
}

fn mark_courses_of_edit(instance: &Instance, edit: &Edit, marks: &mut Marks)
    requires { EditFits instance.now edit.now }
    ensures { (n : ℕ) → is_marked marks.new n
        ≡ (is_marked marks.old n || has n (edit_courses edit.now)) }
{
    match *edit {
        Edit::Swap(course, _, other, _) => mark_courses(instance, &[course, other], marks),
        Edit::Place(course, ..)
        | Edit::Move(course, ..)
        | Edit::Reroom(course, ..)
        | Edit::Drop(course, _) => mark_course(instance, course, marks),
    }
}

/// Marks the curriculum mates of the courses of an edit.
fn mark_mates_of_edit(instance: &Instance, edit: &Edit, marks: &mut Marks)
    requires { EditFits instance.now edit.now }
    ensures { (n : ℕ) → is_marked marks.new n
        ≡ (is_marked marks.old n
        || list_any (λ c. mates instance.now c n) (edit_courses edit.now)) }
{
    match *edit {
        Edit::Swap(course, _, other, _) => {
            mark_mates(instance, course, marks);
            mark_mates(instance, other, marks);
        }
        Edit::Place(course, ..)
        | Edit::Move(course, ..)
        | Edit::Reroom(course, ..)
        | Edit::Drop(course, _) => mark_mates(instance, course, marks),
    }
}

/// Marks the courses whose rows a price reads.
fn mark_courses_of_price(instance: &Instance, edit: &Edit, marks: &mut Marks)
    requires { EditFits instance.now edit.now }
    ensures { (n : ℕ) → is_marked marks.new n
        ≡ (is_marked marks.old n || with_mates instance.now (edit_courses edit.now) n) }
{
    mark_courses_of_edit(instance, edit, marks);
    mark_mates_of_edit(instance, edit, marks);
}

/// Marks a course and its curriculum mates.
fn mark_with_mates(instance: &Instance, course: CourseNo, marks: &mut Marks)
    requires { course < course_count instance.now }
    ensures marked { (n : ℕ) → is_marked marks.new n
        ≡ (is_marked marks.old n || with_mates instance.now (course ∷ []) n) }
    ensures past { (n : ℕ) → course_count instance.now ≤ n
        → is_marked marks.new n ≡ is_marked marks.old n }
{
    instance.limits_hold();
    mark_course(instance, course, marks);
    mark_mates(instance, course, marks);
}

/// Marks the courses whose rows the prices of a pattern's edits read.
fn mark_courses_of_pattern(instance: &Instance, pattern: &Pattern, marks: &mut Marks)
    requires { PatternFits instance.now pattern.now }
    ensures marked { (n : ℕ) → n < course_count instance.now
        → is_marked marks.new n
        ≡ (is_marked marks.old n || pattern_reads_course instance.now pattern.now n) }
    ensures past { (n : ℕ) → course_count instance.now ≤ n
        → is_marked marks.new n ≡ is_marked marks.old n }
{
    match *pattern {
        Pattern::Place(course, ..) | Pattern::Move(course, ..) | Pattern::Reroom(course, ..) => {
            mark_with_mates(instance, course, marks)
        }
        Pattern::Swap(..) => mark_all(instance, marks),
    }
}

/// Marks all slots.
fn mark_all_slots(instance: &Instance, marks: &mut Marks)
    ensures marked { (n : ℕ) → n < slot_count instance.now
        → is_marked marks.new n ≡ (is_marked marks.old n || true) }
    ensures past { (n : ℕ) → slot_count instance.now ≤ n
        → is_marked marks.new n ≡ is_marked marks.old n }
{
    marks.mark_below(instance.slots() as usize);
}

/// Marks the given slot, or all slots if none is given.
fn mark_slot_choice(instance: &Instance, slot: Option<SlotNo>, marks: &mut Marks)
    requires { FitsIfGiven (slot_count instance.now) slot }
    ensures marked { (n : ℕ) → n < slot_count instance.now
        → is_marked marks.new n ≡ (is_marked marks.old n || is_choice slot n) }
    ensures past { (n : ℕ) → slot_count instance.now ≤ n
        → is_marked marks.new n ≡ is_marked marks.old n }
{
    match slot {
        Some(slot) => mark_slot(instance, slot, marks),
        None => mark_all_slots(instance, marks),
    }
}

/// Marks the slots whose rows the prices of a pattern's edits read.
fn mark_slots_of_pattern(instance: &Instance, pattern: &Pattern, marks: &mut Marks)
    requires { PatternFits instance.now pattern.now }
    ensures marked { (n : ℕ) → n < slot_count instance.now
        → is_marked marks.new n ≡ (is_marked marks.old n || pattern_reads_slot pattern.now n) }
    ensures past { (n : ℕ) → slot_count instance.now ≤ n
        → is_marked marks.new n ≡ is_marked marks.old n }
{
    match *pattern {
        Pattern::Place(_, slot, _) | Pattern::Move(_, _, slot, _) => {
            mark_slot_choice(instance, slot, marks)
        }
        Pattern::Reroom(_, slot, _) => mark_slot_choice(instance, Some(slot), marks),
        Pattern::Swap(..) => mark_all_slots(instance, marks),
    }
}

/// Marks the courses whose rows a look reads.
fn mark_courses_of_look(instance: &Instance, look: &Look, marks: &mut Marks)
    requires { LookFits instance.now look.now }
    ensures marked { (n : ℕ) → n < course_count instance.now
        → is_marked marks.new n
        ≡ (is_marked marks.old n || look_reads_course instance.now look.now n) }
    ensures past { (n : ℕ) → course_count instance.now ≤ n
        → is_marked marks.new n ≡ is_marked marks.old n }
{
    instance.limits_hold();
    match *look {
        Look::Course(course) | Look::CourseCost(course) => mark_course(instance, course, marks),
        Look::Slot(_) => {}
        Look::Teacher(teacher) => mark_taught(instance, teacher, marks),
        Look::Curriculum(curriculum) => {
            mark_courses(instance, instance.members(curriculum), marks)
        }
        Look::Cost | Look::Missing => mark_all(instance, marks),
        Look::Price(edit) => mark_courses_of_price(instance, &edit, marks),
        Look::Cheapest(_, pattern) => mark_courses_of_pattern(instance, &pattern, marks),
        Look::Slots(pattern) => mark_courses_of_pattern(instance, &pattern.pattern(), marks),
    }
}

fn mark_slots_of_edit(instance: &Instance, edit: &Edit, marks: &mut Marks)
    requires { EditFits instance.now edit.now }
    ensures { (n : ℕ) → is_marked marks.new n
        ≡ (is_marked marks.old n || has n (edit_slots edit.now)) }
{
    match *edit {
        Edit::Place(_, slot, _) | Edit::Move(_, _, slot, _) | Edit::Reroom(_, slot, _) => {
            mark_slot(instance, slot, marks)
        }
        Edit::Swap(_, slot, _, other_slot) => {
            mark_slot(instance, slot, marks);
            mark_slot(instance, other_slot, marks);
        }
        Edit::Drop(..) => {}
    }
}

/// Marks the slots whose rows a look reads.
fn mark_slots_of_look(instance: &Instance, look: &Look, marks: &mut Marks)
    requires { LookFits instance.now look.now }
    ensures marked { (n : ℕ) → n < slot_count instance.now
        → is_marked marks.new n ≡ (is_marked marks.old n || look_reads_slot look.now n) }
    ensures past { (n : ℕ) → slot_count instance.now ≤ n
        → is_marked marks.new n ≡ is_marked marks.old n }
{
    instance.limits_hold();
    match *look {
        Look::Slot(slot) => mark_slot(instance, slot, marks),
        Look::Price(edit) => mark_slots_of_edit(instance, &edit, marks),
        Look::Cheapest(_, pattern) => mark_slots_of_pattern(instance, &pattern, marks),
        Look::Slots(pattern) => mark_slots_of_pattern(instance, &pattern.pattern(), marks),
        Look::Course(_)
        | Look::Teacher(_)
        | Look::Curriculum(_)
        | Look::CourseCost(_)
        | Look::Cost
        | Look::Missing => {}
    }
}

/// Marks the rows that a call reads.
pub(crate) fn mark_reads(instance: &Instance, call: &Call, courses: &mut Marks, slots: &mut Marks)
    requires { CallFits instance.now call.now }
    ensures courses { (n : ℕ) → n < course_count instance.now
        → is_marked courses.new n
        ≡ (is_marked courses.old n || reads_course instance.now call.now n) }
    ensures slots { (n : ℕ) → n < slot_count instance.now
        → is_marked slots.new n ≡ (is_marked slots.old n || reads_slot call.now n) }
    ensures courses_past { (n : ℕ) → course_count instance.now ≤ n
        → is_marked courses.new n ≡ is_marked courses.old n }
    ensures slots_past { (n : ℕ) → slot_count instance.now ≤ n
        → is_marked slots.new n ≡ is_marked slots.old n }
{
    match call {
        Call::Look(look) => {
            mark_courses_of_look(instance, look, courses);
            mark_slots_of_look(instance, look, slots);
        }
        Call::Edit(edit) => {
            mark_courses_of_edit(instance, edit, courses);
            mark_slots_of_edit(instance, edit, slots);
        }
    }
}

/// Returns the rows that a call reads, ascending, each once.
pub fn reads(alloc: Global, instance: &Instance, call: &Call) -> Result<Vec<Row>, NoMemory>
    requires { CallFits instance.now call.now }
    ensures { IfOk result (λ rows. rows.items ≡ reads instance.now call.now) }
{
    let mut rows = RowsRead::new();
    rows.add(instance, call);
    rows.list(alloc, instance)
}
