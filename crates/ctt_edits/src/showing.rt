//! Replies to looks.

ghost use Rattle.std.specs.Prelude.{◌≡◌, ◌<◌, IfOk, filter};
ghost use Rattle.ctt_problem.specs.Marks.{is_marked};
ghost use Rattle.ctt_problem.specs.Problem.{course_count, teacher_count, curriculum_count, members};
ghost use Rattle.ctt_rules.specs.Penalty.{course_cost, lectures_of};
ghost use Rattle.ctt_edits.specs.Edits.{EditFits, edit_fault};
ghost use Rattle.ctt_edits.specs.Looks.{LookFits, price, teacher_row, told_or, shown};
ghost use Rattle.ctt_edits.specs.Offers.{pattern_of, offers};
ghost use Rattle.ctt_edits.specs.Patterns.{PatternFits, pattern_fault, cheapest};
ghost use Rattle.ctt_edits.specs.declared.reply.Reply.TheVariants.{Price as Priced, Edits as AreCheapest, Slots as AreOffers};

use crate::cheapest::{cheapest, pattern_fault};
use crate::edit::Edit;
use crate::lectures::Lectures;
use crate::looks::Look;
use crate::missing::missing;
use crate::offering::offers;
use crate::pattern::Pattern;
use crate::pricing::price;
use crate::reading::{mark_courses, mark_taught};
use crate::reply::Reply;
use crate::rows_read::next_marked;
use crate::slot_pattern::SlotPattern;
use ctt_board::Sheet;
use ctt_problem::{CourseNo, CurriculumNo, Marks, NoMemory, Placed, TeacherNo};
use ctt_rules::Cost;
use std::alloc::Global;

/// Returns the lectures of the marked courses, course by course.
fn gather<'i, S: Sheet<'i>>(
    alloc: Global,
    sheet: &S,
    courses: &Marks,
) -> Result<Vec<Placed>, NoMemory>
    ensures { IfOk result (λ list.
        list.items ≡ filter (λ l. is_marked courses.now l.course) (S.list sheet.now)) }
{
    sheet.lawful();
    let end = sheet.instance().courses();
    let mut list = Vec::new(alloc);
    let mut from = 0;
    while let Some(number) = next_marked(courses, from, end) {
        sheet.append_course_row(CourseNo::new(number), &mut list)?;
        from = number + 1;
    }
    Ok(list)
}

/// Returns the lectures of a teacher's courses.
fn teacher_row<'i, S: Sheet<'i>>(
    alloc: Global,
    sheet: &S,
    teacher: TeacherNo,
) -> Result<Vec<Placed>, NoMemory>
    requires { teacher < teacher_count (S.problem sheet.now) }
    ensures { IfOk result (λ row.
        row.items ≡ teacher_row (S.problem sheet.now) teacher (S.list sheet.now)) }
{
    sheet.lawful();
    let mut courses = Marks::new();
    mark_taught(sheet.instance(), teacher, &mut courses);
    gather(alloc, sheet, &courses)
}

/// Returns the lectures of a curriculum's members.
fn curriculum_row<'i, S: Sheet<'i>>(
    alloc: Global,
    sheet: &S,
    curriculum: CurriculumNo,
) -> Result<Vec<Placed>, NoMemory>
    requires { curriculum < curriculum_count (S.problem sheet.now) }
    ensures { IfOk result (λ row.
        row.items ≡ lectures_of (members (S.problem sheet.now) curriculum) (S.list sheet.now)) }
{
    sheet.lawful();
    let instance = sheet.instance();
    let mut courses = Marks::new();
    mark_courses(instance, instance.members(curriculum), &mut courses);
    gather(alloc, sheet, &courses)
}

/// Returns the costs of a course by itself, without compactness.
fn own_cost<'i, S: Sheet<'i>>(sheet: &S, course: CourseNo) -> Result<Cost, NoMemory>
    requires { course < course_count (S.problem sheet.now) }
    ensures { IfOk result (λ cost.
        cost ≡ course_cost (S.problem sheet.now) (S.list sheet.now) course) }
{
    sheet.lawful();
    let row = sheet.course_row(course)?;
    Ok(ctt_rules::course_cost(sheet.instance(), row.as_slice(), course))
}

/// Returns the price of an edit, or its first fault.
fn price_reply<'i, S: Sheet<'i>>(sheet: &S, edit: &Edit) -> Reply
    requires { EditFits (S.problem sheet.now) edit.now }
    ensures { result ≡ told_or (edit_fault (S.problem sheet.now) (S.list sheet.now) edit.now)
        (Priced (price (S.problem sheet.now) (S.list sheet.now) edit.now)) }
{
    match price(sheet, edit) {
        Ok(price) => Reply::Price(price),
        Err(fault) => Reply::Refused(fault),
    }
}

/// Returns the cheapest edits of a pattern, or its fault.
fn cheapest_reply<'i, S: Sheet<'i>>(
    alloc: Global,
    sheet: &S,
    count: u16,
    pattern: &Pattern,
) -> Result<Reply, NoMemory>
    requires { PatternFits (S.problem sheet.now) pattern.now }
    ensures { IfOk result (λ reply.
        reply ≡ told_or (pattern_fault (S.problem sheet.now) (S.list sheet.now) pattern.now)
        (AreCheapest (cheapest (S.problem sheet.now) (S.list sheet.now) count pattern.now))) }
{
    if let Some(fault) = pattern_fault(sheet, pattern) {
        return Ok(Reply::Refused(fault));
    }
    Ok(Reply::Edits(cheapest(alloc, sheet, count, pattern)?))
}

/// Returns what each slot offers to a pattern, or the pattern's fault.
fn slots_reply<'i, S: Sheet<'i>>(
    alloc: Global,
    sheet: &S,
    pattern: &SlotPattern,
) -> Result<Reply, NoMemory>
    requires { PatternFits (S.problem sheet.now) (pattern_of pattern.now) }
    ensures { IfOk result (λ reply.
        reply ≡ told_or (pattern_fault (S.problem sheet.now) (S.list sheet.now)
        (pattern_of pattern.now))
        (AreOffers (offers (S.problem sheet.now) (S.list sheet.now) pattern.now))) }
{
    if let Some(fault) = pattern_fault(sheet, &pattern.pattern()) {
        return Ok(Reply::Refused(fault));
    }
    Ok(Reply::Slots(offers(alloc, sheet, pattern)?))
}

/// Returns the reply to a look.
pub fn look<'i, S: Sheet<'i>>(alloc: Global, sheet: &S, look: &Look) -> Result<Reply, NoMemory>
    requires { LookFits (S.problem sheet.now) look.now }
    ensures { IfOk result (λ reply.
        reply ≡ shown (S.problem sheet.now) (S.list sheet.now) look.now) }
{
    let list = match *look {
        Look::Course(course) => sheet.course_row(course)?,
        Look::Slot(slot) => sheet.slot_row(slot)?,
        Look::Teacher(teacher) => teacher_row(alloc, sheet, teacher)?,
        Look::Curriculum(curriculum) => curriculum_row(alloc, sheet, curriculum)?,
        Look::CourseCost(course) => return Ok(Reply::Costs(own_cost(sheet, course)?)),
        Look::Cost => return Ok(Reply::Costs(sheet.cost())),
        Look::Price(edit) => return Ok(price_reply(sheet, &edit)),
        Look::Missing => return Ok(Reply::Missing(missing(alloc, sheet)?)),
        Look::Cheapest(count, pattern) => return cheapest_reply(alloc, sheet, count, &pattern),
        Look::Slots(pattern) => return slots_reply(alloc, sheet, &pattern),
    };
    Ok(Reply::Lectures(Lectures::new(list)))
}
