//! What each finding says, as a list of facts.

ghost use Rattle.std.specs.Prelude.{◌≡◌, ◌<◌, ◌≤◌, ◌++◌, ◌∷◌, [], codes};
ghost use Rattle.arrayvec.specs.ArrayVec.{array_vec_len};
ghost use Rattle.ctt_problem.specs.Problem.{course_count, curriculum_count, room_count, slot_count};
ghost use Rattle.ctt_problem.specs.Timetable.{Fits};
ghost use Rattle.ctt_findings.specs.Fitting.{CauseFits, FindingFits};
ghost use Rattle.ctt_findings.specs.Lines.{cause_facts, course, day, fact, facts, kind, period, points, room, word};
ghost use Rattle.ctt_findings.specs.Tables.{row_facts, shared_fact};
ghost use Rattle.ctt_findings.specs.declared.finding.Finding.TheVariants.{Lectures, Conflict, Availability, Occupancy, Barred, Blocked, Capacity, Days, Compactness, Stability};

use crate::fact::Fact;
use crate::finding::{Cause, Finding};
use arrayvec::ArrayVec;
use ctt_problem::{CourseNo, CurriculumNo, Instance, Placed, RoomNo, SlotNo};

/// Returns the kind of a finding as a fact.
fn kind<'i>(name: &'i str) -> Fact<'i>
    ensures { result ≡ kind name.now }
{
    Fact::text("kind", name)
}

/// Returns the name of a course as a fact.
fn course<'i>(instance: &'i Instance, number: CourseNo) -> Fact<'i>
    requires { number < course_count instance.now }
    ensures { result ≡ course instance.now number }
{
    Fact::text("course", instance.course_name(number))
}

/// Returns the name of a room as a fact.
fn room<'i>(instance: &'i Instance, number: RoomNo) -> Fact<'i>
    requires { number < room_count instance.now }
    ensures { result ≡ room instance.now number }
{
    Fact::text("room", instance.room_name(number))
}

/// Returns the day of a slot as a fact.
fn day<'i>(instance: &'i Instance, slot: SlotNo) -> Fact<'i>
    requires { slot < slot_count instance.now }
    ensures { result ≡ day instance.now slot }
{
    Fact::number("day", u64::from(instance.day_of(slot)))
}

/// Returns the period of a slot as a fact.
fn period<'i>(instance: &'i Instance, slot: SlotNo) -> Fact<'i>
    requires { slot < slot_count instance.now }
    ensures { result ≡ period instance.now slot }
{
    Fact::number("period", u64::from(instance.period_of(slot)))
}

/// Returns the cost of a finding as a fact.
fn points<'i>(count: u64) -> Fact<'i>
    ensures { result ≡ points count }
{
    Fact::number("points", count)
}

/// Returns the facts of missing or surplus lectures.
fn lectures<'i>(
    instance: &'i Instance,
    number: CourseNo,
    placed: u64,
    stated: u32,
) -> ArrayVec<Fact<'i>, 8>
    requires { number < course_count instance.now }
    ensures { result.items ≡ facts instance.now (Lectures number placed stated) }
{
    let mut facts = ArrayVec::new();
    facts.push(kind("lectures"));
    facts.push(course(instance, number));
    facts.push(Fact::number("placed", placed));
    facts.push(Fact::number("stated", u64::from(stated)));
    facts
}

/// Returns the facts of a lecture in a barred room.
fn barred<'i>(instance: &'i Instance, lecture: &Placed) -> ArrayVec<Fact<'i>, 8>
    requires { Fits instance.now lecture.now }
    ensures { result.items ≡ facts instance.now (Barred lecture.now) }
{
    let mut facts = ArrayVec::new();
    facts.push(kind("barred"));
    facts.push(course(instance, lecture.course));
    facts.push(room(instance, lecture.room));
    facts.push(day(instance, lecture.slot));
    facts.push(period(instance, lecture.slot));
    facts
}

/// Returns the facts of a lecture in a room that is blocked in the slot.
fn blocked<'i>(instance: &'i Instance, lecture: &Placed) -> ArrayVec<Fact<'i>, 8>
    requires { Fits instance.now lecture.now }
    ensures { result.items ≡ facts instance.now (Blocked lecture.now) }
{
    let mut facts = ArrayVec::new();
    facts.push(kind("blocked"));
    facts.push(course(instance, lecture.course));
    facts.push(room(instance, lecture.room));
    facts.push(day(instance, lecture.slot));
    facts.push(period(instance, lecture.slot));
    facts
}

/// Returns the facts of two lectures in one slot whose courses clash.
fn conflict<'i>(
    instance: &'i Instance,
    number: CourseNo,
    other: CourseNo,
    slot: SlotNo,
    cause: &Cause,
) -> ArrayVec<Fact<'i>, 8>
    requires course { number < course_count instance.now }
    requires other { other < course_count instance.now }
    requires slot { slot < slot_count instance.now }
    requires cause { CauseFits instance.now cause.now }
    ensures { result.items ≡ facts instance.now (Conflict number other slot cause.now) }
{
    let mut facts = ArrayVec::new();
    facts.push(kind("conflict"));
    facts.push(course(instance, number));
    facts.push(Fact::text("other", instance.course_name(other)));
    facts.push(day(instance, slot));
    facts.push(period(instance, slot));
    push_cause(&mut facts, instance, cause);
    facts
}

/// Adds what two courses have in common, and its name.
fn push_named<'i>(facts: &mut ArrayVec<Fact<'i>, 8>, cause: &'i str, name: &'i str)
    requires { array_vec_len facts.old ≤ 6 }
    ensures { facts.new.items ≡ facts.old.items
        ++ fact (codes "cause") (word cause.now) ∷ fact (codes "name") (word name.now) ∷ [] }
{
    facts.push(Fact::text("cause", cause));
    facts.push(Fact::text("name", name));
}

/// Adds why two courses clash.
fn push_cause<'i>(facts: &mut ArrayVec<Fact<'i>, 8>, instance: &'i Instance, cause: &Cause)
    requires room { array_vec_len facts.old ≤ 6 }
    requires cause { CauseFits instance.now cause.now }
    ensures { facts.new.items ≡ facts.old.items ++ cause_facts instance.now cause.now }
{
    match cause {
        Cause::Teacher(teacher) => {
            push_named(facts, "teacher", instance.teacher_name(*teacher));
        }
        Cause::Curriculum(curriculum) => {
            push_named(facts, "curriculum", instance.curriculum_name(*curriculum));
        }
    }
}

/// Returns the facts of a lecture in a slot in which its course is unavailable.
fn availability<'i>(instance: &'i Instance, lecture: &Placed) -> ArrayVec<Fact<'i>, 8>
    requires { Fits instance.now lecture.now }
    ensures { result.items ≡ facts instance.now (Availability lecture.now) }
{
    let mut facts = ArrayVec::new();
    facts.push(kind("availability"));
    facts.push(course(instance, lecture.course));
    facts.push(day(instance, lecture.slot));
    facts.push(period(instance, lecture.slot));
    facts
}

/// Returns the facts of a lecture in a room that is already taken.
fn occupancy<'i>(instance: &'i Instance, lecture: &Placed) -> ArrayVec<Fact<'i>, 8>
    requires { Fits instance.now lecture.now }
    ensures { result.items ≡ facts instance.now (Occupancy lecture.now) }
{
    let mut facts = ArrayVec::new();
    facts.push(kind("occupancy"));
    facts.push(room(instance, lecture.room));
    facts.push(day(instance, lecture.slot));
    facts.push(period(instance, lecture.slot));
    facts.push(course(instance, lecture.course));
    facts
}

/// Returns the facts of a lecture with more students than seats.
fn capacity<'i>(instance: &'i Instance, lecture: &Placed, count: u64) -> ArrayVec<Fact<'i>, 8>
    requires { Fits instance.now lecture.now }
    ensures { result.items ≡ facts instance.now (Capacity lecture.now count) }
{
    let mut facts = ArrayVec::new();
    facts.push(kind("capacity"));
    facts.push(course(instance, lecture.course));
    facts.push(room(instance, lecture.room));
    facts.push(day(instance, lecture.slot));
    facts.push(period(instance, lecture.slot));
    facts.push(points(count));
    facts
}

/// Returns the facts of a course with too few days.
fn days<'i>(
    instance: &'i Instance,
    number: CourseNo,
    taken: u64,
    minimum: u32,
    count: u64,
) -> ArrayVec<Fact<'i>, 8>
    requires { number < course_count instance.now }
    ensures { result.items ≡ facts instance.now (Days number taken minimum count) }
{
    let mut facts = ArrayVec::new();
    facts.push(kind("days"));
    facts.push(course(instance, number));
    facts.push(Fact::number("days", taken));
    facts.push(Fact::number("minimum", u64::from(minimum)));
    facts.push(points(count));
    facts
}

/// Returns the facts of an isolated lecture.
fn compactness<'i>(
    instance: &'i Instance,
    curriculum: CurriculumNo,
    lecture: &Placed,
    count: u64,
) -> ArrayVec<Fact<'i>, 8>
    requires curriculum { curriculum < curriculum_count instance.now }
    requires lecture { Fits instance.now lecture.now }
    ensures { result.items ≡ facts instance.now (Compactness curriculum lecture.now count) }
{
    let mut facts = ArrayVec::new();
    facts.push(kind("compactness"));
    facts.push(Fact::text("curriculum", instance.curriculum_name(curriculum)));
    facts.push(course(instance, lecture.course));
    facts.push(day(instance, lecture.slot));
    facts.push(period(instance, lecture.slot));
    facts.push(points(count));
    facts
}

/// Returns the facts of a course with rooms beyond the first.
fn stability<'i>(
    instance: &'i Instance,
    number: CourseNo,
    rooms: u64,
    count: u64,
) -> ArrayVec<Fact<'i>, 8>
    requires { number < course_count instance.now }
    ensures { result.items ≡ facts instance.now (Stability number rooms count) }
{
    let mut facts = ArrayVec::new();
    facts.push(kind("stability"));
    facts.push(course(instance, number));
    facts.push(Fact::number("rooms", rooms));
    facts.push(points(count));
    facts
}

/// Returns the facts of a finding, at most eight, in the order of its line.
pub(crate) fn facts<'i>(instance: &'i Instance, finding: &Finding) -> ArrayVec<Fact<'i>, 8>
    requires { FindingFits instance.now finding.now }
    ensures { result.items ≡ facts instance.now finding.now }
{
    match finding {
        Finding::Lectures(course, placed, stated) => {
            lectures(instance, *course, *placed, *stated)
        }
        Finding::Conflict(course, other, slot, cause) => {
            conflict(instance, *course, *other, *slot, cause)
        }
        Finding::Availability(lecture) => availability(instance, lecture),
        Finding::Occupancy(lecture) => occupancy(instance, lecture),
        Finding::Barred(lecture) => barred(instance, lecture),
        Finding::Blocked(lecture) => blocked(instance, lecture),
        Finding::Capacity(lecture, points) => capacity(instance, lecture, *points),
        Finding::Days(course, count, minimum, points) => {
            days(instance, *course, *count, *minimum, *points)
        }
        Finding::Compactness(curriculum, lecture, points) => {
            compactness(instance, *curriculum, lecture, *points)
        }
        Finding::Stability(course, rooms, points) => stability(instance, *course, *rooms, *points),
    }
}

/// Returns the teacher or the curriculum that two courses have in common.
fn shared<'i>(instance: &'i Instance, cause: &Cause) -> Fact<'i>
    requires { CauseFits instance.now cause.now }
    ensures { result ≡ shared_fact instance.now cause.now }
{
    match cause {
        Cause::Teacher(teacher) => Fact::text("teacher", instance.teacher_name(*teacher)),
        Cause::Curriculum(curriculum) => {
            Fact::text("curriculum", instance.curriculum_name(*curriculum))
        }
    }
}

/// Returns the facts of two lectures in one slot whose courses clash, as they stand in a row.
fn conflict_row<'i>(
    instance: &'i Instance,
    number: CourseNo,
    other: CourseNo,
    slot: SlotNo,
    cause: &Cause,
) -> ArrayVec<Fact<'i>, 8>
    requires course { number < course_count instance.now }
    requires other { other < course_count instance.now }
    requires slot { slot < slot_count instance.now }
    requires cause { CauseFits instance.now cause.now }
    ensures { result.items ≡ row_facts instance.now (Conflict number other slot cause.now) }
{
    let mut facts = ArrayVec::new();
    facts.push(kind("conflict"));
    facts.push(course(instance, number));
    facts.push(Fact::text("other", instance.course_name(other)));
    facts.push(day(instance, slot));
    facts.push(period(instance, slot));
    facts.push(shared(instance, cause));
    facts
}

/// Returns the facts of a finding as they stand in its row, each under a key of its own.
pub(crate) fn row_facts<'i>(instance: &'i Instance, finding: &Finding) -> ArrayVec<Fact<'i>, 8>
    requires { FindingFits instance.now finding.now }
    ensures { result.items ≡ row_facts instance.now finding.now }
{
    match finding {
        Finding::Conflict(course, other, slot, cause) => {
            conflict_row(instance, *course, *other, *slot, cause)
        }
        _ => facts(instance, finding),
    }
}
