//! Findings as sentences, of a page or of a plain text.

ghost use Rattle.std.specs.Prelude.{◌≡◌, ◌<◌, ◌++◌, OnOk, string_bytes};
ghost use Rattle.ctt_problem.specs.Timetable.{Fits};
ghost use Rattle.ctt_findings.specs.Fitting.{CauseFits, FindingFits};
ghost use Rattle.ctt_views.specs.Phrases.{name_text, time_text};
ghost use Rattle.ctt_views.specs.Sentences.{availability_text, barred_text, blocked_text, capacity_text, compactness_text, conflict_by, conflict_text, days_text, lectures_text, occupancy_text, overfull, sentence, sentence_as, sentence_line, stability_text};

use crate::phrases::{Amount, Markup, Name, When};
use crate::spot::{Spot, course_named, curriculum_named, spot_of, time};
use ctt_findings::{Cause, Finding};
use ctt_problem::{Instance, Placed};
use std::alloc::AllocError;
use std::fmt::Write;

/// Adds a sentence about missing or surplus lectures.
#[tactic(auto, unfolding(crate::specs::Sentences::lectures_text))]
fn push_lectures(
    page: &mut String,
    course: &Name,
    placed: u64,
    stated: u32,
) -> Result<(), AllocError>
    ensures { OnOk result (string_bytes page.new
        ≡ string_bytes page.old ++ lectures_text (name_text course.now) placed stated) }
{
    let course = *course;
    let placed = Amount {
        count: placed,
        noun: "lecture",
    };
    write!(page, "{course} has {placed} in place of {stated}")
}

/// Adds a sentence about two lectures in one slot whose courses clash.
#[tactic(auto, unfolding(crate::specs::Sentences::conflict_text))]
fn push_conflict(
    page: &mut String,
    course: &Name,
    other: &Name,
    time: &When,
    cause: &str,
    name: &Name,
) -> Result<(), AllocError>
    ensures { OnOk result (string_bytes page.new
        ≡ string_bytes page.old ++ conflict_text (name_text course.now) (name_text other.now)
        (time_text time.now) cause.now (name_text name.now)) }
{
    let course = *course;
    let other = *other;
    let time = *time;
    let name = *name;
    write!(
        page,
        "{course} and {other} are both on {time}: same {cause} {name}"
    )
}

/// Adds a sentence about a conflict, by its cause.
fn push_conflict_by(
    page: &mut String,
    instance: &Instance,
    markup: Markup,
    course: &Name,
    other: &Name,
    time: &When,
    cause: &Cause,
) -> Result<(), AllocError>
    requires { CauseFits instance.now cause.now }
    ensures { OnOk result (string_bytes page.new
        ≡ string_bytes page.old ++ conflict_by markup instance.now
        (name_text course.now) (name_text other.now) (time_text time.now) cause.now) }
{
    match cause {
        Cause::Teacher(teacher) => {
            let name = Name {
                markup,
                name: instance.teacher_name(*teacher),
            };
            push_conflict(page, course, other, time, "teacher", &name)
        }
        Cause::Curriculum(curriculum) => {
            let name = curriculum_named(instance, markup, *curriculum);
            push_conflict(page, course, other, time, "curriculum", &name)
        }
    }
}

/// Adds a sentence about a lecture in a slot in which its course is unavailable.
#[tactic(auto, unfolding(crate::specs::Sentences::availability_text))]
fn push_unavailable(page: &mut String, spot: &Spot) -> Result<(), AllocError>
    ensures { OnOk result (string_bytes page.new
        ≡ string_bytes page.old ++ availability_text (name_text spot.now.course)
        (time_text spot.now.time)) }
{
    let course = spot.course;
    let time = spot.time;
    write!(page, "{course} is on {time}, when it is unavailable")
}

/// Adds a sentence about a lecture in a room that is already taken.
#[tactic(auto, unfolding(crate::specs::Sentences::occupancy_text))]
fn push_occupancy(page: &mut String, spot: &Spot) -> Result<(), AllocError>
    ensures { OnOk result (string_bytes page.new
        ≡ string_bytes page.old ++ occupancy_text (name_text spot.now.course) (name_text spot.now.room)
        (time_text spot.now.time)) }
{
    let course = spot.course;
    let room = spot.room;
    let time = spot.time;
    write!(
        page,
        "{course} is in room {room} on {time}, when the room is taken"
    )
}

/// Adds a sentence about a lecture in a barred room.
#[tactic(auto, unfolding(crate::specs::Sentences::barred_text))]
fn push_barred(page: &mut String, spot: &Spot) -> Result<(), AllocError>
    ensures { OnOk result (string_bytes page.new
        ≡ string_bytes page.old ++ barred_text (name_text spot.now.course) (name_text spot.now.room)
        (time_text spot.now.time)) }
{
    let course = spot.course;
    let room = spot.room;
    let time = spot.time;
    write!(
        page,
        "{course} is in room {room}, which is barred for it, on {time}"
    )
}

/// Adds a sentence about a lecture in a room that is blocked in the slot.
#[tactic(auto, unfolding(crate::specs::Sentences::blocked_text))]
fn push_blocked(page: &mut String, spot: &Spot) -> Result<(), AllocError>
    ensures { OnOk result (string_bytes page.new
        ≡ string_bytes page.old ++ blocked_text (name_text spot.now.course) (name_text spot.now.room)
        (time_text spot.now.time)) }
{
    let course = spot.course;
    let room = spot.room;
    let time = spot.time;
    write!(
        page,
        "{course} is in room {room} on {time}, when the room is blocked"
    )
}

/// Adds a sentence about students and seats of a lecture.
#[tactic(auto, unfolding(crate::specs::Sentences::capacity_text))]
fn push_seats(page: &mut String, spot: &Spot, students: u32, seats: u32) -> Result<(), AllocError>
    ensures { OnOk result (string_bytes page.new
        ≡ string_bytes page.old ++ capacity_text (name_text spot.now.course) students (name_text spot.now.room) seats
        (time_text spot.now.time)) }
{
    let course = spot.course;
    let students = Amount {
        count: u64::from(students),
        noun: "student",
    };
    let room = spot.room;
    let seats = Amount {
        count: u64::from(seats),
        noun: "seat",
    };
    let time = spot.time;
    write!(
        page,
        "{course} with {students} is in room {room} with {seats} on {time}"
    )
}

/// Adds a sentence about a lecture with more students than its room has seats.
fn push_capacity(
    page: &mut String,
    instance: &Instance,
    markup: Markup,
    days: &str,
    lecture: &Placed,
) -> Result<(), AllocError>
    requires { Fits instance.now lecture.now }
    ensures { OnOk result (string_bytes page.new
        ≡ string_bytes page.old ++ overfull markup instance.now days.now lecture.now) }
{
    let students = instance.students(lecture.course);
    let seats = instance.capacity(lecture.room);
    push_seats(
        page,
        &spot_of(instance, markup, days, lecture),
        students,
        seats,
    )
}

/// Adds a sentence about a course with lectures on too few days.
#[tactic(auto, unfolding(crate::specs::Sentences::days_text))]
fn push_days(page: &mut String, course: &Name, days: u64, minimum: u32) -> Result<(), AllocError>
    ensures { OnOk result (string_bytes page.new
        ≡ string_bytes page.old ++ days_text (name_text course.now) days minimum) }
{
    let course = *course;
    let days = Amount {
        count: days,
        noun: "day",
    };
    write!(page, "{course} is on {days} in place of at least {minimum}")
}

/// Adds a sentence about an isolated lecture.
#[tactic(auto, unfolding(crate::specs::Sentences::compactness_text))]
fn push_compactness(page: &mut String, spot: &Spot, curriculum: &Name) -> Result<(), AllocError>
    ensures { OnOk result (string_bytes page.new
        ≡ string_bytes page.old ++ compactness_text (name_text spot.now.course)
        (time_text spot.now.time) (name_text curriculum.now)) }
{
    let course = spot.course;
    let time = spot.time;
    let curriculum = *curriculum;
    write!(
        page,
        "{course} on {time} is alone in curriculum {curriculum}"
    )
}

/// Adds a sentence about a course with lectures in several rooms.
#[tactic(auto, unfolding(crate::specs::Sentences::stability_text))]
fn push_stability(page: &mut String, course: &Name, rooms: u64) -> Result<(), AllocError>
    ensures { OnOk result (string_bytes page.new
        ≡ string_bytes page.old ++ stability_text (name_text course.now) rooms) }
{
    let course = *course;
    let rooms = Amount {
        count: rooms,
        noun: "room",
    };
    write!(page, "{course} is in {rooms}")
}

/// Adds a finding as a sentence to a text of either kind. The names of days are in one text, with
/// commas between them.
fn push_sentence_as(
    text: &mut String,
    instance: &Instance,
    markup: Markup,
    days: &str,
    finding: &Finding,
) -> Result<(), AllocError>
    requires { FindingFits instance.now finding.now }
    ensures { OnOk result (string_bytes text.new
        ≡ string_bytes text.old ++ sentence_as markup instance.now days.now finding.now) }
{
    match finding {
        Finding::Lectures(course, placed, stated) => {
            push_lectures(
                text,
                &course_named(instance, markup, *course),
                *placed,
                *stated,
            )
        }
        Finding::Conflict(course, other, slot, cause) => {
            let course = course_named(instance, markup, *course);
            let other = course_named(instance, markup, *other);
            let time = time(instance, markup, days, *slot);
            push_conflict_by(text, instance, markup, &course, &other, &time, cause)
        }
        Finding::Availability(lecture) => {
            push_unavailable(text, &spot_of(instance, markup, days, lecture))
        }
        Finding::Occupancy(lecture) => {
            push_occupancy(text, &spot_of(instance, markup, days, lecture))
        }
        Finding::Barred(lecture) => push_barred(text, &spot_of(instance, markup, days, lecture)),
        Finding::Blocked(lecture) => push_blocked(text, &spot_of(instance, markup, days, lecture)),
        Finding::Capacity(lecture, _) => push_capacity(text, instance, markup, days, lecture),
        Finding::Days(course, count, minimum, _) => {
            push_days(
                text,
                &course_named(instance, markup, *course),
                *count,
                *minimum,
            )
        }
        Finding::Compactness(curriculum, lecture, _) => {
            let spot = spot_of(instance, markup, days, lecture);
            push_compactness(
                text,
                &spot,
                &curriculum_named(instance, markup, *curriculum),
            )
        }
        Finding::Stability(course, rooms, _) => {
            push_stability(text, &course_named(instance, markup, *course), *rooms)
        }
    }
}

/// Adds a finding as a sentence to a page. The names of days are in one text, with commas between
/// them.
pub(crate) fn push_sentence(
    page: &mut String,
    instance: &Instance,
    days: &str,
    finding: &Finding,
) -> Result<(), AllocError>
    requires { FindingFits instance.now finding.now }
    ensures { OnOk result (string_bytes page.new
        ≡ string_bytes page.old ++ sentence instance.now days.now finding.now) }
{
    push_sentence_as(page, instance, Markup::Html, days, finding)
}

/// Adds the line of a finding to a plain text: a sentence, in which days have their numbers.
pub(crate) fn push_sentence_line(
    text: &mut String,
    instance: &Instance,
    finding: &Finding,
) -> Result<(), AllocError>
    requires { FindingFits instance.now finding.now }
    ensures { OnOk result (string_bytes text.new
        ≡ string_bytes text.old ++ sentence_line instance.now finding.now) }
{
    push_sentence_as(text, instance, Markup::Plain, "", finding)?;
    text.push_str("\n")
}
