//! What sentences name: courses, rooms, curricula and times.

ghost use Rattle.std.specs.Prelude.{◌≡◌, ◌<◌};
ghost use Rattle.ctt_problem.specs.Problem.{course_count, curriculum_count, slot_count};
ghost use Rattle.ctt_problem.specs.Timetable.{Fits};
ghost use Rattle.ctt_views.specs.Phrases.{name_text, time_text};
ghost use Rattle.ctt_views.specs.Sentences.{course_as, curriculum_as, room_as, time_as};

use crate::phrases::{Markup, Name, When};
use ctt_problem::{CourseNo, CurriculumNo, Instance, Placed, SlotNo};

/// Returns the time of a slot.
pub(crate) fn time<'n>(instance: &Instance, markup: Markup, days: &'n str, slot: SlotNo) -> When<'n>
    requires { slot < slot_count instance.now }
    ensures { time_text result
        ≡ time_as markup instance.now days.now slot }
{
    When {
        markup,
        names: days,
        day: instance.day_of(slot),
        period: instance.period_of(slot),
    }
}

/// Returns the name of a course.
pub(crate) fn course_named<'i>(instance: &'i Instance, markup: Markup, course: CourseNo) -> Name<'i>
    requires { course < course_count instance.now }
    ensures { name_text result ≡ course_as markup instance.now course }
{
    Name {
        markup,
        name: instance.course_name(course),
    }
}

/// Returns the name of a curriculum.
pub(crate) fn curriculum_named<'i>(
    instance: &'i Instance,
    markup: Markup,
    curriculum: CurriculumNo,
) -> Name<'i>
    requires { curriculum < curriculum_count instance.now }
    ensures { name_text result ≡ curriculum_as markup instance.now curriculum }
{
    Name {
        markup,
        name: instance.curriculum_name(curriculum),
    }
}

/// The names of a lecture's course and room, and its time.
#[derive(Clone, Copy)]
pub(crate) struct Spot<'i> {
    pub(crate) course: Name<'i>,
    pub(crate) room: Name<'i>,
    pub(crate) time: When<'i>,
}

/// Returns the names and the time of a lecture.
pub(crate) fn spot_of<'i>(
    instance: &'i Instance,
    markup: Markup,
    days: &'i str,
    lecture: &Placed,
) -> Spot<'i>
    requires { Fits instance.now lecture.now }
    ensures course { name_text result.course
        ≡ course_as markup instance.now lecture.now.course }
    ensures room { name_text result.room
        ≡ room_as markup instance.now lecture.now.room }
    ensures time { time_text result.time
        ≡ time_as markup instance.now days.now lecture.now.slot }
{
    Spot {
        course: course_named(instance, markup, lecture.course),
        room: Name {
            markup,
            name: instance.room_name(lecture.room),
        },
        time: time(instance, markup, days, lecture.slot),
    }
}
