//! The lectures that a search leaves where they stand.

ghost use Rattle.std.specs.Prelude.{◌<◌};
ghost use Rattle.ctt_problem.specs.BitRows.{HasSize};
ghost use Rattle.ctt_problem.specs.Problem.{course_count, slot_count};

use ctt_board::Sheet;
use ctt_problem::{BitRows, CourseNo, NoMemory, SlotNo};
use std::alloc::Global;

/// The places, by slot and course, of the start's pinned lectures. They are a guess alone: what is
/// proposed is compared with the start itself.
#[derive(Drop)]
pub(crate) struct Held {
    courses: usize,
    places: Vec<bool>,
}

impl Held {
    /// Returns the places of the pinned lectures of the start.
    pub(crate) fn of<'i, S: Sheet<'i>>(
        start: &S,
        pins: &BitRows,
        alloc: Global,
    ) -> Result<Self, NoMemory>
        requires { HasSize pins.now (slot_count (S.problem start.now))
            (course_count (S.problem start.now)) }
    {
        let instance = start.instance();
        let mut places = Vec::new(alloc);
        for number in 0..instance.slots() {
            add_held(start, pins, SlotNo::new(number), &mut places)?;
        }
        Ok(Held {
            courses: usize::from(instance.courses()),
            places,
        })
    }

    /// Returns whether the lecture of a course in a slot is to stay there.
    pub(crate) fn has(&self, course: CourseNo, slot: SlotNo) -> bool {
        let row = usize::from(slot.get()).saturating_mul(self.courses);
        let place = row.saturating_add(usize::from(course.get()));
        self.places.get(place).copied().unwrap_or(true)
    }
}

/// Returns whether the lecture of a course in a slot of the start is there and pinned.
fn is_held<'i, S: Sheet<'i>>(start: &S, pins: &BitRows, course: CourseNo, slot: SlotNo) -> bool
    requires size { HasSize pins.now (slot_count (S.problem start.now))
        (course_count (S.problem start.now)) }
    requires course { course < course_count (S.problem start.now) }
    requires slot { slot < slot_count (S.problem start.now) }
{
    pins.is_marked(usize::from(slot.get()), usize::from(course.get()))
        && start.room_at(course, slot).is_some()
}

/// Appends, for each course, whether it has a pinned lecture in a slot of the start.
fn add_held<'i, S: Sheet<'i>>(
    start: &S,
    pins: &BitRows,
    slot: SlotNo,
    places: &mut Vec<bool>,
) -> Result<(), NoMemory>
    requires size { HasSize pins.now (slot_count (S.problem start.now))
        (course_count (S.problem start.now)) }
    requires slot { slot < slot_count (S.problem start.now) }
{
    for number in 0..start.instance().courses() {
        places.push(is_held(start, pins, CourseNo::new(number), slot))?;
    }
    Ok(())
}
