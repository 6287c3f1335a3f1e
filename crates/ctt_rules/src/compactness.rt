//! Curriculum compactness, computed with bit masks: one bit for each slot of a window.

ghost use Rattle.std.specs.Prelude.{◌≡◌, ◌<◌, ◌≤◌, ◌+◌, ◌-◌, ◌*◌, ◌&&◌, ◌||◌, ◌==◌, not, nat_lt, ℕ, length, count_by, sum_by};
ghost use Rattle.std.specs.List.{list_any, AllByRecursion as Each};
ghost use Rattle.ctt_problem.specs.Lists.{count_below};
ghost use Rattle.ctt_problem.specs.Timetable.{IsTimetable, Fits};
ghost use Rattle.ctt_rules.specs.Penalty.{penalty, lectures_of};
ghost use Rattle.ctt_rules.specs.Windows.{has_bit, is_alone_within, stands_at, word_of};

use ctt_problem::{CourseNo, CurriculumNo, Instance, Placed};
use std::marker::Model;

/// The places of a window at which lectures are counted, 1 to 62. Places 0 and 63 are their
/// neighbours.
const COUNTED: u64 = 0x7fff_ffff_ffff_fffe;

/// A 64-bit word for each course.
#[derive(Drop)]
struct Words {
    words: [u64; 2000],
}

impl Model for Words {
    ghost use Rattle.std.specs.Prelude.{List, ℕ};

    ghost Value = { List ℕ };

    ghost view = { λ w. w.words };
}

impl Words {
    /// Creates words with no bit set.
    fn new() -> Self
        ensures { (c : ℕ) → word_of result c ≡ 0 }
    {
        Words { words: [0; 2000] }
    }

    /// Sets the bit of a number in the word of a course, if it is one of the 64 from `first` on.
    fn set(&mut self, course: CourseNo, number: u16, first: u16)
        requires { course < 2000 }
        ensures { (c place : ℕ) → place < 64 → has_bit (word_of self.new c) place
            ≡ ((course == c && number == first + place) || has_bit (word_of self.old c) place) }
    {
        if first <= number && number - first < 64 {
            self.words[course.get() as usize] |= 1u64 << (number - first);
        }
    }

    /// Returns the word of a course.
    fn of(&self, course: CourseNo) -> u64
        requires { course < 2000 }
        ensures { result ≡ word_of self.now course }
    {
        self.words[course.get() as usize]
    }

    /// Returns the bits that are set for at least one of these courses.
    fn union(&self, courses: &[CourseNo]) -> u64
        requires { Each (λ c. c < 2000) courses.now }
        ensures { (place : ℕ)
            → has_bit result place
            ≡ list_any (λ c. has_bit (word_of self.now c) place) courses.now }
    {
        let mut union = 0;
        for course in courses {
            union |= self.of(*course);
        }
        union
    }

    /// Counts the bits of `bits` that are set in the words of these courses, each course by itself.
    fn count(&self, courses: &[CourseNo], bits: u64) -> u64
        requires fit { Each (λ c. c < 2000) courses.now }
        requires few { length courses.now ≤ 2000 }
        ensures { result
            ≡ sum_by
            (λ c.
            count_below (λ place. has_bit (word_of self.now c) place && has_bit bits place)
            64) courses.now }
    {
        let mut count = 0;
        for course in courses {
            count += u64::from((self.of(*course) & bits).count_ones());
        }
        count
    }
}

/// Returns the places 1 to 62 that have no busy place next to them.
fn alone(busy: u64) -> u64
    ensures { (place : ℕ) → has_bit result place
        ≡ ((nat_lt 0 place && nat_lt place 63)
        && (not (has_bit busy (place - 1)) && not (has_bit busy (place + 1)))) }
{
    !(busy << 1 | busy >> 1) & COUNTED
}

/// Marks the lectures of each course in the window whose place 1 has the number `first`.
fn window(instance: &Instance, timetable: &[Placed], first: u16) -> Words
    requires { Each (Fits instance.now) timetable.now }
    ensures { (c place : ℕ) → place < 64 → has_bit (word_of result c) place
        ≡ list_any (λ l. l.course == c && stands_at instance.now first place l) timetable.now }
{
    instance.limits_hold();
    let mut words = Words::new();
    for lecture in timetable {
        let number = lecture.slot.get() + instance.day_of(lecture.slot) + 1;
        words.set(lecture.course, number, first);
    }
    words
}

/// Returns two points for each lecture in a window that is isolated in a curriculum, over all
/// curricula.
fn alone_within(instance: &Instance, timetable: &[Placed], first: u16) -> u64
    requires { IsTimetable instance.now timetable.now }
    ensures value { result
        ≡ sum_by
        (λ q.
        2 * count_by (is_alone_within instance.now first (lectures_of q timetable.now))
        (lectures_of q timetable.now)) instance.now.curricula }
    ensures bound { result ≤ 20000 * 8000000 }
{
    instance.limits_hold();
    let words = window(instance, timetable, first);
    let mut total = 0;
    for number in 0..instance.curricula() {
        let members = instance.members(CurriculumNo::new(number));
        total += 2 * words.count(members, alone(words.union(members)));
    }
    total
}

/// Returns two points for each lecture that is isolated in a curriculum, over all curricula.
///
/// Slots are numbered with a gap after each day, so that the last slot of a day is not adjacent to
/// the first slot of the next. The numbers are processed in windows of 62.
pub(crate) fn compactness(instance: &Instance, timetable: &[Placed]) -> u64
    requires { IsTimetable instance.now timetable.now }
    ensures value { result ≡ (penalty instance.now timetable.now).compactness }
    ensures bound { result ≤ 20000 * 8000000 }
{
    instance.limits_hold();
    let end = instance.slots() + instance.days();
    let mut total = 0;
    let mut first = 0;
    while first < end {
        total += alone_within(instance, timetable, first);
        first += 62;
    }
    total
}
