//! What an entry of closures closes.

ghost use Rattle.std.specs.Prelude.{◌≡◌, ◌<◌, ◌≤◌, ◌==◌, ◌&&◌, ◌||◌, ℕ, nat_lt, false, IfSome};
ghost use Rattle.ctt_problem.specs.Problem.{course_of, course_count, room_count, teacher_count, slot_count, day_of, period_of};
ghost use Rattle.ctt_problem.specs.Marks.{is_marked};
ghost use Rattle.ctt_problem.specs.BitRows.{AddsMarks, HasSize};
ghost use Rattle.ctt_text.specs.BlockedPlaces.{IsClosing, AreTablesOf, is_chosen, covers_slot, is_of_course, is_of_room};

use ctt_problem::{BitRows, Instance, Marks, TeacherNo};

/// What an entry is about.
#[derive(Clone, Copy)]
pub(crate) enum Kind {
    Room,
    Teacher,
    Course,
}

/// An entry: the number of a room, a teacher or a course, and a day and a period. `None` stands for
/// all days, or all periods.
#[derive(Clone, Copy)]
pub(crate) struct Closing {
    pub(crate) kind: Kind,
    pub(crate) number: u16,
    pub(crate) day: Option<u16>,
    pub(crate) period: Option<u16>,
}

/// What is closed.
#[derive(Drop)]
pub(crate) struct Tables {
    /// For each course, the slots in which it is closed.
    pub(crate) closed: BitRows,
    /// For each room, the slots in which it is blocked.
    pub(crate) blocked: BitRows,
}

/// Marks all slots of a day.
fn mark_day(instance: &Instance, marks: &mut Marks, day: u16)
    requires { day < instance.now.days }
    ensures { (n : ℕ)
        → is_marked marks.new n
        ≡ (is_marked marks.old n
        || (nat_lt n (slot_count instance.now) && day_of instance.now n == day)) }
{
    instance.limits_hold();
    for period in 0..instance.periods() {
        marks.mark(instance.slot_of(day, period).get() as usize);
    }
}

/// Marks the slots of a day that are in the period, or all of its slots.
fn mark_on(instance: &Instance, marks: &mut Marks, day: u16, period: Option<u16>)
    requires day { day < instance.now.days }
    requires period { IfSome period (λ n. n < instance.now.periods) }
    ensures { (n : ℕ)
        → is_marked marks.new n
        ≡ (is_marked marks.old n
        || (nat_lt n (slot_count instance.now)
        && (day_of instance.now n == day && is_chosen period (period_of instance.now n)))) }
{
    instance.limits_hold();
    match period {
        Some(period) => {
            marks.mark(instance.slot_of(day, period).get() as usize);
        }
        None => mark_day(instance, marks, day),
    }
}

/// Returns the slots of a day that are in the period, or all of its slots.
fn slots_on(instance: &Instance, day: u16, period: Option<u16>) -> Marks
    requires day { day < instance.now.days }
    requires period { IfSome period (λ n. n < instance.now.periods) }
    ensures { (n : ℕ)
        → is_marked result n
        ≡ (nat_lt n (slot_count instance.now)
        && (day_of instance.now n == day && is_chosen period (period_of instance.now n))) }
{
    let mut marks = Marks::new();
    mark_on(instance, &mut marks, day, period);
    marks
}

/// Returns the slots of all days that are in the period, or all slots.
fn slots_on_all_days(instance: &Instance, period: Option<u16>) -> Marks
    requires { IfSome period (λ n. n < instance.now.periods) }
    ensures { (n : ℕ)
        → is_marked result n
        ≡ (nat_lt n (slot_count instance.now) && is_chosen period (period_of instance.now n)) }
{
    let mut marks = Marks::new();
    for day in 0..instance.days() {
        mark_on(instance, &mut marks, day, period);
    }
    marks
}

/// Returns the slots that an entry is about.
fn covered(instance: &Instance, closing: &Closing) -> Marks
    requires { IsClosing instance.now closing.now }
    ensures { (n : ℕ)
        → is_marked result n
        ≡ (nat_lt n (slot_count instance.now) && covers_slot instance.now closing.now n) }
{
    match closing.day {
        Some(day) => slots_on(instance, day, closing.period),
        None => slots_on_all_days(instance, closing.period),
    }
}

/// Marks the slots in the rows of a teacher's courses.
fn close_teacher(instance: &Instance, closed: &mut BitRows, teacher: TeacherNo, slots: &Marks)
    requires teacher { teacher < teacher_count instance.now }
    requires size { HasSize closed.old (course_count instance.now) (slot_count instance.now) }
    requires within { (n : ℕ) → slot_count instance.now ≤ n → is_marked slots.now n ≡ false }
    ensures { AddsMarks closed.old closed.new (λ c s.
        (nat_lt c (course_count instance.now) && (course_of instance.now c).teacher == teacher)
        && is_marked slots.now s) }
{
    for course in instance.taught_by(teacher) {
        closed.mark_all(course.get() as usize, slots);
    }
}

impl Tables {
    /// Marks what an entry closes. Allocates nothing.
    pub(crate) fn close(&mut self, instance: &Instance, closing: &Closing)
        requires closing { IsClosing instance.now closing.now }
        requires size { AreTablesOf instance.now self.old }
        ensures closed { AddsMarks self.old.closed self.new.closed (λ c s.
            (nat_lt c (course_count instance.now)
            && is_of_course instance.now closing.now.kind closing.now.number c)
            && (nat_lt s (slot_count instance.now) && covers_slot instance.now closing.now s)) }
        ensures blocked { AddsMarks self.old.blocked self.new.blocked (λ r s.
            (nat_lt r (room_count instance.now)
            && is_of_room closing.now.kind closing.now.number r)
            && (nat_lt s (slot_count instance.now) && covers_slot instance.now closing.now s)) }
    {
        let slots = covered(instance, closing);
        let number = closing.number as usize;
        match closing.kind {
            Kind::Room => self.blocked.mark_all(number, &slots),
            Kind::Course => self.closed.mark_all(number, &slots),
            Kind::Teacher => {
                let teacher = TeacherNo::new(closing.number);
                close_teacher(instance, &mut self.closed, teacher, &slots);
            }
        }
    }
}
