//! The signs of a lecture that breaks a rule or costs points: a shape and a word each.

ghost use Rattle.std.specs.Prelude.{◌≡◌, ◌<◌, ◌++◌, OnOk, Some, if◌then◌else◌, string_bytes};
ghost use Rattle.std.specs.List.{AllByRecursion as Each, list_any};
ghost use Rattle.ctt_problem.specs.Problem.{slot_count};
ghost use Rattle.ctt_problem.specs.Timetable.{Fits};
ghost use Rattle.ctt_rules.specs.Neighbours.{is_beside};
ghost use Rattle.ctt_rules.specs.Penalty.{unseated};
ghost use Rattle.ctt_views.specs.Grids.{GridFits, is_of};
ghost use Rattle.ctt_views.specs.Signs.{clashes, cost, cost_signs, hard_signs, is_alone, seats_sign, shares_room, sign, signs, stands_in};
ghost use Rattle.ctt_views.specs.Weeks.{WeekFits};

use crate::grid::{Grid, is_of};
use crate::phrases::Amount;
use crate::view::View;
use crate::week::Week;
use ctt_problem::{Instance, Placed, SlotNo};
use std::alloc::AllocError;
use std::fmt;
use std::fmt::Write;

/// Returns whether one of the lectures is of a course that clashes with this lecture's.
fn clashes(instance: &Instance, row: &[Placed], lecture: &Placed) -> bool
    requires row { Each (Fits instance.now) row.now }
    requires lecture { Fits instance.now lecture.now }
    ensures { result ≡ clashes instance.now row.now lecture.now }
{
    for other in row {
        if instance.clash(lecture.course, other.course) {
            return true;
        }
    }
    false
}

/// Returns whether one of the lectures is of another course, but in this lecture's room.
fn shares_room(row: &[Placed], lecture: &Placed) -> bool
    ensures { result ≡ shares_room row.now lecture.now }
{
    row.iter().any(|other| other.room == lecture.room && other.course != lecture.course)
}

/// Returns whether one of the lectures belongs to a grid.
fn has_any_of(instance: &Instance, grid: &Grid, row: &[Placed]) -> bool
    requires grid { GridFits instance.now grid.now }
    requires row { Each (Fits instance.now) row.now }
    ensures { result ≡ list_any (is_of instance.now grid.now) row.now }
{
    for lecture in row {
        if is_of(instance, grid, lecture) {
            return true;
        }
    }
    false
}

/// Returns whether a lecture of a grid is in a slot; false if the instance has no such slot.
fn stands_in(instance: &Instance, week: &Week, grid: &Grid, slot: SlotNo) -> bool
    requires week { WeekFits instance.now week.now }
    requires grid { GridFits instance.now grid.now }
    ensures { result ≡ stands_in instance.now week.now grid.now slot }
{
    if slot.get() >= instance.slots() {
        return false;
    }
    has_any_of(instance, grid, week.row(instance, slot))
}

/// Returns whether a lecture of a grid is in the slot before or after, on the same day.
fn is_beside(instance: &Instance, week: &Week, grid: &Grid, slot: SlotNo) -> bool
    requires week { WeekFits instance.now week.now }
    requires grid { GridFits instance.now grid.now }
    requires slot { slot < slot_count instance.now }
    ensures { result
        ≡ is_beside instance.now (stands_in instance.now week.now grid.now) slot }
{
    instance.limits_hold();
    let period = instance.period_of(slot);
    let number = slot.get();
    (period > 0 && stands_in(instance, week, grid, SlotNo::new(number - 1)))
        || (period + 1 < instance.periods()
            && stands_in(instance, week, grid, SlotNo::new(number + 1)))
}

/// Returns whether a lecture is isolated in the curriculum of a grid; false in other grids.
fn is_alone(instance: &Instance, week: &Week, grid: &Grid, lecture: &Placed) -> bool
    requires week { WeekFits instance.now week.now }
    requires grid { GridFits instance.now grid.now }
    requires lecture { Fits instance.now lecture.now }
    ensures { result ≡ is_alone instance.now week.now grid.now lecture.now }
{
    match grid {
        Grid::Curriculum(_) => !is_beside(instance, week, grid, lecture.slot),
        Grid::Teacher(_) => false,
        Grid::Room(_) => false,
        Grid::Course(_) => false,
    }
}

/// Returns the text of a sign if it is shown, or else an empty text.
#[tactic(auto, unfolding(crate::specs::Signs::sign))]
fn sign(shown: bool, text: &'static str) -> &'static str
    ensures { result.now ≡ sign shown text.now }
{
    if shown { text } else { "" }
}

/// The sign of what costs points, with the points. Displayed only if there are any.
#[derive(Clone, Copy)]
struct CostSign {
    points: u64,
    text: &'static str,
}

impl fmt::Display for CostSign {
    ghost output = { λ c. Some (cost c.points c.text.now) };

    #[tactic(auto, unfolding(crate::specs::Signs::cost))]
    fn fmt<W: fmt::Write>(&self, f: &mut fmt::Formatter<W>) -> fmt::Result {
        if self.points == 0 {
            Ok(())
        } else {
            let text = self.text;
            let points = Amount {
                count: self.points,
                noun: "point",
            };
            write!(f, " <i>{text}: {points}</i>")
        }
    }
}

/// Returns the students of a lecture for whom its room has no seat.
fn unseated(instance: &Instance, lecture: &Placed) -> u64
    requires { Fits instance.now lecture.now }
    ensures { result ≡ unseated instance.now lecture.now }
{
    let students = instance.students(lecture.course);
    u64::from(students.saturating_sub(instance.capacity(lecture.room)))
}

/// Returns the points of a lecture that is isolated in the curriculum of a grid, or else 0.
fn alone_points(instance: &Instance, week: &Week, grid: &Grid, lecture: &Placed) -> u64
    requires week { WeekFits instance.now week.now }
    requires grid { GridFits instance.now grid.now }
    requires lecture { Fits instance.now lecture.now }
    ensures { result ≡ (if is_alone instance.now week.now grid.now lecture.now then 2 else 0) }
{
    if is_alone(instance, week, grid, lecture) {
        2
    } else {
        0
    }
}

/// Adds the signs of the rules that a lecture breaks. `row` has the lectures in its slot.
#[tactic(auto, unfolding(crate::specs::Signs::hard_signs))]
fn push_hard_signs(
    page: &mut String,
    instance: &Instance,
    row: &[Placed],
    lecture: &Placed,
) -> Result<(), AllocError>
    requires row { Each (Fits instance.now) row.now }
    requires lecture { Fits instance.now lecture.now }
    ensures { OnOk result (string_bytes page.new
        ≡ string_bytes page.old ++ hard_signs instance.now row.now lecture.now) }
{
    let conflict = sign(
        clashes(instance, row, lecture),
        " <b>&#9650;&#160;conflict</b>",
    );
    let unavailable = sign(
        instance.unavailable(lecture.course, lecture.slot),
        " <b>&#9660;&#160;unavailable</b>",
    );
    let taken = sign(shares_room(row, lecture), " <b>&#9670;&#160;room taken</b>");
    let barred = sign(
        instance.barred(lecture.course, lecture.room),
        " <b>&#9632;&#160;barred</b>",
    );
    let blocked = sign(
        instance.blocked(lecture.room, lecture.slot),
        " <b>&#9644;&#160;blocked</b>",
    );
    write!(page, "{conflict}{unavailable}{taken}{barred}{blocked}")
}

/// The sign of a room with too few seats. Displayed only if some student has none.
#[derive(Clone, Copy)]
struct SeatsSign(u64);

impl fmt::Display for SeatsSign {
    ghost output = { λ s. Some (seats_sign s.0) };

    #[tactic(auto, unfolding(crate::specs::Signs::seats_sign))]
    fn fmt<W: fmt::Write>(&self, f: &mut fmt::Formatter<W>) -> fmt::Result {
        if self.0 == 0 {
            Ok(())
        } else {
            let count = self.0;
            write!(f, " <i>&#9679;&#160;{count} too few seats</i>")
        }
    }
}

/// Adds the signs of what a lecture costs, unless the page is plain.
#[tactic(auto, unfolding(crate::specs::Signs::cost_signs))]
fn push_cost_signs(
    page: &mut String,
    instance: &Instance,
    week: &Week,
    view: &View,
    grid: &Grid,
    lecture: &Placed,
) -> Result<(), AllocError>
    requires week { WeekFits instance.now week.now }
    requires grid { GridFits instance.now grid.now }
    requires lecture { Fits instance.now lecture.now }
    ensures { OnOk result (string_bytes page.new
        ≡ string_bytes page.old ++ cost_signs instance.now week.now view.now grid.now lecture.now) }
{
    if view.plain {
        return Ok(());
    }
    let seats = SeatsSign(unseated(instance, lecture));
    let alone = CostSign {
        points: alone_points(instance, week, grid, lecture),
        text: "&#9675;&#160;alone",
    };
    write!(page, "{seats}{alone}")
}

/// Adds the signs of the rules that a lecture breaks, and of what it costs.
#[tactic(auto, unfolding(crate::specs::Signs::signs))]
pub(crate) fn push_signs(
    page: &mut String,
    instance: &Instance,
    week: &Week,
    view: &View,
    grid: &Grid,
    lecture: &Placed,
) -> Result<(), AllocError>
    requires week { WeekFits instance.now week.now }
    requires grid { GridFits instance.now grid.now }
    requires lecture { Fits instance.now lecture.now }
    ensures { OnOk result (string_bytes page.new
        ≡ string_bytes page.old ++ signs instance.now week.now view.now grid.now lecture.now) }
{
    push_hard_signs(page, instance, week.row(instance, lecture.slot), lecture)?;
    push_cost_signs(page, instance, week, view, grid, lecture)
}
