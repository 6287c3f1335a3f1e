//! What planners ask for: to improve a timetable, to place what is missing, to repair it.

ghost use Rattle.std.specs.Prelude.{◌≡◌, ◌+◌, ◌<◌, ◌≤◌, ℕ, true, IfOk};
ghost use Rattle.ctt_problem.specs.BitRows.{HasSize, is_marked_in};
ghost use Rattle.ctt_problem.specs.Problem.{course_count, slot_count};
ghost use Rattle.ctt_rules.specs.Hard.{Lawful};
ghost use Rattle.ctt_search.specs.Scores.{score, changes, is_at_most};
ghost use Rattle.ctt_search.specs.Wishes.{KeepsPins, KeepsAll, IsWithin};
ghost use Rattle.ctt_search.specs.declared.aim.Aim.TheVariants.{Cost, Changes};

use crate::aim::Aim;
use crate::improving::search;
use crate::pace::Pace;
use crate::proposal::Proposal;
use crate::wish::Wish;
use ctt_board::Sheet;
use ctt_problem::{BitRows, Instance, Marks, NoMemory};
use std::alloc::Global;

/// Searches for a timetable with fewer missing lectures, or with as many and a lower sum of its
/// penalty and the price of its changes from the start. Gives the start itself if it finds none.
/// If memory runs out, there is no proposal, and the start is as it was.
pub fn improve<'i, S: Sheet<'i>, P: Pace>(
    start: &S,
    wish: &Wish,
    pace: &mut P,
    alloc: Global,
) -> Result<Proposal<S>, NoMemory>
    requires size { HasSize wish.now.pins (slot_count (S.problem start.now))
        (course_count (S.problem start.now)) }
    ensures problem { IfOk result (λ p. S.problem p.sheet ≡ S.problem start.now) }
    ensures lawful { IfOk result (λ p. Lawful (S.problem start.now) (S.list p.sheet)) }
    ensures pins { IfOk result (λ p.
        KeepsPins (S.problem start.now) wish.now.pins (S.list start.now) (S.list p.sheet)) }
    ensures worth { IfOk result (λ p.
        is_at_most (Cost wish.now.price)
        (score (S.problem start.now) (S.list start.now) (S.list p.sheet))
        (score (S.problem start.now) (S.list start.now) (S.list start.now)) ≡ true) }
    ensures few { IfOk result (λ p.
        IsWithin wish.now.most_changes
        (changes (S.problem start.now) (S.list start.now) (S.list p.sheet))) }
    ensures score { IfOk result (λ p.
        p.score ≡ score (S.problem start.now) (S.list start.now) (S.list p.sheet)) }
    ensures told { IfOk result (λ p. P.passed pace.new ≡ P.passed pace.old + p.steps) }
    ensures within { IfOk result (λ p. p.steps ≤ wish.now.steps) }
    ensures ended { IfOk result (λ p.
        p.steps < wish.now.steps → P.has_ended pace.new ≡ true) }
{
    let found = search(start, Aim::Cost(wish.price), wish, pace, alloc)?;
    Ok(found)
}

/// Searches for a timetable with fewer missing lectures and as few changes from the start as can
/// be, and among these for one with a low penalty. Gives the start itself if it finds none. If
/// memory runs out, there is no proposal, and the start is as it was.
pub fn repair<'i, S: Sheet<'i>, P: Pace>(
    start: &S,
    wish: &Wish,
    pace: &mut P,
    alloc: Global,
) -> Result<Proposal<S>, NoMemory>
    requires size { HasSize wish.now.pins (slot_count (S.problem start.now))
        (course_count (S.problem start.now)) }
    ensures problem { IfOk result (λ p. S.problem p.sheet ≡ S.problem start.now) }
    ensures lawful { IfOk result (λ p. Lawful (S.problem start.now) (S.list p.sheet)) }
    ensures pins { IfOk result (λ p.
        KeepsPins (S.problem start.now) wish.now.pins (S.list start.now) (S.list p.sheet)) }
    ensures worth { IfOk result (λ p.
        is_at_most Changes
        (score (S.problem start.now) (S.list start.now) (S.list p.sheet))
        (score (S.problem start.now) (S.list start.now) (S.list start.now)) ≡ true) }
    ensures few { IfOk result (λ p.
        IsWithin wish.now.most_changes
        (changes (S.problem start.now) (S.list start.now) (S.list p.sheet))) }
    ensures score { IfOk result (λ p.
        p.score ≡ score (S.problem start.now) (S.list start.now) (S.list p.sheet)) }
    ensures told { IfOk result (λ p. P.passed pace.new ≡ P.passed pace.old + p.steps) }
    ensures within { IfOk result (λ p. p.steps ≤ wish.now.steps) }
    ensures ended { IfOk result (λ p.
        p.steps < wish.now.steps → P.has_ended pace.new ≡ true) }
{
    let found = search(start, Aim::Changes, wish, pace, alloc)?;
    Ok(found)
}

/// Returns pins on the places of all courses in all slots.
fn pin_all(instance: &Instance, alloc: Global) -> Result<BitRows, NoMemory>
    ensures size { IfOk result (λ pins.
        HasSize pins (slot_count instance.now) (course_count instance.now)) }
    ensures all { IfOk result (λ pins. (c s : ℕ)
        → c < course_count instance.now
        → s < slot_count instance.now
        → is_marked_in pins s c ≡ true) }
{
    instance.limits_hold();
    let slots = usize::from(instance.slots());
    let courses = usize::from(instance.courses());
    let mut marks = Marks::new();
    marks.mark_below(courses);
    let mut pins = BitRows::new(alloc, slots, courses)?;
    for slot in 0..slots {
        pins.mark_all(slot, &marks);
    }
    Ok(pins)
}

/// Searches for a timetable with fewer missing lectures, or with as many and a lower penalty, in
/// which each lecture of the start stands where it stood. The pins of the wish are not looked at.
/// If memory runs out, there is no proposal, and the start is as it was.
pub fn place<'i, S: Sheet<'i>, P: Pace>(
    start: &S,
    wish: &Wish,
    pace: &mut P,
    alloc: Global,
) -> Result<Proposal<S>, NoMemory>
    ensures problem { IfOk result (λ p. S.problem p.sheet ≡ S.problem start.now) }
    ensures lawful { IfOk result (λ p. Lawful (S.problem start.now) (S.list p.sheet)) }
    ensures kept { IfOk result (λ p.
        KeepsAll (S.problem start.now) (S.list start.now) (S.list p.sheet)) }
    ensures worth { IfOk result (λ p.
        is_at_most (Cost wish.now.price)
        (score (S.problem start.now) (S.list start.now) (S.list p.sheet))
        (score (S.problem start.now) (S.list start.now) (S.list start.now)) ≡ true) }
    ensures few { IfOk result (λ p.
        IsWithin wish.now.most_changes
        (changes (S.problem start.now) (S.list start.now) (S.list p.sheet))) }
    ensures score { IfOk result (λ p.
        p.score ≡ score (S.problem start.now) (S.list start.now) (S.list p.sheet)) }
    ensures told { IfOk result (λ p. P.passed pace.new ≡ P.passed pace.old + p.steps) }
    ensures within { IfOk result (λ p. p.steps ≤ wish.now.steps) }
    ensures ended { IfOk result (λ p.
        p.steps < wish.now.steps → P.has_ended pace.new ≡ true) }
{
    let pins = pin_all(start.instance(), alloc)?;
    let all = Wish {
        price: wish.price,
        most_changes: wish.most_changes,
        pins,
        seed: wish.seed,
        steps: wish.steps,
    };
    let found = search(start, Aim::Cost(wish.price), &all, pace, alloc)?;
    Ok(found)
}
