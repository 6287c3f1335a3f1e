//! What adding a lecture does to the compactness of its curricula. They have no other lecture in
//! its slot, so only lectures at most two slots away count.

ghost use Rattle.std.specs.Prelude.{◌≡◌, ◌<◌, ◌≤◌, ◌+◌, ◌-◌, ◌*◌, nat_lt, cond, sum_by, length};
ghost use Rattle.std.specs.List.{AllByRecursion as Each};
ghost use Rattle.ctt_problem.specs.Problem.{slot_count, curriculum_count, period_of};
ghost use Rattle.ctt_grid.specs.CostDelta.{alone_at, alone_beside, stands_alone, count_before, count_in_next};
ghost use Rattle.ctt_grid.specs.Counts.{HaveSizes};
ghost use Rattle.ctt_grid.specs.Seen.{seen_curriculum};

use crate::counts_after::CountsAfter;
use ctt_problem::{CurriculumNo, Instance, SlotNo};

/// What adding a lecture in a slot does to the compactness of a curriculum, or of several in sum.
#[derive(Clone, Copy, Default, PartialEq, Eq)]
pub(crate) struct CompactnessDelta {
    /// The number of curricula in which it stands alone.
    pub(crate) alone: u64,
    /// The number of lectures beside it that stood alone.
    pub(crate) lone_neighbours: u64,
}

/// Returns the number of lectures of a curriculum in the slot before this one, on the same day.
#[tactic(auto, using(crate::proofs::SlotFacts::later_slot, crate::proofs::SlotFacts::earlier_fits))]
fn before(
    counts: &CountsAfter,
    instance: &Instance,
    curriculum: CurriculumNo,
    slot: SlotNo,
    period: u16,
) -> u64
    requires curriculum { curriculum < curriculum_count instance.now }
    requires slot { slot < slot_count instance.now }
    requires period { period ≡ period_of instance.now slot }
    requires sizes { HaveSizes instance.now counts.now.base.now }
    ensures value { result
        ≡ count_before instance.now (seen_curriculum instance.now counts.now curriculum) slot }
    ensures bound { result ≤ 5 }
{
    if period > 0 {
        counts.in_slot(instance, curriculum, SlotNo::new(slot.get() - 1))
    } else {
        0
    }
}

/// Returns the number of lectures of a curriculum in the slot after this one, on the same day.
#[tactic(auto, using(crate::proofs::SlotFacts::next_slot))]
fn after(
    counts: &CountsAfter,
    instance: &Instance,
    curriculum: CurriculumNo,
    slot: SlotNo,
    period: u16,
) -> u64
    requires curriculum { curriculum < curriculum_count instance.now }
    requires slot { slot < slot_count instance.now }
    requires period { period ≡ period_of instance.now slot }
    requires sizes { HaveSizes instance.now counts.now.base.now }
    ensures value { result
        ≡ count_in_next instance.now (seen_curriculum instance.now counts.now curriculum) slot }
    ensures bound { result ≤ 5 }
{
    instance.limits_hold();
    if period + 1 < instance.periods() {
        counts.in_slot(instance, curriculum, SlotNo::new(slot.get() + 1))
    } else {
        0
    }
}

/// Returns how many of the `count` lectures in the slot before this one stand alone.
fn alone_before(
    counts: &CountsAfter,
    instance: &Instance,
    curriculum: CurriculumNo,
    slot: SlotNo,
    period: u16,
    count: u64,
) -> u64
    requires curriculum { curriculum < curriculum_count instance.now }
    requires slot { slot < slot_count instance.now }
    requires period { period ≡ period_of instance.now slot }
    requires sizes { HaveSizes instance.now counts.now.base.now }
    requires own { seen_curriculum instance.now counts.now curriculum slot ≡ 0 }
    requires count { count
        ≡ count_before instance.now (seen_curriculum instance.now counts.now curriculum) slot }
    ensures value { result
        ≡ cond (nat_lt 0 (period_of instance.now slot))
        (alone_at instance.now (seen_curriculum instance.now counts.now curriculum) (slot - 1)) 0 }
    ensures bound { result ≤ count }
{
    if count == 0 {
        return 0;
    }
    let earlier = SlotNo::new(slot.get() - 1);
    if before(counts, instance, curriculum, earlier, period - 1) > 0 {
        0
    } else {
        count
    }
}

/// Returns how many of the `count` lectures in the slot after this one stand alone.
fn alone_after(
    counts: &CountsAfter,
    instance: &Instance,
    curriculum: CurriculumNo,
    slot: SlotNo,
    period: u16,
    count: u64,
) -> u64
    requires curriculum { curriculum < curriculum_count instance.now }
    requires slot { slot < slot_count instance.now }
    requires period { period ≡ period_of instance.now slot }
    requires sizes { HaveSizes instance.now counts.now.base.now }
    requires own { seen_curriculum instance.now counts.now curriculum slot ≡ 0 }
    requires count { count
        ≡ count_in_next instance.now (seen_curriculum instance.now counts.now curriculum) slot }
    ensures value { result
        ≡ cond (nat_lt (period_of instance.now slot + 1) instance.now.periods)
        (alone_at instance.now (seen_curriculum instance.now counts.now curriculum) (slot + 1)) 0 }
    ensures bound { result ≤ count }
{
    if count == 0 {
        return 0;
    }
    instance.limits_hold();
    let next = SlotNo::new(slot.get() + 1);
    if after(counts, instance, curriculum, next, period + 1) > 0 {
        0
    } else {
        count
    }
}

fn one_if_none(count: u64) -> u64
    ensures value { result ≡ cond (nat_lt 0 count) 0 1 }
    ensures bound { result ≤ 1 }
{
    if count > 0 { 0 } else { 1 }
}

/// Returns what adding a lecture does to a curriculum that has none in its slot.
fn curriculum_delta(
    counts: &CountsAfter,
    instance: &Instance,
    curriculum: CurriculumNo,
    slot: SlotNo,
    period: u16,
) -> CompactnessDelta
    requires curriculum { curriculum < curriculum_count instance.now }
    requires slot { slot < slot_count instance.now }
    requires period { period ≡ period_of instance.now slot }
    requires sizes { HaveSizes instance.now counts.now.base.now }
    requires own { seen_curriculum instance.now counts.now curriculum slot ≡ 0 }
    ensures alone { result.alone
        ≡ stands_alone instance.now (seen_curriculum instance.now counts.now curriculum) slot }
    ensures lone_neighbours { result.lone_neighbours
        ≡ alone_beside instance.now (seen_curriculum instance.now counts.now curriculum) slot }
    ensures few { result.alone ≤ 1 }
    ensures bound { result.lone_neighbours ≤ 10 }
{
    let before = before(counts, instance, curriculum, slot, period);
    let after = after(counts, instance, curriculum, slot, period);
    let alone_before = alone_before(counts, instance, curriculum, slot, period, before);
    let alone_after = alone_after(counts, instance, curriculum, slot, period, after);
    CompactnessDelta {
        alone: one_if_none(before + after),
        lone_neighbours: alone_before + alone_after,
    }
}

/// Returns what adding a lecture does to these curricula in sum.
pub(crate) fn compactness_delta(
    counts: &CountsAfter,
    instance: &Instance,
    curricula: &[CurriculumNo],
    slot: SlotNo,
    period: u16,
) -> CompactnessDelta
    requires curricula { Each (λ q. q < curriculum_count instance.now) curricula.now }
    requires few { length curricula.now ≤ 20000 }
    requires slot { slot < slot_count instance.now }
    requires period { period ≡ period_of instance.now slot }
    requires sizes { HaveSizes instance.now counts.now.base.now }
    requires own { Each (λ q. seen_curriculum instance.now counts.now q slot ≡ 0) curricula.now }
    ensures alone { result.alone
        ≡ sum_by (λ q. stands_alone instance.now
        (seen_curriculum instance.now counts.now q) slot) curricula.now }
    ensures lone_neighbours { result.lone_neighbours
        ≡ sum_by (λ q. alone_beside instance.now
        (seen_curriculum instance.now counts.now q) slot) curricula.now }
    ensures few { result.alone ≤ 20000 }
    ensures bound { result.lone_neighbours ≤ 20000 * 10 }
{
    let mut alone = 0;
    let mut lone_neighbours = 0;
    for curriculum in curricula {
        let delta = curriculum_delta(counts, instance, *curriculum, slot, period);
        alone += delta.alone;
        lone_neighbours += delta.lone_neighbours;
    }
    CompactnessDelta {
        alone,
        lone_neighbours,
    }
}
