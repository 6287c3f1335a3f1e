//! The report on a timetable as a list of facts: names, counts and judgements.

ghost use Rattle.std.specs.Prelude.{◌≡◌, ◌++◌, ◌+◌, ◌^◌, ◌<◌, ◌≤◌};
ghost use Rattle.arrayvec.specs.ArrayVec.{array_vec_len};
ghost use Rattle.ctt_rules.specs.Penalty.{total};
ghost use Rattle.ctt_findings.specs.ReportText.{answer_word, cost_facts, count_fact_if, hard_facts, report_facts};

use crate::fact::Fact;
use arrayvec::ArrayVec;
use ctt_problem::Instance;
use ctt_rules::{Assessment, Cost, Hard};

/// Adds a count, if `has` is set.
fn push_if<'i>(facts: &mut ArrayVec<Fact<'i>, 14>, has: bool, key: &'static str, count: u64)
    requires { array_vec_len facts.old ≤ 13 }
    ensures count { facts.new.items ≡ facts.old.items ++ count_fact_if has key.now count }
    ensures length { array_vec_len facts.new ≤ array_vec_len facts.old + 1 }
{
    if has {
        facts.push(Fact::number(key, count));
    }
}

/// Adds the hard counts of a timetable of an instance.
#[tactic(auto, unfolding(crate::specs::ReportText::hard_facts))]
fn push_hard<'i>(facts: &mut ArrayVec<Fact<'i>, 14>, instance: &Instance, hard: &Hard)
    requires { array_vec_len facts.old ≤ 8 }
    ensures counts { facts.new.items ≡ facts.old.items ++ hard_facts instance.now hard.now }
    ensures length { array_vec_len facts.new ≤ array_vec_len facts.old + 6 }
{
    facts.push(Fact::number("lectures", hard.lectures));
    facts.push(Fact::number("conflicts", hard.conflicts));
    facts.push(Fact::number("availability", hard.availability));
    facts.push(Fact::number("occupancy", hard.occupancy));
    push_if(facts, instance.has_barred(), "barred", hard.barred);
    push_if(facts, instance.has_blocked(), "blocked", hard.blocked);
}

/// Adds the four costs and their total.
#[tactic(auto, unfolding(crate::specs::ReportText::cost_facts))]
fn push_costs<'i>(facts: &mut ArrayVec<Fact<'i>, 14>, cost: &Cost)
    requires length { array_vec_len facts.old ≤ 9 }
    requires total { total cost.now < 2 ^ 64 }
    ensures costs { facts.new.items ≡ facts.old.items ++ cost_facts cost.now }
    ensures length { array_vec_len facts.new ≡ array_vec_len facts.old + 5 }
{
    facts.push(Fact::number("capacity", cost.capacity));
    facts.push(Fact::number("days", cost.days));
    facts.push(Fact::number("compactness", cost.compactness));
    facts.push(Fact::number("stability", cost.stability));
    facts.push(Fact::number("total", cost.total()));
}

/// Returns yes or no.
fn answer(yes: bool) -> &'static str
    ensures { result.now ≡ answer_word yes }
{
    if yes { "yes" } else { "no" }
}

/// Returns the facts of the report on an instance, at most 14, in the order of its lines.
#[tactic(auto, unfolding(crate::specs::ReportText::report_facts))]
pub(crate) fn report_facts<'i>(
    instance: &'i Instance,
    assessment: &Assessment,
) -> ArrayVec<Fact<'i>, 14>
    requires { total assessment.now.cost < 2 ^ 64 }
    ensures { result.items ≡ report_facts instance.now assessment.now.hard assessment.now.cost
        assessment.now.lawful assessment.now.complete }
{
    let mut facts = ArrayVec::new();
    facts.push(Fact::text("instance", instance.name()));
    push_hard(&mut facts, instance, &assessment.hard);
    push_costs(&mut facts, &assessment.cost);
    facts.push(Fact::text("lawful", answer(assessment.lawful)));
    facts.push(Fact::text("complete", answer(assessment.complete)));
    facts
}
