//! The assessment of a timetable: its hard counts and soft costs, and the two judgements on it.

ghost use Rattle.std.specs.Prelude.{◌≡◌, ◌<◌, ◌^◌, ◌↔◌, IsTrue};
ghost use Rattle.ctt_problem.specs.Timetable.{IsTimetable};
ghost use Rattle.ctt_rules.specs.Hard.{Complete, Lawful, hard_counts};
ghost use Rattle.ctt_rules.specs.Penalty.{penalty, total};

use crate::cost::Cost;
use crate::hard::{Hard, hard_counts};
use crate::lawful::{has_all, keeps_rules};
use crate::soft::penalty;
use ctt_problem::{Instance, Placed};

/// The hard counts and soft costs of a timetable, and whether it is lawful and complete.
#[derive(Clone, Copy, PartialEq, Eq)]
pub struct Assessment {
    /// How often it breaks the hard constraints.
    pub hard: Hard,
    /// What it costs under the soft constraints.
    pub cost: Cost,
    /// Whether it breaks no hard rule, unplaced lectures aside.
    pub lawful: bool,
    /// Whether it is lawful and has all lectures of each course.
    pub complete: bool,
}

/// Assesses a timetable. Both judgements follow from the same hard counts.
pub fn assess(instance: &Instance, timetable: &[Placed]) -> Assessment
    requires { IsTimetable instance.now timetable.now }
    ensures hard { result.hard ≡ hard_counts instance.now timetable.now }
    ensures cost { result.cost ≡ penalty instance.now timetable.now }
    ensures bound { total result.cost < 2 ^ 63 }
    ensures lawful { IsTrue result.lawful ↔ Lawful instance.now timetable.now }
    ensures complete { IsTrue result.complete ↔ Complete instance.now timetable.now }
{
    let hard = hard_counts(instance, timetable);
    let lawful = keeps_rules(instance, timetable, &hard);
    Assessment {
        hard,
        cost: penalty(instance, timetable),
        lawful,
        complete: has_all(instance, timetable, &hard, lawful),
    }
}
