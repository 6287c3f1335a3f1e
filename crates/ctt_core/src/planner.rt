//! The numbers of planners.

ghost use Rattle.std.specs.Prelude.{◌≡◌, ◌<◌, ◌↔◌, IsTrue};

use std::marker::Model;

/// The number of a planner, from 0.
#[derive(Clone, Copy, Debug, PartialEq, Eq, Hash)]
pub struct PlannerNo(u16);

impl Model for PlannerNo {
    ghost use Rattle.std.specs.Prelude.{ℕ};

    ghost Value = { ℕ };

    ghost view = { λ n. n.0 };

    ghost inverse = { λ n. record { 0 = n } };
}

impl PlannerNo {
    /// Wraps the number of a planner, counted from 0.
    pub fn new(number: u16) -> Self
        ensures { result ≡ number }
    {
        PlannerNo(number)
    }

    /// Returns the number itself.
    pub fn get(self) -> u16
        ensures { result ≡ self }
    {
        let PlannerNo(number) = self;
        number
    }

    /// Returns whether a desk for this many planners has this planner.
    pub fn fits(self, planners: u16) -> bool
        ensures { IsTrue result ↔ (self < planners) }
    {
        self.get() < planners
    }
}
