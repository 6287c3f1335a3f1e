//! The soft costs.

/// What a timetable costs under the four soft constraints of the technical report of Di Gaspero,
/// McCollum and Schaerf for ITC 2007.
#[derive(Clone, Copy, Default, PartialEq, Eq)]
pub struct Cost {
    /// One point for each student above the capacity of the room, at each lecture.
    pub capacity: u64,
    /// Five points for each day by which a course falls short of its minimum of working days.
    pub days: u64,
    /// Two points for each lecture that is isolated in a curriculum: not adjacent to another
    /// lecture of it on the same day.
    pub compactness: u64,
    /// One point for each room beyond the first in which a course has lectures.
    pub stability: u64,
}

impl Cost {
    ghost use Rattle.std.specs.Prelude.{◌≡◌, ◌<◌, ◌^◌};
    ghost use Rattle.ctt_rules.specs.Penalty.{total};

    /// Returns the sum of the four costs.
    pub fn total(&self) -> u64
        requires { total self.now < 2 ^ 64 }
        ensures { result ≡ total self.now }
    {
        self.capacity + self.days + self.compactness + self.stability
    }
}
