//! Who lets a search go on.

ghost use Rattle.std.specs.Prelude.{◌≡◌, ◌+◌, true};
ghost use Rattle.std.specs.Bool.{OnTrue, OnFalse};

/// Lets a search take its steps, one by one, and may end it: by a clock, or at a planner's word.
pub trait Pace {
    ghost use Rattle.std.specs.Prelude.{ℕ, Bool};

    /// How many steps it has let pass.
    ghost passed: { Self → ℕ };

    /// Whether it has ended the search.
    ghost has_ended: { Self → Bool };

    /// Lets one more step pass, or ends the search.
    fn passes(&mut self) -> bool
        ensures step { OnTrue result (passed self.new ≡ passed self.old + 1) }
        ensures still { OnFalse result (passed self.new ≡ passed self.old) }
        ensures ended { OnFalse result (has_ended self.new ≡ true) };
}

/// Lets 2^64 - 1 steps pass, which is as many as a search can be asked for.
#[derive(Drop)]
pub struct Unstopped {
    passed: u64,
}

impl Unstopped {
    /// Returns one that has let no step pass.
    pub fn new() -> Self {
        Unstopped { passed: 0 }
    }
}

impl Pace for Unstopped {
    ghost use Rattle.std.specs.Prelude.{◌==◌};

    ghost passed = { λ p. p.passed };

    ghost has_ended = { λ p. p.passed == 18446744073709551615 };

    fn passes(&mut self) -> bool {
        if self.passed == u64::MAX {
            return false;
        }
        self.passed += 1;
        true
    }
}
