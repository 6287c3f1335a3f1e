//! A number that contracts alone see.

ghost use Rattle.std.specs.Prelude.{◌≡◌, ◌+◌, ℕ};
ghost use Rattle.std.specs.Borrow.{ftrue};

use std::marker::Model;

/// A number that contracts alone see. It has no upper limit, and takes no memory.
#[derive(Drop)]
pub struct Count {
    pub ghost number: { ℕ },
}

impl Model for Count {
    ghost also_owns = { λ _. ftrue };
}

// It owns nothing, so it may go to another thread.
unsafe impl Send for Count {}

unsafe impl Sync for Count {}

impl Count {
    /// Returns zero.
    pub fn new() -> Count
        ensures { result.number ≡ 0 }
    {
        Count {}
    }

    /// Returns the next number.
    pub fn next(&self) -> Count
        ensures { result.number ≡ self.now.number + 1 }
    {
        Count {}
    }
}
