//! The names of logs.

use std::marker::Brand;

/// The name of a log. A caller that passes `Brand` chooses what the name says.
pub trait Begun {
    ghost use Rattle.std.specs.Prelude.{ℕ, List, Option};

    /// The bytes that the writer had taken before the first entry, if they are known.
    ghost start: { Option (List ℕ) };
}

impl Begun for Brand {
    ghost use Rattle.std.specs.Prelude.{None};

    ghost start = { None };
}
