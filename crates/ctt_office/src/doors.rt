//! Opening of the devices of seats.

ghost use Rattle.std.specs.Prelude.{◌≡◌, true, IfOk, OnErr};

use ctt_files::{Failed, Sink, Source};
use std::marker::{Send, Sync};

/// The devices of seats, by the names of the seats. Opening one may block until its other end is
/// opened.
pub trait Doors: Sync {
    ghost use Rattle.std.specs.Prelude.{ℕ, List, Bool, Option, None, true};

    /// The input device of a seat.
    type Input: Source + Drop + Send;

    /// The output device of a seat.
    type Output: Sink + Drop + Send;

    /// The bytes that the input device of a seat gives once it is opened, if they are known.
    ghost gives: { Self → List ℕ → Option (List ℕ) } = { λ _ _. None };

    /// The bytes that the output device of a seat has taken when it is opened, if they are known.
    ghost had: { Self → List ℕ → Option (List ℕ) } = { λ _ _. None };

    /// Whether the input device of a seat may fail to open.
    ghost may_bar_input: { Self → List ℕ → Bool } = { λ _ _. true };

    /// Whether the output device of a seat may fail to open.
    ghost may_bar_output: { Self → List ℕ → Bool } = { λ _ _. true };

    /// Opens the device from which the lines of a seat are read.
    fn open_input(&self, seat: &str) -> Result<Self::Input, Failed>
        ensures given { IfOk result (λ input. Self.Input.left input ≡ gives self.now seat.now) }
        ensures barred { OnErr result (may_bar_input self.now seat.now ≡ true) };

    /// Opens the device to which the answers of a seat are written.
    fn open_output(&self, seat: &str) -> Result<Self::Output, Failed>
        ensures had { IfOk result (λ out. Self.Output.taken out ≡ had self.now seat.now) }
        ensures barred { OnErr result (may_bar_output self.now seat.now ≡ true) };
}
