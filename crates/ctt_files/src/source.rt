//! A reader with a failure mark.

ghost use Rattle.std.specs.Prelude.{◌≡◌, ◌+◌, ◌<◌, ◌≤◌, false, true, length, take, IfOk, OnOk, OnErr};
ghost use Rattle.std.specs.Io.KnownBytes.{Consumes, Keeps, IsAtEnd};

use thiserror::Error;

/// The error of a call to a reader, a writer or a file that failed.
#[derive(Clone, Copy, Debug, PartialEq, Eq, Error)]
#[error("a read or a write failed")]
pub struct Failed;

/// A reader with a failure mark, which only a failed read sets.
pub trait Source {
    ghost use Rattle.std.specs.Prelude.{ℕ, List, Bool, Option};

    /// Whether a read has failed.
    ghost has_failed: { Self → Bool };

    /// How many reads were tried.
    ghost pulls: { Self → ℕ };

    /// How many reads were tried after one had failed.
    ghost retries: { Self → ℕ };

    /// The bytes that are still to be read, if they are known.
    ghost left: { Self → Option (List ℕ) };

    /// Reads bytes into the beginning of `buffer`, and returns how many. Returns 0 only at the end,
    /// or if the buffer is empty. The contents of the buffer after these bytes are unspecified.
    ///
    /// Fails with `Failed` if the read fails.
    fn pull(&mut self, buffer: &mut [u8]) -> Result<usize, Failed>
        ensures within { IfOk result (λ n. n ≤ length buffer.new) }
        ensures given { IfOk result (λ n.
            Consumes (left self.old) (left self.new) (take n buffer.new)) }
        ensures end { IfOk result (λ n.
            n ≡ 0 → 0 < length buffer.new → IsAtEnd (left self.new)) }
        ensures kept { OnErr result (Keeps (left self.old) (left self.new)) }

        ensures marked { OnErr result (has_failed self.new ≡ true) }
        ensures unmarked { OnOk result (has_failed self.new ≡ has_failed self.old) }

        ensures counted { pulls self.new ≡ pulls self.old + 1 }
        ensures first { has_failed self.old ≡ false → retries self.new ≡ retries self.old }
        ensures again { has_failed self.old ≡ true → retries self.new ≡ retries self.old + 1 };
}
