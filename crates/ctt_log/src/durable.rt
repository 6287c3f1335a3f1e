//! Writers whose bytes survive a crash of the machine.

ghost use Rattle.std.specs.Prelude.{◌≡◌, true, OnErr, OnOk};
ghost use Rattle.std.specs.Io.KnownBytes.{Keeps};
ghost use Rattle.ctt_log.specs.Minutes.{Stays};

use ctt_files::{Device, Failed, Sink};
use std::fs::OpenFile;
use std::io::Write;

/// A writer that can make durable what it has taken.
pub trait Durable: Sink + Drop {
    ghost use Rattle.std.specs.Prelude.{ℕ, List, Option};

    /// The bytes that survive a crash of the machine, if they are known.
    ghost kept: { Self → Option (List ℕ) };

    /// Returns once all bytes taken are durable.
    ///
    /// `Failed` if they may not be.
    fn sync(&mut self) -> Result<(), Failed>
        ensures taken { Keeps (Self.Sink.taken self.old) (Self.Sink.taken self.new) }
        ensures kept { OnOk result (Stays (kept self.new) (Self.Sink.taken self.new)) }

        ensures marked { OnErr result (Self.Sink.has_failed self.new ≡ true) }
        ensures unmarked { OnOk result
            (Self.Sink.has_failed self.new ≡ Self.Sink.has_failed self.old) };
}

impl<F: Write + OpenFile + Drop> Durable for Device<F> {
    ghost use Rattle.std.specs.Prelude.{None};

    ghost kept = { λ _. None };

    fn sync(&mut self) -> Result<(), Failed> {
        match self.inner().sync_data() {
            Ok(()) => Ok(()),
            Err(_) => {
                self.mark();
                Err(Failed)
            }
        }
    }
}
