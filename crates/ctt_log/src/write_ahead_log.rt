//! The log of accepted drafts that the threads of a desk share: each entry is written after all
//! earlier ones.

ghost use Rattle.std.specs.Prelude.{◌≡◌, false, true, OnErr, OnOk};
ghost use Rattle.ctt_log.specs.Minutes.{EndsWith, CouldNotEnter, IsInMinutes, IsSound};

use crate::begun::Begun;
use crate::durable::Durable;
use crate::log_writer::{Attempt, LogWriter};
use ctt_desk::{Naming, Receipt};
use ctt_files::Failed;
use std::sync::{Condvar, Mutex, MutexGuard, Wait};

/// The writer of minutes, shared by the threads of the seats.
#[derive(Drop)]
pub struct WriteAheadLog<W: Durable, J: Naming + Begun> {
    writer: Mutex<LogWriter<W, J>>,
    /// Signalled when an entry has been written, or could not be.
    turned: Condvar,
}

impl<W: Durable, J: Naming + Begun> WriteAheadLog<W, J> {
    /// Creates a log on this writer, in which nothing is written.
    pub fn new(writer: W) -> Self
        requires { J.start ≡ W.Sink.taken writer }
    {
        WriteAheadLog {
            writer: Mutex::new(LogWriter::new(writer)),
            turned: Condvar::new(),
        }
    }

    /// Returns whether an entry could not be written.
    pub fn has_failed<R: Wait>(&self, rt: &R) -> bool
        ensures sound { result ≡ false → IsSound W.Sink.taken J.problem J.start }
        ensures cause { result ≡ true
            → CouldNotEnter W.Sink.taken W.Sink.has_failed J.problem J.start }
    {
        self.writer.lock(rt).has_failed()
    }

    /// Returns the writer when no planner can commit any more.
    pub fn into_writer(self) -> LogWriter<W, J> {
        let WriteAheadLog { writer, turned: _ } = self;
        writer.into_inner()
    }

    /// Writes the entry of the last draft in the history of a receipt, after it has waited until
    /// all earlier ones are written.
    ///
    /// `Failed` if an entry could not be written.
    pub fn enter<R: Wait>(&self, rt: &R, receipt: &Receipt<J>, entry: &[u8]) -> Result<(), Failed>
        requires { EndsWith J.problem receipt.now entry.now }
        ensures entered { OnOk result
            (IsInMinutes W.Sink.taken W.kept J.problem J.start receipt.now) }
        ensures failed { OnErr result
            (CouldNotEnter W.Sink.taken W.Sink.has_failed J.problem J.start) }
    {
        let mut writer = self.writer.lock(rt);
        for _ in rt.forever() {
            let attempt = writer.enter(receipt, entry);
            if attempt != Attempt::NotYet {
                MutexGuard::unlock(writer);
                self.turned.notify_all();
                return if attempt == Attempt::Entered {
                    Ok(())
                } else {
                    Err(Failed)
                };
            }
            writer = self.turned.wait(rt, writer);
        }
        unreachable!()
    }
}
