//! Readers and writers of the system.

use crate::count::Count;
use crate::sink::Sink;
use crate::source::{Failed, Source};
use std::io::{Read, Write};

/// A reader or writer of std, with a failure mark.
#[derive(Drop)]
pub struct Device<T> {
    inner: T,
    failed: bool,
    pulls: Count,
    retries: Count,
    unflushed: Count,
}

impl<T> Device<T> {
    ghost use Rattle.std.specs.Prelude.{◌≡◌, false, true};
    ghost use Rattle.ctt_files.specs.Device.{inner_of, is_marked, pulls_of, retries_of, unflushed_of};

    /// Wraps a reader or writer, unmarked and with nothing counted.
    pub fn new(inner: T) -> Self
        ensures inner { inner_of result ≡ inner }
        ensures unmarked { is_marked result ≡ false }
        ensures unread { pulls_of result ≡ 0 }
        ensures unretried { retries_of result ≡ 0 }
        ensures flushed { unflushed_of result ≡ 0 }
    {
        Device {
            inner,
            failed: false,
            pulls: Count::new(),
            retries: Count::new(),
            unflushed: Count::new(),
        }
    }

    /// Returns the reader or writer of std.
    pub fn inner(&self) -> &T
        ensures { result.now ≡ inner_of self.now }
    {
        &self.inner
    }

    /// Sets the mark, for a failed call of std that is not a read, a write or a flush.
    pub fn mark(&mut self)
        ensures inner { inner_of self.new ≡ inner_of self.old }
        ensures marked { is_marked self.new ≡ true }
        ensures unread { pulls_of self.new ≡ pulls_of self.old }
        ensures unretried { retries_of self.new ≡ retries_of self.old }
        ensures unflushed { unflushed_of self.new ≡ unflushed_of self.old }
    {
        self.failed = true;
    }
}

impl<T: Read> Source for Device<T> {
    ghost use Rattle.ctt_files.specs.Device.{inner_of, is_marked, pulls_of, retries_of};

    ghost has_failed = { is_marked };

    ghost pulls = { pulls_of };

    ghost retries = { retries_of };

    ghost left = { λ device. T.remaining (inner_of device) };

    fn pull(&mut self, buffer: &mut [u8]) -> Result<usize, Failed> {
        self.pulls = self.pulls.next();
        if self.failed {
            self.retries = self.retries.next();
        }
        match self.inner.read(buffer) {
            Ok(n) => Ok(n),
            Err(_) => {
                self.failed = true;
                Err(Failed)
            }
        }
    }
}

impl<T: Write> Sink for Device<T> {
    ghost use Rattle.ctt_files.specs.Device.{inner_of, is_marked, unflushed_of};

    ghost has_failed = { is_marked };

    ghost taken = { λ device. T.contents (inner_of device) };

    ghost unflushed = { unflushed_of };

    fn put(&mut self, bytes: &[u8]) -> Result<usize, Failed> {
        match self.inner.write(bytes) {
            Ok(n) => {
                if n > 0 {
                    self.unflushed = self.unflushed.next();
                } else if !bytes.is_empty() {
                    self.failed = true;
                }
                Ok(n)
            }
            Err(_) => {
                self.failed = true;
                Err(Failed)
            }
        }
    }

    fn flush(&mut self) -> Result<(), Failed> {
        match self.inner.flush() {
            Ok(()) => {
                self.unflushed = Count::new();
                Ok(())
            }
            Err(_) => {
                self.failed = true;
                Err(Failed)
            }
        }
    }
}
