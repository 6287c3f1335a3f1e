//! A writer into memory that is reserved.

ghost use Rattle.std.specs.Prelude.{◌≡◌, None, false};

use ctt_files::{Count, Failed, Sink};
use std::alloc::Global;

/// How many bytes a writer takes at most.
pub(crate) const CAPACITY: usize = 16_384;

/// A writer whose capacity is reserved, so that taking bytes allocates nothing.
#[derive(Drop)]
pub(crate) struct Buffer {
    text: Vec<u8>,
    /// How many more bytes it takes.
    left: usize,
    failed: bool,
    unflushed: Count,
}

impl Buffer {
    /// Creates an empty writer, if there is memory.
    pub(crate) fn new(alloc: Global) -> Option<Buffer> {
        let text = Vec::with_capacity(alloc, CAPACITY).ok()?;
        Some(Buffer {
            text,
            left: CAPACITY,
            failed: false,
            unflushed: Count::new(),
        })
    }

    /// Returns the bytes taken.
    pub(crate) fn text(&self) -> &[u8] {
        &self.text
    }

    /// Empties the writer, which then takes at most `left` bytes.
    pub(crate) fn clear(&mut self, left: usize)
        ensures { self.new.failed ≡ false }
    {
        self.text.clear();
        self.left = left;
        self.failed = false;
    }
}

impl Sink for Buffer {
    ghost has_failed = { λ buffer. buffer.failed };

    ghost taken = { λ _. None };

    ghost unflushed = { λ buffer. buffer.unflushed.number };

    fn put(&mut self, bytes: &[u8]) -> Result<usize, Failed> {
        let count = bytes.len().min(self.left);
        if count == 0 && !bytes.is_empty() {
            self.failed = true;
            return Err(Failed);
        }
        if self.text.extend_from_slice(&bytes[..count]).is_err() {
            self.failed = true;
            return Err(Failed);
        }
        self.left -= count;
        if count > 0 {
            self.unflushed = self.unflushed.next();
        }
        Ok(count)
    }

    fn flush(&mut self) -> Result<(), Failed> {
        self.unflushed = Count::new();
        Ok(())
    }
}
