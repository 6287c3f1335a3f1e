//! A writer, and functions that write whole texts to it.

ghost use Rattle.std.specs.Prelude.{◌≡◌, ◌+◌, ◌<◌, ◌≤◌, [], true, length, take, IfOk, OnOk, OnErr, string_bytes};
ghost use Rattle.std.specs.Io.KnownBytes.{Appends, Keeps};
ghost use Rattle.ctt_files.specs.Output.{AppendsFront, AppendsPart, WritesOut};

use crate::source::Failed;

/// A writer with a failure mark, which is set by a write or a flush that fails, and by a write that
/// takes none of the bytes given to it.
pub trait Sink {
    ghost use Rattle.std.specs.Prelude.{ℕ, List, Bool, Option};

    /// Whether a call has failed, or has taken none of the bytes that it was given.
    ghost has_failed: { Self → Bool };

    /// All bytes that were taken, if they are known.
    ghost taken: { Self → Option (List ℕ) };

    /// How many writes have taken bytes since the last flush that succeeded.
    ghost unflushed: { Self → ℕ };

    /// Takes a prefix of `bytes`, and returns its length.
    ///
    /// Fails with `Failed` if the write fails, and then has taken nothing.
    fn put(&mut self, bytes: &[u8]) -> Result<usize, Failed>
        ensures within { IfOk result (λ n. n ≤ length bytes.now) }
        ensures took { IfOk result (λ n.
            Appends (taken self.old) (taken self.new) (take n bytes.now)) }
        ensures kept { OnErr result (Keeps (taken self.old) (taken self.new)) }

        ensures marked { OnErr result (has_failed self.new ≡ true) }
        ensures idle { IfOk result (λ n.
            n ≡ 0 → 0 < length bytes.now → has_failed self.new ≡ true) }
        ensures unmarked { IfOk result (λ n. 0 < n → has_failed self.new ≡ has_failed self.old) }
        ensures empty { OnOk result (bytes.now ≡ [] → has_failed self.new ≡ has_failed self.old) }

        ensures waits { IfOk result (λ n. 0 < n → unflushed self.new ≡ unflushed self.old + 1) }
        ensures idles { IfOk result (λ n. n ≡ 0 → unflushed self.new ≡ unflushed self.old) }
        ensures fails { OnErr result (unflushed self.new ≡ unflushed self.old) };

    /// Flushes the bytes that were taken.
    ///
    /// Fails with `Failed` if the flush fails.
    fn flush(&mut self) -> Result<(), Failed>
        ensures kept { Keeps (taken self.old) (taken self.new) }
        ensures marked { OnErr result (has_failed self.new ≡ true) }
        ensures unmarked { OnOk result (has_failed self.new ≡ has_failed self.old) }

        ensures flushed { OnOk result (unflushed self.new ≡ 0) }
        ensures still { OnErr result (unflushed self.new ≡ unflushed self.old) };
}

/// Writes all of `bytes`, with as many writes as needed.
///
/// Fails with `Failed` if a write fails or takes nothing. No further write is tried, and a prefix
/// of the bytes was taken.
pub fn put_all<W: Sink>(writer: &mut W, bytes: &[u8]) -> Result<(), Failed>
    ensures all { OnOk result (Appends (W.taken writer.old) (W.taken writer.new) bytes.now) }
    ensures part { OnErr result (AppendsPart (W.taken writer.old) (W.taken writer.new) bytes.now) }

    ensures marked { OnErr result (W.has_failed writer.new ≡ true) }
    ensures unmarked { OnOk result (W.has_failed writer.new ≡ W.has_failed writer.old) }
{
    let mut written = 0;
    while written < bytes.len() {
        let n = writer.put(&bytes[written..])?;
        if n == 0 {
            return Err(Failed);
        }
        written += n;
    }
    Ok(())
}

/// Writes all of `bytes` as `put_all` does, and flushes them.
///
/// Fails with `Failed` also if all bytes were taken and the flush fails. No flush is tried after a
/// failed write.
pub fn put_whole<W: Sink>(writer: &mut W, bytes: &[u8]) -> Result<(), Failed>
    ensures all { OnOk result (Appends (W.taken writer.old) (W.taken writer.new) bytes.now) }
    ensures front { OnErr result
        (AppendsFront (W.taken writer.old) (W.taken writer.new) bytes.now) }
    ensures flushed { OnOk result (W.unflushed writer.new ≡ 0) }

    ensures marked { OnErr result (W.has_failed writer.new ≡ true) }
    ensures unmarked { OnOk result (W.has_failed writer.new ≡ W.has_failed writer.old) }
{
    put_all(writer, bytes)?;
    writer.flush()
}

/// The length in bytes from which a text is long: it takes few writes, and little memory.
const LONG: usize = 32_768;

/// Writes a text if it is long, and clears it. A shorter text is unchanged.
///
/// Fails with `Failed` if a write fails or takes nothing.
pub fn put_long<W: Sink>(writer: &mut W, text: &mut String) -> Result<(), Failed>
    ensures written { OnOk result
        (WritesOut (W.taken writer.old) (W.taken writer.new) (string_bytes text.old)
        (string_bytes text.new)) }
    ensures front { OnErr result
        (AppendsFront (W.taken writer.old) (W.taken writer.new) (string_bytes text.old)) }

    ensures marked { OnErr result (W.has_failed writer.new ≡ true) }
    ensures unmarked { OnOk result (W.has_failed writer.new ≡ W.has_failed writer.old) }
{
    if text.len() < LONG {
        return Ok(());
    }
    put_all(writer, text.as_bytes())?;
    text.clear();
    Ok(())
}
