//! Reading a whole input.

ghost use Rattle.std.specs.Prelude.{◌≡◌, ◌↔◌, ◌+◌, ◌<◌, ◌≤◌, [], true, false, length, IfOk, OnOk, IfSome, vec_len};

use crate::source::Source;
use std::alloc::{AllocError, Global};
use thiserror::Error;

/// The maximum size of an input of the program in bytes: 64 MiB.
pub const INPUT_LIMIT: usize = 67_108_864;

/// Why an input could not be read.
#[derive(Clone, Copy, Debug, PartialEq, Eq, Error)]
pub enum InputFault {
    /// A read failed.
    #[error("a read failed")]
    Read,
    /// The input is longer than the limit.
    #[error("too long")]
    TooLong,
    /// Memory ran out.
    #[error("no memory")]
    NoMemory,
}

impl From<AllocError> for InputFault {
    ghost use Rattle.std.specs.Prelude.{◌≡◌};
    ghost use Rattle.ctt_files.specs.declared.input.InputFault.TheVariants.{NoMemory};

    ghost from_gives = { λ _ fault. fault ≡ NoMemory };

    fn from(_error: AllocError) -> InputFault {
        InputFault::NoMemory
    }
}

/// The buffer size of a read, in bytes: large enough to read a large file in few reads, and small
/// enough to be cheap for a short one.
const BUFFER_SIZE: usize = 16_384;

/// Reads up to the end, and returns all the bytes, at most `limit` of them.
///
/// Fails with `Read` if a read fails, and tries no further read; with `TooLong` if there are more
/// than `limit` bytes; and with `NoMemory` if memory runs out. After the last two, the position of
/// the reader is unspecified.
pub fn read_all<R: Source>(
    alloc: Global,
    reader: &mut R,
    limit: usize,
) -> Result<Vec<u8>, InputFault>
    requires { R.has_failed reader.old ≡ false }

    ensures all { IfOk result (λ v. IfSome (R.left reader.old) (λ bytes. v.items ≡ bytes)) }
    ensures end { OnOk result (IfSome (R.left reader.old) (λ _. R.left reader.new ≡ Some [])) }
    ensures short { IfOk result (λ v. vec_len v ≤ limit) }

    ensures failed { (result ≡ Err InputFault.Read) ↔ (R.has_failed reader.new ≡ true) }
    ensures unmarked { OnOk result (R.has_failed reader.new ≡ false) }
    ensures too_long { result ≡ Err InputFault.TooLong →
        IfSome (R.left reader.old) (λ bytes. limit < length bytes) }
    ensures no_memory { result ≡ Err InputFault.NoMemory →
        IfSome (R.left reader.old) (λ bytes. 0 < length bytes) }

    ensures once { R.retries reader.new ≡ R.retries reader.old }
    ensures few { R.pulls reader.new ≤ R.pulls reader.old + limit + 1 }
    ensures fewer { IfSome (R.left reader.old) (λ old. IfSome (R.left reader.new) (λ new.
        R.pulls reader.new + length new ≤ R.pulls reader.old + length old + 1)) }
{
    let mut bytes = Vec::new(alloc);
    let mut buffer = [0u8; BUFFER_SIZE];
    loop {
        let Ok(n) = reader.pull(&mut buffer) else {
            return Err(InputFault::Read);
        };
        if n == 0 {
            return Ok(bytes);
        }
        if n > limit - bytes.len() {
            return Err(InputFault::TooLong);
        }
        bytes.extend_from_slice(&buffer[..n])?;
    }
}
