//! A writer whose reader may leave.

ghost use Rattle.std.specs.Prelude.{◌≡◌, false, IfErr};
ghost use Rattle.std.specs.Io.{WritesAtMost};
ghost use Rattle.std.specs.IoError.{error_kind};
ghost use Rattle.ctt_files.specs.Leaving.{is_broken_pipe, unless_left};

use std::io;
use std::io::{ErrorKind, Write};

/// A writer to a reader who may leave, as `head` does: what is then written is dropped, and that is
/// no failure.
#[derive(Drop)]
pub struct Leaving<T>(pub T);

/// Returns whether nobody reads any more.
fn is_broken_pipe(kind: ErrorKind) -> bool
    ensures { result ≡ is_broken_pipe kind }
{
    match kind {
        ErrorKind::BrokenPipe => true,
        _ => false,
    }
}

/// Returns what is told of a call that has come out so: if it failed as nobody reads any more, it
/// has done `all`.
fn unless_left<T: Copy>(called: io::Result<T>, all: T) -> io::Result<T>
    ensures told { result ≡ unless_left called all }
    ensures left { IfErr result (λ error. is_broken_pipe (error_kind error) ≡ false) }
{
    match called {
        Ok(done) => Ok(done),
        Err(error) => {
            if is_broken_pipe(error.kind()) {
                Ok(all)
            } else {
                Err(error)
            }
        }
    }
}

impl<T: Write> Write for Leaving<T> {
    fn write(&mut self, bytes: &[u8]) -> io::Result<usize>
        ensures bound { WritesAtMost result bytes.now }
        ensures left { IfErr result (λ error. is_broken_pipe (error_kind error) ≡ false) }
    {
        unless_left(self.0.write(bytes), bytes.len())
    }

    fn flush(&mut self) -> io::Result<()>
        ensures left { IfErr result (λ error. is_broken_pipe (error_kind error) ≡ false) }
    {
        unless_left(self.0.flush(), ())
    }
}
