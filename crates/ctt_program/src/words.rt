//! The words of the command line, as the system gives them.

ghost use Rattle.std.specs.Prelude.{◌≡◌, ◌≤◌, ◌⊎◌, ℕ, List, true, false, IfErr};
ghost use Rattle.ctt_files.specs.declared.fault.Fault.TheVariants.{Machine, Usage};
ghost use Rattle.ctt_files.specs.declared.fault.MachineFault.TheVariants.{NoMemory};
ghost use Rattle.ctt_files.specs.declared.fault.UsageFault.TheVariants.{WordsNotText};
ghost use Rattle.ctt_program.specs.Served.{IsServed, IsUnserved};
ghost use Rattle.ctt_program.specs.Streams.{stream};

use crate::jobs::{program, report};
use crate::office::Office;
use ctt_files::{Fault, Files, MachineFault, Sink, UsageFault};
use std::alloc::AllocError;
use std::marker::Sync;
use std::rt::Env;
use std::sync::Wait;
use std::thread::Threads;
use std::{env, io};

/// Returns the words of the command line, the first of which is the program's name.
fn owned_words<R: Env + AllocGlobal>(rt: &R) -> Result<Vec<String>, Fault>
    ensures { IfErr result (λ fault. (fault ≡ Usage WordsNotText) ⊎ (fault ≡ Machine NoMemory)) }
{
    match env::args(rt) {
        Ok(words) => Ok(words.collect(rt.alloc())?),
        Err(error) if error.kind() == io::ErrorKind::OutOfMemory => {
            Err(Fault::Machine(MachineFault::NoMemory))
        }
        Err(_) => Err(Fault::Usage(UsageFault::WordsNotText)),
    }
}

/// Does what the command line asks for, and returns the exit status, as `program` does.
pub fn serve<R: Env + AllocGlobal + Threads + Wait + Sync, F: Files, O: Office, W: Sink, V: Sink>(
    rt: &R,
    files: &mut F,
    office: &O,
    out: &mut W,
    err: &mut V,
) -> u8
    requires out { W.has_failed out.old ≡ false }
    requires err { V.has_failed err.old ≡ false }

    ensures known { result ≤ 5 }
    ensures unmarked { result ≡ 0 → W.has_failed out.new ≡ false }
    ensures unprinted { result ≡ 2 → out.new ≡ out.old }
    ensures unwritten { W.has_failed out.new ≡ true → result ≡ 3 }
    ensures served { ((words : List (List ℕ)) × IsServed words result
        (F.held files.old) (F.held files.new) (stream W.taken W.has_failed out.old out.new)
        (stream V.taken V.has_failed err.old err.new))
        ⊎ IsUnserved result
        (F.held files.old) (F.held files.new) (stream W.taken W.has_failed out.old out.new)
        (stream V.taken V.has_failed err.old err.new) }
{
    let owned = match owned_words(rt) {
        Ok(owned) => owned,
        Err(fault) => return report(rt.alloc(), false, &fault, err),
    };
    let words: Result<Vec<&str>, AllocError> = owned
        .iter()
        .map(|word| word.as_str())
        .collect(rt.alloc());
    let Ok(words) = words else {
        return report(
            rt.alloc(),
            false,
            &Fault::Machine(MachineFault::NoMemory),
            err,
        );
    };
    program(rt, &words, files, office, out, err)
}
