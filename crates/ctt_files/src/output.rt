//! What a command leaves to be delivered, and its delivery to standard output and standard error.

ghost use Rattle.std.specs.Prelude.{◌≡◌, ◌≢◌, ◌⊎◌, [], true, OnOk, OnErr, IfOk, IfErr};
ghost use Rattle.std.specs.Io.KnownBytes.{Appends};
ghost use Rattle.std.specs.String.{string_bytes};
ghost use Rattle.ctt_files.specs.Output.{AppendsFront};
ghost use Rattle.ctt_files.specs.declared.fault.Fault.TheVariants.{Machine};
ghost use Rattle.ctt_files.specs.declared.fault.MachineFault.TheVariants.{CannotWrite};

use crate::fault::{Fault, MachineFault};
use crate::outcome::Outcome;
use crate::sink::{Sink, put_whole};
use std::alloc::Global;

/// What a command that has done its work leaves to be delivered.
#[derive(Drop)]
pub struct Output {
    /// The text for standard output.
    pub text: Vec<u8>,
    /// Whole lines for standard error, or nothing.
    pub diagnostics: String,
    /// The outcome, which determines the exit status.
    pub outcome: Outcome,
}

impl Output {
    /// Returns a text alone.
    pub fn new(alloc: Global, text: Vec<u8>, outcome: Outcome) -> Self
        ensures text { result.text ≡ text }
        ensures alone { string_bytes result.diagnostics ≡ [] }
        ensures outcome { result.outcome ≡ outcome }
    {
        Output {
            text,
            diagnostics: String::new(alloc),
            outcome,
        }
    }
}

/// Writes a whole text to standard output.
pub fn print<W: Sink>(out: &mut W, text: &[u8]) -> Result<(), Fault>
    ensures printed { OnOk result (Appends (W.taken out.old) (W.taken out.new) text.now) }
    ensures flushed { OnOk result (W.unflushed out.new ≡ 0) }
    ensures front { OnErr result (AppendsFront (W.taken out.old) (W.taken out.new) text.now) }
    ensures unmarked { OnOk result (W.has_failed out.new ≡ W.has_failed out.old) }
    ensures marked { OnErr result (W.has_failed out.new ≡ true) }
    ensures fault { IfErr result (λ fault. fault ≡ Machine CannotWrite) }
{
    match put_whole(out, text) {
        Ok(()) => Ok(()),
        Err(_) => Err(Fault::Machine(MachineFault::CannotWrite)),
    }
}

/// Writes a whole text to standard error. A failure only sets the mark of the writer.
pub fn write_stderr<V: Sink>(err: &mut V, text: &[u8])
    ensures said { (V.has_failed err.new ≡ true)
        ⊎ ((V.has_failed err.new ≡ V.has_failed err.old)
        × Appends (V.taken err.old) (V.taken err.new) text.now) }
    ensures flushed { (V.has_failed err.new ≡ true) ⊎ (V.unflushed err.new ≡ 0) }
{
    match put_whole(err, text) {
        Ok(()) => {}
        Err(_) => {}
    }
}

/// Prints the text, then reports the diagnostics on standard error.
///
/// A text that cannot be printed is `CannotWrite`, and then nothing is reported. What cannot be
/// reported only sets the mark of `err`.
pub fn deliver<W: Sink, V: Sink>(out: &mut W, err: &mut V, output: Output) -> Result<Outcome, Fault>
    ensures outcome { IfOk result (λ outcome. outcome ≡ output.outcome) }
    ensures prints { OnOk result
        (Appends (W.taken out.old) (W.taken out.new) output.text.items) }
    ensures flushed { OnOk result (W.unflushed out.new ≡ 0) }
    ensures unmarked { OnOk result (W.has_failed out.new ≡ W.has_failed out.old) }
    ensures says { OnOk result ((V.has_failed err.new ≡ true)
        ⊎ Appends (V.taken err.old) (V.taken err.new) (string_bytes output.diagnostics)) }
    ensures said { OnOk result ((V.has_failed err.new ≡ true)
        ⊎ (V.unflushed err.new ≡ 0) ⊎ (err.new ≡ err.old)) }
    ensures quiet { OnOk result ((string_bytes output.diagnostics ≢ []) ⊎ (err.new ≡ err.old)) }

    ensures fault { IfErr result (λ fault. fault ≡ Machine CannotWrite) }
    ensures front { OnErr result
        (AppendsFront (W.taken out.old) (W.taken out.new) output.text.items) }
    ensures marked { OnErr result (W.has_failed out.new ≡ true) }
    ensures unsaid { OnErr result (err.new ≡ err.old) }
{
    let Output {
        text,
        diagnostics,
        outcome,
    } = output;
    print(out, &text)?;
    if !diagnostics.is_empty() {
        write_stderr(err, diagnostics.as_bytes());
    }
    Ok(outcome)
}
