//! The program, called over files in memory. It is printed whether the words of a run ask for it,
//! then the status and the outputs of each call.

use crate::buffer::{Buffer, CAPACITY};
use crate::calls::{CALLS, Call};
use crate::files::MemoryFiles;
use crate::office::ClosedOffice;
use crate::words::reads_run;
use ctt_files::{Failed, NO_MEMORY, Sink, put_all};
use ctt_program::program;
use std::alloc::Global;
use std::marker::Sync;
use std::sync::Wait;
use std::thread::Threads;

/// The outputs of a call, and the file that it stores.
#[derive(Drop)]
struct Outputs {
    out: Buffer,
    err: Buffer,
    stored: Buffer,
}

impl Outputs {
    /// Creates empty outputs, if there is memory.
    fn new(alloc: Global) -> Option<Outputs> {
        Some(Outputs {
            out: Buffer::new(alloc)?,
            err: Buffer::new(alloc)?,
            stored: Buffer::new(alloc)?,
        })
    }
}

/// Calls the program once, and returns its status.
fn call_once<R: AllocGlobal + Threads + Wait + Sync>(
    rt: &R,
    call: &Call,
    outputs: &mut Outputs,
) -> u8 {
    outputs.stored.clear(CAPACITY);
    outputs.out.clear(call.limit);
    outputs.err.clear(CAPACITY);
    let mut files = MemoryFiles::new(&mut outputs.stored);
    program(
        rt,
        call.words,
        &mut files,
        &ClosedOffice,
        &mut outputs.out,
        &mut outputs.err,
    )
}

/// Calls the program, again if memory ran out, and returns its status and whether it was called
/// again.
fn call_twice<R: AllocGlobal + Threads + Wait + Sync>(
    rt: &R,
    call: &Call,
    outputs: &mut Outputs,
) -> (u8, bool) {
    let status = call_once(rt, call, outputs);
    if status == 3 && outputs.err.text() == NO_MEMORY.as_bytes() {
        return (call_once(rt, call, outputs), true);
    }
    (status, false)
}

/// Writes a text, and a line feed if it does not end with one.
fn put_lines<W: Sink>(out: &mut W, text: &[u8]) -> Result<(), Failed> {
    put_all(out, text)?;
    match text.last() {
        Some(b'\n') | None => Ok(()),
        Some(_) => put_all(out, b"\n"),
    }
}

/// Writes the words of a call, its status and what it left.
fn report<W: Sink>(out: &mut W, call: &Call, status: u8, outputs: &Outputs) -> Result<(), Failed> {
    for word in call.words {
        put_all(out, word.as_bytes())?;
        put_all(out, b" ")?;
    }
    put_all(out, b"= ")?;
    put_all(out, &[b'0' + status.min(9), b'\n'])?;
    put_lines(out, outputs.out.text())?;
    put_lines(out, outputs.err.text())?;
    put_lines(out, outputs.stored.text())
}

/// Parses the words of a run, again if memory ran out, and returns whether they ask for it and
/// whether they were parsed again.
fn read_twice(alloc: Global) -> (bool, bool) {
    match reads_run(alloc) {
        Some(is_run) => (is_run, false),
        None => (reads_run(alloc) == Some(true), true),
    }
}

/// Parses the words of a run, makes all calls, and writes what each left. Returns whether one was
/// repeated because memory ran out.
fn play_with<R: AllocGlobal + Threads + Wait + Sync, W: Sink>(
    rt: &R,
    outputs: &mut Outputs,
    out: &mut W,
) -> Result<bool, Failed> {
    let (is_run, repeated) = read_twice(rt.alloc());
    let first: &[u8] = if is_run {
        b"words of a run\n"
    } else {
        b"other words\n"
    };
    put_all(out, first)?;
    let mut again = repeated;
    for call in CALLS {
        let (status, repeated) = call_twice(rt, call, outputs);
        again = again || repeated;
        report(out, call, status, outputs)?;
    }
    Ok(again)
}

/// Makes all calls, and returns whether one was repeated because memory ran out.
pub(crate) fn play<R: AllocGlobal + Threads + Wait + Sync, W: Sink>(
    rt: &R,
    out: &mut W,
) -> Result<bool, Failed> {
    let (outputs, refused) = match Outputs::new(rt.alloc()) {
        Some(outputs) => (Some(outputs), false),
        None => (Outputs::new(rt.alloc()), true),
    };
    let Some(mut outputs) = outputs else {
        return Err(Failed);
    };
    let repeated = play_with(rt, &mut outputs, out)?;
    Ok(refused || repeated)
}
