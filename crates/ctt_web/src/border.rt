//! The functions that a page calls. Texts cross as bytes in the memory of the module.

ghost use Rattle.std.specs.Prelude.{◌≡◌, ◌≤◌, IfErr, IfOk, length, string_bytes};
ghost use Rattle.ctt_web.specs.Answers.{Answers, IsMet, IsRefused};
ghost use Rattle.ctt_web.specs.Border.{HandsOut, IsHandedOut, IsRefusal, IsSaid, said_of};
ghost use Rattle.ctt_web.specs.declared.wanted.Wanted.TheVariants as wanted_of;

use crate::answers::answer;
use crate::asked::Asked;
use crate::wanted::Wanted;
use ctt_files::{Fault, NO_MEMORY};
use std::alloc::{AllocError, Global};

/// How a call has come out.
#[repr(C)]
#[derive(Clone, Copy)]
pub struct Reply {
    /// The exit status of the program: 0 if the text is what it prints, and else the text is what
    /// it says of its fault, and where this is.
    pub status: u32,
    /// The length of the text, also if it is too long for the buffer, which is then unchanged.
    pub length: usize,
}

/// Writes a text into the beginning of a buffer if it fits, and returns the reply.
fn hand_out(status: u8, text: &[u8], out: &mut [u8]) -> Reply
    ensures status { result.status ≡ status }
    ensures text { IsHandedOut text.now result.length out.new }
{
    if text.len() <= out.len() {
        out[..text.len()].copy_from_slice(text);
    }
    Reply {
        status: status as u32,
        length: text.len(),
    }
}

/// Returns what is said of a fault: its line, and that of its place in the file.
fn said_of(alloc: Global, fault: &Fault) -> Result<String, AllocError>
    ensures { IfOk result (λ text. string_bytes text ≡ said_of fault.now) }
{
    let mut text = fault.line(alloc)?;
    text.push_str(fault.point())?;
    Ok(text)
}

/// Says a fault. If memory runs out for what is said, that is said instead.
fn refuse(alloc: Global, fault: &Fault, out: &mut [u8]) -> Reply
    ensures { IsSaid fault.now result.status result.length out.new }
{
    match said_of(alloc, fault) {
        Ok(text) => hand_out(fault.status(), text.as_bytes(), out),
        Err(_) => hand_out(3, NO_MEMORY.as_bytes(), out),
    }
}

/// Answers a page.
fn answer_page(alloc: Global, wanted: Wanted, bytes: &[u8], asked: &Asked, out: &mut [u8]) -> Reply
    ensures answers { result.status ≡ 0 →
        HandsOut (Answers wanted bytes.now asked.now) result.length out.new }
    ensures refuses { 1 ≤ result.status →
        HandsOut (IsRefusal bytes.now asked.now result.status) result.length out.new }
{
    match answer(alloc, wanted, bytes, asked) {
        Ok(text) => hand_out(0, &text, out),
        Err(fault) => refuse(alloc, &fault, out),
    }
}

/// Gives the report with the lines of all findings.
#[unsafe(no_mangle)]
pub extern "C" fn timedesk_report(
    alloc: Global,
    bytes: &[u8],
    asked: &Asked,
    out: &mut [u8],
    told: &mut Reply,
)
    ensures answers { told.new.status ≡ 0 →
        HandsOut (Answers wanted_of.Report bytes.now asked.now) told.new.length out.new }
    ensures refuses { 1 ≤ told.new.status →
        HandsOut (IsRefusal bytes.now asked.now told.new.status) told.new.length out.new }
{
    *told = answer_page(alloc, Wanted::Report, bytes, asked, out);
}

/// Gives the report with the sentences of all findings.
#[unsafe(no_mangle)]
pub extern "C" fn timedesk_sentences(
    alloc: Global,
    bytes: &[u8],
    asked: &Asked,
    out: &mut [u8],
    told: &mut Reply,
)
    ensures answers { told.new.status ≡ 0 →
        HandsOut (Answers wanted_of.Sentences bytes.now asked.now) told.new.length out.new }
    ensures refuses { 1 ≤ told.new.status →
        HandsOut (IsRefusal bytes.now asked.now told.new.status) told.new.length out.new }
{
    *told = answer_page(alloc, Wanted::Sentences, bytes, asked, out);
}

/// Gives the report as JSON, with the name of the file.
#[unsafe(no_mangle)]
pub extern "C" fn timedesk_row(
    alloc: Global,
    bytes: &[u8],
    asked: &Asked,
    out: &mut [u8],
    told: &mut Reply,
)
    ensures answers { told.new.status ≡ 0 →
        HandsOut (Answers wanted_of.Row bytes.now asked.now) told.new.length out.new }
    ensures refuses { 1 ≤ told.new.status →
        HandsOut (IsRefusal bytes.now asked.now told.new.status) told.new.length out.new }
{
    *told = answer_page(alloc, Wanted::Row, bytes, asked, out);
}

/// Gives the findings as a table in CSV.
#[unsafe(no_mangle)]
pub extern "C" fn timedesk_findings(
    alloc: Global,
    bytes: &[u8],
    asked: &Asked,
    out: &mut [u8],
    told: &mut Reply,
)
    ensures answers { told.new.status ≡ 0 →
        HandsOut (Answers wanted_of.Findings bytes.now asked.now) told.new.length out.new }
    ensures refuses { 1 ≤ told.new.status →
        HandsOut (IsRefusal bytes.now asked.now told.new.status) told.new.length out.new }
{
    *told = answer_page(alloc, Wanted::Findings, bytes, asked, out);
}

/// Gives the page of all weeks.
#[unsafe(no_mangle)]
pub extern "C" fn timedesk_page(
    alloc: Global,
    bytes: &[u8],
    asked: &Asked,
    out: &mut [u8],
    told: &mut Reply,
)
    ensures answers { told.new.status ≡ 0 →
        HandsOut (Answers wanted_of.Page bytes.now asked.now) told.new.length out.new }
    ensures refuses { 1 ≤ told.new.status →
        HandsOut (IsRefusal bytes.now asked.now told.new.status) told.new.length out.new }
{
    *told = answer_page(alloc, Wanted::Page, bytes, asked, out);
}
