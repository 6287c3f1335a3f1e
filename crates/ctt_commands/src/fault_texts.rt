//! The faults of files that are compared.

ghost use Rattle.std.specs.Prelude.{◌≡◌, ◌++◌, IfOk, OnOk, flat_map, string_bytes};
ghost use Rattle.ctt_commands.specs.FaultTexts.{code_text, contents_kind, contents_text, fault_text, kind_text, machine_text, refusal_text, refusal_if, refusal_line, refusals, refusals_in};

use crate::group::{Candidate, Group};
use ctt_files::{ContentsFault, Fault, MachineFault};
use std::alloc::{AllocError, Global};
use std::fmt::Write;

/// Returns the code of a fault, and its word or byte.
fn code_text(alloc: Global, code: &str, at: u64) -> Result<String, AllocError>
    ensures { IfOk result (λ text. string_bytes text ≡ code_text code.now at) }
{
    format!(in alloc; "{code} {at}")
}

/// Returns the text of a fault of contents.
fn contents_text(alloc: Global, met: &ContentsFault) -> Result<String, AllocError>
    ensures { IfOk result (λ text. string_bytes text ≡ contents_text met.now) }
{
    match met {
        ContentsFault::Instance { met, .. } => code_text(alloc, met.code(), met.at()),
        ContentsFault::Solution { met, .. } => code_text(alloc, met.code(), met.at()),
        _ => String::from_str(alloc, "refused"),
    }
}

/// Returns the text of a fault of the machine.
fn machine_text(met: &MachineFault) -> &'static str
    ensures { result.now ≡ machine_text met.now }
{
    match met {
        MachineFault::CannotRead(_) => "cannot read",
        MachineFault::TooLong(_) => "too long",
        _ => "refused",
    }
}

/// Returns the text of a fault.
pub(crate) fn fault_text(alloc: Global, fault: &Fault) -> Result<String, AllocError>
    ensures { IfOk result (λ text. string_bytes text ≡ fault_text fault.now) }
{
    match fault {
        Fault::Contents(met) => contents_text(alloc, met),
        Fault::Machine(met) => String::from_str(alloc, machine_text(met)),
        Fault::Usage(_) => String::from_str(alloc, "refused"),
    }
}

/// Returns what should be in a file with these contents, or nothing.
fn contents_kind(met: &ContentsFault) -> &'static str
    ensures { result.now ≡ contents_kind met.now }
{
    match met {
        ContentsFault::Instance { .. } => "instance ",
        ContentsFault::Solution { .. } => "solution ",
        _ => "",
    }
}

/// Returns what should be in a file whose contents are refused, or nothing.
fn kind_text(fault: &Fault) -> &'static str
    ensures { result.now ≡ kind_text fault.now }
{
    match fault {
        Fault::Contents(met) => contents_kind(met),
        Fault::Machine(_) | Fault::Usage(_) => "",
    }
}

/// Adds the line of a file that is refused.
fn push_line(alloc: Global, lines: &mut String, file: &str, fault: &Fault) -> Result<(), AllocError>
    ensures { OnOk result (string_bytes lines.new
        ≡ string_bytes lines.old ++ refusal_line file.now fault.now) }
{
    lines.push_str("timedesk: ")?;
    lines.push_str(file)?;
    lines.push_str(": ")?;
    lines.push_str(kind_text(fault))?;
    lines.push_str(&fault_text(alloc, fault)?)?;
    lines.push_str("\n")
}

/// Adds what is said of a file that is refused.
fn push_refusal(
    alloc: Global,
    lines: &mut String,
    point: bool,
    file: &str,
    fault: &Fault,
) -> Result<(), AllocError>
    ensures { OnOk result (string_bytes lines.new
        ≡ string_bytes lines.old ++ refusal_text point file.now fault.now) }
{
    push_line(alloc, lines, file, fault)?;
    if point {
        lines.push_str(fault.point())?;
    }
    Ok(())
}

/// Adds what is said of a file, if it is refused.
fn push_candidate(
    alloc: Global,
    lines: &mut String,
    point: bool,
    candidate: &Candidate,
) -> Result<(), AllocError>
    ensures { OnOk result (string_bytes lines.new ≡ string_bytes lines.old
        ++ refusal_if point (string_bytes candidate.now.file) candidate.now.solution) }
{
    match &candidate.solution {
        Ok(_) => Ok(()),
        Err(fault) => push_refusal(alloc, lines, point, &candidate.file, fault),
    }
}

/// Adds what is said of the files of an instance.
fn push_candidates(
    alloc: Global,
    lines: &mut String,
    point: bool,
    candidates: &[Candidate],
) -> Result<(), AllocError>
    ensures { OnOk result (string_bytes lines.new ≡ string_bytes lines.old
        ++ flat_map (λ candidate. refusal_if point (string_bytes candidate.file)
        candidate.solution) candidates.now) }
{
    for candidate in candidates {
        push_candidate(alloc, lines, point, candidate)?;
    }
    Ok(())
}

/// Adds what is said of an instance and its files.
fn push_group(
    alloc: Global,
    lines: &mut String,
    point: bool,
    group: &Group,
) -> Result<(), AllocError>
    ensures { OnOk result (string_bytes lines.new
        ≡ string_bytes lines.old ++ refusals_in point group.now) }
{
    match group {
        Group::Read { candidates, .. } => push_candidates(alloc, lines, point, candidates),
        Group::Refused { name, fault, .. } => push_refusal(alloc, lines, point, name, fault),
    }
}

/// Returns what is said of all files that are refused: a line each, and the place of the fault in
/// the file if that is asked for.
pub(crate) fn refusals(alloc: Global, point: bool, groups: &[Group]) -> Result<String, AllocError>
    ensures { IfOk result (λ lines. string_bytes lines ≡ refusals point groups.now) }
{
    let mut lines = String::new(alloc);
    for group in groups {
        push_group(alloc, &mut lines, point, group)?;
    }
    Ok(lines)
}
