//! Faults of openings and journals that are refused.

ghost use Rattle.std.specs.Prelude.{◌≡◌, IfOk};
ghost use Rattle.std.specs.String.{string_bytes};
ghost use Rattle.ctt_edits.specs.Fitting.{FaultFits};
ghost use Rattle.ctt_files.specs.declared.fault.ContentsFault.TheVariants.{Journal};
ghost use Rattle.ctt_files.specs.declared.fault.Fault.TheVariants.{Contents};
ghost use Rattle.ctt_commands.specs.Faults.{IsJournalFault, IsOpeningFault, fault_of_journal, opening_line};

use ctt_edits::EditFault;
use ctt_files::{ContentsFault, Fault, MachineFault};
use ctt_problem::Instance;
use ctt_script::{JournalFault, write_fault};
use std::alloc::{AllocError, Global};
use std::fmt::Write;

/// Returns the line that reports the lecture, counted from 1, that cannot be placed in an opening.
fn opening_line(
    alloc: Global,
    instance: &Instance,
    at: u64,
    fault: &EditFault,
) -> Result<String, AllocError>
    requires { FaultFits instance.now fault.now }
    ensures { IfOk result (λ line. string_bytes line ≡ opening_line instance.now at fault.now) }
{
    let mut line = String::new(alloc);
    write!(line, "timedesk: opening {at} ")?;
    write_fault(&mut line, instance, fault)?;
    Ok(line)
}

/// Returns the fault of an opening in which this lecture, counted from 1, cannot be placed.
pub fn refused_opening(alloc: Global, instance: &Instance, at: u64, fault: &EditFault) -> Fault
    requires { FaultFits instance.now fault.now }
    ensures { IsOpeningFault instance.now at fault.now result }
{
    match opening_line(alloc, instance, at, fault) {
        Ok(line) => Fault::Contents(ContentsFault::Opening(line)),
        Err(_) => Fault::Machine(MachineFault::NoMemory),
    }
}

/// Returns the fault of this number of a journal, at this byte or word.
fn journal(number: u8, at: u64, point: String) -> Fault
    ensures { result ≡ Contents (Journal number at point) }
{
    Fault::Contents(ContentsFault::Journal { number, at, point })
}

/// Converts the fault of a journal, with the line that says where and why.
fn fault_of_journal(met: JournalFault, point: String) -> Fault
    ensures { result ≡ fault_of_journal met point }
{
    match met {
        JournalFault::NotText(byte) => journal(1, byte, point),
        JournalFault::Missing(word) => journal(2, word, point),
        JournalFault::BadWord(word) => journal(3, word, point),
        JournalFault::NoMemory => Fault::Machine(MachineFault::NoMemory),
    }
}

/// Returns the fault for the text of a journal, or of minutes, in the file of this name.
pub(crate) fn refuse_journal(alloc: Global, file: &str, text: &[u8], met: JournalFault) -> Fault
    ensures { IsJournalFault file.now text.now met result }
{
    match met.point(alloc, file, text) {
        Ok(point) => fault_of_journal(met, point),
        Err(_) => Fault::Machine(MachineFault::NoMemory),
    }
}
