//! The command `journal`.

ghost use Rattle.std.specs.Prelude.{◌≡◌, IfOk, IfErr, string_bytes};
ghost use Rattle.ctt_script.specs.Entries.{IsWritable};
ghost use Rattle.ctt_script.specs.WrittenText.{journal_text};
ghost use Rattle.ctt_files.specs.declared.fault.Fault.TheVariants.{Machine};
ghost use Rattle.ctt_files.specs.declared.fault.MachineFault.TheVariants.{NoMemory as OutOfMemory};
ghost use Rattle.ctt_files.specs.declared.outcome.Outcome.TheVariants.{Done};
ghost use Rattle.ctt_commands.specs.Recoveries.{torn_text};

use ctt_files::{Fault, Outcome, Output};
use ctt_log::Blocks;
use ctt_problem::Instance;
use ctt_script::write_journal;
use std::alloc::{AllocError, Global};

/// Returns the line that reports an incomplete entry by the byte at which it begins, or an empty
/// text.
fn torn_line(alloc: Global, torn: Option<usize>) -> Result<String, AllocError>
    ensures { IfOk result (λ line. string_bytes line ≡ torn_text torn) }
{
    match torn {
        Some(at) => format!(in alloc; "timedesk: torn at byte {at}\n"),
        None => Ok(String::new(alloc)),
    }
}

/// Returns the journal of the whole entries of minutes, and reports an incomplete entry.
pub(crate) fn journal(alloc: Global, instance: &Instance, minutes: &Blocks) -> Result<Output, Fault>
    requires { IsWritable instance.now minutes.now.entries.items }
    ensures text { IfOk result (λ output.
        output.text.items ≡ journal_text instance.now minutes.now.entries.items) }
    ensures torn { IfOk result (λ output.
        string_bytes output.diagnostics ≡ torn_text minutes.now.torn) }
    ensures done { IfOk result (λ output. output.outcome ≡ Done) }
    ensures cause { IfErr result (λ fault. fault ≡ Machine OutOfMemory) }
{
    let text = write_journal(alloc, instance, minutes.entries.as_slice())?;
    Ok(Output {
        text,
        diagnostics: torn_line(alloc, minutes.torn)?,
        outcome: Outcome::Done,
    })
}
