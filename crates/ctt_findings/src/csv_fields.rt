//! Fields of comma-separated values.

ghost use Rattle.std.specs.Prelude.{◌≡◌, ◌++◌, flat_map, OnOk};
ghost use Rattle.std.specs.List.{list_any};
ghost use Rattle.ctt_findings.specs.Csv.{doubled, field, is_special, next_field};

use std::alloc::AllocError;

/// Returns whether a field has to be quoted.
fn is_special(text: &[u8]) -> bool
    ensures { result ≡ list_any is_special text.now }
{
    text.iter()
        .any(|byte| matches!(*byte, b'"' | b',' | b'\n' | b'\r'))
}

/// Adds the bytes of a quoted field, in which each quote is doubled.
fn push_doubled(text: &mut Vec<u8>, field: &[u8]) -> Result<(), AllocError>
    ensures { OnOk result (text.new.items ≡ text.old.items ++ flat_map doubled field.now) }
{
    for byte in field {
        if *byte == b'"' {
            text.push(b'"')?;
        }
        text.push(*byte)?;
    }
    Ok(())
}

/// Adds the first field of a line. It is quoted if it has a comma, a quote or the end of a line.
pub fn push_field(text: &mut Vec<u8>, bytes: &[u8]) -> Result<(), AllocError>
    ensures { OnOk result (text.new.items ≡ text.old.items ++ field bytes.now) }
{
    if !is_special(bytes) {
        return text.extend_from_slice(bytes);
    }
    text.push(b'"')?;
    push_doubled(text, bytes)?;
    text.extend_from_slice(b"\"")
}

/// Adds a field after the first.
pub fn push_next_field(text: &mut Vec<u8>, bytes: &[u8]) -> Result<(), AllocError>
    ensures { OnOk result (text.new.items ≡ text.old.items ++ next_field bytes.now) }
{
    text.push(b',')?;
    push_field(text, bytes)
}
