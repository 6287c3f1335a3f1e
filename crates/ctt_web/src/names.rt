//! The names that a page passes.

ghost use Rattle.std.specs.Prelude.{◌≡◌, IfErr, IfOk, string_bytes};
ghost use Rattle.ctt_web.specs.Asked.{AreNames, IsGivenAs, IsNoName, IsUnnamed, part_of};

use crate::asked::{Asked, Part, bytes_at};
use ctt_files::{Fault, Sides, UsageFault};
use std::alloc::Global;

/// The names of the files that are checked.
#[derive(Drop)]
pub(crate) struct Names {
    pub(crate) instance: String,
    pub(crate) sides: Sides,
    pub(crate) solution: String,
}

/// Returns the name in a part of the bytes.
pub(crate) fn name_in(alloc: Global, bytes: &[u8], place: Part) -> Result<String, Fault>
    ensures name { IfOk result (λ name. string_bytes name ≡ part_of bytes.now place) }
    ensures cause { IfErr result (IsNoName (part_of bytes.now place)) }
{
    match str::from_utf8(bytes_at(bytes, place)) {
        Ok(name) => Ok(String::from_str(alloc, name)?),
        Err(_) => Err(Fault::Usage(UsageFault::WordsNotText)),
    }
}

/// Returns the name in a part of the bytes, if it is given.
fn name_if(alloc: Global, given: bool, bytes: &[u8], place: Part) -> Result<Option<String>, Fault>
    ensures name { IfOk result (IsGivenAs given (part_of bytes.now place)) }
    ensures cause { IfErr result (IsNoName (part_of bytes.now place)) }
{
    if !given {
        return Ok(None);
    }
    Ok(Some(name_in(alloc, bytes, place)?))
}

/// Returns the names of the side files that are given.
fn sides_of(alloc: Global, bytes: &[u8], asked: &Asked) -> Result<Sides, Fault>
    ensures barred { IfOk result (λ sides.
        IsGivenAs asked.now.has_barred (part_of bytes.now asked.now.barred.name) sides.barred) }
    ensures blocked { IfOk result (λ sides.
        IsGivenAs asked.now.has_blocked (part_of bytes.now asked.now.blocked.name) sides.blocked) }
    ensures cause { IfErr result (IsUnnamed bytes.now asked.now) }
{
    Ok(Sides {
        barred: name_if(alloc, asked.has_barred, bytes, asked.barred.name)?,
        blocked: name_if(alloc, asked.has_blocked, bytes, asked.blocked.name)?,
    })
}

/// Returns the names of the files.
pub(crate) fn names_of(alloc: Global, bytes: &[u8], asked: &Asked) -> Result<Names, Fault>
    ensures names { IfOk result (AreNames bytes.now asked.now) }
    ensures cause { IfErr result (IsUnnamed bytes.now asked.now) }
{
    Ok(Names {
        instance: name_in(alloc, bytes, asked.instance.name)?,
        sides: sides_of(alloc, bytes, asked)?,
        solution: name_in(alloc, bytes, asked.solution.name)?,
    })
}
