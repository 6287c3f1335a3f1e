//! Loading instances and solutions from files by name.

ghost use Rattle.std.specs.Prelude.{◌≡◌, IfOk, OnOk, IfErr, IfSome};
ghost use Rattle.std.specs.String.{string_bytes};
ghost use Rattle.std.specs.List.{AllByRecursion as Each};
ghost use Rattle.ctt_problem.specs.Timetable.{Fits, IsTimetable};
ghost use Rattle.ctt_files.specs.Refusals.{IsOfBarred, IsOfBlocked, IsOfInstance, IsOfInstanceIn, IsOfSides, IsOfSolution, IsOfStart};
ghost use Rattle.ctt_files.specs.Texts.{HasSides, IsBarredBy, IsBlockedBy, IsInstanceIn, IsInstanceText, IsSolutionText, IsStart};

use crate::fault::Fault;
use crate::files::{Files, read_file};
use crate::refused::{refuse_barred, refuse_blocked, refuse_instance, refuse_solution};
use crate::sides::Sides;
use ctt_problem::{Instance, Placed, drop_whole};
use ctt_text::{read_barred, read_blocked, read_instance, read_solution};
use std::alloc::Global;

/// Loads an instance from a file. Nothing is barred or blocked in it.
fn fetch_alone<F: Files>(alloc: Global, files: &mut F, name: String) -> Result<Instance, Fault>
    ensures spelled { IfOk result (λ instance.
        IfSome (F.held files.old (string_bytes name)) (λ text. IsInstanceText text instance)) }
    ensures kept { F.held files.new ≡ F.held files.old }
    ensures cause { IfErr result (IsOfInstance (F.held files.old) name) }
{
    let file = name.clone()?;
    let text = read_file(alloc, files, name)?;
    match read_instance(alloc, &text) {
        Ok(instance) => Ok(instance),
        Err(met) => Err(refuse_instance(alloc, &file, &text, met)),
    }
}

/// Bars the rooms that a file lists in an instance, if a file is given.
fn bar_rooms<F: Files>(
    alloc: Global,
    files: &mut F,
    instance: &mut Instance,
    barred: Option<String>,
) -> Result<(), Fault>
    ensures barred { OnOk result (IsBarredBy (F.held files.old) barred instance.old instance.new) }
    ensures same { IfErr result (λ _. instance.new ≡ instance.old) }
    ensures kept { F.held files.new ≡ F.held files.old }
    ensures cause { IfErr result (IsOfBarred (F.held files.old) instance.old barred) }
{
    let Some(name) = barred else {
        return Ok(());
    };
    let file = name.clone()?;
    let text = read_file(alloc, files, name)?;
    match read_barred(alloc, instance, &text) {
        Ok(()) => Ok(()),
        Err(met) => Err(refuse_barred(alloc, &file, &text, met)),
    }
}

/// Blocks the slots that a file lists in an instance, if a file is given.
fn block_slots<F: Files>(
    alloc: Global,
    files: &mut F,
    instance: &mut Instance,
    blocked: Option<String>,
) -> Result<(), Fault>
    ensures blocked { OnOk result (IsBlockedBy (F.held files.old) blocked instance.old instance.new) }
    ensures same { IfErr result (λ _. instance.new ≡ instance.old) }
    ensures kept { F.held files.new ≡ F.held files.old }
    ensures cause { IfErr result (IsOfBlocked (F.held files.old) instance.old blocked) }
{
    let Some(name) = blocked else {
        return Ok(());
    };
    let file = name.clone()?;
    let text = read_file(alloc, files, name)?;
    match read_blocked(alloc, instance, &text) {
        Ok(()) => Ok(()),
        Err(met) => Err(refuse_blocked(alloc, &file, &text, met)),
    }
}

/// Reads the side files of an instance, that of the barred rooms first.
fn read_sides<F: Files>(
    alloc: Global,
    files: &mut F,
    instance: &mut Instance,
    sides: Sides,
) -> Result<(), Fault>
    ensures sides { OnOk result (HasSides (F.held files.old) sides instance.old instance.new) }
    ensures kept { F.held files.new ≡ F.held files.old }
    ensures cause { IfErr result (IsOfSides (F.held files.old) instance.old sides) }
{
    bar_rooms(alloc, files, instance, sides.barred)?;
    block_slots(alloc, files, instance, sides.blocked)
}

/// Loads an instance from a file, with what its side files say. They are read right after the
/// instance.
pub fn fetch_instance<F: Files>(
    alloc: Global,
    files: &mut F,
    name: String,
    sides: Sides,
) -> Result<Instance, Fault>
    ensures spelled { IfOk result (λ instance.
        IsInstanceIn (F.held files.old) name sides instance) }
    ensures kept { F.held files.new ≡ F.held files.old }
    ensures cause { IfErr result (IsOfInstanceIn (F.held files.old) name sides) }
{
    let mut instance = fetch_alone(alloc, files, name)?;
    match read_sides(alloc, files, &mut instance, sides) {
        Ok(()) => Ok(instance),
        Err(fault) => {
            drop_whole(instance);
            Err(fault)
        }
    }
}

/// Loads a timetable from a file, as a solution of the instance.
pub fn fetch_solution<F: Files>(
    alloc: Global,
    files: &mut F,
    instance: &Instance,
    name: String,
) -> Result<Vec<Placed>, Fault>
    ensures spelled { IfOk result (λ timetable.
        IfSome (F.held files.old (string_bytes name)) (λ text.
        IsSolutionText instance.now text timetable.items)) }
    ensures timetable { IfOk result (λ timetable. IsTimetable instance.now timetable.items) }
    ensures kept { F.held files.new ≡ F.held files.old }
    ensures cause { IfErr result (IsOfSolution name (F.held files.old) instance.now) }
{
    let file = name.clone()?;
    let text = read_file(alloc, files, name)?;
    match read_solution(alloc, instance, &text) {
        Ok(timetable) => Ok(timetable),
        Err(met) => Err(refuse_solution(alloc, &file, &text, met)),
    }
}

/// Loads the lectures that a desk opens with: those of the solution in a file, or none if no file
/// is given.
pub fn fetch_start<F: Files>(
    alloc: Global,
    files: &mut F,
    instance: &Instance,
    start: Option<String>,
) -> Result<Vec<Placed>, Fault>
    ensures spelled { IfOk result (λ lectures.
        IsStart instance.now (F.held files.old) start lectures.items) }
    ensures fit { IfOk result (λ lectures. Each (Fits instance.now) lectures.items) }
    ensures kept { F.held files.new ≡ F.held files.old }
    ensures cause { IfErr result (IsOfStart start (F.held files.old) instance.now) }
{
    match start {
        Some(name) => fetch_solution(alloc, files, instance, name),
        None => Ok(Vec::new(alloc)),
    }
}
