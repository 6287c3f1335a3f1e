//! Reading the instances and solutions that are compared.

ghost use Rattle.std.specs.Prelude.{◌≡◌, ◌≢◌, ◌∷◌, [], true, false, IfOk, IfErr};
ghost use Rattle.std.specs.List.{AllByRecursion as Each};
ghost use Rattle.std.specs.String.{string_bytes};
ghost use Rattle.ctt_files.specs.Refusals.{IsOfInstanceIn, IsOfText};
ghost use Rattle.ctt_files.specs.declared.fault.Fault.TheVariants.{Machine};
ghost use Rattle.ctt_files.specs.declared.fault.MachineFault.TheVariants.{NoMemory as OutOfMemory};
ghost use Rattle.ctt_commands.specs.Groups.{AreGroups, CandidateFits, GroupFits, IsCandidate, IsCompared, IsGroup, IsReadAs, no_sides};
ghost use Rattle.ctt_commands.specs.Lists.{InTurn};
ghost use Rattle.ctt_commands.specs.Pairs.{IsNoPairs};

use crate::group::{Candidate, Group};
use crate::pairs::{Wanted, by_instance, read_pairs};
use ctt_files::{Fault, Files, MachineFault, Sides, fetch_instance, fetch_solution, read_file};
use ctt_problem::{Instance, drop_whole};
use std::alloc::{AllocError, Global};

/// Returns whether the machine lacked memory.
fn lacks_memory(met: &MachineFault) -> bool
    ensures yes { result ≡ true → met.now ≡ OutOfMemory }
    ensures no { result ≡ false → met.now ≢ OutOfMemory }
{
    match met {
        MachineFault::NoMemory => true,
        _ => false,
    }
}

/// Returns whether the fault is that memory ran out.
fn is_want_of_memory(fault: &Fault) -> bool
    ensures yes { result ≡ true → fault.now ≡ Machine OutOfMemory }
    ensures no { result ≡ false → fault.now ≢ Machine OutOfMemory }
{
    match fault {
        Fault::Machine(met) => lacks_memory(met),
        _ => false,
    }
}

/// Returns the fault of a file that is refused, unless memory ran out.
fn refused(fault: Fault) -> Result<Fault, Fault>
    ensures refused { IfOk result (λ met. (met ≡ fault) × (met ≢ Machine OutOfMemory)) }
    ensures cause { IfErr result (λ met. met ≡ Machine OutOfMemory) }
{
    if is_want_of_memory(&fault) {
        Err(fault)
    } else {
        Ok(fault)
    }
}

/// Reads a solution. The fault of a file that is refused is kept, unless memory ran out.
fn fetch_candidate<F: Files>(
    alloc: Global,
    files: &mut F,
    instance: &Instance,
    file: String,
) -> Result<Candidate, Fault>
    ensures candidate { IfOk result (IsCandidate (F.held files.old) instance.now file) }
    ensures fits { IfOk result (CandidateFits instance.now) }
    ensures kept { F.held files.new ≡ F.held files.old }
    ensures cause { IfErr result (λ fault. fault ≡ Machine OutOfMemory) }
{
    let name = file.clone()?;
    match fetch_solution(alloc, files, instance, file) {
        Ok(timetable) => Ok(Candidate {
            file: name,
            solution: Ok(timetable),
        }),
        Err(fault) => Ok(Candidate {
            file: name,
            solution: Err(refused(fault)?),
        }),
    }
}

/// Reads the solutions, in order.
fn fetch_all<F: Files>(
    alloc: Global,
    files: &mut F,
    instance: &Instance,
    solutions: Vec<String>,
) -> Result<Vec<Candidate>, Fault>
    ensures candidates { IfOk result (λ candidates.
        InTurn (IsCandidate (F.held files.old) instance.now)
        solutions.items candidates.items) }
    ensures fit { IfOk result (λ candidates.
        Each (CandidateFits instance.now) candidates.items) }
    ensures kept { F.held files.new ≡ F.held files.old }
    ensures cause { IfErr result (λ fault. fault ≡ Machine OutOfMemory) }
{
    let mut candidates = Vec::new(alloc);
    for file in solutions {
        candidates.push(fetch_candidate(alloc, files, instance, file)?)?;
    }
    Ok(candidates)
}

/// Reads the solutions of an instance that is read.
fn fetch_solutions<F: Files>(
    alloc: Global,
    files: &mut F,
    name: String,
    instance: Instance,
    solutions: Vec<String>,
) -> Result<Group, Fault>
    ensures group { IfOk result (IsReadAs (F.held files.old) name instance solutions.items) }
    ensures fits { IfOk result GroupFits }
    ensures kept { F.held files.new ≡ F.held files.old }
    ensures cause { IfErr result (λ fault. fault ≡ Machine OutOfMemory) }
{
    match fetch_all(alloc, files, &instance, solutions) {
        Ok(candidates) => Ok(Group::Read {
            name,
            instance,
            candidates,
        }),
        Err(fault) => {
            drop_whole(instance);
            Err(fault)
        }
    }
}

/// Returns a list of one group.
fn alone(alloc: Global, group: Group) -> Result<Vec<Group>, AllocError>
    ensures { IfOk result (λ groups. groups.items ≡ group ∷ []) }
{
    let mut groups = Vec::new(alloc);
    groups.push(group)?;
    Ok(groups)
}

/// Reads an instance, and then its solutions.
pub(crate) fn fetch_compared<F: Files>(
    alloc: Global,
    files: &mut F,
    instance: String,
    sides: Sides,
    solutions: Vec<String>,
) -> Result<Vec<Group>, Fault>
    ensures groups { IfOk result (λ groups.
        IsCompared (F.held files.old) instance sides solutions.items groups.items) }
    ensures fit { IfOk result (λ groups. Each GroupFits groups.items) }
    ensures kept { F.held files.new ≡ F.held files.old }
    ensures cause { IfErr result (IsOfInstanceIn (F.held files.old) instance sides) }
{
    let name = instance.clone()?;
    let instance = fetch_instance(alloc, files, instance, sides)?;
    let group = fetch_solutions(alloc, files, name, instance, solutions)?;
    Ok(alone(alloc, group)?)
}

/// Returns that there are no side files.
fn no_sides() -> Sides
    ensures { result ≡ no_sides }
{
    Sides {
        barred: None,
        blocked: None,
    }
}

/// Reads an instance, and then its solutions unless it is refused.
fn fetch_group<F: Files>(alloc: Global, files: &mut F, wanted: Wanted) -> Result<Group, Fault>
    ensures group { IfOk result (IsGroup (F.held files.old) wanted) }
    ensures fits { IfOk result GroupFits }
    ensures kept { F.held files.new ≡ F.held files.old }
    ensures cause { IfErr result (λ fault. fault ≡ Machine OutOfMemory) }
{
    let name = wanted.instance.clone()?;
    match fetch_instance(alloc, files, wanted.instance, no_sides()) {
        Ok(instance) => fetch_solutions(alloc, files, name, instance, wanted.solutions),
        Err(fault) => Ok(Group::Refused {
            name,
            fault: refused(fault)?,
            files: wanted.solutions,
        }),
    }
}

/// Reads the instances with their solutions, in order.
fn fetch_groups<F: Files>(
    alloc: Global,
    files: &mut F,
    wanted: Vec<Wanted>,
) -> Result<Vec<Group>, Fault>
    ensures groups { IfOk result (λ groups.
        InTurn (IsGroup (F.held files.old)) wanted.items groups.items) }
    ensures fit { IfOk result (λ groups. Each GroupFits groups.items) }
    ensures kept { F.held files.new ≡ F.held files.old }
    ensures cause { IfErr result (λ fault. fault ≡ Machine OutOfMemory) }
{
    let mut groups = Vec::new(alloc);
    for one in wanted {
        groups.push(fetch_group(alloc, files, one)?)?;
    }
    Ok(groups)
}

/// Reads the instances and the solutions that a list of pairs names, each instance once.
pub(crate) fn fetch_pairs<F: Files>(
    alloc: Global,
    files: &mut F,
    pairs: String,
) -> Result<Vec<Group>, Fault>
    ensures groups { IfOk result (λ groups.
        AreGroups (F.held files.old) pairs groups.items) }
    ensures fit { IfOk result (λ groups. Each GroupFits groups.items) }
    ensures kept { F.held files.new ≡ F.held files.old }
    ensures cause { IfErr result
        (IsOfText (IsNoPairs (string_bytes pairs)) (F.held files.old) pairs) }
{
    let file = pairs.clone()?;
    let text = read_file(alloc, files, pairs)?;
    let pairs = read_pairs(alloc, &file, &text)?;
    let wanted = by_instance(alloc, &pairs)?;
    fetch_groups(alloc, files, wanted)
}
