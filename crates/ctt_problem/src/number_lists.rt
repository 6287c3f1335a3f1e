//! A vector of lists, to which numbers or lectures are added.

ghost use Rattle.std.specs.Prelude.{◌≡◌, ℕ, ◌<◌, ◌==◌, [], length, map, get_or, IfOk, OnOk, OnErr};
ghost use Rattle.ctt_problem.specs.NumberLists.{AddsNumber};

use std::alloc::{AllocError, Global};

/// Appends a number to the list at index `place`. If memory runs out, the lists are unchanged.
pub fn add_to<N: Drop>(lists: &mut [Vec<N>], place: usize, number: N) -> Result<(), AllocError>
    requires { place < length lists.old }
    ensures added { OnOk result
        (AddsNumber (map (λ v. v.items) lists.old) (map (λ v. v.items) lists.new) number
        (λ p. place == p)) }
    ensures kept { OnErr result (map (λ v. v.items) lists.new ≡ map (λ v. v.items) lists.old) }
{
    lists[place].push(number)?;
    Ok(())
}

/// Returns `count` empty lists. Fails if memory runs out.
#[tactic(auto, using(crate::proofs::NumberListLemmas::none_more))]
pub fn empty_lists<N: Drop>(alloc: Global, count: usize) -> Result<Vec<Vec<N>>, AllocError>
    ensures size { IfOk result (λ v. length v.items ≡ count) }
    ensures empty { IfOk result (λ v. (p : ℕ) → get_or (map (λ v. v.items) v.items) p [] ≡ []) }
{
    let mut lists = Vec::new(alloc);
    for _ in 0..count {
        lists.push(Vec::new(alloc))?;
    }
    Ok(lists)
}
