//! The cheapest edits of a pattern.

ghost use Rattle.std.specs.Prelude.{◌≡◌, ◌≤◌, [], ◌∷◌, length, take, IfOk, OnOk};
ghost use Rattle.std.specs.List.{position, position_or_len, AllByRecursion as Each};
ghost use Rattle.ctt_problem.specs.Lists.{put};
ghost use Rattle.ctt_edits.specs.Candidates.{from_to, edits_with, edits_by, n_cheapest};
ghost use Rattle.ctt_edits.specs.Edits.{EditFits};
ghost use Rattle.ctt_edits.specs.Patterns.{PatternFits, pattern_fault, feasible, is_cheaper, cheapest};

use crate::edit::Edit;
use crate::fault::EditFault;
use crate::pattern::Pattern;
use crate::priced_edit::{PricedEdit, PricedEdits};
use crate::pricing::price;
use ctt_board::Sheet;
use ctt_problem::NoMemory;
use std::alloc::Global;
use std::ops::Range;

/// Returns why each edit of a pattern is refused, if one reason holds for all of them: the lecture
/// that it names is not placed, or all lectures of its course are.
pub(crate) fn pattern_fault<'i, S: Sheet<'i>>(sheet: &S, pattern: &Pattern) -> Option<EditFault>
    requires { PatternFits (S.problem sheet.now) pattern.now }
    ensures { result ≡ pattern_fault (S.problem sheet.now) (S.list sheet.now) pattern.now }
{
    match *pattern {
        Pattern::Place(course, ..) => {
            let is_full = sheet.count(course) >= sheet.instance().lectures(course);
            is_full.then_some(EditFault::CourseFull)
        }
        Pattern::Move(course, slot, ..)
        | Pattern::Swap(course, slot)
        | Pattern::Reroom(course, slot, _) => {
            let is_missing = sheet.room_at(course, slot).is_none();
            is_missing.then_some(EditFault::NotPlaced)
        }
    }
}

fn is_cheaper(edit: &PricedEdit, other: &PricedEdit) -> bool
    ensures { result ≡ is_cheaper edit.now other.now }
{
    edit.price < other.price
}

/// Returns the index of the first edit that is dearer than a new one.
fn first_dearer(list: &[PricedEdit], new: &PricedEdit) -> Option<usize>
    ensures { result ≡ position (is_cheaper new.now) list.now }
{
    list.iter().position(|other| is_cheaper(new, other))
}

/// Returns the index at which a new edit is inserted: that of the first dearer edit, or the end.
fn insertion_point(list: &[PricedEdit], new: &PricedEdit) -> usize
    ensures index { result ≡ position_or_len (is_cheaper new.now) list.now }
    ensures within { result ≤ length list.now }
{
    match first_dearer(list, new) {
        Some(index) => index,
        None => list.len(),
    }
}

/// Inserts an edit before the first dearer one, and truncates the list to `count` edits.
#[tactic(auto, using(crate::proofs::CheapestLemmas::inserted_is))]
fn insert_by_price(list: &mut Vec<PricedEdit>, count: u16, new: PricedEdit) -> Result<(), NoMemory>
    ensures { OnOk result (list.new.items ≡ take count (put is_cheaper new list.old.items)) }
{
    let index = insertion_point(list.as_slice(), &new);
    list.insert(index, new)?;
    list.truncate(count as usize);
    Ok(())
}

/// Inserts an edit if it has no fault.
fn add_edit<'i, S: Sheet<'i>>(
    list: &mut Vec<PricedEdit>,
    sheet: &S,
    count: u16,
    edit: &Edit,
) -> Result<(), NoMemory>
    requires { EditFits (S.problem sheet.now) edit.now }
    ensures { OnOk result (list.new.items
        ≡ n_cheapest count list.old.items
        (feasible (S.problem sheet.now) (S.list sheet.now) (edit.now ∷ []))) }
{
    match price(sheet, edit) {
        Ok(price) => insert_by_price(list, count, PricedEdit { edit: *edit, price }),
        Err(_) => Ok(()),
    }
}

/// Inserts the edits of a pattern that have this first choice and no fault.
fn add_edits_with<'i, S: Sheet<'i>>(
    list: &mut Vec<PricedEdit>,
    sheet: &S,
    count: u16,
    pattern: &Pattern,
    first: u16,
    seconds: &Range<u16>,
) -> Result<(), NoMemory>
    requires { Each (EditFits (S.problem sheet.now))
        (edits_with pattern.now (from_to seconds.now.start seconds.now.end) first) }
    ensures { OnOk result (list.new.items
        ≡ n_cheapest count list.old.items
        (feasible (S.problem sheet.now) (S.list sheet.now)
        (edits_with pattern.now (from_to seconds.now.start seconds.now.end) first))) }
{
    for second in seconds.start..seconds.end {
        add_edit(list, sheet, count, &pattern.edit(first, second))?;
    }
    Ok(())
}

/// Inserts the edits of a pattern that have no fault.
fn add_edits<'i, S: Sheet<'i>>(
    list: &mut Vec<PricedEdit>,
    sheet: &S,
    count: u16,
    pattern: &Pattern,
    firsts: &Range<u16>,
    seconds: &Range<u16>,
) -> Result<(), NoMemory>
    requires { Each (EditFits (S.problem sheet.now))
        (edits_by pattern.now (from_to firsts.now.start firsts.now.end)
        (from_to seconds.now.start seconds.now.end)) }
    ensures { OnOk result (list.new.items
        ≡ n_cheapest count list.old.items
        (feasible (S.problem sheet.now) (S.list sheet.now)
        (edits_by pattern.now (from_to firsts.now.start firsts.now.end)
        (from_to seconds.now.start seconds.now.end)))) }
{
    for first in firsts.start..firsts.end {
        add_edits_with(list, sheet, count, pattern, first, seconds)?;
    }
    Ok(())
}

/// Returns the cheapest edits of a pattern that have no fault, at most `count`, the cheapest first.
/// The list never holds more than `count + 1` edits.
pub(crate) fn cheapest<'i, S: Sheet<'i>>(
    alloc: Global,
    sheet: &S,
    count: u16,
    pattern: &Pattern,
) -> Result<PricedEdits, NoMemory>
    requires { PatternFits (S.problem sheet.now) pattern.now }
    ensures { IfOk result (λ edits.
        edits ≡ cheapest (S.problem sheet.now) (S.list sheet.now) count pattern.now) }
{
    let instance = sheet.instance();
    let mut list = Vec::new(alloc);
    let firsts = pattern.first_choices(instance);
    let seconds = pattern.second_choices(instance);
    add_edits(&mut list, sheet, count, pattern, &firsts, &seconds)?;
    Ok(PricedEdits::new(list))
}
