//! Which curricula each course belongs to.

ghost use Rattle.std.specs.Prelude.{◌≡◌, ℕ, ◌<◌, ◌≤◌, [], length, map, get_or, IfOk, OnOk};
ghost use Rattle.ctt_problem.specs.Lists.{below, has};
ghost use Rattle.ctt_problem.specs.Problem.{AreMembers};
ghost use Rattle.ctt_problem.specs.NumberLists.{AddsNumber};

use crate::course_facts::CourseFacts;
use crate::ids::{CourseNo, CurriculumNo};
use crate::number_lists::{add_to, empty_lists};
use std::alloc::{AllocError, Global};

/// Appends a curriculum to the lists of its members.
fn add_to_members(
    lists: &mut [Vec<CurriculumNo>],
    members: &[CourseNo],
    curriculum: CurriculumNo,
) -> Result<(), AllocError>
    requires { AreMembers (length lists.old) members.now }
    ensures { OnOk result
        (AddsNumber (map (λ v. v.items) lists.old) (map (λ v. v.items) lists.new) curriculum
        (λ c. has c members.now)) }
{
    for member in members {
        add_to(lists, member.get() as usize, curriculum)?;
    }
    Ok(())
}

/// Appends each curriculum to the lists of its members.
fn add_all(lists: &mut [Vec<CurriculumNo>], curricula: &[Vec<CourseNo>]) -> Result<(), AllocError>
    requires few { length curricula.now ≤ 20000 }
    requires members { (k : ℕ)
        → k < length curricula.now
        → AreMembers (length lists.old) (get_or (map (λ v. v.items) curricula.now) k []) }
    requires empty { (c : ℕ) → get_or (map (λ v. v.items) lists.old) c [] ≡ [] }
    ensures size { OnOk result (length lists.new ≡ length lists.old) }
    ensures lists { OnOk result
        ((c : ℕ)
        → c < length lists.old
        → get_or (map (λ v. v.items) lists.new) c []
        ≡ below (λ q. has c (get_or (map (λ v. v.items) curricula.now) q []))
        (length curricula.now)) }
{
    for (number, members) in curricula.iter().enumerate() {
        add_to_members(lists, members, CurriculumNo::new(number as u16))?;
    }
    Ok(())
}

/// Returns for each course the curricula that it is a member of, ascending.
pub(crate) fn belonging(
    alloc: Global,
    courses: &[CourseFacts],
    curricula: &[Vec<CourseNo>],
) -> Result<Vec<Vec<CurriculumNo>>, AllocError>
    requires few { length curricula.now ≤ 20000 }
    requires members { (k : ℕ)
        → k < length curricula.now
        → AreMembers (length courses.now) (get_or (map (λ v. v.items) curricula.now) k []) }
    ensures size { IfOk result (λ v. length v.items ≡ length courses.now) }
    ensures lists { IfOk result (λ v.
        (c : ℕ)
        → c < length courses.now
        → get_or (map (λ v. v.items) v.items) c []
        ≡ below (λ q. has c (get_or (map (λ v. v.items) curricula.now) q []))
        (length curricula.now)) }
{
    let mut lists = empty_lists(alloc, courses.len())?;
    add_all(&mut lists, curricula)?;
    Ok(lists)
}
