//! A list that grows.

ghost use Rattle.std.specs.Prelude.{◌≡◌, ◌++◌, OnOk, option_to_list};

use ctt_problem::NoMemory;

/// Adds a value to a list, if there is one.
#[inline(always)]
pub(crate) fn push_some<T: Copy>(list: &mut Vec<T>, value: Option<T>) -> Result<(), NoMemory>
    ensures { OnOk result (list.new.items ≡ list.old.items ++ option_to_list value) }
{
    if let Some(one) = value {
        list.push(one)?;
    }
    Ok(())
}
