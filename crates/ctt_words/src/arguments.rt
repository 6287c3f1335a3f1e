//! The values that `clap` found for the arguments of a command.

ghost use Rattle.std.specs.Prelude.{◌≡◌, map, option_map, IfOk, IsSome};
ghost use Rattle.clap.specs.Words.{all_of, first_of, found_of, one_of, rows_of};
ghost use Rattle.ctt_words.specs.Flags.{IsOnOrOff};
ghost use Rattle.ctt_words.specs.Matched.{Has, HasAll, IsSet, MayHave, count_given};

use clap::ArgMatches;
use std::alloc::{AllocError, Global};

/// Returns the text of an argument, if it is given.
pub(crate) fn given_text<'a>(given: &ArgMatches<'a>, id: &str) -> Option<&'a str>
    ensures { option_map (λ text. text.now) result ≡ first_of id.now (rows_of (found_of given.now)) }
{
    given.get_str(id)
}

/// Returns the texts of an argument, if it is given.
pub(crate) fn given_texts<'m, 'a>(given: &'m ArgMatches<'a>, id: &str) -> Option<&'m [&'a str]>
    ensures { option_map (λ texts. map (λ text. text.now) texts.now) result
        ≡ all_of id.now (rows_of (found_of given.now)) }
{
    given.get_strs(id)
}

/// Copies the text of an argument that is given.
pub(crate) fn text(alloc: Global, given: &ArgMatches<'_>, id: &str) -> Result<String, AllocError>
    requires { IsSome (first_of id.now (rows_of (found_of given.now))) }
    ensures { IfOk result (λ text. Has (rows_of (found_of given.now)) id.now text) }
{
    String::from_str(alloc, given_text(given, id).unwrap())
}

/// Copies the text of an option, if it is given.
pub(crate) fn option(
    alloc: Global,
    given: &ArgMatches<'_>,
    id: &str,
) -> Result<Option<String>, AllocError>
    ensures { IfOk result (λ text. MayHave (rows_of (found_of given.now)) id.now text) }
{
    match given_text(given, id) {
        Some(text) => Ok(Some(String::from_str(alloc, text)?)),
        None => Ok(None),
    }
}

/// Copies the texts of an argument that is given; there is at least one.
pub(crate) fn texts(
    alloc: Global,
    given: &ArgMatches<'_>,
    id: &str,
) -> Result<Vec<String>, AllocError>
    requires { IsSome (first_of id.now (rows_of (found_of given.now))) }
    ensures { IfOk result (λ texts. HasAll (rows_of (found_of given.now)) id.now texts.items) }
{
    let found = given_texts(given, id).unwrap();
    let mut owned = Vec::with_capacity(alloc, found.len())?;
    for text in found {
        owned.push(String::from_str(alloc, text)?)?;
    }
    Ok(owned)
}

/// Returns whether an option without a value is given.
pub(crate) fn is_set(given: &ArgMatches<'_>, id: &str) -> bool
    requires { IsOnOrOff (one_of id.now (rows_of (found_of given.now))) }
    ensures { IsSet (rows_of (found_of given.now)) id.now result }
{
    given.get_flag(id)
}

/// Counts how many of these options are given.
pub(crate) fn count(given: &ArgMatches<'_>, ids: &[&str]) -> usize
    ensures { result
        ≡ count_given (map (λ id. first_of id.now (rows_of (found_of given.now))) ids.now) }
{
    let mut count = 0;
    for id in ids {
        if given_text(given, id).is_some() {
            count += 1;
        }
    }
    count
}
