//! Findings as JSON objects.

ghost use Rattle.std.specs.Prelude.{◌≡◌, ◌++◌, ◌∷◌, [], IfOk, OnOk};
ghost use Rattle.std.specs.List.{AllByRecursion as Each};
ghost use Rattle.serde_json.specs.Data.{array, no_members, object, put as with_member};
ghost use Rattle.serde_json.specs.View.{members_view, view};
ghost use Rattle.ctt_findings.specs.Fitting.{FindingFits};
ghost use Rattle.ctt_findings.specs.Objects.{objects_of, value_of, with_facts};

use crate::contents::facts;
use crate::fact::{Fact, FactValue};
use crate::finding::Finding;
use crate::json_members::{put_count, put_text};
use ctt_problem::Instance;
use serde_json::{Map, Value};
use std::alloc::{AllocError, Global};

/// Adds a fact as a member.
fn put_fact(
    alloc: Global,
    members: &mut Map<String, Value>,
    fact: &Fact<'_>,
) -> Result<(), AllocError>
    ensures { OnOk result (members_view members.new.entries
        ≡ with_member fact.now.key (value_of fact.now.value) (members_view members.old.entries)) }
{
    match fact.value() {
        FactValue::Text(word) => put_text(alloc, members, fact.key(), word),
        FactValue::Number(number) => put_count(alloc, members, fact.key(), number),
    }
}

/// Builds the object of facts.
fn object(alloc: Global, facts: &[Fact<'_>]) -> Result<Value, AllocError>
    ensures { IfOk result (λ value. view value ≡ object (with_facts facts.now no_members)) }
{
    let mut members = Map::new(alloc);
    for fact in facts {
        put_fact(alloc, &mut members, fact)?;
    }
    Ok(Value::Object(members))
}

/// Adds a value to an array.
fn add(list: &mut Vec<Value>, value: Value) -> Result<(), AllocError>
    ensures { OnOk result (list.new.items ≡ list.old.items ++ value ∷ []) }
{
    list.push(value)?;
    Ok(())
}

/// Builds the array of the objects of findings.
pub(crate) fn objects(
    alloc: Global,
    instance: &Instance,
    found: &[Finding],
) -> Result<Value, AllocError>
    requires { Each (FindingFits instance.now) found.now }
    ensures { IfOk result (λ value. view value ≡ array (objects_of instance.now found.now)) }
{
    let mut list = Vec::with_capacity(alloc, found.len())?;
    for finding in found {
        add(
            &mut list,
            object(alloc, facts(instance, finding).as_slice())?,
        )?;
    }
    Ok(Value::Array(list))
}
