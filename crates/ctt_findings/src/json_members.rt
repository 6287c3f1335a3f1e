//! Members of JSON objects.

ghost use Rattle.std.specs.Prelude.{◌≡◌, OnOk};
ghost use Rattle.serde_json.specs.Data.{number, put as with_member, string, unsigned};
ghost use Rattle.serde_json.specs.View.{members_view};

use serde_json::{Map, Value};
use std::alloc::{AllocError, Global};

/// Adds a member that is a text.
pub(crate) fn put_text(
    alloc: Global,
    object: &mut Map<String, Value>,
    key: &str,
    text: &str,
) -> Result<(), AllocError>
    ensures { OnOk result (members_view object.new.entries
        ≡ with_member key.now (string text.now) (members_view object.old.entries)) }
{
    let text = String::from_str(alloc, text)?;
    serde_json::put(object, alloc, key, Value::String(text))
}

/// Adds a member that is a number.
pub(crate) fn put_count(
    alloc: Global,
    object: &mut Map<String, Value>,
    key: &str,
    count: u64,
) -> Result<(), AllocError>
    ensures { OnOk result (members_view object.new.entries
        ≡ with_member key.now (number (unsigned count)) (members_view object.old.entries)) }
{
    serde_json::put(object, alloc, key, Value::from(count))
}
