//! The document of a patch.
ghost use Rattle.std.specs.Prelude.{◌≡◌, IfOk, OnOk};
ghost use Rattle.std.specs.Str.{chars};
ghost use Rattle.tinyjson.specs.Tree.{string, put};
ghost use Rattle.tinyjson.specs.View.{view, members_view};
ghost use Rattle.tinyjson_patch.specs.Document.{IsOperation, IsPatch};
ghost use Rattle.tinyjson_pointer.specs.Tokens.{tokens_of};
ghost use Rattle.tinyjson_diff.specs.Steps.{action_of, actions_of, AreShort, IsShort};
ghost use Rattle.tinyjson_diff.specs.Documents.{named, with_value};

use crate::step::{Change, Step};
use std::alloc::{AllocError, Global};
use std::collections::{HashMap, VecDeque};
use tinyjson::JsonValue;
use tinyjson_pointer::{Pointer, put_member};

/// The document of the patch with these steps (RFC 6902, section 3).
pub(crate) fn document(alloc: Global, steps: Vec<Step>) -> Result<JsonValue, AllocError>
    ensures { IfOk result (λ d. AreShort (actions_of steps.items) →
        IsPatch (view d) (actions_of steps.items)) }
{
    let mut rest = VecDeque::from_vec(steps);
    let mut items = Vec::new(alloc);
    while let Some(step) = rest.pop_front() {
        items.push(operation(alloc, step)?)?;
    }
    Ok(JsonValue::Array(items))
}

/// The operation, as an object (RFC 6902, section 4).
fn operation(alloc: Global, step: Step) -> Result<JsonValue, AllocError>
    ensures { IfOk result (λ o. IsShort (action_of step) → IsOperation (view o) (action_of step)) }
{
    let Step { path, change } = step;
    match change {
        Change::Add(value) => valued(alloc, "add", &path, value),
        Change::Replace(value) => valued(alloc, "replace", &path, value),
        Change::Remove => Ok(JsonValue::Object(named(alloc, "remove", &path)?)),
    }
}

/// The object of an operation with a value.
fn valued(
    alloc: Global,
    name: &str,
    path: &Pointer,
    value: JsonValue,
) -> Result<JsonValue, AllocError>
    ensures { IfOk result (λ o. view o
        ≡ with_value (chars name.now) (tokens_of path.now) (view value)) }
{
    let mut members = named(alloc, name, path)?;
    put_member(&mut members, "value", value, alloc)?;
    Ok(JsonValue::Object(members))
}

/// The members of each operation: its name and its path.
fn named(
    alloc: Global,
    name: &str,
    path: &Pointer,
) -> Result<HashMap<String, JsonValue>, AllocError>
    ensures { IfOk result (λ m.
        members_view m.entries ≡ named (chars name.now) (tokens_of path.now)) }
{
    let mut members = HashMap::new(alloc);
    let name = String::from_str(alloc, name)?;
    put_member(&mut members, "op", JsonValue::String(name), alloc)?;
    let path = path.to_string(alloc)?;
    put_member(&mut members, "path", JsonValue::String(path), alloc)?;
    Ok(members)
}
