//! Recursive references of 2019-09 as dynamic ones.
ghost use Rattle.std.specs.Prelude.{◌≡◌, IfOk};
ghost use Rattle.tinyjson.specs.View.{view};
ghost use Rattle.tinyjson_schema_drafts.specs.Recursion.{recursive_in_words, anchor_in_words};
ghost use Rattle.tinyjson_schema_drafts.specs.Recursion.{is_marked, is_root_reference};

use crate::document::string_of;
use crate::rule::is_true;
use std::alloc::{AllocError, Global};
use tinyjson::JsonValue;
use tinyjson_schema_keywords::operand;

/// The reference as one of `$dynamicRef`: to the resource, or to its name if it is marked. Null for a reference that is
/// not `#`.
pub fn recursive_in_words(
    reference: &JsonValue,
    resource: &JsonValue,
    alloc: Global,
) -> Result<JsonValue, AllocError>
    ensures { IfOk result (λ v. view v
        ≡ recursive_in_words (view resource.now) (view reference.now)) }
{
    if !is_root_reference(reference) {
        return Ok(JsonValue::Null);
    }
    if is_marked(resource) {
        string_of("#_recursiveAnchor", alloc)
    } else {
        reference.try_clone(alloc)
    }
}

fn is_root_reference(reference: &JsonValue) -> bool
    ensures { result ≡ is_root_reference (view reference.now) }
{
    match reference {
        JsonValue::String(text) => text.as_str() == "#",
        _ => false,
    }
}

/// Whether the resource has a `$recursiveAnchor` that is true.
fn is_marked(resource: &JsonValue) -> bool
    ensures { result ≡ is_marked (view resource.now) }
{
    match operand(resource, "$recursiveAnchor") {
        Some(mark) => is_true(mark),
        None => false,
    }
}

/// The mark of a resource as one of `$dynamicAnchor`; null for one that is not its root's, or no boolean.
pub fn anchor_in_words(
    mark: &JsonValue,
    resource: &JsonValue,
    alloc: Global,
) -> Result<JsonValue, AllocError>
    ensures { IfOk result (λ v. view v ≡ anchor_in_words (view resource.now) (view mark.now)) }
{
    if is_true(mark) && is_marked(resource) {
        return string_of("_recursiveAnchor", alloc);
    }
    Ok(JsonValue::Null)
}
