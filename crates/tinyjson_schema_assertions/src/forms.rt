//! Forms that the values of keywords must have, except for schemas within them.
ghost use Rattle.std.specs.Prelude.{◌≡◌, ◌&&◌, ◌||◌, IfOk};
ghost use Rattle.tinyjson.specs.Access.{is_string, is_boolean, is_array, is_number, is_object};
ghost use Rattle.tinyjson.specs.View.{view, items_view, members_listed};
ghost use Rattle.tinyjson_schema_assertions.specs.Operands.{is_count, is_type_name};
ghost use Rattle.tinyjson_schema_assertions.specs.Operands.{are_type_names, are_types};
ghost use Rattle.tinyjson_schema_assertions.specs.Operands.{is_name_of_type, is_type_list};
ghost use Rattle.tinyjson_schema_assertions.specs.Operands.{are_strings, is_key_list};
ghost use Rattle.tinyjson_schema_assertions.specs.Operands.{have_key_lists, is_key_map};
ghost use Rattle.tinyjson_schema_assertions.specs.Operands.{is_dialect, is_divisor_number};

use crate::assertion::is_among;
use crate::unique::are_all_different;
use std::alloc::{AllocError, Global};
use tinyjson::{JsonValue, sorted_members};
use tinyjson_schema_keywords::is_some_item;
use tinyjson_view::ValueView;

/// Whether the value may be an `$id`: a string, and in the root schema only.
pub fn is_base(value: &JsonValue, is_whole: bool) -> bool
    ensures { result ≡ is_whole && is_string (view value.now) }
{
    is_whole && is_string(value)
}

/// Whether it is a string.
pub fn is_string(value: &JsonValue) -> bool
    ensures { result ≡ is_string (view value.now) }
{
    matches!(value, JsonValue::String(_))
}

/// Whether it is a truth value.
pub fn is_boolean(value: &JsonValue) -> bool
    ensures { result ≡ is_boolean (view value.now) }
{
    matches!(value, JsonValue::Boolean(_))
}

/// Whether it is an object.
pub fn is_object(value: &JsonValue) -> bool
    ensures { result ≡ is_object (view value.now) }
{
    matches!(value, JsonValue::Object(_))
}

/// Whether the value has the form of a schema, whatever is in it.
pub fn is_boolean_or_object(value: &JsonValue) -> bool
    ensures { result ≡ (is_boolean (view value.now) || is_object (view value.now)) }
{
    is_boolean(value) || is_object(value)
}

/// Whether it is an array.
pub fn is_array(value: &JsonValue) -> bool
    ensures { result ≡ is_array (view value.now) }
{
    matches!(value, JsonValue::Array(_))
}

/// Whether it is a number.
pub fn is_number(value: &JsonValue) -> bool
    ensures { result ≡ is_number (view value.now) }
{
    matches!(value, JsonValue::Number(_))
}

/// Whether it is a whole number, at least zero.
pub fn is_count(value: &JsonValue) -> bool
    ensures { result ≡ is_count (view value.now) }
{
    match value {
        JsonValue::Number(number) => !number.is_negative() && number.power() >= 0,
        _ => false,
    }
}

/// Whether it is the name of a type, or a list of some, each once.
pub fn are_types(value: &JsonValue) -> bool
    ensures { result ≡ are_types (view value.now) }
{
    match value {
        JsonValue::Array(names) => is_type_list(names.as_slice()),
        _ => is_type_name(value),
    }
}

fn is_type_list(names: &[JsonValue]) -> bool
    ensures { result ≡ is_type_list (items_view names.now) }
{
    if !is_some_item(names) {
        return false;
    }
    are_type_names(names)
}

fn are_type_names(names: &[JsonValue]) -> bool
    ensures { result ≡ are_type_names (items_view names.now) }
{
    let mut rest = names;
    while let Some((name, more)) = rest.split_first() {
        if !is_type_name(name) || is_among(more, &ValueView::InValue(name)) {
            return false;
        }
        rest = more;
    }
    true
}

fn is_type_name(value: &JsonValue) -> bool
    ensures { result ≡ is_type_name (view value.now) }
{
    match value {
        JsonValue::String(name) => is_name_of_type(name.as_str()),
        _ => false,
    }
}

fn is_name_of_type(name: &str) -> bool
    ensures { result ≡ is_name_of_type name.now }
{
    matches!(
        name,
        "null" | "boolean" | "object" | "array" | "number" | "string" | "integer"
    )
}

/// Whether it is a list of different strings. The only error is out of memory. The time is nearly linear in
/// the number of strings.
pub fn is_key_list(value: &JsonValue, alloc: Global) -> Result<bool, AllocError>
    ensures { IfOk result (λ is. is ≡ is_key_list (view value.now)) }
{
    let JsonValue::Array(keys) = value else {
        return Ok(false);
    };
    if !are_strings(keys.as_slice()) {
        return Ok(false);
    }
    are_all_different(&ValueView::InValue(value), alloc)
}

fn are_strings(values: &[JsonValue]) -> bool
    ensures { result ≡ are_strings (items_view values.now) }
{
    for value in values {
        if !is_string(value) {
            return false;
        }
    }
    true
}

/// Whether it is an object of such lists. The only error is out of memory.
pub fn is_key_map(value: &JsonValue, alloc: Global) -> Result<bool, AllocError>
    ensures { IfOk result (λ is. is ≡ is_key_map (view value.now)) }
{
    match value {
        JsonValue::Object(lists) => {
            let sorted = sorted_members(alloc, lists)?;
            have_key_lists(sorted.as_slice(), alloc)
        }
        _ => Ok(false),
    }
}

fn have_key_lists(lists: &[(&String, &JsonValue)], alloc: Global) -> Result<bool, AllocError>
    ensures { IfOk result (λ have. have ≡ have_key_lists (members_listed lists.now)) }
{
    for &(_, keys) in lists {
        let is = is_key_list(keys, alloc)?;
        if !is {
            return Ok(false);
        }
    }
    Ok(true)
}

/// Whether it is the URI of 2020-12.
pub fn is_dialect(value: &JsonValue) -> bool
    ensures { result ≡ is_dialect (view value.now) }
{
    match value {
        JsonValue::String(name) => name.as_str() == "https://json-schema.org/draft/2020-12/schema",
        _ => false,
    }
}

/// Whether the value is a number above zero with at most 1,000 digits.
pub fn is_divisor_number(value: &JsonValue) -> bool
    ensures { result ≡ is_divisor_number (view value.now) }
{
    match value {
        JsonValue::Number(number) => number.is_divisor(),
        _ => false,
    }
}
