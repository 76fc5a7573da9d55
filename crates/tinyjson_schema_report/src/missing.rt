//! The names that an object lacks.
ghost use Rattle.std.specs.Prelude.{◌≡◌, ◌++◌, IfOk, codes, is_some, option_map};
ghost use Rattle.std.specs.Str.{chars};
ghost use Rattle.std.specs.String.{string_bytes};
ghost use Rattle.tinyjson.specs.Index.{tree_at_key};
ghost use Rattle.tinyjson.specs.Tree.{string};
ghost use Rattle.tinyjson.specs.View.{view, items_view, members_listed, text};
ghost use Rattle.tinyjson_view.specs.Views.{tree_of};
ghost use Rattle.tinyjson_schema_report.specs.Brief.{brief};
ghost use Rattle.tinyjson_schema_report.specs.Missing.{is_there, missing, required_words, required_by};
ghost use Rattle.tinyjson_schema_report.specs.Missing.{words_among, dependent_words};

use crate::brief::brief;
use std::alloc::{AllocError, Global};
use tinyjson::{JsonValue, sorted_members};
use tinyjson_document::JsonView;
use tinyjson_schema_keywords::items_in;
use tinyjson_view::ValueView;

/// The first of the names that the object lacks.
pub fn required_words(
    names: &JsonValue,
    value: &ValueView<'_>,
    alloc: Global,
) -> Result<String, AllocError>
    ensures { IfOk result
        (λ s. string_bytes s ≡ required_words (view names.now) (tree_of value.now)) }
{
    let Some(name) = missing(items_in(names), value) else {
        return Ok(String::new(alloc));
    };
    let name = brief(name, alloc)?;
    format!(in alloc; "{} is required", name.as_str())
}

/// The first name that the object lacks of those that a name of it requires, and that name.
pub fn dependent_words(
    dependents: &JsonValue,
    value: &ValueView<'_>,
    alloc: Global,
) -> Result<String, AllocError>
    ensures { IfOk result
        (λ s. string_bytes s ≡ dependent_words (view dependents.now) (tree_of value.now)) }
{
    let JsonValue::Object(dependents) = dependents else {
        return Ok(String::new(alloc));
    };
    let sorted = sorted_members(alloc, dependents)?;
    words_among(sorted.as_slice(), value, alloc)
}

fn words_among(
    dependents: &[(&String, &JsonValue)],
    value: &ValueView<'_>,
    alloc: Global,
) -> Result<String, AllocError>
    ensures { IfOk result (λ s. string_bytes s
        ≡ words_among (members_listed dependents.now) (tree_of value.now)) }
{
    for &(key, names) in dependents {
        if let Some(name) = required_by(key, names, value) {
            return by_words(name, key, alloc);
        }
    }
    Ok(String::new(alloc))
}

fn by_words(name: &JsonValue, key: &String, alloc: Global) -> Result<String, AllocError>
    ensures { IfOk result (λ s. string_bytes s
        ≡ brief (view name.now) ++ (codes " is required by " ++ brief (string (text key.now)))) }
{
    let name = brief(name, alloc)?;
    let copy = String::from_str(alloc, key.as_str())?;
    let own = JsonValue::String(copy);
    let key = brief(&own, alloc)?;
    format!(in alloc; "{} is required by {}", name.as_str(), key.as_str())
}

/// The first of the names that the key requires and the value lacks, where it has the key.
fn required_by<'s>(
    key: &String,
    names: &'s JsonValue,
    value: &ValueView<'_>,
) -> Option<&'s JsonValue>
    ensures { option_map (λ x. view x.now) result
        ≡ required_by (text key.now) (view names.now) (tree_of value.now) }
{
    if !has_key(value, key.as_str()) {
        return None;
    }
    missing(items_in(names), value)
}

/// The first of the names that is no key of the value.
fn missing<'s>(names: &'s [JsonValue], value: &ValueView<'_>) -> Option<&'s JsonValue>
    ensures { option_map (λ x. view x.now) result
        ≡ missing (items_view names.now) (tree_of value.now) }
{
    for name in names {
        if !is_there(name, value) {
            return Some(name);
        }
    }
    None
}

fn is_there(name: &JsonValue, value: &ValueView<'_>) -> bool
    ensures { result ≡ is_there (view name.now) (tree_of value.now) }
{
    match name {
        JsonValue::String(name) => has_key(value, name.as_str()),
        _ => true,
    }
}

fn has_key(value: &ValueView<'_>, key: &str) -> bool
    ensures { result ≡ is_some (tree_at_key (tree_of value.now) (chars key.now)) }
{
    value.member(key).is_some()
}
