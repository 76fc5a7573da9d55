//! Assertions: the keywords that constrain a value itself, not its parts.
ghost use Rattle.std.specs.Prelude.{◌≡◌, ◌<◌, ◌^◌, IfOk, IfSome, int_le, is_some, length, pos, true, Some};
ghost use Rattle.std.specs.Str.{chars};
ghost use Rattle.tinyjson.specs.Kind.{kind_of, kind_name};
ghost use Rattle.tinyjson.specs.Tree.{find, number, string};
ghost use Rattle.tinyjson.specs.View.{view, text, items_view, members_listed};
ghost use Rattle.tinyjson_document.specs.Parts.{members_in};
ghost use Rattle.tinyjson_view.specs.Views.{tree_of};
ghost use Rattle.tinyjson_schema_assertions.specs.Assertions.{accepts, count};
ghost use Rattle.tinyjson_schema_assertions.specs.Assertions.{is_whole, is_type, has_some_type, has_type};
ghost use Rattle.tinyjson_schema_assertions.specs.Assertions.{is_among, is_in, are_ordered, are_apart};
ghost use Rattle.tinyjson_schema_assertions.specs.Assertions.{is_present, are_present, has_keys};
ghost use Rattle.tinyjson_schema_assertions.specs.Assertions.{has_dependents, has_dependents_of, has_required};
ghost use Rattle.tinyjson_schema_assertions.specs.Assertions.{has_dependent_required, length_of};
ghost use Rattle.tinyjson_schema_assertions.specs.Assertions.{items_count_of, members_count_of};
ghost use Rattle.tinyjson_schema_assertions.specs.Assertions.{is_count_at_most, is_count_at_least};
ghost use Rattle.tinyjson_schema_assertions.specs.Assertions.{has_pattern, has_format};

use crate::multiple::are_multiple;
use crate::unique::are_unique;
use std::alloc::{AllocError, Global};
use text_formats::Format;
use tinyjson::{JsonKind, JsonNumber, JsonValue, sorted_members};
use tinyjson_bytes::are_equal;
use tinyjson_document::JsonView;
use tinyjson_schema_keywords::{Keyword, SearchError, Walk};
use tinyjson_view::ValueView;

/// Whether the value meets the keyword with this value of its own; true for a keyword that is no assertion. Patterns,
/// the values of `enum` and long divisors take steps of the walk's budget.
///
/// # Errors
///
/// A pattern's search would take more steps than are left, or memory is refused.
///
/// ```
/// let is_met = accepts(Keyword::Maximum, &limit, &value, walk)?;
/// ```
pub fn accepts(
    keyword: Keyword,
    operand: &JsonValue,
    value: &ValueView<'_>,
    walk: Walk<'_, '_>,
) -> Result<bool, SearchError>
    ensures { IfOk result (λ is. is ≡ accepts keyword (view operand.now) (tree_of value.now)) }
{
    let alloc = walk.alloc;
    let limit = ValueView::InValue(operand);
    match keyword {
        Keyword::Type => Ok(has_type(operand, value)),
        Keyword::Enum => Ok(is_in(operand, value, walk)),
        Keyword::Const => Ok(value.equals_value(operand)),
        Keyword::MultipleOf => Ok(are_multiple(value, operand, walk)),
        Keyword::Maximum => Ok(are_ordered(value, &limit)),
        Keyword::ExclusiveMaximum => Ok(are_apart(value, &limit)),
        Keyword::Minimum => Ok(are_ordered(&limit, value)),
        Keyword::ExclusiveMinimum => Ok(are_apart(&limit, value)),
        Keyword::MaxLength => Ok(is_length_at_most(value, operand, alloc)?),
        Keyword::MinLength => Ok(is_length_at_least(value, operand, alloc)?),
        Keyword::Pattern => has_pattern(operand, value, walk),
        Keyword::MaxItems => Ok(is_count_at_most(item_count(value), operand, alloc)?),
        Keyword::MinItems => Ok(is_count_at_least(item_count(value), operand, alloc)?),
        Keyword::UniqueItems => Ok(are_unique(operand, value, alloc)?),
        Keyword::MaxProperties => Ok(is_count_at_most(member_count(value), operand, alloc)?),
        Keyword::MinProperties => Ok(is_count_at_least(member_count(value), operand, alloc)?),
        Keyword::Required => Ok(has_required(operand, value)),
        Keyword::DependentRequired => Ok(has_dependent_required(operand, value, alloc)?),
        Keyword::Format => Ok(has_format(operand, value)),
        _ => Ok(true),
    }
}

fn has_type(types: &JsonValue, value: &ValueView<'_>) -> bool
    ensures { result ≡ has_type (view types.now) (tree_of value.now) }
{
    match types {
        JsonValue::Array(names) => has_some_type(names.as_slice(), value),
        _ => is_type(types, value),
    }
}

fn has_some_type(names: &[JsonValue], value: &ValueView<'_>) -> bool
    ensures { result ≡ has_some_type (items_view names.now) (tree_of value.now) }
{
    for name in names {
        if is_type(name, value) {
            return true;
        }
    }
    false
}

fn is_type(name: &JsonValue, value: &ValueView<'_>) -> bool
    ensures { result ≡ is_type (view name.now) (tree_of value.now) }
{
    let JsonValue::String(name) = name else {
        return false;
    };
    if are_equal(name.as_bytes(), kind_name(value).as_bytes()) {
        return true;
    }
    are_equal(name.as_bytes(), b"integer") && is_whole(value)
}

/// The name that `type` has for the value's type.
fn kind_name(value: &ValueView<'_>) -> &'static str
    ensures { result.now ≡ kind_name (kind_of (tree_of value.now)) }
{
    match value.kind() {
        JsonKind::Null => "null",
        JsonKind::Boolean => "boolean",
        JsonKind::Number => "number",
        JsonKind::String => "string",
        JsonKind::Array => "array",
        JsonKind::Object => "object",
    }
}

/// Whether the value is a number without a fraction.
fn is_whole(value: &ValueView<'_>) -> bool
    ensures { result ≡ is_whole (tree_of value.now) }
{
    match value.number() {
        Some(number) => has_no_fraction(number.as_number()),
        None => false,
    }
}

fn has_no_fraction(number: &JsonNumber) -> bool
    ensures { result ≡ int_le (pos 0) number.now.decimal.power }
{
    number.power() >= 0
}

/// Whether the value is one of an array. It takes a step for each of them.
fn is_in(values: &JsonValue, value: &ValueView<'_>, walk: Walk<'_, '_>) -> bool
    ensures { result ≡ is_in (view values.now) (tree_of value.now) }
{
    match values {
        JsonValue::Array(values) => {
            walk.whole.budget.charge(values.len());
            is_among(values.as_slice(), value)
        }
        _ => false,
    }
}

pub fn is_among(values: &[JsonValue], value: &ValueView<'_>) -> bool
    ensures { result ≡ is_among (items_view values.now) (tree_of value.now) }
{
    for one in values {
        if value.equals_value(one) {
            return true;
        }
    }
    false
}

/// Whether the first number is at most the second; true if one is no number.
fn are_ordered(number: &ValueView<'_>, other: &ValueView<'_>) -> bool
    ensures { result ≡ are_ordered (tree_of number.now) (tree_of other.now) }
{
    let Some(number) = number.number() else {
        return true;
    };
    let Some(other) = other.number() else {
        return true;
    };
    number.as_number().is_at_most(other.as_number())
}

/// Whether the first number is less than the second; true if one is no number.
fn are_apart(number: &ValueView<'_>, other: &ValueView<'_>) -> bool
    ensures { result ≡ are_apart (tree_of number.now) (tree_of other.now) }
{
    let Some(number) = number.number() else {
        return true;
    };
    let Some(other) = other.number() else {
        return true;
    };
    !other.as_number().is_at_most(number.as_number())
}

/// Whether the string has at most as many characters as the limit; true for other values.
fn is_length_at_most(
    value: &ValueView<'_>,
    limit: &JsonValue,
    alloc: Global,
) -> Result<bool, AllocError>
    ensures { IfOk result
        (λ is. is ≡ is_count_at_most (length_of (tree_of value.now)) (view limit.now)) }
{
    let Some(text) = value.string() else {
        return Ok(true);
    };
    if is_surely_at_most(text, limit) {
        return Ok(true);
    }
    is_count_at_most(Some(character_count(text)), limit, alloc)
}

/// Whether even the number of bytes is at most the limit. There are no more characters.
fn is_surely_at_most(text: &str, limit: &JsonValue) -> bool
    ensures { result ≡ true
        → true ≡ is_count_at_most (Some (length (chars text.now))) (view limit.now) }
{
    match count_in(limit) {
        Some(most) => text.len() as u64 <= most,
        None => false,
    }
}

/// Whether the string has at least as many characters as the limit; true for other values.
fn is_length_at_least(
    value: &ValueView<'_>,
    limit: &JsonValue,
    alloc: Global,
) -> Result<bool, AllocError>
    ensures { IfOk result
        (λ is. is ≡ is_count_at_least (length_of (tree_of value.now)) (view limit.now)) }
{
    let Some(text) = value.string() else {
        return Ok(true);
    };
    if is_surely_at_least(text, limit) {
        return Ok(true);
    }
    is_count_at_least(Some(character_count(text)), limit, alloc)
}

/// Whether even a quarter of the number of bytes is at least the limit. No character takes more than four.
fn is_surely_at_least(text: &str, limit: &JsonValue) -> bool
    ensures { result ≡ true
        → true ≡ is_count_at_least (Some (length (chars text.now))) (view limit.now) }
{
    match count_in(limit) {
        Some(least) => least <= str::len(text) as u64 / 4,
        None => false,
    }
}

fn character_count(text: &str) -> usize
    ensures { result ≡ length (chars text.now) }
{
    text.chars().count()
}

/// Whether the pattern matches somewhere in the string; true for other values.
fn has_pattern(
    pattern: &JsonValue,
    value: &ValueView<'_>,
    walk: Walk<'_, '_>,
) -> Result<bool, SearchError>
    ensures { IfOk result (λ has. has ≡ has_pattern (view pattern.now) (tree_of value.now)) }
{
    let JsonValue::String(pattern) = pattern else {
        return Ok(true);
    };
    let Some(text) = value.string() else {
        return Ok(true);
    };
    let whole = walk.whole;
    whole
        .budget
        .charge(pattern.len().saturating_add(text.len()) / 32);
    whole
        .patterns
        .is_found(pattern.as_str(), text, &whole.budget, walk.alloc)
}

/// Whether the string has the format with that name; true for other values, and if the name is not known.
fn has_format(format: &JsonValue, value: &ValueView<'_>) -> bool
    ensures { result ≡ has_format (view format.now) (tree_of value.now) }
{
    let JsonValue::String(name) = format else {
        return true;
    };
    let Some(text) = value.string() else {
        return true;
    };
    is_formatted(name, text)
}

fn is_formatted(name: &String, value: &str) -> bool
    ensures { result ≡ has_format (string (text name.now)) (string (chars value.now)) }
{
    match Format::from_name(name.as_str()) {
        Some(format) => format.accepts(value),
        None => true,
    }
}

/// The number of items of an array; `None` for another value.
///
/// ```
/// let count = item_count(&value.as_view()); // Some(2) for [1, 2]
/// ```
pub fn item_count(value: &ValueView<'_>) -> Option<usize>
    ensures { result ≡ items_count_of (tree_of value.now) }
{
    match value.kind() {
        JsonKind::Array => Some(value.len()),
        _ => None,
    }
}

/// The number of members of an object; `None` for another value.
///
/// ```
/// let count = member_count(&value.as_view()); // Some(1) for {"a": 2}
/// ```
pub fn member_count(value: &ValueView<'_>) -> Option<usize>
    ensures { result ≡ members_count_of (tree_of value.now) }
{
    match value.kind() {
        JsonKind::Object => Some(value.len()),
        _ => None,
    }
}

/// Whether the count is at most the limit; true for `None`.
pub fn is_count_at_most(
    found: Option<usize>,
    limit: &JsonValue,
    alloc: Global,
) -> Result<bool, AllocError>
    ensures { IfOk result (λ is. is ≡ is_count_at_most found (view limit.now)) }
{
    let Some(found) = found else {
        return Ok(true);
    };
    if let Some(limit) = count_in(limit) {
        return Ok(found as u64 <= limit);
    }
    let found = number_of(found, alloc)?;
    Ok(are_ordered(&ValueView::InValue(&found), &ValueView::InValue(limit)))
}

/// Whether the count is at least the limit; true for `None`.
pub fn is_count_at_least(
    found: Option<usize>,
    limit: &JsonValue,
    alloc: Global,
) -> Result<bool, AllocError>
    ensures { IfOk result (λ is. is ≡ is_count_at_least found (view limit.now)) }
{
    let Some(found) = found else {
        return Ok(true);
    };
    if let Some(limit) = count_in(limit) {
        return Ok(limit <= found as u64);
    }
    let found = number_of(found, alloc)?;
    Ok(are_ordered(&ValueView::InValue(limit), &ValueView::InValue(&found)))
}

/// The whole number that the limit is, if it fits.
fn count_in(limit: &JsonValue) -> Option<u64>
    ensures is { IfSome result (λ n. view limit.now ≡ number (count n)) }
    ensures range { IfSome result (λ n. n < 2 ^ 64) }
{
    match limit {
        JsonValue::Number(limit) => limit.to_u64(),
        _ => None,
    }
}

fn number_of(found: usize, alloc: Global) -> Result<JsonValue, AllocError>
    ensures { IfOk result (λ v. view v ≡ number (count found)) }
{
    Ok(JsonValue::Number(JsonNumber::from_u64(alloc, found as u64)?))
}

fn has_required(keys: &JsonValue, value: &ValueView<'_>) -> bool
    ensures { result ≡ has_required (view keys.now) (tree_of value.now) }
{
    match value.kind() {
        JsonKind::Object => has_keys(keys, value),
        _ => true,
    }
}

/// Whether the object has each of the keys.
fn has_keys(keys: &JsonValue, value: &ValueView<'_>) -> bool
    ensures { result ≡ has_keys (view keys.now) (members_in (tree_of value.now)) }
{
    match keys {
        JsonValue::Array(keys) => are_present(keys.as_slice(), value),
        _ => true,
    }
}

fn are_present(keys: &[JsonValue], value: &ValueView<'_>) -> bool
    ensures { result ≡ are_present (items_view keys.now) (members_in (tree_of value.now)) }
{
    for key in keys {
        if !is_present(key, value) {
            return false;
        }
    }
    true
}

fn is_present(key: &JsonValue, value: &ValueView<'_>) -> bool
    ensures { result ≡ is_present (view key.now) (members_in (tree_of value.now)) }
{
    match key {
        JsonValue::String(key) => has_key(key, value),
        _ => true,
    }
}

fn has_key(key: &String, value: &ValueView<'_>) -> bool
    ensures { result ≡ is_some (find (text key.now) (members_in (tree_of value.now))) }
{
    value.member(key.as_str()).is_some()
}

fn has_dependent_required(
    dependents: &JsonValue,
    value: &ValueView<'_>,
    alloc: Global,
) -> Result<bool, AllocError>
    ensures { IfOk result
        (λ is. is ≡ has_dependent_required (view dependents.now) (tree_of value.now)) }
{
    let JsonValue::Object(dependents) = dependents else {
        return Ok(true);
    };
    match value.kind() {
        JsonKind::Object => {
            let sorted = sorted_members(alloc, dependents)?;
            Ok(has_dependents(sorted.as_slice(), value))
        }
        _ => Ok(true),
    }
}

/// Whether the object has, for each key that it has, the keys that this key requires.
fn has_dependents(dependents: &[(&String, &JsonValue)], value: &ValueView<'_>) -> bool
    ensures { result
        ≡ has_dependents (members_listed dependents.now) (members_in (tree_of value.now)) }
{
    for &(key, keys) in dependents {
        if !has_dependents_of(key, keys, value) {
            return false;
        }
    }
    true
}

fn has_dependents_of(key: &String, keys: &JsonValue, value: &ValueView<'_>) -> bool
    ensures { result ≡ has_dependents_of (text key.now) (view keys.now)
        (members_in (tree_of value.now)) }
{
    if !has_key(key, value) {
        return true;
    }
    has_keys(keys, value)
}
