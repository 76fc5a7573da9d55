//! References that would lead elsewhere in the words of 2020-12.
ghost use Rattle.std.specs.Prelude.{◌≡◌, IfOk, map, option_map};
ghost use Rattle.std.specs.Str.{chars};
ghost use Rattle.tinyjson.specs.View.{view, text};
ghost use Rattle.tinyjson_pointer.specs.Tokens.{tokens_of};
ghost use Rattle.tinyjson_schema_drafts.specs.Pointers.{reference_in_words, is_lost, is_lost_by};
ghost use Rattle.tinyjson_schema_drafts.specs.Pointers.{is_lost_word, is_lost_pointer, is_lost_from};
ghost use Rattle.tinyjson_schema_drafts.specs.Pointers.{is_lost_part};
ghost use Rattle.tinyjson_schema_drafts.specs.Pointers.{goes_through_items};

use crate::rule::is_array;
use std::alloc::{AllocError, Global};
use std::str;
use text_uri::{fragment, without_fragment};
use tinyjson::JsonValue;
use tinyjson_pointer::Pointer;
use tinyjson_schema_keywords::{percent_decoded, read_pointer};

/// A reference in a resource: null in its place where it may lead to the array at `items`, or to what there is not.
pub fn reference_in_words(
    reference: &JsonValue,
    resource: &JsonValue,
    alloc: Global,
) -> Result<JsonValue, AllocError>
    ensures { IfOk result (λ v. view v
        ≡ reference_in_words (view resource.now) (view reference.now)) }
{
    let JsonValue::String(text) = reference else {
        return reference.try_clone(alloc);
    };
    if is_lost(text.as_str(), resource, alloc)? {
        return Ok(JsonValue::Null);
    }
    reference.try_clone(alloc)
}

/// Whether it has a pointer that is lost.
fn is_lost(reference: &str, resource: &JsonValue, alloc: Global) -> Result<bool, AllocError>
    ensures { IfOk result (λ is. is ≡ is_lost (view resource.now) reference.now) }
{
    match fragment(reference) {
        Some(fragment) => is_lost_by(fragment, without_fragment(reference), resource, alloc),
        None => Ok(false),
    }
}

fn is_lost_by(
    fragment: &str,
    uri: &str,
    resource: &JsonValue,
    alloc: Global,
) -> Result<bool, AllocError>
    ensures { IfOk result (λ is. is ≡ is_lost_by (view resource.now) uri.now fragment.now) }
{
    let Some(decoded) = percent_decoded(fragment.as_bytes(), alloc)? else {
        return Ok(false);
    };
    match str::from_utf8(decoded.as_slice()) {
        Ok(word) => is_lost_word(word, uri, resource, alloc),
        Err(_) => Ok(false),
    }
}

/// A word is a pointer, or a name; that of a marked resource is none of the schema's own.
fn is_lost_word(
    word: &str,
    uri: &str,
    resource: &JsonValue,
    alloc: Global,
) -> Result<bool, AllocError>
    ensures { IfOk result (λ is. is ≡ is_lost_word (view resource.now) uri.now word.now) }
{
    if word == "_recursiveAnchor" {
        return Ok(true);
    }
    is_lost_pointer(word, uri, resource, alloc)
}

fn is_lost_pointer(
    pointer: &str,
    uri: &str,
    resource: &JsonValue,
    alloc: Global,
) -> Result<bool, AllocError>
    ensures { IfOk result (λ is.
        is ≡ is_lost_pointer (view resource.now) uri.now (chars pointer.now)) }
{
    match read_pointer(pointer, alloc)? {
        Some(pointer) => Ok(is_lost_from(&pointer, uri, resource)),
        None => Ok(false),
    }
}

/// Whether a pointer in the resource leads to no part of it, or to an array; or one in another resource goes through
/// `items`.
fn is_lost_from(pointer: &Pointer, uri: &str, resource: &JsonValue) -> bool
    ensures { result ≡ is_lost_from (view resource.now) uri.now (tokens_of pointer.now) }
{
    if uri.is_empty() {
        is_lost_part(pointer.find(resource))
    } else {
        goes_through_items(pointer.tokens())
    }
}

fn is_lost_part(part: Option<&JsonValue>) -> bool
    ensures { result ≡ is_lost_part (option_map (λ x. view x.now) part.entry) }
{
    match part {
        Some(part) => is_array(part),
        None => true,
    }
}

fn goes_through_items(tokens: &[String]) -> bool
    ensures { result ≡ goes_through_items (map text tokens.now) }
{
    for token in tokens {
        if token.as_str() == "items" {
            return true;
        }
    }
    false
}
