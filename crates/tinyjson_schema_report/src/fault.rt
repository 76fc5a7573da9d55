//! Why a text is no pattern that can be applied, in words.
ghost use Rattle.std.specs.Prelude.{◌≡◌, IfOk, option_map};
ghost use Rattle.std.specs.Str.{chars};
ghost use Rattle.std.specs.String.{string_bytes};
ghost use Rattle.tinyjson_schema_report.specs.Faults.{IsFault, pattern_words, after};
ghost use Rattle.tinyjson_schema_report.specs.Faults.{begins, construct, in_group, in_escape, in_sign};
ghost use Rattle.tinyjson_schema_report.specs.Faults.{construct_of, is_back_reference};

use crate::brief::brief;
use std::alloc::{AllocError, Global};
use text_iregexp::{SchemaPattern, SchemaPatternError, SchemaPatternErrorKind};
use tinyjson::JsonValue;

/// What is wrong with a text as a pattern, and where in it; `None` if it is a pattern. The only error is out of
/// memory.
pub fn fault_words(pattern: &str, alloc: Global) -> Result<Option<String>, AllocError>
    ensures { IfOk result (λ o. IsFault (chars pattern.now) (option_map string_bytes o)) }
{
    let Err(error) = SchemaPattern::parse(alloc, pattern) else {
        return Ok(None);
    };
    if error.kind == SchemaPatternErrorKind::OutOfMemory {
        return Err(AllocError);
    }
    Ok(Some(pattern_words(pattern, error, alloc)?))
}

fn pattern_words(
    pattern: &str,
    error: SchemaPatternError,
    alloc: Global,
) -> Result<String, AllocError>
    ensures { IfOk result (λ s. string_bytes s ≡ pattern_words (chars pattern.now) error) }
{
    let value = JsonValue::String(String::from_str(alloc, pattern)?);
    let text = brief(&value, alloc)?;
    let rest = after(pattern, error.place, alloc)?;
    let found = construct_of(error.kind, rest.as_str());
    let place = error.place;
    format!(in alloc;
        "must be a pattern, is {}: {found} at character {place}",
        text.as_str()
    )
}

/// The text without its first characters.
fn after(text: &str, count: usize, alloc: Global) -> Result<String, AllocError>
    ensures { IfOk result (λ s. string_bytes s ≡ after count (chars text.now)) }
{
    let mut rest = String::new(alloc);
    let mut left = count;
    for c in text.chars() {
        let Some(less) = left.checked_sub(1) else {
            rest.push(c)?;
            continue;
        };
        left = less;
    }
    Ok(rest)
}

/// What is wrong at the place behind which the text is this.
fn construct_of(kind: SchemaPatternErrorKind, rest: &str) -> &'static str
    ensures { result.now ≡ construct_of kind rest.now }
{
    match kind {
        SchemaPatternErrorKind::TooDeep => "more than 200 nested groups",
        SchemaPatternErrorKind::TooLarge => "more than 10,100 parts",
        _ => construct(rest),
    }
}

fn construct(rest: &str) -> &'static str
    ensures { result.now ≡ construct rest.now }
{
    if begins(rest, "(?") {
        in_group(rest)
    } else if begins(rest, "\\") {
        in_escape(rest)
    } else {
        in_sign(rest)
    }
}

/// A group that is not supported.
fn in_group(rest: &str) -> &'static str
    ensures { result.now ≡ in_group rest.now }
{
    if begins(rest, "(?=") || begins(rest, "(?!") {
        "a look-ahead"
    } else if begins(rest, "(?<=") || begins(rest, "(?<!") {
        "a look-behind"
    } else if begins(rest, "(?<") || begins(rest, "(?P<") {
        "a named group"
    } else if begins(rest, "(?i") || begins(rest, "(?-") {
        "a flag"
    } else {
        "an unknown group"
    }
}

fn in_escape(rest: &str) -> &'static str
    ensures { result.now ≡ in_escape rest.now }
{
    if begins(rest, "\\A") {
        "\\A"
    } else if begins(rest, "\\Z") {
        "\\Z"
    } else if begins(rest, "\\p") || begins(rest, "\\P") {
        "a property of characters"
    } else if is_back_reference(rest) {
        "a back-reference"
    } else {
        "an unknown escape"
    }
}

/// Whether a digit but 0, or `k`, follows the first byte.
fn is_back_reference(rest: &str) -> bool
    ensures { result ≡ is_back_reference rest.now }
{
    let Some((_, more)) = rest.as_bytes().split_first() else {
        return false;
    };
    let Some((second, _)) = more.split_first() else {
        return false;
    };
    b'1' <= *second && *second <= b'9' || *second == b'k'
}

/// What neither a `(?` nor a backslash begins.
fn in_sign(rest: &str) -> &'static str
    ensures { result.now ≡ in_sign rest.now }
{
    if rest.is_empty() {
        "the end of the text in a group"
    } else if begins(rest, "[") {
        "a wrong class"
    } else if begins(rest, ")") {
        "a ) without its ("
    } else {
        "a wrong sign"
    }
}

fn begins(text: &str, start: &str) -> bool
    ensures { result ≡ begins start.now text.now }
{
    text.starts_with(start)
}
