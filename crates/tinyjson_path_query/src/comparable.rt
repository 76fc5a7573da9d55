//! Literals, and queries that select at most one node.
ghost use Rattle.std.specs.Prelude.{◌≡◌};
ghost use Rattle.tinyjson_path_query.specs.Forms.{AreSingularSegmentsIn};
ghost use Rattle.tinyjson_path_query.specs.Fronts.{number_front, word_front, literal_front, bracketed_front, name_front};
ghost use Rattle.tinyjson_path_query.specs.Fronts.{singular_segment_front, singular_front, begins_call};
ghost use Rattle.tinyjson_path_query.specs.Fronts.{begins_pattern};
ghost use Rattle.tinyjson_path_query.specs.Fronts.{operator_front, or_equal, origin_of, behind};
ghost use Rattle.tinyjson_path_query.specs.Reading.{Fronts, FoundAs};
ghost use Rattle.tinyjson_path_query.specs.Values.{IsLiteral, IsSingularSegment};

use crate::lexical::{
    after_blanks, behind, behind_word, integer, is_name_first, is_number_char, is_quote, push,
    push_name_chars, push_number_chars,
};
use crate::query::{ComparisonOperator, Literal, Origin, SingularSegment};
use crate::refusal::{Cause, Refusal};
use crate::string::quoted;
use std::alloc::Global;
use tinyjson::{JsonNumber, JsonNumberError};

/// The root of a query inside a filter that begins with this character.
pub(crate) fn origin(first: char) -> Option<Origin>
    ensures { result ≡ origin_of first }
{
    match first {
        '@' => Some(Origin::CurrentNode),
        '$' => Some(Origin::Root),
        _ => None,
    }
}

/// Whether the character begins the name of a function.
pub(crate) fn begins_call(first: char) -> bool
    ensures { result ≡ begins_call first }
{
    first == 'l' || first == 'c' || first == 'v'
}

/// Whether the character begins `match` or `search`, and no value.
pub(crate) fn begins_pattern(first: char) -> bool
    ensures { result ≡ begins_pattern first }
{
    first == 'm' || first == 's'
}

/// Parses segments with one selector each, as many as there are.
pub(crate) fn singular_segments(
    alloc: Global,
    text: &[char],
) -> Result<(Vec<SingularSegment>, &[char]), Refusal>
    ensures { Fronts AreSingularSegmentsIn (singular_front text.now) result }
{
    let mut segments = Vec::new(alloc);
    let mut rest = text;
    loop {
        match singular_segment(alloc, after_blanks(rest)) {
            Ok((segment, after)) => {
                segments.push(segment)?;
                rest = after;
            }
            Err(refusal) => {
                if refusal.cause == Cause::OutOfMemory {
                    return Err(refusal);
                }
                return Ok((segments, rest));
            }
        }
    }
}

/// Parses a segment with one selector.
fn singular_segment(alloc: Global, text: &[char]) -> Result<(SingularSegment, &[char]), Refusal>
    ensures { Fronts IsSingularSegment (singular_segment_front text.now) result }
{
    let Some((first, rest)) = text.split_first() else {
        return Err(Refusal::at(Cause::Character, text));
    };
    if *first == '[' {
        return bracketed(alloc, rest);
    }
    if *first != '.' {
        return Err(Refusal::at(Cause::Character, text));
    }
    name(alloc, rest)
}

/// Parses the name or index after a bracket, and the closing bracket.
fn bracketed(alloc: Global, text: &[char]) -> Result<(SingularSegment, &[char]), Refusal>
    ensures { Fronts IsSingularSegment (bracketed_front text.now) result }
{
    let Some((first, rest)) = text.split_first() else {
        return Err(Refusal::at(Cause::Character, text));
    };
    if is_quote(*first) {
        let (name, after) = quoted(alloc, *first, rest)?;
        let Some(behind) = behind(']', after) else {
            return Err(Refusal::at(Cause::Character, after));
        };
        return Ok((SingularSegment::Name(name), behind));
    }
    let (index, after) = integer(text)?;
    let Some(behind) = behind(']', after) else {
        return Err(Refusal::at(Cause::Character, after));
    };
    Ok((SingularSegment::Index(index), behind))
}

/// Parses the name after a point.
fn name(alloc: Global, text: &[char]) -> Result<(SingularSegment, &[char]), Refusal>
    ensures { Fronts IsSingularSegment (name_front text.now) result }
{
    let Some((first, rest)) = text.split_first() else {
        return Err(Refusal::at(Cause::Character, text));
    };
    if !is_name_first(*first) {
        return Err(Refusal::at(Cause::Character, text));
    }
    let mut name = String::new(alloc);
    push(&mut name, *first)?;
    let after = push_name_chars(&mut name, rest)?;
    Ok((SingularSegment::Name(name), after))
}

/// Parses a literal.
pub(crate) fn literal(alloc: Global, text: &[char]) -> Result<(Literal, &[char]), Refusal>
    ensures { Fronts IsLiteral (literal_front text.now) result }
{
    let Some((first, rest)) = text.split_first() else {
        return Err(Refusal::at(Cause::Value, text));
    };
    if is_quote(*first) {
        let (string, after) = quoted(alloc, *first, rest)?;
        return Ok((Literal::String(string), after));
    }
    if is_number_char(*first) {
        return number(alloc, text);
    }
    word(text)
}

/// Parses a number.
fn number(alloc: Global, text: &[char]) -> Result<(Literal, &[char]), Refusal>
    ensures { Fronts IsLiteral (number_front text.now) result }
{
    let mut digits = String::new(alloc);
    let rest = push_number_chars(&mut digits, text)?;
    match JsonNumber::from_text(alloc, digits.as_str()) {
        Ok(number) => Ok((Literal::Number(number), rest)),
        // The kind of the error tells these two apart, by the text.
        Err(JsonNumberError::NotANumber) => Err(Refusal::at(Cause::Value, text)),
        Err(JsonNumberError::OutOfRange) => Err(Refusal::at(Cause::Value, text)),
        Err(JsonNumberError::OutOfMemory) => Err(Refusal::at(Cause::OutOfMemory, text)),
    }
}

/// Parses `true`, `false` or `null`.
fn word(text: &[char]) -> Result<(Literal, &[char]), Refusal>
    ensures { Fronts IsLiteral (word_front text.now) result }
{
    if let Some(rest) = behind_word(&['t', 'r', 'u', 'e'], text) {
        return Ok((Literal::Boolean(true), rest));
    }
    if let Some(rest) = behind_word(&['f', 'a', 'l', 's', 'e'], text) {
        return Ok((Literal::Boolean(false), rest));
    }
    if let Some(rest) = behind_word(&['n', 'u', 'l', 'l'], text) {
        return Ok((Literal::Null, rest));
    }
    Err(Refusal::at(Cause::Value, text))
}

/// The operator at the front, and the text after it.
pub(crate) fn operator(text: &[char]) -> Option<(ComparisonOperator, &[char])>
    ensures { FoundAs (operator_front text.now) result }
{
    let (first, rest) = text.split_first()?;
    match *first {
        '=' => Some((ComparisonOperator::Equal, behind('=', rest)?)),
        '!' => Some((ComparisonOperator::NotEqual, behind('=', rest)?)),
        '<' => Some(or_equal(
            ComparisonOperator::Less,
            ComparisonOperator::LessOrEqual,
            rest,
        )),
        '>' => Some(or_equal(
            ComparisonOperator::Greater,
            ComparisonOperator::GreaterOrEqual,
            rest,
        )),
        _ => None,
    }
}

/// The first operator or, if the text begins with `=`, the second; and the text after it.
fn or_equal(
    strict: ComparisonOperator,
    loose: ComparisonOperator,
    text: &[char],
) -> (ComparisonOperator, &[char])
    ensures op { result.0 ≡ (or_equal strict loose text.now (behind 61 text.now)).0 }
    ensures rest { result.1.now ≡ (or_equal strict loose text.now (behind 61 text.now)).1 }
{
    match behind('=', text) {
        Some(rest) => (loose, rest),
        None => (strict, text),
    }
}
