//! The message of the error in a place.
ghost use Rattle.std.specs.Char.{IsScalar};
ghost use Rattle.std.specs.Prelude.{◌≡◌, IfNone, IfSome, Some};
ghost use Rattle.tinyjson_c.specs.Message.{error_words};
ghost use Rattle.tinyjson_c.specs.Place.{IsError, value_number};
ghost use Rattle.tinyjson_grammar.specs.declared.error.JsonParseErrorKind.{JsonParseErrorKind as Kind};
ghost use Rattle.tinyjson_grammar.specs.declared.kind.JsonKind.{JsonKind as ValueKind};

use crate::place::TinyjsonPlace;
use std::fmt;
use tinyjson::{JsonKind, JsonParseErrorKind};

/// An error at a position. Line 0 means that there is no position.
#[derive(Clone, Copy)]
pub(crate) struct Message {
    pub(crate) kind: JsonParseErrorKind,
    pub(crate) line: usize,
    pub(crate) column: usize,
}

impl fmt::Display for Message {
    ghost output = { λ m. Some (error_words m.kind m.line m.column) };

    fn fmt<W: fmt::Write>(&self, f: &mut fmt::Formatter<W>) -> fmt::Result {
        let Message { kind, line, column } = *self;
        if line == 0 {
            return write!(f, "{kind}");
        }
        write!(f, "Parse error at line:{line}, col:{column}: {kind}")
    }
}

/// The kind of the error in this place.
pub(crate) fn kind_at(place: &TinyjsonPlace) -> Option<JsonParseErrorKind>
    ensures some { IfSome result (IsError place.now) }
    ensures none { IfNone result (IsScalar place.now.found → (k : Kind) → ¬ IsError place.now k) }
{
    let c = char::from_u32(place.found)?;
    match place.kind {
        1 => Some(JsonParseErrorKind::UnexpectedEof),
        2 => Some(JsonParseErrorKind::InvalidCharacter(c)),
        3 => Some(JsonParseErrorKind::ExpectedEof(c)),
        4 => Some(JsonParseErrorKind::KeyNotString(value_at(place.found)?)),
        5 => Some(JsonParseErrorKind::ExpectedColon(c)),
        6 => Some(JsonParseErrorKind::ExpectedCommaOrBrace(c)),
        7 => Some(JsonParseErrorKind::ExpectedCommaOrBracket(c)),
        8 => Some(JsonParseErrorKind::InvalidUtf16),
        9 => Some(JsonParseErrorKind::InvalidHexDigit(c)),
        10 => Some(JsonParseErrorKind::InvalidEscape(c)),
        11 => Some(JsonParseErrorKind::ControlCharacter(c)),
        12 => Some(JsonParseErrorKind::UnexpectedInLiteral(c)),
        13 => Some(JsonParseErrorKind::EmptyInteger),
        14 => Some(JsonParseErrorKind::LeadingZero),
        15 => Some(JsonParseErrorKind::EmptyFraction),
        16 => Some(JsonParseErrorKind::EmptyExponent),
        17 => Some(JsonParseErrorKind::NumberOutOfRange),
        18 => Some(JsonParseErrorKind::OutOfMemory),
        19 => Some(JsonParseErrorKind::TooDeep(c)),
        _ => None,
    }
}

/// The kind of value with this number.
fn value_at(number: u32) -> Option<JsonKind>
    ensures some { IfSome result (λ v. number ≡ value_number v) }
    ensures none { IfNone result ((v : ValueKind) → ¬ (number ≡ value_number v)) }
{
    match number {
        1 => Some(JsonKind::Null),
        2 => Some(JsonKind::Boolean),
        3 => Some(JsonKind::Number),
        4 => Some(JsonKind::String),
        5 => Some(JsonKind::Array),
        6 => Some(JsonKind::Object),
        _ => None,
    }
}
