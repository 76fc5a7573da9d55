//! Why a text is rejected, and where, as numbers.
ghost use Rattle.std.specs.Prelude.{◌≡◌, unwrap_or};
ghost use Rattle.tinyjson.specs.Error.{error_kind, error_position};
ghost use Rattle.tinyjson_c.specs.Place.{error_place, found_by, kind_number, length_place};
ghost use Rattle.tinyjson_c.specs.Place.{memory_place, value_number};

use tinyjson::{JsonKind, JsonParseError, JsonParseErrorKind};

/// What a call returns besides its status.
#[repr(C)]
#[derive(Clone, Copy, Debug, PartialEq, Eq)]
pub struct TinyjsonPlace {
    /// The number of the kind of error, from 1; 0 without an error.
    pub kind: u32,
    /// The character of the kind of error, or the number of a kind of value; else 0.
    pub found: u32,
    /// The line, from 1; 0 if no error has a position.
    pub line: usize,
    /// The number of characters that were consumed after the last line feed.
    pub column: usize,
    /// The length of the answer in bytes. For bytes that are not UTF-8: how many are before the fault.
    pub length: usize,
    /// Which text of the call this is about, from 0; or which line.
    pub text: usize,
}

impl TinyjsonPlace {
    /// The place without an error.
    pub(crate) fn of_length(text: usize, length: usize) -> Self
        ensures { result ≡ length_place text length }
    {
        TinyjsonPlace {
            kind: 0,
            found: 0,
            line: 0,
            column: 0,
            length,
            text,
        }
    }

    /// The place of an error of the parser.
    pub(crate) fn of_error(text: usize, error: &JsonParseError) -> Self
        ensures { result ≡ error_place text (error_kind error.now) (error_position error.now) }
    {
        let kind = error.kind();
        TinyjsonPlace {
            kind: kind_number(kind),
            found: found_by(kind),
            line: error.line(),
            column: error.column(),
            length: 0,
            text,
        }
    }

    /// The place if memory ran out.
    pub(crate) fn of_memory(text: usize) -> Self
        ensures { result ≡ memory_place text }
    {
        TinyjsonPlace {
            kind: kind_number(JsonParseErrorKind::OutOfMemory),
            found: 0,
            line: 0,
            column: 0,
            length: 0,
            text,
        }
    }
}

/// The number of a kind of error.
fn kind_number(kind: JsonParseErrorKind) -> u32
    ensures { result ≡ kind_number kind }
{
    match kind {
        JsonParseErrorKind::UnexpectedEof => 1,
        JsonParseErrorKind::InvalidCharacter(_) => 2,
        JsonParseErrorKind::ExpectedEof(_) => 3,
        JsonParseErrorKind::KeyNotString(_) => 4,
        JsonParseErrorKind::ExpectedColon(_) => 5,
        JsonParseErrorKind::ExpectedCommaOrBrace(_) => 6,
        JsonParseErrorKind::ExpectedCommaOrBracket(_) => 7,
        JsonParseErrorKind::InvalidUtf16 => 8,
        JsonParseErrorKind::InvalidHexDigit(_) => 9,
        JsonParseErrorKind::InvalidEscape(_) => 10,
        JsonParseErrorKind::ControlCharacter(_) => 11,
        JsonParseErrorKind::UnexpectedInLiteral(_) => 12,
        JsonParseErrorKind::EmptyInteger => 13,
        JsonParseErrorKind::LeadingZero => 14,
        JsonParseErrorKind::EmptyFraction => 15,
        JsonParseErrorKind::EmptyExponent => 16,
        JsonParseErrorKind::NumberOutOfRange => 17,
        JsonParseErrorKind::OutOfMemory => 18,
        JsonParseErrorKind::TooDeep(_) => 19,
    }
}

/// The value of `found` for a kind of error: a character, or the number of a kind of value.
fn found_by(kind: JsonParseErrorKind) -> u32
    ensures { result ≡ unwrap_or (found_by kind) 0 }
{
    match kind {
        JsonParseErrorKind::KeyNotString(value) => value_number(value),
        JsonParseErrorKind::InvalidCharacter(c)
        | JsonParseErrorKind::ExpectedEof(c)
        | JsonParseErrorKind::ExpectedColon(c)
        | JsonParseErrorKind::ExpectedCommaOrBrace(c)
        | JsonParseErrorKind::ExpectedCommaOrBracket(c)
        | JsonParseErrorKind::InvalidHexDigit(c)
        | JsonParseErrorKind::InvalidEscape(c)
        | JsonParseErrorKind::ControlCharacter(c)
        | JsonParseErrorKind::UnexpectedInLiteral(c)
        | JsonParseErrorKind::TooDeep(c) => c as u32,
        _ => 0,
    }
}

/// The number of a kind of value.
fn value_number(kind: JsonKind) -> u32
    ensures { result ≡ value_number kind }
{
    match kind {
        JsonKind::Null => 1,
        JsonKind::Boolean => 2,
        JsonKind::Number => 3,
        JsonKind::String => 4,
        JsonKind::Array => 5,
        JsonKind::Object => 6,
    }
}
