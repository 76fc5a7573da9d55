//! Why a text was refused.
ghost use Rattle.std.specs.Int.{is_in_range};
ghost use Rattle.std.specs.Prelude.{◌≡◌, ◌++◌, Some, codes};
ghost use Rattle.tinyjson_grammar.specs.Characters.{space, tilde};
ghost use Rattle.tinyjson_grammar.specs.Message.{kind_message, shown};

use crate::kind::JsonKind;
use std::fmt::{self, Display};

/// Why a text was refused.
///
/// A character is consumed if the parser took it: the next call of `parse` begins after it.
///
/// ```
/// if let Err(error) = JsonValue::from_str(alloc, "[1 2]") {
///     assert!(rt; error.kind() == JsonParseErrorKind::ExpectedCommaOrBracket('2'));
/// }
/// ```
#[derive(Clone, Copy, Debug, PartialEq, Eq)]
pub enum JsonParseErrorKind {
    /// The characters end where one was needed.
    UnexpectedEof,
    /// A value was needed, and this character begins none. It isn't consumed.
    InvalidCharacter(char),
    /// After the value of the text there is a character that is not white space. It is consumed.
    ExpectedEof(char),
    /// A key was needed, and a complete value of this kind, which is not a string, was read. What follows it
    /// isn't consumed.
    KeyNotString(JsonKind),
    /// After a key there is no colon. The character is consumed.
    ExpectedColon(char),
    /// After the value of a member there is neither a comma nor a brace. The character is consumed.
    ExpectedCommaOrBrace(char),
    /// After an item there is neither a comma nor a bracket. The character is consumed.
    ExpectedCommaOrBracket(char),
    /// A run of `\u` escapes has a surrogate without its partner (RFC 8259, section 8.2). What ends the
    /// run, the closing quote, a character or another escape, is consumed.
    InvalidUtf16,
    /// Among the four digits after `\u` is a character that is not a hexadecimal digit. It is consumed.
    InvalidHexDigit(char),
    /// After a backslash is a character that begins no escape. It is consumed.
    InvalidEscape(char),
    /// A string holds a character below U+0020. It is consumed.
    ControlCharacter(char),
    /// A letter of `null`, `true` or `false` is wrong. It is consumed.
    UnexpectedInLiteral(char),
    /// After a minus sign is no digit. What follows isn't consumed.
    EmptyInteger,
    /// The digits before the point begin with 0, and are two or more. What follows them isn't consumed.
    LeadingZero,
    /// After the point is no digit. What follows isn't consumed.
    EmptyFraction,
    /// After `e` or `E` and the sign, if there is one, is no digit. What follows isn't consumed.
    EmptyExponent,
    /// A complete number was read, and its power of ten is outside the range of `i64`. What follows it isn't
    /// consumed.
    NumberOutOfRange,
    /// An allocation failed. The position is the one after what was consumed; the rest is left.
    OutOfMemory,
    /// This bracket or brace would open one container more than the limit allows. It isn't consumed.
    TooDeep(char),
}

/// A character as messages show it: itself if it is printable ASCII, and otherwise its code point, as
/// `U+FEFF`.
#[derive(Clone, Copy)]
struct Shown(char);

impl fmt::Display for Shown {
    ghost output = { λ s. Some (shown s.0) };

    fn fmt<W: fmt::Write>(&self, f: &mut fmt::Formatter<W>) -> fmt::Result {
        let c = self.0;
        if is_printable(c) {
            write!(f, "{c}")
        } else {
            let code = c as u32;
            write!(f, "U+{code:04X}")
        }
    }
}

/// What was expected, and the character found in its place.
#[derive(Clone, Copy)]
struct Instead(&'static str, char);

impl fmt::Display for Instead {
    ghost output = { λ i. Some (i.0.now ++ (codes " but actually found '"
        ++ (shown i.1 ++ codes "'"))) };

    fn fmt<W: fmt::Write>(&self, f: &mut fmt::Formatter<W>) -> fmt::Result {
        write!(f, "{} but actually found '{}'", self.0, Shown(self.1))
    }
}

/// Whether messages show the character itself.
fn is_printable(c: char) -> bool
    ensures { result ≡ is_in_range space tilde c }
{
    matches!(c, ' '..='~')
}

/// The message of the kind, without a position.
impl fmt::Display for JsonParseErrorKind {
    ghost output = { λ k. Some (kind_message k) };

    fn fmt<W: fmt::Write>(&self, f: &mut fmt::Formatter<W>) -> fmt::Result {
        match *self {
            Self::UnexpectedEof => f.write_str("Unexpected EOF"),
            Self::InvalidCharacter(c) => write!(f, "Invalid character: {}", Shown(c)),
            Self::ExpectedEof(c) => write!(f, "Expected EOF but got character '{}'", Shown(c)),
            Self::KeyNotString(kind) => write!(f, "Key of object must be string but found {kind}"),
            Self::ExpectedColon(c) => Instead("':' is expected after key of object", c).fmt(f),
            Self::ExpectedCommaOrBrace(c) => Instead("',' or '}' is expected for object", c).fmt(f),
            Self::ExpectedCommaOrBracket(c) => {
                Instead("',' or ']' is expected for array", c).fmt(f)
            }
            Self::InvalidUtf16 => f.write_str("Invalid UTF-16 sequence"),
            Self::InvalidHexDigit(c) => {
                f.write_str("Unicode character must be \\uXXXX (X is hex character) format")?;
                write!(f, " but found character '{}'", Shown(c))
            }
            Self::InvalidEscape(c) => write!(f, "'\\{}' is invalid escaped character", Shown(c)),
            Self::ControlCharacter(c) => {
                write!(f, "String cannot contain control character {}", Shown(c))
            }
            Self::UnexpectedInLiteral(c) => {
                let c = Shown(c);
                write!(f, "Unexpected character '{c}' while parsing a literal")
            }
            Self::EmptyInteger => f.write_str("Integer part must not be empty in number literal"),
            Self::LeadingZero => {
                f.write_str("Integer part of number must not start with 0 except for '0'")
            }
            Self::EmptyFraction => f.write_str("Fraction part of number must not be empty"),
            Self::EmptyExponent => f.write_str("Exponent part must not be empty in number literal"),
            Self::NumberOutOfRange => {
                f.write_str("Invalid number literal: power of ten out of range")
            }
            Self::OutOfMemory => f.write_str("Out of memory"),
            Self::TooDeep(c) => write!(f, "Nesting is too deep at '{}'", Shown(c)),
        }
    }
}
