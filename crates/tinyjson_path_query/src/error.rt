//! Why a text is no query.
ghost use Rattle.std.specs.Prelude.{Some};
ghost use Rattle.tinyjson_path_query.specs.Message.{kind_message, error_message};

use std::error::Error;
use std::fmt;

/// Which rule a text breaks that is no query (RFC 9535).
#[derive(Clone, Copy, Debug, PartialEq, Eq)]
pub enum ParseErrorKind {
    /// No query of the grammar continues so.
    Syntax,
    /// A name before a parenthesis is none of the five functions (2.4).
    UnknownFunction,
    /// A function has too few arguments, or too many.
    ArgumentCount,
    /// The types do not fit (2.3.5.1 and 2.4.3): something other than a single value is compared or passed as a
    /// value, a value is tested, or an argument is no query where one is needed.
    TypeMismatch,
    /// The magnitude of an index, or of a number of a slice, is above 2^53 - 1 (2.1).
    IndexOutOfRange,
    /// The power of ten of a number that is compared is outside the range of `i64`.
    NumberOutOfRange,
    /// More than 64 logical expressions and function arguments are nested.
    TooDeep,
    /// An allocation failed.
    OutOfMemory,
}

impl fmt::Display for ParseErrorKind {
    ghost output = { λ k. Some (kind_message k) };

    fn fmt<W: fmt::Write>(&self, f: &mut fmt::Formatter<W>) -> fmt::Result {
        f.write_str(match self {
            ParseErrorKind::Syntax => "a syntax error",
            ParseErrorKind::UnknownFunction => "an unknown function",
            ParseErrorKind::ArgumentCount => "a wrong number of arguments",
            ParseErrorKind::TypeMismatch => "types that do not fit",
            ParseErrorKind::IndexOutOfRange => "an index that is out of range",
            ParseErrorKind::NumberOutOfRange => "a number whose power of ten is out of range",
            ParseErrorKind::TooDeep => "more than 64 nested expressions",
            ParseErrorKind::OutOfMemory => "out of memory",
        })
    }
}

/// Why a text is rejected, and where.
///
/// ```
/// if let Err(error) = Query::parse(alloc, "$[?size(@.a) > 1]") {
///     assert_eq!(rt; error.kind, ParseErrorKind::UnknownFunction);
///     let words = error.to_string(alloc)?;
///     assert_eq!(rt; words.as_str(), "an unknown function at character 3");
/// }
/// ```
#[derive(Clone, Copy, Debug, PartialEq, Eq)]
pub struct ParseError {
    pub kind: ParseErrorKind,
    /// The number of characters before what is rejected.
    pub place: usize,
}

impl fmt::Display for ParseError {
    ghost output = { λ e. Some (error_message e) };

    fn fmt<W: fmt::Write>(&self, f: &mut fmt::Formatter<W>) -> fmt::Result {
        let ParseError { kind, place } = *self;
        write!(f, "{kind} at character {place}")
    }
}

impl Error for ParseError {}
