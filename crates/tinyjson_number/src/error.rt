//! Why a text gives no number.
ghost use Rattle.std.specs.Prelude.{◌≡◌, Some};
ghost use Rattle.tinyjson_number.specs.Error.{number_error_message, literal_error_message, of_literal};
ghost use Rattle.tinyjson_number.specs.declared.error.LiteralError.TheVariants.{OutOfMemory};

use std::alloc::AllocError;
use std::error::Error;
use std::fmt;

/// Why a text gives no number.
///
/// ```
/// let read = JsonNumber::from_text(alloc, "1e9223372036854775808");
/// assert!(rt; matches!(read, Err(JsonNumberError::OutOfRange)));
/// ```
#[derive(Debug, Drop)]
pub enum JsonNumberError {
    /// The text is no number of the grammar (RFC 8259, section 6).
    NotANumber,
    /// The power of ten of its decimal is out of the range of `i64`.
    OutOfRange,
    /// An allocation failed.
    OutOfMemory,
}

/// The message of the error.
impl fmt::Display for JsonNumberError {
    ghost output = { λ e. Some (number_error_message e) };

    fn fmt<W: fmt::Write>(&self, f: &mut fmt::Formatter<W>) -> fmt::Result {
        match self {
            JsonNumberError::NotANumber => f.write_str("not a JSON number"),
            JsonNumberError::OutOfRange => f.write_str("power of ten out of range"),
            JsonNumberError::OutOfMemory => f.write_str("out of memory"),
        }
    }
}

impl Error for JsonNumberError {}

/// The cause, out of range or out of memory.
impl From<LiteralError> for JsonNumberError {
    ghost from_gives = { λ l e. e ≡ of_literal l };

    fn from(error: LiteralError) -> JsonNumberError {
        match error {
            LiteralError::OutOfRange => JsonNumberError::OutOfRange,
            LiteralError::OutOfMemory => JsonNumberError::OutOfMemory,
        }
    }
}

/// Why a number of the grammar gives no `JsonNumber`.
///
/// ```
/// let error = JsonNumberError::from(LiteralError::OutOfRange);
/// assert!(rt; matches!(error, JsonNumberError::OutOfRange));
/// ```
#[derive(Debug, Drop)]
pub enum LiteralError {
    /// The power of ten of its decimal is out of the range of `i64`.
    OutOfRange,
    /// An allocation failed.
    OutOfMemory,
}

/// The message of the error.
impl fmt::Display for LiteralError {
    ghost output = { λ e. Some (literal_error_message e) };

    fn fmt<W: fmt::Write>(&self, f: &mut fmt::Formatter<W>) -> fmt::Result {
        match self {
            LiteralError::OutOfRange => f.write_str("power of ten out of range"),
            LiteralError::OutOfMemory => f.write_str("out of memory"),
        }
    }
}

impl Error for LiteralError {}

/// Out of memory.
impl From<AllocError> for LiteralError {
    ghost from_gives = { λ _ e. e ≡ OutOfMemory };

    fn from(_error: AllocError) -> LiteralError {
        LiteralError::OutOfMemory
    }
}
