//! Why a text was refused, and where.
ghost use Rattle.std.specs.Prelude.{◌≡◌, ◌↔◌, IsTrue, Some};
ghost use Rattle.tinyjson.specs.Error.{error_kind, error_position, error_message};
ghost use Rattle.tinyjson.specs.Events.{Becomes};
ghost use Rattle.tinyjson_grammar.specs.Position.{origin};

use std::alloc::AllocError;
use std::error::Error;
use std::fmt;
use std::io::{self, ErrorKind};
pub use tinyjson_grammar::JsonParseErrorKind;

/// An error of the parser: a kind, and the position after what was consumed.
///
/// ```
/// let parsed = JsonParser::new(alloc, "[1, 2, 3".chars()).parse();
/// let error = parsed.expect_err(&rt, "an array with no end");
/// assert!(rt; matches!(&error, JsonParseError { .. }));
/// ```
///
/// ```
/// if let Err(error) = JsonValue::from_str(alloc, "{\n\"a\" 1}") {
///     let words = error.to_string(alloc)?;
///     assert_eq!(rt;
///         words.as_str(),
///         "Parse error at line:2, col:5: ':' is expected after key of object but actually found '1'"
///     );
/// }
/// ```
#[derive(Clone, Copy, Debug, PartialEq, Eq)]
pub struct JsonParseError {
    pub(crate) kind: JsonParseErrorKind,
    pub(crate) line: usize,
    pub(crate) column: usize,
}

/// Why a text was not read into events.
///
/// ```
/// let refused = read_events(alloc, "[1, 2,]", Numbers { count: 0 });
/// assert!(rt; matches!(&refused, Err((ReadError::Parse(error), _)) if error.column() == 6));
/// ```
#[derive(Drop, Debug)]
pub enum ReadError<X> {
    /// The text was refused, or memory for reading it ran out.
    Parse(JsonParseError),
    /// An event returned this error.
    Events(X),
}

impl JsonParseError {
    /// Why the text was refused.
    ///
    /// ```
    /// if let Err(error) = JsonValue::from_str(alloc, "01") {
    ///     assert!(rt; error.kind() == JsonParseErrorKind::LeadingZero);
    /// }
    /// ```
    pub fn kind(&self) -> JsonParseErrorKind
        ensures { result ≡ error_kind self.now }
    {
        self.kind
    }

    /// Whether memory ran out. In every other case the characters that were read are no text.
    ///
    /// ```
    /// if let Err(error) = JsonValue::from_str(alloc, "[") {
    ///     assert!(rt; !error.is_out_of_memory());
    /// }
    /// ```
    pub fn is_out_of_memory(&self) -> bool
        ensures { IsTrue result ↔ (error_kind self.now ≡ JsonParseErrorKind.OutOfMemory) }
    {
        matches!(self.kind, JsonParseErrorKind::OutOfMemory)
    }

    /// The line, from 1: one more than the line feeds that were consumed since the parser was made.
    ///
    /// ```
    /// let parsed = JsonParser::new(alloc, "[1, 2, 3".chars()).parse();
    /// let error = parsed.expect_err(&rt, "an array with no end");
    /// assert_eq!(rt; error.line(), 1);
    /// ```
    ///
    /// ```
    /// if let Err(error) = JsonValue::from_str(alloc, "[\n\n]]") {
    ///     assert!(rt; error.line() == 3);
    /// }
    /// ```
    pub fn line(&self) -> usize
        ensures { result ≡ (error_position self.now).line }
    {
        self.line
    }

    /// How many characters were consumed after the last line feed; 0 at the beginning of a line.
    ///
    /// ```
    /// let parsed = JsonParser::new(alloc, "[1, 2, 3".chars()).parse();
    /// let error = parsed.expect_err(&rt, "an array with no end");
    /// assert_eq!(rt; error.column(), 8);
    /// ```
    ///
    /// ```
    /// if let Err(error) = JsonValue::from_str(alloc, "[\n\n]]") {
    ///     assert!(rt; error.column() == 2);
    /// }
    /// ```
    pub fn column(&self) -> usize
        ensures { result ≡ (error_position self.now).column }
    {
        self.column
    }
}

/// `Parse error at line:LINE, col:COLUMN: ` and the message of the kind.
impl fmt::Display for JsonParseError {
    ghost output = { λ e. Some (error_message e) };

    fn fmt<W: fmt::Write>(&self, f: &mut fmt::Formatter<W>) -> fmt::Result {
        let JsonParseError { kind, line, column } = *self;
        write!(f, "Parse error at line:{line}, col:{column}: {kind}")
    }
}

impl Error for JsonParseError {}

/// Out of memory, at the beginning.
///
/// ```
/// let error = JsonParseError::from(AllocError);
/// assert!(rt; error.is_out_of_memory() && error.line() == 1 && error.column() == 0);
/// ```
impl From<AllocError> for JsonParseError {
    ghost use Rattle.tinyjson_grammar.specs.declared.error.JsonParseErrorKind.TheVariants as refusal;

    ghost from_gives = { λ _ e. (error_kind e ≡ refusal.OutOfMemory) × (error_position e ≡ origin) };

    fn from(_: AllocError) -> JsonParseError {
        JsonParseError {
            kind: JsonParseErrorKind::OutOfMemory,
            line: 1,
            column: 0,
        }
    }
}

/// Of events that fail by memory alone: the error of the parser, or out of memory, at the beginning.
///
/// ```
/// fn count(alloc: Global, text: &str) -> Result<usize, JsonParseError> {
///     match read_events(alloc, text, Numbers { count: 0 }) {
///         Ok(numbers) => Ok(numbers.count),
///         Err((error, _)) => Err(error.into()),
///     }
/// }
/// ```
///
/// ```
/// assert!(rt; count(alloc, "[1, 2.5]").is_ok_and(|count| count == 2));
/// ```
impl From<ReadError<AllocError>> for JsonParseError {
    ghost from_gives = { λ w e. Becomes w e };

    fn from(error: ReadError<AllocError>) -> JsonParseError {
        match error {
            ReadError::Parse(error) => error,
            ReadError::Events(error) => JsonParseError::from(error),
        }
    }
}

/// An error of kind `OutOfMemory` if memory ran out, and otherwise of kind `InvalidData`.
///
/// ```
/// fn read(alloc: Global, text: &str) -> io::Result<JsonValue> {
///     Ok(JsonValue::from_str(alloc, text)?)
/// }
/// ```
///
/// ```
/// assert!(rt; read(alloc, "[").is_err_and(|error| error.kind() == ErrorKind::InvalidData));
/// ```
impl From<JsonParseError> for io::Error {
    ghost use Rattle.std.specs.IoError.{error_kind as io_kind};
    ghost use Rattle.std.specs.declared.io.ErrorKind.TheVariants as io;
    ghost use Rattle.tinyjson_grammar.specs.declared.error.JsonParseErrorKind.TheVariants as refusal;

    ghost from_gives = { λ e r. (error_kind e ≡ refusal.OutOfMemory → io_kind r ≡ io.OutOfMemory)
        × (¬ (error_kind e ≡ refusal.OutOfMemory) → io_kind r ≡ io.InvalidData) };

    fn from(error: JsonParseError) -> io::Error {
        if error.is_out_of_memory() {
            io::Error::from(ErrorKind::OutOfMemory)
        } else {
            io::Error::from(ErrorKind::InvalidData)
        }
    }
}
