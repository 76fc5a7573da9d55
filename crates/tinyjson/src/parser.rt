//! The parser.
ghost use Rattle.std.specs.Prelude.{◌≡◌, ℕ, List, [], Option, None, Some};
ghost use Rattle.std.specs.Iterator.{IsFinite};
ghost use Rattle.std.specs.Str.{chars};
ghost use Rattle.tinyjson.specs.Events.{GivesBack, TellsEvents, TellsRest, without_events};
ghost use Rattle.tinyjson.specs.Parser.{ChecksText, Provides, Remains, Parses, ParsesText};
ghost use Rattle.tinyjson_grammar.specs.Position.{origin};

mod checker;
mod error;
mod events;
mod nest;
mod reader;
mod stack;

use crate::value::JsonValue;
pub use error::{JsonParseError, JsonParseErrorKind, ReadError};
pub use events::Events;
use reader::Reader;
use std::alloc::Global;
use std::marker::Model;
use tinyjson_tokens::{Characters, TextBytes};

/// What [`JsonParser::parse`] returns.
///
/// ```
/// let read: JsonParseResult = JsonParser::new(alloc, "null".chars()).parse();
/// assert!(rt; read.is_ok_and(|value| value.is_null()));
/// ```
pub type JsonParseResult = Result<JsonValue, JsonParseError>;

/// A parser of JSON texts (RFC 8259), over any iterator of characters.
///
/// It looks one character ahead, and asks for it no earlier than it needs it. After an error the
/// characters that were not consumed, the line and the column stay, and another call of
/// [`JsonParser::parse`] reads a text from there.
///
/// ```
/// let mut parser = JsonParser::new(alloc, "[1, 2, 3]".chars());
/// let parsed = parser.parse()?;
///
/// // The same by one call
/// let array = JsonValue::from_str(alloc, "[1, 2, 3]")?;
/// assert!(rt; parsed == array);
/// assert_eq!(rt; parsed.stringify(alloc)?.as_str(), "[1,2,3]");
/// ```
#[derive(Drop)]
pub struct JsonParser<I>
where
    I: Iterator<Item = char>,
{
    limit: Option<usize>,
    reader: Reader<Characters<I>>,
}

// Contracts see a parser as its limit, its position and the characters that are left.
impl<I: Iterator<Item = char>> Model for JsonParser<I> {
    ghost use Rattle.std.specs.Prelude.{Some, None, cond};
    ghost use Rattle.tinyjson.specs.Parser.{Parser};
    ghost use Rattle.tinyjson_grammar.specs.Position.{position_at};

    ghost Value = { Parser I };

    ghost view = { λ p. record {
      limit = p.limit;
      position = position_at p.reader.tokens.source.cursor.line
          p.reader.tokens.source.cursor.column;
      ahead = p.reader.tokens.source.cursor.peeked;
      source = cond p.reader.tokens.source.cursor.done None (Some p.reader.tokens.source.cursor.it);
    } };
}

impl<I: Iterator<Item = char>> JsonParser<I> {
    /// A parser at line 1, column 0. It takes no memory, and has no limit on depth.
    ///
    /// Free a value that is nested deeper than some ten thousand levels with
    /// [`JsonValue::dismantle`]: where it goes out of scope, the language's own recursion can
    /// overrun the stack. So read the texts of strangers with [`JsonParser::with_depth_limit`], or
    /// give their values to `dismantle`.
    ///
    /// ```
    /// let mut parser = JsonParser::new(alloc, "[1, true]".chars());
    /// assert!(rt; parser.parse().is_ok_and(|value| value.is_array()));
    /// ```
    pub fn new(alloc: Global, it: I) -> Self
        requires can { I.can_next it }
        requires finite { IsFinite (I.remaining it) }
        ensures remains { (xs : List ℕ) → Provides I.next_gives it xs →
            Remains I.next_gives result xs }
        ensures position { result.position ≡ origin }
        ensures limit { result.limit ≡ None }
    {
        JsonParser {
            limit: None,
            reader: Reader::new(alloc, Characters::new(it)),
        }
    }

    /// A parser that accepts texts in which at most `limit` containers are open at once. An opening
    /// bracket that would be one too many is refused as `TooDeep` and isn't consumed.
    ///
    /// With the limit 1, `[1]` is accepted and `[[1]]` is refused at its second bracket.
    ///
    /// ```
    /// let result = JsonParser::with_depth_limit(alloc, "[[1]]".chars(), 1).parse();
    /// assert!(rt; result.is_err_and(|error| error.kind() == JsonParseErrorKind::TooDeep('[')));
    /// ```
    pub fn with_depth_limit(alloc: Global, it: I, limit: usize) -> Self
        requires can { I.can_next it }
        requires finite { IsFinite (I.remaining it) }
        ensures remains { (xs : List ℕ) → Provides I.next_gives it xs →
            Remains I.next_gives result xs }
        ensures position { result.position ≡ origin }
        ensures limit { result.limit ≡ Some limit }
    {
        JsonParser {
            limit: Some(limit),
            reader: Reader::new(alloc, Characters::new(it)),
        }
    }

    /// Reads all characters that are left as one text (RFC 8259, section 2), and returns its value.
    ///
    /// Of equal keys in an object the last member stays. An error has a kind, and the line and the
    /// column after what was consumed; it holds no part of a value. After a value nothing is left, and a
    /// further call returns `UnexpectedEof`. What is read and not returned, as of a text that is refused,
    /// is freed by a loop, however deep it is nested.
    ///
    /// ```
    /// let mut parser = JsonParser::new(alloc, "nul 1".chars());
    /// assert!(rt; parser.parse().is_err());
    /// assert!(rt; parser.parse().is_ok_and(|value| value.is_number()));
    /// ```
    pub fn parse(&mut self) -> JsonParseResult
        ensures parses { (xs : List ℕ) → Remains I.next_gives self.old xs →
            Parses I.next_gives self.old xs result self.new }
        ensures limit { self.new.limit ≡ self.old.limit }
    {
        self.reader.text(self.limit)
    }

    /// Reads all characters that are left as one text into events, without building a value: so a text
    /// larger than memory is read. The events are given back, beside the error too.
    ///
    /// An error is that of [`JsonParser::parse`], or out of memory, or the one that an event returned. Unless
    /// an event returned it, the events still `hold` some open containers, or are those of some value. If it is
    /// one of `parse`, the line, the column and what is left are those after `parse`.
    ///
    /// ```
    /// let mut parser = JsonParser::new(alloc, "[1, {\"a\": 2.5}]".chars());
    /// let numbers = parser.parse_events(Numbers { count: 0 })?;
    /// assert_eq!(rt; numbers.count, 2);
    /// ```
    pub fn parse_events<E: Events>(&mut self, events: E) -> Result<E, (ReadError<E::Error>, E)>
        requires { E.holds events events [] }
        ensures parses { (xs : List ℕ) → Remains I.next_gives self.old xs →
            TellsRest I.next_gives (E.is events) self.old xs (without_events result) self.new }
        ensures back { GivesBack (E.holds events) (E.is events) result }
        ensures limit { self.new.limit ≡ self.old.limit }
    {
        self.reader.told(self.limit, events)
    }
}

impl JsonValue {
    /// The value of a text: what [`JsonParser::parse`] of a new parser returns for its characters.
    ///
    /// A deeply nested value is freed as [`JsonParser::new`] describes: read the texts of strangers with
    /// [`JsonValue::from_str_with_depth_limit`], or give their values to [`JsonValue::dismantle`].
    ///
    /// ```
    /// let array = JsonValue::from_str(alloc, "[1, 2, 3]")?;
    /// assert!(rt; array.is_array());
    /// ```
    pub fn from_str(alloc: Global, s: &str) -> JsonParseResult
        ensures { ParsesText None (chars s.now) result }
    {
        parse_text(alloc, s, None)
    }

    /// The value of a text in which at most `limit` containers are open at once: what a parser made by
    /// [`JsonParser::with_depth_limit`] returns for its characters.
    ///
    /// ```
    /// let result = JsonValue::from_str_with_depth_limit(alloc, "[[1]]", 1);
    /// assert!(rt; result.is_err_and(|error| error.kind() == JsonParseErrorKind::TooDeep('[')));
    /// ```
    pub fn from_str_with_depth_limit(alloc: Global, s: &str, limit: usize) -> JsonParseResult
        ensures { ParsesText (Some limit) (chars s.now) result }
    {
        parse_text(alloc, s, Some(limit))
    }
}

/// What [`JsonParser::parse`] of a new parser with this limit returns for the characters of a text.
fn parse_text(alloc: Global, text: &str, limit: Option<usize>) -> JsonParseResult
    ensures { ParsesText limit (chars text.now) result }
{
    Reader::new(alloc, TextBytes::new(text)).text(limit)
}

/// Whether a text has a value: what [`JsonValue::from_str`] returns for it, without the value, of which
/// nothing is built.
///
/// ```
/// assert!(rt; check(alloc, "{\"a\": [1.5e0, null]}").is_ok());
/// let result = check(alloc, "01");
/// assert!(rt; result.is_err_and(|error| error.kind() == JsonParseErrorKind::LeadingZero));
/// ```
pub fn check(alloc: Global, text: &str) -> Result<(), JsonParseError>
    ensures { ChecksText None (chars text.now) result }
{
    check_text(alloc, text, None)
}

/// Whether a text has a value in which at most `limit` containers are open at once: what
/// [`JsonValue::from_str_with_depth_limit`] returns for it, without the value.
///
/// ```
/// assert!(rt; check_with_depth_limit(alloc, "[[1]]", 2).is_ok());
/// let result = check_with_depth_limit(alloc, "[[1]]", 1);
/// assert!(rt; result.is_err_and(|error| error.kind() == JsonParseErrorKind::TooDeep('[')));
/// ```
pub fn check_with_depth_limit(alloc: Global, text: &str, limit: usize) -> Result<(), JsonParseError>
    ensures { ChecksText (Some limit) (chars text.now) result }
{
    check_text(alloc, text, Some(limit))
}

/// Whether a text has a value in which no more containers are open at once than this limit allows.
fn check_text(alloc: Global, text: &str, limit: Option<usize>) -> Result<(), JsonParseError>
    ensures { ChecksText limit (chars text.now) result }
{
    Reader::new(alloc, TextBytes::new(text)).check(limit)
}

/// Reads a text into events, which are given back, beside an error too. The error is that of
/// [`JsonValue::from_str`], or out of memory, or the one that an event returned. Unless an event returned it,
/// the events still `hold` some open containers, or are those of some value.
///
/// ```
/// let numbers = read_events(alloc, "[1, {\"a\": 2.5}]", Numbers { count: 0 })?;
/// assert_eq!(rt; numbers.count, 2);
///
/// let refused = read_events(alloc, "[1, 2,]", Numbers { count: 0 });
/// assert!(rt;
///     refused.is_err_and(|(error, numbers)| {
///         matches!(error, ReadError::Parse(error) if error.column() == 6) && numbers.count == 2
///     })
/// );
/// ```
pub fn read_events<E: Events>(
    alloc: Global,
    text: &str,
    events: E,
) -> Result<E, (ReadError<E::Error>, E)>
    requires { E.holds events events [] }
    ensures tells { TellsEvents (E.is events) None (chars text.now) (without_events result) }
    ensures back { GivesBack (E.holds events) (E.is events) result }
{
    tell_text(alloc, text, None, events)
}

/// Reads a text into events as [`read_events`] does, if at most `limit` containers are open at once in it.
/// An error is that of [`JsonValue::from_str_with_depth_limit`], or out of memory, or one of the events.
///
/// ```
/// let numbers = read_events_with_depth_limit(alloc, "[1, [2]]", 2, Numbers { count: 0 })?;
/// assert_eq!(rt; numbers.count, 2);
/// let result = read_events_with_depth_limit(alloc, "[1, [2]]", 1, Numbers { count: 0 });
/// let result = result.map_err(|(error, _)| JsonParseError::from(error));
/// assert!(rt; result.is_err_and(|error| error.kind() == JsonParseErrorKind::TooDeep('[')));
/// ```
pub fn read_events_with_depth_limit<E: Events>(
    alloc: Global,
    text: &str,
    limit: usize,
    events: E,
) -> Result<E, (ReadError<E::Error>, E)>
    requires { E.holds events events [] }
    ensures tells { TellsEvents (E.is events) (Some limit) (chars text.now)
        (without_events result) }
    ensures back { GivesBack (E.holds events) (E.is events) result }
{
    tell_text(alloc, text, Some(limit), events)
}

/// Reads a text into events, with this limit on the containers that are open at once.
fn tell_text<E: Events>(
    alloc: Global,
    text: &str,
    limit: Option<usize>,
    events: E,
) -> Result<E, (ReadError<E::Error>, E)>
    requires { E.holds events events [] }
    ensures tells { TellsEvents (E.is events) limit (chars text.now) (without_events result) }
    ensures back { GivesBack (E.holds events) (E.is events) result }
{
    Reader::new(alloc, TextBytes::new(text)).told(limit, events)
}
