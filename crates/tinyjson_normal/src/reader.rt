//! Normalizes many texts, one after the other.
ghost use Rattle.std.specs.Prelude.{[], IfOk, List, Option, ℕ};
ghost use Rattle.std.specs.Str.{chars};
ghost use Rattle.tinyjson.specs.Events.{TellsEvents, TellsText, without_events};
ghost use Rattle.tinyjson.specs.Tree.{Tree};
ghost use Rattle.tinyjson_grammar.specs.Soundness.{IsTree};
ghost use Rattle.tinyjson_normal.specs.Compacting.{Holds, IsOf};
ghost use Rattle.tinyjson_normal.specs.Normal.{HasTree};

use crate::compact::Compact;
use crate::normal::{Content, NormalText};
use std::alloc::{AllocError, Global};
use std::mem;
use tinyjson::{Events, JsonParseError, ReadError, read_events, read_events_with_depth_limit};
use tinyjson_document::Arena;

/// Up to this many times the text's length is moved to put members in order.
const MOVES: usize = 8;

/// Parses texts one after the other, and keeps the memory of each for the next. It is for many small
/// texts, as the lines of a log. It keeps as much memory as the largest text took.
///
/// ```
/// let mut reader = NormalReader::new(alloc);
/// let mut output = Vec::new(alloc);
/// for line in ["[1.0]", r#"{"b": 2, "a": 1}"#] {
///     let normal = reader.read(line, None)?;
///     normal.write_to(reader.allocator(), &mut output)?;
///     reader.reuse(normal);
/// }
/// assert_eq!(rt; output.as_slice(), br#"[1]{"a":1,"b":2}"#.as_slice());
/// ```
#[derive(Drop)]
pub struct NormalReader {
    alloc: Global,
    spare: Option<Box<Compact>>,
}

impl NormalReader {
    /// A reader without memory yet.
    ///
    /// ```
    /// let mut reader = NormalReader::new(alloc);
    /// ```
    pub fn new(alloc: Global) -> NormalReader {
        NormalReader { alloc, spare: None }
    }

    /// The allocator of the reader.
    ///
    /// ```
    /// let reader = NormalReader::new(alloc);
    /// assert!(rt; NormalText::read(reader.allocator(), "[1.0]").is_ok());
    /// ```
    pub fn allocator(&self) -> Global {
        self.alloc
    }

    /// Parses a text with at most `limit` nested containers, or any number for `None`. It returns what
    /// [`NormalText::read`] and [`NormalText::read_with_depth_limit`] return, whatever was parsed before.
    ///
    /// ```
    /// let mut reader = NormalReader::new(alloc);
    /// assert!(rt; reader.read("[[1]]", Some(2)).is_ok());
    /// let result = reader.read("[[1]]", Some(1));
    /// assert!(rt; result.is_err_and(|error| error.kind() == JsonParseErrorKind::TooDeep('[')));
    /// ```
    pub fn read(&mut self, text: &str, limit: Option<usize>) -> Result<NormalText, JsonParseError>
        ensures { TellsText HasTree limit (chars text.now) result }
    {
        let Ok(compact) = self.begin(text.len()) else {
            return of_nodes(self.alloc, text, limit);
        };
        match read_into(self.alloc, text, limit, compact) {
            Ok(compact) => Ok(self.finish(compact)),
            Err((error, _)) if error.is_out_of_memory() => of_nodes(self.alloc, text, limit),
            Err((error, compact)) => {
                self.spare = Some(compact);
                Err(error)
            }
        }
    }

    /// Returns the memory of a text to the reader.
    ///
    /// ```
    /// let mut reader = NormalReader::new(alloc);
    /// let normal = reader.read("[1.0]", None)?;
    /// reader.reuse(normal);
    /// ```
    pub fn reuse(&mut self, normal: NormalText) {
        if let (Content::Text(text), Some(compact)) = (normal.content, &mut self.spare) {
            compact.text = text;
        }
    }

    /// Empties the buffers, and reserves room for a text of `len` bytes.
    fn begin(&mut self, len: usize) -> Result<Box<Compact>, AllocError>
        ensures { IfOk result (λ b. Holds b.value []) }
    {
        let mut compact = match self.spare.take() {
            Some(compact) => compact,
            None => new_box(self.alloc)?,
        };
        compact.begin(len, len.saturating_mul(MOVES));
        Ok(compact)
    }

    /// The finished text, without the comma after it. The other memory stays with the reader.
    fn finish(&mut self, compact: Box<Compact>) -> NormalText
        ensures { (t : Tree) → IsOf compact.value t → IsTree t → HasTree result t }
    {
        let mut compact = compact;
        let mut text = mem::replace(&mut compact.text, Vec::new(self.alloc));
        text.truncate(text.len().saturating_sub(1));
        self.spare = Some(compact);
        NormalText {
            content: Content::Text(text),
        }
    }
}

/// New buffers. Not inlined, so that no room for them is cleared where buffers were kept.
#[cold]
#[inline(never)]
fn new_box(alloc: Global) -> Result<Box<Compact>, AllocError> {
    Ok(Box::new(alloc, Compact::new(alloc))?)
}

/// A text that is parsed into an arena.
fn of_nodes(alloc: Global, text: &str, limit: Option<usize>) -> Result<NormalText, JsonParseError>
    ensures { TellsText HasTree limit (chars text.now) result }
{
    match read_into(alloc, text, limit, Arena::new(alloc)) {
        Ok(arena) => Ok(NormalText {
            content: Content::Arena(arena),
        }),
        Err((error, _)) => Err(error),
    }
}

/// Parses the text, and sends its events. They fail by memory alone.
fn read_into<E: Events<Error = AllocError>>(
    alloc: Global,
    text: &str,
    limit: Option<usize>,
    events: E,
) -> Result<E, (JsonParseError, E)>
    requires { E.holds events events [] }
    ensures { TellsText (E.is events) limit (chars text.now) (without_events result) }
{
    match read_limited(alloc, text, limit, events) {
        Ok(events) => Ok(events),
        Err((error, events)) => Err((JsonParseError::from(error), events)),
    }
}

/// Parses the text, and sends its events. There may be a limit on nested containers.
fn read_limited<E: Events>(
    alloc: Global,
    text: &str,
    limit: Option<usize>,
    events: E,
) -> Result<E, (ReadError<E::Error>, E)>
    requires { E.holds events events [] }
    ensures { TellsEvents (E.is events) limit (chars text.now) (without_events result) }
{
    match limit {
        None => read_events(alloc, text, events),
        Some(limit) => read_events_with_depth_limit(alloc, text, limit, events),
    }
}
