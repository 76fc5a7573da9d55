//! The place at which a part of a text begins.
ghost use Rattle.std.specs.Prelude.{◌≡◌, ◌∷◌, ◌++◌, [], ℕ, List, None};
ghost use Rattle.std.specs.Str.{chars};
ghost use Rattle.tinyjson.specs.Grammar.{IsAccepted};
ghost use Rattle.tinyjson.specs.Position.{advance, origin, position_at};
ghost use Rattle.tinyjson_pointer.specs.Tokens.{tokens_of};
ghost use Rattle.tinyjson_pointer.specs.Places.{Locates};
ghost use Rattle.tinyjson_pointer.specs.private.Parts.{IsBefore, EndsWith};

mod key;
mod member;
mod part;
mod scan;
mod text;

use crate::pointer::Pointer;
pub use key::{key_place_in, key_place_of};
use part::part;
use std::alloc::Global;
use text::after_white;
use tinyjson::{JsonParseError, check};

/// A place in a text.
#[derive(Clone, Copy, Debug, PartialEq, Eq)]
pub struct Place {
    /// How many bytes are before it.
    pub offset: usize,
    /// The line of its first character, from 1.
    pub line: usize,
    /// The column of its first character, from 1, in characters.
    pub column: usize,
}

/// Where the part begins that the pointer names in the value of the text; `None` if it names none. Of equal keys the
/// last counts.
///
/// An error is that of [`JsonValue::from_str`], or out of memory, whose line and column may be those within a key.
/// The text is read once more for each token. Memory is taken for the open containers, and for one key at a time.
///
/// ```
/// let text = "[1,\n {\"a\": true}]";
/// let place = place_of(alloc, text, &Pointer::parse(alloc, "/1/a")?)?; // byte 11, line 2, column 8
/// ```
pub fn place_of(
    alloc: Global,
    text: &str,
    pointer: &Pointer,
) -> Result<Option<Place>, JsonParseError>
    ensures { Locates (chars text.now) (tokens_of pointer.now) result }
{
    check(alloc, text)?;
    place_in(alloc, text, pointer)
}

/// [`place_of`] in a text that is known to be accepted: it is not checked again. The only error is out of memory.
///
/// ```
/// let place = place_in(alloc, text, &pointer)?; // of a text that was parsed before
/// ```
pub fn place_in(
    alloc: Global,
    text: &str,
    pointer: &Pointer,
) -> Result<Option<Place>, JsonParseError>
    requires { IsAccepted None (chars text.now) }
    ensures { Locates (chars text.now) (tokens_of pointer.now) result }
{
    let found = part(alloc, after_white(text), pointer.tokens())?;
    let Some(part) = found else {
        return Ok(None);
    };
    Ok(Some(place_at(text, part)))
}

/// The place at which the end of a text begins.
pub(crate) fn place_at(text: &str, end: &str) -> Place
    requires { EndsWith (chars text.now) (chars end.now) }
    ensures { (front : List ℕ) → chars text.now ≡ front ++ chars end.now → IsBefore front result }
{
    let offset = text.len() - end.len();
    let (line, column) = position_after(&text[..offset]);
    Place {
        offset,
        line,
        column: column.saturating_add(1),
    }
}

/// The line and the column after a text.
fn position_after(text: &str) -> (usize, usize)
    ensures { position_at result.0 result.1 ≡ advance origin (chars text.now) }
{
    let mut line = 1;
    let mut column = 0;
    for c in text.chars() {
        (line, column) = after_char(line, column, c);
    }
    (line, column)
}

/// The line and the column after a character.
fn after_char(line: usize, column: usize, c: char) -> (usize, usize)
    ensures { position_at result.0 result.1 ≡ advance (position_at line column) (c ∷ []) }
{
    if c == '\n' {
        (line.saturating_add(1), 0)
    } else {
        (line, column.saturating_add(1))
    }
}
