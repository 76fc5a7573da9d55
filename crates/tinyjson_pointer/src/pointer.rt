//! A pointer, which is a list of tokens.
ghost use Rattle.std.specs.Prelude.{◌≡◌, ◌∷◌, [], Some, OnOk, OnErr, length, map};
ghost use Rattle.std.specs.Prelude.{encode_utf8_all};
ghost use Rattle.std.specs.Fmt.{WritesOnOk};
ghost use Rattle.std.specs.Str.{chars};
ghost use Rattle.tinyjson.specs.View.{text};
ghost use Rattle.tinyjson_pointer.specs.Index.{HasIndexBefore};
ghost use Rattle.tinyjson_pointer.specs.Reading.{pointer_error_message};
ghost use Rattle.tinyjson_pointer.specs.Text.{escape_char, escape, pointer_text};
ghost use Rattle.tinyjson_pointer.specs.Tokens.{tokens_of, begins_with};
ghost use Rattle.tinyjson_pointer.specs.declared.pointer.PointerError.{PointerError};

use std::alloc::{AllocError, AllocFailed, Global};
use std::error::Error;
use std::fmt::{self, Write};

/// Why a text is no pointer.
#[derive(Clone, Copy, Debug, PartialEq, Eq)]
pub enum PointerError {
    /// The text is not empty and does not begin with `/`.
    NoSlash,
    /// A `~` has neither `0` nor `1` after it.
    BadEscape,
    /// An allocation failed.
    OutOfMemory,
}

impl From<AllocError> for PointerError {
    ghost from_gives = { λ _ e. e ≡ PointerError.OutOfMemory };

    fn from(_: AllocError) -> PointerError {
        PointerError::OutOfMemory
    }
}

impl<T: Drop> From<AllocFailed<T>> for PointerError {
    ghost from_gives = { λ _ e. e ≡ PointerError.OutOfMemory };

    fn from(_: AllocFailed<T>) -> PointerError {
        PointerError::OutOfMemory
    }
}

impl fmt::Display for PointerError {
    ghost output = { λ e. Some (pointer_error_message e) };

    fn fmt<W: fmt::Write>(&self, f: &mut fmt::Formatter<W>) -> fmt::Result {
        match self {
            PointerError::NoSlash => f.write_str("the pointer begins with no '/'"),
            PointerError::BadEscape => f.write_str("a '~' is followed by neither '0' nor '1'"),
            PointerError::OutOfMemory => f.write_str("out of memory"),
        }
    }
}

impl Error for PointerError {}

/// A JSON pointer: the keys and indices that lead from a value to a part of it.
#[derive(Debug, Drop)]
pub struct Pointer {
    pub(crate) tokens: Vec<String>,
}

impl Pointer {
    /// The pointer to the whole value; its text is empty.
    ///
    /// ```
    /// Pointer::root(alloc).find(&value) // the whole value
    /// ```
    pub fn root(alloc: Global) -> Pointer
        ensures { tokens_of result ≡ [] }
    {
        Pointer {
            tokens: Vec::new(alloc),
        }
    }

    /// The tokens, from the whole to the part: keys, and indices as text.
    ///
    /// ```
    /// let pointer = Pointer::parse(alloc, "/a~1b/0")?;
    /// let tokens = pointer.tokens(); // `a/b` and `0`
    /// ```
    pub fn tokens(&self) -> &[String]
        ensures { map text result.now ≡ tokens_of self.now }
    {
        self.tokens.as_slice()
    }

    /// The number of tokens: the depth of the part that this names.
    ///
    /// ```
    /// Pointer::parse(alloc, "/a/0")?.depth() // 2
    /// ```
    pub fn depth(&self) -> usize
        ensures { result ≡ length (tokens_of self.now) }
    {
        self.tokens.len()
    }

    /// Whether the other's tokens are a prefix of these: this then names the other's part, or a part of
    /// it.
    ///
    /// ```
    /// pointer.starts_with(&other) // /a/0 and /a: true; /ab and /a: false
    /// ```
    pub fn starts_with(&self, other: &Pointer) -> bool
        ensures { result ≡ begins_with (tokens_of self.now) (tokens_of other.now) }
    {
        self.tokens.starts_with(other.tokens.as_slice())
    }

    /// Puts a token in front. What this named in a value, it now names in the value's container. If
    /// memory runs out, the tokens are unchanged.
    ///
    /// ```
    /// pointer.prepend(token)?; // /0 with the token a is then /a/0
    /// ```
    pub fn prepend(&mut self, token: String) -> Result<(), AllocError>
        ensures ok { OnOk result (tokens_of self.new ≡ text token ∷ tokens_of self.old) }
        ensures err { OnErr result (tokens_of self.new ≡ tokens_of self.old) }
    {
        Ok(self.tokens.insert(0, token)?)
    }

    /// Puts the token of an index in front. If memory runs out, the tokens are unchanged.
    ///
    /// ```
    /// pointer.prepend_index(alloc, 3)?; // /a is then /3/a
    /// ```
    pub fn prepend_index(&mut self, alloc: Global, index: usize) -> Result<(), AllocError>
        ensures ok { OnOk result (HasIndexBefore index (tokens_of self.old) (tokens_of self.new)) }
        ensures err { OnErr result (tokens_of self.new ≡ tokens_of self.old) }
    {
        self.prepend(format!(in alloc; "{index}")?)
    }
}

/// The text that [`Pointer::parse`] accepts.
impl fmt::Display for Pointer {
    ghost output = { λ p. Some (encode_utf8_all (pointer_text (tokens_of p))) };

    fn fmt<W: fmt::Write>(&self, f: &mut fmt::Formatter<W>) -> fmt::Result {
        for token in &self.tokens {
            f.write_str("/")?;
            write_escaped(f, token.as_str())?;
        }
        Ok(())
    }
}

fn write_escaped<W: fmt::Write>(f: &mut fmt::Formatter<W>, token: &str) -> fmt::Result
    ensures { WritesOnOk W.write_str_gives f.old result
        (encode_utf8_all (escape (chars token.now))) f.new }
{
    for c in token.chars() {
        write_escaped_char(f, c)?;
    }
    Ok(())
}

fn write_escaped_char<W: fmt::Write>(f: &mut fmt::Formatter<W>, c: char) -> fmt::Result
    ensures { WritesOnOk W.write_str_gives f.old result (encode_utf8_all (escape_char c)) f.new }
{
    if c == '~' {
        f.write_str("~0")
    } else if c == '/' {
        f.write_str("~1")
    } else {
        f.write_char(c)
    }
}
