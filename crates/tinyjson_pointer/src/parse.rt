//! Parses the text of a pointer.
ghost use Rattle.std.specs.Prelude.{◌≡◌, ◌∷◌, ◌++◌, [], OnOk};
ghost use Rattle.std.specs.Str.{chars};
ghost use Rattle.tinyjson.specs.View.{text};
ghost use Rattle.tinyjson_pointer.specs.Reading.{Reads, ReadsTokens, Unescapes};

use crate::pointer::{Pointer, PointerError};
use std::alloc::{AllocError, Global};
use std::mem;

impl Pointer {
    /// Parses the text of a pointer (RFC 6901, section 3). It is empty, or a `/` is before each token. In
    /// tokens `~0` is `~` and `~1` is `/`.
    ///
    /// ```
    /// let pointer = Pointer::parse(alloc, "/a~1b/0")?; // the item 0 of the member `a/b`
    /// ```
    pub fn parse(alloc: Global, text: &str) -> Result<Pointer, PointerError>
        ensures { Reads (chars text.now) result }
    {
        let mut rest = text.chars();
        match rest.next() {
            None => Ok(Pointer::root(alloc)),
            Some('/') => Ok(Pointer {
                tokens: read_tokens(alloc, rest.as_str())?,
            }),
            Some(_) => Err(PointerError::NoSlash),
        }
    }
}

/// Parses the tokens after the first `/`.
fn read_tokens(alloc: Global, text: &str) -> Result<Vec<String>, PointerError>
    ensures { ReadsTokens (chars text.now) result }
{
    let mut tokens = Vec::new(alloc);
    let mut token = String::new(alloc);
    let mut after_tilde = false;
    for c in text.chars() {
        if after_tilde {
            push(&mut token, unescaped(c)?)?;
            after_tilde = false;
        } else if c == '~' {
            after_tilde = true;
        } else if c == '/' {
            tokens.push(mem::replace(&mut token, String::new(alloc)))?;
        } else {
            push(&mut token, c)?;
        }
    }
    if after_tilde {
        return Err(PointerError::BadEscape);
    }
    tokens.push(token)?;
    Ok(tokens)
}

/// The character for `~` and this one.
fn unescaped(c: char) -> Result<char, PointerError>
    ensures { Unescapes c result }
{
    match c {
        '0' => Ok('~'),
        '1' => Ok('/'),
        _ => Err(PointerError::BadEscape),
    }
}

/// Appends a character.
fn push(token: &mut String, c: char) -> Result<(), AllocError>
    ensures { OnOk result (text token.new ≡ text token.old ++ c ∷ []) }
{
    token.push(c)
}
