//! Places in a document: JSON pointers in the form that a URI fragment needs.
ghost use Rattle.std.specs.Fmt.{WritesOnOk};
ghost use Rattle.std.specs.Prelude.{◌≡◌, Some, IfOk};
ghost use Rattle.std.specs.Str.{chars};
ghost use Rattle.std.specs.String.{string_bytes};
ghost use Rattle.tinyjson_schema_keywords.specs.Subschemas.{way_of};
ghost use Rattle.tinyjson_schema_bundle.specs.Bundles.{token_char, token_text, at_key, at_index};
ghost use Rattle.tinyjson_schema_bundle.specs.Bundles.{at_way};

use std::alloc::{AllocError, Global};
use std::fmt::{self, Write};
use tinyjson_schema_keywords::Token;

/// A key as a token of a pointer; it escapes the characters that a fragment or a pointer does not allow.
#[derive(Drop)]
struct Escaped<'a>(&'a str);

impl fmt::Display for Escaped<'_> {
    ghost output = { λ t. Some (token_text (chars t.0.now)) };

    fn fmt<W: fmt::Write>(&self, f: &mut fmt::Formatter<W>) -> fmt::Result {
        write_token(f, self.0)
    }
}

fn write_token<W: fmt::Write>(f: &mut fmt::Formatter<W>, token: &str) -> fmt::Result
    ensures { WritesOnOk W.write_str_gives f.old result (token_text (chars token.now)) f.new }
{
    for c in token.chars() {
        write_token_char(f, c)?;
    }
    Ok(())
}

fn write_token_char<W: fmt::Write>(f: &mut fmt::Formatter<W>, c: char) -> fmt::Result
    ensures { WritesOnOk W.write_str_gives f.old result (token_char c) f.new }
{
    if c == '%' {
        f.write_str("%25")
    } else if c == '~' {
        f.write_str("~0")
    } else if c == '/' {
        f.write_str("~1")
    } else {
        f.write_char(c)
    }
}

/// The place of the value at the key. Not inlined, since recursions over schemas call it at each level.
#[inline(never)]
pub fn at_key(place: &str, key: &str, alloc: Global) -> Result<String, AllocError>
    ensures { IfOk result (λ s. string_bytes s ≡ at_key place.now (chars key.now)) }
{
    format!(in alloc; "{place}/{}", Escaped(key))
}

/// The place of the value at the index.
#[inline(never)]
pub fn at_index(place: &str, index: usize, alloc: Global) -> Result<String, AllocError>
    ensures { IfOk result (λ s. string_bytes s ≡ at_index place.now index) }
{
    format!(in alloc; "{place}/{index}")
}

/// The place of a part.
pub fn at_token(place: &str, token: Token<'_>, alloc: Global) -> Result<String, AllocError>
    ensures { IfOk result (λ s. string_bytes s ≡ at_way place.now (way_of token.entry)) }
{
    match token {
        Token::Key(key) => at_key(place, key.as_str(), alloc),
        Token::Index(index) => at_index(place, index, alloc),
    }
}
