//! Letters, and where texts of them end.
ghost use Rattle.std.specs.Char.{to_ascii_lowercase};
ghost use Rattle.std.specs.Prelude.{◌≡◌, ◌==◌};
ghost use Rattle.text_formats.specs.Letters.{each, is_unreserved, is_sub_delimiter, begins_with_pair};
ghost use Rattle.text_formats.specs.Letters.{is_uri_letter, is_label_letter, is_atom_letter, is_pointer_letter};
ghost use Rattle.text_formats.specs.Letters.{is_among, after_word};
ghost use Rattle.text_formats.specs.Scan.{ends, passes};
ghost use Rattle.text_formats.specs.Splitting.{now};
ghost use Rattle.text_formats.specs.Template.{is_literal, is_name_letter};
ghost use Rattle.text_uri.specs.Parts.{is_scheme_letter};

use text_uri::Ends;

/// Where a part of a text ends.
#[derive(Clone, Copy)]
pub(crate) enum End {
    Digits,
    User,
    Host,
    Literal,
    Version,
    Scheme,
    Authority,
    Path,
    Query,
    Brace,
    Expression,
    Name,
}

/// Letters of one kind.
#[derive(Clone, Copy)]
pub(crate) enum Letters {
    Digit,
    Hex,
    Label,
    Atom,
    Pointer,
    Scheme,
    Host,
    User,
    Path,
    Query,
    Future,
    Literal,
    Name,
}

impl Ends for End {
    ghost ends = { ends };

    fn ends(self, byte: u8) -> bool {
        match self {
            End::Digits => !byte.is_ascii_digit(),
            End::User => byte == b'@',
            End::Host => byte == b':',
            End::Literal => byte == b']',
            End::Version => byte == b'.',
            End::Scheme => matches!(byte, b':' | b'/' | b'?' | b'#'),
            End::Authority => matches!(byte, b'/' | b'?' | b'#'),
            End::Path => matches!(byte, b'?' | b'#'),
            End::Query => byte == b'#',
            End::Brace => byte == b'{',
            End::Expression => byte == b'}',
            End::Name => matches!(byte, b':' | b'*'),
        }
    }
}

/// Whether the byte is the letter in either case.
pub(crate) fn is_letter(letter: u8, c: u8) -> bool
    ensures { result ≡ (to_ascii_lowercase c == to_ascii_lowercase letter) }
{
    c.to_ascii_lowercase() == letter.to_ascii_lowercase()
}

/// What follows the word at the front of the text, whose letters may have either case.
pub(crate) fn after_word<'t>(word: &[u8], text: &'t [u8]) -> Option<&'t [u8]>
    ensures { now result ≡ after_word word.now text.now }
{
    let Some((letter, more)) = word.split_first() else {
        return Some(text);
    };
    let (c, rest) = text.split_first()?;
    if is_letter(*letter, *c) {
        after_word(more, rest)
    } else {
        None
    }
}

/// Whether all letters of the text are of the kind.
pub(crate) fn are(letters: Letters, text: &[u8]) -> bool
    ensures { result ≡ each (passes letters) text.now }
{
    let mut rest = text;
    while let Some((c, more)) = rest.split_first() {
        if !passes(letters, *c, more) {
            return false;
        }
        rest = more;
    }
    true
}

/// Whether the letter is of the kind, before the rest.
fn passes(letters: Letters, c: u8, rest: &[u8]) -> bool
    ensures { result ≡ passes letters c rest.now }
{
    match letters {
        Letters::Digit => c.is_ascii_digit(),
        Letters::Hex => c.is_ascii_hexdigit(),
        Letters::Label => is_label_letter(c),
        Letters::Atom => is_atom_letter(c),
        Letters::Pointer => is_pointer_letter(c, rest),
        Letters::Scheme => is_scheme_letter(c),
        Letters::Host => is_uri_letter(b"", c, rest),
        Letters::User => is_uri_letter(b":", c, rest),
        Letters::Path => is_uri_letter(b":@/", c, rest),
        Letters::Query => is_uri_letter(b":@/?", c, rest),
        Letters::Future => is_unreserved(c) || is_sub_delimiter(c) || c == b':',
        Letters::Literal => is_template_literal(c, rest),
        Letters::Name => is_name_letter(c, rest),
    }
}

pub(crate) fn is_label_letter(c: u8) -> bool
    ensures { result ≡ is_label_letter c }
{
    c.is_ascii_alphanumeric() || c == b'-'
}

fn is_atom_letter(c: u8) -> bool
    ensures { result ≡ is_atom_letter c }
{
    c.is_ascii_alphanumeric() || is_among(b"!#$%&'*+-/=?^_`{|}~", c)
}

fn is_pointer_letter(c: u8, rest: &[u8]) -> bool
    ensures { result ≡ is_pointer_letter c rest.now }
{
    c != b'~' || matches!(rest, [b'0' | b'1', ..])
}

fn is_scheme_letter(c: u8) -> bool
    ensures { result ≡ is_scheme_letter c }
{
    matches!(c, b'A'..=b'Z' | b'a'..=b'z' | b'0'..=b'9' | b'+' | b'-' | b'.')
}

/// Whether the letter may be in a part of a URI that has such other letters, where the rest is after it.
fn is_uri_letter(others: &[u8], c: u8, rest: &[u8]) -> bool
    ensures { result ≡ is_uri_letter others.now c rest.now }
{
    is_unreserved(c)
        || is_sub_delimiter(c)
        || is_among(others, c)
        || (c == b'%' && begins_with_pair(rest))
}

/// Whether the letter may be outside of the expressions of a URI template, where the rest is after it.
fn is_template_literal(c: u8, rest: &[u8]) -> bool
    ensures { result ≡ is_literal c rest.now }
{
    if c == b'%' {
        return begins_with_pair(rest);
    }
    c >= 128 || (matches!(c, b'!'..=b'~') && !is_among(b"\"'<>\\^`{|}", c))
}

/// Whether the letter may be in the name of a variable of a URI template, where the rest is after it.
fn is_name_letter(c: u8, rest: &[u8]) -> bool
    ensures { result ≡ is_name_letter c rest.now }
{
    c.is_ascii_alphanumeric() || c == b'_' || (c == b'%' && begins_with_pair(rest))
}

fn is_unreserved(c: u8) -> bool
    ensures { result ≡ is_unreserved c }
{
    c.is_ascii_alphanumeric() || is_among(b"-._~", c)
}

fn is_sub_delimiter(c: u8) -> bool
    ensures { result ≡ is_sub_delimiter c }
{
    is_among(b"!$&'()*+,;=", c)
}

fn begins_with_pair(text: &[u8]) -> bool
    ensures { result ≡ begins_with_pair text.now }
{
    match text {
        [a, b, ..] => a.is_ascii_hexdigit() && b.is_ascii_hexdigit(),
        _ => false,
    }
}

pub(crate) fn is_among(letters: &[u8], c: u8) -> bool
    ensures { result ≡ is_among letters.now c }
{
    letters.iter().any(|d| *d == c)
}
