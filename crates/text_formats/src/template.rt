//! URI templates.
ghost use Rattle.std.specs.List.{list_all, list_any, slice_split};
ghost use Rattle.std.specs.Prelude.{◌≡◌};
ghost use Rattle.std.specs.Str.{chars};
ghost use Rattle.text_formats.specs.Letters.{is_brace};
ghost use Rattle.text_formats.specs.Template.{are_pieces, are_variables, is_end, is_expression, is_known, is_modified};
ghost use Rattle.text_formats.specs.Template.{is_most, is_name, is_name_part, is_of_pieces, is_piece, is_template};
ghost use Rattle.text_formats.specs.Template.{is_variable, is_within};

use crate::letters::{End, Letters, are, is_among};
use text_uri::cut;

/// The first and the last character of each range beyond ASCII that a template may have.
const WIDE: [(u32, u32); 19] = [
    (0xA0, 0xD7FF),
    (0xE000, 0xFDCF),
    (0xFDF0, 0xFFEF),
    (0x10000, 0x1FFFD),
    (0x20000, 0x2FFFD),
    (0x30000, 0x3FFFD),
    (0x40000, 0x4FFFD),
    (0x50000, 0x5FFFD),
    (0x60000, 0x6FFFD),
    (0x70000, 0x7FFFD),
    (0x80000, 0x8FFFD),
    (0x90000, 0x9FFFD),
    (0xA0000, 0xAFFFD),
    (0xB0000, 0xBFFFD),
    (0xC0000, 0xCFFFD),
    (0xD0000, 0xDFFFD),
    (0xE1000, 0xEFFFD),
    (0xF0000, 0xFFFFD),
    (0x100000, 0x10FFFD),
];

/// Whether the text is a URI template (RFC 6570, section 2). Nothing is expanded.
///
/// ```
/// assert!(rt; is_uri_template("/dictionary/{term:1}/{term}{?page,lang*}"));
/// assert!(rt; !is_uri_template("/dictionary/{term"));
/// ```
pub fn is_uri_template(text: &str) -> bool
    ensures { result ≡ is_template text.now }
{
    are_known(text) && is_of_pieces(text.as_bytes())
}

fn are_known(text: &str) -> bool
    ensures { result ≡ list_all is_known (chars text.now) }
{
    text.chars().all(|c| is_known(u32::from(c)))
}

fn is_known(c: u32) -> bool
    ensures { result ≡ is_known c }
{
    c <= 0x7F || is_within_any(&WIDE, c)
}

fn is_within_any(ranges: &[(u32, u32)], c: u32) -> bool
    ensures { result ≡ list_any (is_within c) ranges.now }
{
    ranges.iter().any(|range| is_within(c, *range))
}

fn is_within(c: u32, range: (u32, u32)) -> bool
    ensures { result ≡ is_within c range }
{
    range.0 <= c && c <= range.1
}

fn is_of_pieces(text: &[u8]) -> bool
    ensures { result ≡ is_of_pieces text.now }
{
    let (front, rest) = cut(text, End::Brace);
    are(Letters::Literal, front) && are_pieces(rest)
}

fn are_pieces(text: &[u8]) -> bool
    ensures { result ≡ are_pieces text.now }
{
    match text {
        [] => true,
        [_, rest @ ..] => are_split_pieces(rest),
    }
}

fn are_split_pieces(text: &[u8]) -> bool
    ensures { result ≡ list_all is_piece (slice_split is_brace text.now) }
{
    text.split(|c| *c == b'{').all(|piece| is_piece(piece))
}

/// Whether the text is what is after a brace that begins an expression, up to the next one.
fn is_piece(text: &[u8]) -> bool
    ensures { result ≡ is_piece text.now }
{
    let (expression, rest) = cut(text, End::Expression);
    is_expression(expression) && is_end(rest)
}

/// Whether the text has a brace, as it begins with one, and then literals.
fn is_end(text: &[u8]) -> bool
    ensures { result ≡ is_end text.now }
{
    match text {
        [] => false,
        [_, literals @ ..] => are(Letters::Literal, literals),
    }
}

fn is_expression(text: &[u8]) -> bool
    ensures { result ≡ is_expression text.now }
{
    match text {
        [] => false,
        [first, rest @ ..] => {
            if is_among(b"+#./;?&=,!@|", *first) {
                are_variables(rest)
            } else {
                are_variables(text)
            }
        }
    }
}

fn are_variables(text: &[u8]) -> bool
    ensures { result ≡ are_variables text.now }
{
    text.split(|c| *c == b',')
        .all(|variable| is_variable(variable))
}

fn is_variable(text: &[u8]) -> bool
    ensures { result ≡ is_variable text.now }
{
    let (name, modifier) = cut(text, End::Name);
    is_name(name) && is_modified(modifier)
}

fn is_name(text: &[u8]) -> bool
    ensures { result ≡ is_name text.now }
{
    text.split(|c| *c == b'.').all(|part| is_name_part(part))
}

fn is_name_part(text: &[u8]) -> bool
    ensures { result ≡ is_name_part text.now }
{
    !text.is_empty() && are(Letters::Name, text)
}

/// Whether the text is `*`, or a colon and a number from 1 to 9999, or empty.
fn is_modified(text: &[u8]) -> bool
    ensures { result ≡ is_modified text.now }
{
    match text {
        [] => true,
        [b'*', rest @ ..] => rest.is_empty(),
        [_, most @ ..] => is_most(most),
    }
}

fn is_most(text: &[u8]) -> bool
    ensures { result ≡ is_most text.now }
{
    match text {
        [] => false,
        [first, rest @ ..] => *first != b'0' && are(Letters::Digit, text) && rest.len() <= 3,
    }
}
