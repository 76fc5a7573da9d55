//! The characters and escapes of regular expressions.
ghost use Rattle.std.specs.Prelude.{◌≡◌, ◌-◌, ◌+◌, ◌*◌, ◌<◌, ◌≤◌, IfSome};
ghost use Rattle.text_ecma_regexp.specs.Letters.{begins};
ghost use Rattle.std.specs.Char.{is_ascii_digit};
ghost use Rattle.text_ecma_regexp.specs.Regex.{is_syntax, character, hex, two_hex, four_hex, code_point, braced};
ghost use Rattle.text_ecma_regexp.specs.Regex.{is_high, is_low, low_front, paired, unicode_front, control_front};
ghost use Rattle.text_ecma_regexp.specs.Regex.{null_front, escaped, escape_front, set_front, set_or_character};
ghost use Rattle.text_ecma_regexp.specs.Scan.{found, now};

use crate::letters::is_among;
use crate::property::property_front;

/// Whether the character has a meaning of its own in a pattern: `SyntaxCharacter`.
pub(crate) fn is_syntax(c: u8) -> bool
    ensures { result ≡ is_syntax c }
{
    is_among(b"^$\\.*+?()[]{}|", c)
}

/// The character at the front, and what follows.
pub(crate) fn character(text: &[u8]) -> Option<(u32, &[u8])>
    ensures { found result ≡ character text.now }
{
    let (a, rest) = text.split_first()?;
    if *a < 128 {
        return Some((u32::from(*a), rest));
    }
    let (b, rest) = rest.split_first()?;
    if *a < 224 {
        return Some((joined(bits(*a, 192), *b), rest));
    }
    let (c, rest) = rest.split_first()?;
    if *a < 240 {
        return Some((joined(joined(bits(*a, 224), *b), *c), rest));
    }
    let (d, rest) = rest.split_first()?;
    Some((joined(joined(joined(bits(*a, 240), *b), *c), *d), rest))
}

/// The number of a character's bytes up to this one.
fn joined(before: u32, c: u8) -> u32
    requires { before < 33554432 }
    ensures { result ≡ before * 64 + (c - 128) }
{
    before * 64 + bits(c, 128)
}

/// The bits of a byte above the first.
fn bits(c: u8, first: u8) -> u32
    ensures { result ≡ c - first }
{
    u32::from(c.saturating_sub(first))
}

/// The value of a hexadecimal digit.
fn hex(c: u8) -> u32
    ensures value { result ≡ hex c }
    ensures small { result < 256 }
{
    if c <= b'9' {
        return bits(c, 48);
    }
    if c <= b'F' { bits(c, 55) } else { bits(c, 87) }
}

/// The value of two hexadecimal digits.
fn two_hex(text: &[u8]) -> Option<(u32, &[u8])>
    ensures value { found result ≡ two_hex text.now }
    ensures small { IfSome result (λ p. p.0 < 4352) }
{
    match text {
        [a, b, rest @ ..] if a.is_ascii_hexdigit() && b.is_ascii_hexdigit() => {
            Some((16 * hex(*a) + hex(*b), rest))
        }
        _ => None,
    }
}

/// The value of four hexadecimal digits.
fn four_hex(text: &[u8]) -> Option<(u32, &[u8])>
    ensures { found result ≡ four_hex text.now }
{
    let (high, rest) = two_hex(text)?;
    let (low, rest) = two_hex(rest)?;
    Some((256 * high + low, rest))
}

/// The value of hexadecimal digits up to a brace, unless it is beyond the last character.
fn code_point(text: &[u8]) -> Option<(u32, &[u8])>
    ensures { found result ≡ code_point 0 text.now }
{
    let mut n = 0;
    let mut rest = text;
    while let Some((c, more)) = rest.split_first() {
        if *c == b'}' {
            return Some((n, more));
        }
        if !c.is_ascii_hexdigit() {
            return None;
        }
        n = 16 * n + hex(*c);
        if n > 0x10FFFF {
            return None;
        }
        rest = more;
    }
    None
}

/// As `code_point`, with a digit at least.
fn braced(text: &[u8]) -> Option<(u32, &[u8])>
    ensures { found result ≡ braced text.now }
{
    match text {
        [b'}', ..] => None,
        _ => code_point(text),
    }
}

fn is_high(n: u32) -> bool
    ensures { result ≡ is_high n }
{
    (0xD800..=0xDBFF).contains(&n)
}

fn is_low(n: u32) -> bool
    ensures { result ≡ is_low n }
{
    (0xDC00..=0xDFFF).contains(&n)
}

/// The low surrogate of the escape at the front.
fn low_front(text: &[u8]) -> Option<(u32, &[u8])>
    ensures value { found result ≡ low_front text.now }
    ensures small { IfSome result (λ p. p.0 ≤ 57343) }
{
    let (backslash, rest) = text.split_first()?;
    let (letter, digits) = rest.split_first()?;
    if *backslash != b'\\' || *letter != b'u' {
        return None;
    }
    let (n, rest) = four_hex(digits)?;
    if is_low(n) { Some((n, rest)) } else { None }
}

/// The character of the number, and of the low surrogate at the front, if the number is a high one.
fn paired(n: u32, text: &[u8]) -> (u32, &[u8])
    ensures { (result.0, result.1.now) ≡ paired (n, text.now) }
{
    if !is_high(n) {
        return (n, text);
    }
    match low_front(text) {
        Some((low, rest)) => (
            0x10000 + (1024 * (n - 0xD800) + low.saturating_sub(0xDC00)),
            rest,
        ),
        None => (n, text),
    }
}

/// The character after `\u`.
pub(crate) fn unicode_front(text: &[u8]) -> Option<(u32, &[u8])>
    ensures { found result ≡ unicode_front text.now }
{
    match text {
        [b'{', rest @ ..] => braced(rest),
        _ => {
            let (n, rest) = four_hex(text)?;
            Some(paired(n, rest))
        }
    }
}

/// The character after `\c`.
fn control_front(text: &[u8]) -> Option<(u32, &[u8])>
    ensures { found result ≡ control_front text.now }
{
    match text {
        [c, rest @ ..] if c.is_ascii_alphabetic() => Some((u32::from(*c % 32), rest)),
        _ => None,
    }
}

/// The character of `\0`, which no digit follows.
fn null_front(text: &[u8]) -> Option<(u32, &[u8])>
    ensures { found result ≡ null_front text.now }
{
    match text {
        [c, ..] if c.is_ascii_digit() => None,
        _ => Some((0, text)),
    }
}

/// The character of a letter or a sign after a backslash.
fn escaped(c: u8) -> Option<u32>
    ensures { result ≡ escaped c }
{
    match c {
        b't' => Some(9),
        b'n' => Some(10),
        b'v' => Some(11),
        b'f' => Some(12),
        b'r' => Some(13),
        _ if is_syntax(c) || c == b'/' => Some(u32::from(c)),
        _ => None,
    }
}

/// The character after a backslash.
fn escape_front(text: &[u8]) -> Option<(u32, &[u8])>
    ensures { found result ≡ escape_front text.now }
{
    let (c, rest) = text.split_first()?;
    match *c {
        b'c' => control_front(rest),
        b'x' => two_hex(rest),
        b'u' => unicode_front(rest),
        b'0' => null_front(rest),
        c => Some((escaped(c)?, rest)),
    }
}

/// What follows a set after a backslash.
fn set_front(text: &[u8]) -> Option<&[u8]>
    ensures { now result ≡ set_front text.now }
{
    match text {
        [b'd' | b'D' | b's' | b'S' | b'w' | b'W', rest @ ..] => Some(rest),
        [b'p' | b'P', rest @ ..] => property_front(rest),
        _ => None,
    }
}

/// A set, without a value, or a character after a backslash.
pub(crate) fn set_or_character(text: &[u8]) -> Option<(Option<u32>, &[u8])>
    ensures { found result ≡ set_or_character text.now }
{
    if let Some(rest) = set_front(text) {
        return Some((None, rest));
    }
    let (n, rest) = escape_front(text)?;
    Some((Some(n), rest))
}
