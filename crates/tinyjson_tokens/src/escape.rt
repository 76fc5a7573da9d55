//! Escapes among the bytes of a text (RFC 8259, section 7).
ghost use Rattle.std.specs.Prelude.{◌≡◌, ℕ, ◌<◌, ◌≤◌, List, ◌++◌, IfOk, IfSome, true, length};
ghost use Rattle.std.specs.Char.{digit_value};
ghost use Rattle.tinyjson_grammar.specs.Characters.{short_escape, is_high, text};
ghost use Rattle.tinyjson_tokens.specs.Escape.{EscapeAt, Spells, UnitAt};

use crate::utf16::{is_high, is_low, pair, push};
use std::alloc::AllocError;

/// What the character after a backslash stands for, which is looked up: no jump has to be guessed.
pub(crate) fn short_escape(c: char) -> Option<char>
    ensures { result ≡ short_escape c }
{
    if c < '"' || c > 't' {
        return None;
    }
    match SHORT_ESCAPES[c as usize - '"' as usize] {
        0 => None,
        byte => Some(byte as char),
    }
}

/// What the characters from `"` to `t` stand for after a backslash, and 0 for those that stand for nothing.
const SHORT_ESCAPES: [u8; 83] = [
    b'"', 0, 0, 0, 0, 0, 0, 0, 0, 0, 0, 0, 0, b'/', 0, 0, 0, 0, 0, 0, 0, 0, 0, 0, 0, 0, 0, 0, 0, 0,
    0, 0, 0, 0, 0, 0, 0, 0, 0, 0, 0, 0, 0, 0, 0, 0, 0, 0, 0, 0, 0, 0, 0, 0, 0, 0, 0, 0, b'\\', 0,
    0, 0, 0, 0, 8, 0, 0, 0, 12, 0, 0, 0, 0, 0, 0, 0, b'\n', 0, 0, 0, b'\r', 0, b'\t',
];

/// Adds the characters of the consecutive escapes from a place on, and returns where these end: at the place
/// itself, where there is no escape, and before an error.
#[inline(always)]
pub(crate) fn escapes(bytes: &[u8], at: usize, string: &mut String) -> Result<usize, AllocError>
    requires { at ≤ length bytes.now }
    ensures { IfOk result (λ end. (ds : List ℕ) × Spells bytes.now at ds end
        × (text string.new ≡ text string.old ++ ds)) }
{
    let mut end = at;
    while let Some((c, next)) = escape_at(bytes, end) {
        push(string, c)?;
        end = next;
    }
    Ok(end)
}

/// The character that an escape spells at a place, or two that are a pair, and where they end. None where
/// there is no escape, and where an error is possible.
#[inline(always)]
fn escape_at(bytes: &[u8], at: usize) -> Option<(char, usize)>
    requires { at ≤ length bytes.now }
    ensures { IfSome result (λ r. EscapeAt bytes.now at r.0 r.1) }
{
    if bytes.len() - at < 2 || bytes[at] != b'\\' {
        return None;
    }
    match short_escape(bytes[at + 1] as char) {
        Some(c) => Some((c, at + 2)),
        None => units_at(bytes, at),
    }
}

/// The character that a unit at a place spells, or that two units spell as a pair, and where they end.
fn units_at(bytes: &[u8], at: usize) -> Option<(char, usize)>
    requires { at ≤ length bytes.now }
    ensures { IfSome result (λ r. EscapeAt bytes.now at r.0 r.1) }
{
    let unit = unit_at(bytes, at)?;
    if is_high(unit) {
        return pair_at(bytes, at, unit);
    }
    let c = char::from_u32(unit as u32)?;
    Some((c, at + 6))
}

/// The character of a pair of units, of which the first is known, and where the second ends.
fn pair_at(bytes: &[u8], at: usize, high: u16) -> Option<(char, usize)>
    requires high { is_high high ≡ true }
    requires unit { UnitAt bytes.now at high }
    ensures { IfSome result (λ r. EscapeAt bytes.now at r.0 r.1) }
{
    let low = unit_at(bytes, at + 6)?;
    if !is_low(low) {
        return None;
    }
    Some((pair(high, low), at + 12))
}

/// The unit that an escape spells at a place.
#[inline(always)]
fn unit_at(bytes: &[u8], at: usize) -> Option<u16>
    requires { at ≤ length bytes.now }
    ensures { IfSome result (λ unit. UnitAt bytes.now at unit) }
{
    if bytes.len() - at < 6 || bytes[at] != b'\\' || bytes[at + 1] != b'u' {
        return None;
    }
    let first = hex_value(bytes[at + 2])?;
    let second = hex_value(bytes[at + 3])?;
    let third = hex_value(bytes[at + 4])?;
    let fourth = hex_value(bytes[at + 5])?;
    Some((((first * 16 + second) * 16 + third) * 16 + fourth) as u16)
}

/// The value of a hexadecimal digit, which costs one jump: in ASCII the last four bits of a digit are its
/// value, and those of a letter are 9 below it.
#[inline(always)]
fn hex_value(byte: u8) -> Option<u32>
    ensures { IfSome result (λ value. (value ≡ digit_value byte) × (value < 16)) }
{
    let is_digit = byte.wrapping_sub(b'0') < 10;
    let is_letter = (byte | 32).wrapping_sub(b'a') < 6;
    if !(is_digit | is_letter) {
        return None;
    }
    Some((byte & 15) as u32 + 9 * (byte >> 6) as u32)
}
