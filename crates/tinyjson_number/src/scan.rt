//! Numbers among the bytes of a text (RFC 8259, section 6).
ghost use Rattle.std.specs.Prelude.{◌≡◌, ◌≤◌, ◌++◌, ℕ, false, None, MatchOption, drop, length};
ghost use Rattle.std.specs.Char.{is_ascii_digit};
ghost use Rattle.tinyjson_number.specs.Numeral.{AreDigits, Numeral, has_leading_zero};
ghost use Rattle.tinyjson_number.specs.Numeral.{is_exponent_letter, is_sign, minus_text};
ghost use Rattle.tinyjson_number.specs.Scan.{NumeralAt, PartsAt, is_point, starts};
ghost use Rattle.tinyjson_number.specs.private.Scan.{ExponentAt, FractionAt, MantissaAt};
ghost use Rattle.tinyjson_number.specs.private.Scan.{NoExponentAt, NoFractionAt, NoMantissaAt};
ghost use Rattle.tinyjson_number.specs.private.Scan.{SignAt, is_minus};

use crate::parse::{ExponentParts, NumberParts};
use tinyjson_bytes::digits_end;

/// The parts of the number at a place of a text, and the place after it; none exactly where no number of
/// the grammar begins there.
#[doc(hidden)]
#[inline(always)]
pub fn number_at(bytes: &[u8], at: usize) -> Option<(NumberParts<'_>, usize)>
    requires { at ≤ length bytes.now }
    ensures { MatchOption result ((n : Numeral) (end : ℕ) → ¬ NumeralAt bytes.now at n end)
        (λ r. PartsAt bytes.now at r.0 r.1) }
{
    let (front, end) = mantissa_at(bytes, at)?;
    if !has_letter(bytes, end) {
        return Some((front.with_exponent(None), end));
    }
    let (exponent, end) = exponent_at(bytes, end + 1)?;
    Some((front.with_exponent(Some(exponent)), end))
}

/// Whether there are two or more digits, and the first is `0`.
#[doc(hidden)]
pub fn has_leading_zero(digits: &[u8]) -> bool
    ensures { result ≡ has_leading_zero digits.now }
{
    match digits {
        [first, _, ..] => *first == b'0',
        _ => false,
    }
}

/// The parts of a number before its exponent.
#[derive(Clone, Copy)]
struct Mantissa<'a> {
    negative: bool,
    integer: &'a [u8],
    fraction: &'a [u8],
}

impl<'a> Mantissa<'a> {
    /// The parts of the number with this exponent.
    #[inline(always)]
    fn with_exponent(self, exponent: Option<ExponentParts<'a>>) -> NumberParts<'a>
        ensures { result ≡ record {
          negative = self.entry.negative;
          integer = self.entry.integer;
          fraction = self.entry.fraction;
          exponent = exponent.entry;
        } }
    {
        NumberParts {
            negative: self.negative,
            integer: self.integer,
            fraction: self.fraction,
            exponent,
        }
    }
}

/// What precedes the exponent of the number at a place of a text, and the place after it; none where
/// the integer part or the fraction lacks digits, or has a leading zero.
#[inline(always)]
fn mantissa_at(bytes: &[u8], at: usize) -> Option<(Mantissa<'_>, usize)>
    requires { at ≤ length bytes.now }
    ensures { MatchOption result (NoMantissaAt bytes.now at)
        (λ r. MantissaAt bytes.now at r.0 r.1) }
{
    let (negative, from) = minus_at(bytes, at);
    let (integer, point) = digits_at(bytes, from);
    if integer.is_empty() || has_leading_zero(integer) {
        return None;
    }
    let (fraction, end) = fraction_at(bytes, point)?;
    let front = Mantissa {
        negative,
        integer,
        fraction,
    };
    Some((front, end))
}

/// Whether a minus sign is at a place of a text, and the place after it.
#[inline(always)]
fn minus_at(bytes: &[u8], at: usize) -> (bool, usize)
    requires { at ≤ length bytes.now }
    ensures text { drop at bytes.now ≡ minus_text result.0 ++ drop result.1 bytes.now }
    ensures none { result.0 ≡ false → starts is_minus (drop result.1 bytes.now) ≡ false }
    ensures within { result.1 ≤ length bytes.now }
{
    if at < bytes.len() && bytes[at] == b'-' {
        (true, at + 1)
    } else {
        (false, at)
    }
}

/// The digits at a place of a text, and the place after them.
#[inline(always)]
fn digits_at(bytes: &[u8], from: usize) -> (&[u8], usize)
    requires { from ≤ length bytes.now }
    ensures digits { AreDigits result.0.now }
    ensures text { drop from bytes.now ≡ result.0.now ++ drop result.1 bytes.now }
    ensures stops { starts is_ascii_digit (drop result.1 bytes.now) ≡ false }
    ensures within { result.1 ≤ length bytes.now }
{
    let end = digits_end(bytes, from);
    (&bytes[from..end], end)
}

/// The digits after the point at a place of a text, none if there is no point, and the place after them.
/// None where a point has no digits.
#[inline(always)]
fn fraction_at(bytes: &[u8], point: usize) -> Option<(&[u8], usize)>
    requires within { point ≤ length bytes.now }
    requires stops { starts is_ascii_digit (drop point bytes.now) ≡ false }
    ensures { MatchOption result (NoFractionAt bytes.now point)
        (λ r. FractionAt bytes.now point r.0.now r.1) }
{
    if !has_point(bytes, point) {
        return Some((b"", point));
    }
    let (digits, end) = digits_at(bytes, point + 1);
    if digits.is_empty() {
        return None;
    }
    Some((digits, end))
}

/// The sign and the digits of the exponent whose letter precedes a place of a text, and the place
/// after them. None where there are no digits.
#[inline(never)]
fn exponent_at(bytes: &[u8], at: usize) -> Option<(ExponentParts<'_>, usize)>
    requires { at ≤ length bytes.now }
    ensures { MatchOption result (NoExponentAt bytes.now at)
        (λ r. ExponentAt bytes.now at r.0 r.1) }
{
    let (negative, from) = sign_at(bytes, at);
    let (digits, end) = digits_at(bytes, from);
    if digits.is_empty() {
        return None;
    }
    Some((ExponentParts { negative, digits }, end))
}

/// Whether a minus sign is at a place of a text, and the place after it or after a plus sign.
fn sign_at(bytes: &[u8], at: usize) -> (bool, usize)
    requires { at ≤ length bytes.now }
    ensures { SignAt bytes.now at result.0 result.1 }
{
    if has_sign(bytes, at) {
        (bytes[at] == b'-', at + 1)
    } else {
        (false, at)
    }
}

/// Whether a point is at a place of a text.
#[inline(always)]
fn has_point(bytes: &[u8], at: usize) -> bool
    ensures { result ≡ starts is_point (drop at bytes.now) }
{
    at < bytes.len() && bytes[at] == b'.'
}

/// Whether the letter of an exponent is at a place of a text.
#[inline(always)]
fn has_letter(bytes: &[u8], at: usize) -> bool
    ensures { result ≡ starts is_exponent_letter (drop at bytes.now) }
{
    at < bytes.len() && matches!(bytes[at], b'e' | b'E')
}

/// Whether a sign is at a place of a text.
fn has_sign(bytes: &[u8], at: usize) -> bool
    ensures { result ≡ starts is_sign (drop at bytes.now) }
{
    at < bytes.len() && matches!(bytes[at], b'+' | b'-')
}
