//! The number that a text spells (RFC 8259, section 6).
ghost use Rattle.std.specs.Prelude.{◌≡◌, ◌+◌, ◌<◌, ◌≤◌, ◌^◌, ◌++◌, length, take, drop, min, pos};
ghost use Rattle.std.specs.Prelude.{neg_ℤ, ◌≤ℤ◌, None};
ghost use Rattle.std.specs.Prelude.{IfSome, IsOk, MatchOption, FitsSigned, IsTrue, Err, Ok, Some};
ghost use Rattle.std.specs.Int.{w64};
ghost use Rattle.std.specs.Str.Parse.{digits_value};
ghost use Rattle.tinyjson_number.specs.Decimal.{strip_leading, strip_trailing, significant};
ghost use Rattle.tinyjson_number.specs.Decimal.{trailing_zeros};
ghost use Rattle.tinyjson_number.specs.Numeral.{Numeral, IsNumeral, AreDigits};
ghost use Rattle.tinyjson_number.specs.Numeral.{exponent_value, value, in_range};
ghost use Rattle.tinyjson_number.specs.NumberText.{Spells};
ghost use Rattle.tinyjson_number.specs.private.Power.{capped, exponent_cap, near_cap, shifted};
ghost use Rattle.tinyjson_number.specs.Reading.{Reads, ReadsNumeral, exponent_of, numeral_of};
ghost use Rattle.tinyjson_number.specs.Reading.{plain, plain_numeral};
ghost use Rattle.tinyjson_number.specs.Normal.{IsNormal, IsReady};
ghost use Rattle.tinyjson_number.specs.Scan.{PartsAt};
ghost use Rattle.tinyjson_number.specs.declared.parse.NumberParts.{NumberParts};
ghost use Rattle.tinyjson_number.specs.declared.error.LiteralError.TheVariants as literal_error;
ghost use Rattle.tinyjson_number.specs.declared.error.JsonNumberError.TheVariants as number_error;

use crate::error::{JsonNumberError, LiteralError};
use crate::inline::{INLINE_DIGITS, Inline};
use crate::number::JsonNumber;
use crate::scan::number_at;
use std::alloc::Global;

/// The parts of a number, as a parser finds them in a text (RFC 8259, section 6).
///
/// ```
/// let parts = NumberParts {
///     negative: true,
///     integer: b"12",
///     fraction: b"30",
///     exponent: None,
/// };
/// ```
#[derive(Clone, Copy, Debug)]
pub struct NumberParts<'a> {
    /// Whether it begins with a `-`.
    pub negative: bool,
    /// The digits before the point, as ASCII.
    pub integer: &'a [u8],
    /// The digits after the point, as ASCII: none where there is no point.
    pub fraction: &'a [u8],
    /// The exponent, if there is one.
    pub exponent: Option<ExponentParts<'a>>,
}

/// The exponent of a number: what follows its `e` or `E`.
///
/// ```
/// let exponent = ExponentParts {
///     negative: true,
///     digits: b"1",
/// };
/// ```
#[derive(Clone, Copy, Debug)]
pub struct ExponentParts<'a> {
    /// Whether it begins with a `-`.
    pub negative: bool,
    /// Its digits, as ASCII, of any count.
    pub digits: &'a [u8],
}

impl JsonNumber {
    /// The decimal of the number that the whole text is, exactly as it is written: any count of digits,
    /// and an exponent of any size.
    ///
    /// It returns `NotANumber` exactly where the text is no number of the grammar (RFC 8259, section 6).
    /// It returns `OutOfRange` exactly where it is one whose power of ten, after its last digit that is
    /// not `0`, is out of the range of `i64`. It returns `OutOfMemory` only for a text of more than 24
    /// bytes that has a decimal.
    ///
    /// `1.50e1` is 15, `-0` is zero, and ` 1`, `01` and `1.` are no numbers.
    ///
    /// ```
    /// assert_eq!(rt; JsonNumber::from_text(alloc, "1.50e1")?.to_u64(), Some(15));
    /// assert!(rt; JsonNumber::from_text(alloc, "01").is_err());
    /// ```
    pub fn from_text(alloc: Global, text: &str) -> Result<JsonNumber, JsonNumberError>
        ensures reads { Reads text.now result }
        ensures short { length text.now ≤ 24 → ¬ (result ≡ Err number_error.OutOfMemory) }
    {
        match read(text.as_bytes()) {
            None => Err(JsonNumberError::NotANumber),
            Some(parts) => Ok(JsonNumber::from_parts(alloc, parts)?),
        }
    }

    /// The decimal of a text that is known to be a number of the grammar. It cannot return that the text
    /// is no number, and otherwise returns what `from_text` does.
    ///
    /// ```
    /// let number = JsonNumber::from_literal(alloc, "15")?;
    /// assert_eq!(rt; number.to_u64(), Some(15));
    /// ```
    pub fn from_literal(alloc: Global, literal: &str) -> Result<JsonNumber, LiteralError>
        requires { (n : Numeral) × Spells n literal.now }
        ensures reads { (n : Numeral) → Spells n literal.now → ReadsNumeral n result }
        ensures short { length literal.now ≤ 24 → ¬ (result ≡ Err literal_error.OutOfMemory) }
    {
        match read(literal.as_bytes()) {
            None => unreachable!(),
            Some(parts) => JsonNumber::from_parts(alloc, parts),
        }
    }

    /// The decimal of a number whose parts are known. This is for callers that have read the number
    /// themselves, as a parser, so that its digits are looked at no second time but to strip zeros.
    ///
    /// All bytes are ASCII digits, at least one before the point, and one in the exponent if there is one;
    /// those before and after the point are fewer than 2^64. The integer part may begin with zeros.
    ///
    /// It returns `OutOfRange` exactly where the power of ten after the last digit that is not `0` is out
    /// of the range of `i64`, and `OutOfMemory` only of a number that has a decimal. At most 24 digits,
    /// beside those of the exponent, need no memory, and without an exponent always give a number.
    ///
    /// ```
    /// let exponent = ExponentParts {
    ///     negative: true,
    ///     digits: b"1",
    /// };
    /// let parts = NumberParts {
    ///     negative: true,
    ///     integer: b"12",
    ///     fraction: b"30",
    ///     exponent: Some(exponent),
    /// };
    /// let number = JsonNumber::from_parts(alloc, parts)?;
    /// assert_eq!(rt; number.to_string(alloc)?.as_str(), "-1.23");
    /// ```
    #[inline(always)]
    pub fn from_parts(alloc: Global, parts: NumberParts<'_>) -> Result<JsonNumber, LiteralError>
        requires numeral { IsNumeral (numeral_of parts) }
        requires room { length parts.integer.now + length parts.fraction.now < 2 ^ 64 }
        ensures reads { ReadsNumeral (numeral_of parts.entry) result }
        ensures few { parts.entry.exponent ≡ None
            → length parts.entry.integer.now + length parts.entry.fraction.now ≤ 24 → IsOk result }
        ensures short { length parts.entry.integer.now + length parts.entry.fraction.now ≤ 24
            → ¬ (result ≡ Err literal_error.OutOfMemory) }
    {
        if parts.exponent.is_none()
            && parts.integer.len() + parts.fraction.len() <= INLINE_DIGITS
            && is_unpadded(parts.integer, parts.fraction)
        {
            let digits = Inline::joined(parts.integer, parts.fraction);
            return Ok(unpadded(parts.negative, parts.integer, parts.fraction, digits));
        }
        // Taken apart, so that the number above needs no place in memory.
        match padded(alloc, parts) {
            Ok(number) => Ok(number),
            Err(error) => Err(error),
        }
    }
}

/// The number at a place of a text, and the place after it, if one begins there, it is in range, and there is memory
/// for it. It may find none. With `by_text` a short number whose text is normal is not made: then it is `None`.
#[doc(hidden)]
#[inline(always)]
pub fn ready_number_at(
    alloc: Global,
    bytes: &[u8],
    at: usize,
    by_text: bool,
) -> Option<(Option<JsonNumber>, usize)>
    requires { at ≤ length bytes.now }
    ensures { IfSome result (λ r. (p : NumberParts) × PartsAt bytes.now at p r.1
        × IsReady (numeral_of p) r.0) }
{
    let (parts, end) = number_at(bytes, at)?;
    if by_text && is_normal(parts) {
        return Some((None, end));
    }
    if let Some(number) = unpadded_at(bytes, at, parts, end) {
        return Some((Some(number), end));
    }
    match padded(alloc, parts) {
        Ok(number) => Some((Some(number), end)),
        Err(_) => None,
    }
}

/// Whether the text of these parts is that of their decimal, and it has at most 24 characters. It may return `false`
/// of some such texts, as those that begin with `0`.
#[inline(always)]
fn is_normal(parts: NumberParts<'_>) -> bool
    requires { IsNumeral (numeral_of parts) }
    ensures { IsTrue result → IsNormal (numeral_of parts.entry) }
{
    if parts.exponent.is_some()
        || parts.integer.len() + parts.fraction.len() > NORMAL_DIGITS
        || parts.integer[0] == b'0'
    {
        return false;
    }
    parts.fraction.is_empty() || parts.fraction[parts.fraction.len() - 1] != b'0'
}

/// The number of these parts, which lie between two places of a text, if it has no exponent, and few digits that
/// neither begin nor end with `0`, and some text follows. It may find none.
#[inline(always)]
fn unpadded_at(bytes: &[u8], at: usize, parts: NumberParts<'_>, end: usize) -> Option<JsonNumber>
    requires within { at ≤ length bytes.now }
    requires at { PartsAt bytes.now at parts end }
    ensures { IfSome result (λ x. ReadsNumeral (numeral_of parts.entry) (Ok x)) }
{
    if parts.exponent.is_some()
        || bytes.len() - end < 17
        || !is_unpadded(parts.integer, parts.fraction)
    {
        return None;
    }
    let text = &bytes[at + parts.negative as usize..];
    let digits = Inline::of_text(text, parts.integer.len(), parts.fraction.len())?;
    Some(unpadded(parts.negative, parts.integer, parts.fraction, digits))
}

/// The number of few digits, which neither begin nor end with `0`.
#[inline(always)]
fn unpadded(negative: bool, integer: &[u8], fraction: &[u8], digits: Inline) -> JsonNumber
    requires integer { AreDigits integer.now }
    requires fraction { AreDigits fraction.now }
    requires few { length integer.now + length fraction.now ≤ 24 }
    requires some { 0 < length integer.now }
    requires lead { strip_leading (integer.now ++ fraction.now) ≡ integer.now ++ fraction.now }
    requires trail { strip_trailing (integer.now ++ fraction.now) ≡ integer.now ++ fraction.now }
    requires digits { take digits.len digits.bytes ≡ integer.now ++ fraction.now }
    ensures decimal { result.decimal ≡ value (plain_numeral negative integer.now fraction.now) }
    ensures fits { IsTrue (in_range (value (plain_numeral negative integer.now fraction.now))) }
{
    JsonNumber::of_inline(negative, digits, -(fraction.len() as i64))
}

/// The number of these parts, which may begin and end with zeros.
#[inline(never)]
fn padded(alloc: Global, parts: NumberParts<'_>) -> Result<JsonNumber, LiteralError>
    requires numeral { IsNumeral (numeral_of parts) }
    requires room { length parts.integer.now + length parts.fraction.now < 2 ^ 64 }
    ensures reads { ReadsNumeral (numeral_of parts.entry) result }
    ensures few { parts.entry.exponent ≡ None
        → length parts.entry.integer.now + length parts.entry.fraction.now ≤ 24 → IsOk result }
    ensures short { length parts.entry.integer.now + length parts.entry.fraction.now ≤ 24
        → ¬ (result ≡ Err literal_error.OutOfMemory) }
{
    if parts.integer.len() + parts.fraction.len() <= INLINE_DIGITS {
        if let Some(exponent) = near_exponent(parts.exponent) {
            return Ok(short(parts, exponent));
        }
    }
    long(alloc, parts)
}

/// The number of few digits and this exponent.
fn short(parts: NumberParts<'_>, exponent: i64) -> JsonNumber
    requires integer { AreDigits parts.integer.now }
    requires fraction { AreDigits parts.fraction.now }
    requires few { length parts.integer.now + length parts.fraction.now ≤ 24 }
    requires exponent { exponent ≡ exponent_value (exponent_of parts.exponent) }
    requires near { (neg_ℤ (pos near_cap) ≤ℤ exponent) × (exponent ≤ℤ pos near_cap) }
    ensures decimal { result.decimal ≡ value (numeral_of parts.entry) }
    ensures fits { IsTrue (in_range (value (numeral_of parts.entry))) }
{
    let kept = strip(parts.integer, parts.fraction);
    if kept.integer.len() + kept.fraction.len() == 0 {
        return JsonNumber::zero();
    }
    let power = exponent - parts.fraction.len() as i64 + kept.zeros as i64;
    JsonNumber::of_few(parts.negative, kept.integer, kept.fraction, power)
}

/// With a sign and a point these digits make 24 characters.
const NORMAL_DIGITS: usize = 22;

/// Exponents below this are near 0.
const NEAR_CAP: u64 = 1 << 32;

/// The exponent, 0 where there is none, if it is near 0.
fn near_exponent(exponent: Option<ExponentParts<'_>>) -> Option<i64>
    requires { IfSome exponent (λ e. AreDigits e.digits.now) }
    ensures none { exponent.entry ≡ None → result ≡ Some (pos 0) }
    ensures value { IfSome result (λ z. z ≡ exponent_value (exponent_of exponent.entry)) }
    ensures near { IfSome result (λ z. (neg_ℤ (pos near_cap) ≤ℤ z) × (z ≤ℤ pos near_cap)) }
{
    let Some(exponent) = exponent else {
        return Some(0);
    };
    let value = near_value(exponent.digits);
    if value >= NEAR_CAP {
        return None;
    }
    let near = value as i64;
    Some(if exponent.negative { -near } else { near })
}

/// The number that the digits write, or the cap if that is less.
fn near_value(digits: &[u8]) -> u64
    requires { AreDigits digits.now }
    ensures { result ≡ min (digits_value 10 digits.now) near_cap }
{
    let mut value: u64 = 0;
    for b in digits {
        value = (value * 10 + (*b - b'0') as u64).min(NEAR_CAP);
    }
    value
}

/// Whether the digits of both parts neither begin nor end with `0`.
#[inline(always)]
fn is_unpadded(integer: &[u8], fraction: &[u8]) -> bool
    ensures { IsTrue result → (0 < length integer.now)
        × (strip_leading (integer.now ++ fraction.now) ≡ integer.now ++ fraction.now)
        × (strip_trailing (integer.now ++ fraction.now) ≡ integer.now ++ fraction.now) }
{
    if integer.is_empty() || integer[0] == b'0' {
        return false;
    }
    if fraction.is_empty() {
        return integer[integer.len() - 1] != b'0';
    }
    fraction[fraction.len() - 1] != b'0'
}

/// The number of any digits and any exponent.
fn long(alloc: Global, parts: NumberParts<'_>) -> Result<JsonNumber, LiteralError>
    requires numeral { IsNumeral (numeral_of parts) }
    requires room { length parts.integer.now + length parts.fraction.now < 2 ^ 64 }
    ensures reads { ReadsNumeral (numeral_of parts.entry) result }
    ensures short { length parts.entry.integer.now + length parts.entry.fraction.now ≤ 24
        → ¬ (result ≡ Err literal_error.OutOfMemory) }
{
    let kept = strip(parts.integer, parts.fraction);
    if kept.integer.len() + kept.fraction.len() == 0 {
        return Ok(JsonNumber::zero());
    }
    let exponent = capped_exponent(parts.exponent);
    let Some(power) = power_of(exponent, parts.fraction.len(), kept.zeros) else {
        return Err(LiteralError::OutOfRange);
    };
    Ok(JsonNumber::of_digits(alloc, parts.negative, kept.integer, kept.fraction, power)?)
}

/// The exponent, less the count of fraction digits, and the count of zeros stripped, if it fits a power.
fn power_of(exponent: i128, fraction: usize, zeros: usize) -> Option<i64>
    requires low { neg_ℤ (pos exponent_cap) ≤ℤ exponent }
    requires high { exponent ≤ℤ pos exponent_cap }
    ensures { MatchOption result
        (¬ FitsSigned w64 (shifted exponent fraction zeros))
        (λ p. p ≡ shifted exponent fraction zeros) }
{
    let power = exponent - fraction as i128 + zeros as i128;
    if power < i64::MIN as i128 || power > i64::MAX as i128 {
        return None;
    }
    Some(power as i64)
}

/// Exponents are cut to this. It is so far outside `i64` that no count of digits in memory brings the
/// power of ten back into range.
const EXPONENT_CAP: u128 = 1 << 66;

/// The exponent, 0 where there is none, kept at most as far from 0 as `EXPONENT_CAP`.
fn capped_exponent(exponent: Option<ExponentParts<'_>>) -> i128
    requires { IfSome exponent (λ e. AreDigits e.digits.now) }
    ensures value { result ≡ capped (exponent_of exponent.entry) }
    ensures low { neg_ℤ (pos exponent_cap) ≤ℤ result }
    ensures high { result ≤ℤ pos exponent_cap }
{
    let Some(exponent) = exponent else {
        return 0;
    };
    let value = capped_value(exponent.digits) as i128;
    if exponent.negative { -value } else { value }
}

/// The number that the digits write, or the cap if that is less.
fn capped_value(digits: &[u8]) -> u128
    requires { AreDigits digits.now }
    ensures { result ≡ min (digits_value 10 digits.now) exponent_cap }
{
    let mut value: u128 = 0;
    for b in digits {
        value = (value * 10 + (*b - b'0') as u128).min(EXPONENT_CAP);
    }
    value
}

/// The digits of an integer part and a fraction without the zeros at both ends, and how many zeros were
/// stripped at the right end.
#[derive(Clone, Copy)]
struct Stripped<'a> {
    integer: &'a [u8],
    fraction: &'a [u8],
    zeros: usize,
}

fn strip<'a>(integer: &'a [u8], fraction: &'a [u8]) -> Stripped<'a>
    requires { length integer.now + length fraction.now < 2 ^ 64 }
    ensures digits { result.integer.now ++ result.fraction.now
        ≡ significant (integer.now ++ fraction.now) }
    ensures within { length result.integer.now + length result.fraction.now
        ≤ length integer.now + length fraction.now }
    ensures zeros { 0 < length (significant (integer.now ++ fraction.now))
        → result.zeros ≡ trailing_zeros (integer.now ++ fraction.now) }
{
    let integer = strip_leading(integer);
    if integer.is_empty() {
        let digits = strip_leading(fraction);
        let fraction = strip_trailing(digits);
        return Stripped {
            integer: b"",
            fraction,
            zeros: digits.len() - fraction.len(),
        };
    }
    let kept = strip_trailing(fraction);
    if kept.is_empty() {
        let digits = strip_trailing(integer);
        return Stripped {
            integer: digits,
            fraction: b"",
            zeros: integer.len() - digits.len() + fraction.len(),
        };
    }
    Stripped {
        integer,
        fraction: kept,
        zeros: fraction.len() - kept.len(),
    }
}

/// The digits from the first on that is not `0`.
fn strip_leading(digits: &[u8]) -> &[u8]
    ensures value { result.now ≡ strip_leading digits.now }
    ensures within { length result.now ≤ length digits.now }
{
    &digits[leading_zeros(digits)..]
}

/// The digits up to the last that is not `0`.
pub(crate) fn strip_trailing(digits: &[u8]) -> &[u8]
    ensures value { result.now ≡ strip_trailing digits.now }
    ensures within { length result.now ≤ length digits.now }
{
    &digits[..kept_len(digits)]
}

/// How many zeros the digits begin with.
fn leading_zeros(digits: &[u8]) -> usize
    ensures within { result ≤ length digits.now }
    ensures rest { drop result digits.now ≡ strip_leading digits.now }
{
    for (i, d) in digits.iter().enumerate() {
        if *d != b'0' {
            return i;
        }
    }
    digits.len()
}

/// How many digits there are up to the last that is not `0`.
fn kept_len(digits: &[u8]) -> usize
    ensures within { result ≤ length digits.now }
    ensures kept { take result digits.now ≡ strip_trailing digits.now }
{
    let mut n = digits.len();
    while n > 0 && digits[n - 1] == b'0' {
        n -= 1;
    }
    n
}

/// The parts of the number that the whole text is, or `None` if it is none of the grammar.
fn read(text: &[u8]) -> Option<NumberParts<'_>>
    ensures { MatchOption result ((n : Numeral) → ¬ Spells n text.now)
        (λ p. (n : Numeral) × (numeral_of p ≡ plain n) × Spells n text.now) }
{
    let (parts, end) = number_at(text, 0)?;
    if end < text.len() {
        return None;
    }
    Some(parts)
}
