//! Whole numbers as decimals, and back.
ghost use Rattle.std.specs.Prelude.{◌≡◌, ℕ, ℤ, pos, ◌*◌, ◌<◌, ◌^◌, drop};
ghost use Rattle.std.specs.Prelude.{IfOk, IsOk, IfSome, MatchOption, SomeIff, FitsSigned};
ghost use Rattle.std.specs.Fmt.{decimal};
ghost use Rattle.std.specs.Int.{w64};
ghost use Rattle.std.specs.Str.Parse.{digits_value};
ghost use Rattle.tinyjson_number.specs.Numeral.{AreDigits};
ghost use Rattle.tinyjson_number.specs.Integer.{whole_decimal, integer_decimal};

use crate::number::JsonNumber;
use crate::parse::strip_trailing;
use std::alloc::{AllocError, Global};

impl JsonNumber {
    /// The decimal of a whole number. It always returns `Ok`.
    ///
    /// ```
    /// let number = JsonNumber::from_u64(alloc, 1200)?;
    /// assert_eq!(rt; number.to_string(alloc)?.as_str(), "1200");
    /// ```
    pub fn from_u64(alloc: Global, value: u64) -> Result<JsonNumber, AllocError>
        ensures decimal { IfOk result (λ n. n.decimal ≡ integer_decimal (pos value)) }
        ensures ok { IsOk result }
    {
        from_magnitude(alloc, false, value)
    }

    /// The decimal of a whole number. It always returns `Ok`.
    ///
    /// ```
    /// let number = JsonNumber::from_i64(alloc, -5)?;
    /// assert_eq!(rt; number.to_string(alloc)?.as_str(), "-5");
    /// ```
    pub fn from_i64(alloc: Global, value: i64) -> Result<JsonNumber, AllocError>
        ensures decimal { IfOk result (λ n. n.decimal ≡ integer_decimal value) }
        ensures ok { IsOk result }
    {
        from_magnitude(alloc, value < 0, value.unsigned_abs())
    }

    /// The whole number that this is, exactly where it is one in the range of `u64`.
    ///
    /// ```
    /// assert_eq!(rt; JsonNumber::from_text(alloc, "1.2e3")?.to_u64(), Some(1200));
    /// assert_eq!(rt; JsonNumber::from_text(alloc, "-1")?.to_u64(), None);
    /// ```
    pub fn to_u64(&self) -> Option<u64>
        ensures value { MatchOption result
            ((n : ℕ) → n < 2 ^ 64 → ¬ (self.now.decimal ≡ integer_decimal (pos n)))
            (λ n. self.now.decimal ≡ integer_decimal (pos n)) }
        ensures range { IfSome result (λ n. n < 2 ^ 64) }
    {
        if self.is_negative() {
            return None;
        }
        self.magnitude()
    }

    /// The whole number that this is, exactly where it is one in the range of `i64`.
    ///
    /// ```
    /// assert_eq!(rt; JsonNumber::from_text(alloc, "-1.0")?.to_i64(), Some(-1));
    /// assert_eq!(rt; JsonNumber::from_text(alloc, "1.5")?.to_i64(), None);
    /// ```
    pub fn to_i64(&self) -> Option<i64>
        ensures value { MatchOption result
            ((z : ℤ) → FitsSigned w64 z → ¬ (self.now.decimal ≡ integer_decimal z))
            (λ z. self.now.decimal ≡ integer_decimal z) }
        ensures range { IfSome result (λ z. FitsSigned w64 z) }
    {
        let magnitude = self.magnitude()?;
        if self.is_negative() {
            if magnitude > 1 << 63 {
                return None;
            }
            return Some((-(magnitude as i128)) as i64);
        }
        if magnitude > i64::MAX as u64 {
            return None;
        }
        Some(magnitude as i64)
    }

    /// The whole number that this is without its sign, if it fits.
    fn magnitude(&self) -> Option<u64>
        ensures { MatchOption result
            ((n : ℕ) → n < 2 ^ 64
            → ¬ (self.now.decimal ≡ whole_decimal self.now.decimal.negative n))
            (λ n. self.now.decimal ≡ whole_decimal self.now.decimal.negative n) }
    {
        let power = self.power();
        if power < 0 {
            return None;
        }
        let Some(number) = digits_number(self.digit_bytes()) else {
            return None;
        };
        times_ten(number, power as u64)
    }
}

/// The number that the digits write, if it fits.
fn digits_number(digits: &[u8]) -> Option<u64>
    requires { AreDigits digits.now }
    ensures { SomeIff result (digits_value 10 digits.now < 2 ^ 64) (digits_value 10 digits.now) }
{
    let mut value: u64 = 0;
    for d in digits {
        let Some(tens) = value.checked_mul(10) else {
            return None;
        };
        let Some(sum) = tens.checked_add((*d - b'0') as u64) else {
            return None;
        };
        value = sum;
    }
    Some(value)
}

/// A number times a power of ten, if it fits.
fn times_ten(number: u64, times: u64) -> Option<u64>
    ensures { SomeIff result (number * 10 ^ times < 2 ^ 64) (number * 10 ^ times) }
{
    let mut value = number;
    for _i in 0..times {
        let Some(tens) = value.checked_mul(10) else {
            return None;
        };
        value = tens;
    }
    Some(value)
}

/// The decimal of a whole number and a sign.
fn from_magnitude(alloc: Global, negative: bool, value: u64) -> Result<JsonNumber, AllocError>
    ensures decimal { IfOk result (λ n. n.decimal ≡ whole_decimal negative value) }
    ensures ok { IsOk result }
{
    if value == 0 {
        return Ok(JsonNumber::zero());
    }
    let mut buffer = [b'0'; MAX_DIGITS];
    let digits = value_digits(value, &mut buffer);
    let kept = strip_trailing(digits);
    let zeros = digits.len() - kept.len();
    JsonNumber::of_digits(alloc, negative, kept, b"", zeros as i64)
}

/// The digits of `u64::MAX`.
const MAX_DIGITS: usize = 20;

/// The digits of a number, which are written to the buffer.
fn value_digits(value: u64, buffer: &mut [u8; MAX_DIGITS]) -> &[u8]
    ensures { result.now ≡ decimal value }
{
    let start = write_digits(value, buffer);
    &buffer[start..]
}

/// Writes the digits of a number to the end of the buffer, and returns where they begin.
fn write_digits(value: u64, buffer: &mut [u8; MAX_DIGITS]) -> usize
    ensures within { result < 20 }
    ensures digits { drop result buffer.new ≡ decimal value }
{
    let mut start = MAX_DIGITS;
    let mut rest = value;
    while rest >= 10 {
        start -= 1;
        buffer[start] = b'0' + (rest % 10) as u8;
        rest /= 10;
    }
    buffer[start - 1] = b'0' + rest as u8;
    start - 1
}
