//! The number itself.
ghost use Rattle.std.specs.Prelude.{◌≡◌, ◌↔◌, ◌+◌, ◌<◌, ◌≤◌, ◌^◌, ◌++◌, length, take};
ghost use Rattle.std.specs.Prelude.{IsTrue, IfOk, IfSome, IsOk};
ghost use Rattle.tinyjson_number.specs.Decimal.{zero_decimal};
ghost use Rattle.tinyjson_number.specs.Canonical.{is_canonical};
ghost use Rattle.tinyjson_number.specs.Number.{digits_of};

use crate::digits::{Digits, ascii_str};
use crate::inline::Inline;
use std::alloc::{AllocError, Global};
use std::marker::Model;

/// An exact decimal number: zero, or a sign and digits times ten to a power. Each number has one form,
/// with digits that neither begin nor end with `0`, so `1200` is 12 times ten to the power 2.
///
/// A contract sees it as its decimal, `decimal`, together with the fact, `canonical`, that the decimal
/// has the one form. Up to 24 digits are kept in the number itself. More take memory once, and exactly
/// what they need.
///
/// ```
/// let number = JsonNumber::from_text(alloc, "1200")?;
/// assert_eq!(rt; number.digits(), "12");
/// assert_eq!(rt; number.power(), 2);
/// ```
#[derive(Drop)]
pub struct JsonNumber {
    negative: bool,
    digits: Digits,
    power: i64,
    ghost canonical: { IsTrue (is_canonical negative (digits_of digits) power) },
}

impl Model for JsonNumber {
    ghost use Rattle.tinyjson_number.specs.Number.{Canonical, canonical_code, digits_of};

    ghost Value = { Canonical };

    ghost coded = { canonical_code };

    ghost view = { λ n. record {
      decimal = record { negative = n.negative; digits = digits_of n.digits; power = n.power };
      canonical = n.canonical;
    } };
}

impl JsonNumber {
    /// Zero, which has no sign.
    ///
    /// ```
    /// assert_eq!(rt; JsonNumber::zero().digits(), "");
    /// ```
    pub fn zero() -> JsonNumber
        ensures { result.decimal ≡ zero_decimal }
    {
        JsonNumber {
            negative: false,
            digits: Digits::empty(),
            power: 0,
        }
    }

    /// The number of the one form whose digits are the two slices together.
    pub(crate) fn of_digits(
        alloc: Global,
        negative: bool,
        front: &[u8],
        back: &[u8],
        power: i64,
    ) -> Result<JsonNumber, AllocError>
        requires room { length front.now + length back.now < 2 ^ 64 }
        requires canonical { IsTrue (is_canonical negative (front.now ++ back.now) power) }
        ensures decimal { IfOk result (λ n. n.decimal
            ≡ record { negative = negative; digits = front.now ++ back.now; power = power }) }
        ensures few { length front.now + length back.now ≤ 24 → IsOk result }
    {
        let digits = Digits::joined(alloc, front, back)?;
        Ok(JsonNumber {
            negative,
            digits,
            power,
        })
    }

    /// The number of the digits of both sides, so few that they need no memory.
    #[inline(always)]
    pub(crate) fn of_few(negative: bool, front: &[u8], back: &[u8], power: i64) -> JsonNumber
        requires few { length front.now + length back.now ≤ 24 }
        requires canonical { IsTrue (is_canonical negative (front.now ++ back.now) power) }
        ensures { result.decimal
            ≡ record { negative = negative; digits = front.now ++ back.now; power = power } }
    {
        JsonNumber::of_inline(negative, Inline::joined(front, back), power)
    }

    /// The number of these digits.
    #[inline(always)]
    pub(crate) fn of_inline(negative: bool, digits: Inline, power: i64) -> JsonNumber
        requires { IsTrue (is_canonical negative (take digits.len digits.bytes) power) }
        ensures { result.decimal ≡ record {
          negative = negative;
          digits = take digits.len digits.bytes;
          power = power;
        } }
    {
        JsonNumber {
            negative,
            digits: Digits::Short(digits),
            power,
        }
    }

    /// Whether this is zero.
    ///
    /// ```
    /// assert!(rt; JsonNumber::from_text(alloc, "-0.0e7")?.is_zero());
    /// ```
    pub fn is_zero(&self) -> bool
        ensures { IsTrue result ↔ (self.now.decimal ≡ zero_decimal) }
    {
        self.digit_bytes().is_empty()
    }

    /// Whether this is below zero.
    ///
    /// ```
    /// assert!(rt; JsonNumber::from_i64(alloc, -1)?.is_negative());
    /// ```
    pub fn is_negative(&self) -> bool
        ensures { result ≡ self.now.decimal.negative }
    {
        self.negative
    }

    /// The digits as text, without zeros at either end: empty for zero.
    ///
    /// ```
    /// assert_eq!(rt; JsonNumber::from_text(alloc, "0.0120")?.digits(), "12");
    /// ```
    pub fn digits(&self) -> &str
        ensures { result.now ≡ self.now.decimal.digits }
    {
        ascii_str(self.digits.as_bytes())
    }

    pub(crate) fn digit_bytes(&self) -> &[u8]
        ensures { result.now ≡ self.now.decimal.digits }
    {
        self.digits.as_bytes()
    }

    /// The digits and how many they are, if they are kept in the number itself.
    #[inline(always)]
    pub(crate) fn few_digits(&self) -> Option<(&[u8], usize)>
        ensures { IfSome result (λ r. (take r.1 r.0.now ≡ self.now.decimal.digits)
            × (r.1 ≤ 24) × (24 ≤ length r.0.now)) }
    {
        match &self.digits {
            Digits::Short(digits) => Some((digits.all_bytes(), digits.len())),
            Digits::Long(_) => None,
        }
    }

    /// The power of ten that the digits, read as a whole number, are multiplied by: 0 for zero.
    ///
    /// ```
    /// assert_eq!(rt; JsonNumber::from_text(alloc, "0.0120")?.power(), -3);
    /// ```
    pub fn power(&self) -> i64
        ensures { result ≡ self.now.decimal.power }
    {
        self.power
    }

    /// An equal number, with memory of its own where it has more than 24 digits. `self` stays as it is.
    ///
    /// ```
    /// let number = JsonNumber::from_text(alloc, "-0.5")?;
    /// assert!(rt; number.try_clone(alloc)? == number);
    /// ```
    pub fn try_clone(&self, alloc: Global) -> Result<JsonNumber, AllocError>
        ensures decimal { IfOk result (λ n. n.decimal ≡ self.now.decimal) }
        ensures few { length self.now.decimal.digits ≤ 24 → IsOk result }
    {
        if self.is_zero() {
            return Ok(JsonNumber::zero());
        }
        let digits = self.digit_bytes();
        JsonNumber::of_digits(alloc, self.is_negative(), digits, b"", self.power())
    }
}

/// Two numbers are equal exactly if their decimals are.
impl PartialEq for JsonNumber {
    ghost use Rattle.tinyjson_number.specs.Number.{number_eq, number_eq_equiv};
    ghost use Rattle.std.specs.Cmp.{partial_equiv_from_equiv};

    ghost eq = { number_eq };

    ghost laws = { partial_equiv_from_equiv number_eq_equiv };

    fn eq(&self, other: &JsonNumber) -> bool {
        self.is_negative() == other.is_negative()
            && self.power() == other.power()
            && self.digit_bytes() == other.digit_bytes()
    }
}

impl Eq for JsonNumber {
    ghost use Rattle.tinyjson_number.specs.Number.{number_eq_equiv};

    ghost laws = { number_eq_equiv };
}
