//! The order of exact decimals.
ghost use Rattle.std.specs.Prelude.{◌≡◌, ◌+ℤ◌, pos, length};
ghost use Rattle.tinyjson_number.specs.Order.{is_at_most, is_less, is_magnitude_at_most};

use crate::number::JsonNumber;

impl JsonNumber {
    /// Whether this number is less than the other, as exact decimals.
    ///
    /// It compares their digits once, and takes no memory.
    ///
    /// ```
    /// let small = JsonNumber::from_text(alloc, "0.1")?;
    /// let large = JsonNumber::from_text(alloc, "1e400")?;
    /// assert!(rt; small.is_less(&large));
    /// ```
    pub fn is_less(&self, other: &JsonNumber) -> bool
        ensures { result ≡ is_less self.now.decimal other.now.decimal }
    {
        !other.is_at_most(self)
    }

    /// Whether this number is at most the other, as exact decimals.
    ///
    /// ```
    /// let one = JsonNumber::from_text(alloc, "1.0")?;
    /// assert!(rt; one.is_at_most(&one));
    /// ```
    pub fn is_at_most(&self, other: &JsonNumber) -> bool
        ensures { result ≡ is_at_most self.now.decimal other.now.decimal }
    {
        match (self.is_negative(), other.is_negative()) {
            (false, false) => is_magnitude_at_most(self, other),
            (true, true) => is_magnitude_at_most(other, self),
            (true, false) => true,
            (false, true) => false,
        }
    }
}

/// Whether the first number is at most the second, both without their signs. If their first digits have
/// different powers of ten, these decide.
fn is_magnitude_at_most(number: &JsonNumber, other: &JsonNumber) -> bool
    ensures { result ≡ is_magnitude_at_most number.now.decimal other.now.decimal }
{
    if number.is_zero() {
        return true;
    }
    if other.is_zero() {
        return false;
    }
    let digits = number.digits();
    let others = other.digits();
    let place = first_place(digits, number.power());
    let other_place = first_place(others, other.power());
    if place != other_place {
        return place < other_place;
    }
    digits <= others
}

/// The least power of ten that is greater than the number of these digits, of which there are some, and this power.
fn first_place(digits: &str, power: i64) -> i128
    ensures { result ≡ pos (length digits.now) +ℤ power }
{
    digits.len() as i128 + power as i128
}
