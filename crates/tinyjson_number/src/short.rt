//! Short texts of numbers, put at the front of a buffer by vectors.
ghost use Rattle.std.specs.Prelude.{◌≡◌, ℕ, ◌+◌, ◌<◌, ◌≤◌, ◌++◌, ◌∷◌, length, take, drop, pos};
ghost use Rattle.std.specs.Prelude.{◌+ℤ◌, IfSome, replicate};
ghost use Rattle.tinyjson_number.specs.Characters.{digit_zero, decimal_point};
ghost use Rattle.tinyjson_number.specs.Numeral.{minus_text};
ghost use Rattle.tinyjson_number.specs.Text.{decimal_text, magnitude_text};

use crate::digits::Digits;
use crate::number::JsonNumber;
use tinyjson_bytes::put;

/// At most this many bytes of a buffer are changed.
const BUFFER: usize = 32;

impl JsonNumber {
    /// Puts the text of this number at the front of a buffer of 32 bytes or more, if that takes few steps, and
    /// returns its length. It does so for zero, and for at most 16 digits with up to 8 zeros after them and no
    /// point. It does so too for at most 16 digits with a power of ten of -16 or more, where at most 8 digits
    /// precede the point, or at most 6 zeros are between the point and the digits. In other cases it may return
    /// `None`; [`JsonNumber::layout`] has the text of each number.
    ///
    /// Bytes of the buffer that don't belong to the text may be changed too.
    ///
    /// ```
    /// let mut buffer = [0; 32];
    /// let count = JsonNumber::from_text(alloc, "-1.50")?.write_short(&mut buffer);
    /// assert_eq!(rt; count, Some(4));
    /// assert_eq!(rt; &buffer[..4], b"-1.5".as_slice());
    /// ```
    #[inline(always)]
    pub fn write_short(&self, buffer: &mut [u8]) -> Option<usize>
        ensures text { IfSome result (λ n. (n ≤ length buffer.new)
            × (take n buffer.new ≡ decimal_text self.now.decimal)) }
        ensures len { length buffer.new ≡ length buffer.old }
    {
        let Some((bytes, count)) = self.few_digits() else {
            return None;
        };
        if buffer.len() < BUFFER {
            return None;
        }
        if count == 0 {
            buffer[0] = b'0';
            return Some(1);
        }
        let at = put_sign(buffer, self.is_negative());
        put_magnitude(buffer, at, bytes, count, self.power())
    }
}

/// Puts a minus sign, and gives how many bytes it takes, if it belongs to the text.
#[inline(always)]
fn put_sign(buffer: &mut [u8], negative: bool) -> usize
    requires { 0 < length buffer.old }
    ensures text { take result buffer.new ≡ minus_text negative }
    ensures within { result ≤ 1 }
    ensures len { length buffer.new ≡ length buffer.old }
{
    buffer[0] = b'-';
    negative as usize
}

/// Puts the digits, which aren't zero, with their point or zeros.
#[inline(always)]
fn put_magnitude(
    buffer: &mut [u8],
    at: usize,
    bytes: &[u8],
    count: usize,
    power: i64,
) -> Option<usize>
    requires room { (at ≤ 1) × (32 ≤ length buffer.old) }
    requires digits { (0 < count) × (count ≤ 24) × (24 ≤ length bytes.now) }
    ensures text { IfSome result (λ n. (n ≤ 32) × (take n buffer.new ≡ take at buffer.old
        ++ magnitude_text (take count bytes.now) power
        (pos (length (take count bytes.now)) +ℤ power))) }
    ensures len { length buffer.new ≡ length buffer.old }
{
    if count > 16 || power < -16 || power > 8 {
        return None;
    }
    let point = count as i64 + power;
    if power >= 0 {
        Some(put_integer(buffer, at, bytes, count, power as usize))
    } else if point > 8 || point < -6 {
        None
    } else if point > 0 {
        Some(put_mixed(buffer, at, bytes, count, point as usize))
    } else {
        Some(put_fraction(buffer, at, bytes, count, point.unsigned_abs() as usize))
    }
}

/// Digits and zeros before the point.
#[inline(always)]
fn put_integer(buffer: &mut [u8], at: usize, bytes: &[u8], count: usize, zeros: usize) -> usize
    requires room { (at ≤ 1) × (32 ≤ length buffer.old) }
    requires digits { (count ≤ 16) × (16 ≤ length bytes.now) }
    requires zeros { zeros ≤ 8 }
    ensures text { (result ≤ 32) × (take result buffer.new
        ≡ take at buffer.old ++ (take count bytes.now ++ replicate zeros digit_zero)) }
    ensures len { length buffer.new ≡ length buffer.old }
{
    put::<16>(buffer, at, bytes);
    put::<8>(buffer, at + count, b"00000000");
    at + count + zeros
}

/// Digits on both sides of the point.
#[inline(always)]
fn put_mixed(buffer: &mut [u8], at: usize, bytes: &[u8], count: usize, point: usize) -> usize
    requires room { (at ≤ 1) × (32 ≤ length buffer.old) }
    requires digits { (count ≤ 16) × (24 ≤ length bytes.now) }
    requires point { (point ≤ 8) × (point ≤ count) }
    ensures text { (result ≤ 32) × (take result buffer.new ≡ take at buffer.old
        ++ (take point (take count bytes.now)
        ++ (decimal_point ∷ drop point (take count bytes.now)))) }
    ensures len { length buffer.new ≡ length buffer.old }
{
    put::<8>(buffer, at, bytes);
    put::<1>(buffer, at + point, b".");
    put::<16>(buffer, at + point + 1, &bytes[point..]);
    at + count + 1
}

/// Zeros and digits after the point.
#[inline(always)]
fn put_fraction(buffer: &mut [u8], at: usize, bytes: &[u8], count: usize, zeros: usize) -> usize
    requires room { (at ≤ 1) × (32 ≤ length buffer.old) }
    requires digits { (count ≤ 16) × (16 ≤ length bytes.now) }
    requires zeros { zeros ≤ 6 }
    ensures text { (result ≤ 32) × (take result buffer.new ≡ take at buffer.old
        ++ (digit_zero ∷ decimal_point ∷ (replicate zeros digit_zero ++ take count bytes.now))) }
    ensures len { length buffer.new ≡ length buffer.old }
{
    put::<8>(buffer, at, b"0.000000");
    put::<16>(buffer, at + 2 + zeros, bytes);
    at + 2 + zeros + count
}
