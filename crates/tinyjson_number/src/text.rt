//! The text of a number, whole and in parts.
ghost use Rattle.std.specs.Prelude.{◌≡◌, ◌<◌, ◌≤◌, ◌++◌, ◌∷◌, ◌+ℤ◌, ◌≤ℤ◌, ◌^◌, length, take, drop};
ghost use Rattle.std.specs.Prelude.{replicate, pos, neg_ℤ, Some};
ghost use Rattle.std.specs.Fmt.{WritesOnOk};
ghost use Rattle.std.specs.Str.{IsAscii};
ghost use Rattle.tinyjson_number.specs.Characters.{digit_zero, decimal_point, letter_e};
ghost use Rattle.tinyjson_number.specs.Layout.{layout_text};
ghost use Rattle.tinyjson_number.specs.Text.{decimal_text, integer_text, magnitude_text};
ghost use Rattle.tinyjson_number.specs.Text.{scientific_text};

use crate::digits::ascii_str;
use crate::number::JsonNumber;
use std::fmt;

/// The decimal without an exponent where the point is near the digits, as `0.0012`, and with one
/// otherwise, as `1.2e309`.
impl fmt::Display for JsonNumber {
    ghost output = { λ n. Some (decimal_text n.decimal) };

    fn fmt<W: fmt::Write>(&self, f: &mut fmt::Formatter<W>) -> fmt::Result {
        write_layout(f, self.layout())
    }
}

/// The decimal as `Display` shows it.
impl fmt::Debug for JsonNumber {
    ghost debug_output = { λ n. Some (decimal_text n.decimal) };

    fn fmt<W: fmt::Write>(&self, f: &mut fmt::Formatter<W>) -> fmt::Result {
        fmt::Display::fmt(self, f)
    }
}

fn write_layout<W: fmt::Write>(f: &mut fmt::Formatter<W>, layout: Layout<'_>) -> fmt::Result
    requires { IsAscii (layout_text layout) }
    ensures { WritesOnOk W.write_str_gives f.old result (layout_text layout.entry) f.new }
{
    write_ascii(f, layout.sign)?;
    write_ascii(f, layout.front)?;
    write_ascii(f, layout.middle)?;
    write_ascii(f, layout.back)?;
    match layout.exponent {
        None => Ok(()),
        Some(exponent) => write_exponent(f, exponent),
    }
}

fn write_ascii<W: fmt::Write>(f: &mut fmt::Formatter<W>, bytes: &[u8]) -> fmt::Result
    requires { IsAscii bytes.now }
    ensures { WritesOnOk W.write_str_gives f.old result bytes.now f.new }
{
    f.write_str(ascii_str(bytes))
}

fn write_exponent<W: fmt::Write>(f: &mut fmt::Formatter<W>, exponent: i128) -> fmt::Result
    ensures { WritesOnOk W.write_str_gives f.old result (letter_e ∷ integer_text exponent) f.new }
{
    write!(f, "e{exponent}")
}

/// The text of a number in consecutive parts, as ASCII. None of them is copied.
///
/// ```
/// let layout = Layout {
///     sign: b"-",
///     front: b"1",
///     middle: b".",
///     back: b"5",
///     exponent: Some(400),
/// };
/// ```
#[derive(Clone, Copy, Debug)]
pub struct Layout<'a> {
    /// `-`, or nothing.
    pub sign: &'a [u8],
    /// The first digits, or `0.`.
    pub front: &'a [u8],
    /// The point, or zeros, or nothing.
    pub middle: &'a [u8],
    /// The other digits, or nothing.
    pub back: &'a [u8],
    /// The number after the `e`, written in decimal, if there is one.
    pub exponent: Option<i128>,
}

impl JsonNumber {
    /// The text of this number in parts.
    ///
    /// ```
    /// let number = JsonNumber::from_text(alloc, "-15e399")?;
    /// assert_eq!(rt; number.layout().front, b"1".as_slice());
    /// assert_eq!(rt; number.layout().exponent, Some(400));
    /// ```
    pub fn layout(&self) -> Layout<'_>
        ensures { layout_text result ≡ decimal_text self.now.decimal }
    {
        decimal(self.is_negative(), self.digit_bytes(), self.power())
    }
}

#[tactic(auto, unfolding(crate::specs::Text::decimal_text))]
fn decimal(negative: bool, digits: &[u8], power: i64) -> Layout<'_>
    ensures { layout_text result
        ≡ decimal_text (record { negative = negative; digits = digits.now; power = power }) }
{
    if digits.is_empty() {
        return integer(b"", b"0", 0);
    }
    let sign = if negative { b"-".as_slice() } else { b"" };
    magnitude(sign, digits, power)
}

/// Digits that aren't zero.
fn magnitude<'a>(sign: &'a [u8], digits: &'a [u8], power: i64) -> Layout<'a>
    requires { 0 < length digits.now }
    ensures { layout_text result
        ≡ sign.now ++ magnitude_text digits.now power (pos (length digits.now) +ℤ power) }
{
    let point = digits.len() as i128 + power as i128;
    if point < -323 || point > 309 {
        scientific(sign, digits, point)
    } else if power >= 0 {
        integer(sign, digits, power as usize)
    } else if point < 1 {
        fraction(sign, point.unsigned_abs() as usize, digits)
    } else {
        mixed(sign, digits, point.unsigned_abs() as usize)
    }
}

fn scientific<'a>(sign: &'a [u8], digits: &'a [u8], point: i128) -> Layout<'a>
    requires some { 0 < length digits.now }
    requires high { point ≤ℤ pos (2 ^ 66) }
    requires low { neg_ℤ (pos (2 ^ 66)) ≤ℤ point }
    ensures { layout_text result ≡ sign.now ++ scientific_text digits.now point }
{
    let (front, back) = digits.split_at(1);
    let middle = if back.is_empty() {
        b"".as_slice()
    } else {
        b"."
    };
    Layout {
        sign,
        front,
        middle,
        back,
        exponent: Some(point - 1),
    }
}

/// Digits and zeros before the point.
fn integer<'a>(sign: &'a [u8], digits: &'a [u8], count: usize) -> Layout<'a>
    requires { count ≤ 323 }
    ensures { layout_text result ≡ sign.now ++ (digits.now ++ replicate count digit_zero) }
{
    Layout {
        sign,
        front: digits,
        middle: zeros(count),
        back: b"",
        exponent: None,
    }
}

/// Zeros and digits after the point.
fn fraction<'a>(sign: &'a [u8], count: usize, digits: &'a [u8]) -> Layout<'a>
    requires { count ≤ 323 }
    ensures { layout_text result ≡ sign.now
        ++ (digit_zero ∷ decimal_point ∷ (replicate count digit_zero ++ digits.now)) }
{
    Layout {
        sign,
        front: b"0.",
        middle: zeros(count),
        back: digits,
        exponent: None,
    }
}

/// Digits on both sides of the point.
fn mixed<'a>(sign: &'a [u8], digits: &'a [u8], point: usize) -> Layout<'a>
    requires { point ≤ length digits.now }
    ensures { layout_text result
        ≡ sign.now ++ (take point digits.now ++ (decimal_point ∷ drop point digits.now)) }
{
    let (front, back) = digits.split_at(point);
    Layout {
        sign,
        front,
        middle: b".",
        back,
        exponent: None,
    }
}

/// No text without an exponent has more zeros in a run.
static ZEROS: [u8; 323] = [b'0'; 323];

fn zeros(count: usize) -> &'static [u8]
    requires { count ≤ 323 }
    ensures { result.now ≡ replicate count digit_zero }
{
    &ZEROS[..count]
}
