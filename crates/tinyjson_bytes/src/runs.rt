//! Runs of the bytes of one class, found sixteen at a time.
ghost use Rattle.std.specs.Prelude.{◌≡◌, ℕ, Bool, ◌+◌, ◌≤◌, length, drop, map};
ghost use Rattle.std.specs.Char.{is_ascii_digit};
ghost use Rattle.std.specs.List.{prefix_len};
ghost use Rattle.std.specs.Simd.Lanes.{mask_l};
ghost use Rattle.tinyjson_bytes.specs.Characters.{is_white};
ghost use Rattle.tinyjson_bytes.specs.Scan.{fails, is_in_line};

use std::simd::prelude::*;

/// A class of characters.
pub trait Class {
    ghost test: { ℕ → Bool };

    /// Whether the character is of the class.
    fn passes(c: char) -> bool
        ensures { result ≡ test c };
}

/// A class of which sixteen bytes are tested at once.
pub(crate) trait Lanes: Class {
    /// One bit for each byte that is not of the class.
    fn failing(v: u8x16) -> u64
        ensures { result ≡ mask_l (map (fails Self.test) v) };

    /// The end of the run where fewer than sixteen bytes are left.
    #[inline(always)]
    fn rest_end(bytes: &[u8], from: usize) -> usize
        requires { from ≤ length bytes.now }
        ensures { result ≡ from + prefix_len Self.test (drop from bytes.now) }
    {
        bytes_end::<Self>(bytes, from)
    }
}

/// White space of JSON (RFC 8259, section 2).
struct White;

/// The digits 0 to 9.
pub struct Digit;

/// The bytes within a line: all but a line feed.
struct Line;

impl Class for White {
    ghost test = { is_white };

    #[inline(always)]
    fn passes(c: char) -> bool {
        is_white(c)
    }
}

impl Lanes for White {
    #[inline(always)]
    fn failing(v: u8x16) -> u64 {
        (v.simd_ne(u8x16::splat(b' '))
            & v.simd_ne(u8x16::splat(b'\n'))
            & v.simd_ne(u8x16::splat(b'\r'))
            & v.simd_ne(u8x16::splat(b'\t'))).to_bitmask()
    }
}

impl Class for Digit {
    ghost test = { is_ascii_digit };

    #[inline(always)]
    fn passes(c: char) -> bool {
        c.is_ascii_digit()
    }
}

impl Lanes for Digit {
    #[inline(always)]
    fn failing(v: u8x16) -> u64 {
        (v - u8x16::splat(b'0'))
            .simd_ge(u8x16::splat(10))
            .to_bitmask()
    }
}

impl Class for Line {
    ghost test = { is_in_line };

    #[inline(always)]
    fn passes(c: char) -> bool {
        c != '\n'
    }
}

impl Lanes for Line {
    #[inline(always)]
    fn failing(v: u8x16) -> u64 {
        v.simd_eq(u8x16::splat(b'\n')).to_bitmask()
    }
}

/// The place of the first byte, at `from` or after it, that is not of the class; or the length.
#[inline(always)]
pub(crate) fn run_end<C: Lanes>(bytes: &[u8], from: usize) -> usize
    requires { from ≤ length bytes.now }
    ensures { result ≡ from + prefix_len C.test (drop from bytes.now) }
{
    let mut i = from;
    while bytes.len() - i >= 16 {
        let found = C::failing(u8x16::from_slice(&bytes[i..]));
        if found != 0 {
            return i + found.trailing_zeros() as usize;
        }
        i += 16;
    }
    C::rest_end(bytes, i)
}

/// The end of the run, found byte by byte.
#[inline(always)]
pub(crate) fn bytes_end<C: Class>(bytes: &[u8], from: usize) -> usize
    requires { from ≤ length bytes.now }
    ensures { result ≡ from + prefix_len C.test (drop from bytes.now) }
{
    let mut end = from;
    while end < bytes.len() && C::passes(bytes[end] as char) {
        end += 1;
    }
    end
}

/// The place of the first byte, at `from` or after it, that is not white space; or the length.
pub fn white_end(bytes: &[u8], from: usize) -> usize
    requires { from ≤ length bytes.now }
    ensures { result ≡ from + prefix_len is_white (drop from bytes.now) }
{
    run_end::<White>(bytes, from)
}

/// The place of the first byte, at `from` or after it, that is not a digit; or the length.
#[inline(always)]
pub fn digits_end(bytes: &[u8], from: usize) -> usize
    requires { from ≤ length bytes.now }
    ensures { result ≡ from + prefix_len is_ascii_digit (drop from bytes.now) }
{
    run_end::<Digit>(bytes, from)
}

/// The place of the first line feed, or the length.
#[inline(always)]
pub fn line_end(bytes: &[u8]) -> usize
    ensures end { result ≡ prefix_len is_in_line bytes.now }
    ensures within { result ≤ length bytes.now }
{
    run_end::<Line>(bytes, 0)
}

/// Whether this is white space of JSON (RFC 8259, section 2).
pub fn is_white(c: char) -> bool
    ensures { result ≡ is_white c }
{
    c == ' ' || c == '\n' || c == '\r' || c == '\t'
}
