//! Plain characters.
ghost use Rattle.std.specs.Prelude.{◌≡◌, ◌+◌, ◌≤◌, length, drop, map};
ghost use Rattle.std.specs.List.{prefix_len};
ghost use Rattle.std.specs.Simd.Lanes.{mask_l};
ghost use Rattle.tinyjson_bytes.specs.Scan.{fails, is_plain};

use crate::runs::{Class, Lanes, bytes_end, run_end};
use std::simd::prelude::*;

/// What a string shows as it is: no quotation mark, backslash or control character.
pub struct Plain;

impl Class for Plain {
    ghost test = { is_plain };

    #[inline(always)]
    fn passes(c: char) -> bool {
        is_plain(c)
    }
}

impl Lanes for Plain {
    #[inline(always)]
    fn failing(v: u8x16) -> u64 {
        (v.simd_eq(u8x16::splat(b'"'))
            | v.simd_eq(u8x16::splat(b'\\'))
            | v.simd_lt(u8x16::splat(0x20))).to_bitmask()
    }

    #[inline(never)]
    fn rest_end(bytes: &[u8], from: usize) -> usize {
        if bytes.len() - from < 8 {
            return few_end(bytes, from);
        }
        let found = failing_8(u8x8::from_slice(&bytes[from..]));
        if found != 0 {
            return from + found.trailing_zeros() as usize;
        }
        few_end(bytes, from + 8)
    }
}

/// The end of the run where fewer than eight bytes are left.
#[inline(always)]
fn few_end(bytes: &[u8], from: usize) -> usize
    requires { from ≤ length bytes.now }
    ensures { result ≡ from + prefix_len is_plain (drop from bytes.now) }
{
    if bytes.len() - from < 4 {
        return bytes_end::<Plain>(bytes, from);
    }
    let found = failing_4(u8x4::from_slice(&bytes[from..]));
    if found != 0 {
        return from + found.trailing_zeros() as usize;
    }
    bytes_end::<Plain>(bytes, from + 4)
}

#[inline(always)]
fn failing_8(v: u8x8) -> u64
    ensures { result ≡ mask_l (map (fails is_plain) v) }
{
    (v.simd_eq(u8x8::splat(b'"'))
        | v.simd_eq(u8x8::splat(b'\\'))
        | v.simd_lt(u8x8::splat(0x20))).to_bitmask()
}

#[inline(always)]
fn failing_4(v: u8x4) -> u64
    ensures { result ≡ mask_l (map (fails is_plain) v) }
{
    (v.simd_eq(u8x4::splat(b'"'))
        | v.simd_eq(u8x4::splat(b'\\'))
        | v.simd_lt(u8x4::splat(0x20))).to_bitmask()
}

/// The first quotation mark, backslash or control character from `from` on, or the length.
#[inline(always)]
pub fn plain_end(bytes: &[u8], from: usize) -> usize
    requires { from ≤ length bytes.now }
    ensures end { result ≡ from + prefix_len is_plain (drop from bytes.now) }
    ensures within { result ≤ length bytes.now }
{
    run_end::<Plain>(bytes, from)
}

/// Whether a string shows the character as it is (RFC 8259, section 7).
pub fn is_plain(c: char) -> bool
    ensures { result ≡ is_plain c }
{
    c != '"' && c != '\\' && c >= ' '
}
