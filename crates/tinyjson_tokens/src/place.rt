//! The line and the column after a text, counted sixteen bytes at a time.
ghost use Rattle.std.specs.Prelude.{◌≡◌, ◌<◌, ◌≤◌, ◌-◌, length, drop, map, slice_index};
ghost use Rattle.std.specs.Fmt.{is_char_start};
ghost use Rattle.std.specs.List.{count_by};
ghost use Rattle.std.specs.Simd.Lanes.{mask_l};
ghost use Rattle.std.specs.Str.{chars};
ghost use Rattle.tinyjson_grammar.specs.Position.{advance, is_line_feed, line_feeds, origin};
ghost use Rattle.tinyjson_grammar.specs.Position.{position_at};

use std::simd::prelude::*;

/// The line, which begins at 1, and how many characters follow its line feed.
pub(crate) fn place_after(text: &str) -> (usize, usize)
    ensures { position_at result.0 result.1 ≡ advance origin (chars text.now) }
{
    let bytes = text.as_bytes();
    let start = line_start(bytes);
    let column = characters(&bytes[start..]);
    (line_feeds(bytes).saturating_add(1), column)
}

/// The place after the last line feed.
fn line_start(bytes: &[u8]) -> usize
    ensures within { result ≤ length bytes.now }
    ensures none { line_feeds (drop result bytes.now) ≡ 0 }
    ensures after { 0 < result → slice_index bytes.now (result - 1) ≡ 10 }
{
    let mut start = bytes.len();
    while start >= 16 && feeds(u8x16::from_slice(&bytes[start - 16..])) == 0 {
        start -= 16;
    }
    while start > 0 && bytes[start - 1] != b'\n' {
        start -= 1;
    }
    start
}

/// How many line feeds the bytes have.
fn line_feeds(bytes: &[u8]) -> usize
    ensures { result ≡ line_feeds bytes.now }
{
    let mut count = 0;
    let mut i = 0;
    while bytes.len() - i >= 16 {
        count += feeds(u8x16::from_slice(&bytes[i..])).count_ones() as usize;
        i += 16;
    }
    while i < bytes.len() {
        count += (bytes[i] == b'\n') as usize;
        i += 1;
    }
    count
}

/// How many characters begin in the bytes.
fn characters(bytes: &[u8]) -> usize
    ensures { result ≡ count_by is_char_start bytes.now }
{
    let mut count = 0;
    let mut i = 0;
    while bytes.len() - i >= 16 {
        count += starts(u8x16::from_slice(&bytes[i..])).count_ones() as usize;
        i += 16;
    }
    while i < bytes.len() {
        count += (bytes[i] < 128 || bytes[i] >= 192) as usize;
        i += 1;
    }
    count
}

#[inline(always)]
fn feeds(v: u8x16) -> u64
    ensures { result ≡ mask_l (map is_line_feed v) }
{
    v.simd_eq(u8x16::splat(b'\n')).to_bitmask()
}

/// The bytes that continue no character.
#[inline(always)]
fn starts(v: u8x16) -> u64
    ensures { result ≡ mask_l (map is_char_start v) }
{
    (v - u8x16::splat(128))
        .simd_ge(u8x16::splat(64))
        .to_bitmask()
}
