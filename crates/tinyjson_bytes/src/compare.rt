//! Equality and order of bytes.
ghost use Rattle.std.specs.Prelude.{◌≡◌, ◌≢◌, ◌+◌, ◌≤◌, length};
ghost use Rattle.std.specs.Bool.{MatchBool};
ghost use Rattle.std.specs.Cmp.Lexicographic.{slice_cmp};
ghost use Rattle.std.specs.Ordering.{is_lt, nat_cmp};
ghost use Rattle.std.specs.Simd.Lanes.{chunk};

use std::simd::prelude::*;

/// Whether the bytes are the same. A few are compared by two vectors, which may overlap.
#[inline(always)]
pub fn are_equal(a: &[u8], b: &[u8]) -> bool
    ensures { MatchBool result (a.now ≡ b.now) (a.now ≢ b.now) }
{
    if a.len() != b.len() {
        return false;
    }
    match a.len() {
        1 => equal_ends::<1>(a, b),
        2..=3 => equal_ends::<2>(a, b),
        4..=7 => equal_ends::<4>(a, b),
        8..=15 => equal_ends::<8>(a, b),
        16..=32 => equal_ends::<16>(a, b),
        _ => a == b,
    }
}

/// Whether the first N bytes and the last N, which are all, are the same.
#[inline(always)]
fn equal_ends<const N: usize>(a: &[u8], b: &[u8]) -> bool
    requires len { length a.now ≡ length b.now }
    requires count { (N ≤ length a.now) × (length a.now ≤ N + N) × (N ≤ 64) }
    ensures { MatchBool result (a.now ≡ b.now) (a.now ≢ b.now) }
{
    let last = a.len() - N;
    equal_at::<N>(a, b, 0) && equal_at::<N>(a, b, last)
}

/// Whether the N bytes from that place on are the same.
#[inline(always)]
fn equal_at<const N: usize>(a: &[u8], b: &[u8], at: usize) -> bool
    requires within { (at + N ≤ length a.now) × (at + N ≤ length b.now) × (N ≤ 64) }
    ensures { MatchBool result (chunk at N a.now ≡ chunk at N b.now)
        (chunk at N a.now ≢ chunk at N b.now) }
{
    let unequal = Simd::<u8, N>::from_slice(&a[at..]).simd_ne(Simd::from_slice(&b[at..]));
    unequal.to_bitmask() == 0
}

/// Whether the first bytes come before the second in the order of bytes. Where the first byte of each decides, no other
/// is read.
#[inline(always)]
pub fn is_below(a: &[u8], b: &[u8]) -> bool
    ensures { result ≡ is_lt (slice_cmp nat_cmp a.now b.now) }
{
    if !a.is_empty() && !b.is_empty() && a[0] != b[0] {
        return a[0] < b[0];
    }
    a.cmp(b).is_lt()
}
