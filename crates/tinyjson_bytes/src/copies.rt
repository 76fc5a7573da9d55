//! Bytes put into others, by vectors.
ghost use Rattle.std.specs.Prelude.{◌≡◌, ℕ, ◌+◌, ◌≤◌, ◌++◌, length, take};

use std::simd::prelude::*;

/// Puts the bytes at the place, a few of them by two vectors, which may overlap.
#[inline(always)]
pub fn copy(target: &mut [u8], at: usize, bytes: &[u8])
    requires { at + length bytes.now ≤ length target.old }
    ensures copied { take (at + length bytes.now) target.new ≡ take at target.old ++ bytes.now }
    ensures len { length target.new ≡ length target.old }
{
    match bytes.len() {
        0 => {}
        1 => target[at] = bytes[0],
        2..=3 => copy_ends::<2>(target, at, bytes),
        4..=7 => copy_ends::<4>(target, at, bytes),
        8..=15 => copy_ends::<8>(target, at, bytes),
        16..=32 => copy_ends::<16>(target, at, bytes),
        count => target[at..at + count].copy_from_slice(bytes),
    }
}

/// The first N bytes and the last N, which are all.
#[inline(always)]
fn copy_ends<const N: usize>(target: &mut [u8], at: usize, bytes: &[u8])
    requires count { (N ≤ length bytes.now) × (length bytes.now ≤ N + N) }
    requires fits { at + length bytes.now ≤ length target.old }
    ensures copied { take (at + length bytes.now) target.new ≡ take at target.old ++ bytes.now }
    ensures len { length target.new ≡ length target.old }
{
    let last = bytes.len() - N;
    Simd::<u8, N>::from_slice(bytes).copy_to_slice(&mut target[at..]);
    Simd::<u8, N>::from_slice(&bytes[last..]).copy_to_slice(&mut target[at + last..]);
}

/// Puts the first N bytes at the place, of which any count at the front may be meant.
#[inline(always)]
pub fn put<const N: usize>(buffer: &mut [u8], at: usize, bytes: &[u8])
    requires bytes { N ≤ length bytes.now }
    requires room { at + N ≤ length buffer.old }
    ensures put { (n : ℕ) → n ≤ N
        → take (at + n) buffer.new ≡ take at buffer.old ++ take n bytes.now }
    ensures len { length buffer.new ≡ length buffer.old }
{
    Simd::<u8, N>::from_slice(bytes).copy_to_slice(&mut buffer[at..]);
}
