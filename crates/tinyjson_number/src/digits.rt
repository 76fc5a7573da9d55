//! How a number keeps its digits.
ghost use Rattle.std.specs.Prelude.{◌≡◌, ◌+◌, ◌<◌, ◌≤◌, ◌^◌, [], ◌++◌, length, IfOk, IsOk};
ghost use Rattle.std.specs.Str.{IsAscii};
ghost use Rattle.tinyjson_number.specs.Number.{digits_of};

use crate::inline::{INLINE_DIGITS, Inline};
use std::alloc::{AllocError, Global};
use std::str;

/// Few digits are kept in the number itself, and many in memory of their own.
#[derive(Drop)]
pub(crate) enum Digits {
    Short(Inline),
    Long(String),
}

impl Digits {
    /// No digits.
    pub(crate) fn empty() -> Digits
        ensures { digits_of result ≡ [] }
    {
        Digits::Short(Inline::joined(b"", b""))
    }

    /// The digits of two slices together. Where there are many, it takes memory once, and exactly what
    /// they need.
    pub(crate) fn joined(alloc: Global, front: &[u8], back: &[u8]) -> Result<Digits, AllocError>
        requires front { IsAscii front.now }
        requires back { IsAscii back.now }
        requires room { length front.now + length back.now < 2 ^ 64 }
        ensures digits { IfOk result (λ d. digits_of d ≡ front.now ++ back.now) }
        ensures few { length front.now + length back.now ≤ 24 → IsOk result }
    {
        if front.len() + back.len() <= INLINE_DIGITS {
            return Ok(Digits::Short(Inline::joined(front, back)));
        }
        let mut digits = String::with_capacity(alloc, front.len() + back.len())?;
        digits.push_str(ascii_str(front))?;
        digits.push_str(ascii_str(back))?;
        Ok(Digits::Long(digits))
    }

    pub(crate) fn as_bytes(&self) -> &[u8]
        ensures { result.now ≡ digits_of self.now }
    {
        match self {
            Digits::Short(digits) => digits.as_bytes(),
            Digits::Long(digits) => digits.as_bytes(),
        }
    }
}

/// ASCII as text.
pub(crate) fn ascii_str(bytes: &[u8]) -> &str
    requires { IsAscii bytes.now }
    ensures { result.now ≡ bytes.now }
{
    str::from_utf8(bytes).unwrap()
}
