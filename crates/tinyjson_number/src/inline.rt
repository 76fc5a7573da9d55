//! A few digits in the number itself.
ghost use Rattle.std.specs.Prelude.{◌≡◌, ◌+◌, ◌≤◌, ◌++◌, IfSome, length, take, drop};

use tinyjson_bytes::{copy, put};

/// The most digits that a number keeps in itself.
pub(crate) const INLINE_DIGITS: usize = 24;

/// The first `len` of the bytes.
#[derive(Clone, Copy)]
pub(crate) struct Inline {
    bytes: [u8; INLINE_DIGITS],
    len: usize,
    ghost within: { len ≤ 24 },
}

impl Inline {
    /// The digits of two slices together.
    #[inline(always)]
    pub(crate) fn joined(front: &[u8], back: &[u8]) -> Inline
        requires { length front.now + length back.now ≤ 24 }
        ensures { take result.len result.bytes ≡ front.now ++ back.now }
    {
        let len = front.len() + back.len();
        let mut bytes = [0; INLINE_DIGITS];
        copy(&mut bytes, 0, front);
        copy(&mut bytes, front.len(), back);
        Inline { bytes, len }
    }

    /// The digits of a number whose text begins with those of its integer part, and goes on after those of
    /// its fraction, if they are few.
    #[inline(always)]
    pub(crate) fn of_text(text: &[u8], integer: usize, fraction: usize) -> Option<Inline>
        requires { integer + fraction + 17 ≤ length text.now }
        ensures { IfSome result (λ d. (integer + fraction ≤ 24) × (take d.len d.bytes
            ≡ take integer text.now ++ take fraction (drop (integer + 1) text.now))) }
    {
        let mut bytes = [0; INLINE_DIGITS];
        if fraction == 0 {
            if integer > 16 {
                return None;
            }
            put::<16>(&mut bytes, 0, text);
            return Some(Inline {
                bytes,
                len: integer,
            });
        }
        if integer > 8 || fraction > 16 {
            return None;
        }
        put::<8>(&mut bytes, 0, text);
        put::<16>(&mut bytes, integer, &text[integer + 1..]);
        Some(Inline {
            bytes,
            len: integer + fraction,
        })
    }

    /// How many bytes are digits.
    #[inline(always)]
    pub(crate) fn len(&self) -> usize
        ensures value { result ≡ self.now.len }
        ensures within { result ≤ 24 }
    {
        self.len
    }

    /// The bytes, and those after them.
    #[inline(always)]
    pub(crate) fn all_bytes(&self) -> &[u8]
        ensures value { result.now ≡ self.now.bytes }
        ensures len { length result.now ≡ 24 }
    {
        &self.bytes
    }

    pub(crate) fn as_bytes(&self) -> &[u8]
        ensures { result.now ≡ take self.now.len self.now.bytes }
    {
        &self.bytes[..self.len]
    }
}
