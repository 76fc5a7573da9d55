//! JSON Pointers.
ghost use Rattle.std.specs.Prelude.{◌≡◌, ◌==◌, not};
ghost use Rattle.text_formats.specs.Letters.{begins};
ghost use Rattle.text_formats.specs.Pointer.{is_pointer, is_number, is_end, is_step, is_after_number};
ghost use Rattle.text_formats.specs.Pointer.{is_relative_pointer};

use crate::letters::{End, Letters, are};
use text_uri::cut;

/// Whether the text is a JSON Pointer (RFC 6901, section 3).
///
/// ```
/// assert!(rt; is_json_pointer("/a~1b/0"));
/// assert!(rt; !is_json_pointer("/a~2b"));
/// ```
pub fn is_json_pointer(text: &str) -> bool
    ensures { result ≡ is_pointer text.now }
{
    is_pointer(text.as_bytes())
}

/// Whether the text is a relative JSON Pointer (draft-bhutton-relative-json-pointer-00, section 3).
///
/// ```
/// assert!(rt; is_relative_json_pointer("1/a"));
/// assert!(rt; is_relative_json_pointer("0#"));
/// assert!(rt; is_relative_json_pointer("0-1/a"));
/// ```
pub fn is_relative_json_pointer(text: &str) -> bool
    ensures { result ≡ is_relative_pointer text.now }
{
    let (number, rest) = cut(text.as_bytes(), End::Digits);
    is_number(number) && is_after_number(rest)
}

/// Whether the text is the change of an index, if one is there, and what may follow.
fn is_after_number(text: &[u8]) -> bool
    ensures { result ≡ is_after_number text.now }
{
    match text.split_first() {
        None => true,
        Some((b'+' | b'-', rest)) => is_step(rest),
        Some(_) => is_end(text),
    }
}

/// Whether the text is a number that is not 0, and what may follow.
fn is_step(text: &[u8]) -> bool
    ensures { result ≡ is_step text.now }
{
    let (number, rest) = cut(text, End::Digits);
    begins_without_zero(number) && is_end(rest)
}

fn begins_without_zero(digits: &[u8]) -> bool
    ensures { result ≡ begins (λ c. not (c == 48)) digits.now }
{
    match digits.first() {
        Some(c) => *c != b'0',
        None => false,
    }
}

/// Whether the text is `#` or a pointer.
fn is_end(text: &[u8]) -> bool
    ensures { result ≡ is_end text.now }
{
    matches!(text, [b'#']) || is_pointer(text)
}

fn is_pointer(text: &[u8]) -> bool
    ensures { result ≡ is_pointer text.now }
{
    match text {
        [] => true,
        [b'/', rest @ ..] => are(Letters::Pointer, rest),
        _ => false,
    }
}

/// Whether the digits are a number without a leading zero.
fn is_number(digits: &[u8]) -> bool
    ensures { result ≡ is_number digits.now }
{
    match digits {
        [] => false,
        [_] => true,
        [first, ..] => *first != b'0',
    }
}
