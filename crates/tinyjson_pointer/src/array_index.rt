//! Tokens that are indices.
ghost use Rattle.std.specs.Prelude.{◌≡◌, ℕ, ◌≤◌, ◌^◌, Some, MatchOption};
ghost use Rattle.std.specs.Str.{chars, all_ascii_digits};
ghost use Rattle.tinyjson_pointer.specs.Index.{index_of, is_index};

/// The index that the token names (RFC 6901, section 4): decimal digits without a leading zero. `None`
/// for other tokens, as `-`, and for an index that no array in memory reaches.
///
/// ```
/// index("12") // Some(12); of "012" and of "-": None
/// ```
pub fn index(token: &str) -> Option<usize>
    ensures { MatchOption result
        ((i : ℕ) → index_of (chars token.now) ≡ Some i → 2 ^ 64 ≤ i)
        (λ i. index_of (chars token.now) ≡ Some i) }
{
    if !is_numeral(token.as_bytes()) {
        return None;
    }
    token.parse().ok()
}

/// Whether the bytes are digits without a leading zero.
fn is_numeral(bytes: &[u8]) -> bool
    ensures { result ≡ is_index bytes.now }
{
    match bytes {
        [] => false,
        [first] => first.is_ascii_digit(),
        [first, ..] => *first != b'0' && are_digits(bytes),
    }
}

fn are_digits(bytes: &[u8]) -> bool
    ensures { result ≡ all_ascii_digits bytes.now }
{
    for byte in bytes {
        if !byte.is_ascii_digit() {
            return false;
        }
    }
    true
}
