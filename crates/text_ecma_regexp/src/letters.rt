//! Letters, and where texts of them end.
ghost use Rattle.std.specs.Prelude.{◌≡◌, bytes_eq, codes};
ghost use Rattle.text_ecma_regexp.specs.Letters.{is_among};
ghost use Rattle.text_ecma_regexp.specs.Scan.{ends, now};
ghost use Rattle.text_uri.specs.Letters.{after};

use text_uri::Ends;

/// Where a part of a text ends.
#[derive(Clone, Copy)]
pub(crate) enum End {
    Digits,
    Brace,
    Equals,
    Greater,
}

impl Ends for End {
    ghost ends = { ends };

    fn ends(self, byte: u8) -> bool {
        match self {
            End::Digits => !byte.is_ascii_digit(),
            End::Brace => byte == b'}',
            End::Equals => byte == b'=',
            End::Greater => byte == b'>',
        }
    }
}

pub(crate) fn is_among(letters: &[u8], c: u8) -> bool
    ensures { result ≡ is_among letters.now c }
{
    letters.iter().any(|d| *d == c)
}

pub(crate) fn is_same(text: &[u8], other: &[u8]) -> bool
    ensures { result ≡ bytes_eq text.now other.now }
{
    text == other
}

/// What follows the brace at the front.
pub(crate) fn after_brace(text: &[u8]) -> Option<&[u8]>
    ensures { now result ≡ after (codes "}") text.now }
{
    match text {
        [b'}', rest @ ..] => Some(rest),
        _ => None,
    }
}
