//! Names of hosts.
ghost use Rattle.std.specs.Prelude.{◌≡◌, true};
ghost use Rattle.text_formats.specs.Host.{is_label, are_labels, is_name, ends_with_digits, is_hostname};

use crate::letters::{Letters, are};

/// Whether the text is a name of a host (RFC 1123, section 2.1): labels of letters, digits and inner hyphens, of at
/// most 63 bytes, with dots between them, of at most 253 bytes together. The last label is not of digits alone, as that of
/// an address is. No label is decoded.
///
/// ```
/// assert!(rt; is_hostname("www.example.com"));
/// assert!(rt; !is_hostname("host-.example.com"));
/// assert!(rt; !is_hostname("127.0.0.1"));
/// ```
pub fn is_hostname(text: &str) -> bool
    ensures { result ≡ is_hostname text.now }
{
    is_name(text.as_bytes()) && !ends_with_digits(text.as_bytes())
}

/// Whether the text is labels, which may be of digits alone.
pub(crate) fn is_name(text: &[u8]) -> bool
    ensures { result ≡ is_name text.now }
{
    text.len() <= 253 && are_labels(text)
}

/// Whether only digits are behind the last dot.
fn ends_with_digits(text: &[u8]) -> bool
    ensures { result ≡ ends_with_digits true text.now }
{
    let mut digits = true;
    let mut rest = text;
    while let Some((c, more)) = rest.split_first() {
        digits = *c == b'.' || (digits && c.is_ascii_digit());
        rest = more;
    }
    digits
}

fn are_labels(text: &[u8]) -> bool
    ensures { result ≡ are_labels text.now }
{
    text.split(|c| *c == b'.').all(|label| is_label(label))
}

fn is_label(label: &[u8]) -> bool
    ensures { result ≡ is_label label.now }
{
    are(Letters::Label, label)
        && (1..=63).contains(&label.len())
        && label[0] != b'-'
        && label[label.len() - 1] != b'-'
}
