//! Texts of a fixed form.
ghost use Rattle.std.specs.Prelude.{◌≡◌, ◌+◌, ◌-◌, ◌<◌, true, length};
ghost use Rattle.text_formats.specs.Form.{has_form, fits, two, is_uuid};

/// Whether the text is a UUID (RFC 4122, section 3), in capital or small letters.
///
/// ```
/// assert!(rt; is_uuid("f81d4fae-7dec-11d0-a765-00a0c91e6bf6"));
/// ```
pub fn is_uuid(text: &str) -> bool
    ensures { result ≡ is_uuid text.now }
{
    has_form(b"xxxxxxxx-xxxx-xxxx-xxxx-xxxxxxxxxxxx", text.as_bytes())
}

/// Whether the text has the form: `0` stands for a digit, `x` for a hexadecimal digit, another character for itself.
pub(crate) fn has_form(form: &[u8], text: &[u8]) -> bool
    ensures value { result ≡ has_form form.now text.now }
    ensures long { result ≡ true → length text.now ≡ length form.now }
{
    if form.len() != text.len() {
        return false;
    }
    all_fit(form, text)
}

fn all_fit(form: &[u8], text: &[u8]) -> bool
    requires { length form.now ≡ length text.now }
    ensures { result ≡ has_form form.now text.now }
{
    for (i, mark) in form.iter().enumerate() {
        if !fits(*mark, text[i]) {
            return false;
        }
    }
    true
}

fn fits(mark: u8, c: u8) -> bool
    ensures { result ≡ fits mark c }
{
    match mark {
        b'0' => c.is_ascii_digit(),
        b'x' => c.is_ascii_hexdigit(),
        _ => c == mark,
    }
}

/// The number that the two digits at the place write.
pub(crate) fn two(text: &[u8], at: usize) -> u32
    requires { at + 1 < length text.now }
    ensures { result ≡ two at text.now }
{
    10 * digit(text[at]) + digit(text[at + 1])
}

pub(crate) fn digit(c: u8) -> u32
    ensures { result ≡ c - 48 }
{
    c.saturating_sub(b'0') as u32
}
