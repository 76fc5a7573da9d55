//! Addresses of mail.
ghost use Rattle.std.specs.Prelude.{◌≡◌, option_map};
ghost use Rattle.text_formats.specs.Email.{is_email, is_atom, is_dot_string, is_printable, is_quoted_letter};
ghost use Rattle.text_formats.specs.Email.{after_quoted, is_literal, is_bracketed, is_domain, is_at_domain};
ghost use Rattle.text_formats.specs.Email.{is_only_end, is_after_local};

use crate::host::is_name;
use crate::ip::{Rules, is_address, is_quad};
use crate::letters::{End, Letters, after_word, are};
use text_uri::cut;

/// Whether the text is an address of mail: `Mailbox` of RFC 5321, section 4.1.2, whose domain is labels as those of a
/// host, or an address of IPv4 or IPv6 in brackets. The part before the `@` has at most 64 bytes (section 4.5.3.1.1).
///
/// ```
/// assert!(rt; is_email("joe.bloggs@example.com"));
/// assert!(rt; is_email("\"joe@bloggs\"@[127.0.0.1]"));
/// ```
pub fn is_email(text: &str) -> bool
    ensures { result ≡ is_email text.now }
{
    is_mailbox(text.as_bytes())
}

fn is_mailbox(text: &[u8]) -> bool
    ensures { result ≡ is_email text.now }
{
    let Some((first, quoted)) = text.split_first() else {
        return false;
    };
    if *first == b'"' {
        return match after_quoted(quoted) {
            Some(rest) => is_after_local(text, rest),
            None => false,
        };
    }
    let (local, rest) = cut(text, End::User);
    is_dot_string(local) && is_after_local(text, rest)
}

/// Whether the rest of the text is a domain after `@`, and what is in front of it is no longer than allowed.
fn is_after_local(text: &[u8], rest: &[u8]) -> bool
    ensures { result ≡ is_after_local text.now rest.now }
{
    text.len().saturating_sub(rest.len()) <= 64 && is_at_domain(rest)
}

fn is_dot_string(text: &[u8]) -> bool
    ensures { result ≡ is_dot_string text.now }
{
    text.split(|c| *c == b'.').all(|atom| is_atom(atom))
}

fn is_atom(text: &[u8]) -> bool
    ensures { result ≡ is_atom text.now }
{
    !text.is_empty() && are(Letters::Atom, text)
}

/// What follows the quotation mark that ends the string, if the text begins with the rest of one.
fn after_quoted(text: &[u8]) -> Option<&[u8]>
    ensures { option_map (λ x. x.now) result ≡ after_quoted text.now }
{
    let mut rest = text;
    while let Some((c, more)) = rest.split_first() {
        if *c == b'"' {
            return Some(more);
        }
        if *c == b'\\' {
            let (letter, after) = more.split_first()?;
            if !is_printable(*letter) {
                return None;
            }
            rest = after;
            continue;
        }
        if !is_quoted_letter(*c) {
            return None;
        }
        rest = more;
    }
    None
}

fn is_printable(c: u8) -> bool
    ensures { result ≡ is_printable c }
{
    matches!(c, b' '..=b'~')
}

fn is_quoted_letter(c: u8) -> bool
    ensures { result ≡ is_quoted_letter c }
{
    is_printable(c) && c != b'"' && c != b'\\'
}

fn is_at_domain(text: &[u8]) -> bool
    ensures { result ≡ is_at_domain text.now }
{
    match text.split_first() {
        Some((b'@', domain)) => is_domain(domain),
        _ => false,
    }
}

fn is_domain(text: &[u8]) -> bool
    ensures { result ≡ is_domain text.now }
{
    match text.split_first() {
        Some((b'[', literal)) => is_bracketed(literal),
        Some(_) => is_name(text),
        None => false,
    }
}

fn is_bracketed(text: &[u8]) -> bool
    ensures { result ≡ is_bracketed text.now }
{
    let (literal, rest) = cut(text, End::Literal);
    is_literal(literal) && is_only_end(rest)
}

/// Whether the text is a bracket alone, as it begins with one.
fn is_only_end(text: &[u8]) -> bool
    ensures { result ≡ is_only_end text.now }
{
    matches!(text, [_])
}

fn is_literal(text: &[u8]) -> bool
    ensures { result ≡ is_literal text.now }
{
    match after_word(b"IPv6:", text) {
        Some(address) => is_address(Rules::Mail, address),
        None => is_quad(Rules::Mail, text),
    }
}
