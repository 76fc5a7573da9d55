//! URIs and references.
ghost use Rattle.std.specs.Option.{option_map_or};
ghost use Rattle.std.specs.Prelude.{◌≡◌, true, codes};
ghost use Rattle.text_formats.specs.Letters.{each};
ghost use Rattle.text_formats.specs.Scan.{passes};
ghost use Rattle.text_formats.specs.Splitting.{parts_of, cut_now, now};
ghost use Rattle.text_formats.specs.Uri.{is_uri, is_reference, are_parts, has_colon_first, is_authority};
ghost use Rattle.text_formats.specs.Uri.{is_host_and_port, is_bracket_and_port, is_port, is_authority_if};
ghost use Rattle.text_formats.specs.Uri.{is_ip_literal, is_future, is_dot_and_letters};
ghost use Rattle.text_uri.specs.Letters.{after};
ghost use Rattle.text_uri.specs.Parts.{split, cut_scheme, cut_authority, cut_query, is_scheme};

use crate::ip::{Rules, is_address};
use crate::letters::{End, Letters, are};
use text_uri::cut;

/// The parts of a reference.
#[derive(Clone, Copy)]
struct Parts<'t> {
    scheme: Option<&'t [u8]>,
    authority: Option<&'t [u8]>,
    path: &'t [u8],
    query: Option<&'t [u8]>,
    fragment: Option<&'t [u8]>,
}

/// Whether the text is a URI, with a scheme (RFC 3986, section 3). Nothing is decoded.
///
/// ```
/// assert!(rt; is_uri("ldap://[2001:db8::7]/c=GB?objectClass?one"));
/// assert!(rt; !is_uri("//example.com/a"));
/// ```
pub fn is_uri(text: &str) -> bool
    ensures { result ≡ is_uri text.now }
{
    let parts = split(text.as_bytes());
    parts.scheme.is_some() && are_parts(parts)
}

/// Whether the text is a URI or a relative reference (RFC 3986, section 4.1).
///
/// ```
/// assert!(rt; is_uri_reference("../a%20b#c"));
/// assert!(rt; !is_uri_reference("a b"));
/// ```
pub fn is_uri_reference(text: &str) -> bool
    ensures { result ≡ is_reference text.now }
{
    let parts = split(text.as_bytes());
    are_parts(parts)
        && (parts.scheme.is_some() || parts.authority.is_some() || !has_colon_first(parts.path))
}

/// The parts of a text (RFC 3986, appendix B).
fn split(text: &[u8]) -> Parts<'_>
    ensures { parts_of result ≡ split text.now }
{
    let (scheme, rest) = cut_scheme(text);
    let (authority, rest) = cut_authority(rest);
    let (path, rest) = cut(rest, End::Path);
    let (query, rest) = cut_query(rest);
    let fragment = after_number_sign(rest);
    Parts {
        scheme,
        authority,
        path,
        query,
        fragment,
    }
}

fn cut_scheme(text: &[u8]) -> (Option<&[u8]>, &[u8])
    ensures { cut_now result ≡ cut_scheme text.now }
{
    let (front, rest) = cut(text, End::Scheme);
    match rest {
        [b':', rest @ ..] if is_scheme(front) => (Some(front), rest),
        _ => (None, text),
    }
}

/// Whether it is a letter, and then letters, digits, `+`, `-` and `.`.
fn is_scheme(front: &[u8]) -> bool
    ensures { result ≡ is_scheme front.now }
{
    match front {
        [first, rest @ ..] => first.is_ascii_alphabetic() && are(Letters::Scheme, rest),
        [] => false,
    }
}

fn cut_authority(text: &[u8]) -> (Option<&[u8]>, &[u8])
    ensures { cut_now result ≡ cut_authority text.now }
{
    match text {
        [b'/', b'/', rest @ ..] => {
            let (authority, rest) = cut(rest, End::Authority);
            (Some(authority), rest)
        }
        _ => (None, text),
    }
}

fn cut_query(text: &[u8]) -> (Option<&[u8]>, &[u8])
    ensures { cut_now result ≡ cut_query text.now }
{
    match text {
        [b'?', rest @ ..] => {
            let (query, rest) = cut(rest, End::Query);
            (Some(query), rest)
        }
        _ => (None, text),
    }
}

fn after_number_sign(text: &[u8]) -> Option<&[u8]>
    ensures { now result ≡ after (codes "#") text.now }
{
    match text {
        [b'#', rest @ ..] => Some(rest),
        _ => None,
    }
}

fn are_parts(parts: Parts<'_>) -> bool
    ensures { result ≡ are_parts (parts_of parts.entry) }
{
    is_authority_if(parts.authority)
        && are(Letters::Path, parts.path)
        && are_if(Letters::Query, parts.query)
        && are_if(Letters::Query, parts.fragment)
}

fn are_if(letters: Letters, part: Option<&[u8]>) -> bool
    ensures { result ≡ option_map_or (each (passes letters)) (now part.entry) true }
{
    match part {
        Some(part) => are(letters, part),
        None => true,
    }
}

fn is_authority_if(part: Option<&[u8]>) -> bool
    ensures { result ≡ is_authority_if (now part.entry) }
{
    match part {
        Some(part) => is_authority(part),
        None => true,
    }
}

fn is_authority(text: &[u8]) -> bool
    ensures { result ≡ is_authority text.now }
{
    let (front, rest) = cut(text, End::User);
    match rest {
        [] => is_host_and_port(front),
        [_, host @ ..] => are(Letters::User, front) && is_host_and_port(host),
    }
}

fn is_host_and_port(text: &[u8]) -> bool
    ensures { result ≡ is_host_and_port text.now }
{
    match text.split_first() {
        None => true,
        Some((b'[', rest)) => {
            let (address, port) = cut(rest, End::Literal);
            is_ip_literal(address) && is_bracket_and_port(port)
        }
        Some(_) => {
            let (name, port) = cut(text, End::Host);
            are(Letters::Host, name) && is_port(port)
        }
    }
}

/// Whether the text is a bracket, as it begins with one, and a port.
fn is_bracket_and_port(text: &[u8]) -> bool
    ensures { result ≡ is_bracket_and_port text.now }
{
    match text {
        [] => false,
        [_, port @ ..] => is_port(port),
    }
}

fn is_ip_literal(text: &[u8]) -> bool
    ensures { result ≡ is_ip_literal text.now }
{
    is_address(Rules::Uri, text) || is_future(text)
}

/// Whether the text is an address of a later version.
fn is_future(text: &[u8]) -> bool
    ensures { result ≡ is_future text.now }
{
    match text.split_first() {
        Some((b'v' | b'V', rest)) => {
            let (version, rest) = cut(rest, End::Version);
            !version.is_empty() && are(Letters::Hex, version) && is_dot_and_letters(rest)
        }
        _ => false,
    }
}

fn is_dot_and_letters(text: &[u8]) -> bool
    ensures { result ≡ is_dot_and_letters text.now }
{
    match text {
        [] => false,
        [_, letters @ ..] => !letters.is_empty() && are(Letters::Future, letters),
    }
}

fn is_port(text: &[u8]) -> bool
    ensures { result ≡ is_port text.now }
{
    match text {
        [] => true,
        [b':', digits @ ..] => are(Letters::Digit, digits),
        _ => false,
    }
}

/// Whether there is a colon before the first `/`.
fn has_colon_first(path: &[u8]) -> bool
    ensures { result ≡ has_colon_first path.now }
{
    for c in path {
        if *c == b'/' {
            return false;
        }
        if *c == b':' {
            return true;
        }
    }
    false
}
