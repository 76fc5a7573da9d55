//! The parts of a reference.
ghost use Rattle.std.specs.Prelude.{◌≡◌, ◌++◌, IfOk, OnOk};
ghost use Rattle.std.specs.String.{string_bytes};
ghost use Rattle.text_uri.specs.Parts.{cut_scheme, cut_marked, split, composed};
ghost use Rattle.text_uri.specs.Parts.{is_scheme, is_letter};
ghost use Rattle.text_uri.specs.Parts.{is_scheme_letter, are_scheme_letters};
ghost use Rattle.text_uri.specs.Parts.{marked, scheme_text};
ghost use Rattle.text_uri.specs.Splitting.{ends, now, cut_now, parts_of};

use crate::cutting::{End, after, cut_text};
use std::alloc::{AllocError, Global};

/// The parts of a reference.
#[derive(Clone, Copy)]
pub(crate) struct Reference<'t> {
    pub(crate) scheme: Option<&'t str>,
    pub(crate) authority: Option<&'t str>,
    pub(crate) path: &'t str,
    pub(crate) query: Option<&'t str>,
    pub(crate) fragment: Option<&'t str>,
}

/// The parts of a text (RFC 3986, appendix B).
pub(crate) fn split(text: &str) -> Reference<'_>
    ensures { parts_of result ≡ split text.now }
{
    let (scheme, rest) = cut_scheme(text);
    let (authority, rest) = cut_marked("//", rest, End::Authority);
    let (path, rest) = cut_text(rest, End::Path);
    let (query, rest) = cut_marked("?", rest, End::Query);
    let fragment = after("#", rest);
    Reference {
        scheme,
        authority,
        path,
        query,
        fragment,
    }
}

fn cut_scheme(text: &str) -> (Option<&str>, &str)
    ensures { cut_now result ≡ cut_scheme text.now }
{
    let (front, rest) = cut_text(text, End::Scheme);
    match after(":", rest) {
        Some(rest) if is_scheme(front.as_bytes()) => (Some(front), rest),
        _ => (None, text),
    }
}

/// Whether it is a letter, and then letters, digits, `+`, `-` and `.`.
fn is_scheme(front: &[u8]) -> bool
    ensures { result ≡ is_scheme front.now }
{
    match front.split_first() {
        Some((first, more)) => is_letter(*first) && are_scheme_letters(more),
        None => false,
    }
}

fn are_scheme_letters(bytes: &[u8]) -> bool
    ensures { result ≡ are_scheme_letters bytes.now }
{
    for byte in bytes {
        if !is_scheme_letter(*byte) {
            return false;
        }
    }
    true
}

fn is_letter(byte: u8) -> bool
    ensures { result ≡ is_letter byte }
{
    matches!(byte, b'A'..=b'Z' | b'a'..=b'z')
}

fn is_scheme_letter(byte: u8) -> bool
    ensures { result ≡ is_scheme_letter byte }
{
    is_letter(byte) || matches!(byte, b'0'..=b'9' | b'+' | b'-' | b'.')
}

/// The part after a mark, if the text begins with the mark, and the rest.
fn cut_marked<'t>(mark: &str, text: &'t str, end: End) -> (Option<&'t str>, &'t str)
    ensures { cut_now result ≡ cut_marked mark.now (ends end) text.now }
{
    match after(mark, text) {
        Some(rest) => {
            let (part, rest) = cut_text(rest, end);
            (Some(part), rest)
        }
        None => (None, text),
    }
}

/// The text of the parts (RFC 3986, section 5.3).
pub(crate) fn compose(
    alloc: Global,
    scheme: Option<&str>,
    authority: Option<&str>,
    path: &str,
    query: Option<&str>,
    fragment: Option<&str>,
) -> Result<String, AllocError>
    ensures { IfOk result (λ s. string_bytes s ≡ composed (record {
      scheme = now scheme.entry;
      authority = now authority.entry;
      path = path.now;
      query = now query.entry;
      fragment = now fragment.entry;
    })) }
{
    let mut text = String::new(alloc);
    push_scheme(&mut text, scheme)?;
    push_marked(&mut text, "//", authority)?;
    text.push_str(path)?;
    push_marked(&mut text, "?", query)?;
    push_marked(&mut text, "#", fragment)?;
    Ok(text)
}

fn push_scheme(text: &mut String, scheme: Option<&str>) -> Result<(), AllocError>
    ensures { OnOk result
        (string_bytes text.new ≡ string_bytes text.old ++ scheme_text (now scheme.entry)) }
{
    match scheme {
        Some(scheme) => {
            text.push_str(scheme)?;
            text.push_str(":")
        }
        None => Ok(()),
    }
}

fn push_marked(text: &mut String, mark: &str, part: Option<&str>) -> Result<(), AllocError>
    ensures { OnOk result
        (string_bytes text.new ≡ string_bytes text.old ++ marked mark.now (now part.entry)) }
{
    match part {
        Some(part) => {
            text.push_str(mark)?;
            text.push_str(part)
        }
        None => Ok(()),
    }
}
