//! The classes of characters in regular expressions.
ghost use Rattle.std.specs.Prelude.{◌≡◌, codes, length};
ghost use Rattle.text_ecma_regexp.specs.Regex.{class_escape, atom_front, is_range, begins_range, range_end, member_front};
ghost use Rattle.text_ecma_regexp.specs.Regex.{members, class_front};
ghost use Rattle.text_ecma_regexp.specs.Scan.{found, now};
ghost use Rattle.text_uri.specs.Letters.{after};

use crate::escape::{character, set_or_character};

fn class_escape(text: &[u8]) -> Option<(Option<u32>, &[u8])>
    ensures { found result ≡ class_escape text.now }
{
    let (c, rest) = text.split_first()?;
    match *c {
        b'b' => Some((Some(8), rest)),
        b'-' => Some((Some(45), rest)),
        _ => set_or_character(text),
    }
}

/// A character, or a set, which has no value.
fn atom_front(text: &[u8]) -> Option<(Option<u32>, &[u8])>
    ensures { found result ≡ atom_front text.now }
{
    if let Some((b'\\', rest)) = text.split_first() {
        return class_escape(rest);
    }
    let (n, rest) = character(text)?;
    Some((Some(n), rest))
}

/// Whether the atoms are two characters in order.
fn is_range(first: Option<u32>, last: Option<u32>) -> bool
    ensures { result ≡ is_range first last }
{
    match (first, last) {
        (Some(n), Some(m)) => n <= m,
        _ => false,
    }
}

/// Whether the text begins with a `-`, and not the last of a class.
fn begins_range(text: &[u8]) -> bool
    ensures { result ≡ begins_range text.now }
{
    match text {
        [b'-', b']', ..] => false,
        [b'-', ..] => true,
        _ => false,
    }
}

/// What follows the `-` and the last character of a range.
fn range_end(first: Option<u32>, text: &[u8]) -> Option<&[u8]>
    ensures { now result ≡ range_end first text.now }
{
    let (_, rest) = text.split_first()?;
    let (last, rest) = atom_front(rest)?;
    if is_range(first, last) {
        Some(rest)
    } else {
        None
    }
}

/// What follows an atom or a range.
fn member_front(text: &[u8]) -> Option<&[u8]>
    ensures { now result ≡ member_front text.now }
{
    let (first, rest) = atom_front(text)?;
    if begins_range(rest) {
        return range_end(first, rest);
    }
    Some(rest)
}

fn after_bracket(text: &[u8]) -> Option<&[u8]>
    ensures { now result ≡ after (codes "]") text.now }
{
    match text {
        [b']', rest @ ..] => Some(rest),
        _ => None,
    }
}

/// What follows the members of a class and its bracket.
#[tactic(auto, using(crate::proofs::Regexes::members_opened))]
fn members(text: &[u8]) -> Option<&[u8]>
    ensures { now result ≡ members (length text.now) text.now }
{
    let mut rest = text;
    let mut left = text.len();
    while left > 0 {
        if let Some(after) = after_bracket(rest) {
            return Some(after);
        }
        rest = member_front(rest)?;
        left -= 1;
    }
    None
}

/// What follows a class, behind its first bracket.
pub(crate) fn class_front(text: &[u8]) -> Option<&[u8]>
    ensures { now result ≡ class_front text.now }
{
    match text {
        [b'^', rest @ ..] => members(rest),
        _ => members(text),
    }
}
