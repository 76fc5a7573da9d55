//! The names of the groups of a schema's pattern.
ghost use Rattle.std.specs.Prelude.{◌≡◌, IfOk};
ghost use Rattle.text_iregexp.specs.Patterns.{begins_name, is_name_part, are_name_parts};
ghost use Rattle.text_iregexp.specs.Patterns.{is_group_name, is_same, is_among};
ghost use Rattle.text_iregexp.specs.PatternFronts.{NameFront, named_front, TakesName, names_of};

use crate::error::IRegexpErrorKind;
use crate::letter::name;
use crate::mark::{Mark, next_mark};
use crate::token::{Token, is_digit};
use std::alloc::{AllocError, Global};

/// Whether the character may begin a name.
pub(crate) fn begins_name(c: char) -> bool
    ensures { result ≡ begins_name c }
{
    'A' <= c && c <= 'Z' || 'a' <= c && c <= 'z' || c == '$' || c == '_'
}

/// Whether the character may follow in a name.
pub(crate) fn is_name_part(c: char) -> bool
    ensures { result ≡ is_name_part c }
{
    begins_name(c) || is_digit(c)
}

/// Whether all these characters may follow in a name.
fn are_name_parts(text: &[char]) -> bool
    ensures { result ≡ are_name_parts text.now }
{
    let mut rest = text;
    while let Some((first, after)) = rest.split_first() {
        if !is_name_part(*first) {
            return false;
        }
        rest = after;
    }
    true
}

/// Whether the text is the name of a group.
fn is_group_name(text: &[char]) -> bool
    ensures { result ≡ is_group_name text.now }
{
    let Some((first, rest)) = text.split_first() else {
        return false;
    };
    begins_name(*first) && are_name_parts(rest)
}

/// The name of the group that begins there, and the text after its `>`.
fn named(text: &[char]) -> Option<(&[char], &[char])>
    ensures { NameFront (named_front text.now) result }
{
    let ['(', '?', '<', rest @ ..] = text else {
        return None;
    };
    let (found, after) = name('>', rest)?;
    if !is_group_name(found) {
        return None;
    }
    Some((found, after))
}

/// Whether both names are the same.
fn is_same(first: &[char], second: &[char]) -> bool
    ensures { result ≡ is_same first.now second.now }
{
    let mut left = first;
    let mut right = second;
    while let Some((one, ones)) = left.split_first() {
        let Some((other, others)) = right.split_first() else {
            return false;
        };
        if *one != *other {
            return false;
        }
        left = ones;
        right = others;
    }
    right.is_empty()
}

/// Whether the name is one of these.
fn is_among(names: &[Vec<char>], wanted: &[char]) -> bool
    ensures { result ≡ is_among (names_of names.now) wanted.now }
{
    let mut rest = names;
    while let Some((first, after)) = rest.split_first() {
        if is_same(first.as_slice(), wanted) {
            return true;
        }
        rest = after;
    }
    false
}

/// A copy of the text.
fn copy(alloc: Global, text: &[char]) -> Result<Vec<char>, AllocError>
    ensures { IfOk result (λ v. v.items ≡ text.now) }
{
    let mut all = Vec::new(alloc);
    all.extend_from_slice(text)?;
    Ok(all)
}

/// The first mark of a text, and the text after it. If it begins a group with a name, this is added
/// to the names before it, none of which it may be.
pub(crate) fn next_named<'t>(
    alloc: Global,
    text: &'t [char],
    names: &mut Vec<Vec<char>>,
) -> Result<(Mark, &'t [char]), IRegexpErrorKind>
    ensures { TakesName text.now (names_of names.old.items) result (names_of names.new.items) }
{
    let Some((found, after)) = named(text) else {
        return next_mark(alloc, text);
    };
    if is_among(names.as_slice(), found) {
        return Err(IRegexpErrorKind::Invalid);
    }
    let kept = copy(alloc, found)?;
    names.push(kept)?;
    Ok((Mark::Token(Token::Open), after))
}
