//! Regular expressions.
ghost use Rattle.std.specs.Prelude.{◌≡◌, ◌≤◌, [], nat_le, length};
ghost use Rattle.text_ecma_regexp.specs.Regex.{is_regex, is_disjunction, step, opened, closed, group_front};
ghost use Rattle.text_ecma_regexp.specs.Regex.{kind_front, named_front, term_front, after_backslash};
ghost use Rattle.text_ecma_regexp.specs.Regex.{atom_escape, decimal_front, reference_front, number};
ghost use Rattle.text_ecma_regexp.specs.Scan.{found, groups_of, led, now, texts};

use crate::captures::{MOST, after_name, count, group_name, take_names};
use crate::class::class_front;
use crate::escape::{is_syntax, set_or_character};
use crate::letters::End;
use crate::names::{are_distinct, has_name, is_name};
use crate::quantifier::after_quantifier;
use text_uri::cut;

/// The groups that are open: whether each may have a quantifier.
#[derive(Drop)]
struct Groups {
    kinds: [bool; MOST],
    depth: usize,
}

/// Whether the text is a regular expression: `Pattern` of ECMA-262, 15th edition, 22.2.1, of a `RegExp`
/// with the flag `u`. Groups are nested at most 128 deep, and at most 128 have names. Names differ,
/// also where escapes write them: `a` and `\u0061` are the same.
///
/// ```
/// assert!(rt; is_regex(r"(?<year>\d{4})-\k<year>"));
/// assert!(rt; !is_regex(r"^\S\Z"));
/// ```
pub fn is_regex(text: &str) -> bool
    ensures { result ≡ is_regex text.now }
{
    let bytes = text.as_bytes();
    let mut names: [&[u8]; MOST] = [b""; MOST];
    let Some(named) = take_names(bytes, &mut names) else {
        return false;
    };
    let names = &names[..named];
    are_distinct(names) && is_disjunction(count(bytes), names, bytes)
}

#[tactic(auto, using(crate::proofs::Regexes::disjunction_opened))]
fn is_disjunction(count: usize, names: &[&[u8]], text: &[u8]) -> bool
    ensures { result ≡ is_disjunction count (texts names.now) (length text.now) [] text.now }
{
    let mut groups = Groups {
        kinds: [false; MOST],
        depth: 0,
    };
    let mut rest = text;
    let mut left = text.len();
    while left > 0 {
        let Some(more) = step(count, names, &mut groups, rest) else {
            return false;
        };
        rest = more;
        left -= 1;
    }
    rest.is_empty() && groups.depth == 0
}

/// What follows the part at the front, in a pattern of that many groups, with these names.
fn step<'t>(count: usize, names: &[&[u8]], groups: &mut Groups, text: &'t [u8]) -> Option<&'t [u8]>
    requires depth { groups.old.depth ≤ 128 }
    ensures value { led groups.new result
        ≡ step count (texts names.now) (groups_of groups.old) text.now }
    ensures depth { groups.new.depth ≤ 128 }
{
    let Some((c, rest)) = text.split_first() else {
        return Some(text);
    };
    match *c {
        b'(' => open_group(groups, rest),
        b')' => close_group(groups, rest),
        c => term_front(count, names, c, rest),
    }
}

/// What follows the begin of a group, which is open then.
#[tactic(auto, using(crate::proofs::Groups::stack_more, crate::proofs::Groups::stack_length))]
fn open_group<'t>(groups: &mut Groups, text: &'t [u8]) -> Option<&'t [u8]>
    requires depth { groups.old.depth ≤ 128 }
    ensures value { led groups.new result ≡ opened (groups_of groups.old) text.now }
    ensures depth { groups.new.depth ≤ 128 }
{
    if groups.depth == MOST {
        return None;
    }
    let (quantifiable, rest) = group_front(text)?;
    groups.kinds[groups.depth] = quantifiable;
    groups.depth += 1;
    Some(rest)
}

/// What follows the end of the innermost group, and its quantifier.
#[tactic(auto, using(crate::proofs::Groups::stack_opened))]
fn close_group<'t>(groups: &mut Groups, text: &'t [u8]) -> Option<&'t [u8]>
    requires depth { groups.old.depth ≤ 128 }
    ensures value { led groups.new result ≡ closed (groups_of groups.old) text.now }
    ensures depth { groups.new.depth ≤ 128 }
{
    if groups.depth == 0 {
        return None;
    }
    groups.depth -= 1;
    if groups.kinds[groups.depth] {
        return Some(after_quantifier(text));
    }
    Some(text)
}

/// What follows the begin of a group, behind its parenthesis; whether it may have a quantifier.
fn group_front(text: &[u8]) -> Option<(bool, &[u8])>
    ensures { found result ≡ group_front text.now }
{
    match text {
        [b'?', rest @ ..] => kind_front(rest),
        _ => Some((true, text)),
    }
}

fn kind_front(text: &[u8]) -> Option<(bool, &[u8])>
    ensures { found result ≡ kind_front text.now }
{
    match text {
        [b':', rest @ ..] => Some((true, rest)),
        [b'=' | b'!', rest @ ..] => Some((false, rest)),
        [b'<', b'=' | b'!', rest @ ..] => Some((false, rest)),
        _ => named_front(text),
    }
}

/// What follows the name of a group.
fn named_front(text: &[u8]) -> Option<(bool, &[u8])>
    ensures { found result ≡ named_front text.now }
{
    let name = group_name(text)?;
    if !is_name(name) {
        return None;
    }
    Some((true, after_name(text)?))
}

/// What follows a `|`, or a term that is no group.
fn term_front<'t>(count: usize, names: &[&[u8]], c: u8, text: &'t [u8]) -> Option<&'t [u8]>
    ensures { now result ≡ term_front count (texts names.now) c text.now }
{
    match c {
        b'|' | b'^' | b'$' => Some(text),
        b'\\' => after_backslash(count, names, text),
        b'[' => Some(after_quantifier(class_front(text)?)),
        _ if c == b'.' || !is_syntax(c) => Some(after_quantifier(text)),
        _ => None,
    }
}

/// What follows an assertion, or an escape and its quantifier.
fn after_backslash<'t>(count: usize, names: &[&[u8]], text: &'t [u8]) -> Option<&'t [u8]>
    ensures { now result ≡ after_backslash count (texts names.now) text.now }
{
    match text.split_first() {
        Some((b'b' | b'B', rest)) => Some(rest),
        _ => Some(after_quantifier(atom_escape(count, names, text)?)),
    }
}

/// What follows an escape, behind its backslash.
fn atom_escape<'t>(count: usize, names: &[&[u8]], text: &'t [u8]) -> Option<&'t [u8]>
    ensures { now result ≡ atom_escape count (texts names.now) text.now }
{
    let (c, rest) = text.split_first()?;
    match *c {
        b'1'..=b'9' => decimal_front(count, text),
        b'k' => reference_front(names, rest),
        _ => Some(set_or_character(text)?.1),
    }
}

/// What follows a number that is at most the count.
fn decimal_front(count: usize, text: &[u8]) -> Option<&[u8]>
    ensures { now result ≡ decimal_front count text.now }
{
    let (digits, rest) = cut(text, End::Digits);
    if is_number_to(count, digits) {
        Some(rest)
    } else {
        None
    }
}

/// Whether the number of the digits is at most the count.
#[tactic(auto, using(crate::proofs::Regexes::number_grows))]
fn is_number_to(count: usize, digits: &[u8]) -> bool
    ensures { result ≡ nat_le (number 0 digits.now) count }
{
    let most = count as u128;
    let mut n: u128 = 0;
    let mut rest = digits;
    while let Some((c, more)) = rest.split_first() {
        n = 10 * n + u128::from(c.saturating_sub(b'0'));
        if n > most {
            return false;
        }
        rest = more;
    }
    n <= most
}

/// What follows the name of a group of the pattern.
fn reference_front<'t>(names: &[&[u8]], text: &'t [u8]) -> Option<&'t [u8]>
    ensures { now result ≡ reference_front (texts names.now) text.now }
{
    let name = group_name(text)?;
    if is_name(name) && has_name(names, name) {
        after_name(text)
    } else {
        None
    }
}
