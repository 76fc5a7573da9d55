//! The names of groups in regular expressions.
ghost use Rattle.std.specs.List.{list_any};
ghost use Rattle.std.specs.Option.{option_map_or};
ghost use Rattle.std.specs.Prelude.{◌≡◌, ◌<◌, ◌∷◌, [], length, IfSome};
ghost use Rattle.text_ecma_regexp.specs.Identifiers.{is_letter, is_mark, is_other_start, is_other_part, is_within};
ghost use Rattle.text_ecma_regexp.specs.Identifiers.{is_id_start, is_id_part};
ghost use Rattle.text_ecma_regexp.specs.Regex.{is_start, is_part, name_character, are_parts, is_name};
ghost use Rattle.text_ecma_regexp.specs.Regex.{name_value, is_same_name, are_distinct};
ghost use Rattle.text_ecma_regexp.specs.Scan.{is_in_named, left_of, found, texts};
ghost use Rattle.text_categories.specs.Categories.{named};

use crate::escape::{character, unicode_front};
use crate::newer::{NEWER_PARTS, NEWER_STARTS};
use text_categories::Category;

/// Whether the character is a letter or a letter number.
fn is_letter(n: u32) -> bool
    ensures { result ≡ is_letter n }
{
    let Some(c) = char::from_u32(n) else {
        return false;
    };
    is_in('L', None, c) || is_in('N', Some('l'), c)
}

/// Whether the character is a mark, a digit or a connector.
fn is_mark(n: u32) -> bool
    ensures { result ≡ is_mark n }
{
    let Some(c) = char::from_u32(n) else {
        return false;
    };
    is_in('M', Some('n'), c)
        || is_in('M', Some('c'), c)
        || is_in('N', Some('d'), c)
        || is_in('P', Some('c'), c)
}

fn is_in(group: char, letter: Option<char>, c: char) -> bool
    ensures { result ≡ is_in_named (named group letter) c }
{
    match Category::named(group, letter) {
        Some(category) => category.contains(c),
        None => false,
    }
}

/// Whether the character has `Other_ID_Start`.
fn is_other_start(n: u32) -> bool
    ensures { result ≡ is_other_start n }
{
    matches!(n, 0x1885..=0x1886 | 0x2118 | 0x212E | 0x309B..=0x309C)
}

/// Whether the character has `Other_ID_Continue`.
fn is_other_part(n: u32) -> bool
    ensures { result ≡ is_other_part n }
{
    matches!(n, 0xB7 | 0x387 | 0x1369..=0x1371)
        || matches!(n, 0x19DA | 0x200C..=0x200D | 0x30FB | 0xFF65)
}

fn is_within_any(ranges: &[(u32, u32)], n: u32) -> bool
    ensures { result ≡ list_any (is_within n) ranges.now }
{
    ranges.iter().any(|range| is_within(n, *range))
}

fn is_within(n: u32, range: (u32, u32)) -> bool
    ensures { result ≡ is_within n range }
{
    range.0 <= n && n <= range.1
}

/// Whether the character has `ID_Start`.
#[tactic(auto, unfolding(crate::specs::Identifiers::is_id_start))]
fn is_id_start(n: u32) -> bool
    ensures { result ≡ is_id_start n }
{
    (is_letter(n) && n != 0x2E2F) || is_other_start(n) || is_within_any(&NEWER_STARTS, n)
}

/// Whether the character has `ID_Continue`.
#[tactic(auto, unfolding(crate::specs::Identifiers::is_id_part))]
fn is_id_part(n: u32) -> bool
    ensures { result ≡ is_id_part n }
{
    is_id_start(n) || is_mark(n) || is_other_part(n) || is_within_any(&NEWER_PARTS, n)
}

/// Whether a name may begin with the character.
fn is_start(n: u32) -> bool
    ensures { result ≡ is_start n }
{
    n == 36 || n == 95 || is_id_start(n)
}

/// Whether the character may be in a name.
fn is_part(n: u32) -> bool
    ensures { result ≡ is_part n }
{
    n == 36 || n == 0x200C || n == 0x200D || is_id_part(n)
}

/// The character at the front of a name, as itself or as an escape, and what follows.
fn name_character(text: &[u8]) -> Option<(u32, &[u8])>
    ensures { found result ≡ name_character text.now }
{
    match text {
        [b'\\', b'u', rest @ ..] => unicode_front(rest),
        _ => character(text),
    }
}

#[tactic(auto, using(crate::proofs::Regexes::parts_opened))]
fn are_parts(text: &[u8]) -> bool
    ensures { result ≡ are_parts (length text.now) text.now }
{
    let mut rest = text;
    let mut left = text.len();
    while left > 0 {
        if rest.is_empty() {
            return true;
        }
        let Some((n, more)) = name_character(rest) else {
            return false;
        };
        if !is_part(n) {
            return false;
        }
        rest = more;
        left -= 1;
    }
    rest.is_empty()
}

pub(crate) fn is_name(text: &[u8]) -> bool
    ensures { result ≡ is_name text.now }
{
    match name_character(text) {
        Some((n, rest)) => is_start(n) && are_parts(rest),
        None => false,
    }
}

/// The characters of a name that are left.
#[derive(Drop)]
struct Characters<'t> {
    rest: &'t [u8],
    /// A bound on how many they are.
    left: usize,
}

impl<'t> Characters<'t> {
    fn of_name(name: &'t [u8]) -> Characters<'t>
        ensures { left_of result ≡ name_value (length name.now) name.now }
    {
        Characters {
            rest: name,
            left: name.len(),
        }
    }

    #[tactic(auto, using(crate::proofs::Regexes::value_opened))]
    fn next(&mut self) -> Option<u32>
        ensures value { left_of self.old ≡ option_map_or (λ n. n ∷ left_of self.new) result [] }
        ensures shorter { IfSome result (λ n. self.new.left < self.old.left) }
    {
        if self.left == 0 {
            return None;
        }
        let (n, rest) = name_character(self.rest)?;
        self.rest = rest;
        self.left -= 1;
        Some(n)
    }
}

/// Whether the names have the same characters.
fn is_same_name(name: &[u8], other: &[u8]) -> bool
    ensures { result ≡ is_same_name name.now other.now }
{
    let mut name = Characters::of_name(name);
    let mut other = Characters::of_name(other);
    while let Some(n) = name.next() {
        if other.next() != Some(n) {
            return false;
        }
    }
    other.next().is_none()
}

/// Whether the name is among these.
pub(crate) fn has_name(names: &[&[u8]], name: &[u8]) -> bool
    ensures { result ≡ list_any (is_same_name name.now) (texts names.now) }
{
    let mut rest = names;
    while let [other, more @ ..] = rest {
        if is_same_name(name, other) {
            return true;
        }
        rest = more;
    }
    false
}

/// Whether the names differ.
pub(crate) fn are_distinct(names: &[&[u8]]) -> bool
    ensures { result ≡ are_distinct (texts names.now) }
{
    let mut rest = names;
    while let [name, more @ ..] = rest {
        if has_name(more, name) {
            return false;
        }
        rest = more;
    }
    true
}
