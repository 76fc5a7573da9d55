//! The capturing groups of regular expressions, and their names.
ghost use Rattle.std.specs.Prelude.{◌≡◌, ◌<◌, ◌≤◌, length, take, option_map, IfSome};
ghost use Rattle.text_ecma_regexp.specs.Letters.{begins};
ghost use Rattle.text_ecma_regexp.specs.Regex.{group_name, after_name, is_look_sign, is_capturing, captures, capture_name, is_inside};
ghost use Rattle.text_ecma_regexp.specs.Regex.{names};
ghost use Rattle.text_ecma_regexp.specs.Scan.{unrolled, few, now, texts};

use crate::letters::End;
use text_uri::cut;

/// The most groups that may be nested, and the most names.
pub(crate) const MOST: usize = 128;

/// The name that is between the signs, if the first is there.
pub(crate) fn group_name(text: &[u8]) -> Option<&[u8]>
    ensures { now result ≡ group_name text.now }
{
    match text {
        [b'<', rest @ ..] => Some(cut(rest, End::Greater).0),
        _ => None,
    }
}

/// What follows a name between the signs.
pub(crate) fn after_name(text: &[u8]) -> Option<&[u8]>
    ensures { now result ≡ after_name text.now }
{
    let [b'<', rest @ ..] = text else {
        return None;
    };
    match cut(rest, End::Greater).1 {
        [b'>', after @ ..] => Some(after),
        _ => None,
    }
}

/// Whether the text begins with the sign of an assertion.
fn is_look(text: &[u8]) -> bool
    ensures { result ≡ begins is_look_sign text.now }
{
    matches!(text, [b'=' | b'!', ..])
}

/// Whether the text is behind the parenthesis of a capturing group.
fn is_capturing(text: &[u8]) -> bool
    ensures { result ≡ is_capturing text.now }
{
    match text {
        [b'?', b'<', rest @ ..] => !is_look(rest),
        [b'?', ..] => false,
        _ => true,
    }
}

/// Whether what follows the character is inside of a class.
fn is_inside(escaped: bool, inside: bool, c: u8) -> bool
    ensures { result ≡ is_inside escaped inside c }
{
    if escaped {
        return inside;
    }
    match c {
        b'[' => true,
        b']' => false,
        _ => inside,
    }
}

/// The text behind the parenthesis that begins the first capturing group.
fn next_capture(text: &[u8]) -> Option<&[u8]>
    ensures value { captures text.now ≡ unrolled result }
    ensures shorter { IfSome result (λ rest. length rest.now < length text.now) }
{
    let mut escaped = false;
    let mut inside = false;
    let mut rest = text;
    while let Some((c, more)) = rest.split_first() {
        if !escaped && !inside && *c == b'(' && is_capturing(more) {
            return Some(more);
        }
        inside = is_inside(escaped, inside, *c);
        escaped = !escaped && *c == b'\\';
        rest = more;
    }
    None
}

/// The number of capturing groups.
pub(crate) fn count(text: &[u8]) -> usize
    ensures { result ≡ length (captures text.now) }
{
    let mut count = 0;
    let mut rest = text;
    while let Some(more) = next_capture(rest) {
        count += 1;
        rest = more;
    }
    count
}

fn capture_name(text: &[u8]) -> Option<&[u8]>
    ensures { now result ≡ capture_name text.now }
{
    match text {
        [b'?', rest @ ..] => group_name(rest),
        _ => None,
    }
}

/// Takes the names of capturing groups, and returns how many there are, unless there are too many.
#[tactic(auto, using(crate::proofs::CaptureNames::names_none, crate::proofs::CaptureNames::names_end))]
pub(crate) fn take_names<'t>(text: &'t [u8], taken: &mut [&'t [u8]; MOST]) -> Option<usize>
    ensures value { option_map (λ n. texts (take n taken.new)) result
        ≡ few (names (captures text.now)) }
    ensures small { IfSome result (λ n. n ≤ length taken.new) }
{
    let mut named = 0;
    let mut rest = text;
    while let Some(more) = next_capture(rest) {
        if let Some(name) = capture_name(more) {
            if named == MOST {
                return None;
            }
            taken[named] = name;
            named += 1;
        }
        rest = more;
    }
    Some(named)
}
