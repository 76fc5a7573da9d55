//! The quantifiers of regular expressions.
ghost use Rattle.std.specs.Prelude.{◌≡◌, true, nat_le};
ghost use Rattle.text_ecma_regexp.specs.Regex.{number, most_front, bounds_end, prefix_front, after_sign};
ghost use Rattle.text_ecma_regexp.specs.Regex.{after_quantifier};
ghost use Rattle.text_ecma_regexp.specs.Scan.{are_digits, without_zeros, ordered, at_most, now};

use crate::letters::{End, after_brace};
use text_uri::cut;

/// The digits without zeros at their front.
fn without_zeros(digits: &[u8]) -> &[u8]
    ensures { result.now ≡ without_zeros digits.now }
{
    let mut rest = digits;
    while let [b'0', more @ ..] = rest {
        rest = more;
    }
    rest
}

/// Whether the digits, of which there are as many, are in the order of their numbers.
fn is_ordered(least: &[u8], most: &[u8]) -> bool
    ensures { result ≡ ordered least.now most.now }
{
    let mut least = least;
    let mut most = most;
    while let Some((c, more)) = least.split_first() {
        let Some((d, others)) = most.split_first() else {
            return false;
        };
        if *c != *d {
            return *c < *d;
        }
        least = more;
        most = others;
    }
    true
}

/// As `is_at_most`, of any texts.
fn at_most(least: &[u8], most: &[u8]) -> bool
    ensures { result ≡ at_most least.now most.now }
{
    let least = without_zeros(least);
    let most = without_zeros(most);
    if least.len() == most.len() {
        return is_ordered(least, most);
    }
    least.len() < most.len()
}

/// Whether the number of the digits is at most the other one.
fn is_at_most(least: &[u8], most: &[u8]) -> bool
    requires least { are_digits least.now ≡ true }
    requires most { are_digits most.now ≡ true }
    ensures { result ≡ nat_le (number 0 least.now) (number 0 most.now) }
{
    at_most(least, most)
}

/// What follows a comma's number and the brace, if the number is there and at least this one.
#[tactic(auto, using(crate::proofs::Digits::digits_cut))]
fn most_front<'t>(least: &[u8], text: &'t [u8]) -> Option<&'t [u8]>
    requires { are_digits least.now ≡ true }
    ensures { now result ≡ most_front least.now text.now }
{
    let (most, rest) = cut(text, End::Digits);
    if !most.is_empty() && !is_at_most(least, most) {
        return None;
    }
    after_brace(rest)
}

/// What follows the rest of the bounds, behind this number.
fn bounds_end<'t>(least: &[u8], text: &'t [u8]) -> Option<&'t [u8]>
    requires { are_digits least.now ≡ true }
    ensures { now result ≡ bounds_end least.now text.now }
{
    if least.is_empty() {
        return None;
    }
    match text {
        [b',', rest @ ..] => most_front(least, rest),
        _ => after_brace(text),
    }
}

/// What follows a quantifier, without the `?` that may follow it.
#[tactic(auto, using(crate::proofs::Digits::digits_cut))]
fn prefix_front(text: &[u8]) -> Option<&[u8]>
    ensures { now result ≡ prefix_front text.now }
{
    let (sign, rest) = text.split_first()?;
    match *sign {
        b'*' | b'+' | b'?' => Some(rest),
        b'{' => {
            let (least, rest) = cut(rest, End::Digits);
            bounds_end(least, rest)
        }
        _ => None,
    }
}

fn after_sign(text: &[u8]) -> &[u8]
    ensures { result.now ≡ after_sign text.now }
{
    match text {
        [b'?', rest @ ..] => rest,
        _ => text,
    }
}

/// What follows the quantifier at the front, if there is one.
pub(crate) fn after_quantifier(text: &[u8]) -> &[u8]
    ensures { result.now ≡ after_quantifier text.now }
{
    match prefix_front(text) {
        Some(rest) => after_sign(rest),
        None => text,
    }
}
