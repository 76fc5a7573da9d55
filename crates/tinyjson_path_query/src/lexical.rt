//! Blanks, names and integers.
ghost use Rattle.std.specs.Prelude.{◌≡◌, ◌<◌, ◌≤◌, ◌++◌, ◌∷◌, [], IfOk, IfErr, string_bytes};
ghost use Rattle.tinyjson.specs.Characters.{is_white, text};
ghost use Rattle.tinyjson_path_query.specs.Fronts.{begins_int, magnitude_front, int_front, behind, behind_both};
ghost use Rattle.tinyjson_path_query.specs.Fronts.{behind_word, is_quote};
ghost use Rattle.tinyjson_path_query.specs.Grammar.{after_blanks, is_name_first, is_name_char, name_chars};
ghost use Rattle.tinyjson_path_query.specs.Grammar.{is_digit, is_number_char, number_chars, greatest_exact};
ghost use Rattle.tinyjson_path_query.specs.Reading.{FrontsAs, IsRest, PushesName, PushesNumber};
ghost use Rattle.tinyjson_path_query.specs.declared.refusal.Cause.{Cause};

use crate::refusal::{Cause, Refusal};
use std::alloc::AllocError;

/// The greatest integer of the interoperable range: it and all smaller ones are exact in a double (RFC 9535,
/// 2.1).
const GREATEST_EXACT: u64 = 9_007_199_254_740_991;

/// The text after the blanks.
pub(crate) fn after_blanks(text: &[char]) -> &[char]
    ensures { result.now ≡ after_blanks text.now }
{
    let mut rest = text;
    while let Some((first, after)) = rest.split_first() {
        if !is_blank(*first) {
            return rest;
        }
        rest = after;
    }
    rest
}

fn is_blank(c: char) -> bool
    ensures { result ≡ is_white c }
{
    matches!(c, ' ' | '\t' | '\n' | '\r')
}

/// Whether the character may begin a name without quotes.
pub(crate) fn is_name_first(c: char) -> bool
    ensures { result ≡ is_name_first c }
{
    matches!(c, 'A'..='Z' | 'a'..='z' | '_') || c >= '\u{80}'
}

fn is_name_char(c: char) -> bool
    ensures { result ≡ is_name_char c }
{
    is_name_first(c) || is_digit(c)
}

pub(crate) fn is_digit(c: char) -> bool
    ensures { result ≡ is_digit c }
{
    '0' <= c && c <= '9'
}

/// Whether the character occurs in numbers.
pub(crate) fn is_number_char(c: char) -> bool
    ensures { result ≡ is_number_char c }
{
    is_digit(c) || c == '-' || c == '+' || c == '.' || c == 'e' || c == 'E'
}

pub(crate) fn is_quote(c: char) -> bool
    ensures { result ≡ is_quote c }
{
    c == '"' || c == '\''
}

/// The text after the sign, if it begins with it.
pub(crate) fn behind(sign: char, text: &[char]) -> Option<&[char]>
    ensures { IsRest (behind sign text.now) result }
{
    let (first, rest) = text.split_first()?;
    if *first == sign { Some(rest) } else { None }
}

/// The text after the sign and blanks, if it begins with the sign twice.
pub(crate) fn behind_both(sign: char, text: &[char]) -> Option<&[char]>
    ensures { IsRest (behind_both sign text.now) result }
{
    let second = behind(sign, text)?;
    let rest = behind(sign, second)?;
    Some(after_blanks(rest))
}

/// The text after the word, if it begins with it.
pub(crate) fn behind_word<'t>(word: &[char], text: &'t [char]) -> Option<&'t [char]>
    ensures { IsRest (behind_word word.now text.now) result }
{
    let mut letters = word;
    let mut rest = text;
    while let Some((letter, others)) = letters.split_first() {
        rest = behind(*letter, rest)?;
        letters = others;
    }
    Some(rest)
}

/// Whether the text begins with an integer.
pub(crate) fn begins_integer(text: &[char]) -> bool
    ensures { result ≡ begins_int text.now }
{
    let Some((first, _)) = text.split_first() else {
        return false;
    };
    *first == '-' || is_digit(*first)
}

/// Appends a character.
pub(crate) fn push(string: &mut String, c: char) -> Result<(), AllocError>
    ensures { IfOk result (λ _. text string.new ≡ text string.old ++ c ∷ []) }
{
    string.push(c)
}

/// Appends the characters of a name, and returns the text after them.
pub(crate) fn push_name_chars<'t>(
    name: &mut String,
    all: &'t [char],
) -> Result<&'t [char], AllocError>
    ensures { IfOk result (λ rest. PushesName (text name.old) all.now (text name.new) rest.now) }
{
    let mut rest = all;
    while let Some((first, after)) = rest.split_first() {
        if !is_name_char(*first) {
            return Ok(rest);
        }
        push(name, *first)?;
        rest = after;
    }
    Ok(rest)
}

/// Appends the characters of a number, and returns the text after them.
pub(crate) fn push_number_chars<'t>(
    number: &mut String,
    all: &'t [char],
) -> Result<&'t [char], AllocError>
    ensures { IfOk result (λ rest.
        PushesNumber (string_bytes number.old) all.now (string_bytes number.new) rest.now) }
{
    let mut rest = all;
    while let Some((first, after)) = rest.split_first() {
        if !is_number_char(*first) {
            return Ok(rest);
        }
        push_ascii(number, *first)?;
        rest = after;
    }
    Ok(rest)
}

/// Appends an ASCII character.
fn push_ascii(string: &mut String, c: char) -> Result<(), AllocError>
    requires { c < 128 }
    ensures { IfOk result (λ _. string_bytes string.new ≡ string_bytes string.old ++ c ∷ []) }
{
    string.push(c)
}

/// Parses an integer.
pub(crate) fn integer(text: &[char]) -> Result<(i64, &[char]), Refusal>
    ensures { FrontsAs (int_front text.now) result }
{
    let Some((first, rest)) = text.split_first() else {
        return Err(Refusal::at(Cause::Integer, text));
    };
    if *first == '0' {
        return Ok((0, rest));
    }
    if *first == '-' {
        let (magnitude, after) = magnitude(rest)?;
        return Ok((-(magnitude as i64), after));
    }
    let (magnitude, after) = magnitude(text)?;
    Ok((magnitude as i64, after))
}

/// Parses an integer without a sign, other than 0.
pub(crate) fn magnitude(text: &[char]) -> Result<(u64, &[char]), Refusal>
    ensures read { FrontsAs (magnitude_front text.now) result }
    ensures exact { IfOk result (λ r. r.0 ≤ greatest_exact) }
    ensures cause { IfErr result (λ e. e.cause ≡ Cause.Integer) }
{
    let Some((first, after)) = text.split_first() else {
        return Err(Refusal::at(Cause::Integer, text));
    };
    if *first == '0' || !is_digit(*first) {
        return Err(Refusal::at(Cause::Integer, text));
    }
    let mut value = *first as u64 - '0' as u64;
    let mut rest = after;
    while let Some((next, after)) = rest.split_first() {
        if !is_digit(*next) {
            break;
        }
        value = 10 * value + (*next as u64 - '0' as u64);
        if value > GREATEST_EXACT {
            return Err(Refusal::at(Cause::Integer, text));
        }
        rest = after;
    }
    Ok((value, rest))
}
