//! Strings in quotes.
ghost use Rattle.std.specs.Prelude.{◌≡◌, ◌<◌, IfOk, true};
ghost use Rattle.tinyjson.specs.Characters.{is_high, is_low, pair_of};
ghost use Rattle.tinyjson_path_query.specs.Fronts.{hex_front, code_front, pair_front, unicode_front};
ghost use Rattle.tinyjson_path_query.specs.Fronts.{escape_front, character_front, quoted_front};
ghost use Rattle.tinyjson_path_query.specs.Grammar.{is_unescaped, escape_of};
ghost use Rattle.tinyjson_path_query.specs.Reading.{Fronts, FrontsAs, IsText};

use crate::lexical::push;
use crate::refusal::{Cause, Refusal};
use std::alloc::Global;

/// The string after its opening quote.
pub(crate) fn quoted<'t>(
    alloc: Global,
    quote: char,
    text: &'t [char],
) -> Result<(String, &'t [char]), Refusal>
    ensures { Fronts IsText (quoted_front quote text.now) result }
{
    let mut string = String::new(alloc);
    let mut rest = text;
    while let Some((first, after)) = rest.split_first() {
        if *first == quote {
            return Ok((string, after));
        }
        let (c, after) = character(quote, rest)?;
        push(&mut string, c)?;
        rest = after;
    }
    Err(Refusal::at(Cause::Character, rest))
}

/// A character of a string.
fn character(quote: char, text: &[char]) -> Result<(char, &[char]), Refusal>
    ensures { FrontsAs (character_front quote text.now) result }
{
    let Some((first, rest)) = text.split_first() else {
        return Err(Refusal::at(Cause::Character, text));
    };
    if *first == '\\' {
        return escaped(quote, rest);
    }
    if !is_unescaped(quote, *first) {
        return Err(Refusal::at(Cause::Character, text));
    }
    Ok((*first, rest))
}

/// Whether the character needs no escape.
fn is_unescaped(quote: char, c: char) -> bool
    ensures { result ≡ is_unescaped quote c }
{
    ' ' <= c && c != quote && c != '\\'
}

/// The character after a backslash.
fn escaped(quote: char, text: &[char]) -> Result<(char, &[char]), Refusal>
    ensures { FrontsAs (escape_front quote text.now) result }
{
    let Some((first, rest)) = text.split_first() else {
        return Err(Refusal::at(Cause::Character, text));
    };
    if *first == 'u' {
        return unicode(rest);
    }
    match escape(quote, *first) {
        Some(c) => Ok((c, rest)),
        None => Err(Refusal::at(Cause::Character, text)),
    }
}

/// The character that this one stands for after a backslash.
fn escape(quote: char, letter: char) -> Option<char>
    ensures { result ≡ escape_of quote letter }
{
    if letter == quote {
        return Some(letter);
    }
    match letter {
        'b' => Some('\x08'),
        'f' => Some('\x0c'),
        'n' => Some('\n'),
        'r' => Some('\r'),
        't' => Some('\t'),
        '/' | '\\' => Some(letter),
        _ => None,
    }
}

/// The character whose code follows `\u`.
fn unicode(text: &[char]) -> Result<(char, &[char]), Refusal>
    ensures { FrontsAs (unicode_front text.now) result }
{
    let (unit, rest) = code(text)?;
    if is_high(unit) {
        return low_surrogate(unit, rest);
    }
    let Some(c) = char::from_u32(unit) else {
        return Err(Refusal::at(Cause::Character, text));
    };
    Ok((c, rest))
}

/// The character of a high surrogate and the low one after it.
fn low_surrogate(high: u32, text: &[char]) -> Result<(char, &[char]), Refusal>
    requires { is_high high ≡ true }
    ensures { FrontsAs (pair_front high text.now) result }
{
    let Some((first, rest)) = text.split_first() else {
        return Err(Refusal::at(Cause::Character, text));
    };
    let Some((second, rest)) = rest.split_first() else {
        return Err(Refusal::at(Cause::Character, text));
    };
    if *first != '\\' || *second != 'u' {
        return Err(Refusal::at(Cause::Character, text));
    }
    let (low, after) = code(rest)?;
    if !is_low(low) {
        return Err(Refusal::at(Cause::Character, rest));
    }
    Ok((pair(high, low), after))
}

fn is_high(unit: u32) -> bool
    ensures { result ≡ is_high unit }
{
    unit >= 0xd800 && unit < 0xdc00
}

fn is_low(unit: u32) -> bool
    ensures { result ≡ is_low unit }
{
    unit >= 0xdc00 && unit < 0xe000
}

/// The character of two surrogates.
fn pair(high: u32, low: u32) -> char
    requires high { is_high high ≡ true }
    requires low { is_low low ≡ true }
    ensures { result ≡ pair_of high low }
{
    char::from_u32(0x10000 + (high - 0xd800) * 1024 + (low - 0xdc00)).unwrap()
}

/// The value of the four hexadecimal digits at the front.
fn code(text: &[char]) -> Result<(u32, &[char]), Refusal>
    ensures read { FrontsAs (code_front text.now) result }
    ensures small { IfOk result (λ r. r.0 < 65536) }
{
    let (first, rest) = hex_digit(text)?;
    let (second, rest) = hex_digit(rest)?;
    let (third, rest) = hex_digit(rest)?;
    let (fourth, rest) = hex_digit(rest)?;
    Ok((((first * 16 + second) * 16 + third) * 16 + fourth, rest))
}

/// The value of the hexadecimal digit at the front.
fn hex_digit(text: &[char]) -> Result<(u32, &[char]), Refusal>
    ensures read { FrontsAs (hex_front text.now) result }
    ensures small { IfOk result (λ r. r.0 < 16) }
{
    let Some((first, rest)) = text.split_first() else {
        return Err(Refusal::at(Cause::Character, text));
    };
    match first.to_digit(16) {
        Some(value) => Ok((value, rest)),
        None => Err(Refusal::at(Cause::Character, text)),
    }
}
