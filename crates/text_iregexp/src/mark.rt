//! The marks of a schema's pattern: `(?=`, `(?!` and tokens, of which some are assertions.
ghost use Rattle.std.specs.Prelude.{◌≡◌, ℕ, ◌<◌, [], IfOk, length, option_map, option_and_then};
ghost use Rattle.text_iregexp.specs.Limits.{LargeCount};
ghost use Rattle.text_iregexp.specs.Fronts.{Fronts, token_of, token_front};
ghost use Rattle.text_iregexp.specs.declared.token.Token.TheVariants.{Characters};
ghost use Rattle.text_iregexp.specs.Patterns.{is_normal, class_items, dot};
ghost use Rattle.text_iregexp.specs.Patterns.{takes_question, fits, range_of};
ghost use Rattle.text_iregexp.specs.Patterns.{token as with_token};
ghost use Rattle.text_iregexp.specs.PatternFronts.{mark_of, mark_front, sign_front, class_front};
ghost use Rattle.text_iregexp.specs.PatternFronts.{letters_front, caret_front, range_behind, opening};
ghost use Rattle.text_iregexp.specs.PatternFronts.{eager, letter_mark, escape_front, escape_mark};
ghost use Rattle.text_iregexp.specs.PatternFronts.{repeat_front};
ghost use Rattle.text_iregexp.specs.PatternFronts.{ReadsItems, RangeBehind, Appends};

use crate::error::IRegexpErrorKind;
use crate::letter::{Letter, escape, next_letter};
use crate::token::{Token, next_token};
use std::alloc::{AllocError, Global};
use text_regexp::{Assertion, Class, Item};

/// The smallest part of a pattern's text with a meaning: what begins a look-ahead, or a token.
#[derive(Drop)]
pub(crate) enum Mark {
    // a look-ahead begins, and whether it is negated
    Look(bool),
    Token(Token),
}

impl Mark {
    /// Whether the text may follow the mark.
    fn fits(&self, text: &[char]) -> bool
        ensures { result ≡ fits (mark_of self.now) text.now }
    {
        match self {
            Mark::Look(_) => true,
            Mark::Token(token) => !(takes_question(token) && matches!(text, ['?', ..])),
        }
    }
}

/// The first mark of a text, and the text after it.
pub(crate) fn next_mark<'t>(
    alloc: Global,
    text: &'t [char],
) -> Result<(Mark, &'t [char]), IRegexpErrorKind>
    ensures { Fronts (LargeCount text.now) mark_of (mark_front text.now) result }
{
    let (mark, rest) = sign(alloc, text)?;
    if !mark.fits(rest) {
        return Err(IRegexpErrorKind::Invalid);
    }
    Ok((mark, rest))
}

/// Whether a `?` after the token would belong to it.
fn takes_question(token: &Token) -> bool
    ensures { result ≡ takes_question (with_token (token_of token.now)) }
{
    matches!(token, Token::Open | Token::Quantifier { .. })
}

/// The first mark of a text, whatever follows it.
fn sign<'t>(alloc: Global, text: &'t [char]) -> Result<(Mark, &'t [char]), IRegexpErrorKind>
    ensures { Fronts (LargeCount text.now) mark_of (sign_front text.now) result }
{
    let Some((first, rest)) = text.split_first() else {
        return Err(IRegexpErrorKind::Invalid);
    };
    match *first {
        '^' => Ok((Mark::Token(Token::Assertion(Assertion::Start)), rest)),
        '$' => Ok((Mark::Token(Token::Assertion(Assertion::End)), rest)),
        '(' => opening(rest),
        ')' => Ok((Mark::Token(Token::Close), rest)),
        '|' => Ok((Mark::Token(Token::Bar), rest)),
        '.' => Ok((Mark::Token(Token::Characters(dot(alloc)?)), rest)),
        '\\' => behind_backslash(alloc, rest),
        '[' => {
            let (token, after) = class(alloc, rest)?;
            Ok((Mark::Token(token), after))
        }
        c => {
            if is_normal(c) {
                let one = Class::single(alloc, Item::Range(c, c))?;
                return Ok((Mark::Token(Token::Characters(one)), rest));
            }
            read_quantifier(alloc, text)
        }
    }
}

/// Whether the character stands for itself outside of classes.
fn is_normal(c: char) -> bool
    ensures { result ≡ is_normal c }
{
    !matches!(
        c,
        '^' | '$' | '(' | ')' | '|' | '.' | '\\' | '[' | '*' | '+' | '?' | '{' | ']' | '}'
    )
}

/// What begins after an opening parenthesis: a group or a look-ahead.
fn opening(text: &[char]) -> Result<(Mark, &[char]), IRegexpErrorKind>
    ensures { Fronts ⊥ mark_of (opening text.now) result }
{
    match text {
        ['?', ':', after @ ..] => Ok((Mark::Token(Token::Open), after)),
        ['?', '=', after @ ..] => Ok((Mark::Look(false), after)),
        ['?', '!', after @ ..] => Ok((Mark::Look(true), after)),
        ['?', _, ..] => Err(IRegexpErrorKind::Invalid),
        _ => Ok((Mark::Token(Token::Open), text)),
    }
}

/// The text after a quantifier, without its `?`.
fn eager(text: &[char]) -> &[char]
    ensures { result.now ≡ eager text.now }
{
    match text {
        ['?', after @ ..] => after,
        _ => text,
    }
}

/// The class of every character but the ends of lines.
fn dot(alloc: Global) -> Result<Class, AllocError>
    ensures { IfOk result (λ k. token_of (Characters k) ≡ dot) }
{
    let mut items = Vec::new(alloc);
    items.push(Item::Range('\n', '\n'))?;
    items.push(Item::Range('\r', '\r'))?;
    items.push(Item::Range('\u{2028}', '\u{2029}'))?;
    Ok(Class {
        negated: true,
        items,
    })
}

/// The mark after a backslash: an assertion, or the characters of an escape.
fn behind_backslash<'t>(
    alloc: Global,
    text: &'t [char],
) -> Result<(Mark, &'t [char]), IRegexpErrorKind>
    ensures { Fronts ⊥ mark_of (escape_mark text.now) result }
{
    match text {
        ['b', rest @ ..] => Ok((Mark::Token(Token::Assertion(Assertion::WordBoundary)), rest)),
        ['B', rest @ ..] => Ok((
            Mark::Token(Token::Assertion(Assertion::NotWordBoundary)),
            rest,
        )),
        _ => read_escape(alloc, text),
    }
}

/// The characters of the escape after a backslash.
fn read_escape<'t>(alloc: Global, text: &'t [char]) -> Result<(Mark, &'t [char]), IRegexpErrorKind>
    ensures { Fronts ⊥ mark_of (option_map letter_mark (escape_front text.now)) result }
{
    let (letter, after) = escape(text)?;
    let mut items = Vec::new(alloc);
    letter.add_to(&mut items)?;
    let class = Class {
        negated: false,
        items,
    };
    Ok((Mark::Token(Token::Characters(class)), after))
}

/// A quantifier, with the `?` after it that makes it lazy.
fn read_quantifier<'t>(
    alloc: Global,
    text: &'t [char],
) -> Result<(Mark, &'t [char]), IRegexpErrorKind>
    ensures { Fronts (LargeCount text.now) mark_of
        (option_and_then repeat_front (token_front text.now)) result }
{
    let (token, rest) = next_token(alloc, text)?;
    match token {
        Token::Quantifier { least, most } => Ok((
            Mark::Token(Token::Quantifier { least, most }),
            eager(rest),
        )),
        _ => Err(IRegexpErrorKind::Invalid),
    }
}

/// The class after an opening bracket.
fn class<'t>(alloc: Global, text: &'t [char]) -> Result<(Token, &'t [char]), IRegexpErrorKind>
    ensures { Fronts ⊥ token_of (class_front text.now) result }
{
    let (negated, inner) = caret(text);
    let (letters, rest) = letters(alloc, inner)?;
    let items = items(alloc, letters.as_slice())?;
    Ok((Token::Characters(Class { negated, items }), rest))
}

/// Whether the text begins with `^`, and the text after that.
fn caret(text: &[char]) -> (bool, &[char])
    ensures negated { result.0 ≡ (caret_front text.now).0 }
    ensures rest { result.1.now ≡ (caret_front text.now).1 }
{
    match text {
        ['^', after @ ..] => (true, after),
        _ => (false, text),
    }
}

/// The letters of a class up to its end.
fn letters<'t>(
    alloc: Global,
    text: &'t [char],
) -> Result<(Vec<Letter>, &'t [char]), IRegexpErrorKind>
    ensures { (n : ℕ) → length text.now < n
        → Fronts ⊥ (λ v. v.items) (letters_front n [] text.now) result }
{
    let mut all = Vec::new(alloc);
    let mut rest = text;
    while !rest.is_empty() {
        let (next, after) = next_letter(rest)?;
        if next.ends_class() {
            return Ok((all, after));
        }
        all.push(next)?;
        rest = after;
    }
    Err(IRegexpErrorKind::Invalid)
}

/// The items of a class with these letters.
fn items(alloc: Global, letters: &[Letter]) -> Result<Vec<Item>, IRegexpErrorKind>
    ensures { ReadsItems letters.now result }
{
    let mut all = Vec::new(alloc);
    let mut rest = letters;
    while let Some((first, after)) = rest.split_first() {
        if let Some((last, end)) = range_behind(after) {
            add_range(&mut all, *first, last)?;
            rest = end;
            continue;
        }
        first.add_to(&mut all)?;
        rest = after;
    }
    Ok(all)
}

/// The last letter of a range, if its `-` is at the front, and the letters after it.
fn range_behind(letters: &[Letter]) -> Option<(Letter, &[Letter])>
    ensures { RangeBehind letters.now result }
{
    match letters {
        [dash, last, after @ ..] if dash.is_dash() => Some((*last, after)),
        _ => None,
    }
}

/// Appends the range from one character to another. Where either letter is a set, it is the union
/// of both and `-`.
fn add_range(items: &mut Vec<Item>, first: Letter, last: Letter) -> Result<(), IRegexpErrorKind>
    ensures { Appends (range_of first last) items.old.items result items.new.items }
{
    if let Some(low) = first.character()
        && let Some(high) = last.character()
    {
        if high < low {
            return Err(IRegexpErrorKind::Invalid);
        }
        items.push(Item::Range(low, high))?;
        return Ok(());
    }
    first.add_to(items)?;
    items.push(Item::Range('-', '-'))?;
    last.add_to(items)?;
    Ok(())
}
