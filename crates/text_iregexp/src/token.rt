//! The tokens of a text.
ghost use Rattle.std.specs.Prelude.{◌≡◌, ℕ, ◌<◌, ◌≤◌, [], ◌∷◌, length, IfOk, true};
ghost use Rattle.text_iregexp.specs.Characters.{left_brace, line_feed, carriage_return};
ghost use Rattle.text_regexp.specs.declared.class.Item.TheVariants.{Range};
ghost use Rattle.text_iregexp.specs.Limits.{LargeNumber, LargeCount};
ghost use Rattle.text_iregexp.specs.Grammar.{is_normal, is_plain, is_digit, escape_of};
ghost use Rattle.text_iregexp.specs.Fronts.{Fronts, token_of, escape_front, member_front, item_front};
ghost use Rattle.text_iregexp.specs.Fronts.{number_front, counts_front, class_front, first_front};
ghost use Rattle.text_iregexp.specs.Fronts.{bracket_front, token_front, escape_token, category_front};
ghost use Rattle.text_iregexp.specs.Fronts.{is_category_letter, name_front, named_front};
ghost use Rattle.text_iregexp.specs.Fronts.{begins_category, characters_front};

use crate::error::IRegexpErrorKind;
use crate::limits::SIZE;
use std::alloc::{AllocError, Global};
use text_categories::Category;
use text_regexp::{Assertion, Class, Item};

/// The smallest part of a text with a meaning.
#[derive(Drop)]
pub(crate) enum Token {
    /// One character of a class.
    Characters(Class),
    Open,
    Close,
    Bar,
    Quantifier { least: usize, most: Option<usize> },
    /// Only the patterns of JSON Schema have it.
    Assertion(Assertion),
}

/// The first token of a text, and the text after it.
pub(crate) fn next_token<'t>(
    alloc: Global,
    text: &'t [char],
) -> Result<(Token, &'t [char]), IRegexpErrorKind>
    ensures { Fronts (LargeCount text.now) token_of (token_front text.now) result }
{
    let Some((first, rest)) = text.split_first() else {
        return Err(IRegexpErrorKind::Invalid);
    };
    match *first {
        '(' => Ok((Token::Open, rest)),
        ')' => Ok((Token::Close, rest)),
        '|' => Ok((Token::Bar, rest)),
        '*' => Ok((
            Token::Quantifier {
                least: 0,
                most: None,
            },
            rest,
        )),
        '+' => Ok((
            Token::Quantifier {
                least: 1,
                most: None,
            },
            rest,
        )),
        '?' => Ok((
            Token::Quantifier {
                least: 0,
                most: Some(1),
            },
            rest,
        )),
        '{' => counts(rest),
        '.' => Ok((Token::Characters(dot(alloc)?), rest)),
        '\\' => escape_token(alloc, rest),
        '[' => bracket(alloc, rest),
        c => {
            if is_normal(c) {
                Ok((
                    Token::Characters(Class::single(alloc, Item::Range(c, c))?),
                    rest,
                ))
            } else {
                Err(IRegexpErrorKind::Invalid)
            }
        }
    }
}

/// The class of every character but line feed and carriage return.
fn dot(alloc: Global) -> Result<Class, AllocError>
    ensures negated { IfOk result (λ k. k.negated ≡ true) }
    ensures items { IfOk result (λ k. k.items.items
        ≡ Range line_feed line_feed ∷ Range carriage_return carriage_return ∷ []) }
{
    let mut items = Vec::new(alloc);
    items.push(Item::Range('\n', '\n'))?;
    items.push(Item::Range('\r', '\r'))?;
    Ok(Class {
        negated: true,
        items,
    })
}

/// Whether the character stands for itself.
fn is_normal(c: char) -> bool
    ensures { result ≡ is_normal c }
{
    !matches!(
        c,
        '(' | ')' | '*' | '+' | '.' | '?' | '[' | '\\' | ']' | '{' | '|' | '}'
    )
}

/// Whether the character stands for itself in a class.
fn is_plain(c: char) -> bool
    ensures { result ≡ is_plain c }
{
    !matches!(c, '-' | '[' | '\\' | ']')
}

/// The character that this one stands for after a backslash.
fn escape(letter: char) -> Option<char>
    ensures { result ≡ escape_of letter }
{
    match letter {
        'n' => Some('\n'),
        'r' => Some('\r'),
        't' => Some('\t'),
        '(' | ')' | '*' | '+' | '-' | '.' | '?' | '[' | '\\' | ']' | '^' | '{' | '|' | '}' => Some(
            letter,
        ),
        _ => None,
    }
}

/// The character after a backslash.
fn escaped(text: &[char]) -> Result<(char, &[char]), IRegexpErrorKind>
    ensures { Fronts ⊥ (λ c. c) (escape_front text.now) result }
{
    let [first, rest @ ..] = text else {
        return Err(IRegexpErrorKind::Invalid);
    };
    match escape(*first) {
        Some(c) => Ok((c, rest)),
        None => Err(IRegexpErrorKind::Invalid),
    }
}

/// The category or the character after a backslash.
fn escape_token<'t>(
    alloc: Global,
    text: &'t [char],
) -> Result<(Token, &'t [char]), IRegexpErrorKind>
    ensures { Fronts ⊥ token_of (escape_token text.now) result }
{
    if is_category_letter(text) {
        let (item, after) = category(text)?;
        return Ok((Token::Characters(Class::single(alloc, item)?), after));
    }
    let (c, after) = escaped(text)?;
    Ok((
        Token::Characters(Class::single(alloc, Item::Range(c, c))?),
        after,
    ))
}

/// Whether the text begins with the letter of a category.
fn is_category_letter(text: &[char]) -> bool
    ensures { result ≡ is_category_letter text.now }
{
    matches!(text, ['p' | 'P', ..])
}

/// The category after a backslash.
fn category(text: &[char]) -> Result<(Item, &[char]), IRegexpErrorKind>
    ensures { Fronts ⊥ (λ i. i) (category_front text.now) result }
{
    let Some((sign, rest)) = text.split_first() else {
        return Err(IRegexpErrorKind::Invalid);
    };
    match *sign {
        'p' => {
            let (category, after) = name(rest)?;
            Ok((Item::In(category), after))
        }
        'P' => {
            let (category, after) = name(rest)?;
            Ok((Item::NotIn(category), after))
        }
        _ => Err(IRegexpErrorKind::Invalid),
    }
}

/// The category whose name is at the front, in braces.
fn name(text: &[char]) -> Result<(Category, &[char]), IRegexpErrorKind>
    ensures { Fronts ⊥ (λ k. k) (name_front text.now) result }
{
    let Some((brace, rest)) = text.split_first() else {
        return Err(IRegexpErrorKind::Invalid);
    };
    let Some((group, rest)) = rest.split_first() else {
        return Err(IRegexpErrorKind::Invalid);
    };
    let Some((letter, after)) = rest.split_first() else {
        return Err(IRegexpErrorKind::Invalid);
    };
    if *brace != '{' {
        return Err(IRegexpErrorKind::Invalid);
    }
    if *letter == '}' {
        return named(*group, None, after);
    }
    let Some((last, after)) = after.split_first() else {
        return Err(IRegexpErrorKind::Invalid);
    };
    if *last != '}' {
        return Err(IRegexpErrorKind::Invalid);
    }
    named(*group, Some(*letter), after)
}

/// The category with this name, and the text after it.
fn named(
    group: char,
    letter: Option<char>,
    after: &[char],
) -> Result<(Category, &[char]), IRegexpErrorKind>
    ensures { Fronts ⊥ (λ k. k) (named_front group letter after.now) result }
{
    match Category::named(group, letter) {
        Some(category) => Ok((category, after)),
        None => Err(IRegexpErrorKind::Invalid),
    }
}

/// The quantifier whose counts follow a brace.
fn counts(text: &[char]) -> Result<(Token, &[char]), IRegexpErrorKind>
    ensures { Fronts (LargeCount (left_brace ∷ text.now)) token_of (counts_front text.now) result }
{
    let (least, rest) = number(text)?;
    let Some((next, after)) = rest.split_first() else {
        return Err(IRegexpErrorKind::Invalid);
    };
    if *next == '}' {
        return Ok((
            Token::Quantifier {
                least,
                most: Some(least),
            },
            after,
        ));
    }
    if *next != ',' {
        return Err(IRegexpErrorKind::Invalid);
    }
    let Some((next, end)) = after.split_first() else {
        return Err(IRegexpErrorKind::Invalid);
    };
    if *next == '}' {
        return Ok((Token::Quantifier { least, most: None }, end));
    }
    let (most, rest) = number(after)?;
    let Some((next, after)) = rest.split_first() else {
        return Err(IRegexpErrorKind::Invalid);
    };
    if *next != '}' || most < least {
        return Err(IRegexpErrorKind::Invalid);
    }
    Ok((
        Token::Quantifier {
            least,
            most: Some(most),
        },
        after,
    ))
}

/// The number at the front.
fn number(text: &[char]) -> Result<(usize, &[char]), IRegexpErrorKind>
    ensures { Fronts (LargeNumber text.now) (λ n. n) (number_front text.now) result }
{
    let Some((first, after)) = text.split_first() else {
        return Err(IRegexpErrorKind::Invalid);
    };
    if !is_digit(*first) {
        return Err(IRegexpErrorKind::Invalid);
    }
    let mut value = *first as usize - '0' as usize;
    let mut rest = after;
    while let Some((next, after)) = rest.split_first() {
        if !is_digit(*next) {
            break;
        }
        value = 10 * value + (*next as usize - '0' as usize);
        if value > SIZE {
            return Err(IRegexpErrorKind::TooLarge);
        }
        rest = after;
    }
    Ok((value, rest))
}

/// Whether it is a digit.
pub(crate) fn is_digit(c: char) -> bool
    ensures { result ≡ is_digit c }
{
    '0' <= c && c <= '9'
}

/// The class after an opening bracket.
fn bracket<'t>(alloc: Global, text: &'t [char]) -> Result<(Token, &'t [char]), IRegexpErrorKind>
    ensures { Fronts ⊥ token_of (bracket_front text.now) result }
{
    let Some((next, after)) = text.split_first() else {
        return Err(IRegexpErrorKind::Invalid);
    };
    if *next == '^' {
        return class(alloc, true, after);
    }
    class(alloc, false, text)
}

/// The class whose items begin here.
fn class<'t>(
    alloc: Global,
    negated: bool,
    text: &'t [char],
) -> Result<(Token, &'t [char]), IRegexpErrorKind>
    ensures { (n : ℕ) → length text.now ≤ n
        → Fronts ⊥ token_of (first_front n negated text.now) result }
{
    let Some((next, after)) = text.split_first() else {
        return Err(IRegexpErrorKind::Invalid);
    };
    if *next == '-' {
        return class_from(alloc, negated, Item::Range('-', '-'), after);
    }
    let (first, after) = item(text)?;
    class_from(alloc, negated, first, after)
}

/// The class that begins with this item; its other items follow.
fn class_from<'t>(
    alloc: Global,
    negated: bool,
    first: Item,
    text: &'t [char],
) -> Result<(Token, &'t [char]), IRegexpErrorKind>
    ensures { (n : ℕ) → length text.now < n
        → Fronts ⊥ token_of (class_front n negated (first, text.now)) result }
{
    let mut items = Vec::new(alloc);
    items.push(first)?;
    let mut rest = text;
    while let Some((next, after)) = rest.split_first() {
        if *next == ']' {
            return Ok((Token::Characters(Class { negated, items }), after));
        }
        if *next == '-' {
            let Some((last, end)) = after.split_first() else {
                return Err(IRegexpErrorKind::Invalid);
            };
            if *last != ']' {
                return Err(IRegexpErrorKind::Invalid);
            }
            items.push(Item::Range('-', '-'))?;
            return Ok((Token::Characters(Class { negated, items }), end));
        }
        let (item, after) = item(rest)?;
        items.push(item)?;
        rest = after;
    }
    Err(IRegexpErrorKind::Invalid)
}

/// An item of a class: a character, a range, or a category.
fn item(text: &[char]) -> Result<(Item, &[char]), IRegexpErrorKind>
    ensures { Fronts ⊥ (λ i. i) (item_front text.now) result }
{
    if !begins_category(text) {
        return characters(text);
    }
    let Some((_, rest)) = text.split_first() else {
        return Err(IRegexpErrorKind::Invalid);
    };
    category(rest)
}

/// Whether the text begins with a category.
fn begins_category(text: &[char]) -> bool
    ensures { result ≡ begins_category text.now }
{
    match text.split_first() {
        Some((first, rest)) => *first == '\\' && is_category_letter(rest),
        None => false,
    }
}

/// A character of a class, or a range of them.
fn characters(text: &[char]) -> Result<(Item, &[char]), IRegexpErrorKind>
    ensures { Fronts ⊥ (λ r. r) (characters_front text.now) result }
{
    let (first, rest) = member(text)?;
    match rest {
        // the last `-` of a class
        ['-', ']', ..] => Ok((Item::Range(first, first), rest)),
        ['-', after @ ..] => {
            let (last, after) = member(after)?;
            if last < first {
                return Err(IRegexpErrorKind::Invalid);
            }
            Ok((Item::Range(first, last), after))
        }
        _ => Ok((Item::Range(first, first), rest)),
    }
}

/// A character of a class, plain or escaped.
fn member(text: &[char]) -> Result<(char, &[char]), IRegexpErrorKind>
    ensures { Fronts ⊥ (λ c. c) (member_front text.now) result }
{
    match text {
        ['\\', rest @ ..] => escaped(rest),
        [first, rest @ ..] if is_plain(*first) => Ok((*first, rest)),
        _ => Err(IRegexpErrorKind::Invalid),
    }
}
