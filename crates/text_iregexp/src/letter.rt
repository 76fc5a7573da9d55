//! The letters of a schema's pattern: characters, escapes, and named sets.
ghost use Rattle.std.specs.Prelude.{◌≡◌, ◌++◌, ◌<◌, [], OnOk, IfSome, length};
ghost use Rattle.text_iregexp.specs.Fronts.{Fronts};
ghost use Rattle.text_iregexp.specs.Patterns.{set_items, letter_items, is_sign, named_letter};
ghost use Rattle.text_iregexp.specs.Patterns.{hex_digit};
ghost use Rattle.text_iregexp.specs.Patterns.{byte_of, code_of, ends_class, is_dash, character_of};
ghost use Rattle.text_iregexp.specs.Patterns.{scalar, is_high, is_low, pair_of, control_of};
ghost use Rattle.text_iregexp.specs.Patterns.{begins_with_digit, others};
ghost use Rattle.text_iregexp.specs.PatternFronts.{literal_front, byte_front, four_front, low_front};
ghost use Rattle.text_iregexp.specs.PatternFronts.{value_front, braced_front, code_front, half_front};
ghost use Rattle.text_iregexp.specs.PatternFronts.{unit_front, control_front, null_front, escape_front};
ghost use Rattle.text_iregexp.specs.PatternFronts.{letter_front, CodeFront, name_front, NameFront};
ghost use Rattle.text_iregexp.specs.PatternFronts.{behind, RestOf, is_name, value_part, property_of};
ghost use Rattle.text_iregexp.specs.PatternFronts.{property_front};

use crate::error::IRegexpErrorKind;
use crate::token::is_digit;
use std::alloc::AllocError;
use text_categories::Category;
use text_regexp::Item;

/// A named set of characters (ECMA-262, 22.2.2.9).
#[derive(Clone, Copy)]
pub(crate) enum Set {
    Digits,
    NoDigits,
    Words,
    NoWords,
    Spaces,
    NoSpaces,
    All,
    Nothing,
    Ascii,
    NoAscii,
    In(Category),
    NotIn(Category),
}

impl Set {
    /// Appends its characters.
    fn add_to(self, items: &mut Vec<Item>) -> Result<(), AllocError>
        ensures { OnOk result (items.new.items ≡ items.old.items ++ set_items self) }
    {
        match self {
            Set::Digits => items.extend_from_slice(&DIGITS),
            Set::NoDigits => items.extend_from_slice(&NO_DIGITS),
            Set::Words => items.extend_from_slice(&WORDS),
            Set::NoWords => items.extend_from_slice(&NO_WORDS),
            Set::Spaces => items.extend_from_slice(&SPACES),
            Set::NoSpaces => items.extend_from_slice(&NO_SPACES),
            Set::All => items.extend_from_slice(&ALL),
            Set::Nothing => Ok(()),
            Set::Ascii => items.extend_from_slice(&ASCII),
            Set::NoAscii => items.extend_from_slice(&NO_ASCII),
            Set::In(category) => Ok(items.push(Item::In(category))?),
            Set::NotIn(category) => Ok(items.push(Item::NotIn(category))?),
        }
    }

    /// All other characters.
    fn others(self) -> Set
        ensures { result ≡ others self }
    {
        match self {
            Set::Digits => Set::NoDigits,
            Set::NoDigits => Set::Digits,
            Set::Words => Set::NoWords,
            Set::NoWords => Set::Words,
            Set::Spaces => Set::NoSpaces,
            Set::NoSpaces => Set::Spaces,
            Set::All => Set::Nothing,
            Set::Nothing => Set::All,
            Set::Ascii => Set::NoAscii,
            Set::NoAscii => Set::Ascii,
            Set::In(category) => Set::NotIn(category),
            Set::NotIn(category) => Set::In(category),
        }
    }
}

const DIGITS: [Item; 1] = [Item::Range('0', '9')];

const NO_DIGITS: [Item; 2] = [Item::Range('\0', '/'), Item::Range(':', '\u{10ffff}')];

const WORDS: [Item; 4] = [
    Item::Range('0', '9'),
    Item::Range('A', 'Z'),
    Item::Range('_', '_'),
    Item::Range('a', 'z'),
];

const NO_WORDS: [Item; 5] = [
    Item::Range('\0', '/'),
    Item::Range(':', '@'),
    Item::Range('[', '^'),
    Item::Range('`', '`'),
    Item::Range('{', '\u{10ffff}'),
];

const SPACES: [Item; 10] = [
    Item::Range('\t', '\r'),
    Item::Range(' ', ' '),
    Item::Range('\u{a0}', '\u{a0}'),
    Item::Range('\u{1680}', '\u{1680}'),
    Item::Range('\u{2000}', '\u{200a}'),
    Item::Range('\u{2028}', '\u{2029}'),
    Item::Range('\u{202f}', '\u{202f}'),
    Item::Range('\u{205f}', '\u{205f}'),
    Item::Range('\u{3000}', '\u{3000}'),
    Item::Range('\u{feff}', '\u{feff}'),
];

const NO_SPACES: [Item; 11] = [
    Item::Range('\0', '\u{8}'),
    Item::Range('\u{e}', '\u{1f}'),
    Item::Range('!', '\u{9f}'),
    Item::Range('\u{a1}', '\u{167f}'),
    Item::Range('\u{1681}', '\u{1fff}'),
    Item::Range('\u{200b}', '\u{2027}'),
    Item::Range('\u{202a}', '\u{202e}'),
    Item::Range('\u{2030}', '\u{205e}'),
    Item::Range('\u{2060}', '\u{2fff}'),
    Item::Range('\u{3001}', '\u{fefe}'),
    Item::Range('\u{ff00}', '\u{10ffff}'),
];

const ALL: [Item; 1] = [Item::Range('\0', '\u{10ffff}')];

const ASCII: [Item; 1] = [Item::Range('\0', '\u{7f}')];

const NO_ASCII: [Item; 1] = [Item::Range('\u{80}', '\u{10ffff}')];

/// A letter: a character, an escaped character, or a set.
#[derive(Clone, Copy)]
pub(crate) enum Letter {
    Plain(char),
    Literal(char),
    Named(Set),
}

impl Letter {
    /// Appends its characters.
    pub(crate) fn add_to(self, items: &mut Vec<Item>) -> Result<(), AllocError>
        ensures { OnOk result (items.new.items ≡ items.old.items ++ letter_items self) }
    {
        match self {
            Letter::Plain(c) => Ok(items.push(Item::Range(c, c))?),
            Letter::Literal(c) => Ok(items.push(Item::Range(c, c))?),
            Letter::Named(set) => set.add_to(items),
        }
    }

    /// Whether it ends a class.
    pub(crate) fn ends_class(self) -> bool
        ensures { result ≡ ends_class self }
    {
        match self {
            Letter::Plain(c) => c == ']',
            Letter::Literal(_) => false,
            Letter::Named(_) => false,
        }
    }

    /// Whether it is the `-` of a range.
    pub(crate) fn is_dash(self) -> bool
        ensures { result ≡ is_dash self }
    {
        match self {
            Letter::Plain(c) => c == '-',
            Letter::Literal(_) => false,
            Letter::Named(_) => false,
        }
    }

    /// Its character, unless it is a set.
    pub(crate) fn character(self) -> Option<char>
        ensures { result ≡ character_of self }
    {
        match self {
            Letter::Plain(c) => Some(c),
            Letter::Literal(c) => Some(c),
            Letter::Named(_) => None,
        }
    }
}

/// Whether it is ASCII punctuation.
fn is_sign(c: char) -> bool
    ensures { result ≡ is_sign c }
{
    '!' <= c && c <= '/' || ':' <= c && c <= '@' || '[' <= c && c <= '`' || '{' <= c && c <= '~'
}

/// The meaning of this character after a backslash.
fn named(letter: char) -> Option<Letter>
    ensures { result ≡ named_letter letter }
{
    match letter {
        'd' => Some(Letter::Named(Set::Digits)),
        'D' => Some(Letter::Named(Set::NoDigits)),
        'w' => Some(Letter::Named(Set::Words)),
        'W' => Some(Letter::Named(Set::NoWords)),
        's' => Some(Letter::Named(Set::Spaces)),
        'S' => Some(Letter::Named(Set::NoSpaces)),
        't' => Some(Letter::Literal('\t')),
        'n' => Some(Letter::Literal('\n')),
        'v' => Some(Letter::Literal('\u{b}')),
        'f' => Some(Letter::Literal('\u{c}')),
        'r' => Some(Letter::Literal('\r')),
        c => {
            if is_sign(c) {
                return Some(Letter::Literal(c));
            }
            None
        }
    }
}

/// The value of a hexadecimal digit.
fn hex_digit(c: char) -> Option<u32>
    ensures value { result ≡ hex_digit c }
    ensures few { IfSome result (λ n. n < 16) }
{
    if '0' <= c && c <= '9' {
        return Some(c as u32 - 48);
    }
    if 'a' <= c && c <= 'f' {
        return Some(c as u32 - 87);
    }
    if 'A' <= c && c <= 'F' {
        return Some(c as u32 - 55);
    }
    None
}

/// The value of two hexadecimal digits.
fn byte_of(first: char, second: char) -> Option<u32>
    ensures value { result ≡ byte_of first second }
    ensures few { IfSome result (λ n. n < 256) }
{
    let high = hex_digit(first)?;
    let low = hex_digit(second)?;
    Some(16 * high + low)
}

/// Whether it is a high surrogate.
fn is_high(code: u32) -> bool
    ensures { result ≡ is_high code }
{
    0xd800 <= code && code <= 0xdbff
}

/// Whether it is a low surrogate.
fn is_low(code: u32) -> bool
    ensures { result ≡ is_low code }
{
    0xdc00 <= code && code <= 0xdfff
}

/// The character with this code.
fn scalar(code: u32) -> Option<char>
    ensures { result ≡ scalar code }
{
    char::from_u32(code)
}

/// The character of these two surrogates.
fn pair_of(first: u32, second: u32) -> Option<char>
    ensures { result ≡ pair_of first second }
{
    if !is_high(first) {
        return None;
    }
    if !is_low(second) {
        return None;
    }
    scalar(1024 * (first - 0xd800) + (second - 0xdc00) + 0x10000)
}

/// The value of four hexadecimal digits.
fn code_of(a: char, b: char, c: char, d: char) -> Option<u32>
    ensures { result ≡ code_of a b c d }
{
    let high = byte_of(a, b)?;
    let low = byte_of(c, d)?;
    Some(256 * high + low)
}

/// The control character of this letter, as in `\c`.
fn control_of(letter: char) -> Option<char>
    ensures { result ≡ control_of letter }
{
    if 'A' <= letter && letter <= 'Z' {
        return scalar(letter as u32 - 64);
    }
    if 'a' <= letter && letter <= 'z' {
        return scalar(letter as u32 - 96);
    }
    None
}

/// The character at the front, by a code of two digits.
fn byte(text: &[char]) -> Result<(Letter, &[char]), IRegexpErrorKind>
    ensures { Fronts ⊥ (λ x. x) (byte_front text.now) result }
{
    let [a, b, rest @ ..] = text else {
        return Err(IRegexpErrorKind::Invalid);
    };
    match byte_of(*a, *b) {
        Some(code) => literal(scalar(code), rest),
        None => Err(IRegexpErrorKind::Invalid),
    }
}

/// The code at the front, of four digits.
fn four_digits(text: &[char]) -> Option<(u32, &[char])>
    ensures { CodeFront (four_front text.now) result }
{
    let [a, b, c, d, rest @ ..] = text else {
        return None;
    };
    let code = code_of(*a, *b, *c, *d)?;
    Some((code, rest))
}

/// The code at the front, of digits up to a brace, unless it is above the last character.
fn value(text: &[char]) -> Option<(u32, &[char])>
    ensures { CodeFront (value_front 0 text.now) result }
{
    let mut value = 0;
    let mut rest = text;
    while let Some((next, after)) = rest.split_first() {
        if *next == '}' {
            return Some((value, after));
        }
        value = 16 * value + hex_digit(*next)?;
        if value > 0x10ffff {
            return None;
        }
        rest = after;
    }
    None
}

/// The code at the front, after a brace.
fn braced(text: &[char]) -> Option<(u32, &[char])>
    ensures { CodeFront (braced_front text.now) result }
{
    match text {
        ['}', ..] => None,
        _ => value(text),
    }
}

/// The code at the front, of four digits or in braces.
pub(crate) fn code(text: &[char]) -> Option<(u32, &[char])>
    ensures { CodeFront (code_front text.now) result }
{
    match text {
        ['{', rest @ ..] => braced(rest),
        _ => four_digits(text),
    }
}

/// The character of a high surrogate and the low one at the front.
fn low(first: u32, text: &[char]) -> Result<(Letter, &[char]), IRegexpErrorKind>
    ensures { Fronts ⊥ (λ x. x) (low_front first text.now) result }
{
    let Some((backslash, rest)) = text.split_first() else {
        return Err(IRegexpErrorKind::Invalid);
    };
    let Some((letter, rest)) = rest.split_first() else {
        return Err(IRegexpErrorKind::Invalid);
    };
    if *backslash != '\\' || *letter != 'u' {
        return Err(IRegexpErrorKind::Invalid);
    }
    match four_digits(rest) {
        Some((second, after)) => literal(pair_of(first, second), after),
        None => Err(IRegexpErrorKind::Invalid),
    }
}

/// The character, as a letter, and the text after it.
fn literal(c: Option<char>, text: &[char]) -> Result<(Letter, &[char]), IRegexpErrorKind>
    ensures { Fronts ⊥ (λ x. x) (literal_front text.now c) result }
{
    match c {
        Some(c) => Ok((Letter::Literal(c), text)),
        None => Err(IRegexpErrorKind::Invalid),
    }
}

/// The character with this code. If it is a high surrogate, the text has to begin with a low one.
fn half(code: u32, text: &[char]) -> Result<(Letter, &[char]), IRegexpErrorKind>
    ensures { Fronts ⊥ (λ x. x) (half_front (code, text.now)) result }
{
    if is_high(code) {
        return low(code, text);
    }
    literal(scalar(code), text)
}

/// The character at the front, by a code of four digits, by two such codes, or by one in braces.
fn unit(text: &[char]) -> Result<(Letter, &[char]), IRegexpErrorKind>
    ensures { Fronts ⊥ (λ x. x) (unit_front text.now) result }
{
    let Some((first, rest)) = text.split_first() else {
        return Err(IRegexpErrorKind::Invalid);
    };
    if *first == '{' {
        return match braced(rest) {
            Some((code, after)) => literal(scalar(code), after),
            None => Err(IRegexpErrorKind::Invalid),
        };
    }
    match four_digits(text) {
        Some((code, after)) => half(code, after),
        None => Err(IRegexpErrorKind::Invalid),
    }
}

/// The control character of the letter at the front.
fn control(text: &[char]) -> Result<(Letter, &[char]), IRegexpErrorKind>
    ensures { Fronts ⊥ (λ x. x) (control_front text.now) result }
{
    let Some((letter, rest)) = text.split_first() else {
        return Err(IRegexpErrorKind::Invalid);
    };
    literal(control_of(*letter), rest)
}

/// Whether the text begins with a digit.
fn begins_with_digit(text: &[char]) -> bool
    ensures { result ≡ begins_with_digit text.now }
{
    match text {
        [first, ..] => is_digit(*first),
        [] => false,
    }
}

/// The character U+0000, unless a digit follows.
fn null(text: &[char]) -> Result<(Letter, &[char]), IRegexpErrorKind>
    ensures { Fronts ⊥ (λ x. x) (null_front text.now) result }
{
    if begins_with_digit(text) {
        return Err(IRegexpErrorKind::Invalid);
    }
    Ok((Letter::Literal('\0'), text))
}

/// The text up to this character, and the text after it.
pub(crate) fn name(last: char, text: &[char]) -> Option<(&[char], &[char])>
    ensures { NameFront (name_front last text.now) result }
{
    match text.iter().position(|c| *c == last) {
        Some(place) => Some((&text[..place], &text[place + 1..])),
        None => None,
    }
}

/// The rest of a text that begins with this one.
fn behind<'t>(head: &[u8], text: &'t [char]) -> Option<&'t [char]>
    ensures { RestOf (behind head.now text.now) result }
{
    let mut left = head;
    let mut rest = text;
    while let Some((wanted, others)) = left.split_first() {
        let (first, after) = rest.split_first()?;
        if *first as u32 != u32::from(*wanted) {
            return None;
        }
        left = others;
        rest = after;
    }
    Some(rest)
}

/// Whether the text is this name.
fn is_name(name: &[u8], text: &[char]) -> bool
    ensures { result ≡ is_name name.now text.now }
{
    match behind(name, text) {
        Some(rest) => rest.is_empty(),
        None => false,
    }
}

/// The name of a value of `General_Category`, without the property before it.
fn value_part(text: &[char]) -> &[char]
    ensures { result.now ≡ value_part text.now }
{
    if let Some(value) = behind(b"gc=", text) {
        return value;
    }
    match behind(b"General_Category=", text) {
        Some(value) => value,
        None => text,
    }
}

/// The set of a property's name.
fn property_of(text: &[char]) -> Option<Set>
    ensures { result ≡ property_of text.now }
{
    if is_name(b"Any", text) {
        return Some(Set::All);
    }
    if is_name(b"ASCII", text) {
        return Some(Set::Ascii);
    }
    if is_name(b"Assigned", text) {
        return Some(Set::NotIn(Category::value_named(&['C', 'n'])?));
    }
    Some(Set::In(Category::value_named(value_part(text))?))
}

/// The set of the property at the front, whose name is in braces.
fn property(text: &[char]) -> Result<(Set, &[char]), IRegexpErrorKind>
    ensures { Fronts ⊥ (λ x. x) (property_front text.now) result }
{
    let Some((brace, rest)) = text.split_first() else {
        return Err(IRegexpErrorKind::Invalid);
    };
    if *brace != '{' {
        return Err(IRegexpErrorKind::Invalid);
    }
    let Some((name, after)) = name('}', rest) else {
        return Err(IRegexpErrorKind::Invalid);
    };
    match property_of(name) {
        Some(set) => Ok((set, after)),
        None => Err(IRegexpErrorKind::Invalid),
    }
}

/// The letter that follows a backslash.
pub(crate) fn escape(text: &[char]) -> Result<(Letter, &[char]), IRegexpErrorKind>
    ensures { Fronts ⊥ (λ x. x) (escape_front text.now) result }
{
    let Some((first, rest)) = text.split_first() else {
        return Err(IRegexpErrorKind::Invalid);
    };
    match *first {
        'x' => byte(rest),
        'u' => unit(rest),
        'c' => control(rest),
        '0' => null(rest),
        'p' => {
            let (set, after) = property(rest)?;
            Ok((Letter::Named(set), after))
        }
        'P' => {
            let (set, after) = property(rest)?;
            Ok((Letter::Named(set.others()), after))
        }
        first => match named(first) {
            Some(letter) => Ok((letter, rest)),
            None => Err(IRegexpErrorKind::Invalid),
        },
    }
}

/// The letter at the front of the text.
pub(crate) fn next_letter(text: &[char]) -> Result<(Letter, &[char]), IRegexpErrorKind>
    ensures { Fronts ⊥ (λ x. x) (letter_front text.now) result }
{
    match text {
        ['\\', rest @ ..] => escape(rest),
        [first, rest @ ..] => Ok((Letter::Plain(*first), rest)),
        [] => Err(IRegexpErrorKind::Invalid),
    }
}
