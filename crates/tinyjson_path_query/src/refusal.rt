//! Why parsing stops, and which error that is.
ghost use Rattle.std.specs.Prelude.{◌≡◌, ◌≤◌, drop, length, take, true, IfOk};
ghost use Rattle.tinyjson_path_query.specs.Kinds.{read_kind, broken_rule, rule, IsLimit};
ghost use Rattle.tinyjson_path_query.specs.Refusing.{begins_operation, begins_condition, begins_value, begins_literal};
ghost use Rattle.tinyjson_path_query.specs.Refusing.{is_call, is_known_call, is_unknown_call, ends_name};
ghost use Rattle.tinyjson_path_query.specs.Refusing.{is_function_name_char, is_letter, begins, is_large};
ghost use Rattle.tinyjson_path_query.specs.Refusing.{IsOutOfRange, Says};
ghost use Rattle.tinyjson_path_query.specs.Grammar.{begins_with};
ghost use Rattle.tinyjson_path_query.specs.declared.error.ParseErrorKind.{ParseErrorKind};
ghost use Rattle.tinyjson_path_query.specs.declared.refusal.Cause.{Cause};

use crate::error::{ParseError, ParseErrorKind};
use crate::lexical::{begins_integer, is_digit, is_quote, magnitude, push_number_chars};
use crate::nesting::open_brackets;
use crate::parse::NESTING_LIMIT;
use std::alloc::{AllocError, AllocFailed, Global};
use tinyjson::{JsonNumber, JsonNumberError};

/// Why parsing stops at a place: what is missing there, or a limit.
#[derive(Clone, Copy, PartialEq, Eq)]
pub(crate) enum Cause {
    /// A character, of which no more is known.
    Character,
    /// An integer.
    Integer,
    /// A test, or an expression in parentheses.
    Test,
    /// A value.
    Value,
    /// A query, as an argument.
    Nodes,
    /// One more argument.
    Argument,
    /// A comma, behind the first of two arguments.
    Comma,
    /// A closing parenthesis, behind the last argument.
    LastArgument,
    /// The end of a logical expression.
    ConditionEnd,
    /// No more expressions may be nested.
    TooDeep,
    /// An allocation failed.
    OutOfMemory,
}

/// Why parsing stops, and at which place.
#[derive(Clone, Copy)]
pub(crate) struct Refusal {
    pub(crate) cause: Cause,
    /// The number of characters from there to the end.
    pub(crate) left: usize,
}

impl Refusal {
    /// Parsing stops before this text.
    pub(crate) fn at(cause: Cause, rest: &[char]) -> Refusal
        ensures { result.cause ≡ cause }
    {
        Refusal {
            cause,
            left: rest.len(),
        }
    }

    /// The error of the text in which parsing stops.
    pub(crate) fn error(self, alloc: Global, text: &[char]) -> ParseError
        ensures says { Says (take result.place text.now) (drop result.place text.now) result.kind }
        ensures rule { ¬ IsLimit result.kind →
            result.kind ≡ read_kind self.cause (drop result.place text.now) }
        ensures memory { self.cause ≡ Cause.OutOfMemory → result.kind ≡ ParseErrorKind.OutOfMemory }
        ensures place { result.place ≤ length text.now }
    {
        let place = text.len().saturating_sub(self.left);
        ParseError {
            kind: kind_at(alloc, self.cause, &text[..place], &text[place..]),
            place,
        }
    }
}

impl From<AllocError> for Refusal {
    ghost from_gives = { λ _ e. e.cause ≡ Cause.OutOfMemory };

    fn from(_: AllocError) -> Refusal {
        Refusal {
            cause: Cause::OutOfMemory,
            left: 0,
        }
    }
}

impl<T: Drop> From<AllocFailed<T>> for Refusal {
    ghost from_gives = { λ _ e. e.cause ≡ Cause.OutOfMemory };

    fn from(_: AllocFailed<T>) -> Refusal {
        Refusal {
            cause: Cause::OutOfMemory,
            left: 0,
        }
    }
}

/// The kind of an error, which depends on the text before its place and on the text there.
fn kind_at(alloc: Global, cause: Cause, before: &[char], text: &[char]) -> ParseErrorKind
    ensures says { Says before.now text.now result }
    ensures rule { ¬ IsLimit result → result ≡ read_kind cause text.now }
    ensures memory { cause ≡ Cause.OutOfMemory → result ≡ ParseErrorKind.OutOfMemory }
{
    match cause {
        Cause::OutOfMemory => ParseErrorKind::OutOfMemory,
        Cause::TooDeep => {
            if open_brackets(before) < NESTING_LIMIT {
                return read_kind(cause, text);
            }
            ParseErrorKind::TooDeep
        }
        Cause::Value => match is_out_of_range(alloc, text) {
            Ok(false) => read_kind(cause, text),
            Ok(true) => ParseErrorKind::NumberOutOfRange,
            Err(_) => ParseErrorKind::OutOfMemory,
        },
        _ => read_kind(cause, text),
    }
}

/// Whether the text begins with a number whose power of ten is out of range.
fn is_out_of_range(alloc: Global, text: &[char]) -> Result<bool, AllocError>
    ensures { IfOk result (λ b. b ≡ true → IsOutOfRange text.now) }
{
    let mut digits = String::new(alloc);
    push_number_chars(&mut digits, text)?;
    match JsonNumber::from_text(alloc, digits.as_str()) {
        Err(JsonNumberError::OutOfRange) => Ok(true),
        _ => Ok(false),
    }
}

/// The kind of an error of the grammar, which depends on the text at its place.
fn read_kind(cause: Cause, text: &[char]) -> ParseErrorKind
    ensures { result ≡ read_kind cause text.now }
{
    if is_unknown_call(text) {
        return ParseErrorKind::UnknownFunction;
    }
    broken_rule(cause, text)
}

/// The rule that the text breaks, by what it has in place of what is missing.
fn broken_rule(cause: Cause, text: &[char]) -> ParseErrorKind
    ensures { result ≡ broken_rule cause text.now }
{
    match cause {
        Cause::Integer => {
            if is_large(text) {
                return ParseErrorKind::IndexOutOfRange;
            }
            ParseErrorKind::Syntax
        }
        Cause::Test => rule(false, begins_value(text)),
        Cause::Value => rule(false, is_known_call(text) || begins_condition(text)),
        Cause::Nodes => rule(
            begins_with(')', text),
            begins_value(text) || begins_condition(text),
        ),
        Cause::Argument => rule(begins_with(')', text), false),
        Cause::Comma => rule(begins_with(')', text), begins_operation(text)),
        Cause::LastArgument => rule(begins_with(',', text), begins_operation(text)),
        Cause::ConditionEnd => rule(false, begins_operation(text)),
        _ => ParseErrorKind::Syntax,
    }
}

/// The rule of the number of arguments, of their types, or of the grammar.
fn rule(count: bool, types: bool) -> ParseErrorKind
    ensures { result ≡ rule count types }
{
    if count {
        ParseErrorKind::ArgumentCount
    } else if types {
        ParseErrorKind::TypeMismatch
    } else {
        ParseErrorKind::Syntax
    }
}

/// Whether the text begins with an operator, or with a segment.
fn begins_operation(text: &[char]) -> bool
    ensures { result ≡ begins_operation text.now }
{
    let Some((first, rest)) = text.split_first() else {
        return false;
    };
    match *first {
        '<' | '>' | '.' | '[' => true,
        '=' | '!' => begins_with('=', rest),
        '&' | '|' => begins_with(*first, rest),
        _ => false,
    }
}

/// Whether the text begins with an expression in parentheses or after `!`.
fn begins_condition(text: &[char]) -> bool
    ensures { result ≡ begins_condition text.now }
{
    begins_with('(', text) || begins_with('!', text)
}

/// Whether the text begins with a literal or a call of one of the five functions.
fn begins_value(text: &[char]) -> bool
    ensures { result ≡ begins_value text.now }
{
    is_known_call(text) || begins_literal(text)
}

/// Whether the text begins with a literal.
fn begins_literal(text: &[char]) -> bool
    ensures { result ≡ begins_literal text.now }
{
    let Some((first, _)) = text.split_first() else {
        return false;
    };
    is_quote(*first)
        || begins_integer(text)
        || begins(&['t', 'r', 'u', 'e'], text)
        || begins(&['f', 'a', 'l', 's', 'e'], text)
        || begins(&['n', 'u', 'l', 'l'], text)
}

/// Whether the text begins with a call of a function that is none of the five.
fn is_unknown_call(text: &[char]) -> bool
    ensures { result ≡ is_unknown_call text.now }
{
    is_call(text) && !is_known_call(text)
}

/// Whether the text begins with a call of one of the five functions.
fn is_known_call(text: &[char]) -> bool
    ensures { result ≡ is_known_call text.now }
{
    begins(&['l', 'e', 'n', 'g', 't', 'h', '('], text)
        || begins(&['c', 'o', 'u', 'n', 't', '('], text)
        || begins(&['v', 'a', 'l', 'u', 'e', '('], text)
        || begins(&['m', 'a', 't', 'c', 'h', '('], text)
        || begins(&['s', 'e', 'a', 'r', 'c', 'h', '('], text)
}

/// Whether the text begins with a function's name and a parenthesis.
fn is_call(text: &[char]) -> bool
    ensures { result ≡ is_call text.now }
{
    let Some((first, rest)) = text.split_first() else {
        return false;
    };
    is_letter(*first) && ends_name(rest)
}

/// Whether the characters of a function's name and a parenthesis come first.
fn ends_name(text: &[char]) -> bool
    ensures { result ≡ ends_name text.now }
{
    let mut rest = text;
    while let Some((first, after)) = rest.split_first() {
        if *first == '(' {
            return true;
        }
        if !is_function_name_char(*first) {
            return false;
        }
        rest = after;
    }
    false
}

fn is_function_name_char(c: char) -> bool
    ensures { result ≡ is_function_name_char c }
{
    is_letter(c) || c == '_' || is_digit(c)
}

/// Whether it is a letter from `a` to `z`.
fn is_letter(c: char) -> bool
    ensures { result ≡ is_letter c }
{
    'a' <= c && c <= 'z'
}

/// Whether the text begins with an integer above 2^53 - 1.
fn is_large(text: &[char]) -> bool
    ensures { result ≡ is_large text.now }
{
    let Some((first, _)) = text.split_first() else {
        return false;
    };
    '1' <= *first && *first <= '9' && magnitude(text).is_err()
}

/// Whether the text begins with the character.
pub(crate) fn begins_with(c: char, text: &[char]) -> bool
    ensures { result ≡ begins_with c text.now }
{
    let Some((first, _)) = text.split_first() else {
        return false;
    };
    *first == c
}

/// Whether the text begins with the word.
fn begins(word: &[char], text: &[char]) -> bool
    ensures { result ≡ begins word.now text.now }
{
    let mut letters = word;
    let mut rest = text;
    while let Some((letter, others)) = letters.split_first() {
        let Some((first, after)) = rest.split_first() else {
            return false;
        };
        if *first != *letter {
            return false;
        }
        letters = others;
        rest = after;
    }
    true
}
