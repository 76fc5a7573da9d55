//! Parses the text of a query.
ghost use Rattle.std.specs.Prelude.{◌≡◌, ◌∷◌, [], IfOk};
ghost use Rattle.std.specs.Str.{chars};
ghost use Rattle.tinyjson_path_query.specs.Forms.{IsPlain, IsOneSelector, IsSelector, AreSelectorsIn, IsSegment, AreSegmentsIn};
ghost use Rattle.tinyjson_path_query.specs.Forms.{IsOperand, IsBasic, IsConjunction, IsExpression, IsArgument};
ghost use Rattle.tinyjson_path_query.specs.Forms.{IsComparable, IsFunction, IsFilterQuery};
ghost use Rattle.tinyjson_path_query.specs.Fronts.{bound_front, step_front, slice_front, plain_front, int_selector_front};
ghost use Rattle.tinyjson_path_query.specs.Fronts.{shorthand_front, selector_front, selection_front, descendant_front};
ghost use Rattle.tinyjson_path_query.specs.Fronts.{begins_segment, segment_front, segments_front, operand_front};
ghost use Rattle.tinyjson_path_query.specs.Fronts.{basic_front, conjunction_front, expression_front, argument_front};
ghost use Rattle.tinyjson_path_query.specs.Fronts.{comparable_front, function_front, filter_query_front, closed_front};
ghost use Rattle.tinyjson_path_query.specs.Fronts.{pattern_front, arguments_front};
ghost use Rattle.tinyjson_path_query.specs.Kinds.{end_of};
ghost use Rattle.tinyjson_path_query.specs.Reading.{Reads, ReadsQuery, Fronts, FrontsAs};

use crate::comparable::{
    begins_call, begins_pattern, literal, operator, origin, singular_segments,
};
use crate::error::{ParseError, ParseErrorKind};
use crate::lexical::{
    after_blanks, begins_integer, behind, behind_both, behind_word, integer, is_name_first, push,
    push_name_chars,
};
use crate::query::{
    Comparable, Expression, FilterQuery, FunctionExpression, PatternFunction, Query, Segment,
    Selector, SingularQuery,
};
use crate::refusal::{Cause, Refusal, begins_with};
use crate::string::quoted;
use std::alloc::{AllocError, Global};

/// How many logical expressions and function arguments may be nested.
pub(crate) const NESTING_LIMIT: usize = 64;

impl Query {
    /// Parses the text of a query (RFC 9535), with at most 64 nested logical expressions and function
    /// arguments. After an error everything is freed.
    ///
    /// ```
    /// let query = Query::parse(alloc, "$.store.book[*].author")?;
    /// assert_eq!(rt; query.segments.len(), 4);
    /// ```
    pub fn parse(alloc: Global, text: &str) -> Result<Query, ParseError>
        ensures { Reads (chars text.now) result }
    {
        let Ok(all) = characters(alloc, text) else {
            return Err(ParseError {
                kind: ParseErrorKind::OutOfMemory,
                place: 0,
            });
        };
        let text = all.as_slice();
        match query(alloc, NESTING_LIMIT, text) {
            Ok(query) => Ok(query),
            Err(refusal) => Err(refusal.error(alloc, text)),
        }
    }
}

/// The characters of a text.
#[tactic(auto, using(std::proofs::lemmas::Str::chars_from_encodes))]
fn characters(alloc: Global, text: &str) -> Result<Vec<char>, AllocError>
    ensures { IfOk result (λ v. v.items ≡ chars text.now) }
{
    text.chars().collect(alloc)
}

/// Parses a whole query, with at most `levels` nested expressions and function arguments.
fn query(alloc: Global, levels: usize, text: &[char]) -> Result<Query, Refusal>
    ensures { ReadsQuery levels text.now result }
{
    let Some((first, rest)) = text.split_first() else {
        return Err(Refusal::at(Cause::Character, text));
    };
    if *first != '$' {
        return Err(Refusal::at(Cause::Character, text));
    }
    let (segments, after) = segments(alloc, levels, rest)?;
    if !after.is_empty() {
        return Err(Refusal::at(Cause::Character, after));
    }
    Ok(Query { segments })
}

/// Parses segments, as many as there are.
#[cycle(reader)]
fn segments<'t>(
    alloc: Global,
    levels: usize,
    text: &'t [char],
) -> Result<(Vec<Segment>, &'t [char]), Refusal>
    ensures { Fronts (AreSegmentsIn (IsExpression levels))
        (segments_front (expression_front levels) text.now) result }
{
    let mut segments = Vec::new(alloc);
    let mut rest = text;
    while begins_segment(after_blanks(rest)) {
        let (segment, after) = segment(alloc, levels, after_blanks(rest))?;
        segments.push(segment)?;
        rest = after;
    }
    Ok((segments, rest))
}

fn begins_segment(text: &[char]) -> bool
    ensures { result ≡ begins_segment text.now }
{
    let Some((first, _)) = text.split_first() else {
        return false;
    };
    *first == '[' || *first == '.'
}

/// Parses a segment.
#[cycle(reader)]
fn segment<'t>(
    alloc: Global,
    levels: usize,
    text: &'t [char],
) -> Result<(Segment, &'t [char]), Refusal>
    ensures { Fronts (IsSegment (IsExpression levels))
        (segment_front (expression_front levels) text.now) result }
{
    let Some((first, rest)) = text.split_first() else {
        return Err(Refusal::at(Cause::Character, text));
    };
    if *first == '[' {
        let (selectors, after) = selection(alloc, levels, rest)?;
        return Ok((Segment::Child(selectors), after));
    }
    if *first != '.' {
        return Err(Refusal::at(Cause::Character, text));
    }
    let Some((next, behind)) = rest.split_first() else {
        return Err(Refusal::at(Cause::Character, rest));
    };
    if *next == '.' {
        return descendant(alloc, levels, behind);
    }
    let (selectors, after) = shorthand(alloc, rest)?;
    Ok((Segment::Child(selectors), after))
}

/// Parses a descendant segment after its two points.
#[cycle(reader)]
fn descendant<'t>(
    alloc: Global,
    levels: usize,
    text: &'t [char],
) -> Result<(Segment, &'t [char]), Refusal>
    ensures { Fronts (IsSegment (IsExpression levels))
        (descendant_front (expression_front levels) text.now) result }
{
    let Some((first, rest)) = text.split_first() else {
        return Err(Refusal::at(Cause::Character, text));
    };
    if *first == '[' {
        let (selectors, after) = selection(alloc, levels, rest)?;
        return Ok((Segment::Descendant(selectors), after));
    }
    let (selectors, after) = shorthand(alloc, text)?;
    Ok((Segment::Descendant(selectors), after))
}

/// Parses the single selector after a point.
fn shorthand<'t>(alloc: Global, text: &'t [char]) -> Result<(Vec<Selector>, &'t [char]), Refusal>
    ensures { Fronts IsOneSelector (shorthand_front text.now) result }
{
    let Some((first, rest)) = text.split_first() else {
        return Err(Refusal::at(Cause::Character, text));
    };
    let mut selectors = Vec::new(alloc);
    if *first == '*' {
        selectors.push(Selector::Wildcard)?;
        return Ok((selectors, rest));
    }
    if !is_name_first(*first) {
        return Err(Refusal::at(Cause::Character, text));
    }
    let mut name = String::new(alloc);
    push(&mut name, *first)?;
    let after = push_name_chars(&mut name, rest)?;
    selectors.push(Selector::Name(name))?;
    Ok((selectors, after))
}

/// Parses selectors after a bracket, and the closing bracket.
#[cycle(reader)]
fn selection<'t>(
    alloc: Global,
    levels: usize,
    text: &'t [char],
) -> Result<(Vec<Selector>, &'t [char]), Refusal>
    ensures { Fronts (AreSelectorsIn (IsExpression levels))
        (selection_front (expression_front levels) text.now) result }
{
    let mut selectors = Vec::new(alloc);
    let mut rest = text;
    loop {
        let (selector, after) = selector(alloc, levels, after_blanks(rest))?;
        let cause = end_of(&selector);
        selectors.push(selector)?;
        let Some((separator, behind)) = after.split_first() else {
            return Err(Refusal::at(cause, after));
        };
        if *separator == ']' {
            return Ok((selectors, behind));
        }
        if *separator != ',' {
            return Err(Refusal::at(cause, after));
        }
        rest = behind;
    }
}

/// What is missing where neither a comma nor a bracket is behind the selector.
fn end_of(selector: &Selector) -> Cause
    ensures { result ≡ end_of selector.now }
{
    match selector {
        Selector::Filter(_) => Cause::ConditionEnd,
        _ => Cause::Character,
    }
}

/// Parses a selector, and the blanks after it.
#[cycle(reader)]
fn selector<'t>(
    alloc: Global,
    levels: usize,
    text: &'t [char],
) -> Result<(Selector, &'t [char]), Refusal>
    ensures { Fronts (IsSelector (IsExpression levels))
        (selector_front (expression_front levels) text.now) result }
{
    let Some((first, rest)) = text.split_first() else {
        return Err(Refusal::at(Cause::Character, text));
    };
    if *first == '?' {
        let (condition, after) = expression(alloc, levels, after_blanks(rest))?;
        return Ok((Selector::Filter(condition), after));
    }
    plain_selector(alloc, text)
}

/// Parses a logical expression and the blanks after it, if one more may be nested here.
#[cycle(reader)]
fn expression<'t>(
    alloc: Global,
    levels: usize,
    text: &'t [char],
) -> Result<(Expression, &'t [char]), Refusal>
    ensures { Fronts (IsExpression levels) (expression_front levels text.now) result }
{
    if levels == 0 {
        return Err(Refusal::at(Cause::TooDeep, text));
    }
    let mut alternatives = Vec::new(alloc);
    let mut rest = text;
    loop {
        let (alternative, after) = conjunction(alloc, levels - 1, rest)?;
        alternatives.push(alternative)?;
        let Some(more) = behind_both('|', after) else {
            return Ok((Expression::Or(alternatives), after));
        };
        rest = more;
    }
}

/// Parses the operands of `&&`, and the blanks after them.
#[cycle(reader)]
fn conjunction<'t>(
    alloc: Global,
    levels: usize,
    text: &'t [char],
) -> Result<(Expression, &'t [char]), Refusal>
    ensures { Fronts (IsConjunction (IsExpression levels) (IsArgument levels))
        (conjunction_front (expression_front levels) (argument_front levels) text.now) result }
{
    let mut conditions = Vec::new(alloc);
    let mut rest = text;
    loop {
        let (condition, after) = basic(alloc, levels, rest)?;
        conditions.push(condition)?;
        let Some(more) = behind_both('&', after) else {
            return Ok((Expression::And(conditions), after));
        };
        rest = more;
    }
}

/// Parses one condition, and the blanks after it.
#[cycle(reader)]
fn basic<'t>(
    alloc: Global,
    levels: usize,
    text: &'t [char],
) -> Result<(Expression, &'t [char]), Refusal>
    ensures { Fronts (IsBasic (IsExpression levels) (IsArgument levels))
        (basic_front (expression_front levels) (argument_front levels) text.now) result }
{
    let Some((first, rest)) = text.split_first() else {
        return Err(Refusal::at(Cause::Value, text));
    };
    if *first == '!' {
        let (condition, after) = operand(alloc, levels, after_blanks(rest))?;
        return Ok((Expression::Not(Box::new(alloc, condition)?), after));
    }
    if *first == '(' {
        return operand(alloc, levels, text);
    }
    if begins_pattern(*first) {
        return operand(alloc, levels, text);
    }
    let (left, after) = comparable(alloc, levels, text)?;
    let Some((operator, behind)) = operator(after_blanks(after)) else {
        return operand(alloc, levels, text);
    };
    let (right, rest) = comparable(alloc, levels, after_blanks(behind))?;
    Ok((
        Expression::Comparison(operator, Box::new(alloc, left)?, Box::new(alloc, right)?),
        after_blanks(rest),
    ))
}

/// Parses a test by `match` or `search` (RFC 9535, 2.4.6 and 2.4.7), and the blanks after it.
#[cycle(reader)]
fn pattern_test<'t>(
    alloc: Global,
    levels: usize,
    text: &'t [char],
) -> Result<(Expression, &'t [char]), Refusal>
    ensures { Fronts (IsOperand (IsExpression levels) (IsArgument levels))
        (pattern_front (argument_front levels) text.now) result }
{
    if let Some(rest) = behind_word(&['m', 'a', 't', 'c', 'h', '('], text) {
        return pattern_arguments(alloc, levels, PatternFunction::Match, rest);
    }
    let Some(rest) = behind_word(&['s', 'e', 'a', 'r', 'c', 'h', '('], text) else {
        return Err(Refusal::at(Cause::Test, text));
    };
    pattern_arguments(alloc, levels, PatternFunction::Search, rest)
}

/// Parses the two arguments of such a function, the closing parenthesis, and the blanks after it.
#[cycle(reader)]
fn pattern_arguments<'t>(
    alloc: Global,
    levels: usize,
    function: PatternFunction,
    text: &'t [char],
) -> Result<(Expression, &'t [char]), Refusal>
    ensures { Fronts (IsOperand (IsExpression levels) (IsArgument levels))
        (arguments_front (argument_front levels) function text.now) result }
{
    let (value, after) = argument(alloc, levels, after_blanks(text))?;
    let rest = after_blanks(after);
    let Some(second) = behind(',', rest) else {
        return Err(Refusal::at(Cause::Comma, rest));
    };
    let (pattern, behind) = value_argument(alloc, levels, second)?;
    Ok((
        Expression::Pattern(function, Box::new(alloc, value)?, Box::new(alloc, pattern)?),
        after_blanks(behind),
    ))
}

/// Parses an operand of a comparison.
#[cycle(reader)]
fn comparable<'t>(
    alloc: Global,
    levels: usize,
    text: &'t [char],
) -> Result<(Comparable, &'t [char]), Refusal>
    ensures { Fronts (IsComparable (IsExpression levels) (IsArgument levels))
        (comparable_front (expression_front levels) (argument_front levels) text.now) result }
{
    let Some((first, rest)) = text.split_first() else {
        return Err(Refusal::at(Cause::Value, text));
    };
    if let Some(origin) = origin(*first) {
        let (segments, after) = singular_segments(alloc, rest)?;
        let query = SingularQuery { origin, segments };
        return Ok((Comparable::SingularQuery(query), after));
    }
    if begins_call(*first) {
        let (function, after) = function(alloc, levels, text)?;
        return Ok((Comparable::Function(function), after));
    }
    let (literal, after) = literal(alloc, text)?;
    Ok((Comparable::Literal(literal), after))
}

/// Parses a function with its argument (RFC 9535, 2.4.4, 2.4.5 and 2.4.8).
#[cycle(reader)]
fn function<'t>(
    alloc: Global,
    levels: usize,
    text: &'t [char],
) -> Result<(FunctionExpression, &'t [char]), Refusal>
    ensures { Fronts (IsFunction (IsExpression levels) (IsArgument levels))
        (function_front (expression_front levels) (argument_front levels) text.now) result }
{
    if let Some(rest) = behind_word(&['l', 'e', 'n', 'g', 't', 'h', '('], text) {
        let (value, after) = value_argument(alloc, levels, rest)?;
        return Ok((FunctionExpression::Length(Box::new(alloc, value)?), after));
    }
    if let Some(rest) = behind_word(&['c', 'o', 'u', 'n', 't', '('], text) {
        let (query, after) = query_argument(alloc, levels, rest)?;
        return Ok((FunctionExpression::Count(query), after));
    }
    let Some(rest) = behind_word(&['v', 'a', 'l', 'u', 'e', '('], text) else {
        return Err(Refusal::at(Cause::Value, text));
    };
    let (query, after) = query_argument(alloc, levels, rest)?;
    Ok((FunctionExpression::Value(query), after))
}

/// Parses the argument of a function of a value, and the closing parenthesis.
#[cycle(reader)]
fn value_argument<'t>(
    alloc: Global,
    levels: usize,
    text: &'t [char],
) -> Result<(Comparable, &'t [char]), Refusal>
    ensures { Fronts (IsArgument levels) (closed_front (argument_front levels) text.now) result }
{
    let (value, after) = argument(alloc, levels, after_blanks(text))?;
    let rest = after_blanks(after);
    let Some(behind) = behind(')', rest) else {
        return Err(Refusal::at(Cause::LastArgument, rest));
    };
    Ok((value, behind))
}

/// Parses an argument that is a value, if one more may be nested here.
#[cycle(reader)]
fn argument<'t>(
    alloc: Global,
    levels: usize,
    text: &'t [char],
) -> Result<(Comparable, &'t [char]), Refusal>
    ensures { Fronts (IsArgument levels) (argument_front levels text.now) result }
{
    if levels == 0 {
        return Err(Refusal::at(Cause::TooDeep, text));
    }
    if begins_with(')', text) {
        return Err(Refusal::at(Cause::Argument, text));
    }
    comparable(alloc, levels - 1, text)
}

/// Parses the argument of a function of nodes, and the closing parenthesis.
#[cycle(reader)]
fn query_argument<'t>(
    alloc: Global,
    levels: usize,
    text: &'t [char],
) -> Result<(FilterQuery, &'t [char]), Refusal>
    ensures { Fronts (IsFilterQuery (IsExpression levels))
        (closed_front (filter_query_front (expression_front levels)) text.now) result }
{
    let (query, after) = filter_query(alloc, levels, after_blanks(text))?;
    let rest = after_blanks(after);
    let Some(behind) = behind(')', rest) else {
        return Err(Refusal::at(Cause::LastArgument, rest));
    };
    Ok((query, behind))
}

/// Parses a query inside a filter.
#[cycle(reader)]
fn filter_query<'t>(
    alloc: Global,
    levels: usize,
    text: &'t [char],
) -> Result<(FilterQuery, &'t [char]), Refusal>
    ensures { Fronts (IsFilterQuery (IsExpression levels))
        (filter_query_front (expression_front levels) text.now) result }
{
    let Some((first, rest)) = text.split_first() else {
        return Err(Refusal::at(Cause::Nodes, text));
    };
    let Some(origin) = origin(*first) else {
        return Err(Refusal::at(Cause::Nodes, text));
    };
    let (segments, after) = segments(alloc, levels, rest)?;
    Ok((FilterQuery { origin, segments }, after))
}

/// Parses an expression in parentheses or a test, and the blanks after it.
#[cycle(reader)]
fn operand<'t>(
    alloc: Global,
    levels: usize,
    text: &'t [char],
) -> Result<(Expression, &'t [char]), Refusal>
    ensures { Fronts (IsOperand (IsExpression levels) (IsArgument levels))
        (operand_front (expression_front levels) (argument_front levels) text.now) result }
{
    let Some((first, rest)) = text.split_first() else {
        return Err(Refusal::at(Cause::Test, text));
    };
    if *first == '(' {
        let (condition, after) = expression(alloc, levels, after_blanks(rest))?;
        let Some(behind) = behind(')', after) else {
            return Err(Refusal::at(Cause::ConditionEnd, after));
        };
        return Ok((condition, after_blanks(behind)));
    }
    let Some(origin) = origin(*first) else {
        return pattern_test(alloc, levels, text);
    };
    let (segments, after) = segments(alloc, levels, rest)?;
    Ok((
        Expression::Test(FilterQuery { origin, segments }),
        after_blanks(after),
    ))
}

/// Parses a selector other than a filter, and the blanks after it.
fn plain_selector<'t>(alloc: Global, text: &'t [char]) -> Result<(Selector, &'t [char]), Refusal>
    ensures { Fronts IsPlain (plain_front text.now) result }
{
    let Some((first, rest)) = text.split_first() else {
        return Err(Refusal::at(Cause::Character, text));
    };
    match *first {
        '"' | '\'' => {
            let (name, after) = quoted(alloc, *first, rest)?;
            Ok((Selector::Name(name), after_blanks(after)))
        }
        '*' => Ok((Selector::Wildcard, after_blanks(rest))),
        ':' => slice(None, rest),
        _ => index_or_slice(text),
    }
}

/// Parses an index, or a slice that begins with its start.
fn index_or_slice(text: &[char]) -> Result<(Selector, &[char]), Refusal>
    ensures { Fronts IsPlain (int_selector_front text.now) result }
{
    let (index, rest) = integer(text)?;
    let after = after_blanks(rest);
    let Some((next, behind)) = after.split_first() else {
        return Ok((Selector::Index(index), after));
    };
    if *next != ':' {
        return Ok((Selector::Index(index), after));
    }
    slice(Some(index), behind)
}

/// Parses a slice after its first colon.
fn slice(start: Option<i64>, text: &[char]) -> Result<(Selector, &[char]), Refusal>
    ensures { Fronts IsPlain (slice_front start text.now) result }
{
    let (end, rest) = bound(after_blanks(text))?;
    let (step, after) = step(rest)?;
    Ok((Selector::Slice { start, end, step }, after))
}

/// Parses the end or the step of a slice, if there is one, and the blanks after it.
fn bound(text: &[char]) -> Result<(Option<i64>, &[char]), Refusal>
    ensures { FrontsAs (bound_front text.now) result }
{
    if !begins_integer(text) {
        return Ok((None, text));
    }
    let (bound, rest) = integer(text)?;
    Ok((Some(bound), after_blanks(rest)))
}

/// Parses the step of a slice, if there is a colon, and the blanks after it.
fn step(text: &[char]) -> Result<(Option<i64>, &[char]), Refusal>
    ensures { FrontsAs (step_front text.now) result }
{
    let Some((first, rest)) = text.split_first() else {
        return Ok((None, text));
    };
    if *first != ':' {
        return Ok((None, text));
    }
    bound(after_blanks(rest))
}
