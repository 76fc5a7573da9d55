//! Whether a query asks for a regular expression.
ghost use Rattle.std.specs.Prelude.{◌≡◌, map};
ghost use Rattle.tinyjson_path.specs.Asking.{any_true, has_pattern, in_segment, in_selector};
ghost use Rattle.tinyjson_path.specs.Asking.{in_expression, in_comparable, in_function, in_query};

use tinyjson_path_query::{
    Comparable, Expression, FilterQuery, FunctionExpression, Query, Segment, Selector,
};

/// Whether the query has a call of `match` or `search` (RFC 9535, 2.4.6 and 2.4.7). Where it has none, tests show that
/// out of memory is the only error of [`find`](crate::find).
///
/// ```
/// let query = Query::parse(alloc, "$[?match(@.a, 'b+')]")?;
/// assert!(rt; has_pattern(&query));
/// ```
pub fn has_pattern(query: &Query) -> bool
    ensures { result ≡ has_pattern query.now }
{
    is_in_segments(query.segments.as_slice())
}

#[cycle(asking)]
fn is_in_segments(segments: &[Segment]) -> bool
    ensures { result ≡ any_true (map in_segment segments.now) }
{
    for segment in segments {
        if is_in_segment(segment) {
            return true;
        }
    }
    false
}

#[cycle(asking)]
fn is_in_segment(segment: &Segment) -> bool
    ensures { result ≡ in_segment segment.now }
{
    match segment {
        Segment::Child(selectors) => is_in_selectors(selectors.as_slice()),
        Segment::Descendant(selectors) => is_in_selectors(selectors.as_slice()),
    }
}

#[cycle(asking)]
fn is_in_selectors(selectors: &[Selector]) -> bool
    ensures { result ≡ any_true (map in_selector selectors.now) }
{
    for selector in selectors {
        if is_in_selector(selector) {
            return true;
        }
    }
    false
}

#[cycle(asking)]
fn is_in_selector(selector: &Selector) -> bool
    ensures { result ≡ in_selector selector.now }
{
    match selector {
        Selector::Filter(expression) => is_in_expression(expression),
        Selector::Name(_) => false,
        Selector::Wildcard => false,
        Selector::Index(_) => false,
        Selector::Slice { .. } => false,
    }
}

#[cycle(asking)]
fn is_in_expression(expression: &Expression) -> bool
    ensures { result ≡ in_expression expression.now }
{
    match expression {
        Expression::Or(expressions) => is_in_expressions(expressions.as_slice()),
        Expression::And(expressions) => is_in_expressions(expressions.as_slice()),
        Expression::Not(expression) => is_in_expression(expression),
        Expression::Comparison(_, left, right) => {
            is_in_comparable(left) || is_in_comparable(right)
        }
        Expression::Test(query) => is_in_query(query),
        Expression::Pattern(_, _, _) => true,
    }
}

#[cycle(asking)]
fn is_in_expressions(expressions: &[Expression]) -> bool
    ensures { result ≡ any_true (map in_expression expressions.now) }
{
    for expression in expressions {
        if is_in_expression(expression) {
            return true;
        }
    }
    false
}

#[cycle(asking)]
fn is_in_comparable(comparable: &Comparable) -> bool
    ensures { result ≡ in_comparable comparable.now }
{
    match comparable {
        Comparable::Literal(_) => false,
        Comparable::SingularQuery(_) => false,
        Comparable::Function(function) => is_in_function(function),
    }
}

#[cycle(asking)]
fn is_in_function(function: &FunctionExpression) -> bool
    ensures { result ≡ in_function function.now }
{
    match function {
        FunctionExpression::Length(argument) => is_in_comparable(argument),
        FunctionExpression::Count(query) => is_in_query(query),
        FunctionExpression::Value(query) => is_in_query(query),
    }
}

#[cycle(asking)]
fn is_in_query(query: &FilterQuery) -> bool
    ensures { result ≡ in_query query.now }
{
    is_in_segments(query.segments.as_slice())
}
