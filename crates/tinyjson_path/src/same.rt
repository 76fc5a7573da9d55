//! Whether two parts of a query are the same, so that what one selects need not be found again for the other.
ghost use Rattle.std.specs.Prelude.{◌≡◌, true, map};
ghost use Rattle.tinyjson_path.specs.Comparing.{literal_tree, one_child, one_tree};
ghost use Rattle.tinyjson_path.specs.Queries.{comparable_value, filter_parts, holds_of};
ghost use Rattle.tinyjson_path.specs.Queries.{segment_parts, selector_parts};
ghost use Rattle.tinyjson_path_query.specs.declared.query.Comparable.{Comparable};

use tinyjson_path_query::{
    Comparable, ComparisonOperator, Expression, FilterQuery, FunctionExpression, Literal, Origin,
    PatternFunction, Segment, Selector, SingularQuery, SingularSegment,
};

/// Whether the segments are the same.
#[cycle(comparing)]
pub(crate) fn are_same(left: &[Segment], right: &[Segment]) -> bool
    ensures { result ≡ true → map segment_parts left.now ≡ map segment_parts right.now }
{
    if left.len() != right.len() {
        return false;
    }
    for index in 0..left.len() {
        if !is_same(&left[index], &right[index]) {
            return false;
        }
    }
    true
}

#[cycle(comparing)]
fn is_same(left: &Segment, right: &Segment) -> bool
    ensures { result ≡ true → segment_parts left.now ≡ segment_parts right.now }
{
    match (left, right) {
        (Segment::Child(left), Segment::Child(right)) => {
            are_selectors_same(left.as_slice(), right.as_slice())
        }
        (Segment::Descendant(left), Segment::Descendant(right)) => {
            are_selectors_same(left.as_slice(), right.as_slice())
        }
        _ => false,
    }
}

#[cycle(comparing)]
fn are_selectors_same(left: &[Selector], right: &[Selector]) -> bool
    ensures { result ≡ true → map selector_parts left.now ≡ map selector_parts right.now }
{
    if left.len() != right.len() {
        return false;
    }
    for index in 0..left.len() {
        if !is_selector_same(&left[index], &right[index]) {
            return false;
        }
    }
    true
}

#[cycle(comparing)]
fn is_selector_same(left: &Selector, right: &Selector) -> bool
    ensures { result ≡ true → selector_parts left.now ≡ selector_parts right.now }
{
    match (left, right) {
        (Selector::Name(left), Selector::Name(right)) => left.as_str() == right.as_str(),
        (Selector::Wildcard, Selector::Wildcard) => true,
        (Selector::Index(left), Selector::Index(right)) => *left == *right,
        (
            Selector::Slice { start, end, step },
            Selector::Slice {
                start: from,
                end: to,
                step: by,
            },
        ) => is_bound_same(*start, *from) && is_bound_same(*end, *to) && is_bound_same(*step, *by),
        (Selector::Filter(left), Selector::Filter(right)) => is_expression_same(left, right),
        _ => false,
    }
}

fn is_bound_same(left: Option<i64>, right: Option<i64>) -> bool
    ensures { result ≡ true → left ≡ right }
{
    match (left, right) {
        (None, None) => true,
        (Some(left), Some(right)) => left == right,
        _ => false,
    }
}

#[cycle(comparing)]
pub(crate) fn is_expression_same(left: &Expression, right: &Expression) -> bool
    ensures { result ≡ true → holds_of left.now ≡ holds_of right.now }
{
    match (left, right) {
        (Expression::Or(left), Expression::Or(right)) => {
            are_expressions_same(left.as_slice(), right.as_slice())
        }
        (Expression::And(left), Expression::And(right)) => {
            are_expressions_same(left.as_slice(), right.as_slice())
        }
        (Expression::Not(left), Expression::Not(right)) => is_expression_same(left, right),
        (
            Expression::Comparison(operator, left, right),
            Expression::Comparison(other, left_of_other, right_of_other),
        ) => {
            is_operator_same(*operator, *other)
                && is_comparable_same(left, left_of_other)
                && is_comparable_same(right, right_of_other)
        }
        (Expression::Test(left), Expression::Test(right)) => is_query_same(left, right),
        (
            Expression::Pattern(function, value, pattern),
            Expression::Pattern(other, value_of_other, pattern_of_other),
        ) => {
            is_pattern_function_same(*function, *other)
                && is_comparable_same(value, value_of_other)
                && is_comparable_same(pattern, pattern_of_other)
        }
        _ => false,
    }
}

#[cycle(comparing)]
fn are_expressions_same(left: &[Expression], right: &[Expression]) -> bool
    ensures { result ≡ true → map holds_of left.now ≡ map holds_of right.now }
{
    if left.len() != right.len() {
        return false;
    }
    for index in 0..left.len() {
        if !is_expression_same(&left[index], &right[index]) {
            return false;
        }
    }
    true
}

fn is_operator_same(left: ComparisonOperator, right: ComparisonOperator) -> bool
    ensures { result ≡ true → left ≡ right }
{
    match (left, right) {
        (ComparisonOperator::Equal, ComparisonOperator::Equal) => true,
        (ComparisonOperator::NotEqual, ComparisonOperator::NotEqual) => true,
        (ComparisonOperator::Less, ComparisonOperator::Less) => true,
        (ComparisonOperator::LessOrEqual, ComparisonOperator::LessOrEqual) => true,
        (ComparisonOperator::Greater, ComparisonOperator::Greater) => true,
        (ComparisonOperator::GreaterOrEqual, ComparisonOperator::GreaterOrEqual) => true,
        _ => false,
    }
}

fn is_pattern_function_same(left: PatternFunction, right: PatternFunction) -> bool
    ensures { result ≡ true → left ≡ right }
{
    match (left, right) {
        (PatternFunction::Match, PatternFunction::Match) => true,
        (PatternFunction::Search, PatternFunction::Search) => true,
        _ => false,
    }
}

fn is_origin_same(left: Origin, right: Origin) -> bool
    ensures { result ≡ true → left ≡ right }
{
    match (left, right) {
        (Origin::Root, Origin::Root) => true,
        (Origin::CurrentNode, Origin::CurrentNode) => true,
        _ => false,
    }
}

#[cycle(comparing)]
pub(crate) fn is_comparable_same(left: &Comparable, right: &Comparable) -> bool
    ensures { result ≡ true → comparable_value left.now ≡ comparable_value right.now }
{
    match (left, right) {
        (Comparable::Literal(left), Comparable::Literal(right)) => is_literal_same(left, right),
        (Comparable::SingularQuery(left), Comparable::SingularQuery(right)) => {
            is_singular_query_same(left, right)
        }
        (Comparable::Function(left), Comparable::Function(right)) => is_function_same(left, right),
        _ => false,
    }
}

#[cycle(comparing)]
fn is_function_same(left: &FunctionExpression, right: &FunctionExpression) -> bool
    ensures { result ≡ true → comparable_value (Comparable.Function left.now)
        ≡ comparable_value (Comparable.Function right.now) }
{
    match (left, right) {
        (FunctionExpression::Length(left), FunctionExpression::Length(right)) => {
            is_comparable_same(left, right)
        }
        (FunctionExpression::Count(left), FunctionExpression::Count(right)) => {
            is_query_same(left, right)
        }
        (FunctionExpression::Value(left), FunctionExpression::Value(right)) => {
            is_query_same(left, right)
        }
        _ => false,
    }
}

#[cycle(comparing)]
fn is_query_same(left: &FilterQuery, right: &FilterQuery) -> bool
    ensures { result ≡ true → filter_parts left.now ≡ filter_parts right.now }
{
    is_origin_same(left.origin, right.origin)
        && are_same(left.segments.as_slice(), right.segments.as_slice())
}

fn is_literal_same(left: &Literal, right: &Literal) -> bool
    ensures { result ≡ true → literal_tree left.now ≡ literal_tree right.now }
{
    match (left, right) {
        (Literal::Null, Literal::Null) => true,
        (Literal::Boolean(left), Literal::Boolean(right)) => *left == *right,
        (Literal::Number(left), Literal::Number(right)) => *left == *right,
        (Literal::String(left), Literal::String(right)) => left.as_str() == right.as_str(),
        _ => false,
    }
}

fn is_singular_query_same(left: &SingularQuery, right: &SingularQuery) -> bool
    ensures { result ≡ true → one_tree left.now ≡ one_tree right.now }
{
    is_origin_same(left.origin, right.origin)
        && are_steps_same(left.segments.as_slice(), right.segments.as_slice())
}

fn are_steps_same(left: &[SingularSegment], right: &[SingularSegment]) -> bool
    ensures { result ≡ true → map one_child left.now ≡ map one_child right.now }
{
    if left.len() != right.len() {
        return false;
    }
    for index in 0..left.len() {
        if !is_step_same(&left[index], &right[index]) {
            return false;
        }
    }
    true
}

fn is_step_same(left: &SingularSegment, right: &SingularSegment) -> bool
    ensures { result ≡ true → one_child left.now ≡ one_child right.now }
{
    match (left, right) {
        (SingularSegment::Name(left), SingularSegment::Name(right)) => {
            left.as_str() == right.as_str()
        }
        (SingularSegment::Index(left), SingularSegment::Index(right)) => *left == *right,
        _ => false,
    }
}
