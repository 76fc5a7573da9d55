//! A parsed query of JSONPath (RFC 9535).

use tinyjson::JsonNumber;

/// A query: its segments in order, from the root on (RFC 9535, 2.1).
#[derive(Drop)]
pub struct Query {
    pub segments: Vec<Segment>,
}

/// A segment (RFC 9535, 2.5). It has at least one selector.
#[derive(Drop)]
#[cycle(segments)]
pub enum Segment {
    /// Selects children of a node.
    Child(Vec<Selector>),
    /// `..`: selects children of a node and of each of its descendants.
    Descendant(Vec<Selector>),
}

/// What a segment selects among the children of a node (RFC 9535, 2.3).
#[derive(Drop)]
#[cycle(segments)]
pub enum Selector {
    Name(String),
    Wildcard,
    /// An index; below zero it counts from the end.
    Index(i64),
    /// `start:end:step`.
    Slice {
        start: Option<i64>,
        end: Option<i64>,
        step: Option<i64>,
    },
    /// `?`: the children for which the expression is true.
    Filter(Expression),
}

/// A logical expression (RFC 9535, 2.3.5.1). In a parsed query at most 64 expressions and function arguments
/// are nested.
// The operands of comparisons are in boxes, so that functions which recurse over expressions take less stack.
#[derive(Drop)]
#[cycle(segments)]
pub enum Expression {
    /// `||`: true if one of these is. There is at least one.
    Or(Vec<Expression>),
    /// `&&`: true if each of these is. There is at least one.
    And(Vec<Expression>),
    /// `!`: true if this one is false.
    Not(Box<Expression>),
    /// A comparison of the left value and the right one (RFC 9535, 2.3.5.2.2).
    Comparison(ComparisonOperator, Box<Comparable>, Box<Comparable>),
    /// True if the query selects a node.
    Test(FilterQuery),
    /// `match` or `search` (RFC 9535, 2.4.6 and 2.4.7) of a value and a regular expression.
    Pattern(PatternFunction, Box<Comparable>, Box<Comparable>),
}

/// A function of regular expressions (RFC 9485); it is a test.
#[derive(Clone, Copy)]
pub enum PatternFunction {
    /// `match`: true if the regular expression matches the whole string.
    Match,
    /// `search`: true if it matches a part of the string.
    Search,
}

#[derive(Clone, Copy)]
pub enum ComparisonOperator {
    /// `==`
    Equal,
    /// `!=`
    NotEqual,
    /// `<`
    Less,
    /// `<=`
    LessOrEqual,
    /// `>`
    Greater,
    /// `>=`
    GreaterOrEqual,
}

/// An operand of a comparison, which yields a value or nothing.
#[derive(Drop)]
#[cycle(segments)]
pub enum Comparable {
    Literal(Literal),
    SingularQuery(SingularQuery),
    Function(FunctionExpression),
}

/// A literal of the query.
#[derive(Drop)]
pub enum Literal {
    Null,
    Boolean(bool),
    /// An exact decimal.
    Number(JsonNumber),
    /// The characters between the quotes.
    String(String),
}

/// A function that returns a value or nothing, with its argument (RFC 9535, 2.4).
#[derive(Drop)]
#[cycle(segments)]
pub enum FunctionExpression {
    /// `length`: the number of characters of a string, of items of an array or of members of an object; else
    /// nothing.
    Length(Box<Comparable>),
    /// `count`: the number of nodes that the query selects, with duplicates.
    Count(FilterQuery),
    /// `value`: the value of the only node that the query selects; nothing if it selects none or several.
    Value(FilterQuery),
}

/// A query inside a filter.
#[derive(Drop)]
#[cycle(segments)]
pub struct FilterQuery {
    pub origin: Origin,
    pub segments: Vec<Segment>,
}

/// A query that selects at most one node: its value, or nothing.
#[derive(Drop)]
pub struct SingularQuery {
    pub origin: Origin,
    pub segments: Vec<SingularSegment>,
}

/// A segment with one selector (RFC 9535, 2.3.5.1).
#[derive(Drop)]
pub enum SingularSegment {
    Name(String),
    /// An index; below zero it counts from the end.
    Index(i64),
}

/// Where a query inside a filter begins.
#[derive(Clone, Copy)]
pub enum Origin {
    /// `$`
    Root,
    /// `@`, the node that the filter tests.
    CurrentNode,
}
