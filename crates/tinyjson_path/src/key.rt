//! Keys of questions, by which their answers are found. They are hashes: two questions may have one key.
use crate::answers::Question;
use std::hash::{DefaultHasher, Hasher};
use tinyjson_path_query::{
    Comparable, ComparisonOperator, Expression, FilterQuery, FunctionExpression, Literal, Origin,
    PatternFunction, Segment, Selector, SingularQuery, SingularSegment,
};

pub(crate) fn key_of(question: Question) -> u64 {
    let mut key = DefaultHasher::new();
    match question {
        Question::Query(segments) => add_segments(&mut key, segments),
        Question::Any(segments) => {
            key.write_u8(26);
            add_segments(&mut key, segments);
        }
        Question::Test(expression) => add_expression(&mut key, expression),
        Question::Length(argument) => {
            key.write_u8(2);
            add_comparable(&mut key, argument);
        }
    }
    key.finish()
}

#[cycle(adding)]
fn add_segments(key: &mut DefaultHasher, segments: &[Segment]) {
    key.write_usize(segments.len());
    for segment in segments {
        match segment {
            Segment::Child(selectors) => add_selectors(key, selectors.as_slice(), 0),
            Segment::Descendant(selectors) => add_selectors(key, selectors.as_slice(), 1),
        }
    }
}

#[cycle(adding)]
fn add_selectors(key: &mut DefaultHasher, selectors: &[Selector], kind: u8) {
    key.write_u8(kind);
    key.write_usize(selectors.len());
    for selector in selectors {
        add_selector(key, selector);
    }
}

#[cycle(adding)]
fn add_selector(key: &mut DefaultHasher, selector: &Selector) {
    match selector {
        Selector::Name(name) => add_text(key, name.as_str()),
        Selector::Wildcard => key.write_u8(3),
        Selector::Index(index) => key.write_i64(*index),
        Selector::Slice { start, end, step } => {
            add_bound(key, *start);
            add_bound(key, *end);
            add_bound(key, *step);
        }
        Selector::Filter(expression) => add_expression(key, expression),
    }
}

fn add_bound(key: &mut DefaultHasher, bound: Option<i64>) {
    match bound {
        Some(bound) => key.write_i64(bound),
        None => key.write_u8(4),
    }
}

fn add_text(key: &mut DefaultHasher, text: &str) {
    key.write_usize(text.len());
    key.write(text.as_bytes());
}

#[cycle(adding)]
fn add_expression(key: &mut DefaultHasher, expression: &Expression) {
    match expression {
        Expression::Or(expressions) => add_expressions(key, expressions.as_slice(), 5),
        Expression::And(expressions) => add_expressions(key, expressions.as_slice(), 6),
        Expression::Not(expression) => {
            key.write_u8(7);
            add_expression(key, expression);
        }
        Expression::Comparison(operator, left, right) => {
            add_operator(key, *operator);
            add_comparable(key, left);
            add_comparable(key, right);
        }
        Expression::Test(query) => add_query(key, query),
        Expression::Pattern(function, value, pattern) => {
            add_function(key, *function);
            add_comparable(key, value);
            add_comparable(key, pattern);
        }
    }
}

#[cycle(adding)]
fn add_expressions(key: &mut DefaultHasher, expressions: &[Expression], kind: u8) {
    key.write_u8(kind);
    key.write_usize(expressions.len());
    for expression in expressions {
        add_expression(key, expression);
    }
}

fn add_operator(key: &mut DefaultHasher, operator: ComparisonOperator) {
    key.write_u8(match operator {
        ComparisonOperator::Equal => 8,
        ComparisonOperator::NotEqual => 9,
        ComparisonOperator::Less => 10,
        ComparisonOperator::LessOrEqual => 11,
        ComparisonOperator::Greater => 12,
        ComparisonOperator::GreaterOrEqual => 13,
    });
}

fn add_function(key: &mut DefaultHasher, function: PatternFunction) {
    key.write_u8(match function {
        PatternFunction::Match => 14,
        PatternFunction::Search => 15,
    });
}

#[cycle(adding)]
fn add_comparable(key: &mut DefaultHasher, comparable: &Comparable) {
    match comparable {
        Comparable::Literal(literal) => add_literal(key, literal),
        Comparable::SingularQuery(query) => add_singular(key, query),
        Comparable::Function(function) => match function {
            FunctionExpression::Length(argument) => {
                key.write_u8(16);
                add_comparable(key, argument);
            }
            FunctionExpression::Count(query) => {
                key.write_u8(17);
                add_query(key, query);
            }
            FunctionExpression::Value(query) => {
                key.write_u8(18);
                add_query(key, query);
            }
        },
    }
}

#[cycle(adding)]
fn add_query(key: &mut DefaultHasher, query: &FilterQuery) {
    add_origin(key, query.origin);
    add_segments(key, query.segments.as_slice());
}

fn add_origin(key: &mut DefaultHasher, origin: Origin) {
    key.write_u8(match origin {
        Origin::Root => 19,
        Origin::CurrentNode => 20,
    });
}

fn add_singular(key: &mut DefaultHasher, query: &SingularQuery) {
    add_origin(key, query.origin);
    key.write_usize(query.segments.len());
    for segment in &query.segments {
        match segment {
            SingularSegment::Name(name) => add_text(key, name.as_str()),
            SingularSegment::Index(index) => key.write_i64(*index),
        }
    }
}

fn add_literal(key: &mut DefaultHasher, literal: &Literal) {
    match literal {
        Literal::Null => key.write_u8(21),
        Literal::Boolean(is_true) => key.write_u8(if *is_true { 22 } else { 23 }),
        Literal::Number(number) => {
            key.write_u8(if number.is_negative() { 24 } else { 25 });
            key.write_i64(number.power());
            add_text(key, number.digits());
        }
        Literal::String(text) => add_text(key, text.as_str()),
    }
}
