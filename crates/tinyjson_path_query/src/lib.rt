//! Queries of JSONPath (RFC 9535): the parser, and the types for a parsed query.
//!
//! ```
//! let query = Query::parse(alloc, "$.store.book[*].author")?;
//! ```
#![tactic(auto)]

mod comparable;
mod error;
mod lexical;
mod nesting;
mod parse;
mod query;
mod refusal;
mod string;

pub use error::{ParseError, ParseErrorKind};
pub use query::{
    Comparable, ComparisonOperator, Expression, FilterQuery, FunctionExpression, Literal, Origin,
    PatternFunction, Query, Segment, Selector, SingularQuery, SingularSegment,
};
