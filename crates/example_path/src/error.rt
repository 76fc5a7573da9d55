//! Why there are no texts.
use tinyjson::JsonParseError;
use tinyjson_path::{FindError, ParseError};

/// Why there are no texts.
#[derive(Drop)]
pub enum TextsError {
    /// The query is not a JSONPath query.
    Query(ParseError),
    /// The document is no JSON text, or nested deeper than 100 levels.
    Document(JsonParseError),
    /// Memory ran out, or a regular expression is too deep or too large.
    Find(FindError),
}
