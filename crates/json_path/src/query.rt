//! The query that the arguments name.
ghost use Rattle.std.specs.Str.{chars};
ghost use Rattle.json_path.specs.Query.{IsQueryFailure, ReadsQuery};

use std::alloc::Global;
use tinyjson_cli::Failure;
use tinyjson_path::{ParseError, ParseErrorKind, Query};

/// The query of this text, or the failure that its message is.
pub fn read_query(alloc: Global, text: &str) -> Result<Query, Failure>
    ensures { ReadsQuery (chars text.now) result }
{
    match Query::parse(alloc, text) {
        Ok(query) => Ok(query),
        Err(error) => Err(query_failure(alloc, error)),
    }
}

/// The failure for a text that is no query.
fn query_failure(alloc: Global, error: ParseError) -> Failure
    ensures { IsQueryFailure error result }
{
    let Ok(words) = format!(in alloc; "the query: {error}") else {
        return Failure::OutOfMemory;
    };
    match error.kind {
        ParseErrorKind::OutOfMemory => Failure::OutOfMemory,
        _ => Failure::Misused(words),
    }
}
