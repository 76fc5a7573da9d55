//! How many items of an array the schema of `contains` has to accept.
ghost use Rattle.std.specs.Prelude.{◌≡◌, IfOk};
ghost use Rattle.tinyjson.specs.View.{view};
ghost use Rattle.tinyjson_schema.specs.Applicators.{contains_some, contains_at_most};
ghost use Rattle.tinyjson_schema.specs.Applicators.{contains_at_least, is_zero};

use crate::applied::Applied;
use std::alloc::{AllocError, Global};
use tinyjson::JsonValue;
use tinyjson_schema_assertions::{is_count_at_least, is_count_at_most};
use tinyjson_schema_keywords::Keyword;

/// Whether the count is at least 1, unless `minContains` is 0; true for `None`.
pub fn contains_some(count: Option<usize>, here: &Applied<'_>) -> bool
    ensures { result ≡ contains_some count (view here.now.schema.now) }
{
    if let Some(least) = here.schema_at(Keyword::MinContains) {
        if is_zero(least) {
            return true;
        }
    }
    match count {
        Some(count) => count != 0,
        None => true,
    }
}

fn is_zero(value: &JsonValue) -> bool
    ensures { result ≡ is_zero (view value.now) }
{
    match value {
        JsonValue::Number(number) => number.digits().is_empty(),
        _ => false,
    }
}

/// Whether the count is at most `maxContains`; true for `None`.
pub fn contains_at_most(
    count: Option<usize>,
    here: &Applied<'_>,
    alloc: Global,
) -> Result<bool, AllocError>
    ensures { IfOk result (λ is. is ≡ contains_at_most count (view here.now.schema.now)) }
{
    match here.schema_at(Keyword::MaxContains) {
        Some(limit) => is_count_at_most(count, limit, alloc),
        None => Ok(true),
    }
}

/// Whether the count is at least `minContains`; true for `None`.
pub fn contains_at_least(
    count: Option<usize>,
    here: &Applied<'_>,
    alloc: Global,
) -> Result<bool, AllocError>
    ensures { IfOk result (λ is. is ≡ contains_at_least count (view here.now.schema.now)) }
{
    match here.schema_at(Keyword::MinContains) {
        Some(limit) => is_count_at_least(count, limit, alloc),
        None => Ok(true),
    }
}
