//! What is counted of a value.
ghost use Rattle.std.specs.Prelude.{◌≡◌, IfOk, length};
ghost use Rattle.std.specs.Str.{chars};
ghost use Rattle.std.specs.Option.{option_map_or};
ghost use Rattle.std.specs.String.{string_bytes};
ghost use Rattle.tinyjson.specs.View.{view};
ghost use Rattle.tinyjson_view.specs.Views.{tree_of};
ghost use Rattle.tinyjson_schema_report.specs.Counts.{length_of, counted, count_words};
ghost use Rattle.tinyjson_schema_report.specs.Counts.{contained_words, plural};

use crate::brief::brief;
use std::alloc::{AllocError, Global};
use tinyjson::JsonValue;
use tinyjson_document::JsonView;
use tinyjson_view::ValueView;

/// What is counted, and how many were wanted.
#[derive(Clone, Copy)]
pub struct Count<'a> {
    /// The words before the number that is wanted.
    pub wanted: &'a str,
    /// The number that is wanted.
    pub limit: &'a JsonValue,
    /// The words for what is counted, in the singular.
    pub what: &'a str,
}

/// How many are wanted, and how many there are.
pub fn count_words(
    count: Count<'_>,
    found: Option<usize>,
    alloc: Global,
) -> Result<String, AllocError>
    ensures { IfOk result (λ s. string_bytes s ≡ count_words count.entry.wanted.now
        (view count.entry.limit.now) count.entry.what.now found) }
{
    match found {
        Some(found) => counted(count, found, alloc),
        None => Ok(String::new(alloc)),
    }
}

fn counted(count: Count<'_>, found: usize, alloc: Global) -> Result<String, AllocError>
    ensures { IfOk result (λ s. string_bytes s ≡ counted count.entry.wanted.now
        (view count.entry.limit.now) count.entry.what.now found) }
{
    let Count {
        wanted,
        limit,
        what,
    } = count;
    let limit = brief(limit, alloc)?;
    let end = plural(limit.as_str());
    format!(in alloc; "{wanted}{}{what}{end}, has {found}", limit.as_str())
}

/// How many items are wanted that a schema accepts.
pub fn contained_words(wanted: &str, limit: &JsonValue, alloc: Global) -> Result<String, AllocError>
    ensures { IfOk result
        (λ s. string_bytes s ≡ contained_words wanted.now (view limit.now)) }
{
    let limit = brief(limit, alloc)?;
    let end = plural(limit.as_str());
    format!(in alloc;
        "{wanted}{} item{end} that the schema accepts",
        limit.as_str()
    )
}

fn plural(limit: &str) -> &'static str
    ensures { result.now ≡ plural limit.now }
{
    if limit == "1" { "" } else { "s" }
}

/// The number of characters of a string; `None` for another value.
pub fn length(value: &ValueView<'_>) -> Option<usize>
    ensures { result ≡ length_of (tree_of value.now) }
{
    match value.string() {
        Some(text) => Some(character_count(text)),
        None => None,
    }
}

fn character_count(text: &str) -> usize
    ensures { result ≡ length (chars text.now) }
{
    text.chars().count()
}
