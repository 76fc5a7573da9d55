//! What a value violates of a schema, with the words.
ghost use Rattle.std.specs.Prelude.{◌≡◌, Ok, Some};
ghost use Rattle.tinyjson_view.specs.Views.{tree_of as value_tree};
ghost use Rattle.tinyjson_schema.specs.Reading.{tree_of, root_in};
ghost use Rattle.tinyjson_schema.specs.Valid.{ValidatesIn};
ghost use Rattle.tinyjson_schema_report.specs.Finds.{Finds, FindsIn};

use crate::violated::{Places, words};
use std::alloc::Global;
use tinyjson_schema::{CheckError, Checks, Limits, Schema, Violation};
use tinyjson_schema_keywords::Walk;
use tinyjson_view::{AsView, ValueView};

/// What a value violates of a schema.
#[derive(Drop)]
pub struct Finding {
    /// The places.
    pub violation: Violation,
    /// What was wanted, and what the value is.
    pub words: String,
}

/// How many nested schemas may be applied: these take less than 256 KB of stack.
const NESTED: usize = 200;

/// How many steps the check of a short text may take: some seconds.
const STEPS: u64 = 5_000_000;

/// How many more steps it may take for each byte of the text.
const STEPS_A_BYTE: u64 = 4;

/// The limits on the check of a text of this length in bytes, by `json_schema` and by `tinyjson_c`.
///
/// ```
/// let limits = limits_of(text.len());
/// ```
pub fn limits_of(length: usize) -> Limits
    ensures { result.nested ≡ 200 }
{
    let length = length as u64;
    Limits {
        nested: NESTED,
        steps: STEPS.saturating_add(length.saturating_mul(STEPS_A_BYTE)),
    }
}

/// What the value violates of the schema, with its words. `None` means that the value is valid. For more nested schemas
/// than the limit the error is `TooDeep`, for more steps `TooMuch`. The other error is out of memory.
///
/// ```
/// let found = find(&schema, &value, limits_of(text.len()), alloc)?;
/// ```
pub fn find<'v, V: AsView<'v>>(
    schema: &Schema<'_>,
    value: V,
    limits: Limits,
    alloc: Global,
) -> Result<Option<Finding>, CheckError>
    ensures { Finds limits.nested (tree_of schema.now) (V.tree value) result }
{
    let checks = Checks {
        limits,
        formats: false,
    };
    find_by(schema, value, checks, alloc)
}

/// [`find`], with `format` as an assertion if that is asked for.
///
/// ```
/// let checks = Checks { limits: limits_of(text.len()), formats: true };
/// let found = find_by(&schema, &value, checks, alloc)?;
/// ```
pub fn find_by<'v, V: AsView<'v>>(
    schema: &Schema<'_>,
    value: V,
    checks: Checks,
    alloc: Global,
) -> Result<Option<Finding>, CheckError>
    ensures { FindsIn checks.limits.nested (root_in schema.now checks.formats) (V.tree value)
        result }
{
    let value = value.as_view();
    match schema.invalid_place_by(value, checks, alloc) {
        Ok(None) => Ok(None),
        Ok(Some(violation)) => with_words(schema, &value, violation, checks, alloc),
        Err(error) => Err(error),
    }
}

/// The violation with its words.
fn with_words(
    schema: &Schema<'_>,
    value: &ValueView<'_>,
    violation: Violation,
    checks: Checks,
    alloc: Global,
) -> Result<Option<Finding>, CheckError>
    requires { ValidatesIn checks.limits.nested (root_in schema.now checks.formats)
        (value_tree value.now) (Ok (Some violation)) }
    ensures { FindsIn checks.limits.nested (root_in schema.now checks.formats)
        (value_tree value.now) result }
{
    let places = Places {
        keyword: &violation.keyword_location,
        instance: &violation.instance_location,
    };
    let walk = Walk {
        whole: schema.whole(),
        steps: checks.limits.nested,
        alloc,
    };
    match words(places, value, walk) {
        Ok(words) => Ok(Some(Finding { violation, words })),
        Err(_) => Err(CheckError::OutOfMemory),
    }
}
