//! All that a value violates of a schema, with the words.
ghost use Rattle.std.specs.List.{All};
ghost use Rattle.std.specs.Prelude.{◌≡◌, IfErr, IfOk, map};
ghost use Rattle.std.specs.String.{string_bytes};
ghost use Rattle.tinyjson_view.specs.Views.{tree_of as value_tree};
ghost use Rattle.tinyjson_pointer.specs.Tokens.{tokens_of};
ghost use Rattle.tinyjson_schema.specs.Reading.{tree_of, root_in};
ghost use Rattle.tinyjson_schema.specs.Valid.{IsBeyond};
ghost use Rattle.tinyjson_schema_report.specs.Every.{FindsEvery};
ghost use Rattle.tinyjson_schema_report.specs.Finds.{HasWords};
ghost use Rattle.tinyjson_schema_report.specs.Nearest.{IsWords};

use crate::found::Finding;
use crate::violated::{Places, words};
use std::alloc::{AllocError, Global};
use std::collections::VecDeque;
use tinyjson_schema::{CheckError, Checks, Schema, Violation};
use tinyjson_schema_keywords::Walk;
use tinyjson_view::{AsView, ValueView};

/// The first things that the value violates of the schema, up to `most`, in order, each with its words. The errors are
/// those of [`crate::find_by`]; all of them take more steps than the first one.
///
/// ```
/// let checks = Checks { limits: limits_of(text.len()), formats: false };
/// for finding in find_every(&schema, &value, checks, 100, alloc)?.as_slice() { .. }
/// ```
pub fn find_every<'v, V: AsView<'v>>(
    schema: &Schema<'_>,
    value: V,
    checks: Checks,
    most: usize,
    alloc: Global,
) -> Result<Vec<Finding>, CheckError>
    ensures found { IfOk result (λ found. FindsEvery most checks.limits.nested
        (root_in schema.now checks.formats) (V.tree value) found.items) }
    ensures deep { IfErr result (IsBeyond checks.limits.nested
        (root_in schema.now checks.formats) (V.tree value)) }
{
    let view = value.as_view();
    let violations = schema.invalid_places_by(value, checks, most, alloc)?;
    let found = findings(schema, &view, violations, alloc)?;
    Ok(found)
}

/// The violations, each with its words.
fn findings(
    schema: &Schema<'_>,
    value: &ValueView<'_>,
    violations: Vec<Violation>,
    alloc: Global,
) -> Result<Vec<Finding>, AllocError>
    ensures same { IfOk result (λ found.
        map (λ f. f.violation) found.items ≡ violations.items) }
    ensures words { IfOk result (λ found.
        All (HasWords (tree_of schema.now) (value_tree value.now)) found.items) }
{
    let mut rest = VecDeque::from_vec(violations);
    let mut found = Vec::new(alloc);
    while let Some(violation) = rest.pop_front() {
        let words = words_of(schema, value, &violation, alloc)?;
        found.push(Finding { violation, words })?;
    }
    Ok(found)
}

fn words_of(
    schema: &Schema<'_>,
    value: &ValueView<'_>,
    violation: &Violation,
    alloc: Global,
) -> Result<String, AllocError>
    ensures { IfOk result (λ s. IsWords (tree_of schema.now) (value_tree value.now)
        (tokens_of violation.now.keyword_location) (tokens_of violation.now.instance_location)
        (string_bytes s)) }
{
    let places = Places {
        keyword: &violation.keyword_location,
        instance: &violation.instance_location,
    };
    let walk = Walk {
        whole: schema.whole(),
        steps: 0,
        alloc,
    };
    words(places, value, walk)
}
