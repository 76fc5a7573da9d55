//! The assertions of a schema, in a list.
ghost use Rattle.std.specs.Prelude.{◌≡◌, true, IfOk, OnOk};
ghost use Rattle.tinyjson.specs.Kind.{kind_of};
ghost use Rattle.tinyjson.specs.Tree.{Tree};
ghost use Rattle.tinyjson.specs.View.{view};
ghost use Rattle.tinyjson_view.specs.Views.{tree_of};
ghost use Rattle.tinyjson_schema_assertions.specs.Assertions.{accepts, assertions, constraints};
ghost use Rattle.tinyjson_schema_assertions.specs.Assertions.{IsUnmetAmong};
ghost use Rattle.tinyjson_schema_table.specs.Givens.{are_had, AreAll, AddsGiven};

use crate::given::Given;
use std::alloc::{AllocError, Global};
use tinyjson::{JsonKind, JsonValue};
use tinyjson_document::JsonView;
use tinyjson_schema_assertions::{accepts, kind_met};
use tinyjson_schema_keywords::{Keyword, SearchError, Walk, schema_at};
use tinyjson_view::ValueView;

/// The assertions, in the order in which they are checked. `format` is one only if the caller asks for it.
const ASSERTIONS: [Keyword; 19] = [
    Keyword::Format,
    Keyword::Type,
    Keyword::Enum,
    Keyword::Const,
    Keyword::MultipleOf,
    Keyword::Maximum,
    Keyword::ExclusiveMaximum,
    Keyword::Minimum,
    Keyword::ExclusiveMinimum,
    Keyword::MaxLength,
    Keyword::MinLength,
    Keyword::Pattern,
    Keyword::MaxItems,
    Keyword::MinItems,
    Keyword::UniqueItems,
    Keyword::MaxProperties,
    Keyword::MinProperties,
    Keyword::Required,
    Keyword::DependentRequired,
];

/// The assertions, `format` among them if it is asked for.
pub fn assertions(formats: bool) -> &'static [Keyword]
    ensures { result.now ≡ assertions formats }
{
    if formats {
        &ASSERTIONS
    } else {
        &ASSERTIONS[1..]
    }
}

/// The assertions that the schema has, without `format`, in the order in which they are checked.
pub fn given_of<'s>(schema: &'s JsonValue, alloc: Global) -> Result<Vec<Given<'s>>, AllocError>
    ensures had { IfOk result (λ given. are_had (view schema.now) given.items ≡ true) }
    ensures all { IfOk result (λ given. AreAll (view schema.now) given.items) }
{
    let keywords = assertions(false);
    let mut given = Vec::new(alloc);
    for &keyword in keywords {
        add_given(keyword, schema, &mut given)?;
    }
    Ok(given)
}

/// Adds the keyword, if the schema has it.
fn add_given<'s>(
    keyword: Keyword,
    schema: &'s JsonValue,
    given: &mut Vec<Given<'s>>,
) -> Result<(), AllocError>
    ensures { OnOk result
        (AddsGiven (view schema.now) keyword given.old.items given.new.items) }
{
    let Some(operand) = schema_at(schema, keyword) else {
        return Ok(());
    };
    given.push(Given {
        keyword,
        operand,
        kind: kind_met(keyword, operand),
    })?;
    Ok(())
}

/// The first of a schema's assertions that the value violates, if there is one.
pub fn unmet_given(
    given: &[Given<'_>],
    value: &ValueView<'_>,
    walk: Walk<'_, '_>,
) -> Result<Option<Keyword>, SearchError>
    ensures { IfOk result (λ found. (s : Tree) → are_had s given.now ≡ true → AreAll s given.now
        → IsUnmetAmong constraints s (tree_of value.now) found) }
{
    let kind = value.kind();
    for one in given {
        let is_met = is_met(one, kind, value, walk)?;
        if !is_met {
            return Ok(Some(one.keyword));
        }
    }
    Ok(None)
}

/// Whether the value, which is of the kind, meets the assertion.
#[inline(always)]
fn is_met(
    one: &Given<'_>,
    kind: JsonKind,
    value: &ValueView<'_>,
    walk: Walk<'_, '_>,
) -> Result<bool, SearchError>
    requires { kind ≡ kind_of (tree_of value.now) }
    ensures { IfOk result
        (λ is. is ≡ accepts one.now.keyword (view one.now.operand.now) (tree_of value.now)) }
{
    if one.kind == Some(kind) {
        return Ok(true);
    }
    accepts(one.keyword, one.operand, value, walk)
}
