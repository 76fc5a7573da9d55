//! Assertions: the keywords that constrain a value itself, not its parts.
ghost use Rattle.std.specs.Prelude.{◌≡◌, IfOk};
ghost use Rattle.std.specs.Option.{option_map_or};
ghost use Rattle.tinyjson.specs.View.{view};
ghost use Rattle.tinyjson_view.specs.Views.{tree_of};
ghost use Rattle.tinyjson_schema_assertions.specs.Assertions.{meets, IsUnmet, IsUnmetAmong};

use crate::applied::Applied;
use crate::walk::Walk;
use tinyjson::{JsonKind, JsonValue};
use tinyjson_document::{JsonView, NumberView};
use tinyjson_schema_assertions::accepts;
use tinyjson_schema_keywords::{Keyword, SearchError};
use tinyjson_schema_table::{assertions, unmet_given};
use tinyjson_view::ValueView;

/// One of the keywords that the schema has and the value violates, if there is one. Not inlined, since the recursion
/// over schemas calls it at each level.
#[inline(never)]
pub fn unmet(
    here: &Applied<'_>,
    value: &ValueView<'_>,
    walk: Walk<'_, '_>,
) -> Result<Option<Keyword>, SearchError>
    ensures { IfOk result (λ found. IsUnmet walk.entry.ground.now.formats
        (view here.now.schema.now) (tree_of value.now) found) }
{
    if here.asserts_once() {
        return unmet_of(here, value, walk);
    }
    match value.kind() {
        JsonKind::Number => unmet_number(here, value, walk),
        _ => unmet_of(here, value, walk),
    }
}

/// `unmet` for a number. One in a document is read once for all keywords. Not inlined, since its frame takes 9 KB.
#[inline(never)]
fn unmet_number(
    here: &Applied<'_>,
    value: &ValueView<'_>,
    walk: Walk<'_, '_>,
) -> Result<Option<Keyword>, SearchError>
    ensures { IfOk result (λ found. IsUnmet walk.entry.ground.now.formats
        (view here.now.schema.now) (tree_of value.now) found) }
{
    let Some(number) = value.number() else {
        return unmet_of(here, value, walk);
    };
    match number {
        NumberView::Made(made) => {
            let read = JsonValue::Number(made);
            unmet_of(here, &ValueView::InValue(&read), walk)
        }
        NumberView::Kept(_) => unmet_of(here, value, walk),
    }
}

/// `unmet` for a value that is no number, or one that is read already. The assertions of a schema in a table are listed
/// there.
fn unmet_of(
    here: &Applied<'_>,
    value: &ValueView<'_>,
    walk: Walk<'_, '_>,
) -> Result<Option<Keyword>, SearchError>
    ensures { IfOk result (λ found. IsUnmet walk.entry.ground.now.formats
        (view here.now.schema.now) (tree_of value.now) found) }
{
    if walk.ground.formats {
        return first_unmet(assertions(true), here, value, walk);
    }
    match here.known {
        Some(known) => {
            let found = unmet_given(known.shape.given.as_slice(), value, walk.following())?;
            Ok(found)
        }
        None => first_unmet(assertions(false), here, value, walk),
    }
}

fn first_unmet(
    keywords: &[Keyword],
    here: &Applied<'_>,
    value: &ValueView<'_>,
    walk: Walk<'_, '_>,
) -> Result<Option<Keyword>, SearchError>
    ensures { IfOk result
        (λ found. IsUnmetAmong keywords.now (view here.now.schema.now) (tree_of value.now) found) }
{
    for keyword in keywords {
        let is_met = meets(*keyword, here, value, walk)?;
        if !is_met {
            return Ok(Some(*keyword));
        }
    }
    Ok(None)
}

pub fn meets(
    keyword: Keyword,
    here: &Applied<'_>,
    value: &ValueView<'_>,
    walk: Walk<'_, '_>,
) -> Result<bool, SearchError>
    ensures { IfOk result
        (λ is. is ≡ meets keyword (view here.now.schema.now) (tree_of value.now)) }
{
    match here.schema_at(keyword) {
        Some(operand) => accepts(keyword, operand, value, walk.following()),
        None => Ok(true),
    }
}
