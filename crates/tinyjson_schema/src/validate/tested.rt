//! Keywords that count or combine the results of their subschemas. These tests are not inlined, so that a level of
//! the recursion over schemas takes less than a kilobyte of stack.
ghost use Rattle.std.specs.Prelude.{◌≡◌, IfOk, MatchResult, true};
ghost use Rattle.std.specs.Str.{chars};
ghost use Rattle.tinyjson.specs.Tree.{string};
ghost use Rattle.tinyjson.specs.View.{view, items_view};
ghost use Rattle.tinyjson_view.specs.Views.{tree_of, trees_of, members_of};
ghost use Rattle.tinyjson_schema_keywords.specs.Applied.{schemas_at};
ghost use Rattle.tinyjson_schema_keywords.specs.declared.keyword.Keyword.TheVariants as kw;
ghost use Rattle.tinyjson_schema.specs.Applicators.{any_of, some_accepts, one_of, accepting};
ghost use Rattle.tinyjson_schema.specs.Applicators.{applies, keys_pass, passing, contained, tests};
ghost use Rattle.tinyjson_schema.specs.Applicators.{counts};
ghost use Rattle.tinyjson_schema.specs.Nested.{IfDeep};
ghost use Rattle.tinyjson_schema.specs.Deep.{IsDeep, DescendsAmong, DescendsAtKey};
ghost use Rattle.tinyjson_schema.specs.Deep.{DescendsAtItem};
ghost use Rattle.tinyjson_schema.specs.Valid.{Follows, IsUnapplied};

use crate::applied::Applied;
use crate::contains::{contains_at_least, contains_at_most, contains_some};
use crate::validate::is_accepted;
use crate::walk::{CheckError, Walk};
use std::alloc::{AllocError, Global};
use tinyjson::{JsonKind, JsonValue};
use tinyjson_document::JsonView;
use tinyjson_schema_keywords::{Keyword, is_some_item};
use tinyjson_view::{MemberView, ValueView};

/// One of these keywords that the value violates, if there is one.
#[cycle(validate)]
#[inline(never)]
pub fn unmet_test(
    value: &ValueView<'_>,
    here: &Applied<'_>,
    walk: Walk<'_, '_>,
) -> Result<Option<Keyword>, CheckError>
    ensures { MatchResult result
        (λ found. IsUnapplied walk.entry tests (view here.now.schema.now) (tree_of value.now)
        found)
        (IsDeep walk.entry (view here.now.schema.now) (tree_of value.now)) }
{
    if !here.may_test() {
        return Ok(None);
    }
    let any = is_any_met(value, here, walk)?;
    if !any {
        return Ok(Some(Keyword::AnyOf));
    }
    let one = is_one_met(value, here, walk)?;
    if !one {
        return Ok(Some(Keyword::OneOf));
    }
    let other = is_not_met(value, here, walk)?;
    if !other {
        return Ok(Some(Keyword::Not));
    }
    let names = are_names_met(value, here, walk)?;
    if !names {
        return Ok(Some(Keyword::PropertyNames));
    }
    unmet_count(value, here, walk)
}

/// The keyword that the value violates by how many items the schema of `contains` accepts.
#[cycle(validate)]
#[inline(never)]
fn unmet_count(
    value: &ValueView<'_>,
    here: &Applied<'_>,
    walk: Walk<'_, '_>,
) -> Result<Option<Keyword>, CheckError>
    ensures { MatchResult result
        (λ found. IsUnapplied walk.entry counts (view here.now.schema.now) (tree_of value.now)
        found)
        (IsDeep walk.entry (view here.now.schema.now) (tree_of value.now)) }
{
    let count = contained(value, here, walk)?;
    let some = contains_some(count, here);
    if !some {
        return Ok(Some(Keyword::Contains));
    }
    let most = contains_at_most(count, here, walk.alloc)?;
    if !most {
        return Ok(Some(Keyword::MaxContains));
    }
    let least = contains_at_least(count, here, walk.alloc)?;
    if !least {
        return Ok(Some(Keyword::MinContains));
    }
    Ok(None)
}

/// Whether a schema of the list accepts the value, or the list is empty.
#[cycle(validate)]
#[inline(never)]
pub fn is_any_met(
    value: &ValueView<'_>,
    here: &Applied<'_>,
    walk: Walk<'_, '_>,
) -> Result<bool, CheckError>
    ensures { MatchResult result
        (λ is. Follows walk.entry is
        (λ f. any_of f (schemas_at (view here.now.schema.now) kw.AnyOf) (tree_of value.now)))
        (λ e. IfDeep e
        (DescendsAmong walk.entry (schemas_at (view here.now.schema.now) kw.AnyOf)
        (tree_of value.now))) }
{
    let schemas = here.schemas_at(Keyword::AnyOf);
    if !is_some_item(schemas) {
        return Ok(true);
    }
    let accepted = is_some_met(value, here, schemas, walk)?;
    Ok(accepted)
}

#[cycle(validate)]
#[inline(never)]
fn is_some_met<'s>(
    value: &ValueView<'_>,
    here: &Applied<'s>,
    schemas: &'s [JsonValue],
    walk: Walk<'_, '_>,
) -> Result<bool, CheckError>
    requires { items_view schemas.now ≡ schemas_at (view here.now.schema.now) kw.AnyOf }
    ensures { MatchResult result
        (λ is. Follows walk.entry is
        (λ f. some_accepts f (items_view schemas.now) (tree_of value.now)))
        (λ e. IfDeep e
        (DescendsAmong walk.entry (items_view schemas.now) (tree_of value.now))) }
{
    for (index, schema) in schemas.iter().enumerate() {
        let part = here.listed_part(Keyword::AnyOf, index, schema);
        let accepted = is_accepted(value, &part, walk)?;
        if accepted {
            return Ok(true);
        }
    }
    Ok(false)
}

/// Whether exactly one schema of the list accepts the value, or the list is empty.
#[cycle(validate)]
#[inline(never)]
pub fn is_one_met(
    value: &ValueView<'_>,
    here: &Applied<'_>,
    walk: Walk<'_, '_>,
) -> Result<bool, CheckError>
    ensures { MatchResult result
        (λ is. Follows walk.entry is
        (λ f. one_of f (schemas_at (view here.now.schema.now) kw.OneOf) (tree_of value.now)))
        (λ e. IfDeep e
        (DescendsAmong walk.entry (schemas_at (view here.now.schema.now) kw.OneOf)
        (tree_of value.now))) }
{
    let schemas = here.schemas_at(Keyword::OneOf);
    if !is_some_item(schemas) {
        return Ok(true);
    }
    let count = count_accepting(value, here, schemas, walk)?;
    Ok(count == 1)
}

/// How many schemas of the list accept the value.
#[cycle(validate)]
fn count_accepting<'s>(
    value: &ValueView<'_>,
    here: &Applied<'s>,
    schemas: &'s [JsonValue],
    walk: Walk<'_, '_>,
) -> Result<usize, CheckError>
    requires { items_view schemas.now ≡ schemas_at (view here.now.schema.now) kw.OneOf }
    ensures { MatchResult result
        (λ count. Follows walk.entry count
        (λ f. accepting f (items_view schemas.now) (tree_of value.now)))
        (λ e. IfDeep e
        (DescendsAmong walk.entry (items_view schemas.now) (tree_of value.now))) }
{
    let mut count = 0;
    for (index, schema) in schemas.iter().enumerate() {
        let part = here.listed_part(Keyword::OneOf, index, schema);
        let accepted = is_accepted(value, &part, walk)?;
        if accepted {
            count += 1;
        }
    }
    Ok(count)
}

/// Whether the schema of `not` does not accept the value.
#[cycle(validate)]
#[inline(never)]
pub fn is_not_met(
    value: &ValueView<'_>,
    here: &Applied<'_>,
    walk: Walk<'_, '_>,
) -> Result<bool, CheckError>
    ensures { MatchResult result
        (λ is. Follows walk.entry is
        (λ f. applies f kw.Not (view here.now.schema.now) (tree_of value.now)))
        (IsDeep walk.entry (view here.now.schema.now) (tree_of value.now)) }
{
    match here.part(Keyword::Not) {
        Some(part) => {
            let accepted = is_accepted(value, &part, walk)?;
            Ok(!accepted)
        }
        None => Ok(true),
    }
}

/// Whether the schema of `propertyNames` accepts each key.
#[cycle(validate)]
#[inline(never)]
pub fn are_names_met(
    value: &ValueView<'_>,
    here: &Applied<'_>,
    walk: Walk<'_, '_>,
) -> Result<bool, CheckError>
    ensures { MatchResult result
        (λ is. Follows walk.entry is
        (λ f. applies f kw.PropertyNames (view here.now.schema.now) (tree_of value.now)))
        (IsDeep walk.entry (view here.now.schema.now) (tree_of value.now)) }
{
    match here.part(Keyword::PropertyNames) {
        Some(part) => {
            let members = value.members(walk.alloc)?;
            let accepted = are_keys_met(members.as_slice(), &part, walk)?;
            Ok(accepted)
        }
        None => Ok(true),
    }
}

#[cycle(validate)]
#[inline(never)]
fn are_keys_met(
    members: &[MemberView<'_>],
    part: &Applied<'_>,
    walk: Walk<'_, '_>,
) -> Result<bool, CheckError>
    ensures { MatchResult result
        (λ is. Follows walk.entry is
        (λ f. keys_pass (f (view part.now.schema.now)) (members_of members.now)))
        (λ e. IfDeep e
        (DescendsAtKey walk.entry (view part.now.schema.now) (members_of members.now))) }
{
    for member in members {
        let name = name_of(member.key, walk.alloc)?;
        let accepted = is_accepted(&ValueView::InValue(&name), part, walk)?;
        if !accepted {
            return Ok(false);
        }
    }
    Ok(true)
}

/// The key as a string value.
fn name_of(key: &str, alloc: Global) -> Result<JsonValue, AllocError>
    ensures { IfOk result (λ name. view name ≡ string (chars key.now)) }
{
    let text = String::from_str(alloc, key)?;
    Ok(JsonValue::String(text))
}

/// How many items of an array the schema of `contains` accepts; `None` without one, or if the value is no array.
#[cycle(validate)]
#[inline(never)]
pub fn contained(
    value: &ValueView<'_>,
    here: &Applied<'_>,
    walk: Walk<'_, '_>,
) -> Result<Option<usize>, CheckError>
    ensures { MatchResult result
        (λ count. Follows walk.entry count
        (λ f. contained f (view here.now.schema.now) (tree_of value.now)))
        (IsDeep walk.entry (view here.now.schema.now) (tree_of value.now)) }
{
    let Some(part) = here.part(Keyword::Contains) else {
        return Ok(None);
    };
    match value.kind() {
        JsonKind::Array => {
            let items = value.items(walk.alloc)?;
            let count = count_passing(items.as_slice(), &part, walk)?;
            Ok(Some(count))
        }
        _ => Ok(None),
    }
}

#[cycle(validate)]
fn count_passing(
    items: &[ValueView<'_>],
    part: &Applied<'_>,
    walk: Walk<'_, '_>,
) -> Result<usize, CheckError>
    ensures { MatchResult result
        (λ count. Follows walk.entry count
        (λ f. passing (f (view part.now.schema.now)) (trees_of items.now)))
        (λ e. IfDeep e
        (DescendsAtItem walk.entry (view part.now.schema.now) (trees_of items.now))) }
{
    let mut count = 0;
    for item in items {
        let accepted = is_accepted(item, part, walk)?;
        if accepted {
            count += 1;
        }
    }
    Ok(count)
}
