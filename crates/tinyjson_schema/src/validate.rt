//! What a value violates of a schema.
ghost use Rattle.std.specs.Prelude.{◌≡◌, ◌∷◌, [], IfOk, IsSomeAnd, MatchResult, is_some, true};
ghost use Rattle.tinyjson.specs.Index.{tree_at_key};
ghost use Rattle.tinyjson.specs.Tree.{array, object};
ghost use Rattle.tinyjson.specs.View.{view, items_view, members_listed};
ghost use Rattle.tinyjson_view.specs.Views.{tree_of, trees_of, members_of};
ghost use Rattle.tinyjson.specs.Soundness.{IsSorted};
ghost use Rattle.std.specs.Str.{chars};
ghost use Rattle.tinyjson_schema_keywords.specs.Applied.{members_in, schemas_at};
ghost use Rattle.tinyjson_schema_keywords.specs.Names.{name};
ghost use Rattle.tinyjson_schema_keywords.specs.declared.keyword.Keyword.TheVariants as kw;
ghost use Rattle.tinyjson_schema.specs.Applicators.{all_accept, applies, apply_all, demands};
ghost use Rattle.tinyjson_schema.specs.Applicators.{dependents_accept};
ghost use Rattle.tinyjson_schema.specs.Applicators.{members_accepted, items_accepted};
ghost use Rattle.tinyjson_schema.specs.Applicators.{parts_accepted};
ghost use Rattle.tinyjson_schema.specs.Nested.{IfDeep};
ghost use Rattle.tinyjson_schema.specs.Deep.{IsShallow, Descends};
ghost use Rattle.tinyjson_schema.specs.Marks.{AppliesNothing};
ghost use Rattle.tinyjson_schema.specs.Places.{IsAt};
ghost use Rattle.tinyjson_schema.specs.Valid.{refuses_all, reference_accepts, ValidatesIn, AgreesIn};
ghost use Rattle.tinyjson_schema.specs.Valid.{Judges, Follows, Finds, FindsFound};
ghost use Rattle.tinyjson_schema.specs.Nested.{is_reference};
ghost use Rattle.tinyjson_schema.specs.Valid.{target_accepts, root_of};

mod every;
mod pending;
mod tested;
mod unevaluated;
mod uses;

use crate::applied::Applied;
use crate::assertions::unmet;
use crate::part::{item_part, member_part_of};
use crate::validate::tested::unmet_test;
use crate::validate::unevaluated::in_rest;
use crate::violation::Violation;
use crate::walk::{CheckError, Walk};
pub use every::find_violations;
use tinyjson::{JsonKind, JsonValue};
use tinyjson_document::JsonView;
use tinyjson_schema_keywords::{Keyword, branch};
use tinyjson_view::{MemberView, ValueView};

/// What the value violates of the whole schema, if it violates it; `None` means that the value is valid. Nested
/// schemas are applied, by keywords and by references, up to the steps that the walk has left; for more the error
/// is `TooDeep`. The other error is out of memory.
///
/// It calls itself for each schema that is applied, so it takes stack with the nesting of these.
///
/// ```
/// let violation = find_violation(&value, walk)?;
/// ```
pub fn find_violation(
    value: &ValueView<'_>,
    walk: Walk<'_, '_>,
) -> Result<Option<Violation>, CheckError>
    ensures judged { ValidatesIn walk.entry.steps (root_of walk.entry) (tree_of value.now) result }
    ensures only { IfOk result (λ found. AgreesIn (root_of walk.entry) (tree_of value.now) found) }
{
    let here = Applied::by(walk.ground.whole.root, walk.ground.known);
    violation_of(value, &here, walk)
}

/// `find_violation` for a subschema of the whole schema.
#[cycle(validate)]
fn violation_of(
    value: &ValueView<'_>,
    here: &Applied<'_>,
    walk: Walk<'_, '_>,
) -> Result<Option<Violation>, CheckError>
    ensures { Judges walk.entry (view here.now.schema.now) (tree_of value.now) result }
{
    let inner = walk.entered()?;
    if refuses_all(here.schema) {
        return Ok(Some(Violation::of_schema(walk.alloc)));
    }
    if let Some(keyword) = unmet(here, value, walk)? {
        return at_keyword(keyword, walk);
    }
    if !here.may_apply() {
        return Ok(None);
    }
    if let Some(keyword) = unmet_test(value, here, inner)? {
        return at_keyword(keyword, walk);
    }
    if let Some(found) = in_demands(value, here, inner)? {
        return Ok(Some(found));
    }
    if let Some(found) = in_reference(value, here, inner)? {
        return Ok(Some(found));
    }
    if let Some(found) = in_parts(value, here, inner)? {
        return Ok(Some(found));
    }
    in_rest(value, here, inner)
}

/// The value violates the schema's keyword. Not inlined, for the stack that nested schemas take.
#[inline(never)]
fn at_keyword(keyword: Keyword, walk: Walk<'_, '_>) -> Result<Option<Violation>, CheckError>
    ensures { MatchResult result
        (λ found. IsSomeAnd found (IsAt (name keyword ∷ []) [])) IsShallow }
{
    let mut violation = Violation::of_schema(walk.alloc);
    violation.enter_keyword(walk.alloc, keyword)?;
    Ok(Some(violation))
}

/// Whether it is the schema `false`.
fn refuses_all(schema: &JsonValue) -> bool
    ensures { result ≡ refuses_all (view schema.now) }
{
    match schema {
        JsonValue::Boolean(accepts) => !*accepts,
        _ => false,
    }
}

/// Whether the value is an object that has the key.
fn has_key(value: &ValueView<'_>, key: &str) -> bool
    ensures { result ≡ is_some (tree_at_key (tree_of value.now) (chars key.now)) }
{
    value.member(key).is_some()
}

/// Whether the schema accepts the value.
#[cycle(validate)]
fn is_accepted(
    value: &ValueView<'_>,
    part: &Applied<'_>,
    walk: Walk<'_, '_>,
) -> Result<bool, CheckError>
    ensures { MatchResult result
        (λ is. Follows walk.entry is (λ f. f (view part.now.schema.now) (tree_of value.now)))
        (λ e. IfDeep e (Descends walk.entry (view part.now.schema.now) (tree_of value.now))) }
{
    if !part.may_apply() {
        return is_accepted_alone(value, part, walk);
    }
    let found = violation_of(value, part, walk)?;
    Ok(found.is_none())
}

/// `is_accepted` for a schema that applies none: its assertions decide.
#[inline(never)]
fn is_accepted_alone(
    value: &ValueView<'_>,
    here: &Applied<'_>,
    walk: Walk<'_, '_>,
) -> Result<bool, CheckError>
    requires { AppliesNothing (view here.now.schema.now) }
    ensures { MatchResult result
        (λ is. Follows walk.entry is (λ f. f (view here.now.schema.now) (tree_of value.now)))
        (λ e. IfDeep e (Descends walk.entry (view here.now.schema.now) (tree_of value.now))) }
{
    walk.entered()?;
    if refuses_all(here.schema) {
        return Ok(false);
    }
    let found = unmet(here, value, walk)?;
    Ok(found.is_none())
}

/// What the value violates of the schemas of `allOf`, `if`, `dependentSchemas` or `patternProperties`. Those for each are
/// not inlined, so that a level of the recursion takes the stack of one of them.
#[cycle(validate)]
#[inline(never)]
fn in_demands(
    value: &ValueView<'_>,
    here: &Applied<'_>,
    walk: Walk<'_, '_>,
) -> Result<Option<Violation>, CheckError>
    ensures { Finds walk.entry
        (λ f. apply_all f demands (view here.now.schema.now) (tree_of value.now))
        (view here.now.schema.now) (tree_of value.now) result }
{
    if !here.may_demand() {
        return Ok(None);
    }
    if let Some(found) = in_all_of(value, here, walk)? {
        return Ok(Some(found));
    }
    if let Some(found) = in_branch(value, here, walk)? {
        return Ok(Some(found));
    }
    if let Some(found) = in_dependents(value, here, walk)? {
        return Ok(Some(found));
    }
    in_patterned(value, here, walk)
}

/// What the value violates of a schema of `allOf`.
#[cycle(validate)]
#[inline(never)]
fn in_all_of(
    value: &ValueView<'_>,
    here: &Applied<'_>,
    walk: Walk<'_, '_>,
) -> Result<Option<Violation>, CheckError>
    ensures { Finds walk.entry
        (λ f. applies f kw.AllOf (view here.now.schema.now) (tree_of value.now))
        (view here.now.schema.now) (tree_of value.now) result }
{
    let parts = here.schemas_at(Keyword::AllOf);
    for (index, part) in parts.iter().enumerate() {
        let applied = here.listed_part(Keyword::AllOf, index, part);
        if let Some(mut found) = violation_of(value, &applied, walk)? {
            found.enter_listed(walk.alloc, Keyword::AllOf, index)?;
            return Ok(Some(found));
        }
    }
    Ok(None)
}

/// What the value violates of the schema that `if` chooses.
#[cycle(validate)]
#[inline(never)]
fn in_branch(
    value: &ValueView<'_>,
    here: &Applied<'_>,
    walk: Walk<'_, '_>,
) -> Result<Option<Violation>, CheckError>
    ensures { Finds walk.entry (λ f. applies f kw.If (view here.now.schema.now) (tree_of value.now))
        (view here.now.schema.now) (tree_of value.now) result }
{
    let Some(test) = here.part(Keyword::If) else {
        return Ok(None);
    };
    let accepted = is_accepted(value, &test, walk)?;
    let chosen = branch(accepted);
    let Some(part) = here.part(chosen) else {
        return Ok(None);
    };
    let Some(mut found) = violation_of(value, &part, walk)? else {
        return Ok(None);
    };
    found.enter_keyword(walk.alloc, chosen)?;
    Ok(Some(found))
}

/// What the value violates of a schema of `dependentSchemas` whose key it has.
#[cycle(validate)]
#[inline(never)]
fn in_dependents(
    value: &ValueView<'_>,
    here: &Applied<'_>,
    walk: Walk<'_, '_>,
) -> Result<Option<Violation>, CheckError>
    ensures { Finds walk.entry
        (λ f. applies f kw.DependentSchemas (view here.now.schema.now) (tree_of value.now))
        (view here.now.schema.now) (tree_of value.now) result }
{
    let listed = here.schema_map_at(Keyword::DependentSchemas, walk.alloc)?;
    let dependents = listed.as_slice();
    walk.ground.whole.budget.charge(dependents.len());
    for &(key, part) in dependents {
        let name = key.as_str();
        if has_key(value, name) {
            let applied = here.keyed_part(Keyword::DependentSchemas, name, part);
            if let Some(mut found) = violation_of(value, &applied, walk)? {
                found.enter_keyed(walk.alloc, Keyword::DependentSchemas, name)?;
                return Ok(Some(found));
            }
        }
    }
    Ok(None)
}

/// What the value violates of a schema of `patternProperties`.
#[cycle(validate)]
#[inline(never)]
fn in_patterned(
    value: &ValueView<'_>,
    here: &Applied<'_>,
    walk: Walk<'_, '_>,
) -> Result<Option<Violation>, CheckError>
    ensures { Finds walk.entry
        (λ f. applies f kw.PatternProperties (view here.now.schema.now) (tree_of value.now))
        (view here.now.schema.now) (tree_of value.now) result }
{
    let listed = here.schema_map_at(Keyword::PatternProperties, walk.alloc)?;
    let patterns = listed.as_slice();
    walk.ground.whole.budget.charge(patterns.len());
    for &(pattern, part) in patterns {
        let text = pattern.as_str();
        let applied = here.keyed_part(Keyword::PatternProperties, text, part);
        if let Some(mut found) = in_found(value, text, &applied, walk)? {
            found.enter_keyed(walk.alloc, Keyword::PatternProperties, text)?;
            return Ok(Some(found));
        }
    }
    Ok(None)
}

/// What a member of the value violates of the schema, if the pattern matches its key.
#[cycle(validate)]
#[inline(never)]
fn in_found(
    value: &ValueView<'_>,
    pattern: &str,
    part: &Applied<'_>,
    walk: Walk<'_, '_>,
) -> Result<Option<Violation>, CheckError>
    ensures { FindsFound walk.entry (chars pattern.now) (view part.now.schema.now)
        (members_in (tree_of value.now)) result }
{
    let listed = value.members(walk.alloc)?;
    let members = listed.as_slice();
    for member in members {
        let is_found = walk.is_found(pattern, member.key)?;
        if is_found {
            if let Some(mut found) = violation_of(&member.value, part, walk)? {
                found.enter_value(walk.alloc, member.key)?;
                return Ok(Some(found));
            }
        }
    }
    Ok(None)
}

/// What the value violates of the schemas to which `$ref` and `$dynamicRef` lead.
#[cycle(validate)]
fn in_reference(
    value: &ValueView<'_>,
    here: &Applied<'_>,
    walk: Walk<'_, '_>,
) -> Result<Option<Violation>, CheckError>
    ensures { Finds walk.entry
        (λ f. reference_accepts (view walk.entry.ground.now.whole.now.root.now) f
        (view here.now.schema.now) (tree_of value.now))
        (view here.now.schema.now) (tree_of value.now) result }
{
    if !here.may_refer() {
        return Ok(None);
    }
    if let Some(found) = in_target(value, here, Keyword::Ref, walk)? {
        return Ok(Some(found));
    }
    in_target(value, here, Keyword::DynamicRef, walk)
}

/// What the value violates of the schema to which the reference leads.
#[cycle(validate)]
#[inline(never)]
fn in_target(
    value: &ValueView<'_>,
    here: &Applied<'_>,
    keyword: Keyword,
    walk: Walk<'_, '_>,
) -> Result<Option<Violation>, CheckError>
    requires { is_reference keyword ≡ true }
    ensures { Finds walk.entry
        (λ f. target_accepts (view walk.entry.ground.now.whole.now.root.now) keyword f
        (view here.now.schema.now) (tree_of value.now))
        (view here.now.schema.now) (tree_of value.now) result }
{
    let Some(part) = here.referenced(keyword, walk)? else {
        return Ok(None);
    };
    let Some(mut found) = violation_of(value, &part, walk)? else {
        return Ok(None);
    };
    found.enter_keyword(walk.alloc, keyword)?;
    Ok(Some(found))
}

/// What a member or an item violates of the schema for it.
#[cycle(validate)]
fn in_parts(
    value: &ValueView<'_>,
    here: &Applied<'_>,
    walk: Walk<'_, '_>,
) -> Result<Option<Violation>, CheckError>
    ensures { Finds walk.entry
        (λ f. parts_accepted f (view here.now.schema.now) (tree_of value.now))
        (view here.now.schema.now) (tree_of value.now) result }
{
    match value.kind() {
        JsonKind::Object => {
            let members = value.members(walk.alloc)?;
            in_members(members.as_slice(), here, walk)
        }
        JsonKind::Array => {
            let items = value.items(walk.alloc)?;
            in_items(items.as_slice(), here, walk)
        }
        _ => Ok(None),
    }
}

#[cycle(validate)]
fn in_members(
    members: &[MemberView<'_>],
    here: &Applied<'_>,
    walk: Walk<'_, '_>,
) -> Result<Option<Violation>, CheckError>
    requires { IsSorted (members_of members.now) }
    ensures { Finds walk.entry
        (λ f. members_accepted f (view here.now.schema.now) (members_of members.now))
        (view here.now.schema.now) (object (members_of members.now)) result }
{
    let properties = here.schema_at(Keyword::Properties);
    for (near, member) in members.iter().enumerate() {
        if let Some(part) = member_part_of(here, properties, member.key, near, walk)? {
            if let Some(mut found) = violation_of(&member.value, &part.to, walk)? {
                found.enter_member(walk.alloc, part.applicator, member.key)?;
                return Ok(Some(found));
            }
        }
    }
    Ok(None)
}

#[cycle(validate)]
fn in_items(
    items: &[ValueView<'_>],
    here: &Applied<'_>,
    walk: Walk<'_, '_>,
) -> Result<Option<Violation>, CheckError>
    ensures { Finds walk.entry
        (λ f. items_accepted f (view here.now.schema.now) 0 (trees_of items.now))
        (view here.now.schema.now) (array (trees_of items.now)) result }
{
    for (index, item) in items.iter().enumerate() {
        if let Some(part) = item_part(here, index) {
            if let Some(mut found) = violation_of(item, &part.to, walk)? {
                found.enter_item(walk.alloc, part.applicator, index)?;
                return Ok(Some(found));
            }
        }
    }
    Ok(None)
}
