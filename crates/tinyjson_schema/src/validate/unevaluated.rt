//! `unevaluatedProperties` and `unevaluatedItems`: the members and items that no other keyword evaluates (Core,
//! 11.2 and 11.3).
//!
//! The schemas that evaluate are listed first: the schema that asks, and those that it applies to the value itself
//! and that accept it, at any depth. So each of them checks the value once, not once for each member.
ghost use Rattle.std.specs.Prelude.{◌≡◌, ◌&&◌, ◌||◌, IfOk, IfErr, MatchResult, OnOk, is_some};
ghost use Rattle.std.specs.Prelude.{not, suc, true};
ghost use Rattle.std.specs.Str.{chars};
ghost use Rattle.tinyjson.specs.Index.{tree_at_key};
ghost use Rattle.tinyjson.specs.JsonKind.TheVariants as kind;
ghost use Rattle.tinyjson.specs.Kind.{kind_of};
ghost use Rattle.tinyjson.specs.Tree.{array, object, Tree};
ghost use Rattle.tinyjson.specs.View.{view, items_view};
ghost use Rattle.tinyjson_view.specs.Views.{tree_of, trees_of, members_of};
ghost use Rattle.tinyjson.specs.Soundness.{IsSorted};
ghost use Rattle.tinyjson_schema_keywords.specs.Applied.{schema_at, schemas_at, schema_map_at};
ghost use Rattle.tinyjson_schema_keywords.specs.declared.keyword.Keyword.TheVariants as kw;
ghost use Rattle.tinyjson_schema.specs.Evaluated.{Child, Answers, member_at, item_at};
ghost use Rattle.tinyjson_schema.specs.Evaluated.{others_evaluate, inner_evaluate, some_evaluate};
ghost use Rattle.tinyjson_schema.specs.Evaluated.{accepting_evaluate, branch_evaluates};
ghost use Rattle.tinyjson_schema.specs.Evaluated.{dependents_evaluate, reference_evaluates};
ghost use Rattle.tinyjson_schema.specs.Evaluated.{target_evaluates};
ghost use Rattle.tinyjson_schema.specs.Sources.{source_evaluates, sources_evaluate, AreWithin};
ghost use Rattle.tinyjson_schema.specs.Nested.{IfDeep};
ghost use Rattle.tinyjson_schema.specs.Deep.{IsDeep, IsShallow, Descends, DescendsIn};
ghost use Rattle.tinyjson_schema.specs.Deep.{DescendsAmong, DescendsBy, DescendsForKey, root_tree};
ghost use Rattle.tinyjson_schema.specs.Sources.{Adds, StaysWithin, FindsLeft};
ghost use Rattle.tinyjson_schema.specs.Sources.{AreReached, StaysReached, DescendsFrom};
ghost use Rattle.tinyjson_schema.specs.Sources.{DescendsFromOne};
ghost use Rattle.tinyjson_schema.specs.Valid.{Follows, FindsRest, answers_in};

use crate::applied::Applied;
use crate::part::{is_patterned, item_part, member_part_of};
use crate::validate::{has_key, is_accepted, violation_of};
use crate::violation::Violation;
use crate::walk::{CheckError, Walk};
use std::alloc::AllocError;
use tinyjson::{JsonKind, JsonValue};
use tinyjson_document::JsonView;
use tinyjson_schema_keywords::{Keyword, branch};
use tinyjson_view::{MemberView, ValueView};

/// A schema whose keywords evaluate members and items, and the walk in it.
#[derive(Clone, Copy)]
pub struct Source<'d, 's> {
    pub applied: Applied<'s>,
    pub walk: Walk<'d, 's>,
    /// Whether it is the schema that asks. Its own `unevaluatedProperties` and `unevaluatedItems` do not count.
    pub asks: bool,
}

/// What a member or an item violates that no other keyword of the schema evaluates.
#[cycle(validate)]
pub fn in_rest(
    value: &ValueView<'_>,
    here: &Applied<'_>,
    walk: Walk<'_, '_>,
) -> Result<Option<Violation>, CheckError>
    ensures { FindsRest walk.entry (view here.now.schema.now) (tree_of value.now) result }
{
    match value.kind() {
        JsonKind::Object => in_members_rest(value, here, walk),
        JsonKind::Array => in_items_rest(value, here, walk),
        _ => Ok(None),
    }
}

/// `in_rest` for an object. Neither this nor the next is inlined, for the stack that nested schemas take.
#[cycle(validate)]
#[inline(never)]
fn in_members_rest(
    value: &ValueView<'_>,
    here: &Applied<'_>,
    walk: Walk<'_, '_>,
) -> Result<Option<Violation>, CheckError>
    requires { kind_of (tree_of value.now) ≡ kind.Object }
    ensures { FindsRest walk.entry (view here.now.schema.now) (tree_of value.now) result }
{
    let Some(rest) = here.part(Keyword::UnevaluatedProperties) else {
        return Ok(None);
    };
    let sources = sources_of(value, &*here, walk)?;
    let members = value.members(walk.alloc)?;
    in_members_left(members.as_slice(), &rest, sources.as_slice(), walk)
}

/// `in_rest` for an array.
#[cycle(validate)]
#[inline(never)]
fn in_items_rest(
    value: &ValueView<'_>,
    here: &Applied<'_>,
    walk: Walk<'_, '_>,
) -> Result<Option<Violation>, CheckError>
    requires { kind_of (tree_of value.now) ≡ kind.Array }
    ensures { FindsRest walk.entry (view here.now.schema.now) (tree_of value.now) result }
{
    let Some(rest) = here.part(Keyword::UnevaluatedItems) else {
        return Ok(None);
    };
    let sources = sources_of(value, &*here, walk)?;
    let items = value.items(walk.alloc)?;
    in_items_left(items.as_slice(), &rest, sources.as_slice(), walk)
}

/// What a member violates of the schema, among those that the sources do not evaluate.
#[cycle(validate)]
#[inline(never)]
fn in_members_left(
    members: &[MemberView<'_>],
    rest: &Applied<'_>,
    sources: &[Source<'_, '_>],
    walk: Walk<'_, '_>,
) -> Result<Option<Violation>, CheckError>
    requires { IsSorted (members_of members.now) }
    ensures { FindsLeft walk.entry kw.UnevaluatedProperties sources.now (view rest.now.schema.now)
        (object (members_of members.now)) result }
{
    for member in members {
        let evaluated = is_member_evaluated(member.key, sources)?;
        if !evaluated {
            if let Some(mut found) = violation_of(&member.value, rest, walk)? {
                found.enter_member(walk.alloc, Keyword::UnevaluatedProperties, member.key)?;
                return Ok(Some(found));
            }
        }
    }
    Ok(None)
}

/// What an item violates of the schema, among those that the sources do not evaluate.
#[cycle(validate)]
#[inline(never)]
fn in_items_left(
    items: &[ValueView<'_>],
    rest: &Applied<'_>,
    sources: &[Source<'_, '_>],
    walk: Walk<'_, '_>,
) -> Result<Option<Violation>, CheckError>
    requires { AreWithin walk.steps sources.now }
    ensures { FindsLeft walk.entry kw.UnevaluatedItems sources.now (view rest.now.schema.now)
        (array (trees_of items.now)) result }
{
    for (index, item) in items.iter().enumerate() {
        let evaluated = is_item_evaluated(index, item, sources, walk)?;
        if !evaluated {
            if let Some(mut found) = violation_of(item, rest, walk)? {
                found.enter_item(walk.alloc, Keyword::UnevaluatedItems, index)?;
                return Ok(Some(found));
            }
        }
    }
    Ok(None)
}

/// Whether one of the sources evaluates the member at the key.
#[inline(never)]
pub fn is_member_evaluated(key: &str, sources: &[Source<'_, '_>]) -> Result<bool, CheckError>
    ensures { MatchResult result (λ is. (g : Answers) (u : Tree) →
        is ≡ sources_evaluate g sources.now (member_at (chars key.now) u)) IsShallow }
{
    for source in sources {
        let evaluates = evaluates_member(source, key)?;
        if evaluates {
            return Ok(true);
        }
    }
    Ok(false)
}

fn evaluates_member(source: &Source<'_, '_>, key: &str) -> Result<bool, CheckError>
    ensures { MatchResult result (λ is. (g : Answers) (u : Tree) →
        is ≡ source_evaluates g source.now (member_at (chars key.now) u)) IsShallow }
{
    let has_rest = counts_rest(source, Keyword::UnevaluatedProperties);
    if has_rest {
        return Ok(true);
    }
    let properties = source.applied.schema_at(Keyword::Properties);
    let part = member_part_of(&source.applied, properties, key, 0, source.walk)?;
    if part.is_some() {
        return Ok(true);
    }
    is_patterned(&source.applied, key, source.walk)
}

/// Whether the source has the keyword for the unevaluated parts, and is not the schema that asks.
fn counts_rest(source: &Source<'_, '_>, keyword: Keyword) -> bool
    ensures { result ≡ (not source.now.asks
        && is_some (schema_at (view source.now.applied.schema.now) keyword)) }
{
    if source.asks {
        return false;
    }
    source.applied.schema_at(keyword).is_some()
}

/// Whether one of the sources evaluates the item at the index.
#[cycle(validate)]
#[inline(never)]
pub fn is_item_evaluated(
    index: usize,
    item: &ValueView<'_>,
    sources: &[Source<'_, '_>],
    walk: Walk<'_, '_>,
) -> Result<bool, CheckError>
    requires { AreWithin walk.steps sources.now }
    ensures { MatchResult result
        (λ is. (g : Answers) →
        is ≡ sources_evaluate g sources.now (item_at index (tree_of item.now)))
        (λ e. IfDeep e (DescendsFrom sources.now index (tree_of item.now))) }
{
    for source in sources {
        let evaluates = evaluates_item(source, index, item)?;
        if evaluates {
            return Ok(true);
        }
    }
    Ok(false)
}

#[cycle(validate)]
#[inline(never)]
fn evaluates_item(
    source: &Source<'_, '_>,
    index: usize,
    item: &ValueView<'_>,
) -> Result<bool, CheckError>
    ensures { MatchResult result
        (λ is. (g : Answers) →
        is ≡ source_evaluates g source.now (item_at index (tree_of item.now)))
        (λ e. IfDeep e (DescendsFromOne source.now index (tree_of item.now))) }
{
    let has_rest = counts_rest(source, Keyword::UnevaluatedItems);
    if has_rest {
        return Ok(true);
    }
    let applied = item_part(&source.applied, index);
    if applied.is_some() {
        return Ok(true);
    }
    let Some(part) = source.applied.part(Keyword::Contains) else {
        return Ok(false);
    };
    let accepted = is_accepted(item, &part, source.walk)?;
    Ok(accepted)
}

/// The schema, and those that it applies to the value itself and that accept the value.
#[cycle(validate)]
#[inline(never)]
pub fn sources_of<'d, 's>(
    value: &ValueView<'_>,
    here: &Applied<'s>,
    walk: Walk<'d, 's>,
) -> Result<Vec<Source<'d, 's>>, CheckError>
    ensures evaluated { IfOk result (λ sources. (g : Answers) (c : Child) →
        sources_evaluate g sources.items c
        ≡ others_evaluate (view walk.entry.ground.now.whole.now.root.now) (answers_in walk.entry g)
        (view here.now.schema.now) (tree_of value.now) c) }
    ensures within { IfOk result (λ sources. AreWithin walk.entry.steps sources.items) }
    ensures reached { IfOk result (λ sources. AreReached (root_tree walk.entry)
        (suc walk.entry.steps) (view here.now.schema.now) (tree_of value.now) sources.items) }
    ensures deep { IfErr result
        (IsDeep walk.entry (view here.now.schema.now) (tree_of value.now)) }
{
    let mut sources = Vec::new(walk.alloc);
    sources.push(Source {
        applied: *here,
        walk,
        asks: true,
    })?;
    add_inner(value, here, walk, &mut sources)?;
    Ok(sources)
}

/// Adds a schema that accepts the value, and those that it applies to the value itself and that accept the value.
#[cycle(validate)]
#[inline(never)]
fn add_schema<'d, 's>(
    value: &ValueView<'_>,
    part: &Applied<'s>,
    walk: Walk<'d, 's>,
    sources: &mut Vec<Source<'d, 's>>,
) -> Result<(), CheckError>
    ensures evaluated { OnOk result (Adds walk.entry
        (λ a c. a.evaluates (view part.now.schema.now) (tree_of value.now) c)
        sources.old.items sources.new.items) }
    ensures within { OnOk result (StaysWithin walk.entry sources.old.items sources.new.items) }
    ensures reached { OnOk result (StaysReached
        (Descends walk.entry (view part.now.schema.now) (tree_of value.now))
        (tree_of value.now) sources.old.items sources.new.items) }
    ensures deep { IfErr result (λ e. IfDeep e
        (Descends walk.entry (view part.now.schema.now) (tree_of value.now))) }
{
    let inner = walk.deeper()?;
    sources.push(Source {
        applied: *part,
        walk: inner,
        asks: false,
    })?;
    add_inner(value, part, inner, sources)?;
    Ok(())
}

/// Adds those schemas that the schema applies to the value itself and that accept the value.
#[cycle(validate)]
#[inline(never)]
fn add_inner<'d, 's>(
    value: &ValueView<'_>,
    here: &Applied<'s>,
    walk: Walk<'d, 's>,
    sources: &mut Vec<Source<'d, 's>>,
) -> Result<(), CheckError>
    ensures evaluated { OnOk result (Adds walk.entry
        (λ a c. inner_evaluate (view walk.entry.ground.now.whole.now.root.now) a
        (view here.now.schema.now) (tree_of value.now) c)
        sources.old.items sources.new.items) }
    ensures within { OnOk result (StaysWithin walk.entry sources.old.items sources.new.items) }
    ensures reached { OnOk result (StaysReached
        (DescendsIn walk.entry (view here.now.schema.now) (tree_of value.now))
        (tree_of value.now) sources.old.items sources.new.items) }
    ensures deep { IfErr result (λ e. IfDeep e
        (DescendsIn walk.entry (view here.now.schema.now) (tree_of value.now))) }
{
    let all = here.schemas_at(Keyword::AllOf);
    add_listed(value, here, all, walk, sources)?;
    let any = here.schemas_at(Keyword::AnyOf);
    add_accepting(value, here, Keyword::AnyOf, any, walk, sources)?;
    let one = here.schemas_at(Keyword::OneOf);
    add_accepting(value, here, Keyword::OneOf, one, walk, sources)?;
    add_branch(value, here, walk, sources)?;
    add_dependents(value, here, walk, sources)?;
    add_reference(value, here, walk, sources)?;
    Ok(())
}

/// Adds the schemas of `allOf`, all of which accept the value.
#[cycle(validate)]
#[inline(never)]
fn add_listed<'d, 's>(
    value: &ValueView<'_>,
    here: &Applied<'s>,
    schemas: &'s [JsonValue],
    walk: Walk<'d, 's>,
    sources: &mut Vec<Source<'d, 's>>,
) -> Result<(), CheckError>
    requires { items_view schemas.now ≡ schemas_at (view here.now.schema.now) kw.AllOf }
    ensures evaluated { OnOk result (Adds walk.entry
        (λ a c. some_evaluate a (items_view schemas.now) (tree_of value.now) c)
        sources.old.items sources.new.items) }
    ensures within { OnOk result (StaysWithin walk.entry sources.old.items sources.new.items) }
    ensures reached { OnOk result (StaysReached
        (DescendsAmong walk.entry (items_view schemas.now) (tree_of value.now))
        (tree_of value.now) sources.old.items sources.new.items) }
    ensures deep { IfErr result (λ e. IfDeep e
        (DescendsAmong walk.entry (items_view schemas.now) (tree_of value.now))) }
{
    for (index, schema) in schemas.iter().enumerate() {
        let part = here.listed_part(Keyword::AllOf, index, schema);
        add_schema(value, &part, walk, sources)?;
    }
    Ok(())
}

/// Adds the schemas of the keyword's list that accept the value.
#[cycle(validate)]
#[inline(never)]
fn add_accepting<'d, 's>(
    value: &ValueView<'_>,
    here: &Applied<'s>,
    keyword: Keyword,
    schemas: &'s [JsonValue],
    walk: Walk<'d, 's>,
    sources: &mut Vec<Source<'d, 's>>,
) -> Result<(), CheckError>
    requires { items_view schemas.now ≡ schemas_at (view here.now.schema.now) keyword }
    ensures evaluated { OnOk result (Adds walk.entry
        (λ a c. accepting_evaluate a (items_view schemas.now) (tree_of value.now) c)
        sources.old.items sources.new.items) }
    ensures within { OnOk result (StaysWithin walk.entry sources.old.items sources.new.items) }
    ensures reached { OnOk result (StaysReached
        (DescendsAmong walk.entry (items_view schemas.now) (tree_of value.now))
        (tree_of value.now) sources.old.items sources.new.items) }
    ensures deep { IfErr result (λ e. IfDeep e
        (DescendsAmong walk.entry (items_view schemas.now) (tree_of value.now))) }
{
    for (index, schema) in schemas.iter().enumerate() {
        let part = here.listed_part(keyword, index, schema);
        add_if_accepting(value, &part, walk, sources)?;
    }
    Ok(())
}

/// Adds a schema if it accepts the value, and returns whether it does.
#[cycle(validate)]
#[inline(never)]
fn add_if_accepting<'d, 's>(
    value: &ValueView<'_>,
    part: &Applied<'s>,
    walk: Walk<'d, 's>,
    sources: &mut Vec<Source<'d, 's>>,
) -> Result<bool, CheckError>
    ensures accepted { IfOk result (λ is. Follows walk.entry is
        (λ f. f (view part.now.schema.now) (tree_of value.now))) }
    ensures evaluated { IfOk result (λ is. Adds walk.entry
        (λ a c. a.accepts (view part.now.schema.now) (tree_of value.now)
        && a.evaluates (view part.now.schema.now) (tree_of value.now) c)
        sources.old.items sources.new.items) }
    ensures within { IfOk result (λ is.
        StaysWithin walk.entry sources.old.items sources.new.items) }
    ensures reached { IfOk result (λ is. StaysReached
        (Descends walk.entry (view part.now.schema.now) (tree_of value.now))
        (tree_of value.now) sources.old.items sources.new.items) }
    ensures deep { IfErr result (λ e. IfDeep e
        (Descends walk.entry (view part.now.schema.now) (tree_of value.now))) }
{
    let accepted = is_accepted(value, part, walk)?;
    if !accepted {
        return Ok(false);
    }
    add_schema(value, part, walk, sources)?;
    Ok(true)
}

/// Adds the schema of `if`, if it accepts the value, and the one that it chooses, which accepts the value.
#[cycle(validate)]
#[inline(never)]
fn add_branch<'d, 's>(
    value: &ValueView<'_>,
    here: &Applied<'s>,
    walk: Walk<'d, 's>,
    sources: &mut Vec<Source<'d, 's>>,
) -> Result<(), CheckError>
    ensures evaluated { OnOk result (Adds walk.entry
        (λ a c. branch_evaluates a (view here.now.schema.now) (tree_of value.now) c)
        sources.old.items sources.new.items) }
    ensures within { OnOk result (StaysWithin walk.entry sources.old.items sources.new.items) }
    ensures reached { OnOk result (StaysReached
        (DescendsIn walk.entry (view here.now.schema.now) (tree_of value.now))
        (tree_of value.now) sources.old.items sources.new.items) }
    ensures deep { IfErr result (λ e. IfDeep e
        (DescendsIn walk.entry (view here.now.schema.now) (tree_of value.now))) }
{
    let Some(test) = here.part(Keyword::If) else {
        return Ok(());
    };
    let accepted = add_if_accepting(value, &test, walk, sources)?;
    let chosen = branch(accepted);
    let Some(part) = here.part(chosen) else {
        return Ok(());
    };
    add_schema(value, &part, walk, sources)?;
    Ok(())
}

/// Adds the schemas of `dependentSchemas` for the keys that the value has. They accept the value.
#[cycle(validate)]
#[inline(never)]
fn add_dependents<'d, 's>(
    value: &ValueView<'_>,
    here: &Applied<'s>,
    walk: Walk<'d, 's>,
    sources: &mut Vec<Source<'d, 's>>,
) -> Result<(), CheckError>
    ensures evaluated { OnOk result (Adds walk.entry
        (λ a c. dependents_evaluate a
        (schema_map_at (view here.now.schema.now) kw.DependentSchemas)
        (tree_of value.now) c)
        sources.old.items sources.new.items) }
    ensures within { OnOk result (StaysWithin walk.entry sources.old.items sources.new.items) }
    ensures reached { OnOk result (StaysReached
        (DescendsIn walk.entry (view here.now.schema.now) (tree_of value.now))
        (tree_of value.now) sources.old.items sources.new.items) }
    ensures deep { IfErr result (λ e. IfDeep e
        (DescendsIn walk.entry (view here.now.schema.now) (tree_of value.now))) }
{
    let listed = here.schema_map_at(Keyword::DependentSchemas, walk.alloc)?;
    let dependents = listed.as_slice();
    for &(key, part) in dependents {
        let name = key.as_str();
        let applied = here.keyed_part(Keyword::DependentSchemas, name, part);
        add_dependent(value, name, &applied, walk, sources)?;
    }
    Ok(())
}

/// Adds a schema of `dependentSchemas`, if the value has its key.
#[cycle(validate)]
#[inline(never)]
fn add_dependent<'d, 's>(
    value: &ValueView<'_>,
    key: &str,
    part: &Applied<'s>,
    walk: Walk<'d, 's>,
    sources: &mut Vec<Source<'d, 's>>,
) -> Result<(), CheckError>
    ensures evaluated { OnOk result (Adds walk.entry
        (λ a c. is_some (tree_at_key (tree_of value.now) (chars key.now))
        && a.evaluates (view part.now.schema.now) (tree_of value.now) c)
        sources.old.items sources.new.items) }
    ensures within { OnOk result (StaysWithin walk.entry sources.old.items sources.new.items) }
    ensures reached { OnOk result (StaysReached
        (DescendsForKey walk.entry (chars key.now) (view part.now.schema.now) (tree_of value.now))
        (tree_of value.now) sources.old.items sources.new.items) }
    ensures deep { IfErr result (λ e. IfDeep e
        (DescendsForKey walk.entry (chars key.now) (view part.now.schema.now)
        (tree_of value.now))) }
{
    if !has_key(value, key) {
        return Ok(());
    }
    add_schema(value, part, walk, sources)?;
    Ok(())
}

/// Adds the schemas to which `$ref` and `$dynamicRef` lead. They accept the value.
#[cycle(validate)]
#[inline(never)]
fn add_reference<'d, 's>(
    value: &ValueView<'_>,
    here: &Applied<'s>,
    walk: Walk<'d, 's>,
    sources: &mut Vec<Source<'d, 's>>,
) -> Result<(), CheckError>
    ensures evaluated { OnOk result (Adds walk.entry
        (λ a c. reference_evaluates (view walk.entry.ground.now.whole.now.root.now) a
        (view here.now.schema.now) (tree_of value.now) c)
        sources.old.items sources.new.items) }
    ensures within { OnOk result (StaysWithin walk.entry sources.old.items sources.new.items) }
    ensures reached { OnOk result (StaysReached
        (DescendsIn walk.entry (view here.now.schema.now) (tree_of value.now))
        (tree_of value.now) sources.old.items sources.new.items) }
    ensures deep { IfErr result (λ e. IfDeep e
        (DescendsIn walk.entry (view here.now.schema.now) (tree_of value.now))) }
{
    add_target(value, here, Keyword::Ref, walk, sources)?;
    add_target(value, here, Keyword::DynamicRef, walk, sources)?;
    Ok(())
}

/// Adds the schema to which the reference leads.
#[cycle(validate)]
#[inline(never)]
fn add_target<'d, 's>(
    value: &ValueView<'_>,
    here: &Applied<'s>,
    keyword: Keyword,
    walk: Walk<'d, 's>,
    sources: &mut Vec<Source<'d, 's>>,
) -> Result<(), CheckError>
    ensures evaluated { OnOk result (Adds walk.entry
        (λ a c. target_evaluates (view walk.entry.ground.now.whole.now.root.now) keyword a
        (view here.now.schema.now) (tree_of value.now) c)
        sources.old.items sources.new.items) }
    ensures within { OnOk result (StaysWithin walk.entry sources.old.items sources.new.items) }
    ensures reached { OnOk result (StaysReached
        (DescendsBy walk.entry keyword (view here.now.schema.now) (tree_of value.now))
        (tree_of value.now) sources.old.items sources.new.items) }
    ensures deep { IfErr result (λ e. IfDeep e
        (DescendsBy walk.entry keyword (view here.now.schema.now) (tree_of value.now))) }
{
    let Some(part) = here.referenced(keyword, walk)? else {
        return Ok(());
    };
    add_schema(value, &part, walk, sources)?;
    Ok(())
}
