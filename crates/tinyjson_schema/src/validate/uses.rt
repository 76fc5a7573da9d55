//! The schemas that a schema applies to a value and its parts, one after the other.
ghost use Rattle.std.specs.Prelude.{◌≡◌, ◌∷◌, [], MatchResult, OnOk, cond, not, map, true};
ghost use Rattle.std.specs.Str.{chars};
ghost use Rattle.tinyjson.specs.View.{view, items_view, members_listed};
ghost use Rattle.tinyjson_view.specs.Views.{tree_of, trees_of, members_of};
ghost use Rattle.tinyjson_schema_keywords.specs.Applied.{schemas_at, schema_map_at};
ghost use Rattle.tinyjson_schema_keywords.specs.Applied.{members_in, items_in};
ghost use Rattle.tinyjson_schema_keywords.specs.declared.keyword.Keyword.TheVariants as kw;
ghost use Rattle.tinyjson_schema.specs.Evaluated.{Answers, others_evaluate};
ghost use Rattle.tinyjson_schema.specs.Every.{all_uses, uses_at, branch_uses, dependent_uses};
ghost use Rattle.tinyjson_schema.specs.Every.{found_uses, pattern_uses, target_uses};
ghost use Rattle.tinyjson_schema.specs.Every.{uses_of_member, member_uses, uses_of_item};
ghost use Rattle.tinyjson_schema.specs.Every.{item_uses, left_members, left_items};
ghost use Rattle.tinyjson_schema.specs.Every.{rest_members, rest_items, uses};
ghost use Rattle.tinyjson_schema.specs.Deep.{IsDeep, IsShallow};
ghost use Rattle.tinyjson_schema.specs.Nested.{IfDeep};
ghost use Rattle.tinyjson_schema.specs.Sources.{sources_evaluate, AreWithin};
ghost use Rattle.tinyjson_schema.specs.Sources.{DescendsFromItems};
ghost use Rattle.tinyjson_schema.specs.Steps.{AddsUses, use_of};
ghost use Rattle.tinyjson_schema.specs.Valid.{answers_in, says};
ghost use Rattle.tinyjson_schema_table.specs.Places.{is_of};

use crate::applied::Applied;
use crate::part::{additional, prefix_item, property};
use crate::validate::pending::{Pending, Step};
use crate::validate::unevaluated::{Source, is_item_evaluated, is_member_evaluated, sources_of};
use crate::validate::{has_key, is_accepted};
use crate::walk::{CheckError, Walk};
use std::alloc::AllocError;
use tinyjson::JsonValue;
use tinyjson_schema_keywords::{Keyword, branch};
use tinyjson_schema_table::{Known, Way, known_part};
use tinyjson_view::{MemberView, ValueView};

/// The schemas that the schema applies to the value and its parts, in order.
#[inline(never)]
pub fn uses_in<'v, 's>(
    value: &ValueView<'v>,
    here: &Applied<'s>,
    walk: Walk<'_, 's>,
) -> Result<Vec<Pending<'v, 's>>, CheckError>
    ensures { MatchResult result (λ pending. (g : Answers) → map use_of pending.items
        ≡ uses (view walk.entry.ground.now.whole.now.root.now) (answers_in walk.entry g)
        (view here.now.schema.now) (tree_of value.now))
        (IsDeep walk.entry (view here.now.schema.now) (tree_of value.now)) }
{
    let mut pending = Vec::new(walk.alloc);
    add_all_of(value, here, &mut pending)?;
    add_branch(value, here, walk, &mut pending)?;
    add_dependents(value, here, walk, &mut pending)?;
    let named = value.members(walk.alloc)?;
    let members = named.as_slice();
    add_patterned(members, here, walk, &mut pending)?;
    add_target(value, here, Keyword::Ref, walk, &mut pending)?;
    add_target(value, here, Keyword::DynamicRef, walk, &mut pending)?;
    add_members(members, here, walk, &mut pending)?;
    let listed = value.items(walk.alloc)?;
    let items = listed.as_slice();
    add_items(items, here, &mut pending)?;
    add_rest_members(value, members, here, walk, &mut pending)?;
    add_rest_items(value, items, here, walk, &mut pending)?;
    Ok(pending)
}

/// Adds one if it is wanted.
fn add_if<'v, 's>(
    is_wanted: bool,
    one: Pending<'v, 's>,
    pending: &mut Vec<Pending<'v, 's>>,
) -> Result<(), AllocError>
    ensures { OnOk result (AddsUses (cond is_wanted (use_of one.entry ∷ []) [])
        pending.old.items pending.new.items) }
{
    if !is_wanted {
        return Ok(());
    }
    pending.push(one)?;
    Ok(())
}

/// Adds the schemas of `allOf`.
#[inline(never)]
fn add_all_of<'v, 's>(
    value: &ValueView<'v>,
    here: &Applied<'s>,
    pending: &mut Vec<Pending<'v, 's>>,
) -> Result<(), AllocError>
    ensures { OnOk result (AddsUses
        (all_uses 0 (schemas_at (view here.now.schema.now) kw.AllOf) (tree_of value.now))
        pending.old.items pending.new.items) }
{
    let parts = here.schemas_at(Keyword::AllOf);
    for (index, part) in parts.iter().enumerate() {
        let known = known_part(here.known, Way::Listed(Keyword::AllOf, index), index);
        let one = Pending {
            step: Step::Listed(Keyword::AllOf, index),
            schema: part,
            known,
            value: *value,
        };
        add_if(true, one, pending)?;
    }
    Ok(())
}

/// Adds the schema that `if` chooses.
#[inline(never)]
fn add_branch<'v, 's>(
    value: &ValueView<'v>,
    here: &Applied<'s>,
    walk: Walk<'_, 's>,
    pending: &mut Vec<Pending<'v, 's>>,
) -> Result<(), CheckError>
    ensures { MatchResult result (λ _. (g : Answers) → AddsUses
        (branch_uses (says walk.entry g) (view here.now.schema.now) (tree_of value.now))
        pending.old.items pending.new.items)
        (IsDeep walk.entry (view here.now.schema.now) (tree_of value.now)) }
{
    let Some(test) = here.part(Keyword::If) else {
        return Ok(());
    };
    let accepted = is_accepted(value, &test, walk)?;
    let chosen = branch(accepted);
    let Some(part) = here.part(chosen) else {
        return Ok(());
    };
    let one = Pending {
        step: Step::Schema(chosen),
        schema: part.schema,
        known: part.known,
        value: *value,
    };
    add_if(true, one, pending)?;
    Ok(())
}

/// Adds the schemas of `dependentSchemas` for the keys that the value has.
#[inline(never)]
fn add_dependents<'v, 's>(
    value: &ValueView<'v>,
    here: &Applied<'s>,
    walk: Walk<'_, 's>,
    pending: &mut Vec<Pending<'v, 's>>,
) -> Result<(), CheckError>
    ensures { MatchResult result (λ _. AddsUses
        (dependent_uses (schema_map_at (view here.now.schema.now) kw.DependentSchemas)
        (tree_of value.now)) pending.old.items pending.new.items)
        IsShallow }
{
    let listed = here.schema_map_at(Keyword::DependentSchemas, walk.alloc)?;
    let dependents = listed.as_slice();
    walk.ground.whole.budget.charge(dependents.len());
    for &(key, part) in dependents {
        let name = key.as_str();
        let is_wanted = has_key(value, name);
        let known = known_part(here.known, Way::Keyed(Keyword::DependentSchemas, name), 0);
        let one = Pending {
            step: Step::Keyed(Keyword::DependentSchemas, name),
            schema: part,
            known,
            value: *value,
        };
        add_if(is_wanted, one, pending)?;
    }
    Ok(())
}

/// Adds the schemas of `patternProperties`, for the members whose keys their patterns match.
#[inline(never)]
fn add_patterned<'v, 's>(
    members: &[MemberView<'v>],
    here: &Applied<'s>,
    walk: Walk<'_, 's>,
    pending: &mut Vec<Pending<'v, 's>>,
) -> Result<(), CheckError>
    ensures { MatchResult result (λ _. AddsUses
        (pattern_uses (schema_map_at (view here.now.schema.now) kw.PatternProperties)
        (members_of members.now)) pending.old.items pending.new.items)
        IsShallow }
{
    let listed = here.schema_map_at(Keyword::PatternProperties, walk.alloc)?;
    let patterns = listed.as_slice();
    walk.ground.whole.budget.charge(patterns.len());
    for &(pattern, part) in patterns {
        let text = pattern.as_str();
        let known = known_part(here.known, Way::Keyed(Keyword::PatternProperties, text), 0);
        add_found(members, text, part, known, walk, pending)?;
    }
    Ok(())
}

/// Adds the schema for the members whose keys the pattern matches.
#[inline(never)]
fn add_found<'v, 's>(
    members: &[MemberView<'v>],
    pattern: &'s str,
    schema: &'s JsonValue,
    known: Option<Known<'s>>,
    walk: Walk<'_, 's>,
    pending: &mut Vec<Pending<'v, 's>>,
) -> Result<(), CheckError>
    requires { is_of known (view schema.now) ≡ true }
    ensures { MatchResult result (λ _. AddsUses
        (found_uses (chars pattern.now) (view schema.now) (members_of members.now))
        pending.old.items pending.new.items)
        IsShallow }
{
    for member in members {
        let is_found = walk.is_found(pattern, member.key)?;
        let one = Pending {
            step: Step::Patterned(pattern, member.key),
            schema,
            known,
            value: member.value,
        };
        add_if(is_found, one, pending)?;
    }
    Ok(())
}

/// Adds the schema to which the reference leads.
#[inline(never)]
fn add_target<'v, 's>(
    value: &ValueView<'v>,
    here: &Applied<'s>,
    keyword: Keyword,
    walk: Walk<'_, 's>,
    pending: &mut Vec<Pending<'v, 's>>,
) -> Result<(), AllocError>
    ensures { OnOk result (AddsUses
        (target_uses (view walk.entry.ground.now.whole.now.root.now) keyword
        (view here.now.schema.now) (tree_of value.now)) pending.old.items pending.new.items) }
{
    let Some(part) = here.referenced(keyword, walk)? else {
        return Ok(());
    };
    let one = Pending {
        step: Step::Schema(keyword),
        schema: part.schema,
        known: part.known,
        value: *value,
    };
    add_if(true, one, pending)?;
    Ok(())
}

/// Adds the schema for each member.
#[inline(never)]
fn add_members<'v, 's>(
    members: &[MemberView<'v>],
    here: &Applied<'s>,
    walk: Walk<'_, 's>,
    pending: &mut Vec<Pending<'v, 's>>,
) -> Result<(), CheckError>
    ensures { MatchResult result (λ _. AddsUses
        (member_uses (view here.now.schema.now) (members_of members.now))
        pending.old.items pending.new.items)
        IsShallow }
{
    for member in members {
        if walk.ground.whole.budget.spend(1).is_err() {
            return Err(CheckError::TooMuch);
        }
        add_member(*member, here, walk, pending)?;
    }
    Ok(())
}

fn add_member<'v, 's>(
    member: MemberView<'v>,
    here: &Applied<'s>,
    walk: Walk<'_, 's>,
    pending: &mut Vec<Pending<'v, 's>>,
) -> Result<(), CheckError>
    ensures { MatchResult result (λ _. AddsUses
        (uses_of_member (view here.now.schema.now) (chars member.entry.key.now)
        (tree_of member.entry.value))
        pending.old.items pending.new.items)
        IsShallow }
{
    if let Some(part) = property(here, member.key) {
        let known = known_part(here.known, Way::Keyed(Keyword::Properties, member.key), 0);
        let one = Pending {
            step: Step::Member(Keyword::Properties, member.key),
            schema: part,
            known,
            value: member.value,
        };
        add_if(true, one, pending)?;
        return Ok(());
    }
    let Some(part) = additional(here, member.key, walk)? else {
        return Ok(());
    };
    let known = known_part(here.known, Way::Single(Keyword::AdditionalProperties), 0);
    let one = Pending {
        step: Step::Member(Keyword::AdditionalProperties, member.key),
        schema: part,
        known,
        value: member.value,
    };
    add_if(true, one, pending)?;
    Ok(())
}

/// Adds the schema for each item.
#[inline(never)]
fn add_items<'v, 's>(
    items: &[ValueView<'v>],
    here: &Applied<'s>,
    pending: &mut Vec<Pending<'v, 's>>,
) -> Result<(), AllocError>
    ensures { OnOk result (AddsUses
        (item_uses (view here.now.schema.now) 0 (trees_of items.now))
        pending.old.items pending.new.items) }
{
    for (index, item) in items.iter().enumerate() {
        add_item(index, item, here, pending)?;
    }
    Ok(())
}

fn add_item<'v, 's>(
    index: usize,
    item: &ValueView<'v>,
    here: &Applied<'s>,
    pending: &mut Vec<Pending<'v, 's>>,
) -> Result<(), AllocError>
    ensures { OnOk result (AddsUses
        (uses_of_item (view here.now.schema.now) index (tree_of item.now))
        pending.old.items pending.new.items) }
{
    if let Some(part) = prefix_item(here, index) {
        let known = known_part(here.known, Way::Listed(Keyword::PrefixItems, index), index);
        let one = Pending {
            step: Step::Item(Keyword::PrefixItems, index),
            schema: part,
            known,
            value: *item,
        };
        add_if(true, one, pending)?;
        return Ok(());
    }
    let Some(part) = here.part(Keyword::Items) else {
        return Ok(());
    };
    let one = Pending {
        step: Step::Item(Keyword::Items, index),
        schema: part.schema,
        known: part.known,
        value: *item,
    };
    add_if(true, one, pending)?;
    Ok(())
}

/// Adds the schema of `unevaluatedProperties` for the members that no other keyword evaluates.
#[inline(never)]
fn add_rest_members<'v, 's>(
    value: &ValueView<'v>,
    members: &[MemberView<'v>],
    here: &Applied<'s>,
    walk: Walk<'_, 's>,
    pending: &mut Vec<Pending<'v, 's>>,
) -> Result<(), CheckError>
    requires { members_of members.now ≡ members_in (tree_of value.now) }
    ensures { MatchResult result (λ _. (g : Answers) → AddsUses
        (rest_members (others_evaluate (view walk.entry.ground.now.whole.now.root.now)
        (answers_in walk.entry g) (view here.now.schema.now) (tree_of value.now))
        (view here.now.schema.now) (tree_of value.now)) pending.old.items pending.new.items)
        (IsDeep walk.entry (view here.now.schema.now) (tree_of value.now)) }
{
    let Some(rest) = here.part(Keyword::UnevaluatedProperties) else {
        return Ok(());
    };
    let sources = sources_of(value, here, walk)?;
    add_left_members(members, &rest, sources.as_slice(), pending)?;
    Ok(())
}

#[inline(never)]
fn add_left_members<'v, 's>(
    members: &[MemberView<'v>],
    rest: &Applied<'s>,
    sources: &[Source<'_, '_>],
    pending: &mut Vec<Pending<'v, 's>>,
) -> Result<(), CheckError>
    ensures { MatchResult result (λ _. (g : Answers) → AddsUses
        (left_members (sources_evaluate g sources.now) (view rest.now.schema.now)
        (members_of members.now))
        pending.old.items pending.new.items)
        IsShallow }
{
    for member in members {
        let evaluated = is_member_evaluated(member.key, sources)?;
        let one = Pending {
            step: Step::Member(Keyword::UnevaluatedProperties, member.key),
            schema: rest.schema,
            known: rest.known,
            value: member.value,
        };
        add_if(!evaluated, one, pending)?;
    }
    Ok(())
}

/// Adds the schema of `unevaluatedItems` for the items that no other keyword evaluates.
#[inline(never)]
fn add_rest_items<'v, 's>(
    value: &ValueView<'v>,
    items: &[ValueView<'v>],
    here: &Applied<'s>,
    walk: Walk<'_, 's>,
    pending: &mut Vec<Pending<'v, 's>>,
) -> Result<(), CheckError>
    requires { trees_of items.now ≡ items_in (tree_of value.now) }
    ensures { MatchResult result (λ _. (g : Answers) → AddsUses
        (rest_items (others_evaluate (view walk.entry.ground.now.whole.now.root.now)
        (answers_in walk.entry g) (view here.now.schema.now) (tree_of value.now))
        (view here.now.schema.now) (tree_of value.now)) pending.old.items pending.new.items)
        (IsDeep walk.entry (view here.now.schema.now) (tree_of value.now)) }
{
    let Some(rest) = here.part(Keyword::UnevaluatedItems) else {
        return Ok(());
    };
    let sources = sources_of(value, here, walk)?;
    add_left_items(items, &rest, sources.as_slice(), walk, pending)?;
    Ok(())
}

#[inline(never)]
fn add_left_items<'v, 's>(
    items: &[ValueView<'v>],
    rest: &Applied<'s>,
    sources: &[Source<'_, '_>],
    walk: Walk<'_, '_>,
    pending: &mut Vec<Pending<'v, 's>>,
) -> Result<(), CheckError>
    requires { AreWithin walk.steps sources.now }
    ensures { MatchResult result (λ _. (g : Answers) → AddsUses
        (left_items (sources_evaluate g sources.now) (view rest.now.schema.now) 0
        (trees_of items.now))
        pending.old.items pending.new.items)
        (λ e. IfDeep e (DescendsFromItems sources.now (trees_of items.now))) }
{
    for (index, item) in items.iter().enumerate() {
        let evaluated = is_item_evaluated(index, item, sources, walk)?;
        let one = Pending {
            step: Step::Item(Keyword::UnevaluatedItems, index),
            schema: rest.schema,
            known: rest.known,
            value: *item,
        };
        add_if(!evaluated, one, pending)?;
    }
    Ok(())
}
