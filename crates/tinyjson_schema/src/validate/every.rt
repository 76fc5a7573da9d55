//! Each violation of a schema by a value, not only the first one.
ghost use Rattle.std.specs.Prelude.{◌≡◌, ◌++◌, ◌∷◌, [], IfOk, IfErr, MatchResult, OnOk, cond, map};
ghost use Rattle.tinyjson.specs.View.{view};
ghost use Rattle.tinyjson_view.specs.Views.{tree_of};
ghost use Rattle.tinyjson_schema_assertions.specs.Assertions.{meets, assertions};
ghost use Rattle.tinyjson_schema.specs.Applicators.{applies, tests};
ghost use Rattle.tinyjson_schema.specs.Evaluated.{Answers};
ghost use Rattle.tinyjson_schema.specs.Every.{AreFirst, AreNoneIfValid, failing, at_keyword, spot_of};
ghost use Rattle.tinyjson_schema.specs.Every.{spread, every};
ghost use Rattle.tinyjson_schema.specs.Steps.{AddsFirst, AddsEvery, placed, stepped, spot_at};
ghost use Rattle.tinyjson_schema.specs.Steps.{use_of, DescendsUsing};
ghost use Rattle.tinyjson_schema.specs.Deep.{IsDeep, Descends};
ghost use Rattle.tinyjson_schema.specs.Nested.{IfDeep};
ghost use Rattle.tinyjson_schema.specs.Valid.{root_of, says, IsBeyond};

use crate::applied::Applied;
use crate::assertions::meets;
use crate::contains::{contains_at_least, contains_at_most, contains_some};
use crate::validate::pending::{Pending, Step};
use crate::validate::refuses_all;
use crate::validate::tested::{are_names_met, contained, is_any_met, is_not_met, is_one_met};
use crate::validate::uses::uses_in;
use crate::violation::Violation;
use crate::walk::{CheckError, Walk};
use std::alloc::{AllocError, Global};
use tinyjson_schema_keywords::{Keyword, SearchError};
use tinyjson_schema_table::assertions;
use tinyjson_view::ValueView;

/// The first violations of the whole schema by the value, up to the limit, in order. It applies more schemas and takes
/// more steps than `find_violation`, and has its errors.
///
/// It calls itself for each schema that is applied, so it takes stack with the nesting of these.
///
/// ```
/// let violations = find_violations(&value, walk, 100)?;
/// ```
pub fn find_violations(
    value: &ValueView<'_>,
    walk: Walk<'_, '_>,
    limit: usize,
) -> Result<Vec<Violation>, CheckError>
    ensures first { IfOk result (λ found.
        AreFirst limit (root_of walk.entry) walk.entry.steps (tree_of value.now) found.items) }
    ensures none { IfOk result (λ found.
        AreNoneIfValid limit (root_of walk.entry) (tree_of value.now) found.items) }
    ensures deep { IfErr result
        (IsBeyond walk.entry.steps (root_of walk.entry) (tree_of value.now)) }
{
    let here = Applied::by(walk.ground.whole.root, walk.ground.known);
    let mut found = Vec::new(walk.alloc);
    add_violations(value, &here, walk, &[], limit, &mut found)?;
    found.truncate(limit);
    Ok(found)
}

/// Adds the violations of a subschema by the part of the value to which the path leads, its last step first.
#[cycle(every)]
#[inline(never)]
fn add_violations<'v, 's>(
    value: &ValueView<'v>,
    here: &Applied<'s>,
    walk: Walk<'_, 's>,
    path: &[Step<'v, 's>],
    limit: usize,
    found: &mut Vec<Violation>,
) -> Result<(), CheckError>
    ensures { MatchResult result (λ _. AddsEvery limit walk.entry path.now
        (view here.now.schema.now) (tree_of value.now)
        found.old.items found.new.items)
        (λ e. IfDeep e
        (Descends walk.entry (view here.now.schema.now) (tree_of value.now))) }
{
    let inner = walk.entered()?;
    if refuses_all(here.schema) {
        add_place(path, None, walk.alloc, limit, found)?;
        return Ok(());
    }
    let mut keywords = Vec::new(walk.alloc);
    add_unmet(
        assertions(walk.ground.formats),
        here,
        value,
        walk,
        &mut keywords,
    )?;
    add_tests(value, here, inner, &mut keywords)?;
    add_places(path, keywords.as_slice(), walk.alloc, limit, found)?;
    let uses = uses_in(value, here, inner)?;
    add_further(uses.as_slice(), inner, path, limit, found)?;
    Ok(())
}

/// Adds the violations of schemas that are applied at the end of the path.
#[cycle(every)]
#[inline(never)]
fn add_further<'v, 's>(
    pending: &[Pending<'v, 's>],
    walk: Walk<'_, 's>,
    path: &[Step<'v, 's>],
    limit: usize,
    found: &mut Vec<Violation>,
) -> Result<(), CheckError>
    ensures { MatchResult result (λ _. (g : Answers) → AddsFirst limit (map (placed path.now)
        (spread (λ u. every (root_of walk.entry) walk.entry.steps g u.schema u.value)
        (map use_of pending.now))) found.old.items found.new.items)
        (λ e. IfDeep e (DescendsUsing walk.entry (map use_of pending.now))) }
{
    for used in pending {
        if found.as_slice().len() >= limit {
            return Ok(());
        }
        let mut further = Vec::new(walk.alloc);
        further.push(used.step)?;
        further.extend_from_slice(path)?;
        let part = Applied::by(used.schema, used.known);
        add_violations(&used.value, &part, walk, further.as_slice(), limit, found)?;
    }
    Ok(())
}

/// Adds a place for each of the keywords.
#[inline(never)]
fn add_places(
    path: &[Step<'_, '_>],
    keywords: &[Keyword],
    alloc: Global,
    limit: usize,
    found: &mut Vec<Violation>,
) -> Result<(), AllocError>
    ensures { OnOk result (AddsFirst limit (map (placed path.now) (map at_keyword keywords.now))
        found.old.items found.new.items) }
{
    for &keyword in keywords {
        add_place(path, Some(keyword), alloc, limit, found)?;
    }
    Ok(())
}

/// Adds the place of the keyword, or of the schema, unless there are enough.
#[inline(never)]
fn add_place(
    path: &[Step<'_, '_>],
    keyword: Option<Keyword>,
    alloc: Global,
    limit: usize,
    found: &mut Vec<Violation>,
) -> Result<(), AllocError>
    ensures { OnOk result (AddsFirst limit (placed path.now (spot_at keyword) ∷ [])
        found.old.items found.new.items) }
{
    if found.as_slice().len() >= limit {
        return Ok(());
    }
    let mut violation = violation_at(keyword, alloc)?;
    enter_all(path, alloc, &mut violation)?;
    found.push(violation)?;
    Ok(())
}

fn violation_at(keyword: Option<Keyword>, alloc: Global) -> Result<Violation, AllocError>
    ensures { IfOk result (λ v. spot_of v ≡ spot_at keyword) }
{
    match keyword {
        Some(keyword) => {
            let mut violation = Violation::of_schema(alloc);
            violation.enter_keyword(alloc, keyword)?;
            Ok(violation)
        }
        None => Ok(Violation::of_schema(alloc)),
    }
}

/// Turns a violation of the schema at the end of the path into one of the whole.
fn enter_all(
    path: &[Step<'_, '_>],
    alloc: Global,
    violation: &mut Violation,
) -> Result<(), AllocError>
    ensures { OnOk result (spot_of violation.new ≡ placed path.now (spot_of violation.old)) }
{
    for &step in path {
        enter(step, alloc, violation)?;
    }
    Ok(())
}

/// Turns a violation of a schema into one of the schema that the step is from.
fn enter(step: Step<'_, '_>, alloc: Global, violation: &mut Violation) -> Result<(), AllocError>
    ensures { OnOk result (spot_of violation.new ≡ stepped step.entry (spot_of violation.old)) }
{
    match step {
        Step::Schema(keyword) => {
            violation.enter_keyword(alloc, keyword)?;
            Ok(())
        }
        Step::Listed(keyword, index) => {
            violation.enter_listed(alloc, keyword, index)?;
            Ok(())
        }
        Step::Keyed(keyword, key) => {
            violation.enter_keyed(alloc, keyword, key)?;
            Ok(())
        }
        Step::Member(applicator, key) => {
            violation.enter_member(alloc, applicator, key)?;
            Ok(())
        }
        Step::Patterned(pattern, key) => {
            violation.enter_keyed(alloc, Keyword::PatternProperties, pattern)?;
            violation.enter_value(alloc, key)?;
            Ok(())
        }
        Step::Item(applicator, index) => {
            violation.enter_item(alloc, applicator, index)?;
            Ok(())
        }
    }
}

/// Adds each of the keywords that the schema has and the value violates.
#[inline(never)]
fn add_unmet(
    keywords: &[Keyword],
    here: &Applied<'_>,
    value: &ValueView<'_>,
    walk: Walk<'_, '_>,
    unmet: &mut Vec<Keyword>,
) -> Result<(), SearchError>
    ensures { OnOk result (unmet.new.items ≡ unmet.old.items
        ++ failing (λ k. meets k (view here.now.schema.now) (tree_of value.now)) keywords.now) }
{
    for &keyword in keywords {
        let is_met = meets(keyword, here, value, walk)?;
        add_unless(is_met, keyword, unmet)?;
    }
    Ok(())
}

/// Adds each keyword that counts or combines the results of its subschemas and that the value violates.
#[inline(never)]
fn add_tests(
    value: &ValueView<'_>,
    here: &Applied<'_>,
    walk: Walk<'_, '_>,
    unmet: &mut Vec<Keyword>,
) -> Result<(), CheckError>
    ensures { MatchResult result (λ _. (g : Answers) → unmet.new.items ≡ unmet.old.items
        ++ failing (λ k. applies (says walk.entry g) k (view here.now.schema.now) (tree_of value.now))
        tests)
        (IsDeep walk.entry (view here.now.schema.now) (tree_of value.now)) }
{
    let any = is_any_met(value, here, walk)?;
    add_unless(any, Keyword::AnyOf, unmet)?;
    let one = is_one_met(value, here, walk)?;
    add_unless(one, Keyword::OneOf, unmet)?;
    let other = is_not_met(value, here, walk)?;
    add_unless(other, Keyword::Not, unmet)?;
    let names = are_names_met(value, here, walk)?;
    add_unless(names, Keyword::PropertyNames, unmet)?;
    let count = contained(value, here, walk)?;
    let some = contains_some(count, here);
    add_unless(some, Keyword::Contains, unmet)?;
    let most = contains_at_most(count, here, walk.alloc)?;
    add_unless(most, Keyword::MaxContains, unmet)?;
    let least = contains_at_least(count, here, walk.alloc)?;
    add_unless(least, Keyword::MinContains, unmet)?;
    Ok(())
}

/// Adds the keyword if it is not met.
fn add_unless(is_met: bool, keyword: Keyword, unmet: &mut Vec<Keyword>) -> Result<(), AllocError>
    ensures { OnOk result (unmet.new.items
        ≡ unmet.old.items ++ cond is_met [] (keyword ∷ [])) }
{
    if is_met {
        return Ok(());
    }
    unmet.push(keyword)?;
    Ok(())
}
