//! References in circles.
ghost use Rattle.std.specs.Prelude.{◌≡◌, Some, option_map, string_bytes, true, IfOk};
ghost use Rattle.std.specs.Option.{option_map_or};
ghost use Rattle.tinyjson.specs.View.{view, items_view, members_listed};
ghost use Rattle.tinyjson_schema_keywords.specs.Applied.{schema_at, schema_map_at};
ghost use Rattle.tinyjson_schema_keywords.specs.References.{at_fragment, reference_bytes};
ghost use Rattle.tinyjson_schema_keywords.specs.References.{referenced, target};
ghost use Rattle.tinyjson_schema_keywords.specs.declared.keyword.Keyword.TheVariants as kw;
ghost use Rattle.tinyjson_schema.specs.Circles.{all_pass, map_passes, lists_pass, singles_pass};
ghost use Rattle.tinyjson_schema.specs.Circles.{reference_passes, settles_in, leads};
ghost use Rattle.tinyjson_schema.specs.Settled.{fragment_of, IsRight, IsRightIn};

use crate::settled::Settled;
use std::alloc::{AllocError, Global};
use tinyjson::JsonValue;
use tinyjson_schema_keywords::{
    Document, Keyword, Walk, read_reference, schema_at, schema_map_at, schemas_at, target,
};

/// The keywords that apply a list of schemas to the value itself.
const IN_LISTS: [Keyword; 3] = [Keyword::AllOf, Keyword::AnyOf, Keyword::OneOf];

/// The keywords that apply one schema to the value itself.
const IN_PLACE: [Keyword; 4] = [Keyword::Not, Keyword::If, Keyword::Then, Keyword::Else];

/// How many nested schemas are followed from a reference.
const REFERENCE_STEPS: usize = 100;

/// Whether the reference leads to a subschema of the whole schema, and following on from there comes to an end.
pub fn leads(
    reference: &JsonValue,
    document: Document<'_, '_>,
    known: &mut Settled,
    alloc: Global,
) -> Result<bool, AllocError>
    requires { IsRight (view document.whole.now.root.now) known.old }
    ensures is { IfOk result
        (λ is. is ≡ leads (view document.entry.whole.now.root.now) (view reference.now)) }
    ensures right { IsRight (view document.entry.whole.now.root.now) known.new }
{
    let walk = Walk {
        whole: document.whole,
        steps: REFERENCE_STEPS,
        alloc,
    };
    match target_settles(reference, walk, known)? {
        Some(settled) => Ok(settled),
        None => Ok(false),
    }
}

/// Whether the schemas that are applied to the value itself come to an end within the walk.
#[cycle(circles)]
fn settles(schema: &JsonValue, walk: Walk<'_, '_>, known: &mut Settled) -> Result<bool, AllocError>
    requires { IsRightIn walk known.old }
    ensures is { IfOk result
        (λ is. is ≡ settles_in walk.entry (view schema.now)) }
    ensures right { IsRightIn walk.entry known.new }
{
    let Ok(inner) = walk.deeper() else {
        return Ok(false);
    };
    known.reach(inner.steps);
    let lists = lists_settle(&IN_LISTS, schema, inner, known)?;
    if !lists {
        return Ok(false);
    }
    let singles = singles_settle(&IN_PLACE, schema, inner, known)?;
    if !singles {
        return Ok(false);
    }
    let dependents = dependents_settle(schema, inner, known)?;
    if !dependents {
        return Ok(false);
    }
    reference_settles(schema, inner, known)
}

#[cycle(circles)]
fn lists_settle(
    keywords: &[Keyword],
    schema: &JsonValue,
    walk: Walk<'_, '_>,
    known: &mut Settled,
) -> Result<bool, AllocError>
    requires { IsRightIn walk known.old }
    ensures is { IfOk result (λ is. is
        ≡ lists_pass (settles_in walk.entry) keywords.now (view schema.now)) }
    ensures right { IsRightIn walk.entry known.new }
{
    for keyword in keywords {
        let settled = list_settles(schemas_at(schema, *keyword), walk, known)?;
        if !settled {
            return Ok(false);
        }
    }
    Ok(true)
}

#[cycle(circles)]
fn list_settles(
    schemas: &[JsonValue],
    walk: Walk<'_, '_>,
    known: &mut Settled,
) -> Result<bool, AllocError>
    requires { IsRightIn walk known.old }
    ensures is { IfOk result (λ is. is
        ≡ all_pass (settles_in walk.entry) (items_view schemas.now)) }
    ensures right { IsRightIn walk.entry known.new }
{
    for schema in schemas {
        let settled = settles(schema, walk, known)?;
        if !settled {
            return Ok(false);
        }
    }
    Ok(true)
}

#[cycle(circles)]
fn singles_settle(
    keywords: &[Keyword],
    schema: &JsonValue,
    walk: Walk<'_, '_>,
    known: &mut Settled,
) -> Result<bool, AllocError>
    requires { IsRightIn walk known.old }
    ensures is { IfOk result (λ is. is
        ≡ singles_pass (settles_in walk.entry) keywords.now (view schema.now)) }
    ensures right { IsRightIn walk.entry known.new }
{
    for keyword in keywords {
        let settled = single_settles(*keyword, schema, walk, known)?;
        if !settled {
            return Ok(false);
        }
    }
    Ok(true)
}

#[cycle(circles)]
fn single_settles(
    keyword: Keyword,
    schema: &JsonValue,
    walk: Walk<'_, '_>,
    known: &mut Settled,
) -> Result<bool, AllocError>
    requires { IsRightIn walk known.old }
    ensures is { IfOk result (λ is. is ≡ option_map_or
        (settles_in walk.entry) (schema_at (view schema.now) keyword) true) }
    ensures right { IsRightIn walk.entry known.new }
{
    match schema_at(schema, keyword) {
        Some(part) => settles(part, walk, known),
        None => Ok(true),
    }
}

#[cycle(circles)]
fn dependents_settle(
    schema: &JsonValue,
    walk: Walk<'_, '_>,
    known: &mut Settled,
) -> Result<bool, AllocError>
    requires { IsRightIn walk known.old }
    ensures is { IfOk result (λ is. is ≡ map_passes (settles_in walk.entry)
        (schema_map_at (view schema.now) kw.DependentSchemas)) }
    ensures right { IsRightIn walk.entry known.new }
{
    let listed = schema_map_at(schema, Keyword::DependentSchemas, walk.alloc)?;
    map_settles(listed.as_slice(), walk, known)
}

#[cycle(circles)]
fn map_settles(
    schemas: &[(&String, &JsonValue)],
    walk: Walk<'_, '_>,
    known: &mut Settled,
) -> Result<bool, AllocError>
    requires { IsRightIn walk known.old }
    ensures is { IfOk result (λ is. is
        ≡ map_passes (settles_in walk.entry) (members_listed schemas.now)) }
    ensures right { IsRightIn walk.entry known.new }
{
    for &(_, schema) in schemas {
        let settled = settles(schema, walk, known)?;
        if !settled {
            return Ok(false);
        }
    }
    Ok(true)
}

#[cycle(circles)]
fn reference_settles(
    schema: &JsonValue,
    walk: Walk<'_, '_>,
    known: &mut Settled,
) -> Result<bool, AllocError>
    requires { IsRightIn walk known.old }
    ensures is { IfOk result (λ is. is ≡ reference_passes (view walk.entry.whole.now.root.now)
        (settles_in walk.entry) (view schema.now)) }
    ensures right { IsRightIn walk.entry known.new }
{
    let plain = keyword_settles(Keyword::Ref, schema, walk, known)?;
    if !plain {
        return Ok(false);
    }
    keyword_settles(Keyword::DynamicRef, schema, walk, known)
}

#[cycle(circles)]
fn keyword_settles(
    keyword: Keyword,
    schema: &JsonValue,
    walk: Walk<'_, '_>,
    known: &mut Settled,
) -> Result<bool, AllocError>
    requires { IsRightIn walk known.old }
    ensures is { IfOk result (λ is. is ≡ option_map_or (settles_in walk.entry)
        (referenced (view walk.entry.whole.now.root.now) keyword (view schema.now)) true) }
    ensures right { IsRightIn walk.entry known.new }
{
    let Some(reference) = schema_at(schema, keyword) else {
        return Ok(true);
    };
    match target_settles(reference, walk, known)? {
        Some(settled) => Ok(settled),
        None => Ok(true),
    }
}

/// Whether the schema comes to an end to which the reference leads. `None` if it leads to none.
#[cycle(circles)]
#[inline(never)]
fn target_settles(
    reference: &JsonValue,
    walk: Walk<'_, '_>,
    known: &mut Settled,
) -> Result<Option<bool>, AllocError>
    requires { IsRightIn walk known.old }
    ensures is { IfOk result (λ is. is ≡ option_map (settles_in walk.entry)
        (target (view walk.entry.whole.now.root.now) (view reference.now))) }
    ensures right { IsRightIn walk.entry known.new }
{
    let Some(bytes) = fragment_of(reference, walk.alloc)? else {
        return Ok(None);
    };
    let Ok(fragment) = String::from_utf8(bytes) else {
        return Ok(None);
    };
    if known.knows(fragment.as_str(), walk.steps) {
        return Ok(Some(true));
    }
    fragment_settles(fragment, reference, walk, known)
}

/// Like `target_settles`, of a fragment that is not known: it is followed, and then kept.
#[cycle(circles)]
#[inline(never)]
fn fragment_settles(
    fragment: String,
    reference: &JsonValue,
    walk: Walk<'_, '_>,
    known: &mut Settled,
) -> Result<Option<bool>, AllocError>
    requires known { IsRightIn walk known.old }
    requires same { target (view walk.whole.now.root.now) (view reference.now)
        ≡ at_fragment (view walk.whole.now.root.now) (string_bytes fragment) }
    ensures is { IfOk result (λ is. is ≡ option_map (settles_in walk.entry)
        (target (view walk.entry.whole.now.root.now) (view reference.now))) }
    ensures right { IsRightIn walk.entry known.new }
{
    let Some(schema) = target(reference, walk)? else {
        return Ok(None);
    };
    let before = known.put_least(walk.steps);
    let settled = settles(schema, walk, known)?;
    if settled {
        keep(fragment, schema, walk, known)?;
    }
    known.reach(before);
    Ok(Some(settled))
}

/// Keeps how many steps it takes from the schema of the fragment, which comes to an end in this walk. As many as were
/// taken are enough; it is followed again with these, by now with all references in it known.
#[cycle(circles)]
#[inline(never)]
fn keep(
    fragment: String,
    schema: &JsonValue,
    walk: Walk<'_, '_>,
    known: &mut Settled,
) -> Result<(), AllocError>
    requires known { IsRightIn walk known.old }
    requires leads { at_fragment (view walk.whole.now.root.now) (string_bytes fragment)
        ≡ Some (view schema.now) }
    requires settled { settles_in walk (view schema.now) ≡ true }
    ensures { IsRightIn walk.entry known.new }
{
    let taken = Walk {
        whole: walk.whole,
        steps: known.taken(walk.steps),
        alloc: walk.alloc,
    };
    let least = known.put_least(walk.steps);
    let enough = settles(schema, taken, known)?;
    known.put_least(least);
    if enough {
        known.keep(fragment, taken.steps, walk.alloc)
    } else {
        known.keep(fragment, walk.steps, walk.alloc)
    }
}

/// The bytes of the fragment that the reference is, percent-decoded; else `None`.
fn fragment_of(reference: &JsonValue, alloc: Global) -> Result<Option<Vec<u8>>, AllocError>
    ensures { IfOk result (λ d. option_map (λ v. v.items) d ≡ fragment_of (view reference.now)) }
{
    match reference {
        JsonValue::String(reference) => read_reference(reference.as_str(), alloc),
        _ => Ok(None),
    }
}
