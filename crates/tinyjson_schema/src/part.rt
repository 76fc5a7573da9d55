//! The schema for a member or an item.
ghost use Rattle.std.specs.Prelude.{◌≡◌, option_map, option_and_then, MatchResult};
ghost use Rattle.std.specs.Str.{chars};
ghost use Rattle.tinyjson.specs.Index.{tree_at_key};
ghost use Rattle.tinyjson.specs.View.{view, members_listed};
ghost use Rattle.tinyjson_schema_keywords.specs.Applied.{schema_at};
ghost use Rattle.tinyjson_schema_keywords.specs.declared.keyword.Keyword.TheVariants as kw;
ghost use Rattle.tinyjson_schema.specs.Deep.{IsShallow};
ghost use Rattle.tinyjson_schema.specs.Parts.{property, prefix_item, some_found, is_patterned};
ghost use Rattle.tinyjson_schema.specs.Parts.{additional};
ghost use Rattle.tinyjson_schema.specs.Places.{IsMemberPart, IsItemPart};

use crate::applied::Applied;
use crate::walk::{CheckError, Walk};
use tinyjson::JsonValue;
use tinyjson_schema_keywords::{Keyword, operand};
use tinyjson_schema_table::{Way, known_part};

/// The schema for a part of the value, and the keyword that applies it.
#[derive(Clone, Copy)]
pub struct Part<'s> {
    pub applicator: Keyword,
    pub to: Applied<'s>,
}

/// The schema for the member at the key: that of `properties`, or else `additionalProperties`, unless a pattern of
/// `patternProperties` matches the key. It takes a step. The schema's `properties` is looked up already, and a property
/// with this key is likely to be the one at the place `near`.
pub fn member_part_of<'s>(
    here: &Applied<'s>,
    properties: Option<&'s JsonValue>,
    key: &str,
    near: usize,
    walk: Walk<'_, '_>,
) -> Result<Option<Part<'s>>, CheckError>
    ensures { MatchResult result (λ part.
        option_map (λ x. view x.now) properties.entry
        ≡ schema_at (view here.now.schema.now) kw.Properties
        → IsMemberPart (view here.now.schema.now) (chars key.now) part) IsShallow }
{
    if walk.ground.whole.budget.spend(1).is_err() {
        return Err(CheckError::TooMuch);
    }
    if let Some(known) = known_part(here.known, Way::Keyed(Keyword::Properties, key), near) {
        return Ok(Some(Part {
            applicator: Keyword::Properties,
            to: Applied::known(known),
        }));
    }
    if let Some(part) = property_of(properties, key) {
        return Ok(Some(Part {
            applicator: Keyword::Properties,
            to: Applied::of(part),
        }));
    }
    match additional(here, key, walk)? {
        Some(part) => {
            let known = known_part(here.known, Way::Single(Keyword::AdditionalProperties), 0);
            Ok(Some(Part {
                applicator: Keyword::AdditionalProperties,
                to: Applied::by(part, known),
            }))
        }
        None => Ok(None),
    }
}

/// The schema for the item at the index: that of `prefixItems`, or else `items`.
pub fn item_part<'s>(here: &Applied<'s>, index: usize) -> Option<Part<'s>>
    ensures { IsItemPart (view here.now.schema.now) index result }
{
    if let Some(part) = prefix_item(here, index) {
        let known = known_part(here.known, Way::Listed(Keyword::PrefixItems, index), index);
        return Some(Part {
            applicator: Keyword::PrefixItems,
            to: Applied::by(part, known),
        });
    }
    if let Some(known) = known_part(here.known, Way::Single(Keyword::Items), 0) {
        return Some(Part {
            applicator: Keyword::Items,
            to: Applied::known(known),
        });
    }
    match here.schema_at(Keyword::Items) {
        Some(part) => Some(Part {
            applicator: Keyword::Items,
            to: Applied::of(part),
        }),
        None => None,
    }
}

/// The schema that `properties` has at a key.
pub fn property<'s>(here: &Applied<'s>, key: &str) -> Option<&'s JsonValue>
    ensures { option_map (λ x. view x.now) result
        ≡ property (view here.now.schema.now) (chars key.now) }
{
    property_of(here.schema_at(Keyword::Properties), key)
}

/// `property`, where the schema's `properties` is looked up already.
fn property_of<'s>(properties: Option<&'s JsonValue>, key: &str) -> Option<&'s JsonValue>
    ensures { option_map (λ x. view x.now) result
        ≡ option_and_then (λ p. tree_at_key p (chars key.now))
        (option_map (λ x. view x.now) properties.entry) }
{
    match properties {
        Some(properties) => operand(properties, key),
        None => None,
    }
}

/// The schema of `additionalProperties` for a key that no pattern matches.
pub fn additional<'s>(
    here: &Applied<'s>,
    key: &str,
    walk: Walk<'_, '_>,
) -> Result<Option<&'s JsonValue>, CheckError>
    ensures { MatchResult result (λ part.
        option_map (λ x. view x.now) part
        ≡ additional (view here.now.schema.now) (chars key.now)) IsShallow }
{
    let Some(part) = here.schema_at(Keyword::AdditionalProperties) else {
        return Ok(None);
    };
    let patterned = is_patterned(here, key, walk)?;
    if patterned {
        return Ok(None);
    }
    Ok(Some(part))
}

/// Whether a pattern of `patternProperties` matches the key. Not inlined, since the recursion over schemas calls it
/// at each level.
#[inline(never)]
pub fn is_patterned(here: &Applied<'_>, key: &str, walk: Walk<'_, '_>) -> Result<bool, CheckError>
    ensures { MatchResult result
        (λ is. is ≡ is_patterned (view here.now.schema.now) (chars key.now)) IsShallow }
{
    let patterns = here.schema_map_at(Keyword::PatternProperties, walk.alloc)?;
    some_found(patterns.as_slice(), key, walk)
}

fn some_found(
    patterns: &[(&String, &JsonValue)],
    key: &str,
    walk: Walk<'_, '_>,
) -> Result<bool, CheckError>
    ensures { MatchResult result
        (λ some. some ≡ some_found (members_listed patterns.now) (chars key.now)) IsShallow }
{
    for &(pattern, _) in patterns {
        let is_found = walk.is_found(pattern.as_str(), key)?;
        if is_found {
            return Ok(true);
        }
    }
    Ok(false)
}

/// The schema that `prefixItems` has at an index.
pub fn prefix_item<'s>(here: &Applied<'s>, index: usize) -> Option<&'s JsonValue>
    ensures { option_map (λ x. view x.now) result ≡ prefix_item (view here.now.schema.now) index }
{
    match here.schema_at(Keyword::PrefixItems)? {
        JsonValue::Array(schemas) => schemas.get(index),
        _ => None,
    }
}
