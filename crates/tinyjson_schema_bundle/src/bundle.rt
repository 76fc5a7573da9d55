//! Bundling: every reference to a schema in the document becomes a JSON pointer from the root.
ghost use Rattle.std.specs.Prelude.{◌≡◌, ◌&&◌, List, IfOk, OnOk, option_map};
ghost use Rattle.std.specs.Option.{option_map_or};
ghost use Rattle.std.specs.Str.{chars};
ghost use Rattle.std.specs.String.{string_bytes};
ghost use Rattle.tinyjson.specs.View.{view, items_view, members_view, members_listed};
ghost use Rattle.tinyjson_schema_keywords.specs.Anchors.{is_plain_name};
ghost use Rattle.tinyjson_schema_keywords.specs.Forms.{form_at};
ghost use Rattle.tinyjson_schema_bundle.specs.Bundles.{places_in, begins_pointer, first_place};
ghost use Rattle.tinyjson_schema_bundle.specs.Bundles.{destination, pointing, is_here, is_own_id};
ghost use Rattle.tinyjson_schema_bundle.specs.Bundles.{kept_id, kept_anchor, kept_by, kept_of};
ghost use Rattle.tinyjson_schema_bundle.specs.Bundles.{put_some, is_dynamic, pointed};
ghost use Rattle.tinyjson_schema_bundle.specs.Bundles.{pointed_among, pointed_list, pointed_map};
ghost use Rattle.tinyjson_schema_bundle.specs.Bundles.{pointed_items, pointed_members};
ghost use Rattle.tinyjson_schema_bundle.specs.Scopes.{Reached, guided, bundled, AreCopies};

use crate::copies::{copies_of, letters, with_copies};
use crate::guide::{Guide, fragment_in, place_below, place_of_name, places_of};
use crate::mark::{Spot, base_in, is_bundle, marks_of, with_name};
use crate::place::{at_index, at_key};
use crate::scope::{State, moved, place_of_dynamic, some_contested};
use std::alloc::{AllocError, Global};
use std::collections::{BTreeMap, HashMap};
use std::str;
use text_uri::{resolve, without_fragment};
use tinyjson::{JsonValue, sorted_members};
use tinyjson_pointer::put_member;
use tinyjson_schema_keywords::{Form, Keyword, form_at, is_plain_name, percent_decoded};

/// Returns the document as a single schema resource. Each reference to a schema in the document becomes a pointer
/// from the root, also one into another resource. The `$id`s and names of subschemas are left out (Core, 8.2.1,
/// 8.2.3.2 and 9.3). A resource is copied into `$defs` where a dynamic reference in it leads elsewhere, depending
/// on what has led to it. What can't be resolved stays as it is, as a reference out of the document; `Schema::read`
/// of `tinyjson_schema` then rejects it with its place. The only error is out of memory.
///
/// It is recursive: it takes stack with the nesting of the schema.
///
/// ```
/// bundled(&document, alloc)?; // {"$ref":"x","$defs":{"y":{"$id":"x"}}} becomes {"$ref":"#/$defs/y","$defs":{"y":{}}}
/// ```
pub fn bundled(document: &JsonValue, alloc: Global) -> Result<JsonValue, AllocError>
    ensures { IfOk result (λ v. (copies : List Reached)
        × (view v ≡ bundled copies (view document.now))
        × AreCopies (view document.now) copies) }
{
    match bundle_of(document, alloc)? {
        Some(bundle) => Ok(bundle),
        None => document.try_clone(alloc),
    }
}

/// As [`bundled`], without a copy: `None` if the document is such a single resource already.
///
/// Not inlined, so that a later check has all of the stack.
///
/// ```
/// bundle_of(&document, alloc)?; // of {"$ref":"#/$defs/y","$defs":{"y":{}}}: None
/// ```
#[inline(never)]
pub fn bundle_of(document: &JsonValue, alloc: Global) -> Result<Option<JsonValue>, AllocError>
    ensures { IfOk result (λ o. (copies : List Reached)
        × (option_map_or view o (view document.now) ≡ bundled copies (view document.now))
        × AreCopies (view document.now) copies) }
{
    let gathered = marks_of(document, alloc)?;
    let marks = gathered.as_slice();
    if !is_bundle(marks) {
        return Ok(None);
    }
    let places = places_of(marks, alloc)?;
    let uri = base_in("", document, alloc)?;
    let root = uri.as_str();
    let letters = letters(document, marks, alloc)?;
    let letters = letters.as_str();
    let contested = some_contested(marks, root, alloc)?;
    let start = State::whole(alloc);
    let guide = Guide {
        places: &places,
        marks,
        root,
        contested,
        letters,
        copies: &[],
        from: &start,
        alloc,
    };
    let copies = copies_of(document, &guide)?;
    let guide = Guide {
        copies: copies.as_slice(),
        ..guide
    };
    Ok(Some(with_copies(document, &guide)?))
}

#[cycle(bundle)]
pub fn pointed(
    schema: &JsonValue,
    guide: &Guide<'_>,
    spot: Spot<'_>,
) -> Result<JsonValue, AllocError>
    ensures { IfOk result (λ v. view v ≡ pointed (guided guide.now)
        spot.entry.base.now spot.entry.place.now (view schema.now)) }
{
    let JsonValue::Object(keywords) = schema else {
        return schema.try_clone(guide.alloc);
    };
    let base = base_in(spot.base, schema, guide.alloc)?;
    let spot = Spot {
        base: base.as_str(),
        place: spot.place,
    };
    let sorted = sorted_members(guide.alloc, keywords)?;
    let members = pointed_named(sorted.as_slice(), guide, spot)?;
    Ok(JsonValue::Object(members))
}

/// Bundles the members of a schema, from the last one on.
#[cycle(bundle)]
pub fn pointed_named(
    keywords: &[(&String, &JsonValue)],
    guide: &Guide<'_>,
    spot: Spot<'_>,
) -> Result<HashMap<String, JsonValue>, AllocError>
    ensures { IfOk result (λ m. members_view m.entries ≡ pointed_among (guided guide.now)
        spot.entry.base.now spot.entry.place.now (members_listed keywords.now)) }
{
    let mut members = HashMap::new(guide.alloc);
    let mut left = keywords.len();
    while left > 0 {
        left -= 1;
        let keyword = keywords[left];
        let (name, operand) = keyword;
        let place = at_key(spot.place, name.as_str(), guide.alloc)?;
        let kept = kept_of(name.as_str(), operand, spot, place.as_str(), guide)?;
        put_some(&mut members, name.as_str(), kept, guide.alloc)?;
    }
    Ok(members)
}

/// What remains of a keyword's value, which is at the place. Not inlined, nor are its callees, so that the
/// recursion takes less stack.
#[cycle(bundle)]
#[inline(never)]
fn kept_of(
    name: &str,
    operand: &JsonValue,
    spot: Spot<'_>,
    place: &str,
    guide: &Guide<'_>,
) -> Result<Option<JsonValue>, AllocError>
    ensures { IfOk result (λ o. option_map view o ≡ kept_of (guided guide.now) name.now
        spot.entry.base.now spot.entry.place.now place.now (view operand.now)) }
{
    let inner = Spot {
        base: spot.base,
        place,
    };
    match form_at(name) {
        Form::Schema => Ok(Some(pointed(operand, guide, inner)?)),
        Form::Schemas => Ok(Some(pointed_list(operand, guide, inner)?)),
        Form::SchemaMap | Form::PatternMap => Ok(Some(pointed_map(operand, guide, inner)?)),
        _ => kept_alone(name, operand, spot, guide),
    }
}

#[cycle(bundle)]
#[inline(never)]
fn pointed_list(
    schemas: &JsonValue,
    guide: &Guide<'_>,
    spot: Spot<'_>,
) -> Result<JsonValue, AllocError>
    ensures { IfOk result (λ v. view v ≡ pointed_list (guided guide.now)
        spot.entry.base.now spot.entry.place.now (view schemas.now)) }
{
    let JsonValue::Array(items) = schemas else {
        return schemas.try_clone(guide.alloc);
    };
    let items = pointed_items(items.as_slice(), guide, spot)?;
    Ok(JsonValue::Array(items))
}

#[cycle(bundle)]
fn pointed_items(
    schemas: &[JsonValue],
    guide: &Guide<'_>,
    spot: Spot<'_>,
) -> Result<Vec<JsonValue>, AllocError>
    ensures { IfOk result (λ l. items_view l.items ≡ pointed_items (guided guide.now)
        spot.entry.base.now spot.entry.place.now 0 (items_view schemas.now)) }
{
    let mut items = Vec::new(guide.alloc);
    for (index, schema) in schemas.iter().enumerate() {
        let place = at_index(spot.place, index, guide.alloc)?;
        let inner = Spot {
            base: spot.base,
            place: place.as_str(),
        };
        let item = pointed(schema, guide, inner)?;
        items.push(item)?;
    }
    Ok(items)
}

#[cycle(bundle)]
#[inline(never)]
fn pointed_map(
    schemas: &JsonValue,
    guide: &Guide<'_>,
    spot: Spot<'_>,
) -> Result<JsonValue, AllocError>
    ensures { IfOk result (λ v. view v ≡ pointed_map (guided guide.now)
        spot.entry.base.now spot.entry.place.now (view schemas.now)) }
{
    let JsonValue::Object(members) = schemas else {
        return schemas.try_clone(guide.alloc);
    };
    let sorted = sorted_members(guide.alloc, members)?;
    let members = pointed_members(sorted.as_slice(), guide, spot)?;
    Ok(JsonValue::Object(members))
}

#[cycle(bundle)]
pub fn pointed_members(
    schemas: &[(&String, &JsonValue)],
    guide: &Guide<'_>,
    spot: Spot<'_>,
) -> Result<HashMap<String, JsonValue>, AllocError>
    ensures { IfOk result (λ m. members_view m.entries ≡ pointed_members (guided guide.now)
        spot.entry.base.now spot.entry.place.now (members_listed schemas.now)) }
{
    let mut members = HashMap::new(guide.alloc);
    let mut left = schemas.len();
    while left > 0 {
        left -= 1;
        let member = schemas[left];
        let (key, schema) = member;
        let place = at_key(spot.place, key.as_str(), guide.alloc)?;
        let inner = Spot {
            base: spot.base,
            place: place.as_str(),
        };
        let value = pointed(schema, guide, inner)?;
        put_member(&mut members, key.as_str(), value, guide.alloc)?;
    }
    Ok(members)
}

/// Inserts the value at the key, if there is a value.
pub fn put_some(
    members: &mut HashMap<String, JsonValue>,
    key: &str,
    value: Option<JsonValue>,
    alloc: Global,
) -> Result<(), AllocError>
    ensures { OnOk result (members_view members.new.entries
        ≡ put_some (chars key.now) (option_map view value) (members_view members.old.entries)) }
{
    match value {
        Some(value) => put_member(members, key, value, alloc),
        None => Ok(()),
    }
}

/// What remains of the value of a keyword without subschemas.
#[inline(never)]
fn kept_alone(
    name: &str,
    operand: &JsonValue,
    spot: Spot<'_>,
    guide: &Guide<'_>,
) -> Result<Option<JsonValue>, AllocError>
    ensures { IfOk result (λ o. option_map view o ≡ kept_by (form_at name.now) (view operand.now)
        (kept_id (places_in guide.now.places.now) spot.entry.base.now spot.entry.place.now
        (view operand.now))
        (kept_anchor (places_in guide.now.places.now) spot.entry.base.now spot.entry.place.now
        (view operand.now))
        (pointing (guided guide.now) (is_dynamic name.now) spot.entry.base.now (view operand.now))
        (view operand.now) (view operand.now) (view operand.now)) }
{
    match form_at(name) {
        Form::Base => kept_id(operand, spot, guide.places, guide.alloc),
        Form::Anchor => kept_anchor(operand, spot, guide.places, guide.alloc),
        Form::Reference => Ok(Some(pointing(operand, is_dynamic(name), spot.base, guide)?)),
        _ => Ok(Some(operand.try_clone(guide.alloc)?)),
    }
}

/// The `$id` of the schema at the spot, or `None` if it is left out.
fn kept_id(
    operand: &JsonValue,
    spot: Spot<'_>,
    places: &BTreeMap<String, String>,
    alloc: Global,
) -> Result<Option<JsonValue>, AllocError>
    ensures { IfOk result (λ o. option_map view o ≡ kept_id (places_in places.now)
        spot.entry.base.now spot.entry.place.now (view operand.now)) }
{
    let JsonValue::String(id) = operand else {
        return Ok(Some(operand.try_clone(alloc)?));
    };
    if is_own_id(id.as_str(), spot, places) {
        return Ok(None);
    }
    Ok(Some(operand.try_clone(alloc)?))
}

/// Whether the `$id` has no fragment, and its URI is that of the schema at the spot and of no earlier one.
fn is_own_id(id: &str, spot: Spot<'_>, places: &BTreeMap<String, String>) -> bool
    ensures { result ≡ is_own_id (places_in places.now)
        spot.entry.base.now spot.entry.place.now id.now }
{
    !spot.place.is_empty() && fragment_in(id).is_empty() && is_here(spot.base, spot.place, places)
}

/// Whether the URI belongs to this place.
fn is_here(uri: &str, place: &str, places: &BTreeMap<String, String>) -> bool
    ensures { result ≡ is_here (places_in places.now uri.now) place.now }
{
    match places.get(uri) {
        Some(found) => found.as_str() == place,
        None => false,
    }
}

/// The name of the schema at the spot, or `None` if it is left out.
fn kept_anchor(
    operand: &JsonValue,
    spot: Spot<'_>,
    places: &BTreeMap<String, String>,
    alloc: Global,
) -> Result<Option<JsonValue>, AllocError>
    ensures { IfOk result (λ o. option_map view o ≡ kept_anchor (places_in places.now)
        spot.entry.base.now spot.entry.place.now (view operand.now)) }
{
    let JsonValue::String(name) = operand else {
        return Ok(Some(operand.try_clone(alloc)?));
    };
    let name = name.as_str();
    let uri = with_name(spot.base, name, alloc)?;
    if is_own_anchor(name, uri.as_str(), spot.place, places) {
        return Ok(None);
    }
    Ok(Some(JsonValue::String(uri)))
}

/// Whether it is a plain name, and its URI belongs to this place.
fn is_own_anchor(name: &str, uri: &str, place: &str, places: &BTreeMap<String, String>) -> bool
    ensures { result ≡ is_plain_name name.now
        && is_here (places_in places.now uri.now) place.now }
{
    is_plain_name(name) && is_here(uri, place, places)
}

fn is_dynamic(name: &str) -> bool
    ensures { result ≡ is_dynamic name.now }
{
    name == Keyword::DynamicRef.name()
}

/// A reference in a schema with this base URI, as a pointer.
fn pointing(
    reference: &JsonValue,
    dynamic: bool,
    base: &str,
    guide: &Guide<'_>,
) -> Result<JsonValue, AllocError>
    ensures { IfOk result (λ v. view v
        ≡ pointing (guided guide.now) dynamic base.now (view reference.now)) }
{
    let JsonValue::String(text) = reference else {
        return reference.try_clone(guide.alloc);
    };
    let target = resolve(guide.alloc, base, text.as_str())?;
    match destination(target.as_str(), dynamic, base, guide)? {
        Some(place) => Ok(JsonValue::String(format!(in guide.alloc; "#{place}")?)),
        None => reference.try_clone(guide.alloc),
    }
}

/// The place to which a URI leads, in the document or in a copy.
fn destination(
    target: &str,
    dynamic: bool,
    base: &str,
    guide: &Guide<'_>,
) -> Result<Option<String>, AllocError>
    ensures { IfOk result (λ p. option_map string_bytes p
        ≡ destination (guided guide.now) dynamic base.now target.now) }
{
    match first_place(target, dynamic, base, guide)? {
        Some(place) => Ok(Some(moved(base, place, guide)?)),
        None => Ok(None),
    }
}

/// The place to which a URI leads in the document.
pub fn first_place(
    target: &str,
    dynamic: bool,
    base: &str,
    guide: &Guide<'_>,
) -> Result<Option<String>, AllocError>
    ensures { IfOk result (λ p. option_map string_bytes p
        ≡ first_place (guided guide.now) dynamic base.now target.now) }
{
    let fragment = fragment_in(target);
    let Some(decoded) = percent_decoded(fragment.as_bytes(), guide.alloc)? else {
        return Ok(None);
    };
    let Ok(decoded) = str::from_utf8(decoded.as_slice()) else {
        return Ok(None);
    };
    let uri = without_fragment(target);
    if begins_pointer(decoded) {
        place_below(uri, decoded, guide.places, guide.alloc)
    } else if dynamic {
        place_of_dynamic(base, uri, decoded, guide)
    } else {
        place_of_name(uri, decoded, guide.places, guide.alloc)
    }
}

/// Whether it is empty, or begins with `/`.
fn begins_pointer(text: &str) -> bool
    ensures { result ≡ begins_pointer text.now }
{
    match text.as_bytes().split_first() {
        Some((first, _)) => *first == b'/',
        None => true,
    }
}
