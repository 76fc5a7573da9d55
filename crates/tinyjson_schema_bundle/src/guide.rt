//! Looking up where the URIs of a document lead.
ghost use Rattle.std.specs.Prelude.{◌≡◌, [], IfOk, map, option_and_then, option_map, unwrap_or};
ghost use Rattle.std.specs.String.{string_bytes};
ghost use Rattle.tinyjson.specs.View.{text};
ghost use Rattle.text_uri.specs.Resolving.{fragment_of};
ghost use Rattle.tinyjson_schema_bundle.specs.Bundles.{all_marked, is_place, HasPlaces, places_in};
ghost use Rattle.tinyjson_schema_bundle.specs.Bundles.{with_name, outermost, dynamic_place, marked};
ghost use Rattle.tinyjson_schema_bundle.specs.Bundles.{is_dynamic_name, is_dynamic_at, is_named};
ghost use Rattle.tinyjson_schema_bundle.specs.Bundles.{is_other, is_only, place_after, place_below};

use crate::mark::{Kind, Mark, with_name};
use crate::place::at_key;
use crate::scope::State;
use std::alloc::{AllocError, Global};
use std::collections::BTreeMap;
use text_uri::fragment;
use tinyjson_schema_keywords::read_pointer;

/// What references are resolved with: the place of each URI, all marks, the URI of the root, and the allocator. For
/// dynamic references also whether they lead to different places, the states that have a copy, and the letters with
/// which the copies' keys begin.
#[derive(Clone, Copy)]
pub struct Guide<'a> {
    pub places: &'a BTreeMap<String, String>,
    pub marks: &'a [Mark],
    pub root: &'a str,
    pub contested: bool,
    pub letters: &'a str,
    pub copies: &'a [State],
    pub from: &'a State,
    pub alloc: Global,
}

/// The first place of each URI.
pub fn places_of(marks: &[Mark], alloc: Global) -> Result<BTreeMap<String, String>, AllocError>
    ensures { IfOk result (HasPlaces (all_marked marks.now)) }
{
    let mut places = BTreeMap::new(alloc);
    let mut left = marks.len();
    while left > 0 {
        left -= 1;
        let mark = &marks[left];
        if is_place(mark.kind) {
            let uri = String::from_str(alloc, mark.uri.as_str())?;
            let place = String::from_str(alloc, mark.place.as_str())?;
            let Ok(_) = places.insert(uri, place) else {
                return Err(AllocError);
            };
        }
    }
    Ok(places)
}

pub fn is_place(kind: Kind) -> bool
    ensures { result ≡ is_place kind }
{
    match kind {
        Kind::Inside | Kind::Outside => false,
        _ => true,
    }
}

/// The fragment, or an empty text if there is none.
pub fn fragment_in(text: &str) -> &str
    ensures { result.now ≡ unwrap_or (fragment_of text.now) [] }
{
    match fragment(text) {
        Some(fragment) => fragment,
        None => "",
    }
}

/// The place to which the pointer leads in the resource with the URI.
pub fn place_below(
    uri: &str,
    pointer: &str,
    places: &BTreeMap<String, String>,
    alloc: Global,
) -> Result<Option<String>, AllocError>
    ensures { IfOk result (λ p. option_map string_bytes p
        ≡ option_and_then (λ q. place_below q pointer.now) (places_in places.now uri.now)) }
{
    let Some(place) = places.get(uri) else {
        return Ok(None);
    };
    let Some(pointer) = read_pointer(pointer, alloc)? else {
        return Ok(None);
    };
    Ok(Some(place_after(place.as_str(), pointer.tokens(), alloc)?))
}

/// The place to which the tokens lead from a place.
fn place_after(place: &str, tokens: &[String], alloc: Global) -> Result<String, AllocError>
    ensures { IfOk result (λ s. string_bytes s ≡ place_after place.now (map text tokens.now)) }
{
    let mut below = String::from_str(alloc, place)?;
    for token in tokens {
        below = at_key(below.as_str(), token.as_str(), alloc)?;
    }
    Ok(below)
}

/// The place of the schema with the name in the resource with the URI.
pub fn place_of_name(
    uri: &str,
    name: &str,
    places: &BTreeMap<String, String>,
    alloc: Global,
) -> Result<Option<String>, AllocError>
    ensures { IfOk result (λ p. option_map string_bytes p
        ≡ places_in places.now (with_name uri.now name.now)) }
{
    let uri = with_name(uri, name, alloc)?;
    match places.get(uri.as_str()) {
        Some(place) => Ok(Some(String::from_str(alloc, place.as_str())?)),
        None => Ok(None),
    }
}

/// The final place of a dynamic reference that first leads to the schema at `place`, which has the name by
/// `$dynamicAnchor`. It is the schema with this name in the root resource, or this one if no other has the name
/// (Core, 8.2.3.2).
pub fn outermost<'m>(
    marks: &'m [Mark],
    root: &str,
    name: &str,
    place: &'m str,
    alloc: Global,
) -> Result<Option<&'m str>, AllocError>
    ensures { IfOk result (λ p. option_map (λ x. x.now) p
        ≡ outermost (all_marked marks.now) root.now name.now place.now) }
{
    let uri = with_name(root, name, alloc)?;
    if let Some(found) = dynamic_place(marks, uri.as_str()) {
        return Ok(Some(found));
    }
    if is_only(marks, name, place) {
        return Ok(Some(place));
    }
    Ok(None)
}

/// The place of the first schema with the URI by `$dynamicAnchor`.
pub fn dynamic_place<'m>(marks: &'m [Mark], uri: &str) -> Option<&'m str>
    ensures { option_map (λ p. p.now) result ≡ dynamic_place (all_marked marks.now) uri.now }
{
    for mark in marks {
        if is_dynamic_at(mark, uri) {
            return Some(mark.place.as_str());
        }
    }
    None
}

fn is_dynamic_at(mark: &Mark, uri: &str) -> bool
    ensures { result ≡ is_dynamic_at (marked mark.now) uri.now }
{
    is_dynamic_name(mark.kind) && mark.uri.as_str() == uri
}

pub fn is_dynamic_name(kind: Kind) -> bool
    ensures { result ≡ is_dynamic_name kind }
{
    matches!(kind, Kind::DynamicName)
}

/// Whether each schema with the name by `$dynamicAnchor` is at the place.
fn is_only(marks: &[Mark], name: &str, place: &str) -> bool
    ensures { result ≡ is_only (all_marked marks.now) name.now place.now }
{
    for mark in marks {
        if is_other(mark, name, place) {
            return false;
        }
    }
    true
}

/// Whether the mark has the name, at another place.
fn is_other(mark: &Mark, name: &str, place: &str) -> bool
    ensures { result ≡ is_other (marked mark.now) name.now place.now }
{
    is_named(mark, name) && mark.place.as_str() != place
}

/// Whether the mark has the name by `$dynamicAnchor`, in any resource.
pub fn is_named(mark: &Mark, name: &str) -> bool
    ensures { result ≡ is_named (marked mark.now) name.now }
{
    is_dynamic_name(mark.kind) && fragment_in(mark.uri.as_str()) == name
}
