//! Dynamic scopes, as far as they decide where references lead (JSON Schema 2020-12, Core, 7.1 and 8.2.3.2).
ghost use Rattle.std.specs.Prelude.{◌≡◌, [], IfOk, OnOk, map, option_map, unwrap_or};
ghost use Rattle.std.specs.String.{string_bytes};
ghost use Rattle.tinyjson_schema_bundle.specs.Bundles.{all_marked, marked, places_in};
ghost use Rattle.tinyjson_schema_bundle.specs.Scopes.{below, is_within, settled, is_same};
ghost use Rattle.tinyjson_schema_bundle.specs.Scopes.{place_in_list, is_resource_mark, is_between};
ghost use Rattle.tinyjson_schema_bundle.specs.Scopes.{is_contested, some_contested, is_entering};
ghost use Rattle.tinyjson_schema_bundle.specs.Scopes.{entered, scope_at, home, reached, from_root};
ghost use Rattle.tinyjson_schema_bundle.specs.Scopes.{leads_over, reached_of, guided};

use crate::guide::{
    Guide, dynamic_place, fragment_in, is_dynamic_name, is_named, outermost, place_of_name,
};
use crate::mark::{Kind, Mark, with_name};
use std::alloc::{AllocError, Global};
use text_uri::without_fragment;

/// A dynamic scope, and the place of the resource that was reached in it. The scope has a schema for some contested
/// names: the outermost one. A name is contested if several resources have it by `$dynamicAnchor`, and the root
/// resource does not.
#[derive(Drop)]
pub struct State {
    pub scope: Vec<Mark>,
    pub entry: String,
}

impl State {
    /// The root, where each scope begins.
    pub fn whole(alloc: Global) -> Self
        ensures { reached_of result ≡ from_root }
    {
        State {
            scope: Vec::new(alloc),
            entry: String::new(alloc),
        }
    }

    pub fn try_clone(&self, alloc: Global) -> Result<State, AllocError>
        ensures { IfOk result (λ s. reached_of s ≡ reached_of self.now) }
    {
        Ok(State {
            scope: copied(self.scope.as_slice(), alloc)?,
            entry: String::from_str(alloc, self.entry.as_str())?,
        })
    }
}

/// Copies of marks.
fn copied(marks: &[Mark], alloc: Global) -> Result<Vec<Mark>, AllocError>
    ensures { IfOk result (λ v. all_marked v.items ≡ all_marked marks.now) }
{
    let mut copies = Vec::new(alloc);
    for mark in marks {
        let copy = mark.try_clone(alloc)?;
        copies.push(copy)?;
    }
    Ok(copies)
}

/// The rest of a place after an outer one, which is the same or contains it.
pub fn below<'p>(outer: &str, place: &'p str) -> Option<&'p str>
    ensures { option_map (λ x. x.now) result ≡ below outer.now place.now }
{
    let bytes = place.as_bytes();
    let from = outer.len();
    if bytes.len() < from || &bytes[..from] != outer.as_bytes() {
        return None;
    }
    if bytes.len() > from && bytes[from] != b'/' {
        return None;
    }
    Some(&place[from..])
}

/// That rest, or an empty text.
fn rest_below<'p>(outer: &str, place: &'p str) -> &'p str
    ensures { result.now ≡ unwrap_or (below outer.now place.now) [] }
{
    match below(outer, place) {
        Some(rest) => rest,
        None => "",
    }
}

pub fn is_within(outer: &str, place: &str) -> bool
    ensures { result ≡ is_within outer.now place.now }
{
    below(outer, place).is_some()
}

/// The place of the scope's schema for the name.
fn settled<'s>(scope: &'s [Mark], name: &str) -> Option<&'s str>
    ensures { option_map (λ x. x.now) result ≡ settled (all_marked scope.now) name.now }
{
    for mark in scope {
        if is_named(mark, name) {
            return Some(mark.place.as_str());
        }
    }
    None
}

/// Whether two scopes have the same schemas in the same order.
fn is_same(scope: &[Mark], other: &[Mark]) -> bool
    ensures { result ≡ is_same (all_marked scope.now) (all_marked other.now) }
{
    if scope.len() != other.len() {
        return false;
    }
    for index in 0..scope.len() {
        if scope[index].place.as_str() != other[index].place.as_str() {
            return false;
        }
    }
    true
}

/// The index of the state in the list, or the list's length.
pub fn place_in_list(states: &[State], state: &State) -> usize
    ensures { result ≡ place_in_list (map reached_of states.now) (reached_of state.now) }
{
    let mut index = 0;
    while index < states.len() {
        let other = &states[index];
        if is_same(other.scope.as_slice(), state.scope.as_slice())
            && other.entry.as_str() == state.entry.as_str()
        {
            return index;
        }
        index += 1;
    }
    index
}

/// Whether the mark is a resource within the one at `entry`, and the place is in it.
fn is_between(entry: &str, place: &str, mark: &Mark) -> bool
    ensures { result ≡ is_between entry.now place.now (marked mark.now) }
{
    is_resource(mark.kind)
        && is_within(entry, mark.place.as_str())
        && is_within(mark.place.as_str(), place)
}

fn is_resource(kind: Kind) -> bool
    ensures { result ≡ is_resource_mark kind }
{
    matches!(kind, Kind::Resource)
}

/// Whether the mark's name is contested: other resources have it by `$dynamicAnchor`, and the root resource has
/// not.
fn is_contested(marks: &[Mark], root: &str, mark: &Mark, alloc: Global) -> Result<bool, AllocError>
    ensures { IfOk result (λ b.
        b ≡ is_contested (all_marked marks.now) root.now (marked mark.now)) }
{
    if !is_dynamic_name(mark.kind) {
        return Ok(false);
    }
    let name = fragment_in(mark.uri.as_str());
    let found = outermost(marks, root, name, mark.place.as_str(), alloc)?;
    Ok(found.is_none())
}

/// Whether a name is contested.
pub fn some_contested(marks: &[Mark], root: &str, alloc: Global) -> Result<bool, AllocError>
    ensures { IfOk result (λ b. b ≡ some_contested (all_marked marks.now) root.now
        (all_marked marks.now)) }
{
    for mark in marks {
        if is_contested(marks, root, mark, alloc)? {
            return Ok(true);
        }
    }
    Ok(false)
}

/// Whether the mark is added to the scope when the resource with the URI is entered.
fn is_entering(
    mark: &Mark,
    scope: &[Mark],
    uri: &str,
    guide: &Guide<'_>,
) -> Result<bool, AllocError>
    ensures { IfOk result (λ b. b ≡ is_entering (all_marked guide.now.marks.now)
        guide.now.root.now (all_marked scope.now) uri.now (marked mark.now)) }
{
    let text = mark.uri.as_str();
    if without_fragment(text) != uri || settled(scope, fragment_in(text)).is_some() {
        return Ok(false);
    }
    is_contested(guide.marks, guide.root, mark, guide.alloc)
}

/// Enters the resource with the URI: its contested names are added to the scope, unless the scope has them.
fn enter(scope: &mut Vec<Mark>, uri: &str, guide: &Guide<'_>) -> Result<(), AllocError>
    ensures { OnOk result (all_marked scope.new.items ≡ entered (all_marked guide.now.marks.now)
        guide.now.root.now uri.now (all_marked scope.old.items)) }
{
    for mark in guide.marks {
        if is_entering(mark, scope.as_slice(), uri, guide)? {
            let copy = mark.try_clone(guide.alloc)?;
            scope.push(copy)?;
        }
    }
    Ok(())
}

/// The scope at the place, within what was reached.
fn scope_at(state: &State, place: &str, guide: &Guide<'_>) -> Result<Vec<Mark>, AllocError>
    ensures { IfOk result (λ s. all_marked s.items ≡ scope_at (all_marked guide.now.marks.now)
        guide.now.root.now (reached_of state.now) place.now) }
{
    let mut scope = copied(state.scope.as_slice(), guide.alloc)?;
    for mark in guide.marks {
        if is_between(state.entry.as_str(), place, mark) {
            enter(&mut scope, mark.uri.as_str(), guide)?;
        }
    }
    Ok(scope)
}

/// The URI and the place of the innermost resource that contains the place.
pub fn home<'a>(place: &str, guide: &Guide<'a>) -> (&'a str, &'a str)
    ensures { (result.0.now, result.1.now)
        ≡ home (all_marked guide.now.marks.now) guide.now.root.now place.now }
{
    let mut home = (guide.root, "");
    for mark in guide.marks {
        if is_between("", place, mark) {
            home = (mark.uri.as_str(), mark.place.as_str());
        }
    }
    home
}

/// The state that is reached at the place from a schema at the other place.
pub fn reached(from: &str, place: &str, guide: &Guide<'_>) -> Result<State, AllocError>
    ensures { IfOk result (λ s. reached_of s ≡ reached (all_marked guide.now.marks.now)
        guide.now.root.now (scope_at (all_marked guide.now.marks.now) guide.now.root.now
        (reached_of guide.now.from.now) from.now) place.now) }
{
    let mut scope = scope_at(guide.from, from, guide)?;
    let (uri, entry) = home(place, guide);
    enter(&mut scope, uri, guide)?;
    Ok(State {
        scope,
        entry: String::from_str(guide.alloc, entry)?,
    })
}

/// Whether the document itself serves for this state at the place, so that no copy is needed.
pub fn is_in_document(state: &State, place: &str, guide: &Guide<'_>) -> Result<bool, AllocError>
    ensures { IfOk result (λ b. b ≡ is_same (reached_of state.now).0
        (scope_at (all_marked guide.now.marks.now) guide.now.root.now from_root place.now)) }
{
    let start = State::whole(guide.alloc);
    let scope = scope_at(&start, place, guide)?;
    Ok(is_same(state.scope.as_slice(), scope.as_slice()))
}

/// The place to which a reference in a schema with the base URI leads: in the document or in a copy.
pub fn moved(base: &str, place: String, guide: &Guide<'_>) -> Result<String, AllocError>
    ensures { IfOk result (λ s. string_bytes s
        ≡ (guided guide.now).2 base.now (string_bytes place)) }
{
    if !guide.contested {
        return Ok(place);
    }
    let state = reached(place_of_base(base, guide), place.as_str(), guide)?;
    if is_in_document(&state, place.as_str(), guide)? {
        return Ok(place);
    }
    let index = place_in_list(guide.copies, &state);
    let rest = rest_below(state.entry.as_str(), place.as_str());
    Ok(format!(in guide.alloc; "/$defs/{}{index}{rest}", guide.letters)?)
}

/// The place of the resource with the base URI.
pub fn place_of_base<'a>(base: &str, guide: &Guide<'a>) -> &'a str
    ensures { result.now ≡ unwrap_or (places_in guide.now.places.now base.now) [] }
{
    match guide.places.get(base) {
        Some(place) => place.as_str(),
        None => "",
    }
}

/// The place to which a dynamic reference leads from a schema with the base URI. The reference has the name, in the
/// resource with the URI (Core, 8.2.3.2).
pub fn place_of_dynamic(
    base: &str,
    uri: &str,
    name: &str,
    guide: &Guide<'_>,
) -> Result<Option<String>, AllocError>
    ensures { IfOk result (λ p. option_map string_bytes p
        ≡ (guided guide.now).1 base.now uri.now name.now) }
{
    let first = with_name(uri, name, guide.alloc)?;
    match dynamic_place(guide.marks, first.as_str()) {
        Some(place) => Ok(Some(leads_over(base, name, place, guide)?)),
        None => place_of_name(uri, name, guide.places, guide.alloc),
    }
}

/// The final place of a dynamic reference that first leads to a schema with its name by `$dynamicAnchor`: that of
/// the outermost such schema in the dynamic scope.
fn leads_over<'a>(
    base: &str,
    name: &str,
    place: &'a str,
    guide: &Guide<'a>,
) -> Result<String, AllocError>
    ensures { IfOk result (λ s. string_bytes s ≡ leads_over (all_marked guide.now.marks.now)
        guide.now.root.now (reached_of guide.now.from.now)
        (unwrap_or (places_in guide.now.places.now base.now) []) name.now place.now) }
{
    if let Some(place) = outermost(guide.marks, guide.root, name, place, guide.alloc)? {
        return String::from_str(guide.alloc, place);
    }
    let scope = scope_at(guide.from, place_of_base(base, guide), guide)?;
    match settled(scope.as_slice(), name) {
        Some(outer) => String::from_str(guide.alloc, outer),
        None => String::from_str(guide.alloc, place),
    }
}
