//! Copies of resources, for dynamic references that lead elsewhere depending on what has led to them.
ghost use Rattle.std.specs.Prelude.{◌≡◌, IfOk, OnOk, map, option_map};
ghost use Rattle.std.specs.String.{string_bytes};
ghost use Rattle.tinyjson.specs.View.{view, members_view, members_listed};
ghost use Rattle.tinyjson_schema_keywords.specs.Applied.{schema_at};
ghost use Rattle.tinyjson_schema_keywords.specs.declared.keyword.Keyword.TheVariants.{Defs};
ghost use Rattle.tinyjson_schema_bundle.specs.Bundles.{all_marked, marks_of, places_in};
ghost use Rattle.tinyjson_schema_bundle.specs.Scopes.{reached_of, from_root, guided, home, letters};
ghost use Rattle.tinyjson_schema_bundle.specs.Scopes.{letters_above, longest, longer, schema_there};
ghost use Rattle.tinyjson_schema_bundle.specs.Scopes.{may_be_letter, letters_in, most_letters};
ghost use Rattle.tinyjson_schema_bundle.specs.Scopes.{states_in, IsFrom, AreStates, MayAppend};
ghost use Rattle.tinyjson_schema_bundle.specs.Scopes.{copy_by, copy_of, put_copies, defs_in};
ghost use Rattle.tinyjson_schema_bundle.specs.Scopes.{with_defs, with_copies};

use crate::bundle::{first_place, pointed, pointed_members, pointed_named, put_some};
use crate::guide::{Guide, is_place};
use crate::mark::{Kind, Mark, Spot};
use crate::scope::{State, home, is_in_document, is_within, place_in_list, place_of_base, reached};
use std::alloc::{AllocError, Global};
use std::collections::HashMap;
use std::str;
use text_uri::resolve;
use tinyjson::{JsonValue, sorted_members};
use tinyjson_pointer::put_member;
use tinyjson_schema_keywords::{Keyword, at_pointer, percent_decoded, schema_at, schema_map_at};

/// The letters with which the keys of copies begin. They are longer than each key of `$defs`, and no reference of the
/// document has as many: so a reference that leads nowhere leads to no copy.
pub fn letters(document: &JsonValue, marks: &[Mark], alloc: Global) -> Result<String, AllocError>
    requires { all_marked marks.now ≡ marks_of (view document.now) }
    ensures { IfOk result (λ s. string_bytes s ≡ letters (view document.now)) }
{
    let listed = schema_map_at(document, Keyword::Defs, alloc)?;
    let longest = longest_key(listed.as_slice());
    letters_above(most_letters(marks, longest), alloc)
}

/// The most letters in a reference, or `least` if that is more.
fn most_letters(marks: &[Mark], least: usize) -> usize
    ensures { result ≡ most_letters (all_marked marks.now) least }
{
    let mut most = least;
    for mark in marks {
        if !is_place(mark.kind) {
            most = longer(most, letters_in(mark.uri.as_str()));
        }
    }
    most
}

/// How many bytes of the text are a `z`, or a `%`, which may begin its code.
fn letters_in(text: &str) -> usize
    ensures { result ≡ letters_in text.now }
{
    let mut letters = 0;
    for byte in text.as_bytes() {
        if may_be_letter(*byte) {
            letters += 1;
        }
    }
    letters
}

fn may_be_letter(byte: u8) -> bool
    ensures { result ≡ may_be_letter byte }
{
    byte == b'z' || byte == b'%'
}

/// More letters than the count.
fn letters_above(count: usize, alloc: Global) -> Result<String, AllocError>
    ensures { IfOk result (λ s. string_bytes s ≡ letters_above count) }
{
    let mut letters = String::from_str(alloc, "z")?;
    for _ in 0..count {
        letters.push('z')?;
    }
    Ok(letters)
}

/// The length in bytes of the longest key.
fn longest_key(members: &[(&String, &JsonValue)]) -> usize
    ensures { result ≡ longest (members_listed members.now) 0 }
{
    let mut most = 0;
    for member in members {
        let (key, _) = member;
        most = longer(most, key.as_str().len());
    }
    most
}

fn longer(count: usize, other: usize) -> usize
    ensures { result ≡ longer count other }
{
    if count < other { other } else { count }
}

/// The document with pointers, and with the copies in its `$defs`.
pub fn with_copies(document: &JsonValue, guide: &Guide<'_>) -> Result<JsonValue, AllocError>
    requires root { reached_of guide.now.from.now ≡ from_root }
    ensures { IfOk result (λ v. view v ≡ with_copies (places_in guide.now.places.now)
        (all_marked guide.now.marks.now) guide.now.root.now guide.now.letters.now
        guide.now.contested (map reached_of guide.now.copies.now) (view document.now)
        (map reached_of guide.now.copies.now)) }
{
    let spot = Spot {
        base: "",
        place: "",
    };
    let whole = pointed(document, guide, spot)?;
    if guide.copies.is_empty() {
        return Ok(whole);
    }
    let defs = copied_defs(document, guide)?;
    with_defs(whole, defs, guide.alloc)
}

/// The schema with these `$defs`, if there are any.
fn with_defs(
    schema: JsonValue,
    defs: Option<HashMap<String, JsonValue>>,
    alloc: Global,
) -> Result<JsonValue, AllocError>
    ensures { IfOk result (λ v. view v
        ≡ with_defs (option_map (λ m. members_view m.entries) defs) (view schema)) }
{
    let Some(defs) = defs else {
        return Ok(schema);
    };
    match schema {
        JsonValue::Object(mut members) => {
            let defs = JsonValue::Object(defs);
            put_member(&mut members, Keyword::Defs.name(), defs, alloc)?;
            Ok(JsonValue::Object(members))
        }
        other => Ok(other),
    }
}

/// The `$defs` of the bundled document, with the copies; `None` if it is no object.
fn copied_defs(
    document: &JsonValue,
    guide: &Guide<'_>,
) -> Result<Option<HashMap<String, JsonValue>>, AllocError>
    ensures { IfOk result (λ o. option_map (λ m. members_view m.entries) o ≡ option_map
        (put_copies (copy_of (places_in guide.now.places.now) (all_marked guide.now.marks.now)
        guide.now.root.now guide.now.letters.now guide.now.contested
        (map reached_of guide.now.copies.now) (view document.now)) guide.now.letters.now 0
        (map reached_of guide.now.copies.now))
        (defs_in (guided guide.now) guide.now.root.now (schema_at (view document.now) Defs))) }
{
    let Some(mut defs) = defs_of(document, guide)? else {
        return Ok(None);
    };
    put_copies(&mut defs, document, guide)?;
    Ok(Some(defs))
}

/// The `$defs` of the bundled document; `None` if it is no object.
fn defs_of(
    document: &JsonValue,
    guide: &Guide<'_>,
) -> Result<Option<HashMap<String, JsonValue>>, AllocError>
    ensures { IfOk result (λ o. option_map (λ m. members_view m.entries) o
        ≡ defs_in (guided guide.now) guide.now.root.now (schema_at (view document.now) Defs)) }
{
    let Some(defs) = schema_at(document, Keyword::Defs) else {
        return Ok(Some(HashMap::new(guide.alloc)));
    };
    let JsonValue::Object(schemas) = defs else {
        return Ok(None);
    };
    let spot = Spot {
        base: guide.root,
        place: "/$defs",
    };
    let sorted = sorted_members(guide.alloc, schemas)?;
    Ok(Some(pointed_members(sorted.as_slice(), guide, spot)?))
}

/// Inserts the copies.
fn put_copies(
    defs: &mut HashMap<String, JsonValue>,
    document: &JsonValue,
    guide: &Guide<'_>,
) -> Result<(), AllocError>
    ensures { OnOk result (members_view defs.new.entries ≡ put_copies
        (copy_of (places_in guide.now.places.now) (all_marked guide.now.marks.now)
        guide.now.root.now guide.now.letters.now guide.now.contested
        (map reached_of guide.now.copies.now) (view document.now)) guide.now.letters.now 0
        (map reached_of guide.now.copies.now) (members_view defs.old.entries)) }
{
    for (index, from) in guide.copies.iter().enumerate() {
        let guide = Guide { from, ..*guide };
        let copy = copy_of(document, &guide)?;
        let key = format!(in guide.alloc; "{}{index}", guide.letters)?;
        put_some(defs, key.as_str(), copy, guide.alloc)?;
    }
    Ok(())
}

/// A bundled copy of the resource that was reached.
fn copy_of(document: &JsonValue, guide: &Guide<'_>) -> Result<Option<JsonValue>, AllocError>
    ensures { IfOk result (λ o. option_map view o ≡ copy_by (guided guide.now)
        (home (all_marked guide.now.marks.now) guide.now.root.now
        (string_bytes guide.now.from.now.entry)).0
        (string_bytes guide.now.from.now.entry)
        (schema_there (view document.now) (string_bytes guide.now.from.now.entry))) }
{
    let place = guide.from.entry.as_str();
    let Some(schema) = schema_there(document, place, guide.alloc)? else {
        return Ok(None);
    };
    let JsonValue::Object(keywords) = schema else {
        return Ok(None);
    };
    let (base, _) = home(place, guide);
    let spot = Spot { base, place };
    let sorted = sorted_members(guide.alloc, keywords)?;
    let members = pointed_named(sorted.as_slice(), guide, spot)?;
    Ok(Some(JsonValue::Object(members)))
}

/// The schema at a place.
fn schema_there<'s>(
    document: &'s JsonValue,
    place: &str,
    alloc: Global,
) -> Result<Option<&'s JsonValue>, AllocError>
    ensures { IfOk result (λ r. option_map (λ x. view x.now) r
        ≡ schema_there (view document.now) place.now) }
{
    let Some(decoded) = percent_decoded(place.as_bytes(), alloc)? else {
        return Ok(None);
    };
    match str::from_utf8(decoded.as_slice()) {
        Ok(pointer) => at_pointer(document, pointer, alloc),
        Err(_) => Ok(None),
    }
}

/// The most copies that are made. References to further ones lead nowhere, and are rejected at their place.
const MOST_COPIES: usize = 1000;

/// How many bytes of text all copies may have, beside twice those of the document.
const MOST_BYTES: usize = 100_000;

/// The states that need a copy, and how many more bytes of text their copies may have.
#[derive(Drop)]
struct Gathered<'d> {
    document: &'d JsonValue,
    states: Vec<State>,
    room: usize,
}

impl Gathered<'_> {
    /// Appends the state if there is room for its copy. After one that is too long there is none for others: references
    /// to these lead nowhere, and are rejected at their place.
    fn push(&mut self, state: State, alloc: Global) -> Result<(), AllocError>
        ensures { MayAppend (reached_of state) (states_in self.old) (states_in self.new) }
    {
        let Some(schema) = schema_there(self.document, state.entry.as_str(), alloc)? else {
            return Ok(());
        };
        let length = text_length(schema, alloc)?;
        match self.room.checked_sub(length) {
            Some(room) => {
                self.room = room;
                self.states.push(state)?;
            }
            None => self.room = 0,
        }
        Ok(())
    }
}

/// The states that need a copy, as references lead to them from the root. No clause claims that it finds all of
/// them: a reference to a missing copy is rejected at its place.
pub fn copies_of(document: &JsonValue, guide: &Guide<'_>) -> Result<Vec<State>, AllocError>
    requires { reached_of guide.now.from.now ≡ from_root }
    ensures { IfOk result (λ v. AreStates guide.now (map reached_of v.items)) }
{
    let states = Vec::new(guide.alloc);
    if !guide.contested {
        return Ok(states);
    }
    let length = text_length(document, guide.alloc)?;
    let room = length.saturating_mul(2).saturating_add(MOST_BYTES);
    let mut gathered = Gathered {
        document,
        states,
        room,
    };
    gather_reached(guide, &mut gathered)?;
    for next in 0..MOST_COPIES {
        if next >= gathered.states.len() {
            break;
        }
        let from = gathered.states[next].try_clone(guide.alloc)?;
        let guide = Guide {
            from: &from,
            ..*guide
        };
        gather_reached(&guide, &mut gathered)?;
    }
    Ok(gathered.states)
}

/// The length of the schema's normal text.
fn text_length(schema: &JsonValue, alloc: Global) -> Result<usize, AllocError> {
    match schema.stringify(alloc) {
        Ok(text) => Ok(text.len()),
        Err(_) => Err(AllocError),
    }
}

/// Appends the states that the references of the last state lead to, unless the document has them itself.
fn gather_reached(guide: &Guide<'_>, gathered: &mut Gathered<'_>) -> Result<(), AllocError>
    requires from { IsFrom guide.now }
    requires states { AreStates guide.now (states_in gathered.old) }
    ensures { AreStates guide.now (states_in gathered.new) }
{
    for mark in guide.marks {
        let is_reference = matches!(mark.kind, Kind::Inside | Kind::Outside);
        if is_reference && is_within(guide.from.entry.as_str(), mark.place.as_str()) {
            let (base, _) = home(mark.place.as_str(), guide);
            let target = resolve(guide.alloc, base, mark.uri.as_str())?;
            gather_target(target.as_str(), false, base, guide, gathered)?;
            gather_target(target.as_str(), true, base, guide, gathered)?;
        }
    }
    Ok(())
}

fn gather_target(
    target: &str,
    dynamic: bool,
    base: &str,
    guide: &Guide<'_>,
    gathered: &mut Gathered<'_>,
) -> Result<(), AllocError>
    requires from { IsFrom guide.now }
    requires states { AreStates guide.now (states_in gathered.old) }
    ensures { AreStates guide.now (states_in gathered.new) }
{
    if gathered.states.len() >= MOST_COPIES || gathered.room == 0 {
        return Ok(());
    }
    let Some(place) = first_place(target, dynamic, base, guide)? else {
        return Ok(());
    };
    let state = reached(place_of_base(base, guide), place.as_str(), guide)?;
    if is_in_document(&state, place.as_str(), guide)?
        || place_in_list(gathered.states.as_slice(), &state) < gathered.states.len()
    {
        return Ok(());
    }
    gathered.push(state, guide.alloc)
}
