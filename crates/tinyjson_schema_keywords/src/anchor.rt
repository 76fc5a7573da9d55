//! The anchors of a document: the plain names of its schemas.
ghost use Rattle.std.specs.Prelude.{◌≡◌, option_map, IfOk, OnOk};
ghost use Rattle.std.specs.String.{string_bytes};
ghost use Rattle.tinyjson.specs.View.{view};
ghost use Rattle.tinyjson_schema_keywords.specs.Anchors.{is_name_start, is_name_part};
ghost use Rattle.tinyjson_schema_keywords.specs.Anchors.{are_name_parts, is_plain_name, anchors_in};
ghost use Rattle.tinyjson_schema_keywords.specs.Anchors.{anchors_of, anchors_among, own_anchors};
ghost use Rattle.tinyjson_schema_keywords.specs.Anchors.{anchored, repeated, all_named, Gathers};
ghost use Rattle.tinyjson_schema_keywords.specs.Subschemas.{seen, all_seen};

use crate::keyword::{Form, form_by};
use crate::subschemas::{SchemaMember, schema_members};
use std::alloc::{AllocError, Global};
use std::collections::BTreeSet;
use tinyjson::JsonValue;
use tinyjson_bytes::are_equal;

/// A name by `$anchor` or `$dynamicAnchor`, and the schema that has it.
#[derive(Clone, Copy)]
pub struct Anchor<'s> {
    pub name: &'s String,
    pub schema: &'s JsonValue,
}

/// Whether the name is a plain name: a letter or `_`, then letters, digits, `-`, `.` and `_` (Core, 8.2.2).
pub fn is_plain_name(name: &str) -> bool
    ensures { result ≡ is_plain_name name.now }
{
    match name.as_bytes().split_first() {
        Some((first, rest)) => is_name_start(*first) && are_name_parts(rest),
        None => false,
    }
}

fn is_name_start(byte: u8) -> bool
    ensures { result ≡ is_name_start byte }
{
    byte.is_ascii_alphabetic() || byte == b'_'
}

fn is_name_part(byte: u8) -> bool
    ensures { result ≡ is_name_part byte }
{
    byte.is_ascii_alphanumeric() || byte == b'-' || byte == b'.' || byte == b'_'
}

fn are_name_parts(bytes: &[u8]) -> bool
    ensures { result ≡ are_name_parts bytes.now }
{
    for byte in bytes {
        if !is_name_part(*byte) {
            return false;
        }
    }
    true
}

/// The anchors of a schema and of all its subschemas, with members in the order of their keys. The only error is
/// out of memory.
///
/// It takes stack with the nesting of the schema.
pub fn anchors_of(schema: &JsonValue, alloc: Global) -> Result<Vec<Anchor<'_>>, AllocError>
    ensures { IfOk result (λ anchors. all_named anchors.items ≡ anchors_in (view schema.now)) }
{
    let members = schema_members(schema, alloc)?;
    anchors_among(members.as_slice(), alloc)
}

fn anchors_among<'s>(
    members: &[SchemaMember<'s>],
    alloc: Global,
) -> Result<Vec<Anchor<'s>>, AllocError>
    ensures { IfOk result
        (λ anchors. all_named anchors.items ≡ anchors_among (all_seen members.now)) }
{
    let mut anchors = Vec::new(alloc);
    for member in members {
        gather(*member, &mut anchors)?;
    }
    Ok(anchors)
}

/// Appends the anchor that the member gives its schema, if it gives one.
fn gather<'s>(member: SchemaMember<'s>, anchors: &mut Vec<Anchor<'s>>) -> Result<(), AllocError>
    ensures { OnOk result
        (Gathers (anchors_of (seen member.entry)) anchors.old.items anchors.new.items) }
{
    match form_by(member.keyword) {
        Form::Anchor => gather_own(member.value, member.schema, anchors),
        _ => Ok(()),
    }
}

fn gather_own<'s>(
    operand: &'s JsonValue,
    schema: &'s JsonValue,
    anchors: &mut Vec<Anchor<'s>>,
) -> Result<(), AllocError>
    ensures { OnOk result (Gathers (own_anchors (view schema.now) (view operand.now))
        anchors.old.items anchors.new.items) }
{
    match operand {
        JsonValue::String(name) => {
            anchors.push(Anchor { name, schema })?;
            Ok(())
        }
        _ => Ok(()),
    }
}

/// The schema of the first anchor with the name.
pub fn anchored<'s>(anchors: &[Anchor<'s>], name: &str) -> Option<&'s JsonValue>
    ensures { option_map (λ x. view x.now) result ≡ anchored (all_named anchors.now) name.now }
{
    for anchor in anchors {
        if are_equal(anchor.name.as_bytes(), name.as_bytes()) {
            return Some(anchor.schema);
        }
    }
    None
}

/// The first name that a later anchor has too. The time is nearly linear in the number of names.
pub fn repeated<'s>(anchors: &[Anchor<'s>], alloc: Global) -> Result<Option<&'s String>, AllocError>
    ensures { IfOk result
        (λ name. option_map (λ x. string_bytes x.now) name ≡ repeated (all_named anchors.now)) }
{
    let mut names = BTreeSet::new(alloc);
    let mut found = None;
    let mut left = anchors.len();
    while left > 0 {
        left -= 1;
        let name = anchors[left].name;
        if names.contains(name.as_str()) {
            found = Some(name);
        } else {
            let word = String::from_str(alloc, name.as_str())?;
            let Ok(_) = names.insert(word) else {
                return Err(AllocError);
            };
        }
    }
    Ok(found)
}
