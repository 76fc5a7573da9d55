//! The meta-schemas that the references of a schema lead into.
ghost use Rattle.std.specs.Prelude.{◌≡◌, ◌++◌, map, option_map, IfOk, OnOk};
ghost use Rattle.std.specs.List.{list_any};
ghost use Rattle.tinyjson.specs.View.{view};
ghost use Rattle.tinyjson_schema_keywords.specs.Subschemas.{seen, all_seen};
ghost use Rattle.tinyjson_schema_drafts.specs.Meta.{published};
ghost use Rattle.tinyjson_schema_drafts.specs.References.{documents_of, has_id, has_resource, is_text};
ghost use Rattle.tinyjson_schema_drafts.specs.References.{lacking, leads_into, led_into};
ghost use Rattle.tinyjson_schema_drafts.specs.References.{reference_of, uri_in, wanted, wanted_among, wanted_of};

use crate::dialect::uri_of;
use crate::document::has_definition;
use crate::draft::Draft;
use crate::meta::{MetaSchema, has_document, meta_schemas};
use std::alloc::{AllocError, Global};
use text_uri::without_fragment;
use tinyjson::JsonValue;
use tinyjson_schema_keywords::{Form, Keyword, SchemaMember, form_by, schema_members};

/// The drafts, the newest one last.
const DRAFTS: [Draft; 5] = [
    Draft::Draft4,
    Draft::Draft6,
    Draft::Draft7,
    Draft::Draft201909,
    Draft::Draft202012,
];

/// The meta-schemas that the schema lacks, of the drafts that references of its bundle lead into.
pub fn wanted(
    schema: &JsonValue,
    bundle: &JsonValue,
    alloc: Global,
) -> Result<Vec<MetaSchema>, AllocError>
    ensures { IfOk result
        (λ found. map published found.items ≡ wanted (view schema.now) (view bundle.now)) }
{
    let members = schema_members(bundle, alloc)?;
    wanted_among(&DRAFTS, schema, members.as_slice(), alloc)
}

/// Those of these drafts.
fn wanted_among(
    drafts: &[Draft],
    schema: &JsonValue,
    members: &[SchemaMember<'_>],
    alloc: Global,
) -> Result<Vec<MetaSchema>, AllocError>
    ensures { IfOk result (λ found. map published found.items
        ≡ wanted_among drafts.now (view schema.now) (all_seen members.now)) }
{
    let mut found = Vec::new(alloc);
    for draft in drafts {
        add_wanted(*draft, schema, members, alloc, &mut found)?;
    }
    Ok(found)
}

/// Adds those of this draft.
fn add_wanted(
    draft: Draft,
    schema: &JsonValue,
    members: &[SchemaMember<'_>],
    alloc: Global,
    found: &mut Vec<MetaSchema>,
) -> Result<(), AllocError>
    ensures { OnOk result (map published found.new.items ≡ map published found.old.items
        ++ wanted_of (view schema.now) (all_seen members.now) draft) }
{
    let documents = documents_of(draft);
    if led_into(documents, members) {
        return add_lacking(documents, schema, alloc, found);
    }
    Ok(())
}

/// The meta-schema of the draft, and those of its vocabularies.
fn documents_of(draft: Draft) -> &'static [MetaSchema]
    ensures { map published result.now ≡ documents_of draft }
{
    match meta_schemas(uri_of(draft)) {
        Some(documents) => documents,
        None => &[],
    }
}

/// Whether one of the members is a reference into the documents.
fn led_into(documents: &[MetaSchema], members: &[SchemaMember<'_>]) -> bool
    ensures { result ≡ led_into (map published documents.now) (all_seen members.now) }
{
    for member in members {
        if leads_into(documents, *member) {
            return true;
        }
    }
    false
}

/// Whether the member is a reference into the documents.
fn leads_into(documents: &[MetaSchema], member: SchemaMember<'_>) -> bool
    ensures { result ≡ leads_into (map published documents.now) (seen member.entry) }
{
    match reference_of(member) {
        Some(uri) => has_document(documents, uri),
        None => false,
    }
}

/// The URI of a reference, without its fragment.
fn reference_of<'s>(member: SchemaMember<'s>) -> Option<&'s str>
    ensures { option_map (λ x. x.now) result ≡ reference_of (seen member.entry) }
{
    match form_by(member.keyword) {
        Form::Reference => uri_in(member.value),
        _ => None,
    }
}

fn uri_in(value: &JsonValue) -> Option<&str>
    ensures { option_map (λ x. x.now) result ≡ uri_in (view value.now) }
{
    match value {
        JsonValue::String(uri) => Some(without_fragment(uri.as_str())),
        _ => None,
    }
}

/// Adds those of the documents that the schema lacks.
fn add_lacking(
    documents: &[MetaSchema],
    schema: &JsonValue,
    alloc: Global,
    found: &mut Vec<MetaSchema>,
) -> Result<(), AllocError>
    ensures { OnOk result (map published found.new.items ≡ map published found.old.items
        ++ lacking (view schema.now) (map published documents.now)) }
{
    for document in documents {
        if !has_resource(schema, document.uri, alloc)? {
            found.push(*document)?;
        }
    }
    Ok(())
}

/// Whether the schema has a document with the URI.
fn has_resource(schema: &JsonValue, uri: &str, alloc: Global) -> Result<bool, AllocError>
    ensures { IfOk result (λ has. has ≡ has_resource (view schema.now) uri.now) }
{
    if has_definition(schema, uri) {
        return Ok(true);
    }
    let members = schema_members(schema, alloc)?;
    Ok(is_some_id(members.as_slice(), uri))
}

/// Whether one of the members is this `$id`.
fn is_some_id(members: &[SchemaMember<'_>], uri: &str) -> bool
    ensures { result ≡ list_any (has_id uri.now) (all_seen members.now) }
{
    for member in members {
        if is_id(*member, uri) {
            return true;
        }
    }
    false
}

/// Whether the member is this `$id`.
fn is_id(member: SchemaMember<'_>, uri: &str) -> bool
    ensures { result ≡ has_id uri.now (seen member.entry) }
{
    match member.keyword {
        Some(Keyword::Id) => is_text(member.value, uri),
        _ => false,
    }
}

/// Whether it is this string.
fn is_text(value: &JsonValue, text: &str) -> bool
    ensures { result ≡ is_text text.now (view value.now) }
{
    match value {
        JsonValue::String(own) => own.as_str() == text,
        _ => false,
    }
}
