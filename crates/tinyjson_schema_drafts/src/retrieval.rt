//! Documents that references lead into by the URI where they were found, though they give themselves another.
ghost use Rattle.std.specs.Prelude.{◌≡◌, option_map, IfOk};
ghost use Rattle.std.specs.String.{string_bytes};
ghost use Rattle.tinyjson.specs.View.{view};
ghost use Rattle.tinyjson_schema_drafts.specs.References.{seen};
ghost use Rattle.tinyjson_schema_drafts.specs.Retrieval.{with_retrieval_uri, with_way, way_to};
ghost use Rattle.tinyjson_schema_drafts.specs.Retrieval.{other_uri, if_other, document_id};

use crate::compound::{Compound, embed};
use crate::document::base_of;
use crate::draft::Draft;
use std::alloc::{AllocError, Global};
use std::collections::HashMap;
use text_uri::{resolve, without_fragment};
use tinyjson::JsonValue;
use tinyjson_pointer::put_member;
use tinyjson_schema_keywords::{Keyword, operand, schema_at};

/// The schema with its document at this URI, which references then also lead into by that URI, where it was found, if
/// it gives itself another by `$id` (Core, 8.2.1). The schema is as [`embed`] returns it. The only error is out of
/// memory.
///
/// ```
/// // Of {"$defs":{"a":{"$id":"http://example.com/b"}}}:
/// let compound = with_retrieval_uri(compound, "a", alloc)?;
/// // {"$defs":{"a":{..},"a#":{"$id":"a","$ref":"http://example.com/b"}}}
/// ```
pub fn with_retrieval_uri(
    compound: Compound,
    uri: &str,
    alloc: Global,
) -> Result<Compound, AllocError>
    ensures { IfOk result (λ c. seen c ≡ with_retrieval_uri uri.now (seen compound)) }
{
    match other_uri(alloc, &compound.tree, uri)? {
        Some(own) => with_way(alloc, compound, uri, own),
        None => Ok(compound),
    }
}

/// The URI of the document that was found at this one, if it gives itself another by `$id` (Core, 8.2.1).
fn other_uri(alloc: Global, schema: &JsonValue, uri: &str) -> Result<Option<String>, AllocError>
    ensures { IfOk result
        (λ other. option_map string_bytes other ≡ other_uri uri.now (view schema.now)) }
{
    let found = resolve(alloc, base_of(schema), uri)?;
    let own = without_fragment(document_id(schema, uri));
    match if_other(without_fragment(found.as_str()), own) {
        Some(own) => Ok(Some(String::from_str(alloc, own)?)),
        None => Ok(None),
    }
}

/// The document's own URI, if it has one that is not the URI where it was found.
fn if_other<'u>(found: &str, own: &'u str) -> Option<&'u str>
    ensures { option_map (λ o. o.now) result ≡ if_other found.now own.now }
{
    if own.is_empty() || own == found {
        None
    } else {
        Some(own)
    }
}

/// The `$id` of the document that was found at this URI.
fn document_id<'s>(schema: &'s JsonValue, uri: &str) -> &'s str
    ensures { result.now ≡ document_id uri.now (view schema.now) }
{
    let Some(documents) = schema_at(schema, Keyword::Defs) else {
        return "";
    };
    match operand(documents, uri) {
        Some(document) => base_of(document),
        None => "",
    }
}

/// The schema with a resource, behind this URI, that refers to the other one.
fn with_way(
    alloc: Global,
    compound: Compound,
    uri: &str,
    other: String,
) -> Result<Compound, AllocError>
    ensures { IfOk result
        (λ c. seen c ≡ with_way uri.now (seen compound) (string_bytes other)) }
{
    let mut key = String::from_str(alloc, uri)?;
    key.push('#')?;
    let way = way_to(alloc, other)?;
    embed(compound, key.as_str(), way, Draft::Draft202012, alloc)
}

/// A resource that refers to the one at this URI.
fn way_to(alloc: Global, other: String) -> Result<JsonValue, AllocError>
    ensures { IfOk result (λ v. view v ≡ way_to (string_bytes other)) }
{
    let mut way = HashMap::new(alloc);
    let empty = JsonValue::String(String::new(alloc));
    put_member(&mut way, Keyword::Id.name(), empty, alloc)?;
    put_member(
        &mut way,
        Keyword::Ref.name(),
        JsonValue::String(other),
        alloc,
    )?;
    Ok(JsonValue::Object(way))
}
