//! Further documents of a schema: each is embedded as a resource of its own.
ghost use Rattle.std.specs.Prelude.{◌≡◌, IfOk, option_map};
ghost use Rattle.std.specs.Str.{chars};
ghost use Rattle.tinyjson.specs.View.{view};
ghost use Rattle.tinyjson_schema_drafts.specs.Documents.{with_document, found_at, base_of, id_found};
ghost use Rattle.tinyjson_schema_drafts.specs.Documents.{with_member, as_object};
ghost use Rattle.tinyjson_schema_drafts.specs.Documents.{or_empty, definitions, without_definitions};
ghost use Rattle.tinyjson_schema_drafts.specs.Documents.{has_definition, string_of};

use std::alloc::{AllocError, Global};
use std::collections::HashMap;
use text_uri::resolve;
use tinyjson::{JsonValue, remove_member};
use tinyjson_pointer::put_member;
use tinyjson_schema_keywords::{Keyword, has_key, schema_at};

/// The schema with a further document, which references then lead into: it becomes a member of the schema's `$defs`,
/// with the URI that it was found at as its key, in the place of a member there. Its own `$id` is resolved by that URI,
/// or the URI becomes its `$id` (Core, 9.1.1). The schema is given as [`found_at`] returns it.
///
/// A schema that is no object stays, and so does one whose `$defs` is none. The only error is out of memory.
///
/// ```
/// // Of {"$ref":"a.json"} and {"type":"null"}, which was found at a.json:
/// let schema = with_document(schema, "a.json", document, alloc)?;
/// // {"$defs":{"a.json":{"$id":"a.json","type":"null"}},"$ref":"a.json"}
/// ```
pub fn with_document(
    schema: JsonValue,
    uri: &str,
    document: JsonValue,
    alloc: Global,
) -> Result<JsonValue, AllocError>
    ensures { IfOk result (λ v. view v ≡ with_document (view schema) uri.now (view document)) }
{
    let found = resolve(alloc, base_of(&schema), uri)?;
    let object = as_object(document, alloc)?;
    let resource = found_at(object, found.as_str(), alloc)?;
    let (rest, defs) = apart(schema, alloc);
    let all = with_member(defs, uri, resource, alloc)?;
    with_member(rest, Keyword::Defs.name(), all, alloc)
}

/// The schema that was found at a URI: its own `$id` is resolved by that, or else the URI becomes its `$id` (Core, 9.1.1). A
/// schema that is no object stays. The only error is out of memory.
///
/// ```
/// let schema = found_at(schema, "/a/b.json", alloc)?; // {"$id":"c.json"} becomes {"$id":"/a/c.json"}
/// ```
pub fn found_at(schema: JsonValue, uri: &str, alloc: Global) -> Result<JsonValue, AllocError>
    ensures { IfOk result (λ v. view v ≡ found_at uri.now (view schema)) }
{
    let id = id_found(&schema, uri, alloc)?;
    with_member(schema, Keyword::Id.name(), id, alloc)
}

/// Whether the `$defs` of the schema has this key.
pub fn has_definition(schema: &JsonValue, key: &str) -> bool
    ensures { result ≡ has_definition (view schema.now) key.now }
{
    match schema_at(schema, Keyword::Defs) {
        Some(defs) => has_key(defs, key),
        None => false,
    }
}

/// The base URI of a whole schema: its `$id`, or the empty string where it has none (Core, 8.2.1).
///
/// ```
/// let base = base_of(&schema); // "http://example.com/a" for {"$id": "http://example.com/a"}
/// ```
pub fn base_of(schema: &JsonValue) -> &str
    ensures { result.now ≡ base_of (view schema.now) }
{
    let Some(id) = schema_at(schema, Keyword::Id) else {
        return "";
    };
    match id {
        JsonValue::String(text) => text.as_str(),
        _ => "",
    }
}

/// The `$id` of a schema that was found at a URI.
fn id_found(schema: &JsonValue, uri: &str, alloc: Global) -> Result<JsonValue, AllocError>
    ensures { IfOk result (λ v. view v ≡ id_found uri.now (view schema.now)) }
{
    let Some(id) = schema_at(schema, Keyword::Id) else {
        return Ok(JsonValue::String(String::from_str(alloc, uri)?));
    };
    match id {
        JsonValue::String(own) => {
            let resolved = resolve(alloc, uri, own.as_str())?;
            Ok(JsonValue::String(resolved))
        }
        other => other.try_clone(alloc),
    }
}

/// A schema that is a truth value as an object (Core, 4.3.2).
fn as_object(schema: JsonValue, alloc: Global) -> Result<JsonValue, AllocError>
    ensures { IfOk result (λ v. view v ≡ as_object (view schema)) }
{
    match schema {
        JsonValue::Boolean(accepts) => {
            let every = JsonValue::Object(HashMap::new(alloc));
            if accepts {
                return Ok(every);
            }
            let none = JsonValue::Object(HashMap::new(alloc));
            with_member(none, Keyword::Not.name(), every, alloc)
        }
        other => Ok(other),
    }
}

/// The schema without its `$defs`, and these; an empty object where it has none.
fn apart(schema: JsonValue, alloc: Global) -> (JsonValue, JsonValue)
    ensures rest { view result.0 ≡ without_definitions (view schema) }
    ensures defs { view result.1 ≡ definitions (view schema) }
{
    match schema {
        JsonValue::Object(mut members) => {
            let defs = remove_member(&mut members, Keyword::Defs.name());
            (JsonValue::Object(members), or_empty(defs, alloc))
        }
        other => (other, or_empty(None, alloc)),
    }
}

fn or_empty(value: Option<JsonValue>, alloc: Global) -> JsonValue
    ensures { view result ≡ or_empty (option_map view value) }
{
    match value {
        Some(value) => value,
        None => JsonValue::Object(HashMap::new(alloc)),
    }
}

/// The value that is this string.
pub fn string_of(text: &str, alloc: Global) -> Result<JsonValue, AllocError>
    ensures { IfOk result (λ v. view v ≡ string_of text.now) }
{
    let text = String::from_str(alloc, text)?;
    Ok(JsonValue::String(text))
}

/// The object with this member; any other value stays.
fn with_member(
    value: JsonValue,
    key: &str,
    member: JsonValue,
    alloc: Global,
) -> Result<JsonValue, AllocError>
    ensures { IfOk result (λ v. view v ≡ with_member (chars key.now) (view member) (view value)) }
{
    match value {
        JsonValue::Object(mut members) => {
            put_member(&mut members, key, member, alloc)?;
            Ok(JsonValue::Object(members))
        }
        other => Ok(other),
    }
}
