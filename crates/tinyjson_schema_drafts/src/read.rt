//! The draft that a schema names, and the schema read in it.
ghost use Rattle.std.specs.Prelude.{◌≡◌, option_map, IfOk};
ghost use Rattle.tinyjson.specs.View.{view};
ghost use Rattle.tinyjson_schema_drafts.specs.Dialects.{dialect_of, without_dialect, unknown_dialect};
ghost use Rattle.tinyjson_schema_drafts.specs.Reading.{read_as, in_draft};

use crate::draft::{Dialect, Draft, dialect_named, unknown_in};
use crate::translate::translated;
use std::alloc::{AllocError, Global};
use tinyjson::{JsonValue, discard_member};
use tinyjson_schema_keywords::{Keyword, schema_at};

/// A schema in the words of 2020-12, by the draft that its `$schema` names; by the given one where it names none, or
/// one that is not known. A `$schema` that was read so is left out. The only error is out of memory.
///
/// A keyword that the draft has not, and that would apply in 2020-12, becomes null, and so does a reference that
/// would lead elsewhere: `Schema::read` of `tinyjson_schema` then rejects the schema at that place.
///
/// ```
/// // Of {"$schema": "http://json-schema.org/draft-07/schema#", "items": [true], "additionalItems": false}:
/// let schema = read_as(schema, Draft::Draft202012, alloc)?; // {"items": false, "prefixItems": [true]}
/// ```
pub fn read_as(schema: JsonValue, default: Draft, alloc: Global) -> Result<JsonValue, AllocError>
    ensures { IfOk result (λ v. view v ≡ read_as default (view schema)) }
{
    match dialect_of(&schema) {
        Dialect::Missing => in_draft(schema, default, alloc),
        Dialect::Known(draft) => in_draft(without_dialect(schema), draft, alloc),
        Dialect::Unknown => in_draft(without_dialect(schema), default, alloc),
    }
}

/// A schema of the draft.
fn in_draft(schema: JsonValue, draft: Draft, alloc: Global) -> Result<JsonValue, AllocError>
    ensures { IfOk result (λ v. view v ≡ in_draft draft (view schema)) }
{
    match draft {
        Draft::Draft202012 => Ok(schema),
        _ => {
            let words = translated(&schema, draft, alloc);
            schema.dismantle();
            words
        }
    }
}

/// What the `$schema` of a schema names: a draft by the URI of its meta-schema, also with `https` in place of `http`,
/// with or without an empty fragment.
///
/// ```
/// // Of {"$schema": "http://json-schema.org/draft-07/schema#"}:
/// let dialect = dialect_of(&schema); // Dialect::Known(Draft::Draft7)
/// ```
pub fn dialect_of(schema: &JsonValue) -> Dialect
    ensures { result ≡ dialect_of (view schema.now) }
{
    match schema_at(schema, Keyword::Schema) {
        Some(uri) => dialect_named(uri),
        None => Dialect::Missing,
    }
}

/// The `$schema` of a schema, if it is a string and names none of the drafts.
pub fn unknown_dialect(schema: &JsonValue) -> Option<&str>
    ensures { option_map (λ x. x.now) result ≡ unknown_dialect (view schema.now) }
{
    match schema_at(schema, Keyword::Schema) {
        Some(uri) => unknown_in(uri),
        None => None,
    }
}

/// The schema without its `$schema`; those of schemas inside it stay.
fn without_dialect(schema: JsonValue) -> JsonValue
    ensures { view result ≡ without_dialect (view schema) }
{
    match schema {
        JsonValue::Object(mut members) => {
            discard_member(&mut members, Keyword::Schema.name());
            JsonValue::Object(members)
        }
        other => other,
    }
}
