//! The draft of a schema, and the meta-schema that describes it.
ghost use Rattle.std.specs.Prelude.{◌≡◌};
ghost use Rattle.tinyjson.specs.View.{view};
ghost use Rattle.tinyjson_schema_drafts.specs.References.{draft_of, is_older};
ghost use Rattle.tinyjson_schema_drafts.specs.References.{meta_schema_of, uri_of};

use crate::draft::{Dialect, Draft};
use crate::read::{dialect_of, unknown_dialect};
use tinyjson::JsonValue;

/// The draft that the `$schema` of a schema names, or else the default (Core, 8.1.1).
///
/// ```
/// // Of {"$schema": "http://json-schema.org/draft-07/schema#"}:
/// let draft = draft_of(&schema, Draft::Draft202012); // Draft::Draft7
/// ```
pub fn draft_of(schema: &JsonValue, default: Draft) -> Draft
    ensures { result ≡ draft_of default (view schema.now) }
{
    match dialect_of(schema) {
        Dialect::Known(draft) => draft,
        Dialect::Missing | Dialect::Unknown => default,
    }
}

/// Whether it is another draft than 2020-12.
pub fn is_older(draft: Draft) -> bool
    ensures { result ≡ is_older draft }
{
    !matches!(draft, Draft::Draft202012)
}

/// The URI of a draft's meta-schema (draft 4, 6 and 7: Core, section 6 or 7; 2019-09 and 2020-12: Core, 8.1.1), without
/// a fragment.
///
/// ```
/// let uri = uri_of(Draft::Draft7); // "http://json-schema.org/draft-07/schema"
/// ```
pub fn uri_of(draft: Draft) -> &'static str
    ensures { result.now ≡ uri_of draft }
{
    match draft {
        Draft::Draft4 => "http://json-schema.org/draft-04/schema",
        Draft::Draft6 => "http://json-schema.org/draft-06/schema",
        Draft::Draft7 => "http://json-schema.org/draft-07/schema",
        Draft::Draft201909 => "https://json-schema.org/draft/2019-09/schema",
        Draft::Draft202012 => "https://json-schema.org/draft/2020-12/schema",
    }
}

/// The URI of the meta-schema of a schema: that of the draft that its `$schema` names, or else what this says; or that
/// of the default, where it is no string (Core, 8.1.1).
///
/// ```
/// // Of {"$schema": "http://json-schema.org/draft-07/schema#"}:
/// let uri = meta_schema_of(&schema, Draft::Draft202012); // "http://json-schema.org/draft-07/schema"
/// ```
pub fn meta_schema_of(schema: &JsonValue, default: Draft) -> &str
    ensures { result.now ≡ meta_schema_of default (view schema.now) }
{
    match unknown_dialect(schema) {
        Some(uri) => uri,
        None => uri_of(draft_of(schema, default)),
    }
}
