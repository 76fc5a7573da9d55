//! The drafts, and the URIs that name them.
ghost use Rattle.std.specs.Prelude.{◌≡◌, option_map};
ghost use Rattle.tinyjson.specs.View.{view};
ghost use Rattle.tinyjson_schema_drafts.specs.Dialects.{dialect_named, draft_named};
ghost use Rattle.tinyjson_schema_drafts.specs.Dialects.{is_draft_4, is_draft_6, is_draft_7};
ghost use Rattle.tinyjson_schema_drafts.specs.Dialects.{is_2019_09, is_2020_12};
ghost use Rattle.tinyjson_schema_drafts.specs.Dialects.{unknown_in, unknown_uri};

use tinyjson::JsonValue;

/// A version of JSON Schema.
#[derive(Clone, Copy)]
pub enum Draft {
    /// Draft 4 (draft-zyp-json-schema-04, draft-fge-json-schema-validation-00).
    Draft4,
    /// Draft 6 (draft-wright-json-schema-01).
    Draft6,
    /// Draft 7 (draft-handrews-json-schema-01).
    Draft7,
    /// 2019-09 (draft-handrews-json-schema-02).
    Draft201909,
    /// 2020-12.
    Draft202012,
}

/// What `$schema` names.
#[derive(Clone, Copy)]
pub enum Dialect {
    /// Nothing: the schema has no `$schema`, or one that is no string.
    Missing,
    /// One of the drafts.
    Known(Draft),
    /// Something else.
    Unknown,
}

/// What a value of `$schema` names.
pub fn dialect_named(uri: &JsonValue) -> Dialect
    ensures { result ≡ dialect_named (view uri.now) }
{
    match uri {
        JsonValue::String(uri) => draft_named(uri.as_str()),
        _ => Dialect::Missing,
    }
}

fn draft_named(uri: &str) -> Dialect
    ensures { result ≡ draft_named uri.now }
{
    if is_2020_12(uri) {
        return Dialect::Known(Draft::Draft202012);
    }
    if is_2019_09(uri) {
        return Dialect::Known(Draft::Draft201909);
    }
    if is_draft_7(uri) {
        return Dialect::Known(Draft::Draft7);
    }
    if is_draft_6(uri) {
        return Dialect::Known(Draft::Draft6);
    }
    if is_draft_4(uri) {
        return Dialect::Known(Draft::Draft4);
    }
    Dialect::Unknown
}

fn is_2020_12(uri: &str) -> bool
    ensures { result ≡ is_2020_12 uri.now }
{
    matches!(
        uri,
        "https://json-schema.org/draft/2020-12/schema"
            | "https://json-schema.org/draft/2020-12/schema#"
            | "http://json-schema.org/draft/2020-12/schema"
            | "http://json-schema.org/draft/2020-12/schema#"
    )
}

fn is_2019_09(uri: &str) -> bool
    ensures { result ≡ is_2019_09 uri.now }
{
    matches!(
        uri,
        "https://json-schema.org/draft/2019-09/schema"
            | "https://json-schema.org/draft/2019-09/schema#"
            | "http://json-schema.org/draft/2019-09/schema"
            | "http://json-schema.org/draft/2019-09/schema#"
    )
}

fn is_draft_7(uri: &str) -> bool
    ensures { result ≡ is_draft_7 uri.now }
{
    matches!(
        uri,
        "http://json-schema.org/draft-07/schema#"
            | "http://json-schema.org/draft-07/schema"
            | "https://json-schema.org/draft-07/schema#"
            | "https://json-schema.org/draft-07/schema"
    )
}

fn is_draft_6(uri: &str) -> bool
    ensures { result ≡ is_draft_6 uri.now }
{
    matches!(
        uri,
        "http://json-schema.org/draft-06/schema#"
            | "http://json-schema.org/draft-06/schema"
            | "https://json-schema.org/draft-06/schema#"
            | "https://json-schema.org/draft-06/schema"
    )
}

fn is_draft_4(uri: &str) -> bool
    ensures { result ≡ is_draft_4 uri.now }
{
    matches!(
        uri,
        "http://json-schema.org/draft-04/schema#"
            | "http://json-schema.org/draft-04/schema"
            | "https://json-schema.org/draft-04/schema#"
            | "https://json-schema.org/draft-04/schema"
    )
}

/// A value of `$schema` that is a string and names none of the drafts.
pub fn unknown_in(uri: &JsonValue) -> Option<&str>
    ensures { option_map (λ x. x.now) result ≡ unknown_in (view uri.now) }
{
    match uri {
        JsonValue::String(uri) => unknown_uri(uri.as_str()),
        _ => None,
    }
}

fn unknown_uri(uri: &str) -> Option<&str>
    ensures { option_map (λ x. x.now) result ≡ unknown_uri uri.now }
{
    match draft_named(uri) {
        Dialect::Unknown => Some(uri),
        _ => None,
    }
}
