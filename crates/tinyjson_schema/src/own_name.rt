//! Names that schemas give themselves.
ghost use Rattle.std.specs.Prelude.{◌≡◌, option_map};
ghost use Rattle.std.specs.String.{string_bytes};
ghost use Rattle.tinyjson.specs.View.{view};
ghost use Rattle.tinyjson_schema_keywords.specs.Anchors.{is_own_name, is_name};
ghost use Rattle.tinyjson_schema.specs.Refused.{whole_of};

use tinyjson::JsonValue;
use tinyjson_schema_keywords::{Document, is_plain_name};

/// Whether it is a plain name, but not the first one that the document has twice.
pub fn is_own_name(value: &JsonValue, document: Document<'_, '_>) -> bool
    ensures { result ≡ is_own_name (whole_of document.entry) (view value.now) }
{
    match value {
        JsonValue::String(name) => is_plain_name(name.as_str())
            && !is_name(document.again, name.as_str()),
        _ => false,
    }
}

fn is_name(again: Option<&String>, name: &str) -> bool
    ensures { result ≡ is_name (option_map (λ x. string_bytes x.now) again.entry) name.now }
{
    match again {
        Some(other) => other.as_str() == name,
        None => false,
    }
}
