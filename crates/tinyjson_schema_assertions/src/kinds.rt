//! Kinds of values that meet an assertion, whatever they are.
ghost use Rattle.std.specs.Prelude.{◌≡◌, IfSome, true};
ghost use Rattle.tinyjson.specs.Kind.{kind_of};
ghost use Rattle.tinyjson.specs.Tree.{Tree};
ghost use Rattle.tinyjson.specs.View.{view, items_view};
ghost use Rattle.tinyjson_schema_assertions.specs.Assertions.{accepts, has_type, is_type};
ghost use Rattle.tinyjson_schema_assertions.specs.Assertions.{has_some_type};

use tinyjson::{JsonKind, JsonValue};
use tinyjson_schema_keywords::Keyword;

/// A kind of values that all meet the keyword with this value of its own, if one is seen: that of `type`, or the first
/// of its list.
///
/// ```
/// let kind = kind_met(Keyword::Type, &operand); // of "string": Some(JsonKind::String); of "integer": None
/// ```
pub fn kind_met(keyword: Keyword, operand: &JsonValue) -> Option<JsonKind>
    ensures { IfSome result (λ k. (t : Tree) → kind_of t ≡ k
        → accepts keyword (view operand.now) t ≡ true) }
{
    match keyword {
        Keyword::Type => kind_in(operand),
        _ => None,
    }
}

/// The kind that `type` names, or the first of its list.
fn kind_in(types: &JsonValue) -> Option<JsonKind>
    ensures { IfSome result (λ k. (t : Tree) → kind_of t ≡ k → has_type (view types.now) t ≡ true) }
{
    match types {
        JsonValue::Array(names) => first_kind(names.as_slice()),
        _ => kind_named(types),
    }
}

fn first_kind(names: &[JsonValue]) -> Option<JsonKind>
    ensures { IfSome result (λ k. (t : Tree) → kind_of t ≡ k
        → has_some_type (items_view names.now) t ≡ true) }
{
    let (name, _) = names.split_first()?;
    kind_named(name)
}

/// The kind with this name; `None` for `integer`, which only some numbers are.
fn kind_named(name: &JsonValue) -> Option<JsonKind>
    ensures { IfSome result (λ k. (t : Tree) → kind_of t ≡ k → is_type (view name.now) t ≡ true) }
{
    let JsonValue::String(name) = name else {
        return None;
    };
    match name.as_str() {
        "null" => Some(JsonKind::Null),
        "boolean" => Some(JsonKind::Boolean),
        "number" => Some(JsonKind::Number),
        "string" => Some(JsonKind::String),
        "array" => Some(JsonKind::Array),
        "object" => Some(JsonKind::Object),
        _ => None,
    }
}
