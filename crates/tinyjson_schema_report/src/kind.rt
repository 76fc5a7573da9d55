//! The kinds of values, as a sentence names them.
ghost use Rattle.std.specs.Prelude.{◌≡◌, IfOk};
ghost use Rattle.std.specs.String.{string_bytes};
ghost use Rattle.tinyjson.specs.View.{view, items_view};
ghost use Rattle.tinyjson_view.specs.Views.{tree_of};
ghost use Rattle.tinyjson_schema_report.specs.Kinds.{article, with_article, type_words};
ghost use Rattle.tinyjson_schema_report.specs.Kinds.{types, type_name, type_list, kind_words};

use std::alloc::{AllocError, Global};
use tinyjson::JsonValue;
use tinyjson_document::JsonView;
use tinyjson_view::ValueView;

/// The types that the keyword `type` names, and what the value is.
pub fn type_words(
    types: &JsonValue,
    value: &ValueView<'_>,
    alloc: Global,
) -> Result<String, AllocError>
    ensures { IfOk result
        (λ s. string_bytes s ≡ type_words (view types.now) (tree_of value.now)) }
{
    let wanted = wanted_types(types, alloc)?;
    let found = kind_words(value, alloc)?;
    format!(in alloc; "must be {wanted}, is {found}")
}

fn wanted_types(operand: &JsonValue, alloc: Global) -> Result<String, AllocError>
    ensures { IfOk result (λ s. string_bytes s ≡ types (view operand.now)) }
{
    match operand {
        JsonValue::Array(names) => type_list(names.as_slice(), alloc),
        _ => type_name(operand, alloc),
    }
}

/// The names of types, with `or` between them.
fn type_list(names: &[JsonValue], alloc: Global) -> Result<String, AllocError>
    ensures { IfOk result (λ s. string_bytes s ≡ type_list (items_view names.now)) }
{
    let Some((first, more)) = names.split_first() else {
        return Ok(String::new(alloc));
    };
    let mut words = type_name(first, alloc)?;
    for name in more {
        let one = type_name(name, alloc)?;
        words.push_str(" or ")?;
        words.push_str(one.as_str())?;
    }
    Ok(words)
}

/// A type, or a format, with its article.
pub fn type_name(name: &JsonValue, alloc: Global) -> Result<String, AllocError>
    ensures { IfOk result (λ s. string_bytes s ≡ type_name (view name.now)) }
{
    match name {
        JsonValue::String(name) => with_article(name.as_str(), alloc),
        _ => Ok(String::new(alloc)),
    }
}

/// The kind of the value with its article.
fn kind_words(value: &ValueView<'_>, alloc: Global) -> Result<String, AllocError>
    ensures { IfOk result (λ s. string_bytes s ≡ kind_words (tree_of value.now)) }
{
    let kind = value.kind().to_string(alloc)?;
    with_article(kind.as_str(), alloc)
}

fn with_article(name: &str, alloc: Global) -> Result<String, AllocError>
    ensures { IfOk result (λ s. string_bytes s ≡ with_article name.now) }
{
    let article = article(name);
    format!(in alloc; "{article}{name}")
}

fn article(name: &str) -> &'static str
    ensures { result.now ≡ article name.now }
{
    match name {
        "null" => "",
        "array" | "email" | "integer" | "ipv4" | "ipv6" | "object" => "an ",
        _ => "a ",
    }
}
