//! The values of a schema's keywords, but of its assertions.
ghost use Rattle.std.specs.Prelude.{◌≡◌, Some, IfOk, IfSome, map, option_map, slice_get};
ghost use Rattle.tinyjson.specs.View.{view};
ghost use Rattle.tinyjson_schema_table.specs.Held.{held, values_of};

use std::alloc::{AllocError, Global};
use tinyjson::JsonValue;
use tinyjson_schema_keywords::{Keyword, schema_at};

/// The keywords that a check looks up beside the assertions.
const HELD: [Keyword; 21] = [
    Keyword::Properties,
    Keyword::AnyOf,
    Keyword::OneOf,
    Keyword::Items,
    Keyword::AllOf,
    Keyword::PrefixItems,
    Keyword::PatternProperties,
    Keyword::DependentSchemas,
    Keyword::Not,
    Keyword::If,
    Keyword::Then,
    Keyword::Else,
    Keyword::Contains,
    Keyword::AdditionalProperties,
    Keyword::PropertyNames,
    Keyword::UnevaluatedItems,
    Keyword::UnevaluatedProperties,
    Keyword::Ref,
    Keyword::DynamicRef,
    Keyword::MinContains,
    Keyword::MaxContains,
];

/// These keywords. A schema's links are in their order.
pub fn held() -> &'static [Keyword]
    ensures { result.now ≡ held }
{
    &HELD
}

/// The value of each of these keywords that the schema has, in their order.
pub fn values_of<'s>(
    schema: &'s JsonValue,
    alloc: Global,
) -> Result<Vec<Option<&'s JsonValue>>, AllocError>
    ensures { IfOk result (λ values.
        map (option_map (λ x. view x.now)) values.items ≡ values_of (view schema.now)) }
{
    let keywords = held();
    let mut values = Vec::new(alloc);
    for &keyword in keywords {
        values.push(schema_at(schema, keyword))?;
    }
    Ok(values)
}

/// The keyword's place among them.
#[inline(always)]
#[inline(always)]
pub fn place_of(keyword: Keyword) -> Option<usize>
    ensures { IfSome result (λ place. slice_get held place ≡ Some keyword) }
{
    match keyword {
        Keyword::Properties => Some(0),
        Keyword::AnyOf => Some(1),
        Keyword::OneOf => Some(2),
        Keyword::Items => Some(3),
        Keyword::AllOf => Some(4),
        Keyword::PrefixItems => Some(5),
        Keyword::PatternProperties => Some(6),
        Keyword::DependentSchemas => Some(7),
        Keyword::Not => Some(8),
        Keyword::If => Some(9),
        Keyword::Then => Some(10),
        Keyword::Else => Some(11),
        Keyword::Contains => Some(12),
        Keyword::AdditionalProperties => Some(13),
        Keyword::PropertyNames => Some(14),
        Keyword::UnevaluatedItems => Some(15),
        Keyword::UnevaluatedProperties => Some(16),
        Keyword::Ref => Some(17),
        Keyword::DynamicRef => Some(18),
        Keyword::MinContains => Some(19),
        Keyword::MaxContains => Some(20),
        _ => None,
    }
}
