//! What a check looks up in a schema.
ghost use Rattle.std.specs.Prelude.{◌≡◌, true, IfOk, map, option_map};
ghost use Rattle.tinyjson.specs.View.{view};
ghost use Rattle.tinyjson_schema_keywords.specs.Applied.{schema_at};
ghost use Rattle.tinyjson_schema_table.specs.Givens.{are_had, AreAll};
ghost use Rattle.tinyjson_schema_table.specs.Held.{values_of, are_values};
ghost use Rattle.tinyjson_schema_table.specs.Marks.{HasMarks};

use crate::constraints::given_of;
use crate::given::Given;
use crate::marks::marks_of;
use crate::values::{place_of, values_of};
use std::alloc::{AllocError, Global};
use tinyjson::JsonValue;
use tinyjson_schema_keywords::{Keyword, schema_at};

/// A subschema, and what a check looks up in it.
#[derive(Drop)]
pub struct Shape<'s> {
    pub schema: &'s JsonValue,
    /// The marks of its names.
    pub marks: u64,
    /// Its assertions but `format`.
    pub given: Vec<Given<'s>>,
    /// The values of the other keywords that a check looks up.
    values: Vec<Option<&'s JsonValue>>,
    pub ghost marked: { HasMarks marks (view schema.now) },
    pub ghost had: { are_had (view schema.now) given.items ≡ true },
    pub ghost all: { AreAll (view schema.now) given.items },
    pub ghost held: { are_values (map (option_map (λ x. view x.now)) values.items)
        (values_of (view schema.now)) ≡ true },
}

impl<'s> Shape<'s> {
    /// The value of the schema's keyword, if it has it. Only for keywords that no check looks up it is sought by name.
    #[inline(always)]
    pub fn value_of(&self, keyword: Keyword) -> Option<&'s JsonValue>
        ensures { option_map (λ x. view x.now) result
            ≡ schema_at (view self.now.schema.now) keyword }
    {
        let Some(place) = place_of(keyword) else {
            return schema_at(self.schema, keyword);
        };
        match self.values.get(place) {
            Some(value) => *value,
            None => schema_at(self.schema, keyword),
        }
    }
}

/// A subschema with what is looked up in it.
pub fn shape_of<'s>(schema: &'s JsonValue, alloc: Global) -> Result<Shape<'s>, AllocError>
    ensures { IfOk result (λ shape. shape.schema ≡ schema.entry) }
{
    let given = given_of(schema, alloc)?;
    let values = values_of(schema, alloc)?;
    Ok(Shape {
        schema,
        marks: marks_of(schema),
        given,
        values,
    })
}
