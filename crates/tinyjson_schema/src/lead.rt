//! A reference that is followed once.
ghost use Rattle.std.specs.Prelude.{◌≡◌, true};
ghost use Rattle.tinyjson.specs.Equality.{tree_eq};
ghost use Rattle.tinyjson.specs.View.{view};

use tinyjson::JsonValue;
use tinyjson_schema_table::Table;

/// A reference by `$ref`, the schema to which it leads, and the table of that schema.
#[derive(Drop)]
pub struct Lead<'s> {
    pub reference: &'s String,
    pub schema: &'s JsonValue,
    pub table: Table<'s>,
    ghost same: { tree_eq (view table.schema.now) (view schema.now) ≡ true },
}
