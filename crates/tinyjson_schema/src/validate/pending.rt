//! Schemas that are still to be applied.
ghost use Rattle.std.specs.Prelude.{◌≡◌, true};
ghost use Rattle.tinyjson.specs.View.{view};
ghost use Rattle.tinyjson_schema_table.specs.Places.{is_of};

use tinyjson::JsonValue;
use tinyjson_schema_keywords::Keyword;
use tinyjson_schema_table::Known;
use tinyjson_view::ValueView;

/// How a schema leads to one that it applies.
#[derive(Clone, Copy)]
pub enum Step<'v, 's> {
    /// By the keyword, to the same value.
    Schema(Keyword),
    /// By the keyword's list.
    Listed(Keyword, usize),
    /// By the key of the keyword's object.
    Keyed(Keyword, &'s str),
    /// By the applicator, to the member at the key.
    Member(Keyword, &'v str),
    /// By a pattern of `patternProperties`, to the member at the key.
    Patterned(&'s str, &'v str),
    /// By the applicator, to the item at the index.
    Item(Keyword, usize),
}

/// A schema that is still to be applied, which may be known, and the value.
#[derive(Clone, Copy)]
pub struct Pending<'v, 's> {
    pub step: Step<'v, 's>,
    pub schema: &'s JsonValue,
    pub known: Option<Known<'s>>,
    pub value: ValueView<'v>,
    pub ghost same: { is_of known (view schema.now) ≡ true },
}
