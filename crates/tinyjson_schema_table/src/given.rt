//! An assertion of a schema.
ghost use Rattle.std.specs.Option.{ForSome};
ghost use Rattle.std.specs.Prelude.{◌≡◌, true};
ghost use Rattle.tinyjson.specs.Kind.{kind_of};
ghost use Rattle.tinyjson.specs.Tree.{Tree};
ghost use Rattle.tinyjson.specs.View.{view};
ghost use Rattle.tinyjson_schema_assertions.specs.Assertions.{accepts};

use tinyjson::{JsonKind, JsonValue};
use tinyjson_schema_keywords::Keyword;

/// An assertion of a schema: the keyword, its value, and a kind of values that all meet it, if one is seen.
#[derive(Clone, Copy)]
pub struct Given<'s> {
    pub keyword: Keyword,
    pub operand: &'s JsonValue,
    pub kind: Option<JsonKind>,
    pub ghost free: { ForSome kind (λ k. (t : Tree) → kind_of t ≡ k
        → accepts keyword (view operand.now) t ≡ true) },
}
