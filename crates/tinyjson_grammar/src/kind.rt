//! The six kinds of JSON values.

use std::fmt;

/// Which of the six variants a value is.
///
/// ```
/// assert!(rt; JsonValue::Boolean(true).kind() == JsonKind::Boolean);
/// assert_eq!(rt; JsonKind::Boolean.to_string(alloc)?.as_str(), "boolean");
/// ```
#[derive(Clone, Copy, PartialEq, Eq, Debug)]
pub enum JsonKind {
    /// Null.
    Null,
    /// A truth value.
    Boolean,
    /// An exact decimal number.
    Number,
    /// A string of Unicode scalar values.
    String,
    /// An array, its items in order.
    Array,
    /// An object, its members by their keys.
    Object,
}

/// The kind's name in lower case, as `number`.
impl fmt::Display for JsonKind {
    ghost use Rattle.std.specs.Prelude.{Some};
    ghost use Rattle.tinyjson_grammar.specs.Kind.{kind_name};

    ghost output = { λ k. Some (kind_name k) };

    fn fmt<W: fmt::Write>(&self, f: &mut fmt::Formatter<W>) -> fmt::Result {
        match self {
            JsonKind::Null => f.write_str("null"),
            JsonKind::Boolean => f.write_str("boolean"),
            JsonKind::Number => f.write_str("number"),
            JsonKind::String => f.write_str("string"),
            JsonKind::Array => f.write_str("array"),
            JsonKind::Object => f.write_str("object"),
        }
    }
}
