//! Values from their content, and the content of values.
ghost use Rattle.std.specs.Prelude.{◌≡◌};
ghost use Rattle.tinyjson.specs.Access.{number_part, boolean_part, string_part, null_part};
ghost use Rattle.tinyjson.specs.Access.{array_part, object_part};
ghost use Rattle.tinyjson.specs.Convert.{unexpected_value, GivesPart};
ghost use Rattle.tinyjson_grammar.specs.declared.kind.JsonKind.TheVariants as kind;
ghost use Rattle.tinyjson.specs.declared.value.JsonValue as made;

use super::{JsonKind, JsonValue};
use crate::number::JsonNumber;
use std::collections::HashMap;
use std::error::Error;
use std::fmt;

/// A value that was to be converted into the content of another variant than its own.
///
/// It holds the whole value, so nothing is lost.
///
/// ```
/// let v = JsonValue::from(JsonNumber::from_i64(alloc, 1)?);
/// let error = String::try_from(v).expect_err(&rt, "a number");
/// assert!(rt; matches!(&error, UnexpectedValue { .. }));
/// ```
#[derive(Debug, Drop)]
pub struct UnexpectedValue {
    value: JsonValue,
    expected: JsonKind,
}

impl UnexpectedValue {
    /// The value that was not converted.
    ///
    /// ```
    /// let v = JsonValue::from(JsonNumber::from_i64(alloc, 1)?);
    /// let error = String::try_from(v).expect_err(&rt, "a number");
    /// assert!(rt; *error.value() == JsonValue::Number(JsonNumber::from_i64(alloc, 1)?));
    /// ```
    pub fn value(&self) -> &JsonValue
        ensures { result.now ≡ unexpected_value self.now }
    {
        &self.value
    }
}

/// The kind that was found and the kind that was expected, as
/// `Unexpected JSON value: number. Expected string value`.
impl fmt::Display for UnexpectedValue {
    ghost use Rattle.std.specs.Prelude.{Some};
    ghost use Rattle.tinyjson.specs.Convert.{unexpected_message};

    ghost output = { λ e. Some (unexpected_message e) };

    fn fmt<W: fmt::Write>(&self, f: &mut fmt::Formatter<W>) -> fmt::Result {
        let found = self.value.kind();
        let expected = self.expected;
        write!(
            f,
            "Unexpected JSON value: {found}. Expected {expected} value"
        )
    }
}

impl Error for UnexpectedValue {}

/// The value that the error holds.
///
/// ```
/// let v = JsonValue::from(JsonNumber::from_i64(alloc, 1)?);
/// let error = String::try_from(v).expect_err(&rt, "a number");
/// assert!(rt; JsonValue::from(error) == JsonValue::Number(JsonNumber::from_i64(alloc, 1)?));
/// ```
impl From<UnexpectedValue> for JsonValue {
    ghost from_gives = { λ e v. v ≡ unexpected_value e };

    fn from(error: UnexpectedValue) -> JsonValue {
        error.value
    }
}

/// The number.
///
/// ```
/// let v = JsonValue::from(JsonNumber::from_i64(alloc, 1)?);
/// assert!(rt; v.is_number());
/// ```
impl From<JsonNumber> for JsonValue {
    ghost from_gives = { λ x v. v ≡ made.Number x };

    fn from(number: JsonNumber) -> JsonValue {
        JsonValue::Number(number)
    }
}

/// The truth value.
///
/// ```
/// let v = JsonValue::from(true);
/// assert!(rt; v.is_bool());
/// ```
impl From<bool> for JsonValue {
    ghost from_gives = { λ x v. v ≡ made.Boolean x };

    fn from(b: bool) -> JsonValue {
        JsonValue::Boolean(b)
    }
}

/// The `String` as a string value. A `&str` is made a `String` first, since that takes memory.
///
/// ```
/// let v = JsonValue::from("foo".to_string(alloc)?);
/// assert!(rt; v.is_string());
/// ```
impl From<String> for JsonValue {
    ghost from_gives = { λ x v. v ≡ made.String x };

    fn from(text: String) -> JsonValue {
        JsonValue::String(text)
    }
}

/// Null, which holds what `()` holds: nothing.
///
/// ```
/// let v = JsonValue::from(());
/// assert!(rt; v.is_null());
/// ```
impl From<()> for JsonValue {
    ghost from_gives = { λ _ v. v ≡ made.Null };

    fn from(_null: ()) -> JsonValue {
        JsonValue::Null
    }
}

/// The array of these items, in the memory that they came in.
///
/// ```
/// let v = JsonValue::from(vec![in alloc;
///     JsonValue::from(JsonNumber::from_i64(alloc, 1)?),
///     JsonValue::from(true),
/// ]?);
/// assert!(rt; v.is_array());
/// ```
impl From<Vec<JsonValue>> for JsonValue {
    ghost from_gives = { λ x v. v ≡ made.Array x };

    fn from(items: Vec<JsonValue>) -> JsonValue {
        JsonValue::Array(items)
    }
}

/// The object with these members, in the memory that they came in.
///
/// ```
/// let mut m = HashMap::new(alloc);
/// let foo = JsonNumber::from_i64(alloc, 1)?;
/// m.insert("foo".to_string(alloc)?, JsonValue::from(foo))?;
/// let v = JsonValue::from(m);
/// assert!(rt; v.is_object());
/// ```
impl From<HashMap<String, JsonValue>> for JsonValue {
    ghost from_gives = { λ x v. v ≡ made.Object x };

    fn from(members: HashMap<String, JsonValue>) -> JsonValue {
        JsonValue::Object(members)
    }
}

/// The number that the value is, or an error that holds a value of another kind.
///
/// ```
/// let v = JsonValue::from(JsonNumber::from_i64(alloc, 1)?);
/// let r = JsonNumber::try_from(v);
/// assert!(rt; r.is_ok());
///
/// let v = JsonValue::from(true);
/// let r = JsonNumber::try_from(v);
/// assert!(rt; r.is_err());
/// ```
impl TryFrom<JsonValue> for JsonNumber {
    type Error = UnexpectedValue;

    ghost try_from_gives = { GivesPart number_part kind.Number };

    fn try_from(value: JsonValue) -> Result<JsonNumber, UnexpectedValue> {
        match value {
            JsonValue::Number(number) => Ok(number),
            value => Err(UnexpectedValue {
                value,
                expected: JsonKind::Number,
            }),
        }
    }
}

/// The truth value that the value is, or an error that holds a value of another kind.
///
/// ```
/// let v = JsonValue::from(true);
/// let r = bool::try_from(v);
/// assert!(rt; r.is_ok());
///
/// let v = JsonValue::from(JsonNumber::from_i64(alloc, 1)?);
/// let r = bool::try_from(v);
/// assert!(rt; r.is_err());
/// ```
impl TryFrom<JsonValue> for bool {
    type Error = UnexpectedValue;

    ghost try_from_gives = { GivesPart boolean_part kind.Boolean };

    fn try_from(value: JsonValue) -> Result<bool, UnexpectedValue> {
        match value {
            JsonValue::Boolean(b) => Ok(b),
            value => Err(UnexpectedValue {
                value,
                expected: JsonKind::Boolean,
            }),
        }
    }
}

/// The text of the string that the value is, or an error that holds a value of another kind.
///
/// ```
/// let v = JsonValue::from("foo".to_string(alloc)?);
/// let r = String::try_from(v);
/// assert!(rt; r.is_ok());
///
/// let v = JsonValue::from(JsonNumber::from_i64(alloc, 1)?);
/// let r = String::try_from(v);
/// assert!(rt; r.is_err());
/// ```
impl TryFrom<JsonValue> for String {
    type Error = UnexpectedValue;

    ghost try_from_gives = { GivesPart string_part kind.String };

    fn try_from(value: JsonValue) -> Result<String, UnexpectedValue> {
        match value {
            JsonValue::String(text) => Ok(text),
            value => Err(UnexpectedValue {
                value,
                expected: JsonKind::String,
            }),
        }
    }
}

/// `()` of the value null, or an error that holds a value of another kind.
///
/// ```
/// let v = JsonValue::from(());
/// let r = <()>::try_from(v);
/// assert!(rt; r.is_ok());
///
/// let v = JsonValue::from(JsonNumber::from_i64(alloc, 1)?);
/// let r = <()>::try_from(v);
/// assert!(rt; r.is_err());
/// ```
impl TryFrom<JsonValue> for () {
    type Error = UnexpectedValue;

    ghost try_from_gives = { GivesPart null_part kind.Null };

    fn try_from(value: JsonValue) -> Result<(), UnexpectedValue> {
        match value {
            JsonValue::Null => Ok(()),
            value => Err(UnexpectedValue {
                value,
                expected: JsonKind::Null,
            }),
        }
    }
}

/// The items of the array that the value is, or an error that holds a value of another kind.
///
/// ```
/// let v = JsonValue::from(vec![in alloc; JsonValue::from(true)]?);
/// let r = Vec::<JsonValue>::try_from(v);
/// assert!(rt; r.is_ok());
///
/// let v = JsonValue::from(JsonNumber::from_i64(alloc, 1)?);
/// let r = Vec::<JsonValue>::try_from(v);
/// assert!(rt; r.is_err());
/// ```
impl TryFrom<JsonValue> for Vec<JsonValue> {
    type Error = UnexpectedValue;

    ghost try_from_gives = { GivesPart array_part kind.Array };

    fn try_from(value: JsonValue) -> Result<Vec<JsonValue>, UnexpectedValue> {
        match value {
            JsonValue::Array(items) => Ok(items),
            value => Err(UnexpectedValue {
                value,
                expected: JsonKind::Array,
            }),
        }
    }
}

/// The members of the object that the value is, or an error that holds a value of another kind.
///
/// ```
/// let mut m = HashMap::new(alloc);
/// let foo = JsonNumber::from_i64(alloc, 42)?;
/// m.insert("foo".to_string(alloc)?, JsonValue::from(foo))?;
/// let v = JsonValue::from(m);
/// let r = HashMap::<String, JsonValue>::try_from(v);
/// assert!(rt; r.is_ok());
/// assert_eq!(rt;
///     JsonValue::from(r?).stringify(alloc)?.as_str(),
///     r#"{"foo":42}"#
/// );
///
/// let v = JsonValue::from(JsonNumber::from_i64(alloc, 1)?);
/// let r = HashMap::<String, JsonValue>::try_from(v);
/// assert!(rt; r.is_err());
/// ```
impl TryFrom<JsonValue> for HashMap<String, JsonValue> {
    type Error = UnexpectedValue;

    ghost try_from_gives = { GivesPart object_part kind.Object };

    fn try_from(value: JsonValue) -> Result<HashMap<String, JsonValue>, UnexpectedValue> {
        match value {
            JsonValue::Object(members) => Ok(members),
            value => Err(UnexpectedValue {
                value,
                expected: JsonKind::Object,
            }),
        }
    }
}
