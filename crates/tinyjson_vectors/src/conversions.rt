//! What goes into a value by `from` comes back by `try_from`.
ghost use Rattle.std.specs.Prelude.{◌≡◌, Ok};

use std::collections::HashMap;
use tinyjson::{JsonNumber, JsonValue, UnexpectedValue};

/// A number comes back.
pub fn number_and_back(x: JsonNumber) -> Result<JsonNumber, UnexpectedValue>
    ensures { result ≡ Ok x }
{
    JsonNumber::try_from(JsonValue::from(x))
}

/// A truth value comes back.
pub fn bool_and_back(x: bool) -> Result<bool, UnexpectedValue>
    ensures { result ≡ Ok x }
{
    bool::try_from(JsonValue::from(x))
}

/// A `String` comes back.
pub fn string_and_back(x: String) -> Result<String, UnexpectedValue>
    ensures { result ≡ Ok x }
{
    String::try_from(JsonValue::from(x))
}

/// `()` comes back.
pub fn unit_and_back(x: ()) -> Result<(), UnexpectedValue>
    ensures { result ≡ Ok x }
{
    <()>::try_from(JsonValue::from(x))
}

/// The items of an array come back.
pub fn items_and_back(x: Vec<JsonValue>) -> Result<Vec<JsonValue>, UnexpectedValue>
    ensures { result ≡ Ok x }
{
    Vec::<JsonValue>::try_from(JsonValue::from(x))
}

/// The members of an object come back.
pub fn members_and_back(
    x: HashMap<String, JsonValue>,
) -> Result<HashMap<String, JsonValue>, UnexpectedValue>
    ensures { result ≡ Ok x }
{
    HashMap::<String, JsonValue>::try_from(JsonValue::from(x))
}

/// A refused conversion gives its value back.
pub fn refused_and_back(x: JsonValue) -> JsonValue
    ensures { result ≡ x }
{
    match String::try_from(x) {
        Ok(text) => JsonValue::from(text),
        Err(error) => JsonValue::from(error),
    }
}
