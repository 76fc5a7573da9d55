//! Values: their kinds, copies, comparisons and conversions.

use crate::building::built;
use crate::inputs::Inputs;
use crate::reply::Reply;
use std::collections::HashMap;
use std::io;
use tinyjson::{JsonNumber, JsonValue, UnexpectedValue};

/// The first input describes the value, and the second another value, or a type.
pub fn answer(reply: &mut Reply, name: &str, inputs: &Inputs) -> io::Result<bool> {
    match name {
        "kind" => kind(reply, &built(reply.alloc, inputs.text(0))?)?,
        "try_clone" => copied(reply, &built(reply.alloc, inputs.text(0))?)?,
        "equal" => {
            let other = built(reply.alloc, inputs.text(1))?;
            equal(reply, &built(reply.alloc, inputs.text(0))?, &other)?;
        }
        "try_from" => {
            let value = built(reply.alloc, inputs.text(0))?;
            converted(reply, convert(value, inputs.text(1)))?;
        }
        _ => return Ok(false),
    }
    Ok(true)
}

/// The kind of a value, and whether it is each of the six.
fn kind(reply: &mut Reply, value: &JsonValue) -> io::Result<()> {
    reply.shown(value.kind())?;
    reply.shown(value.is_bool())?;
    reply.shown(value.is_number())?;
    reply.shown(value.is_string())?;
    reply.shown(value.is_null())?;
    reply.shown(value.is_array())?;
    reply.shown(value.is_object())
}

fn copied(reply: &mut Reply, value: &JsonValue) -> io::Result<()> {
    let copy = value.try_clone(reply.alloc)?;
    reply.shown(copy == *value)?;
    reply.value(&copy)?;
    reply.value(value)
}

fn equal(reply: &mut Reply, one: &JsonValue, other: &JsonValue) -> io::Result<()> {
    reply.shown(one == other)?;
    reply.shown(other == one)?;
    reply.shown(one == one)
}

/// The content of a value as this type, which a value is made from.
fn convert(value: JsonValue, wanted: &str) -> Result<JsonValue, UnexpectedValue> {
    match wanted {
        "JsonNumber" => JsonNumber::try_from(value).map(JsonValue::from),
        "bool" => bool::try_from(value).map(JsonValue::from),
        "String" => String::try_from(value).map(JsonValue::from),
        "()" => <()>::try_from(value).map(JsonValue::from),
        "Vec" => Vec::<JsonValue>::try_from(value).map(JsonValue::from),
        _ => HashMap::<String, JsonValue>::try_from(value).map(JsonValue::from),
    }
}

/// The value of the content; or the message of the error, the value that it holds, and the value that it is turned into.
fn converted(reply: &mut Reply, answer: Result<JsonValue, UnexpectedValue>) -> io::Result<()> {
    match answer {
        Ok(value) => {
            reply.word("ok")?;
            reply.value(&value)
        }
        Err(error) => {
            refused(reply, &error)?;
            reply.value(&JsonValue::from(error))
        }
    }
}

fn refused(reply: &mut Reply, error: &UnexpectedValue) -> io::Result<()> {
    reply.word("error")?;
    reply.message(error)?;
    reply.value(error.value())
}
