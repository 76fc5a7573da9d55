//! The parts of values that types see.

use crate::building::built;
use crate::inputs::Inputs;
use crate::reply::Reply;
use std::collections::HashMap;
use std::io;
use tinyjson::{InnerAsRefMut, JsonNumber, JsonValue, UnexpectedValue, sorted_members};

/// The first input describes the value, the second is a type, and the third describes what is written through it.
pub fn answer(reply: &mut Reply, name: &str, inputs: &Inputs) -> io::Result<bool> {
    match name {
        "get" => got(reply, inputs.text(1), &built(reply.alloc, inputs.text(0))?)?,
        "get_mut" => {
            let mut value = built(reply.alloc, inputs.text(0))?;
            let content = built(reply.alloc, inputs.text(2))?;
            let is_seen = put_as(inputs.text(1), &mut value, content);
            reply.shown(is_seen)?;
            reply.value(&value)?;
        }
        "get_mut of an item" => {
            let mut value = built(reply.alloc, inputs.text(0))?;
            let item = built(reply.alloc, inputs.text(1))?;
            let is_seen = put_first(&mut value, item);
            reply.shown(is_seen)?;
            reply.value(&value)?;
        }
        _ => return Ok(false),
    }
    Ok(true)
}

fn got(reply: &mut Reply, wanted: &str, value: &JsonValue) -> io::Result<()> {
    match wanted {
        "JsonNumber" => value
            .get::<JsonNumber>()
            .map_or(Ok(()), |it| reply.message(it)),
        "bool" => value.get::<bool>().map_or(Ok(()), |it| reply.message(it)),
        "String" => value
            .get::<String>()
            .map_or(Ok(()), |it| reply.text(it.as_str())),
        "()" => value.get::<()>().map_or(Ok(()), |_| reply.text("()")),
        "Vec" => items(reply, value.get::<Vec<JsonValue>>()),
        _ => members(reply, value.get::<HashMap<String, JsonValue>>()),
    }
}

/// How many items there are, and each.
fn items(reply: &mut Reply, items: Option<&Vec<JsonValue>>) -> io::Result<()> {
    let Some(items) = items else {
        return Ok(());
    };
    reply.shown(items.len())?;
    for item in items {
        reply.value(item)?;
    }
    Ok(())
}

/// How many members there are, and the key and the value of each, in the order of the keys.
fn members(reply: &mut Reply, members: Option<&HashMap<String, JsonValue>>) -> io::Result<()> {
    let Some(members) = members else {
        return Ok(());
    };
    reply.shown(members.len())?;
    for (key, value) in sorted_members(reply.alloc, members)? {
        reply.text(key.as_str())?;
        reply.value(value)?;
    }
    Ok(())
}

/// Puts the content of another value in the place of the part that a type sees, and returns whether it sees one.
fn put_as(wanted: &str, value: &mut JsonValue, content: JsonValue) -> bool {
    match wanted {
        "JsonNumber" => put(value, JsonNumber::try_from(content)),
        "bool" => put(value, bool::try_from(content)),
        "String" => put(value, String::try_from(content)),
        "Vec" => put(value, Vec::<JsonValue>::try_from(content)),
        _ => put(value, HashMap::<String, JsonValue>::try_from(content)),
    }
}

fn put<T: InnerAsRefMut + Drop>(
    value: &mut JsonValue,
    content: Result<T, UnexpectedValue>,
) -> bool {
    match (value.get_mut::<T>(), content) {
        (Some(place), Ok(content)) => {
            *place = content;
            true
        }
        _ => false,
    }
}

/// Puts an item in the place of the first, and returns whether there is one.
fn put_first(value: &mut JsonValue, item: JsonValue) -> bool {
    let items = value.get_mut::<Vec<JsonValue>>();
    match items.and_then(|items| items.first_mut()) {
        Some(first) => {
            *first = item;
            true
        }
        None => false,
    }
}
