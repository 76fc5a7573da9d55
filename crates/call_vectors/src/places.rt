//! Values by an index of an array and by a key of an object.
ghost use Rattle.std.specs.Prelude.{IsTrue, IsSome, ◌↔◌};
ghost use Rattle.tinyjson.specs.Index.{item_at, member_at};

use crate::building::built;
use crate::inputs::Inputs;
use crate::reply::Reply;
use std::collections::HashMap;
use std::io;
use tinyjson::JsonValue;

/// The first input describes the value, and the second what is written at the place. The others lead to the place, each a key, or
/// an index after `#`.
pub fn answer(reply: &mut Reply, name: &str, inputs: &Inputs) -> io::Result<bool> {
    match name {
        "index" => indexed(reply, inputs.from(2), &built(reply.alloc, inputs.text(0))?)?,
        "index_mut" => {
            let mut value = built(reply.alloc, inputs.text(0))?;
            let new = built(reply.alloc, inputs.text(1))?;
            set(inputs.from(2), &mut value, new);
            indexed(reply, inputs.from(2), &value)?;
            reply.value(&value)?;
        }
        _ => return Ok(false),
    }
    Ok(true)
}

/// The value at the place, if there is one.
fn indexed(reply: &mut Reply, steps: &[String], value: &JsonValue) -> io::Result<()> {
    let mut place = value;
    for step in steps {
        let Some(next) = at(place, step.as_str()) else {
            return reply.word("none");
        };
        place = next;
    }
    reply.value(place)
}

fn set(steps: &[String], value: &mut JsonValue, new: JsonValue) {
    let mut place = &mut *value;
    for step in steps {
        let Some(next) = at_mut(place, step.as_str()) else {
            return;
        };
        place = next;
    }
    *place = new;
}

fn at<'v>(value: &'v JsonValue, step: &str) -> Option<&'v JsonValue> {
    match index_of(step) {
        Some(index) if has_item(value, index) => Some(&value[index]),
        None if has_member(value, step) => Some(&value[step]),
        _ => None,
    }
}

fn at_mut<'v>(value: &'v mut JsonValue, step: &str) -> Option<&'v mut JsonValue> {
    match index_of(step) {
        Some(index) if has_item(value, index) => Some(&mut value[index]),
        None if has_member(value, step) => Some(&mut value[step]),
        _ => None,
    }
}

fn index_of(step: &str) -> Option<usize> {
    step.strip_prefix('#')?.parse::<usize>().ok()
}

fn has_member(value: &JsonValue, key: &str) -> bool
    ensures { IsTrue result ↔ IsSome (member_at value.now key.now) }
{
    value
        .get::<HashMap<String, JsonValue>>()
        .is_some_and(|members| members.contains_key(key))
}

fn has_item(value: &JsonValue, index: usize) -> bool
    ensures { IsTrue result ↔ IsSome (item_at value.now index) }
{
    value
        .get::<Vec<JsonValue>>()
        .is_some_and(|items| index < items.len())
}
