//! Freeing values of any depth.
use super::JsonValue;
use std::collections::HashMap;
use std::mem;

impl JsonValue {
    /// Frees the value, however deep it is nested, in linear time and without taking memory. The outer
    /// 64 levels are freed by a recursion, and deeper ones by a loop, which keeps what is still to be
    /// freed in the containers that it has reached.
    ///
    /// The language frees a value that goes out of scope by a recursion over its levels.
    ///
    /// ```
    /// let value = JsonValue::from_str(alloc, "[[[null]], []]")?;
    /// value.dismantle();
    /// ```
    pub fn dismantle(self) {
        dismantle_near(self, NEAR);
    }
}

/// How many levels are freed by a recursion.
const NEAR: usize = 64;

/// Frees up to `levels` nested levels by a recursion, and deeper ones by a loop. A container whose values
/// are scalars or empty containers is freed whole.
fn dismantle_near(value: JsonValue, levels: usize) {
    let Some(levels) = levels.checked_sub(1) else {
        return dismantle_all(value);
    };
    match value {
        JsonValue::Array(items) => {
            if items.iter().any(holds_others) {
                for item in items {
                    dismantle_near(item, levels);
                }
            }
        }
        JsonValue::Object(members) => {
            if members.values().any(holds_others) {
                for value in members.into_values() {
                    dismantle_near(value, levels);
                }
            }
        }
        _ => {}
    }
}

/// Whether the value is an array or object that isn't empty.
#[inline(always)]
pub(crate) fn holds_others(value: &JsonValue) -> bool {
    match value {
        JsonValue::Array(items) => !items.is_empty(),
        JsonValue::Object(members) => !members.is_empty(),
        _ => false,
    }
}

/// Frees a value by a loop, without a recursion.
fn dismantle_all(value: JsonValue) {
    let mut chain = chained(value, JsonValue::Null);
    for _ in 0..u64::MAX {
        chain = match chain {
            JsonValue::Array(items) => unchain_items(items),
            JsonValue::Object(members) => unchain_members(members),
            _ => return,
        };
    }
}

/// Puts a value's containers before a chain: each holds, in the place of its first value, the chain
/// after it. What was in that place is chained next.
fn chained(value: JsonValue, chain: JsonValue) -> JsonValue {
    let mut value = value;
    let mut chain = chain;
    loop {
        match value {
            JsonValue::Array(mut items) => {
                if items.is_empty() {
                    return chain;
                }
                value = mem::replace(&mut items[0], chain);
                chain = JsonValue::Array(items);
            }
            JsonValue::Object(mut members) => {
                let Some(first) = members.values_mut().next() else {
                    return chain;
                };
                value = mem::replace(first, chain);
                chain = JsonValue::Object(members);
            }
            _ => return chain,
        }
    }
}

/// Frees the first array of a chain, and chains its other items.
fn unchain_items(items: Vec<JsonValue>) -> JsonValue {
    let mut items = items.into_iter();
    let Some(mut chain) = items.next() else {
        return JsonValue::Null;
    };
    for item in items {
        chain = chained(item, chain);
    }
    chain
}

/// Frees the first object of a chain, and chains its other members.
fn unchain_members(members: HashMap<String, JsonValue>) -> JsonValue {
    let mut values = members.into_values();
    let Some(mut chain) = values.next() else {
        return JsonValue::Null;
    };
    for value in values {
        chain = chained(value, chain);
    }
    chain
}
