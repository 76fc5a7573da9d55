//! Finds and replaces the part that a pointer names.
ghost use Rattle.std.specs.Prelude.{◌≡◌, map, option_map};
ghost use Rattle.std.specs.Str.{chars};
ghost use Rattle.tinyjson.specs.View.{view, text};
ghost use Rattle.tinyjson_pointer.specs.Tokens.{tokens_of};
ghost use Rattle.tinyjson_pointer.specs.Walk.{step, part_at, Replaces};

use crate::array_index::index;
use crate::pointer::Pointer;
use std::collections::HashMap;
use std::mem;
use tinyjson::JsonValue;

impl Pointer {
    /// The part of the value that this names, if there is one (RFC 6901, section 4).
    ///
    /// ```
    /// let value = JsonValue::from_str(alloc, r#"{"a/b":[7]}"#)?;
    /// let part = Pointer::parse(alloc, "/a~1b/0")?.find(&value); // the number 7
    /// ```
    pub fn find<'v>(&self, value: &'v JsonValue) -> Option<&'v JsonValue>
        ensures { option_map (λ x. view x.now) result
            ≡ part_at (view value.now) (tokens_of self.now) }
    {
        let mut here = value;
        for token in &self.tokens {
            here = child(here, token.as_str())?;
        }
        Some(here)
    }

    /// Replaces the part that this names by `part`, and returns the old one. If this names none, it
    /// returns `part`, and the value is unchanged. It recurses once for each token.
    ///
    /// ```
    /// let pointer = Pointer::parse(alloc, "/0")?;
    /// let old = pointer.replace(&mut value, JsonValue::Null);
    /// ```
    pub fn replace(&self, value: &mut JsonValue, part: JsonValue) -> Result<JsonValue, JsonValue>
        ensures { Replaces (view value.old) (tokens_of self.now) part result (view value.new) }
    {
        replace_at(value, self.tokens.as_slice(), part)
    }
}

/// The part of the value that one token names.
///
/// ```
/// let part = child(&value, "0"); // of [7,8] the number 7
/// ```
pub fn child<'v>(value: &'v JsonValue, token: &str) -> Option<&'v JsonValue>
    ensures { option_map (λ x. view x.now) result ≡ step (view value.now) (chars token.now) }
{
    match value {
        JsonValue::Object(members) => members.get(token),
        JsonValue::Array(items) => items.get(index(token)?),
        _ => None,
    }
}

pub(crate) fn replace_at(
    value: &mut JsonValue,
    tokens: &[String],
    part: JsonValue,
) -> Result<JsonValue, JsonValue>
    ensures { Replaces (view value.old) (map text tokens.now) part result (view value.new) }
{
    let Some((token, rest)) = tokens.split_first() else {
        return Ok(mem::replace(value, part));
    };
    if let Some(members) = value.get_mut::<HashMap<String, JsonValue>>() {
        return match members.get_mut(token.as_str()) {
            Some(member) => replace_at(member, rest, part),
            None => Err(part),
        };
    }
    if let Some(items) = value.get_mut::<Vec<JsonValue>>() {
        let Some(at) = index(token.as_str()) else {
            return Err(part);
        };
        return match items.get_mut(at) {
            Some(item) => replace_at(item, rest, part),
            None => Err(part),
        };
    }
    Err(part)
}
