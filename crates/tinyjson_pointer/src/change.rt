//! Inserts and removes parts of a value.
ghost use Rattle.std.specs.Prelude.{◌≡◌, ℕ, ◌<◌, ◌≤◌, Some};
ghost use Rattle.std.specs.Prelude.{IsSome, MatchOption, map, length, OnErr};
ghost use Rattle.std.specs.Prelude.{OnOk};
ghost use Rattle.std.specs.Str.{chars};
ghost use Rattle.tinyjson.specs.Tree.{null, array, object, put};
ghost use Rattle.tinyjson.specs.View.{view, text, items_view, members_view};
ghost use Rattle.tinyjson_pointer.specs.Change.{insertion_index, with_child, without_child, with_new_part};
ghost use Rattle.tinyjson_pointer.specs.Change.{without_part, Inserts, Removes};
ghost use Rattle.tinyjson_pointer.specs.Tokens.{tokens_of, begins_with};
ghost use Rattle.tinyjson_pointer.specs.Walk.{step, part_at, with_part};
ghost use Rattle.tinyjson_pointer.specs.Change.{insert_error_message};

use crate::array_index::index;
use crate::pointer::Pointer;
use crate::walk::replace_at;
use std::alloc::{AllocError, Global};
use std::collections::HashMap;
use std::error::Error;
use std::{fmt, mem};
use tinyjson::{JsonValue, insert_member, remove_member};

/// Why a part is not inserted.
#[derive(Clone, Copy, Debug, PartialEq, Eq)]
pub enum InsertError {
    /// The pointer names no place: its container is missing or is a scalar, or the last token is no index
    /// of the array, or is past its end.
    NoPlace,
    /// An allocation failed.
    OutOfMemory,
}

impl fmt::Display for InsertError {
    ghost output = { λ e. Some (insert_error_message e) };

    fn fmt<W: fmt::Write>(&self, f: &mut fmt::Formatter<W>) -> fmt::Result {
        match self {
            InsertError::NoPlace => f.write_str("the pointer names no place for a value"),
            InsertError::OutOfMemory => f.write_str("out of memory"),
        }
    }
}

impl Error for InsertError {}

impl Pointer {
    /// Inserts the part at the place that this names, as `add` of RFC 6902, section 4.1. In an object it
    /// replaces the member with this key. In an array it goes before the item with this index; at the
    /// index of the end, or at `-`, it is appended. The root pointer replaces the whole value.
    ///
    /// After an error the value is unchanged, and the part is freed. A replaced part is freed too. It
    /// recurses once for each token.
    ///
    /// ```
    /// let pointer = Pointer::parse(alloc, "/1")?;
    /// pointer.insert(alloc, &mut value, JsonValue::Null)?; // [7,8] is then [7,null,8]
    /// ```
    pub fn insert(
        &self,
        alloc: Global,
        value: &mut JsonValue,
        part: JsonValue,
    ) -> Result<(), InsertError>
        ensures { Inserts (with_new_part (view value.old) (tokens_of self.now) (view part))
            (view value.old) result (view value.new) }
    {
        let Some((last, front)) = self.tokens.as_slice().split_last() else {
            mem::replace(value, part).dismantle();
            return Ok(());
        };
        let Some(container) = take_at(value, front) else {
            part.dismantle();
            return Err(InsertError::NoPlace);
        };
        let mut container = container;
        let answer = insert_child(alloc, &mut container, last.as_str(), part);
        put_back(value, front, container);
        answer
    }

    /// Removes the part that this names, as `remove` of RFC 6902, section 4.2, and returns it. If this
    /// names no part, or the whole value, it returns `None`, and the value is unchanged. It recurses once
    /// for each token.
    ///
    /// ```
    /// let pointer = Pointer::parse(alloc, "/0")?;
    /// let old = pointer.remove(&mut value); // [7,8] is then [8]
    /// ```
    pub fn remove(&self, value: &mut JsonValue) -> Option<JsonValue>
        ensures { Removes (part_at (view value.old) (tokens_of self.now))
            (without_part (view value.old) (tokens_of self.now))
            (view value.old) result (view value.new) }
    {
        let (last, front) = self.tokens.as_slice().split_last()?;
        let mut container = take_at(value, front)?;
        let answer = remove_child(&mut container, last.as_str());
        put_back(value, front, container);
        answer
    }
}

/// Takes the part that the tokens name, and leaves null in its place.
pub(crate) fn take_at(value: &mut JsonValue, tokens: &[String]) -> Option<JsonValue>
    ensures { MatchOption result
        ((part_at (view value.old) (map text tokens.now) ≡ None)
        × (view value.new ≡ view value.old))
        (λ part. (part_at (view value.old) (map text tokens.now) ≡ Some (view part))
        × (view value.new ≡ with_part (view value.old) (map text tokens.now) null)) }
{
    match replace_at(value, tokens, JsonValue::Null) {
        Ok(part) => Some(part),
        Err(_) => None,
    }
}

/// Replaces the part that the tokens name, and frees the old one.
pub(crate) fn put_back(value: &mut JsonValue, tokens: &[String], part: JsonValue)
    ensures { IsSome (part_at (view value.old) (map text tokens.now)) →
        view value.new ≡ with_part (view value.old) (map text tokens.now) (view part) }
{
    match replace_at(value, tokens, part) {
        Ok(old) => old.dismantle(),
        Err(given) => given.dismantle(),
    }
}

fn insert_child(
    alloc: Global,
    container: &mut JsonValue,
    token: &str,
    part: JsonValue,
) -> Result<(), InsertError>
    ensures { Inserts (with_child (view container.old) (chars token.now) (view part))
        (view container.old) result (view container.new) }
{
    if let Some(members) = container.get_mut::<HashMap<String, JsonValue>>() {
        return insert_at_key(alloc, members, token, part);
    }
    if let Some(items) = container.get_mut::<Vec<JsonValue>>() {
        return insert_item(items, token, part);
    }
    part.dismantle();
    Err(InsertError::NoPlace)
}

/// Puts the value at the key, which it copies into a string, in the place of what the members had there.
///
/// The only error is out of memory. Then the members are unchanged, and the value is freed by a loop.
///
/// ```
/// let mut members = HashMap::new(alloc);
/// put_member(&mut members, "foo", JsonValue::Null, alloc)?; // the members are then {"foo":null}
/// ```
#[inline(never)]
pub fn put_member(
    members: &mut HashMap<String, JsonValue>,
    key: &str,
    value: JsonValue,
    alloc: Global,
) -> Result<(), AllocError>
    ensures ok { OnOk result (members_view members.new.entries
        ≡ put (chars key.now) (view value) (members_view members.old.entries)) }
    ensures err { OnErr result (members.new.entries ≡ members.old.entries) }
{
    let Ok(key) = String::from_str(alloc, key) else {
        value.dismantle();
        return Err(AllocError);
    };
    insert_member(members, key, value)
}

fn insert_at_key(
    alloc: Global,
    members: &mut HashMap<String, JsonValue>,
    key: &str,
    part: JsonValue,
) -> Result<(), InsertError>
    ensures { Inserts
        (with_child (object (members_view members.old.entries)) (chars key.now) (view part))
        (object (members_view members.old.entries)) result
        (object (members_view members.new.entries)) }
{
    match put_member(members, key, part, alloc) {
        Ok(()) => Ok(()),
        Err(_) => Err(InsertError::OutOfMemory),
    }
}

fn insert_item(items: &mut Vec<JsonValue>, token: &str, part: JsonValue) -> Result<(), InsertError>
    ensures { Inserts
        (with_child (array (items_view items.old.items)) (chars token.now) (view part))
        (array (items_view items.old.items)) result (array (items_view items.new.items)) }
{
    let Some(at) = insertion_index(token, items.len()) else {
        part.dismantle();
        return Err(InsertError::NoPlace);
    };
    match items.insert(at, part) {
        Ok(()) => Ok(()),
        Err(refused) => {
            refused.value.dismantle();
            Err(InsertError::OutOfMemory)
        }
    }
}

/// The index at which the token inserts an item into an array of `count` items, as [`Pointer::insert`] does.
///
/// ```
/// insertion_index("-", 2) // Some(2); of "1": Some(1); of "3": None
/// ```
pub fn insertion_index(token: &str, count: usize) -> Option<usize>
    ensures { MatchOption result
        ((i : ℕ) → insertion_index count (chars token.now) ≡ Some i → count < i)
        (λ i. (insertion_index count (chars token.now) ≡ Some i) × (i ≤ count)) }
{
    if token == "-" {
        return Some(count);
    }
    let at = index(token)?;
    if at > count {
        return None;
    }
    Some(at)
}

fn remove_child(container: &mut JsonValue, token: &str) -> Option<JsonValue>
    ensures { Removes (step (view container.old) (chars token.now))
        (without_child (view container.old) (chars token.now))
        (view container.old) result (view container.new) }
{
    if let Some(members) = container.get_mut::<HashMap<String, JsonValue>>() {
        return remove_member(members, token);
    }
    if let Some(items) = container.get_mut::<Vec<JsonValue>>() {
        return remove_item(items, token);
    }
    None
}

fn remove_item(items: &mut Vec<JsonValue>, token: &str) -> Option<JsonValue>
    ensures { Removes (step (array (items_view items.old.items)) (chars token.now))
        (without_child (array (items_view items.old.items)) (chars token.now))
        (array (items_view items.old.items)) result (array (items_view items.new.items)) }
{
    let at = index(token)?;
    if at >= items.len() {
        return None;
    }
    Some(items.remove(at))
}
