//! The members of an object.
ghost use Rattle.std.specs.HashMap.{get_by_text, IsUnique};
ghost use Rattle.std.specs.Prelude.{◌≡◌, ◌++◌, OnOk, OnErr, IfOk, map, option_map};
ghost use Rattle.std.specs.Str.{chars};
ghost use Rattle.std.specs.String.{string_eq};
ghost use Rattle.tinyjson_grammar.specs.Tree.{put, find, remove};
ghost use Rattle.tinyjson.specs.View.{view, text, members_view, members_listed};
ghost use Rattle.tinyjson.specs.private.Members.{add};
ghost use Rattle.tinyjson.specs.private.Sorted.{bytes_pair, listed_pair};

use super::JsonValue;
use std::alloc::{AllocError, Global};
use std::collections::HashMap;
use std::collections::hash_map::Entry;

/// Puts the value at the key of an object's members, in the place of what they had there.
///
/// If memory runs out, the members stay as they are, and the key and the value are dropped. A value
/// that is replaced or dropped is freed by a loop, as [`JsonValue::dismantle`] does.
///
/// ```
/// let mut members = HashMap::new(alloc);
/// insert_member(&mut members, "foo".to_string(alloc)?, JsonValue::from(true))?;
/// let value = JsonValue::from(members);
/// assert_eq!(rt; value.stringify(alloc)?.as_str(), "{\"foo\":true}");
/// ```
pub fn insert_member(
    members: &mut HashMap<String, JsonValue>,
    key: String,
    value: JsonValue,
) -> Result<(), AllocError>
    ensures ok { OnOk result (members_view members.new.entries
        ≡ put (text key) (view value) (members_view members.old.entries)) }
    ensures err { OnErr result (members.new.entries ≡ members.old.entries) }
{
    match members.insert(key, value) {
        Ok(None) => Ok(()),
        Ok(Some(old)) => {
            old.dismantle();
            Ok(())
        }
        Err(refused) => {
            refused.value.1.dismantle();
            Err(AllocError)
        }
    }
}

/// Puts the value at the key of an object's members, if they have none there. A value that is dropped is freed
/// by a loop.
pub(crate) fn add_member(
    members: &mut HashMap<String, JsonValue>,
    key: String,
    value: JsonValue,
) -> Result<(), AllocError>
    ensures { OnOk result (members_view members.new.entries
        ≡ add (text key) (view value) (members_view members.old.entries)) }
{
    match members.entry(key) {
        Ok(Entry::Vacant(place)) => {
            place.insert(value);
            Ok(())
        }
        Ok(Entry::Occupied(place)) => {
            place.into_mut();
            value.dismantle();
            Ok(())
        }
        Err(_) => {
            value.dismantle();
            Err(AllocError)
        }
    }
}

/// Takes the member at the key out of an object's members, and returns it, if there was one.
///
/// ```
/// let mut members = HashMap::new(alloc);
/// insert_member(&mut members, "foo".to_string(alloc)?, JsonValue::Null)?;
/// assert!(rt; remove_member(&mut members, "foo") == Some(JsonValue::Null));
/// assert!(rt; members.is_empty());
/// ```
pub fn remove_member(members: &mut HashMap<String, JsonValue>, key: &str) -> Option<JsonValue>
    ensures old { result ≡ get_by_text members.old key.now }
    ensures old_tree { option_map view result
        ≡ find (chars key.now) (members_view members.old.entries) }
    ensures new { members_view members.new.entries
        ≡ remove (chars key.now) (members_view members.old.entries) }
{
    members.remove(key)
}

/// Takes the member at the key out of an object's members, if there is one, and frees it by a loop,
/// as [`JsonValue::dismantle`] does.
///
/// Where the old member is not wanted, this keeps the proof of a caller in one piece: what
/// [`remove_member`] returns, and its caller drops, is seen in each variant that it may be.
///
/// ```
/// let mut members = HashMap::new(alloc);
/// insert_member(&mut members, "foo".to_string(alloc)?, JsonValue::Null)?;
/// discard_member(&mut members, "foo");
/// discard_member(&mut members, "bar");
/// assert!(rt; members.is_empty());
/// ```
pub fn discard_member(members: &mut HashMap<String, JsonValue>, key: &str)
    ensures { members_view members.new.entries
        ≡ remove (chars key.now) (members_view members.old.entries) }
{
    if let Some(old) = remove_member(members, key) {
        old.dismantle();
    }
}

/// The members of an object in the order of their keys' bytes, which is the order that they are
/// written in. The only error is out of memory.
///
/// ```
/// let mut members = HashMap::new(alloc);
/// insert_member(&mut members, "foo".to_string(alloc)?, JsonValue::Null)?;
/// insert_member(&mut members, "bar".to_string(alloc)?, JsonValue::from(true))?;
/// let sorted = sorted_members(alloc, &members)?;
/// assert_eq!(rt; sorted[0].0.as_str(), "bar");
/// assert_eq!(rt; sorted[1].0.as_str(), "foo");
/// ```
pub fn sorted_members<'a>(
    alloc: Global,
    members: &'a HashMap<String, JsonValue>,
) -> Result<Vec<(&'a String, &'a JsonValue)>, AllocError>
    ensures { IfOk result
        (λ sorted. members_listed sorted.items ≡ members_view members.now.entries) }
{
    let mut sorted = Vec::new(alloc);
    list_members(&mut sorted, members)?;
    sorted.sort_unstable_by(|a, b| a.0.as_str().cmp(b.0.as_str()));
    Ok(sorted)
}

/// Puts the members after those of the list, in the map's own order.
fn list_members<'a>(
    listed: &mut Vec<(&'a String, &'a JsonValue)>,
    members: &'a HashMap<String, JsonValue>,
) -> Result<(), AllocError>
    ensures items { OnOk result (map listed_pair listed.new.items
        ≡ map listed_pair listed.old.items ++ map bytes_pair members.now.entries) }
    ensures unique { OnOk result (IsUnique string_eq members.now) }
{
    listed.reserve(members.len())?;
    for (key, value) in members {
        listed.push((key, value))?;
    }
    Ok(())
}
