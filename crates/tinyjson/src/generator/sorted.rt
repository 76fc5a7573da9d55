//! The members of a map in the order of their keys.
ghost use Rattle.std.specs.Prelude.{◌≡◌, ◌<◌, ◌∷◌, [], ⊤, MatchOption, map, length, drop, reverse};
ghost use Rattle.std.specs.Prelude.{take, OnOk};
ghost use Rattle.std.specs.HashMap.{IsUnique};
ghost use Rattle.std.specs.String.{string_eq};
ghost use Rattle.tinyjson.specs.private.Sorted.{bytes_pair, now_pair, sorted_view};
ghost use Rattle.tinyjson.specs.View.{members_view};

use crate::value::{JsonValue, holds_others};
use std::alloc::{AllocError, Global};
use std::collections::HashMap;
use tinyjson_bytes::presort;

/// Puts the members after those that were gathered before, the last key's member first, so that they
/// are popped in the order of their keys' bytes. Says whether no value of them holds another.
pub(super) fn gather_sorted<'a>(
    alloc: Global,
    gathered: &mut Vec<(&'a str, &'a JsonValue)>,
    members: &'a HashMap<String, JsonValue>,
) -> Result<bool, AllocError>
    ensures members { OnOk result (sorted_view (take (length members.now.entries)
        (reverse gathered.new.items)) ≡ members_view members.now.entries) }
    ensures before { OnOk result
        (drop (length members.now.entries) (reverse gathered.new.items) ≡ reverse
        gathered.old.items) }
{
    let start = gathered.len();
    let flat = gather(gathered, members)?;
    let added = &mut gathered[start..];
    presort(alloc, added);
    added.sort_unstable_by(|a, b| b.0.cmp(a.0));
    Ok(flat)
}

/// The members in the map's own order. All values are looked at here, side by side, so that the memory
/// of each is near when it is written.
fn gather<'a>(
    gathered: &mut Vec<(&'a str, &'a JsonValue)>,
    members: &'a HashMap<String, JsonValue>,
) -> Result<bool, AllocError>
    ensures items { OnOk result
        (map now_pair (drop (length gathered.old.items) gathered.new.items) ≡ map bytes_pair
        members.now.entries) }
    ensures before { OnOk result (take (length gathered.old.items)
        gathered.new.items ≡ gathered.old.items) }
    ensures unique { OnOk result (IsUnique string_eq members.now) }
{
    gathered.reserve(members.len())?;
    let mut flat = true;
    for (key, value) in members {
        flat &= !holds_others(value);
        gathered.push((key.as_str(), value))?;
    }
    Ok(flat)
}

/// The next of that many members that are left to an object. It stays with them.
#[inline(always)]
pub(super) fn first_member<'a>(
    gathered: &[(&'a str, &'a JsonValue)],
    left: usize,
) -> Option<(&'a str, &'a JsonValue)>
    ensures { MatchOption result ⊤ (λ m. (0 < left)
        × (reverse gathered.now ≡ m ∷ drop 1 (reverse gathered.now))) }
{
    if left == 0 || gathered.is_empty() {
        return None;
    }
    Some(gathered[gathered.len() - 1])
}

/// The next of that many members that are left to an object.
pub(super) fn next_member<'a>(
    gathered: &mut Vec<(&'a str, &'a JsonValue)>,
    left: usize,
) -> Option<(&'a str, &'a JsonValue)>
    ensures { MatchOption result
        ((take left (reverse gathered.old.items) ≡ [])
        × (drop left (reverse gathered.old.items) ≡ reverse gathered.new.items))
        (λ m. (0 < left) × (reverse gathered.old.items ≡ m ∷ reverse gathered.new.items)) }
{
    if left == 0 { None } else { gathered.pop() }
}
