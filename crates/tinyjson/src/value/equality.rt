//! Equality of values.
ghost use Rattle.std.specs.Prelude.{◌≡◌, ◌<◌, ◌≤◌, ◌+◌};
ghost use Rattle.std.specs.Slice.Iter.{iter_rest};
ghost use Rattle.tinyjson.specs.private.Comparison.{has_entries, rest_eq, compared_eq};
ghost use Rattle.tinyjson.specs.private.Comparison.{compared_weight};
ghost use Rattle.tinyjson.specs.private.Comparison.{step_eq, step_weight, rest_weight};
ghost use Rattle.tinyjson.specs.private.Copy.{weight, items_weight, entries_weight};
ghost use Rattle.tinyjson.specs.Equality.{same_tree, items_eq, members_eq};
ghost use Rattle.tinyjson.specs.View.{items_view, members_view};

use super::JsonValue;
use std::alloc::Global;
use std::collections::{HashMap, hash_map};
use std::slice;

/// Two values are equal if their trees are: arrays item by item, objects with the same keys and
/// equal members at each, in whatever order they came in.
///
/// The comparison recurses over the outer 64 levels, and compares deeper ones by a loop, whose stack is
/// on the heap. Where memory for that is refused, it recurses over the levels that are left.
///
/// ```
/// let one = JsonValue::from(vec![in alloc; JsonValue::Null]?);
/// assert!(rt; one == JsonValue::Array(vec![in alloc; JsonValue::from(())]?));
/// ```
impl PartialEq for JsonValue {
    ghost use Rattle.std.specs.Cmp.{partial_equiv_from_equiv};
    ghost use Rattle.tinyjson.specs.Equality.{same_tree, same_tree_equiv};

    ghost eq = { same_tree };

    ghost laws = { partial_equiv_from_equiv same_tree_equiv };

    fn eq(&self, other: &JsonValue) -> bool {
        match compare(self, other) {
            Compared::Known(same) => same,
            Compared::Inside(rest) => match allocator(self) {
                Some(alloc) => compare_near(rest, NEAR - 1, alloc),
                None => compare_deep(rest),
            },
        }
    }
}

impl Eq for JsonValue {
    ghost use Rattle.tinyjson.specs.Equality.{same_tree_equiv};

    ghost laws = { same_tree_equiv };
}

/// How many levels are compared by a recursion.
const NEAR: usize = 64;

/// What is left to be compared of two arrays, or of an object and one with as many members.
#[derive(Drop)]
enum Rest<'v> {
    Items(slice::Iter<'v, JsonValue>, slice::Iter<'v, JsonValue>),
    Members(hash_map::Iter<'v, String, JsonValue>, &'v HashMap<String, JsonValue>),
}

/// Whether two values are the same, or what has to be compared for that.
#[derive(Drop)]
enum Compared<'v> {
    Known(bool),
    Inside(Rest<'v>),
}

/// Whether two rests are the same; or two containers in them, and what is left after those.
#[derive(Drop)]
enum Step<'v> {
    Known(bool),
    Inside(Rest<'v>, Rest<'v>),
}

/// The allocator of a container that is not empty.
fn allocator(value: &JsonValue) -> Option<Global> {
    match value {
        JsonValue::Array(items) => Some(*items.allocator()),
        JsonValue::Object(members) => members.keys().next().map(|key| *key.allocator()),
        _ => None,
    }
}

/// Compares two values as far as that needs no look into containers.
fn compare<'v>(a: &'v JsonValue, b: &'v JsonValue) -> Compared<'v>
    ensures same { compared_eq result ≡ same_tree a.now b.now }
    ensures left { compared_weight result ≤ weight a.now }
{
    match (a, b) {
        (JsonValue::Null, JsonValue::Null) => Compared::Known(true),
        (JsonValue::Boolean(a), JsonValue::Boolean(b)) => Compared::Known(a == b),
        (JsonValue::Number(a), JsonValue::Number(b)) => Compared::Known(a == b),
        (JsonValue::String(a), JsonValue::String(b)) => Compared::Known(a == b),
        (JsonValue::Array(a), JsonValue::Array(b)) => compare_arrays(a, b),
        (JsonValue::Object(a), JsonValue::Object(b)) => compare_objects(a, b),
        _ => Compared::Known(false),
    }
}

fn compare_arrays<'v>(a: &'v [JsonValue], b: &'v [JsonValue]) -> Compared<'v>
    ensures same { compared_eq result ≡ items_eq (items_view a.now) (items_view b.now) }
    ensures left { compared_weight result ≤ 2 + items_weight a.now }
{
    if a.len() != b.len() {
        return Compared::Known(false);
    }
    Compared::Inside(Rest::Items(a.iter(), b.iter()))
}

fn compare_objects<'v>(
    a: &'v HashMap<String, JsonValue>,
    b: &'v HashMap<String, JsonValue>,
) -> Compared<'v>
    ensures same { compared_eq result
        ≡ members_eq (members_view a.now.entries) (members_view b.now.entries) }
    ensures left { compared_weight result ≤ 2 + entries_weight a.now.entries }
{
    if a.len() != b.len() {
        return Compared::Known(false);
    }
    Compared::Inside(Rest::Members(a.iter(), b))
}

/// Compares up to the next two containers that are at the same place.
fn next(rest: Rest<'_>) -> Step<'_>
    ensures same { step_eq result ≡ rest_eq rest.entry }
    ensures left { step_weight result < rest_weight rest.entry }
{
    match rest {
        Rest::Items(a, b) => next_items(a, b),
        Rest::Members(a, b) => next_members(a, b),
    }
}

fn next_items<'v>(a: slice::Iter<'v, JsonValue>, b: slice::Iter<'v, JsonValue>) -> Step<'v>
    ensures same { step_eq result
        ≡ items_eq (items_view (iter_rest a.entry)) (items_view (iter_rest b.entry)) }
    ensures left { step_weight result ≤ items_weight (iter_rest a.entry) }
{
    let mut a = a;
    let mut b = b;
    while let Some(item) = a.next() {
        let Some(other) = b.next() else {
            return Step::Known(false);
        };
        match compare(item, other) {
            Compared::Known(true) => {}
            Compared::Known(false) => return Step::Known(false),
            Compared::Inside(inner) => return Step::Inside(inner, Rest::Items(a, b)),
        }
    }
    Step::Known(b.next().is_none())
}

fn next_members<'v>(
    a: hash_map::Iter<'v, String, JsonValue>,
    b: &'v HashMap<String, JsonValue>,
) -> Step<'v>
    ensures same { step_eq result ≡ has_entries (members_view b.now.entries) a.entry }
    ensures left { step_weight result ≤ entries_weight a.entry }
{
    let mut a = a;
    while let Some((key, member)) = a.next() {
        let Some(other) = b.get(key) else {
            return Step::Known(false);
        };
        match compare(member, other) {
            Compared::Known(true) => {}
            Compared::Known(false) => return Step::Known(false),
            Compared::Inside(inner) => return Step::Inside(inner, Rest::Members(a, b)),
        }
    }
    Step::Known(true)
}

/// Compares up to `levels` nested levels by a recursion, and deeper ones by a loop.
fn compare_near(rest: Rest<'_>, levels: usize, alloc: Global) -> bool
    ensures { result ≡ rest_eq rest.entry }
{
    let mut rest = rest;
    loop {
        rest = match next(rest) {
            Step::Known(same) => return same,
            Step::Inside(inner, outer) => {
                let equal = match levels.checked_sub(1) {
                    Some(fewer) => compare_near(inner, fewer, alloc),
                    None => compare_all(inner, alloc),
                };
                if !equal {
                    return false;
                }
                outer
            }
        };
    }
}

/// Compares by a loop, the innermost containers first.
fn compare_all(rest: Rest<'_>, alloc: Global) -> bool
    ensures { result ≡ rest_eq rest.entry }
{
    let mut stack = Vec::new(alloc);
    let mut rest = rest;
    loop {
        rest = match next(rest) {
            Step::Known(false) => return false,
            Step::Known(true) => match stack.pop() {
                Some(outer) => outer,
                None => return true,
            },
            Step::Inside(inner, outer) => match stack.push(outer) {
                Ok(()) => inner,
                Err(refused) => {
                    if !compare_deep(inner) {
                        return false;
                    }
                    refused.value
                }
            },
        };
    }
}

/// Compares by a recursion, without memory.
fn compare_deep(rest: Rest<'_>) -> bool
    ensures { result ≡ rest_eq rest.entry }
{
    let mut rest = rest;
    loop {
        rest = match next(rest) {
            Step::Known(same) => return same,
            Step::Inside(inner, outer) => {
                if !compare_deep(inner) {
                    return false;
                }
                outer
            }
        };
    }
}
