//! The merge patch from one value to another.
ghost use Rattle.std.specs.Bool.{Decides};
ghost use Rattle.std.specs.Prelude.{◌≡◌, false, Some, IfOk, IsTrue, OnOk, option_map};
ghost use Rattle.std.specs.Str.{chars};
ghost use Rattle.tinyjson.specs.Access.{is_null, is_object};
ghost use Rattle.tinyjson.specs.Tree.{find};
ghost use Rattle.tinyjson.specs.View.{view, members_view};
ghost use Rattle.tinyjson_document.specs.Parts.{members_in};
ghost use Rattle.tinyjson_view.specs.Views.{tree_of};
ghost use Rattle.tinyjson_diff.specs.Changes.{AreRemovals, Changes, IsBelow, KeepsAll};
ghost use Rattle.tinyjson_diff.specs.Changes.{members_had, object_members, with_change};
ghost use Rattle.tinyjson_diff.specs.Merging.{GivesMergePatch};
ghost use Rattle.tinyjson_diff.specs.Merging.{no_merge_patch_message};

use crate::parts::{are_found_equal, copy_of, has_key};
use std::alloc::{AllocError, Global};
use std::collections::HashMap;
use std::error::Error;
use std::fmt;
use tinyjson::{JsonKind, JsonValue};
use tinyjson_document::JsonView;
use tinyjson_pointer::{Pointer, put_member};
use tinyjson_view::{AsView, ValueView};

/// Why no merge patch is returned.
#[derive(Debug, Drop)]
pub enum NoMergePatch {
    /// No merge patch leads to the new value. This names a `null` in it that the patch would have to put there, where
    /// `null` in a patch removes the member.
    Null(Pointer),
    /// An allocation failed.
    OutOfMemory,
}

impl From<AllocError> for NoMergePatch {
    ghost use Rattle.tinyjson_diff.specs.declared.merge.NoMergePatch.{NoMergePatch};

    ghost from_gives = { λ _ e. e ≡ NoMergePatch.OutOfMemory };

    fn from(_: AllocError) -> NoMergePatch {
        NoMergePatch::OutOfMemory
    }
}

impl fmt::Display for NoMergePatch {
    ghost output = { λ e. Some (no_merge_patch_message e) };

    fn fmt<W: fmt::Write>(&self, f: &mut fmt::Formatter<W>) -> fmt::Result {
        match self {
            NoMergePatch::Null(place) => write!(f, "no merge patch sets a member to null: {place}"),
            NoMergePatch::OutOfMemory => f.write_str("out of memory"),
        }
    }
}

impl Error for NoMergePatch {}

/// The merge patch (RFC 7396) that leads from the old value to the new one: merged into the old value it gives the new
/// one. Of two objects it has the members that differ, and of these again only what differs; any other value that
/// differs it has whole.
///
/// There is none where a member of an object is `null` in the new value and something else, or missing, in the old one:
/// a merge patch can't set a member to `null`. Inside arrays it can. It recurses once for each nested object of the new
/// value.
///
/// ```
/// let patch = merge_diff(alloc, old.root(), new.root())?; // from {"a":1,"b":[2]} to {"b":[3]} it is {"a":null,"b":[3]}
/// ```
pub fn merge_diff<'v, O: AsView<'v>, N: AsView<'v>>(
    alloc: Global,
    old: O,
    new: N,
) -> Result<JsonValue, NoMergePatch>
    ensures { GivesMergePatch (O.tree old) (N.tree new) result }
{
    let old = old.as_view();
    let new = new.as_view();
    if is_null(new) {
        return Ok(JsonValue::Null);
    }
    match change(alloc, 0, Some(old), new) {
        Ok(Some(patch)) => Ok(patch),
        Ok(None) => Ok(patch_to_itself(alloc, new)?),
        Err(error) => Err(error),
    }
}

/// The patch that leads from a value to itself.
fn patch_to_itself(alloc: Global, value: ValueView<'_>) -> Result<JsonValue, AllocError>
    ensures { IfOk result (λ p. KeepsAll (tree_of value.entry) (view p)) }
{
    if is_object(value) {
        return Ok(JsonValue::Object(HashMap::new(alloc)));
    }
    copy_of(alloc, value)
}

/// The member of a patch that leads from what the old object has at a key to the new member. There is none if they are
/// equal. It is below `depth` objects.
fn change(
    alloc: Global,
    depth: usize,
    old: Option<ValueView<'_>>,
    new: ValueView<'_>,
) -> Result<Option<JsonValue>, NoMergePatch>
    ensures { Changes (option_map tree_of old.entry) (tree_of new.entry) result }
{
    if !is_object(new) {
        return whole_change(alloc, old, new);
    }
    if is_kept(depth, old, new) {
        return Ok(None);
    }
    let below_new = depth.saturating_add(1);
    let before = object_of(old);
    let mut changes = removals(alloc, before, new)?;
    let after = new.members(alloc)?;
    for member in after.as_slice() {
        match change(
            alloc,
            below_new,
            member_of(before, member.key),
            member.value,
        ) {
            Ok(patch) => {
                let Ok(()) = put_change(alloc, &mut changes, member.key, patch) else {
                    return Err(give_up(changes, NoMergePatch::OutOfMemory));
                };
            }
            Err(error) => return Err(give_up(changes, below(alloc, member.key, error))),
        }
    }
    if !changes.is_empty() {
        return Ok(Some(JsonValue::Object(changes)));
    }
    match before {
        Some(_) => Ok(None),
        None => Ok(Some(JsonValue::Object(changes))),
    }
}

/// Puts the member of a patch at the key, if there is one.
fn put_change(
    alloc: Global,
    changes: &mut HashMap<String, JsonValue>,
    key: &str,
    patch: Option<JsonValue>,
) -> Result<(), AllocError>
    ensures { OnOk result (members_view changes.new.entries ≡ with_change (chars key.now)
        (option_map view patch) (members_view changes.old.entries)) }
{
    match patch {
        Some(patch) => put_member(changes, key, patch, alloc),
        None => Ok(()),
    }
}

fn is_object(value: ValueView<'_>) -> bool
    ensures { result ≡ is_object (tree_of value.entry) }
{
    matches!(value.kind(), JsonKind::Object)
}

fn is_null(value: ValueView<'_>) -> bool
    ensures { result ≡ is_null (tree_of value.entry) }
{
    matches!(value.kind(), JsonKind::Null)
}

/// The same where the new member is no object.
fn whole_change(
    alloc: Global,
    old: Option<ValueView<'_>>,
    new: ValueView<'_>,
) -> Result<Option<JsonValue>, NoMergePatch>
    requires { is_object (tree_of new) ≡ false }
    ensures { Changes (option_map tree_of old.entry) (tree_of new.entry) result }
{
    if are_equal(old, new) {
        return Ok(None);
    }
    if is_null(new) {
        return Err(NoMergePatch::Null(Pointer::root(alloc)));
    }
    Ok(Some(copy_of(alloc, new)?))
}

/// Whether there is an old value, and it is equal to the new one.
fn are_equal(old: Option<ValueView<'_>>, new: ValueView<'_>) -> bool
    ensures { Decides result (option_map tree_of old.entry ≡ Some (tree_of new.entry)) }
{
    match old {
        Some(old) => old.equals(&new),
        None => false,
    }
}

/// Whether there is an old value, and it is found to be equal to the new one at this depth.
fn is_kept(depth: usize, old: Option<ValueView<'_>>, new: ValueView<'_>) -> bool
    ensures { IsTrue result → option_map tree_of old.entry ≡ Some (tree_of new.entry) }
{
    match old {
        Some(old) => are_found_equal(depth, old, new),
        None => false,
    }
}

/// The value, if it is an object.
fn object_of<'v>(value: Option<ValueView<'v>>) -> Option<ValueView<'v>>
    ensures { option_map (λ v. members_in (tree_of v)) result
        ≡ object_members (option_map tree_of value.entry) }
{
    let value = value?;
    if is_object(value) {
        return Some(value);
    }
    None
}

/// The member of the object at the key.
fn member_of<'v>(object: Option<ValueView<'v>>, key: &str) -> Option<ValueView<'v>>
    ensures { option_map tree_of result ≡ find (chars key.now) (members_had object.entry) }
{
    match object {
        Some(object) => object.member(key),
        None => None,
    }
}

/// A patch that removes the members whose keys are not among the others'.
fn removals(
    alloc: Global,
    before: Option<ValueView<'_>>,
    after: ValueView<'_>,
) -> Result<HashMap<String, JsonValue>, AllocError>
    ensures { IfOk result (λ m. AreRemovals
        (members_had before.entry) (members_in (tree_of after.entry)) (members_view m.entries)) }
{
    let mut removals = HashMap::new(alloc);
    let Some(before) = before else {
        return Ok(removals);
    };
    let members = before.members(alloc)?;
    for member in members.as_slice() {
        if !has_key(after, member.key) {
            let Ok(()) = put_member(&mut removals, member.key, JsonValue::Null, alloc) else {
                return Err(AllocError);
            };
        }
    }
    Ok(removals)
}

/// The error of a member, as that of the object.
fn below(alloc: Global, key: &str, error: NoMergePatch) -> NoMergePatch
    ensures { IsBelow (chars key.now) error result }
{
    let NoMergePatch::Null(place) = error else {
        return NoMergePatch::OutOfMemory;
    };
    let mut place = place;
    match String::from_str(alloc, key) {
        Ok(token) => match place.prepend(token) {
            Ok(()) => NoMergePatch::Null(place),
            Err(_) => NoMergePatch::OutOfMemory,
        },
        Err(_) => NoMergePatch::OutOfMemory,
    }
}

/// Frees the members in a loop, and returns the error.
fn give_up(members: HashMap<String, JsonValue>, error: NoMergePatch) -> NoMergePatch
    ensures { result ≡ error }
{
    JsonValue::Object(members).dismantle();
    error
}
