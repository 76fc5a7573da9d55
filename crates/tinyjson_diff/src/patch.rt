//! The JSON Patch from one value to another.
ghost use Rattle.std.specs.Prelude.{◌+◌, IfOk};
ghost use Rattle.tinyjson.specs.Tree.{array, object};
ghost use Rattle.tinyjson.specs.View.{view};
ghost use Rattle.tinyjson_document.specs.Parts.{members_in};
ghost use Rattle.tinyjson_view.specs.Views.{tree_of, trees_of};
ghost use Rattle.tinyjson_diff.specs.Patching.{IsPatchBetween};
ghost use Rattle.tinyjson_diff.specs.Steps.{actions_of, Changes, IsReplacement};
ghost use Rattle.tinyjson_diff.specs.Steps.{RemoveItems, RemoveMembers};

use crate::document::document;
use crate::parts::{are_found_equal, copy_of, has_key};
use crate::step::{Change, Step, append_of_item, append_of_member, at_index, at_key};
use std::alloc::{AllocError, Global};
use tinyjson::{JsonKind, JsonValue};
use tinyjson_document::JsonView;
use tinyjson_pointer::Pointer;
use tinyjson_view::{AsView, ValueView};

/// How many tokens a path of a patch may have, as [`tinyjson_patch`] reads them.
const TOKEN_LIMIT: usize = 1_000;

/// The document of the JSON Patch (RFC 6902) that leads from the old value to the new one: applied to the old value it
/// gives the new one. The only error is out of memory.
///
/// It adds and removes the members of which one object has the key, and the items by which one array is longer, from
/// the end. Members with one key, and items with one index, are compared again. Any other two values that differ are
/// replaced, as are those below 1,000 containers, which [`tinyjson_patch`] bounds paths to. So no place has two
/// operations. Equal parts are passed quickly. It recurses once for each nested container that both values have.
///
/// ```
/// let patch = patch_diff(alloc, old.root(), new.root())?; // from [1,2] to [3] it is [{"op":"remove","path":"/1"},
/// // {"op":"replace","path":"/0","value":3}]
/// ```
pub fn patch_diff<'v, O: AsView<'v>, N: AsView<'v>>(
    alloc: Global,
    old: O,
    new: N,
) -> Result<JsonValue, AllocError>
    ensures { IfOk result (λ p. IsPatchBetween (O.tree old) (N.tree new) (view p)) }
{
    let old = old.as_view();
    let new = new.as_view();
    let steps = changes(alloc, TOKEN_LIMIT, old, new)?;
    document(alloc, steps)
}

/// The steps from the old value to the new one, with at most that many tokens.
#[cycle(changes)]
fn changes(
    alloc: Global,
    room: usize,
    old: ValueView<'_>,
    new: ValueView<'_>,
) -> Result<Vec<Step>, AllocError>
    ensures { IfOk result (λ steps. Changes room (tree_of old.entry) (tree_of new.entry)
        (actions_of steps.items)) }
{
    if room == 0 {
        return replacement(alloc, old, new);
    }
    if are_found_equal(TOKEN_LIMIT.saturating_sub(room), old, new) {
        return Ok(Vec::new(alloc));
    }
    match (old.kind(), new.kind()) {
        (JsonKind::Object, JsonKind::Object) => of_members(alloc, room - 1, old, new),
        (JsonKind::Array, JsonKind::Array) => {
            let before = old.items(alloc)?;
            let after = new.items(alloc)?;
            of_items(alloc, room - 1, before.as_slice(), after.as_slice())
        }
        _ => replacement(alloc, old, new),
    }
}

/// The steps from one object to another. Below it there is room for that many tokens.
#[cycle(changes)]
fn of_members(
    alloc: Global,
    room: usize,
    before: ValueView<'_>,
    after: ValueView<'_>,
) -> Result<Vec<Step>, AllocError>
    ensures { IfOk result (λ steps. Changes (room + 1)
        (object (members_in (tree_of before.entry))) (object (members_in (tree_of after.entry)))
        (actions_of steps.items)) }
{
    let mut steps = removed_members(alloc, before, after)?;
    let members = after.members(alloc)?;
    for member in members.as_slice() {
        match before.member(member.key) {
            Some(part) => {
                let inner = changes(alloc, room, part, member.value)?;
                append_of_member(alloc, &mut steps, member.key, inner)?;
            }
            None => {
                let change = Change::Add(copy_of(alloc, member.value)?);
                steps.push(at_key(alloc, member.key, change)?)?;
            }
        }
    }
    Ok(steps)
}

/// The steps from one array to another. Below it there is room for that many tokens.
#[cycle(changes)]
fn of_items(
    alloc: Global,
    room: usize,
    before: &[ValueView<'_>],
    after: &[ValueView<'_>],
) -> Result<Vec<Step>, AllocError>
    ensures { IfOk result (λ steps. Changes (room + 1) (array (trees_of before.now))
        (array (trees_of after.now)) (actions_of steps.items)) }
{
    let (mut steps, left) = removed_items(alloc, before, after)?;
    for (index, value) in after.iter().enumerate() {
        if index < left.len() {
            let inner = changes(alloc, room, left[index], *value)?;
            append_of_item(alloc, &mut steps, index, inner)?;
        } else {
            let change = Change::Add(copy_of(alloc, *value)?);
            steps.push(at_index(alloc, index, change)?)?;
        }
    }
    Ok(steps)
}

/// The step that replaces the old value, if the new one differs.
fn replacement(
    alloc: Global,
    old: ValueView<'_>,
    new: ValueView<'_>,
) -> Result<Vec<Step>, AllocError>
    ensures { IfOk result (λ steps. IsReplacement (tree_of old.entry) (tree_of new.entry)
        (actions_of steps.items)) }
{
    let mut steps = Vec::new(alloc);
    if old.equals(&new) {
        return Ok(steps);
    }
    steps.push(Step {
        path: Pointer::root(alloc),
        change: Change::Replace(copy_of(alloc, new)?),
    })?;
    Ok(steps)
}

/// The steps that remove the members whose keys are not among the others'.
fn removed_members(
    alloc: Global,
    before: ValueView<'_>,
    after: ValueView<'_>,
) -> Result<Vec<Step>, AllocError>
    ensures { IfOk result (λ steps. RemoveMembers (members_in (tree_of before.entry))
        (members_in (tree_of after.entry)) (actions_of steps.items)) }
{
    let mut steps = Vec::new(alloc);
    let members = before.members(alloc)?;
    for member in members.as_slice() {
        if !has_key(after, member.key) {
            steps.push(at_key(alloc, member.key, Change::Remove)?)?;
        }
    }
    Ok(steps)
}

/// The steps that remove the items beyond the length of the new array, from the end, and the items that are left.
fn removed_items<'a, 'v>(
    alloc: Global,
    before: &'a [ValueView<'v>],
    after: &[ValueView<'_>],
) -> Result<(Vec<Step>, &'a [ValueView<'v>]), AllocError>
    ensures { IfOk result (λ r. RemoveItems before.now after.now (actions_of r.0.items) r.1.now) }
{
    let mut steps = Vec::new(alloc);
    let mut count = before.len();
    while count > after.len() {
        count -= 1;
        steps.push(at_index(alloc, count, Change::Remove)?)?;
    }
    Ok((steps, &before[..count]))
}
