//! How many values a copy copies, without recursion: the parts in which values are nested are on a stack.
ghost use Rattle.std.specs.Prelude.{◌≡◌, IfOk, OnOk};
ghost use Rattle.tinyjson_document.specs.Parts.{size};
ghost use Rattle.tinyjson_patch.specs.Copies.{copies, value_count};
ghost use Rattle.tinyjson_patch.specs.private.Counting.{IsPut, Spreads, Takes};
ghost use Rattle.tinyjson_patch.specs.private.Edited.{items_tree, members_tree, part_tree, tree};
ghost use Rattle.tinyjson_grammar.specs.Tree.{array, object};
ghost use Rattle.tinyjson_patch.specs.Operation.{action_of};
ghost use Rattle.tinyjson_view.specs.Views.{members_of, tree_of, trees_of};

use crate::edit::edited::Edited;
use crate::edit::find::{Part, find, part_of};
use crate::operation::Operation;
use std::alloc::{AllocError, Global};
use std::collections::{BTreeMap, VecDeque};
use tinyjson_document::JsonView;
use tinyjson_view::{MemberView, ValueView};

/// What remains of `left` values after those that the operation copies. `None` if it copies more.
pub(crate) fn left_after(
    alloc: Global,
    operation: &Operation,
    value: &Edited<'_>,
    left: usize,
) -> Result<Option<usize>, AllocError>
    ensures { IfOk result (Takes left (copies (action_of operation.now) (tree value.now))) }
{
    match operation {
        Operation::Copy { from, .. } => match find(value, from) {
            Some(part) => left_behind(alloc, part, left),
            None => Ok(Some(left)),
        },
        _ => Ok(Some(left)),
    }
}

/// What remains of `left` values after all of the part. It is looked into only as far as the values suffice.
fn left_behind(alloc: Global, part: Part<'_, '_>, left: usize) -> Result<Option<usize>, AllocError>
    ensures { IfOk result (Takes left (value_count (part_tree part.entry))) }
{
    let Some(mut rest) = left.checked_sub(1) else {
        return Ok(None);
    };
    let mut stack = Vec::new(alloc);
    stack.push(part)?;
    while let Some(next) = stack.pop() {
        let Some(others) = rest.checked_sub(count_of(next)) else {
            return Ok(None);
        };
        rest = others;
        push_parts(alloc, next, &mut stack)?;
    }
    Ok(Some(rest))
}

/// The number of items or members of the part.
fn count_of(part: Part<'_, '_>) -> usize
    ensures { result ≡ size (part_tree part.entry) }
{
    match part {
        Part::Kept(view) => view.len(),
        Part::Changed(value) => changed_count(value),
    }
}

fn changed_count(value: &Edited<'_>) -> usize
    ensures { result ≡ size (tree value.now) }
{
    match value {
        Edited::Kept(view) => view.len(),
        Edited::Array(items) => items.len(),
        Edited::Object(members) => members.len(),
    }
}

/// Puts the items or members of the part on the stack.
fn push_parts<'e, 'd>(
    alloc: Global,
    part: Part<'e, 'd>,
    stack: &mut Vec<Part<'e, 'd>>,
) -> Result<(), AllocError>
    ensures { OnOk result (Spreads (part_tree part.entry) stack.old.items stack.new.items) }
{
    match part {
        Part::Kept(view) => push_kept(alloc, view, stack),
        Part::Changed(value) => push_changed(alloc, value, stack),
    }
}

fn push_changed<'e, 'd>(
    alloc: Global,
    value: &'e Edited<'d>,
    stack: &mut Vec<Part<'e, 'd>>,
) -> Result<(), AllocError>
    ensures { OnOk result (Spreads (tree value.now) stack.old.items stack.new.items) }
{
    match value {
        Edited::Kept(view) => push_kept(alloc, *view, stack),
        Edited::Array(items) => push_items(items, stack),
        Edited::Object(members) => push_members(members, stack),
    }
}

/// The same for a value as it was, which has items, members or neither.
fn push_kept<'e, 'd>(
    alloc: Global,
    view: ValueView<'d>,
    stack: &mut Vec<Part<'e, 'd>>,
) -> Result<(), AllocError>
    ensures { OnOk result (Spreads (tree_of view.entry) stack.old.items stack.new.items) }
{
    push_views(view.items(alloc)?, stack)?;
    push_named(view.members(alloc)?, stack)
}

fn push_views<'e, 'd>(
    views: Vec<ValueView<'d>>,
    stack: &mut Vec<Part<'e, 'd>>,
) -> Result<(), AllocError>
    ensures { OnOk result (Spreads (array (trees_of views.entry.items)) stack.old.items
        stack.new.items) }
{
    let mut views = views;
    while let Some(view) = views.pop() {
        put_part(stack, Part::Kept(view))?;
    }
    Ok(())
}

fn push_named<'e, 'd>(
    named: Vec<MemberView<'d>>,
    stack: &mut Vec<Part<'e, 'd>>,
) -> Result<(), AllocError>
    ensures { OnOk result (Spreads (object (members_of named.entry.items)) stack.old.items
        stack.new.items) }
{
    let mut named = named;
    while let Some(member) = named.pop() {
        put_part(stack, Part::Kept(member.value))?;
    }
    Ok(())
}

fn push_items<'e, 'd>(
    items: &'e VecDeque<Box<Edited<'d>>>,
    stack: &mut Vec<Part<'e, 'd>>,
) -> Result<(), AllocError>
    ensures { OnOk result (Spreads (array (items_tree items.now.items)) stack.old.items
        stack.new.items) }
{
    let mut rest = items.iter();
    while let Some(item) = rest.next() {
        put_part(stack, part_of(item.as_ref()))?;
    }
    Ok(())
}

fn push_members<'e, 'd>(
    members: &'e BTreeMap<String, Edited<'d>>,
    stack: &mut Vec<Part<'e, 'd>>,
) -> Result<(), AllocError>
    ensures { OnOk result (Spreads (object (members_tree members.now.entries)) stack.old.items
        stack.new.items) }
{
    let mut rest = members.iter();
    while let Some((_, member)) = rest.next() {
        put_part(stack, part_of(member))?;
    }
    Ok(())
}

/// Puts the part on the stack if it has parts.
fn put_part<'e, 'd>(stack: &mut Vec<Part<'e, 'd>>, part: Part<'e, 'd>) -> Result<(), AllocError>
    ensures { OnOk result (IsPut part.entry stack.old.items stack.new.items) }
{
    if count_of(part) == 0 {
        return Ok(());
    }
    stack.push(part)?;
    Ok(())
}
