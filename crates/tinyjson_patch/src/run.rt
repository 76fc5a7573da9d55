//! Applies operations in order. For many in a row on the items of one array, these are moved into a queue of
//! boxes.
ghost use Rattle.std.specs.Prelude.{◌≡◌, ◌≤◌, IsSome, map, length};
ghost use Rattle.tinyjson.specs.Soundness.{IsTree};
ghost use Rattle.tinyjson.specs.Tree.{Tree};
ghost use Rattle.tinyjson.specs.View.{view};
ghost use Rattle.tinyjson_pointer.specs.Siblings.{container_at};
ghost use Rattle.tinyjson_pointer.specs.Tokens.{tokens_of};
ghost use Rattle.tinyjson_patch.specs.Operation.{action_of, applied};
ghost use Rattle.tinyjson_patch.specs.Running.{Follows, RunsFirst, with_boxes};

use crate::among::apply_to_items;
use crate::boxes::{boxed, unboxed};
use crate::operation::{Operation, OperationError};
use crate::patch::ApplyError;
use std::alloc::Global;
use std::collections::VecDeque;
use tinyjson::JsonValue;
use tinyjson_pointer::Pointer;

/// From this many operations in a row on the items of one array, the items are moved into boxes, which takes
/// the time of some operations.
const MANY: usize = 32;

/// Applies the operation with this number.
pub(crate) fn apply_one(
    alloc: Global,
    operation: &Operation,
    number: usize,
    value: &mut JsonValue,
) -> Result<(), ApplyError>
    ensures { Follows number (applied (action_of operation.now) (view value.old))
        result (view value.new) }
{
    match operation.apply(alloc, value) {
        Ok(()) => Ok(()),
        Err(OperationError::Failed(reason)) => Err(ApplyError::Failed(number, reason)),
        Err(OperationError::OutOfMemory) => Err(ApplyError::OutOfMemory),
    }
}

/// Applies the first operations of the list, if many are on the items of the array in which this one names a
/// place. Returns the others. The whole patch has `count` operations.
pub(crate) fn apply_beside<'o>(
    alloc: Global,
    operation: &Operation,
    others: &'o [Operation],
    total: usize,
    value: &mut JsonValue,
) -> Result<&'o [Operation], ApplyError>
    requires { length others.now ≤ total }
    ensures { RunsFirst total (map action_of others.now) (view value.old)
        result (view value.new) }
{
    let place = operation.path();
    if !are_many_among(place, others) {
        return Ok(others);
    }
    let Some(items) = place.take_items(value) else {
        return Ok(others);
    };
    let mut boxes = boxed(alloc, items)?;
    let answer = apply_among(alloc, place, others, total, &mut boxes);
    place.put_items(value, unboxed(alloc, boxes)?);
    answer
}

/// Whether many operations in a row are on the items of the array in which the pointer names a place.
fn are_many_among(place: &Pointer, operations: &[Operation]) -> bool {
    let Some(first) = operations.get(..MANY) else {
        return false;
    };
    for operation in first {
        if !operation.is_among(place) {
            return false;
        }
    }
    true
}

/// Applies the operations to the items of the array in which the pointer names a place, up to the first that
/// is on something else.
fn apply_among<'o>(
    alloc: Global,
    place: &Pointer,
    operations: &'o [Operation],
    total: usize,
    items: &mut VecDeque<Box<JsonValue>>,
) -> Result<&'o [Operation], ApplyError>
    requires { length operations.now ≤ total }
    ensures { (t : Tree) → IsTree t → IsSome (container_at t (tokens_of place.now)) →
        RunsFirst total (map action_of operations.now)
        (with_boxes t (tokens_of place.now) items.old.items) result
        (with_boxes t (tokens_of place.now) items.new.items) }
{
    let mut rest = operations;
    while let Some((operation, others)) = rest.split_first() {
        if !operation.is_among(place) {
            return Ok(rest);
        }
        match apply_to_items(alloc, operation, items) {
            Ok(()) => rest = others,
            Err(OperationError::Failed(reason)) => {
                return Err(ApplyError::Failed(total - rest.len(), reason));
            }
            Err(OperationError::OutOfMemory) => return Err(ApplyError::OutOfMemory),
        }
    }
    Ok(rest)
}
