//! Applies operations to the items of an array, which are in boxes outside of their value.
ghost use Rattle.std.specs.Box.{box_value};
ghost use Rattle.tinyjson.specs.View.{view};
ghost use Rattle.tinyjson_pointer.specs.Tokens.{tokens_of};
ghost use Rattle.tinyjson_patch.specs.Operation.{action_of, add, remove, replace, move, copy, test};
ghost use Rattle.tinyjson_patch.specs.Running.{AppliesAmong};

use crate::boxes::{boxed_value, free};
use crate::operation::{Operation, OperationError, Reason};
use std::alloc::Global;
use std::collections::VecDeque;
use tinyjson::JsonValue;
use tinyjson_pointer::{InsertError, Pointer};

/// Applies the operation to the items. After an error they may be in any state.
pub(crate) fn apply_to_items(
    alloc: Global,
    operation: &Operation,
    items: &mut VecDeque<Box<JsonValue>>,
) -> Result<(), OperationError>
    ensures { AppliesAmong (action_of operation.now) items.old.items result items.new.items }
{
    match operation {
        Operation::Add { path, value } => {
            insert(path, items, boxed_value(alloc, value.try_clone(alloc)?)?)
        }
        Operation::Remove { path } => remove_item(path, items),
        Operation::Replace { path, value } => {
            replace_item(path, items, boxed_value(alloc, value.try_clone(alloc)?)?)
        }
        Operation::Move { from, path } => move_item(from, path, items),
        Operation::Copy { from, path } => copy_item(alloc, from, path, items),
        Operation::Test { path, value } => test_item(path, items, value),
    }
}

fn insert(
    path: &Pointer,
    items: &mut VecDeque<Box<JsonValue>>,
    item: Box<JsonValue>,
) -> Result<(), OperationError>
    ensures { AppliesAmong (add (tokens_of path.now) (view (box_value item)))
        items.old.items result items.new.items }
{
    match path.insert_in(items, item) {
        Ok(()) => Ok(()),
        Err(InsertError::NoPlace) => Err(OperationError::Failed(Reason::NoPlace)),
        Err(InsertError::OutOfMemory) => Err(OperationError::OutOfMemory),
    }
}

fn remove_item(path: &Pointer, items: &mut VecDeque<Box<JsonValue>>) -> Result<(), OperationError>
    ensures { AppliesAmong (remove (tokens_of path.now)) items.old.items result items.new.items }
{
    match path.remove_from(items) {
        Some(old) => {
            free(old);
            Ok(())
        }
        None => Err(OperationError::Failed(Reason::NoTarget)),
    }
}

fn replace_item(
    path: &Pointer,
    items: &mut VecDeque<Box<JsonValue>>,
    item: Box<JsonValue>,
) -> Result<(), OperationError>
    ensures { AppliesAmong (replace (tokens_of path.now) (view (box_value item)))
        items.old.items result items.new.items }
{
    match path.remove_from(items) {
        Some(old) => {
            free(old);
            insert(path, items, item)
        }
        None => {
            free(item);
            Err(OperationError::Failed(Reason::NoTarget))
        }
    }
}

fn move_item(
    from: &Pointer,
    path: &Pointer,
    items: &mut VecDeque<Box<JsonValue>>,
) -> Result<(), OperationError>
    ensures { AppliesAmong (move (tokens_of from.now) (tokens_of path.now))
        items.old.items result items.new.items }
{
    if path.starts_with(from) {
        if !from.starts_with(path) {
            return Err(OperationError::Failed(Reason::IntoItself));
        }
        return match from.find_in(items) {
            Some(_) => Ok(()),
            None => Err(OperationError::Failed(Reason::NoSource)),
        };
    }
    match from.remove_from(items) {
        Some(item) => insert(path, items, item),
        None => Err(OperationError::Failed(Reason::NoSource)),
    }
}

fn copy_item(
    alloc: Global,
    from: &Pointer,
    path: &Pointer,
    items: &mut VecDeque<Box<JsonValue>>,
) -> Result<(), OperationError>
    ensures { AppliesAmong (copy (tokens_of from.now) (tokens_of path.now))
        items.old.items result items.new.items }
{
    let Some(part) = from.find_in(items) else {
        return Err(OperationError::Failed(Reason::NoSource));
    };
    let item = boxed_value(alloc, part.try_clone(alloc)?)?;
    insert(path, items, item)
}

fn test_item(
    path: &Pointer,
    items: &VecDeque<Box<JsonValue>>,
    expected: &JsonValue,
) -> Result<(), OperationError>
    ensures { AppliesAmong (test (tokens_of path.now) (view expected.now))
        items.now.items result items.now.items }
{
    let Some(part) = path.find_in(items) else {
        return Err(OperationError::Failed(Reason::NoTarget));
    };
    if part == expected {
        return Ok(());
    }
    Err(OperationError::Failed(Reason::Different))
}
