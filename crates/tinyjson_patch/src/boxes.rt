//! Items in boxes, so that moving an item moves a pointer.
ghost use Rattle.std.specs.Box.{box_value};
ghost use Rattle.std.specs.Prelude.{◌≡◌, ◌∷◌, ◌++◌, [], IfOk, OnOk, map};

use std::alloc::{AllocError, Global};
use std::collections::VecDeque;
use tinyjson::JsonValue;

/// Puts each item into a box. If memory runs out, all are freed.
pub(crate) fn boxed(
    alloc: Global,
    items: VecDeque<JsonValue>,
) -> Result<VecDeque<Box<JsonValue>>, AllocError>
    ensures { IfOk result (λ boxes. map box_value boxes.items ≡ items.items) }
{
    let mut rest = items;
    let mut boxes = VecDeque::new(alloc);
    while let Some(item) = rest.pop_front() {
        if let Err(error) = push(alloc, &mut boxes, item) {
            JsonValue::Array(Vec::from(rest)).dismantle();
            release(boxes);
            return Err(error);
        }
    }
    Ok(boxes)
}

/// Takes each item out of its box. If memory runs out, all are freed.
pub(crate) fn unboxed(
    alloc: Global,
    boxes: VecDeque<Box<JsonValue>>,
) -> Result<VecDeque<JsonValue>, AllocError>
    ensures { IfOk result (λ items. items.items ≡ map box_value boxes.items) }
{
    let mut rest = boxes;
    let mut items = VecDeque::new(alloc);
    while let Some(item) = rest.pop_front() {
        if let Err(refused) = items.push_back(Box::into_inner(item)) {
            refused.value.dismantle();
            JsonValue::Array(Vec::from(items)).dismantle();
            release(rest);
            return Err(AllocError);
        }
    }
    Ok(items)
}

/// Takes the value out of a box. If memory runs out, it is freed.
pub(crate) fn boxed_value(alloc: Global, value: JsonValue) -> Result<Box<JsonValue>, AllocError>
    ensures { IfOk result (λ item. box_value item ≡ value) }
{
    match Box::new(alloc, value) {
        Ok(item) => Ok(item),
        Err(refused) => {
            refused.value.dismantle();
            Err(AllocError)
        }
    }
}

/// Frees a box and its value, which may be nested to any depth.
pub(crate) fn free(item: Box<JsonValue>) {
    Box::into_inner(item).dismantle();
}

fn push(
    alloc: Global,
    boxes: &mut VecDeque<Box<JsonValue>>,
    item: JsonValue,
) -> Result<(), AllocError>
    ensures { OnOk result
        (map box_value boxes.new.items ≡ map box_value boxes.old.items ++ item ∷ []) }
{
    match boxes.push_back(boxed_value(alloc, item)?) {
        Ok(()) => Ok(()),
        Err(refused) => {
            free(refused.value);
            Err(AllocError)
        }
    }
}

fn release(boxes: VecDeque<Box<JsonValue>>) {
    let mut rest = boxes;
    while let Some(item) = rest.pop_front() {
        free(item);
    }
}
