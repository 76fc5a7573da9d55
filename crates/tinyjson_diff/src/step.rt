//! The operations of a patch while they are found.
ghost use Rattle.std.specs.Prelude.{◌≡◌, ◌∷◌, ◌++◌, [], IfOk, OnOk, Some};
ghost use Rattle.std.specs.Str.{chars};
ghost use Rattle.tinyjson.specs.View.{view};
ghost use Rattle.tinyjson_patch.specs.Operation.{add, remove};
ghost use Rattle.tinyjson_pointer.specs.Index.{index_of};
ghost use Rattle.tinyjson_pointer.specs.Tokens.{tokens_of};
ghost use Rattle.tinyjson_diff.specs.Steps.{action_of, AppendsBelow, IsStepAt};

use std::alloc::{AllocError, Global};
use std::collections::VecDeque;
use tinyjson::JsonValue;
use tinyjson_pointer::Pointer;

/// What an operation does at its path.
#[derive(Drop)]
pub(crate) enum Change {
    Add(JsonValue),
    Remove,
    Replace(JsonValue),
}

/// An operation of a patch.
#[derive(Drop)]
pub(crate) struct Step {
    pub(crate) path: Pointer,
    pub(crate) change: Change,
}

/// The change of the member at the key.
pub(crate) fn at_key(alloc: Global, key: &str, change: Change) -> Result<Step, AllocError>
    ensures { IfOk result (λ step. IsStepAt (λ k. k ≡ chars key.now) change step) }
{
    let mut path = Pointer::root(alloc);
    path.prepend(String::from_str(alloc, key)?)?;
    Ok(Step { path, change })
}

/// The change of the item at the index.
pub(crate) fn at_index(alloc: Global, index: usize, change: Change) -> Result<Step, AllocError>
    ensures { IfOk result (λ step. IsStepAt (λ k. index_of k ≡ Some index) change step) }
{
    let mut path = Pointer::root(alloc);
    path.prepend_index(alloc, index)?;
    Ok(Step { path, change })
}

/// Appends the steps of a member's value, as steps of the object.
pub(crate) fn append_of_member(
    alloc: Global,
    steps: &mut Vec<Step>,
    key: &str,
    inner: Vec<Step>,
) -> Result<(), AllocError>
    ensures { OnOk result (AppendsBelow (λ k. k ≡ chars key.now)
        steps.old.items inner.items steps.new.items) }
{
    let mut rest = VecDeque::from_vec(inner);
    while let Some(step) = rest.pop_front() {
        let mut step = step;
        step.path.prepend(String::from_str(alloc, key)?)?;
        steps.push(step)?;
    }
    Ok(())
}

/// Appends the steps of an item, as steps of the array.
pub(crate) fn append_of_item(
    alloc: Global,
    steps: &mut Vec<Step>,
    index: usize,
    inner: Vec<Step>,
) -> Result<(), AllocError>
    ensures { OnOk result (AppendsBelow (λ k. index_of k ≡ Some index)
        steps.old.items inner.items steps.new.items) }
{
    let mut rest = VecDeque::from_vec(inner);
    while let Some(step) = rest.pop_front() {
        let mut step = step;
        step.path.prepend_index(alloc, index)?;
        steps.push(step)?;
    }
    Ok(())
}
