//! The operations of a patch.
ghost use Rattle.std.specs.Prelude.{◌≡◌, Some};
ghost use Rattle.tinyjson.specs.View.{view};
ghost use Rattle.tinyjson_pointer.specs.Tokens.{tokens_of};
ghost use Rattle.tinyjson_patch.specs.Operation.{action_of, applied, added, removed, replaced, moved};
ghost use Rattle.tinyjson_patch.specs.Running.{is_among};
ghost use Rattle.tinyjson_patch.specs.Operation.{stayed, copied, copy_of, tested, Applies, Copies};
ghost use Rattle.tinyjson_patch.specs.Message.{operation_error_message};

use std::alloc::{AllocError, Global};
use std::error::Error;
use std::fmt;
use tinyjson::JsonValue;
use tinyjson_pointer::{InsertError, Pointer};

/// An operation (RFC 6902, section 4).
#[derive(Debug, Drop)]
pub enum Operation {
    /// Inserts the value at the path.
    Add { path: Pointer, value: JsonValue },
    /// Removes the part at the path.
    Remove { path: Pointer },
    /// Replaces the part at the path by the value.
    Replace { path: Pointer, value: JsonValue },
    /// Removes the part at `from`, and inserts it at the path.
    Move { from: Pointer, path: Pointer },
    /// Inserts a copy of the part at `from` at the path.
    Copy { from: Pointer, path: Pointer },
    /// Requires that the part at the path is equal to the value.
    Test { path: Pointer, value: JsonValue },
}

/// Why an operation can't be applied to a value.
#[derive(Clone, Copy, Debug, PartialEq, Eq)]
pub enum Reason {
    /// `path` names no place for an insertion: its container is missing or is a scalar, or the token is no
    /// index of the array, or is past its end.
    NoPlace,
    /// `path` names no part of the value.
    NoTarget,
    /// `from` names no part of the value.
    NoSource,
    /// The whole value is to be removed.
    WholeRemoved,
    /// A part is to be moved into itself.
    IntoItself,
    /// The part at `path` is not equal to the value of the test.
    Different,
}

impl fmt::Display for Reason {
    ghost use Rattle.tinyjson_patch.specs.Operation.{reason_message};

    ghost output = { λ r. Some (reason_message r) };

    fn fmt<W: fmt::Write>(&self, f: &mut fmt::Formatter<W>) -> fmt::Result {
        match self {
            Reason::NoPlace => f.write_str("'path' names no place for a value"),
            Reason::NoTarget => f.write_str("'path' names no value"),
            Reason::NoSource => f.write_str("'from' names no value"),
            Reason::WholeRemoved => f.write_str("the whole value can't be removed"),
            Reason::IntoItself => f.write_str("a value can't be moved into itself"),
            Reason::Different => f.write_str("the value at 'path' is another one"),
        }
    }
}

/// Why an operation was not applied.
#[derive(Clone, Copy, Debug, PartialEq, Eq)]
pub enum OperationError {
    /// It can't be applied.
    Failed(Reason),
    /// An allocation failed.
    OutOfMemory,
}

impl From<AllocError> for OperationError {
    ghost use Rattle.tinyjson_patch.specs.declared.operation.OperationError.{OperationError};

    ghost from_gives = { λ _ e. e ≡ OperationError.OutOfMemory };

    fn from(_: AllocError) -> OperationError {
        OperationError::OutOfMemory
    }
}

impl From<InsertError> for OperationError {
    ghost use Rattle.tinyjson_patch.specs.Message.{failure_of};

    ghost from_gives = { λ i e. e ≡ failure_of i };

    fn from(error: InsertError) -> OperationError {
        match error {
            InsertError::NoPlace => OperationError::Failed(Reason::NoPlace),
            InsertError::OutOfMemory => OperationError::OutOfMemory,
        }
    }
}

impl fmt::Display for OperationError {
    ghost output = { λ e. Some (operation_error_message e) };

    fn fmt<W: fmt::Write>(&self, f: &mut fmt::Formatter<W>) -> fmt::Result {
        match self {
            OperationError::Failed(reason) => reason.fmt(f),
            OperationError::OutOfMemory => f.write_str("out of memory"),
        }
    }
}

impl Error for OperationError {}

impl Operation {
    /// Applies this to the target. After an error the target may have any value.
    ///
    /// ```
    /// operation.apply(alloc, &mut value)?; // a removal of /0: [1,2] is then [2]
    /// ```
    pub fn apply(&self, alloc: Global, target: &mut JsonValue) -> Result<(), OperationError>
        ensures { Applies (applied (action_of self.now) (view target.old))
            result (view target.new) }
    {
        match self {
            Operation::Add { path, value } => add(alloc, target, path, value.try_clone(alloc)?),
            Operation::Remove { path } => remove(target, path),
            Operation::Replace { path, value } => replace(target, path, value.try_clone(alloc)?),
            Operation::Move { from, path } => move_part(alloc, target, from, path),
            Operation::Copy { from, path } => copy(alloc, target, from, path),
            Operation::Test { path, value } => test(target, path, value),
        }
    }

    /// The path of the operation.
    pub(crate) fn path(&self) -> &Pointer {
        match self {
            Operation::Add { path, .. }
            | Operation::Remove { path }
            | Operation::Replace { path, .. }
            | Operation::Move { path, .. }
            | Operation::Copy { path, .. }
            | Operation::Test { path, .. } => path,
        }
    }

    /// Whether all places that this names are in the container in which the pointer names a place.
    pub(crate) fn is_among(&self, place: &Pointer) -> bool
        ensures { result ≡ is_among (tokens_of place.now) (action_of self.now) }
    {
        match self {
            Operation::Move { from, path } | Operation::Copy { from, path } => {
                from.is_beside(place) && path.is_beside(place)
            }
            Operation::Add { path, .. }
            | Operation::Remove { path }
            | Operation::Replace { path, .. }
            | Operation::Test { path, .. } => path.is_beside(place),
        }
    }
}

fn add(
    alloc: Global,
    value: &mut JsonValue,
    path: &Pointer,
    part: JsonValue,
) -> Result<(), OperationError>
    ensures { Applies (added (tokens_of path.now) (view part) (view value.old))
        result (view value.new) }
{
    match path.insert(alloc, value, part) {
        Ok(()) => Ok(()),
        Err(InsertError::NoPlace) => Err(OperationError::Failed(Reason::NoPlace)),
        Err(InsertError::OutOfMemory) => Err(OperationError::OutOfMemory),
    }
}

fn remove(value: &mut JsonValue, path: &Pointer) -> Result<(), OperationError>
    ensures { Applies (removed (tokens_of path.now) (view value.old)) result (view value.new) }
{
    if path.depth() == 0 {
        return Err(OperationError::Failed(Reason::WholeRemoved));
    }
    match path.remove(value) {
        Some(old) => {
            old.dismantle();
            Ok(())
        }
        None => Err(OperationError::Failed(Reason::NoTarget)),
    }
}

fn replace(value: &mut JsonValue, path: &Pointer, part: JsonValue) -> Result<(), OperationError>
    ensures { Applies (replaced (tokens_of path.now) (view part) (view value.old))
        result (view value.new) }
{
    match path.replace(value, part) {
        Ok(old) => {
            old.dismantle();
            Ok(())
        }
        Err(part) => {
            part.dismantle();
            Err(OperationError::Failed(Reason::NoTarget))
        }
    }
}

fn move_part(
    alloc: Global,
    value: &mut JsonValue,
    from: &Pointer,
    path: &Pointer,
) -> Result<(), OperationError>
    ensures { Applies (moved (tokens_of from.now) (tokens_of path.now) (view value.old))
        result (view value.new) }
{
    if path.starts_with(from) {
        if !from.starts_with(path) {
            return Err(OperationError::Failed(Reason::IntoItself));
        }
        return stay(value, from);
    }
    match from.remove(value) {
        Some(part) => add(alloc, value, path, part),
        None => Err(OperationError::Failed(Reason::NoSource)),
    }
}

/// Moves a part to its own place.
fn stay(value: &JsonValue, from: &Pointer) -> Result<(), OperationError>
    ensures { Applies (stayed (tokens_of from.now) (view value.now)) result (view value.now) }
{
    match from.find(value) {
        Some(_) => Ok(()),
        None => Err(OperationError::Failed(Reason::NoSource)),
    }
}

fn copy(
    alloc: Global,
    value: &mut JsonValue,
    from: &Pointer,
    path: &Pointer,
) -> Result<(), OperationError>
    ensures { Applies (copied (tokens_of from.now) (tokens_of path.now) (view value.old))
        result (view value.new) }
{
    let part = copy_of(alloc, value, from)?;
    add(alloc, value, path, part)
}

/// A copy of the part.
fn copy_of(alloc: Global, value: &JsonValue, from: &Pointer) -> Result<JsonValue, OperationError>
    ensures { Copies (copy_of (tokens_of from.now) (view value.now)) result }
{
    match from.find(value) {
        Some(part) => Ok(part.try_clone(alloc)?),
        None => Err(OperationError::Failed(Reason::NoSource)),
    }
}

fn test(value: &JsonValue, path: &Pointer, expected: &JsonValue) -> Result<(), OperationError>
    ensures { Applies (tested (tokens_of path.now) (view expected.now) (view value.now))
        result (view value.now) }
{
    let Some(part) = path.find(value) else {
        return Err(OperationError::Failed(Reason::NoTarget));
    };
    if part != expected {
        return Err(OperationError::Failed(Reason::Different));
    }
    Ok(())
}
