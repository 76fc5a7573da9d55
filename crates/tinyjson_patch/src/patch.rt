//! A patch, which is applied as a whole or not at all.
ghost use Rattle.std.specs.Prelude.{◌≡◌, Some};
ghost use Rattle.tinyjson.specs.View.{view};
ghost use Rattle.tinyjson_patch.specs.Message.{apply_error_message};
ghost use Rattle.tinyjson_patch.specs.Patch.{actions_of, all_applied, AppliesAll, RunsAll};

use crate::operation::{Operation, Reason};
use crate::run::{apply_beside, apply_one};
use std::alloc::{AllocError, Global};
use std::error::Error;
use std::{fmt, mem};
use tinyjson::JsonValue;

/// A JSON Patch (RFC 6902): operations that are applied one after the other.
#[derive(Debug, Drop)]
pub struct Patch {
    pub operations: Vec<Operation>,
}

/// Why a patch was not applied.
#[derive(Clone, Copy, Debug, PartialEq, Eq)]
pub enum ApplyError {
    /// The operation with this index can't be applied to the result of those before it. Indices begin at 0.
    Failed(usize, Reason),
    /// An allocation failed.
    OutOfMemory,
}

impl From<AllocError> for ApplyError {
    ghost use Rattle.tinyjson_patch.specs.declared.patch.ApplyError.{ApplyError};

    ghost from_gives = { λ _ e. e ≡ ApplyError.OutOfMemory };

    fn from(_: AllocError) -> ApplyError {
        ApplyError::OutOfMemory
    }
}

impl fmt::Display for ApplyError {
    ghost output = { λ e. Some (apply_error_message e) };

    fn fmt<W: fmt::Write>(&self, f: &mut fmt::Formatter<W>) -> fmt::Result {
        match self {
            ApplyError::Failed(number, reason) => write!(f, "operation {number}: {reason}"),
            ApplyError::OutOfMemory => f.write_str("out of memory"),
        }
    }
}

impl Error for ApplyError {}

impl Patch {
    /// Applies all operations to the value (RFC 6902, section 5). After an error the value is unchanged.
    ///
    /// It applies them to a copy, so it takes the time and the memory of a copy, which
    /// [`Patch::apply_in_place`] saves. An operation recurses once for each token of its pointers.
    ///
    /// ```
    /// patch.apply(alloc, &mut value)?; // [1,2] by [{"op":"remove","path":"/0"}] is then [2]
    /// ```
    pub fn apply(&self, alloc: Global, value: &mut JsonValue) -> Result<(), ApplyError>
        ensures { AppliesAll (all_applied 0 (actions_of self.now) (view value.old))
            (view value.old) result (view value.new) }
    {
        let mut changed = value.try_clone(alloc)?;
        match self.apply_in_place(alloc, &mut changed) {
            Ok(()) => {
                mem::replace(value, changed).dismantle();
                Ok(())
            }
            Err(error) => {
                changed.dismantle();
                Err(error)
            }
        }
    }

    /// Applies all operations to the value itself (RFC 6902, section 5), with the results and the errors of
    /// [`Patch::apply`]. After an error the value may be any value: it is for those who then give it up.
    ///
    /// ```
    /// patch.apply_in_place(alloc, &mut value)?; // [1,2] by [{"op":"remove","path":"/0"}] is then [2]
    /// ```
    pub fn apply_in_place(&self, alloc: Global, value: &mut JsonValue) -> Result<(), ApplyError>
        ensures { RunsAll (all_applied 0 (actions_of self.now) (view value.old))
            result (view value.new) }
    {
        let total = self.operations.len();
        let mut rest = self.operations.as_slice();
        while let Some((operation, others)) = rest.split_first() {
            apply_one(alloc, operation, total - rest.len(), value)?;
            rest = apply_beside(alloc, operation, others, total, value)?;
        }
        Ok(())
    }
}
