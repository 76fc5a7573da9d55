//! Why a patch was not applied.
ghost use Rattle.std.specs.Prelude.{◌≡◌, Some};
ghost use Rattle.tinyjson_patch.specs.Copies.{edit_error_message};

use crate::operation::Reason;
use std::alloc::AllocError;
use std::error::Error;
use std::fmt;

/// Why a patch was not applied to a document.
#[derive(Clone, Copy, Debug, PartialEq, Eq)]
pub enum EditError {
    /// The operation with this index can't be applied to the result of those before it. Indices begin at 0.
    Failed(usize, Reason),
    /// The copies of the patch copy more values than they may.
    TooMuch,
    /// An allocation failed.
    OutOfMemory,
}

impl From<AllocError> for EditError {
    ghost use Rattle.tinyjson_patch.specs.declared.edit.error.EditError.{EditError};

    ghost from_gives = { λ _ e. e ≡ EditError.OutOfMemory };

    fn from(_: AllocError) -> EditError {
        EditError::OutOfMemory
    }
}

impl fmt::Display for EditError {
    ghost output = { λ e. Some (edit_error_message e) };

    fn fmt<W: fmt::Write>(&self, f: &mut fmt::Formatter<W>) -> fmt::Result {
        match self {
            EditError::Failed(number, reason) => write!(f, "operation {number}: {reason}"),
            EditError::TooMuch => f.write_str("the patch copies too many values"),
            EditError::OutOfMemory => f.write_str("out of memory"),
        }
    }
}

impl Error for EditError {}
