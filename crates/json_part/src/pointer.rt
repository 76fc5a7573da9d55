//! The pointer that the arguments name.
ghost use Rattle.std.specs.Str.{chars};
ghost use Rattle.json_part.specs.Part.{IsPointerFailure, ReadsPointer};

use std::alloc::Global;
use tinyjson_cli::Failure;
use tinyjson_pointer::{Pointer, PointerError};

/// The pointer of this text, or the failure that its message is.
pub fn read_pointer(alloc: Global, text: &str) -> Result<Pointer, Failure>
    ensures { ReadsPointer (chars text.now) result }
{
    match Pointer::parse(alloc, text) {
        Ok(pointer) => Ok(pointer),
        Err(error) => Err(pointer_failure(alloc, error)),
    }
}

/// The failure for a text that is no pointer.
fn pointer_failure(alloc: Global, error: PointerError) -> Failure
    ensures { IsPointerFailure error result }
{
    let Ok(words) = error.to_string(alloc) else {
        return Failure::OutOfMemory;
    };
    match error {
        PointerError::OutOfMemory => Failure::OutOfMemory,
        _ => Failure::Misused(words),
    }
}
