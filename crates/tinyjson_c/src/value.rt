//! Values that are changed: parsed from texts, and written in normal form.
ghost use Rattle.std.specs.Prelude.{◌≡◌, ◌++◌, IfOk, MatchResult, OnOk, Some, encode_utf8_all};
ghost use Rattle.tinyjson.specs.View.{view};
ghost use Rattle.tinyjson.specs.Words.{compact};
ghost use Rattle.tinyjson_c.specs.Stop.{IsStopped, IsTextOf};

use crate::stop::{Stop, text_of};
use std::alloc::{AllocError, Global};
use tinyjson::JsonValue;

/// The value of a text with at most `depth` nested containers.
pub(crate) fn read(alloc: Global, bytes: &[u8], depth: usize) -> Result<JsonValue, Stop>
    ensures { MatchResult result (λ v. IsTextOf (Some depth) bytes.now (view v))
        (IsStopped (Some depth) bytes.now) }
{
    let text = match text_of(bytes) {
        Ok(text) => text,
        Err(stop) => return Err(stop),
    };
    match JsonValue::from_str_with_depth_limit(alloc, text, depth) {
        Ok(value) => Ok(value),
        Err(error) => Err(Stop::of(error)),
    }
}

/// The normal form of a value.
pub(crate) fn written(alloc: Global, value: &JsonValue) -> Result<Vec<u8>, AllocError>
    ensures { IfOk result (λ v. v.items ≡ encode_utf8_all (compact (view value.now))) }
{
    let mut written = Vec::new(alloc);
    push_value(alloc, value, &mut written)?;
    Ok(written)
}

/// Appends the normal form of a value.
pub(crate) fn push_value(
    alloc: Global,
    value: &JsonValue,
    written: &mut Vec<u8>,
) -> Result<(), AllocError>
    ensures { OnOk result (written.new.items
        ≡ written.old.items ++ encode_utf8_all (compact (view value.now))) }
{
    match value.write_to(alloc, written) {
        Ok(()) => Ok(()),
        Err(_) => Err(AllocError),
    }
}
