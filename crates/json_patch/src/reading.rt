//! The patch that the arguments name.
ghost use Rattle.std.specs.Str.{chars};
ghost use Rattle.tinyjson.specs.View.{view};
ghost use Rattle.json_patch.specs.Reading.{IsNoPatch, ReadsDocument, ReadsPatchText};
ghost use Rattle.json_patch.specs.Reading.{ReadsPatchFile, patch_depth};

use std::alloc::Global;
use tinyjson::JsonValue;
use tinyjson_cli::{Failure, named_text_failure, read_named};
use tinyjson_patch::{Patch, PatchError};

/// How many containers may be nested in a patch: freeing it takes stack with its nesting.
const PATCH_DEPTH: usize = 1_000;

/// The patch of this file.
pub fn read_patch(rt: &HostRuntime, file: &str) -> Result<Patch, Failure>
    ensures { ReadsPatchFile result }
{
    let text = read_named(rt, file)?;
    patch_of(rt.alloc(), text.as_str())
}

/// The patch of a text, of at most 1,000 nested containers.
fn patch_of(alloc: Global, text: &str) -> Result<Patch, Failure>
    ensures { ReadsPatchText (chars text.now) result }
{
    match JsonValue::from_str_with_depth_limit(alloc, text, PATCH_DEPTH) {
        Ok(document) => patch_of_document(alloc, &document),
        Err(error) => Err(named_text_failure(alloc, "the patch", error)),
    }
}

fn patch_of_document(alloc: Global, document: &JsonValue) -> Result<Patch, Failure>
    ensures { ReadsDocument (view document.now) result }
{
    match Patch::from_value(alloc, document) {
        Ok(patch) => Ok(patch),
        Err(error) => Err(document_failure(alloc, error)),
    }
}

/// The failure for a document that is no patch.
fn document_failure(alloc: Global, error: PatchError) -> Failure
    ensures { IsNoPatch error result }
{
    if let PatchError::OutOfMemory = error {
        return Failure::OutOfMemory;
    }
    match format!(in alloc; "the patch: {error}") {
        Ok(words) => Failure::Misused(words),
        Err(_) => Failure::OutOfMemory,
    }
}
