//! The patches that the arguments name.
ghost use Rattle.std.specs.Prelude.{length};
ghost use Rattle.std.specs.Str.{chars};
ghost use Rattle.json_merge.specs.Reading.{ReadsFiles, ReadsMergePatch};

use std::alloc::Global;
use tinyjson_cli::{Failure, named_text_failure, read_named};
use tinyjson_document::Document;

/// The patches of these files, in order.
pub fn read_patches(rt: &HostRuntime, files: &[&str]) -> Result<Vec<Document>, Failure>
    ensures { ReadsFiles (length files.now) result }
{
    let mut patches = Vec::new(rt.alloc());
    for file in files {
        let text = read_named(rt, file)?;
        let patch = read_patch(rt.alloc(), text.as_str())?;
        if patches.push(patch).is_err() {
            return Err(Failure::OutOfMemory);
        }
    }
    Ok(patches)
}

/// The patch of a text.
fn read_patch(alloc: Global, text: &str) -> Result<Document, Failure>
    ensures { ReadsMergePatch (chars text.now) result }
{
    match Document::read(alloc, text) {
        Ok(patch) => Ok(patch),
        Err(error) => Err(named_text_failure(alloc, "the patch", error)),
    }
}
