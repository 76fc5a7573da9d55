//! The old text that the arguments name.
ghost use Rattle.std.specs.Str.{chars};
ghost use Rattle.json_diff.specs.Reading.{ReadsOld, ReadsOldFile};

use std::alloc::Global;
use tinyjson_cli::{Failure, named_text_failure, read_named};
use tinyjson_document::Document;

/// How many containers may be nested in a text: comparing and freeing values take stack with their nesting.
pub const TEXT_DEPTH: usize = 1_000;

/// The document of this file.
pub fn read_old(rt: &HostRuntime, file: &str) -> Result<Document, Failure>
    ensures { ReadsOldFile result }
{
    let text = read_named(rt, file)?;
    old_of(rt.alloc(), text.as_str())
}

/// The document of a text, of at most 1,000 nested containers.
fn old_of(alloc: Global, text: &str) -> Result<Document, Failure>
    ensures { ReadsOld (chars text.now) result }
{
    match Document::read_with_depth_limit(alloc, text, TEXT_DEPTH) {
        Ok(old) => Ok(old),
        Err(error) => Err(named_text_failure(alloc, "the old text", error)),
    }
}
