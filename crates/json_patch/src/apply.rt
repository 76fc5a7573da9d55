//! Applies a patch to values.
ghost use Rattle.std.specs.Prelude.{◌≡◌, true, false};
ghost use Rattle.tinyjson_cli.specs.Texts.{Answers};
ghost use Rattle.tinyjson_document.specs.Document.{tree};
ghost use Rattle.tinyjson_patch.specs.Patch.{actions_of};
ghost use Rattle.json_patch.specs.Apply.{GivesPatched, TellsFailure, copy_limit};

use std::alloc::Global;
use std::io::{self, ErrorKind, Write};
use tinyjson_cli::{NoAnswer, ValueTool};
use tinyjson_document::Node;
use tinyjson_lines::write_all;
use tinyjson_patch::{EditError, Patch, patch_document, write_patched};

/// How many values the copies of a patch may copy for any text.
const COPIES: usize = 1_000_000;

/// How many more for each byte of the text.
const COPIES_A_BYTE: usize = 4;

/// What is asked of each value: a patch applied (RFC 6902).
#[derive(Clone, Copy)]
pub struct Asked<'a> {
    pub patch: &'a Patch,
    /// Whether the text of the result is indented with two spaces.
    pub is_indented: bool,
}

/// ```
/// asked.answer_value(alloc, value, len, &mut output)?; // of {"a":1,"b":2}, by the removal of /a: writes {"b":2}
/// ```
impl ValueTool for Asked<'_> {
    ghost gives = { λ a n t f. GivesPatched (copy_limit n) a.is_indented
        (actions_of a.patch.now) t f };

    fn answer_value<W: Write>(
        &self,
        alloc: Global,
        value: Node<'_>,
        len: usize,
        output: &mut W,
    ) -> io::Result<Option<NoAnswer>> {
        let most = copies_for(len);
        if self.is_indented {
            return answer_indented(alloc, self.patch, value, most, output);
        }
        answer_compact(alloc, self.patch, value, most, output)
    }
}

/// How many values the copies of a patch may copy, by the number of bytes that the text has.
fn copies_for(length: usize) -> usize
    ensures { result ≡ copy_limit length }
{
    COPIES.saturating_add(length.saturating_mul(COPIES_A_BYTE))
}

/// Writes the indented text of a value with the patch applied.
fn answer_indented<W: Write>(
    alloc: Global,
    patch: &Patch,
    value: Node<'_>,
    most: usize,
    output: &mut W,
) -> io::Result<Option<NoAnswer>>
    ensures { Answers (GivesPatched most true (actions_of patch.now) (tree value.entry))
        (W.contents output.old) (W.contents output.new) result }
{
    match patch_document(alloc, patch, value, most) {
        Ok(patched) => {
            patched.root().format_line_to(alloc, output)?;
            Ok(None)
        }
        Err(error) => answer_failure(alloc, error, most),
    }
}

/// Writes the compact text of a value with the patch applied.
fn answer_compact<W: Write>(
    alloc: Global,
    patch: &Patch,
    value: Node<'_>,
    most: usize,
    output: &mut W,
) -> io::Result<Option<NoAnswer>>
    ensures { Answers (GivesPatched most false (actions_of patch.now) (tree value.entry))
        (W.contents output.old) (W.contents output.new) result }
{
    match write_patched(alloc, patch, value, most, output) {
        Ok(written) => {
            written?;
            write_all(output, b"\n")?;
            Ok(None)
        }
        Err(error) => answer_failure(alloc, error, most),
    }
}

/// Why there is no answer where the patch can't be applied, or copies more than `most` values.
fn answer_failure(alloc: Global, error: EditError, most: usize) -> io::Result<Option<NoAnswer>>
    ensures { TellsFailure most error result }
{
    match error {
        EditError::Failed(number, reason) => {
            let words = format!(in alloc; "operation {number}: {reason}")?;
            Ok(Some(NoAnswer::No(words)))
        }
        EditError::TooMuch => {
            let words = format!(in alloc; "the patch copies more than {most} values")?;
            Ok(Some(NoAnswer::Failed(words)))
        }
        EditError::OutOfMemory => Err(io::Error::from(ErrorKind::OutOfMemory)),
    }
}
