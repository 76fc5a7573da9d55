//! Compares values with an old one.
ghost use Rattle.std.specs.Prelude.{◌≡◌, IfOk, string_bytes};
ghost use Rattle.tinyjson_cli.specs.Texts.{Answers};
ghost use Rattle.tinyjson_document.specs.Document.{document_tree, tree};
ghost use Rattle.tinyjson_pointer.specs.Tokens.{tokens_of};
ghost use Rattle.json_diff.specs.Compare.{GivesMergePatch, GivesPatchOf};
ghost use Rattle.json_diff.specs.Compare.{no_patch_message};

use std::alloc::{AllocError, Global};
use std::io::{self, ErrorKind, Write};
use tinyjson_cli::{NoAnswer, Shown, ValueTool, write_laid_out};
use tinyjson_diff::{NoMergePatch, merge_diff, patch_diff};
use tinyjson_document::{Document, Node};
use tinyjson_pointer::Pointer;

/// What is asked of each value: the patch that leads to it from an old one.
#[derive(Drop)]
pub struct Comparison {
    /// The old value.
    pub old: Document,
    /// Whether the patch is a merge patch (RFC 7396), or else a JSON Patch (RFC 6902).
    pub is_merge: bool,
    /// Whether its text is indented with two spaces.
    pub is_indented: bool,
}

#[derive(Clone, Copy)]
struct Asked<'a> {
    old: Node<'a>,
    is_merge: bool,
    is_indented: bool,
}

/// ```
/// comparison.answer_value(alloc, new, len, &mut output)?; // from {"a":1} to {"b":2}, a merge patch: writes {"a":null,"b":2}
/// ```
impl ValueTool for Comparison {
    ghost gives = { λ a _ t f. GivesPatchOf a.is_merge a.is_indented (document_tree a.old) t f };

    fn answer_value<W: Write>(
        &self,
        alloc: Global,
        new: Node<'_>,
        _: usize,
        output: &mut W,
    ) -> io::Result<Option<NoAnswer>> {
        let asked = Asked {
            old: self.old.root(),
            is_merge: self.is_merge,
            is_indented: self.is_indented,
        };
        answer(alloc, asked, new, output)
    }
}

/// Writes the text of the patch that leads to a value.
fn answer<W: Write>(
    alloc: Global,
    asked: Asked<'_>,
    new: Node<'_>,
    output: &mut W,
) -> io::Result<Option<NoAnswer>>
    ensures { Answers (GivesPatchOf asked.entry.is_merge asked.entry.is_indented
        (tree asked.entry.old) (tree new.entry))
        (W.contents output.old) (W.contents output.new) result }
{
    if asked.is_merge {
        return answer_merge(alloc, asked, new, output);
    }
    let patch = patch_diff(alloc, asked.old, new)?;
    write_laid_out(alloc, &patch, asked.is_indented, output)?;
    Ok(None)
}

/// Writes the text of the merge patch that leads to a value.
fn answer_merge<W: Write>(
    alloc: Global,
    asked: Asked<'_>,
    new: Node<'_>,
    output: &mut W,
) -> io::Result<Option<NoAnswer>>
    ensures { Answers (GivesMergePatch asked.entry.is_indented (tree asked.entry.old)
        (tree new.entry)) (W.contents output.old) (W.contents output.new) result }
{
    match merge_diff(alloc, asked.old, new) {
        Ok(patch) => {
            write_laid_out(alloc, &patch, asked.is_indented, output)?;
            Ok(None)
        }
        Err(NoMergePatch::Null(place)) => {
            let words = no_patch_words(alloc, &place)?;
            Ok(Some(NoAnswer::No(words)))
        }
        Err(NoMergePatch::OutOfMemory) => Err(io::Error::from(ErrorKind::OutOfMemory)),
    }
}

/// The words for the place of a `null` that no patch puts there.
fn no_patch_words(alloc: Global, place: &Pointer) -> Result<String, AllocError>
    ensures { IfOk result (λ w. string_bytes w ≡ no_patch_message (tokens_of place.now)) }
{
    let place = format!(in alloc; "{place}")?;
    format!(in alloc;
        "no merge patch sets a member to null: {}",
        Shown(place.as_str())
    )
}
