//! Applies merge patches to values.
ghost use Rattle.std.specs.Prelude.{◌≡◌, ◌∷◌, IfOk, false, map, true};
ghost use Rattle.tinyjson.specs.Written.{WritesPrefix};
ghost use Rattle.tinyjson_cli.specs.Layout.{laid_out};
ghost use Rattle.tinyjson_cli.specs.Texts.{Answers};
ghost use Rattle.tinyjson_document.specs.Document.{document_tree, tree};
ghost use Rattle.tinyjson_patch.specs.Merge.{merge_patch};
ghost use Rattle.json_merge.specs.Apply.{GivesMerged, all_merged};

use std::alloc::{AllocError, Global};
use std::io::{self, Write};
use tinyjson_cli::{NoAnswer, ValueTool};
use tinyjson_document::{Document, Node};
use tinyjson_normal::Compact;
use tinyjson_patch::{merge_documents, merge_into};

/// What is asked of each value: some patches applied (RFC 7396), each to the result of the one before.
#[derive(Drop)]
pub struct Merging {
    /// The patches, in order.
    pub patches: Vec<Document>,
    /// Whether the text of the result is indented with two spaces.
    pub is_indented: bool,
}

#[derive(Clone, Copy)]
struct Asked<'a> {
    patches: &'a [Document],
    is_indented: bool,
}

/// ```
/// asked.answer_value(alloc, value, len, &mut output)?; // of {"a":1,"b":2}, by {"a":null}: writes {"b":2} and a line feed
/// ```
impl ValueTool for Merging {
    ghost gives = { λ a _ t f. GivesMerged a.is_indented (map document_tree a.patches.items) t f };

    fn answer_value<W: Write>(
        &self,
        alloc: Global,
        value: Node<'_>,
        _: usize,
        output: &mut W,
    ) -> io::Result<Option<NoAnswer>> {
        let asked = Asked {
            patches: self.patches.as_slice(),
            is_indented: self.is_indented,
        };
        answer(alloc, asked, value, output)
    }
}

/// Writes the result, and has an answer for each value.
fn answer<W: Write>(
    alloc: Global,
    asked: Asked<'_>,
    value: Node<'_>,
    output: &mut W,
) -> io::Result<Option<NoAnswer>>
    ensures { Answers (GivesMerged asked.entry.is_indented
        (map document_tree asked.entry.patches.now) (tree value.entry))
        (W.contents output.old) (W.contents output.new) result }
{
    write_text(alloc, asked, value, output)?;
    Ok(None)
}

/// Writes the text of a value with the patches applied, compact or indented, and a line feed.
fn write_text<W: Write>(
    alloc: Global,
    asked: Asked<'_>,
    value: Node<'_>,
    output: &mut W,
) -> io::Result<()>
    ensures { WritesPrefix (W.contents output.old) (W.contents output.new)
        (laid_out asked.entry.is_indented
        (all_merged (tree value.entry) (map document_tree asked.entry.patches.now)))
        result }
{
    if asked.is_indented {
        return write_indented(alloc, value, asked.patches, output);
    }
    write_compact(alloc, value, asked.patches, output)
}

/// A value with patches applied, in order. The only error is out of memory.
fn merge_all(
    alloc: Global,
    value: Node<'_>,
    first: &Document,
    others: &[Document],
) -> Result<Document, AllocError>
    ensures { IfOk result (λ d. document_tree d ≡ all_merged (tree value.entry)
        (document_tree first.now ∷ map document_tree others.now)) }
{
    let mut merged = merge_documents(alloc, value, first.root())?;
    for patch in others {
        merged = merge_documents(alloc, merged.root(), patch.root())?;
    }
    Ok(merged)
}

/// Writes the indented text of a value with the patches applied, and a line feed.
fn write_indented<W: Write>(
    alloc: Global,
    value: Node<'_>,
    patches: &[Document],
    output: &mut W,
) -> io::Result<()>
    ensures { WritesPrefix (W.contents output.old) (W.contents output.new)
        (laid_out true (all_merged (tree value.entry) (map document_tree patches.now)))
        result }
{
    let Some((first, others)) = patches.split_first() else {
        return value.format_line_to(alloc, output);
    };
    let merged = merge_all(alloc, value, first, others)?;
    merged.root().format_line_to(alloc, output)
}

/// Writes the compact text of a value with the patches applied, and a line feed.
fn write_compact<W: Write>(
    alloc: Global,
    value: Node<'_>,
    patches: &[Document],
    output: &mut W,
) -> io::Result<()>
    ensures { WritesPrefix (W.contents output.old) (W.contents output.new)
        (laid_out false (all_merged (tree value.entry) (map document_tree patches.now)))
        result }
{
    let Some((last, others)) = patches.split_last() else {
        return value.write_line_to(alloc, output);
    };
    let Some((first, rest)) = others.split_first() else {
        return write_merged(alloc, value, last.root(), output);
    };
    let merged = merge_all(alloc, value, first, rest)?;
    write_merged(alloc, merged.root(), last.root(), output)
}

/// Writes the compact text of a value with the patch applied, and a line feed. The merged value is not built.
fn write_merged<W: Write>(
    alloc: Global,
    target: Node<'_>,
    patch: Node<'_>,
    output: &mut W,
) -> io::Result<()>
    ensures { WritesPrefix (W.contents output.old) (W.contents output.new)
        (laid_out false (merge_patch (tree target.entry) (tree patch.entry))) result }
{
    let mut text = Compact::new(alloc);
    merge_into(alloc, target, patch, &mut text)?;
    text.write_line_to(output)
}
