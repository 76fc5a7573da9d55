//! Applies a patch to a value of a document, without building a value. Only the containers on the way to what is changed
//! are taken apart; all else stays where it was read.
ghost use Rattle.std.specs.Prelude.{◌≡◌, ◌≤◌, length, map};
ghost use Rattle.tinyjson_document.specs.Document.{tree as node_tree};
ghost use Rattle.tinyjson_patch.specs.Copies.{all_copies, IsWithin};
ghost use Rattle.tinyjson_patch.specs.private.Counting.{TakesFirst, TakesGiven, TakesWritten};
ghost use Rattle.tinyjson_patch.specs.private.Edited.{tree};
ghost use Rattle.tinyjson_patch.specs.Patched.{GivesDocument, GivesFirst, RunsFirst, WritesFirst};
ghost use Rattle.tinyjson_patch.specs.Patched.{WritesOrLeaves, WritesPatched};
ghost use Rattle.tinyjson_patch.specs.Operation.{action_of};
ghost use Rattle.tinyjson_patch.specs.Patch.{actions_of, all_applied};

mod apply;
mod change;
mod copy;
mod count;
mod edited;
mod error;
mod expand;
mod find;
mod opened;
mod text;
mod write;

use crate::operation::Operation;
use crate::patch::Patch;
use apply::{Stop, apply_to};
use count::left_after;
use edited::Edited;
pub use error::EditError;
use std::alloc::Global;
use std::io::{self, Write};
use text::write_text;
use tinyjson_document::{Document, Node};
use tinyjson_view::ValueView;
use write::document_of;

/// The document of the node's value with all operations applied (RFC 6902, section 5): the value that
/// `Patch::apply` leaves, or the same error. If the copies of the patch copy more than `most` values in all, the error is
/// `TooMuch`. Each value that is nested in a copied one counts.
///
/// A part in which others made changes is copied as it is if they took apart at most 64 nested containers of it. Otherwise
/// the operation writes the whole value first, which takes the time of reading it.
///
/// ```
/// let patched = patch_document(alloc, &patch, document.root(), 1_000)?; // [1,2] by [{"op":"remove","path":"/0"}]
/// patched.root().to_string(alloc)?; // [2]
/// ```
pub fn patch_document(
    alloc: Global,
    patch: &Patch,
    node: Node<'_>,
    most: usize,
) -> Result<Document, EditError>
    ensures gives { GivesDocument (all_applied 0 (actions_of patch.now) (node_tree node.entry))
        result }
    ensures within { IsWithin most (all_copies (actions_of patch.now) (node_tree node.entry))
        result }
{
    let total = patch.operations.len();
    let operations = patch.operations.as_slice();
    let mut left = most;
    let (mut document, mut rest) = apply_first(alloc, node, operations, total, &mut left)?;
    for _ in 0..u64::MAX {
        if rest.is_empty() {
            return Ok(document);
        }
        let (next, others) = apply_first(alloc, document.root(), rest, total, &mut left)?;
        document = next;
        rest = others;
    }
    Err(EditError::OutOfMemory)
}

/// Writes the compact text of the node's value with all operations applied: that of the document which
/// [`patch_document`] returns, without making it. Where it returns an error, it is the same, and nothing is written.
///
/// The inner error is that of `Node::write_to`. Then a prefix of the text is written.
///
/// ```
/// let written = write_patched(alloc, &patch, document.root(), 1_000, &mut output)?; // writes [2]
/// ```
pub fn write_patched<W: Write>(
    alloc: Global,
    patch: &Patch,
    node: Node<'_>,
    most: usize,
    output: &mut W,
) -> Result<io::Result<()>, EditError>
    ensures writes { WritesPatched (all_applied 0 (actions_of patch.now) (node_tree node.entry))
        (W.contents output.old) (W.contents output.new) result }
    ensures within { IsWithin most (all_copies (actions_of patch.now) (node_tree node.entry))
        result }
{
    let total = patch.operations.len();
    let operations = patch.operations.as_slice();
    let mut left = most;
    let first = write_first(alloc, node, operations, total, &mut left, output)?;
    let (mut document, mut rest) = match first {
        First::Written(written) => return Ok(written),
        First::Left(document, rest) => (document, rest),
    };
    for _ in 0..u64::MAX {
        match write_first(alloc, document.root(), rest, total, &mut left, output)? {
            First::Written(written) => return Ok(written),
            First::Left(next, others) => {
                document = next;
                rest = others;
            }
        }
    }
    Err(EditError::OutOfMemory)
}

/// What became of the first operations.
#[derive(Drop)]
enum First<'o> {
    /// They were all, and the text was written, or a part of it.
    Written(io::Result<()>),
    /// The document then, and the operations that are left.
    Left(Document, &'o [Operation]),
}

/// Applies the operations up to the first that copies what others took apart, and takes what they copy from `left`. Writes
/// the text if none is left. The whole patch has `total` operations.
fn write_first<'o, W: Write>(
    alloc: Global,
    node: Node<'_>,
    operations: &'o [Operation],
    total: usize,
    left: &mut usize,
    output: &mut W,
) -> Result<First<'o>, EditError>
    requires { length operations.now ≤ total }
    ensures writes { WritesFirst total (map action_of operations.now) (node_tree node.entry)
        (W.contents output.old) (W.contents output.new) result }
    ensures takes { TakesWritten left.old left.new (map action_of operations.now)
        (node_tree node.entry) result }
{
    let mut value = Edited::Kept(ValueView::InDocument(node));
    let answer = match apply_all(alloc, &mut value, operations, total, left) {
        Ok(rest) => write_or_leave(alloc, &value, rest, output),
        Err(error) => Err(error),
    };
    value.dismantle(alloc);
    answer
}

/// Writes the text of the value if no operation is left, or else makes a document of it.
fn write_or_leave<'o, W: Write>(
    alloc: Global,
    value: &Edited<'_>,
    rest: &'o [Operation],
    output: &mut W,
) -> Result<First<'o>, EditError>
    ensures { WritesOrLeaves (tree value.now) rest.now
        (W.contents output.old) (W.contents output.new) result }
{
    if rest.is_empty() {
        return Ok(First::Written(write_text(alloc, value, output)));
    }
    match document_of(alloc, value) {
        Ok(document) => Ok(First::Left(document, rest)),
        Err(_) => Err(EditError::OutOfMemory),
    }
}

/// Applies the operations up to the first that copies what others took apart, and takes what they copy from `left`.
/// Returns the document then, and the operations that are left. The whole patch has `total` operations.
fn apply_first<'o>(
    alloc: Global,
    node: Node<'_>,
    operations: &'o [Operation],
    total: usize,
    left: &mut usize,
) -> Result<(Document, &'o [Operation]), EditError>
    requires { length operations.now ≤ total }
    ensures gives { GivesFirst total (map action_of operations.now) (node_tree node.entry) result }
    ensures takes { TakesGiven left.old left.new (map action_of operations.now)
        (node_tree node.entry) result }
{
    let mut value = Edited::Kept(ValueView::InDocument(node));
    let answer = apply_all(alloc, &mut value, operations, total, left);
    let answer = match answer {
        Ok(rest) => match document_of(alloc, &value) {
            Ok(document) => Ok((document, rest)),
            Err(_) => Err(EditError::OutOfMemory),
        },
        Err(error) => Err(error),
    };
    value.dismantle(alloc);
    answer
}

/// Applies the operations up to the first that copies what others took apart, and takes what they copy from `left`.
/// Returns those that are left.
fn apply_all<'d, 'o: 'd>(
    alloc: Global,
    value: &mut Edited<'d>,
    operations: &'o [Operation],
    total: usize,
    left: &mut usize,
) -> Result<&'o [Operation], EditError>
    requires { length operations.now ≤ total }
    ensures runs { RunsFirst total (map action_of operations.now) (tree value.old)
        result (tree value.new) }
    ensures takes { TakesFirst left.old left.new (map action_of operations.now) (tree value.old)
        result (tree value.new) }
{
    let mut rest = operations;
    while let Some((operation, others)) = rest.split_first() {
        let Some(others_left) = left_after(alloc, operation, value, *left)? else {
            return Err(EditError::TooMuch);
        };
        match apply_to(operation, alloc, value) {
            Ok(()) => {
                rest = others;
                *left = others_left;
            }
            Err(Stop::TakenApart) => return Ok(rest),
            Err(Stop::Failed(reason)) => {
                return Err(EditError::Failed(total - rest.len(), reason));
            }
            Err(Stop::OutOfMemory) => return Err(EditError::OutOfMemory),
        }
    }
    Ok(rest)
}
