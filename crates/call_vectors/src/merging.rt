//! Documents that are made of others: merges and copies.

use crate::documents::compact;
use crate::inputs::Inputs;
use crate::reply::Reply;
use std::io;
use tinyjson_document::{Document, Node, copy};
use tinyjson_patch::merge_documents;

/// The inputs are texts.
pub fn answer(reply: &mut Reply, name: &str, inputs: &Inputs) -> io::Result<bool> {
    match name {
        "merge_documents" => merge(reply, inputs.text(0), inputs.text(1))?,
        "copy" => copied(reply, inputs.text(0))?,
        _ => return Ok(false),
    }
    Ok(true)
}

fn merge(reply: &mut Reply, target: &str, patch: &str) -> io::Result<()> {
    let target = Document::read(reply.alloc, target)?;
    let patch = Document::read(reply.alloc, patch)?;
    merged(reply, target.root(), patch.root())
}

/// The compact text of a copy of the document.
fn copied(reply: &mut Reply, text: &str) -> io::Result<()> {
    let document = Document::read(reply.alloc, text)?;
    let copied = copy(reply.alloc, document.root())?;
    compact(reply, copied.root())
}

/// The compact text of what a patch makes of a target, and whether it is equal to the patch.
fn merged(reply: &mut Reply, target: Node<'_>, patch: Node<'_>) -> io::Result<()> {
    let merged = merge_documents(reply.alloc, target, patch)?;
    compact(reply, merged.root())?;
    reply.shown(merged.root() == patch)
}
