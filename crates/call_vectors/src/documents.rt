//! Documents: their parts, their texts, what they are equal to, and what is made of them.

use crate::building::built;
use crate::inputs::Inputs;
use crate::reading::error_of;
use crate::reply::Reply;
use crate::writing::text_of;
use std::io;
use tinyjson_document::{Document, DocumentReader, JsonView, Node};

/// The first input is a text. The second is a limit on depth, a key, another text, or what describes a value.
pub fn answer(reply: &mut Reply, name: &str, inputs: &Inputs) -> io::Result<bool> {
    let text = inputs.text(0);
    match name {
        "Node::members" => keys(reply, text)?,
        "Node::items" => items(reply, text, inputs.text(1))?,
        "Node::to_value" => value(reply, text, inputs.count(1).unwrap_or(usize::MAX))?,
        "Node::format" => indented(reply, text)?,
        "Node::eq" => equal(reply, text, inputs.text(1))?,
        "Node::equals_value" => equal_to_value(reply, text, inputs.text(1))?,
        "DocumentReader::read" => in_turn(reply, inputs.from(0))?,
        "DocumentReader::limited" => limited(reply, text, inputs.count(1).unwrap_or(0))?,
        _ => return Ok(false),
    }
    Ok(true)
}

/// The keys of the members, as the document lists them.
fn keys(reply: &mut Reply, text: &str) -> io::Result<()> {
    let document = Document::read(reply.alloc, text)?;
    for (key, _) in document.root().members() {
        reply.text(key)?;
    }
    Ok(())
}

/// The compact texts of the items of the member with the key.
fn items(reply: &mut Reply, text: &str, key: &str) -> io::Result<()> {
    let document = Document::read(reply.alloc, text)?;
    if let Some(member) = document.root().member(key) {
        for item in member.items() {
            reply.text(item.to_string(reply.alloc)?.as_str())?;
        }
    }
    Ok(())
}

/// The compact text of a node.
pub fn compact(reply: &mut Reply, node: Node<'_>) -> io::Result<()> {
    let text = node.to_string(reply.alloc);
    text_of(reply, &text)
}

/// The compact text of the value of the document, how many members or items the value has, and how many the document.
fn value(reply: &mut Reply, text: &str, limit: usize) -> io::Result<()> {
    let document = Document::read_with_depth_limit(reply.alloc, text, limit)?;
    let value = document.root().to_value(reply.alloc)?;
    reply.value(&value)?;
    reply.shown(JsonView::len(&&value))?;
    reply.shown(document.root().len())
}

/// The indented text, and what is written as a line.
fn indented(reply: &mut Reply, text: &str) -> io::Result<()> {
    let document = Document::read(reply.alloc, text)?;
    reply.text(document.root().format(reply.alloc)?.as_str())?;
    let mut bytes = Vec::new(reply.alloc);
    document.root().format_line_to(reply.alloc, &mut bytes)?;
    reply.bytes(bytes.as_slice())
}

fn equal(reply: &mut Reply, one: &str, other: &str) -> io::Result<()> {
    let one = Document::read(reply.alloc, one)?;
    let other = Document::read(reply.alloc, other)?;
    reply.shown(one.root() == other.root())
}

fn equal_to_value(reply: &mut Reply, text: &str, words: &str) -> io::Result<()> {
    let document = Document::read(reply.alloc, text)?;
    let value = built(reply.alloc, words)?;
    reply.shown(document.root().equals_value(&value))
}

/// What each of the texts is read as, in the memory of those before it.
fn in_turn(reply: &mut Reply, texts: &[String]) -> io::Result<()> {
    let mut reader = DocumentReader::new(reply.alloc);
    for text in texts {
        match reader.read(text.as_str(), None) {
            Ok(document) => {
                read(reply, &document, text.as_str())?;
                reader.reuse(document);
            }
            Err(error) => error_of(reply, error)?,
        }
    }
    Ok(())
}

/// The compact text of a document, and whether it is equal to the one that is read alone.
fn read(reply: &mut Reply, document: &Document, text: &str) -> io::Result<()> {
    let alone = Document::read(reply.alloc, text)?;
    reply.word("document")?;
    reply.text(document.root().to_string(reply.alloc)?.as_str())?;
    reply.shown(document.root() == alone.root())
}

fn limited(reply: &mut Reply, text: &str, limit: usize) -> io::Result<()> {
    match DocumentReader::new(reply.alloc).read(text, Some(limit)) {
        Ok(document) => read(reply, &document, text),
        Err(error) => error_of(reply, error),
    }
}
