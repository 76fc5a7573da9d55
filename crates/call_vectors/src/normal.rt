//! Normal texts: what is read, and what is written of it.

use crate::inputs::Inputs;
use crate::reading::error_of;
use crate::reply::Reply;
use crate::writer::{Failure, Sink};
use crate::writing::{outcome, text_of};
use std::io;
use tinyjson::{JsonParseError, JsonValue};
use tinyjson_normal::{NormalReader, NormalText, is_normal};

/// The inputs are texts. For a writer follow how many bytes it takes a call, at which call it fails and how.
pub fn answer(reply: &mut Reply, name: &str, inputs: &Inputs) -> io::Result<bool> {
    match name {
        "NormalText::to_string"
        | "NormalText::format"
        | "NormalText::write_to"
        | "NormalText::format_to" => {
            let normal = NormalText::read(reply.alloc, inputs.text(0))?;
            written(reply, name, inputs, &normal)?;
        }
        "is_normal" => {
            let is_normal = is_normal(reply.alloc, inputs.text(0))?;
            reply.shown(is_normal)?;
        }
        "texts by NormalText" => alone(reply, inputs.from(0))?,
        "texts by NormalReader" => in_turn(reply, inputs.from(0))?,
        "texts by JsonValue" => by_values(reply, inputs.from(0))?,
        _ => return Ok(false),
    }
    Ok(true)
}

fn written(reply: &mut Reply, name: &str, inputs: &Inputs, normal: &NormalText) -> io::Result<()> {
    let alloc = reply.alloc;
    match name {
        "NormalText::to_string" => text_of(reply, &normal.to_string(alloc)),
        "NormalText::format" => text_of(reply, &normal.format(alloc)),
        _ => written_to(reply, name, sink_of(reply, inputs), normal),
    }
}

/// That all was written, or the error; the bytes that the writer has, and how often it was called.
fn written_to(
    reply: &mut Reply,
    name: &str,
    mut sink: Sink,
    normal: &NormalText,
) -> io::Result<()> {
    let answer = match name {
        "NormalText::write_to" => normal.write_to(reply.alloc, &mut sink),
        _ => normal.format_to(reply.alloc, &mut sink),
    };
    outcome(reply, answer)?;
    reply.bytes(sink.bytes.as_slice())?;
    reply.shown(sink.calls)
}

fn sink_of(reply: &Reply, inputs: &Inputs) -> Sink {
    let chunk = inputs.count(1).unwrap_or(usize::MAX);
    let call = inputs.count(2).unwrap_or(0);
    Sink::new(reply.alloc, chunk, call, Failure::named(inputs.text(3)))
}

/// What each text is read as.
fn alone(reply: &mut Reply, texts: &[String]) -> io::Result<()> {
    for text in texts {
        both_texts(reply, &NormalText::read(reply.alloc, text.as_str()))?;
    }
    Ok(())
}

/// What one reader reads each text as.
fn in_turn(reply: &mut Reply, texts: &[String]) -> io::Result<()> {
    let mut reader = NormalReader::new(reply.alloc);
    for text in texts {
        let read = reader.read(text.as_str(), None);
        both_texts(reply, &read)?;
        if let Ok(normal) = read {
            reader.reuse(normal);
        }
    }
    Ok(())
}

/// The compact and the indented text, or the error.
fn both_texts(reply: &mut Reply, read: &Result<NormalText, JsonParseError>) -> io::Result<()> {
    let alloc = reply.alloc;
    match read {
        Ok(normal) => {
            reply.word("texts")?;
            text_of(reply, &normal.to_string(alloc))?;
            text_of(reply, &normal.format(alloc))
        }
        Err(error) => error_of(reply, *error),
    }
}

/// The two texts of the value of each text, or the error.
fn by_values(reply: &mut Reply, texts: &[String]) -> io::Result<()> {
    for text in texts {
        match JsonValue::from_str(reply.alloc, text.as_str()) {
            Ok(value) => texts_of_value(reply, &value)?,
            Err(error) => error_of(reply, error)?,
        }
    }
    Ok(())
}

fn texts_of_value(reply: &mut Reply, value: &JsonValue) -> io::Result<()> {
    let text = value.format(reply.alloc);
    reply.word("texts")?;
    reply.value(value)?;
    text_of(reply, &text)
}
