//! Values that are written: to a text, and to a writer.

use crate::building::built;
use crate::inputs::Inputs;
use crate::reply::Reply;
use crate::writer::{Failure, Sink};
use std::io::{self, Write};
use std::string::ToString;
use tinyjson::{JsonGenerateResult, JsonGenerator, JsonValue, format, stringify};

/// The first input describes the value. For a writer follow how many bytes it takes a call, at which call it fails and how, how
/// often the value is written, and the indents of a generator.
pub fn answer(reply: &mut Reply, name: &str, inputs: &Inputs) -> io::Result<bool> {
    if !matches!(
        name,
        "stringify"
            | "JsonValue::stringify"
            | "format"
            | "JsonValue::format"
            | "write_to"
            | "format_to"
            | "generate"
    ) {
        return Ok(false);
    }
    let value = built(reply.alloc, inputs.text(0))?;
    let done = written(reply, name, inputs, &value);
    value.dismantle();
    done?;
    Ok(true)
}

fn written(reply: &mut Reply, name: &str, inputs: &Inputs, value: &JsonValue) -> io::Result<()> {
    let alloc = reply.alloc;
    match name {
        "stringify" => text_of(reply, &stringify(alloc, value)),
        "JsonValue::stringify" => text_of(reply, &value.stringify(alloc)),
        "format" => text_of(reply, &format(alloc, value)),
        "JsonValue::format" => text_of(reply, &value.format(alloc)),
        _ => written_to(reply, name, inputs, value),
    }
}

pub fn text_of(reply: &mut Reply, answer: &JsonGenerateResult) -> io::Result<()> {
    match answer {
        Ok(text) => reply.text(text.as_str()),
        Err(error) => reply.text(error.message()),
    }
}

fn written_to(reply: &mut Reply, name: &str, inputs: &Inputs, value: &JsonValue) -> io::Result<()> {
    let chunk = inputs.count(1).unwrap_or(usize::MAX);
    let call = inputs.count(2).unwrap_or(0);
    let mut sink = Sink::new(reply.alloc, chunk, call, Failure::named(inputs.text(3)));
    match name {
        "write_to" => outcome(reply, value.write_to(reply.alloc, &mut sink))?,
        "format_to" => outcome(reply, value.format_to(reply.alloc, &mut sink))?,
        _ => generate(reply, inputs, &mut sink, value)?,
    }
    reply.bytes(sink.bytes.as_slice())?;
    reply.shown(sink.calls)?;
    reply.shown(sink.empty_calls)?;
    reply.shown(sink.flushes)
}

/// One generator writes the value, as often as it is asked to.
fn generate(
    reply: &mut Reply,
    inputs: &Inputs,
    sink: &mut Sink,
    value: &JsonValue,
) -> io::Result<()> {
    let compact = JsonGenerator::new(reply.alloc, sink);
    let mut generator = with_indents(compact, inputs.from(5));
    for _ in 0..inputs.count(4).unwrap_or(1) {
        outcome(reply, generator.generate(value))?;
    }
    Ok(())
}

/// A generator that is given up to two indents, one after the other.
fn with_indents<'i, W: Write>(
    generator: JsonGenerator<'i, W>,
    indents: &'i [String],
) -> JsonGenerator<'i, W> {
    match indents {
        [] => generator,
        [only] => generator.indent(only.as_str()),
        [first, second, ..] => generator.indent(first.as_str()).indent(second.as_str()),
    }
}

/// That all was written, or the kind and the message of the error.
pub fn outcome(reply: &mut Reply, answer: io::Result<()>) -> io::Result<()> {
    match answer {
        Ok(()) => reply.word("ok"),
        Err(error) => {
            let kind = error.kind();
            reply.word("error")?;
            reply.text(kind.to_string(reply.alloc)?.as_str())?;
            reply.message(error)
        }
    }
}
