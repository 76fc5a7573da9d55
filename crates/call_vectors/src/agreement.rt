//! Calls that agree on a text: whatever reads it has one answer, and its value is copied and written in each way.

use crate::inputs::Inputs;
use crate::record::{Record, Stop};
use crate::reply::Reply;
use std::alloc::{AllocError, Global};
use std::io;
use tinyjson::{
    JsonGenerator, JsonNumber, JsonParseError, JsonParseResult, JsonParser, JsonValue, ReadError,
    check, read_events,
};

/// The first input is a text. With a second one the value is not indented, which takes the square of the depth.
pub fn answer(reply: &mut Reply, name: &str, inputs: &Inputs) -> io::Result<bool> {
    let text = inputs.text(0);
    match name {
        "agree" => {
            let found = mistake(reply.alloc, text, !inputs.text(1).is_empty());
            reply.word(found.unwrap_or("agree"))?;
        }
        "from_literal" => literal(reply, text)?,
        "unasked" => unasked(reply, text)?,
        _ => return Ok(false),
    }
    Ok(true)
}

/// What is wrong with the answers to a text.
fn mistake(alloc: Global, text: &str, is_large: bool) -> Option<&'static str> {
    match JsonValue::from_str(alloc, text) {
        Ok(value) => {
            let found = mistake_of_value(alloc, text, &value, is_large);
            value.dismantle();
            found
        }
        Err(error) if is_refused(alloc, text, error) => None,
        Err(_) => Some("is refused otherwise"),
    }
}

fn mistake_of_value(
    alloc: Global,
    text: &str,
    value: &JsonValue,
    is_large: bool,
) -> Option<&'static str> {
    if !is_read(alloc, text, value) {
        Some("is read otherwise")
    } else if !is_answer_without_value(alloc, text, Ok(())) {
        Some("is refused where no value is built")
    } else if !is_copied(alloc, value) {
        Some("is copied otherwise")
    } else if !is_written(alloc, value) {
        Some("is written otherwise")
    } else if !is_large && !is_indented(alloc, value) {
        Some("is indented otherwise")
    } else {
        None
    }
}

/// Whether whatever reads the text returns this error, and memory has no part in it.
fn is_refused(alloc: Global, text: &str, error: JsonParseError) -> bool {
    !error.is_out_of_memory()
        && JsonParser::new(alloc, text.chars()).parse() == Err(error)
        && is_answer_without_value(alloc, text, Err(error))
}

/// Whether a check of the text, and its events and those of its characters, return this.
fn is_answer_without_value(alloc: Global, text: &str, answer: Result<(), JsonParseError>) -> bool {
    let record = Record::new(alloc, false);
    let mut parser = JsonParser::new(alloc, text.chars());
    check(alloc, text) == answer
        && without_record(read_events(alloc, text, record.begun())) == answer
        && without_record(parser.parse_events(record)) == answer
}

fn without_record(answer: Result<Record, (ReadError<Stop>, Record)>) -> Result<(), JsonParseError> {
    match answer {
        Ok(_) => Ok(()),
        Err((ReadError::Parse(error), _)) => Err(error),
        Err((ReadError::Events(_), _)) => Err(JsonParseError::from(AllocError)),
    }
}

/// Whether the text is read as this value with a limit on depth, and its characters with one and with none.
fn is_read(alloc: Global, text: &str, value: &JsonValue) -> bool {
    let mut parser = JsonParser::with_depth_limit(alloc, text.chars(), usize::MAX);
    is_value(JsonParser::new(alloc, text.chars()).parse(), value)
        && is_value(
            JsonValue::from_str_with_depth_limit(alloc, text, usize::MAX),
            value,
        )
        && is_value(parser.parse(), value)
}

/// Whether a value was read that is equal to this one.
fn is_value(answer: JsonParseResult, value: &JsonValue) -> bool {
    match answer {
        Ok(other) => is_equal(other, value),
        Err(_) => false,
    }
}

fn is_equal(other: JsonValue, value: &JsonValue) -> bool {
    let is_equal = other == *value;
    other.dismantle();
    is_equal
}

fn is_copied(alloc: Global, value: &JsonValue) -> bool {
    match value.try_clone(alloc) {
        Ok(copy) => is_equal(copy, value),
        Err(_) => false,
    }
}

/// Whether the compact text is the same as a text, as bytes and by a generator, and is read as the value.
fn is_written(alloc: Global, value: &JsonValue) -> bool {
    let mut bytes = Vec::new(alloc);
    let is_taken = value.write_to(alloc, &mut bytes).is_ok();
    let generator = JsonGenerator::new(alloc, Vec::new(alloc));
    match value.stringify(alloc) {
        Ok(text) => {
            is_taken
                && text.as_bytes() == bytes.as_slice()
                && is_generated(generator, value, text.as_str())
                && is_value(JsonValue::from_str(alloc, text.as_str()), value)
        }
        Err(_) => false,
    }
}

/// Whether the indented text is the same as a text, as bytes and by a generator, and is read as the value.
fn is_indented(alloc: Global, value: &JsonValue) -> bool {
    let mut bytes = Vec::new(alloc);
    let is_taken = value.format_to(alloc, &mut bytes).is_ok();
    let generator = JsonGenerator::new(alloc, Vec::new(alloc)).indent("  ");
    match value.format(alloc) {
        Ok(text) => {
            is_taken
                && text.as_bytes() == bytes.as_slice()
                && is_generated(generator, value, text.as_str())
                && is_value(JsonValue::from_str(alloc, text.as_str()), value)
        }
        Err(_) => false,
    }
}

fn is_generated(
    mut generator: JsonGenerator<'_, Vec<u8>>,
    value: &JsonValue,
    expected: &str,
) -> bool {
    let is_taken = generator.generate(value).is_ok();
    is_taken && generator.into_inner().as_slice() == expected.as_bytes()
}

/// Whether a literal is the number of its text, the text of the number, and the compact text of the value.
fn literal(reply: &mut Reply, text: &str) -> io::Result<()> {
    let value = JsonValue::from_str(reply.alloc, text)?;
    let Ok(number) = JsonNumber::from_text(reply.alloc, text) else {
        return reply.word("no number");
    };
    match JsonNumber::from_literal(reply.alloc, text) {
        Ok(literal) => reply.shown(literal == number)?,
        Err(_) => reply.word("no literal")?,
    }
    reply.message(number)?;
    reply.value(&value)
}

/// The characters that a new parser has not asked for.
fn unasked(reply: &mut Reply, text: &str) -> io::Result<()> {
    let mut characters = text.chars();
    drop(JsonParser::new(reply.alloc, &mut characters));
    reply.text(characters.as_str())
}
