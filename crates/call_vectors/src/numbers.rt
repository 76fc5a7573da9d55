//! Numbers: what is read, their parts and their texts.

use crate::inputs::Inputs;
use crate::reply::Reply;
use std::io;
use tinyjson::number::LiteralError;
use tinyjson::{JsonGenerateError, JsonNumber, JsonNumberError};

/// The input is a text or a whole number.
pub fn answer(reply: &mut Reply, name: &str, inputs: &Inputs) -> io::Result<bool> {
    let (alloc, text) = (reply.alloc, inputs.text(0));
    match name {
        "from_text" => number_read(reply, &JsonNumber::from_text(alloc, text))?,
        "from_i64" => {
            let whole = text.parse::<i64>().unwrap_or(0);
            number(reply, &JsonNumber::from_i64(alloc, whole)?)?;
        }
        "from_u64" => {
            let whole = text.parse::<u64>().unwrap_or(0);
            number(reply, &JsonNumber::from_u64(alloc, whole)?)?;
        }
        "zero" => number(reply, &JsonNumber::zero())?,
        "messages" => messages(reply)?,
        _ => return Ok(false),
    }
    Ok(true)
}

fn number_read(reply: &mut Reply, answer: &Result<JsonNumber, JsonNumberError>) -> io::Result<()> {
    match answer {
        Ok(read) => number(reply, read),
        Err(error) => {
            reply.word("error")?;
            reply.word(error_name(error))?;
            reply.message(error)
        }
    }
}

fn error_name(error: &JsonNumberError) -> &'static str {
    match error {
        JsonNumberError::NotANumber => "NotANumber",
        JsonNumberError::OutOfRange => "OutOfRange",
        JsonNumberError::OutOfMemory => "OutOfMemory",
    }
}

/// The parts of a number, its text, the whole numbers that it is, its short text, and whether its copy is equal to it.
fn number(reply: &mut Reply, number: &JsonNumber) -> io::Result<()> {
    reply.shown(number.is_zero())?;
    reply.shown(number.is_negative())?;
    reply.word(number.digits())?;
    reply.shown(number.power())?;
    reply.message(number)?;
    whole(reply, number)?;
    short(reply, number)?;
    let copy = number.try_clone(reply.alloc)?;
    reply.shown(copy == *number)
}

fn whole(reply: &mut Reply, number: &JsonNumber) -> io::Result<()> {
    match number.to_i64() {
        Some(whole) => reply.shown(whole)?,
        None => reply.word("none")?,
    }
    match number.to_u64() {
        Some(whole) => reply.shown(whole),
        None => reply.word("none"),
    }
}

/// What is put into a buffer for the number.
fn short(reply: &mut Reply, number: &JsonNumber) -> io::Result<()> {
    let mut buffer = [0; 32];
    match number.write_short(&mut buffer) {
        Some(count) => reply.bytes(buffer.get(..count).unwrap_or(&[])),
        None => reply.word("none"),
    }
}

/// The messages of errors that no text leads to.
fn messages(reply: &mut Reply) -> io::Result<()> {
    reply.message(JsonGenerateError)?;
    reply.text(JsonGenerateError.message())?;
    reply.message(JsonNumberError::OutOfMemory)?;
    reply.message(LiteralError::OutOfRange)?;
    reply.message(LiteralError::OutOfMemory)
}
