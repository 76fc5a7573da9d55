//! Texts that are parsed: into a value, into nothing, and into events.
ghost use Rattle.std.specs.Iterator.{IsFinite};

use crate::inputs::Inputs;
use crate::record::{Record, Stop};
use crate::reply::Reply;
use std::alloc::{AllocError, Global};
use std::io;
use tinyjson::{
    JsonKind, JsonParseError, JsonParseErrorKind as Kind, JsonParseResult, JsonParser, JsonValue,
    ReadError, check, check_with_depth_limit, read_events, read_events_with_depth_limit,
};

/// The inputs are a text, a limit on depth, and for a parser how often it is called.
pub fn answer(reply: &mut Reply, name: &str, inputs: &Inputs) -> io::Result<bool> {
    let (alloc, text, limit) = (reply.alloc, inputs.text(0), inputs.count(1));
    let calls = inputs.count(2).unwrap_or(1);
    match name {
        "parse" => parse(reply, text, limit, calls)?,
        "parse_events" => parse_events(reply, inputs)?,
        "from_str" => answer_of(reply, from_str(alloc, text, limit))?,
        "check" => checked(reply, checked_text(alloc, text, limit))?,
        "read_events" => told(
            reply,
            &events_of(alloc, text, limit, !inputs.text(2).is_empty()),
        )?,
        _ => return Ok(false),
    }
    Ok(true)
}

/// What each call of a parser of the text's characters returns, and the characters that it has not asked for by then.
fn parse(reply: &mut Reply, text: &str, limit: Option<usize>, calls: usize) -> io::Result<()> {
    for call in 1..=calls {
        let mut characters = text.chars();
        let parser = parser_of(reply.alloc, &mut characters, limit);
        answer_of(reply, nth_answer(parser, call))?;
        reply.text(characters.as_str())?;
    }
    Ok(())
}

/// The same for events, of which numbers are refused where a fourth input is there.
fn parse_events(reply: &mut Reply, inputs: &Inputs) -> io::Result<()> {
    let refuses_numbers = !inputs.text(3).is_empty();
    for call in 1..=inputs.count(2).unwrap_or(1) {
        let mut characters = inputs.text(0).chars();
        let parser = parser_of(reply.alloc, &mut characters, inputs.count(1));
        let record = nth_record(parser, call, Record::new(reply.alloc, refuses_numbers));
        told(reply, &record)?;
        reply.text(characters.as_str())?;
    }
    Ok(())
}

fn parser_of<I: Iterator<Item = char>>(
    alloc: Global,
    characters: I,
    limit: Option<usize>,
) -> JsonParser<I>
    requires can { I.can_next characters }
    requires finite { IsFinite (I.remaining characters) }
{
    match limit {
        None => JsonParser::new(alloc, characters),
        Some(limit) => JsonParser::with_depth_limit(alloc, characters, limit),
    }
}

/// What the call of this number returns.
fn nth_answer<I: Iterator<Item = char> + Drop>(
    mut parser: JsonParser<I>,
    call: usize,
) -> JsonParseResult {
    for _ in 1..call {
        let _ = parser.parse();
    }
    parser.parse()
}

/// What the call of this number returns, with this record. The earlier calls have records of their
/// own.
fn nth_record<I: Iterator<Item = char> + Drop>(
    mut parser: JsonParser<I>,
    call: usize,
    record: Record,
) -> Result<Record, (ReadError<Stop>, Record)> {
    for _ in 1..call {
        let _ = parser.parse_events(record.begun());
    }
    parser.parse_events(record)
}

fn from_str(alloc: Global, text: &str, limit: Option<usize>) -> JsonParseResult {
    match limit {
        None => JsonValue::from_str(alloc, text),
        Some(limit) => JsonValue::from_str_with_depth_limit(alloc, text, limit),
    }
}

fn checked_text(alloc: Global, text: &str, limit: Option<usize>) -> Result<(), JsonParseError> {
    match limit {
        None => check(alloc, text),
        Some(limit) => check_with_depth_limit(alloc, text, limit),
    }
}

fn events_of(
    alloc: Global,
    text: &str,
    limit: Option<usize>,
    refuses_numbers: bool,
) -> Result<Record, (ReadError<Stop>, Record)> {
    let record = Record::new(alloc, refuses_numbers);
    match limit {
        None => read_events(alloc, text, record),
        Some(limit) => read_events_with_depth_limit(alloc, text, limit, record),
    }
}

/// A value by its compact text, or an error.
fn answer_of(reply: &mut Reply, answer: JsonParseResult) -> io::Result<()> {
    match answer {
        Ok(value) => {
            let done = value_of(reply, &value);
            value.dismantle();
            done
        }
        Err(error) => error_of(reply, error),
    }
}

fn value_of(reply: &mut Reply, value: &JsonValue) -> io::Result<()> {
    reply.word("value")?;
    reply.value(value)
}

fn checked(reply: &mut Reply, answer: Result<(), JsonParseError>) -> io::Result<()> {
    match answer {
        Ok(()) => reply.word("ok"),
        Err(error) => error_of(reply, error),
    }
}

/// The events, or an error.
fn told(reply: &mut Reply, answer: &Result<Record, (ReadError<Stop>, Record)>) -> io::Result<()> {
    match answer {
        Ok(record) => {
            reply.word("events")?;
            reply.text(record.told.as_str())
        }
        Err((ReadError::Parse(error), _)) => error_of(reply, *error),
        Err((ReadError::Events(Stop::Number), _)) => reply.word("number"),
        Err((ReadError::Events(Stop::Memory), _)) => error_of(reply, AllocError.into()),
    }
}

/// An error by its kind, what the kind holds, its line, its column and its message.
pub fn error_of(reply: &mut Reply, error: JsonParseError) -> io::Result<()> {
    reply.word("error")?;
    reply.word(name_of(error.kind()))?;
    held_by(reply, error.kind())?;
    reply.shown(error.line())?;
    reply.shown(error.column())?;
    reply.message(error)
}

fn name_of(kind: Kind) -> &'static str {
    match kind {
        Kind::UnexpectedEof => "UnexpectedEof",
        Kind::InvalidCharacter(_) => "InvalidCharacter",
        Kind::ExpectedEof(_) => "ExpectedEof",
        Kind::KeyNotString(_) => "KeyNotString",
        Kind::ExpectedColon(_) => "ExpectedColon",
        Kind::ExpectedCommaOrBrace(_) => "ExpectedCommaOrBrace",
        Kind::ExpectedCommaOrBracket(_) => "ExpectedCommaOrBracket",
        Kind::InvalidUtf16 => "InvalidUtf16",
        Kind::InvalidHexDigit(_) => "InvalidHexDigit",
        Kind::InvalidEscape(_) => "InvalidEscape",
        Kind::ControlCharacter(_) => "ControlCharacter",
        Kind::UnexpectedInLiteral(_) => "UnexpectedInLiteral",
        Kind::EmptyInteger => "EmptyInteger",
        Kind::LeadingZero => "LeadingZero",
        Kind::EmptyFraction => "EmptyFraction",
        Kind::EmptyExponent => "EmptyExponent",
        Kind::NumberOutOfRange => "NumberOutOfRange",
        Kind::OutOfMemory => "OutOfMemory",
        Kind::TooDeep(_) => "TooDeep",
    }
}

/// The character or the kind of value that the kind of an error holds, as a text.
fn held_by(reply: &mut Reply, kind: Kind) -> io::Result<()> {
    match kind {
        Kind::KeyNotString(kind) => reply.message::<JsonKind>(kind),
        Kind::InvalidCharacter(c)
        | Kind::ExpectedEof(c)
        | Kind::ExpectedColon(c)
        | Kind::ExpectedCommaOrBrace(c)
        | Kind::ExpectedCommaOrBracket(c)
        | Kind::InvalidHexDigit(c)
        | Kind::InvalidEscape(c)
        | Kind::ControlCharacter(c)
        | Kind::UnexpectedInLiteral(c)
        | Kind::TooDeep(c) => reply.message::<char>(c),
        _ => reply.word(""),
    }
}
