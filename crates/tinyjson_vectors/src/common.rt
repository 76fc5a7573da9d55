//! Values that several tests make, and results that several tests compare.
ghost use Rattle.std.specs.Prelude.{⊤};

use std::alloc::{AllocError, Global};
use std::test::Fail;
use tinyjson::{
    Events, JsonNumber, JsonParseError, JsonParseErrorKind, JsonParseResult, JsonParser, JsonValue,
    read_events,
};

/// What a parser of the text's characters returns.
pub(crate) fn parsed(alloc: Global, text: &str) -> JsonParseResult {
    JsonParser::new(alloc, text.chars()).parse()
}

/// What a call of `parse` returns.
#[derive(Clone, Copy)]
pub(crate) enum Answer {
    /// A value with this compact text.
    Text(&'static str),
    /// An error of this kind at this line and column.
    Refusal(JsonParseErrorKind, usize, usize),
}

/// Whether the parser's result is the expected one.
pub(crate) fn agrees(
    alloc: Global,
    answer: JsonParseResult,
    expected: Answer,
) -> Result<bool, Fail> {
    match answer {
        Ok(value) => has_text(alloc, &value, expected),
        Err(error) => Ok(is_refusal(error, expected)),
    }
}

/// Whether a call that builds no value returned this, but for the value.
pub(crate) fn is_answer(told: Result<(), JsonParseError>, expected: Answer) -> bool {
    match told {
        Ok(()) => matches!(expected, Answer::Text(_)),
        Err(error) => is_refusal(error, expected),
    }
}

/// Whether a value with this compact text is expected.
fn has_text(alloc: Global, value: &JsonValue, expected: Answer) -> Result<bool, Fail> {
    match expected {
        Answer::Text(text) => Ok(value.stringify(alloc)?.as_str() == text),
        Answer::Refusal(..) => Ok(false),
    }
}

/// Whether this error is expected.
fn is_refusal(error: JsonParseError, expected: Answer) -> bool {
    match expected {
        Answer::Text(_) => false,
        Answer::Refusal(kind, line, column) => {
            error.kind() == kind && error.line() == line && error.column() == column
        }
    }
}

/// Events that keep nothing.
#[derive(Drop)]
pub(crate) struct Forget;

impl Events for Forget {
    type Error = AllocError;

    ghost holds = { λ _ _ _. ⊤ };

    ghost is = { λ _ _ _. ⊤ };

    fn open_array(&mut self) -> Result<(), AllocError> {
        Ok(())
    }

    fn close_array(&mut self) -> Result<(), AllocError> {
        Ok(())
    }

    fn open_object(&mut self) -> Result<(), AllocError> {
        Ok(())
    }

    fn close_object(&mut self) -> Result<(), AllocError> {
        Ok(())
    }

    fn key(&mut self, _: &str) -> Result<(), AllocError> {
        Ok(())
    }

    fn string(&mut self, _: &str) -> Result<(), AllocError> {
        Ok(())
    }

    fn number(&mut self, _: JsonNumber) -> Result<(), AllocError> {
        Ok(())
    }

    fn literal(&mut self, _: Option<bool>) -> Result<(), AllocError> {
        Ok(())
    }
}

/// What telling a text returns.
pub(crate) fn told(alloc: Global, text: &str) -> Result<(), JsonParseError> {
    match read_events(alloc, text, Forget) {
        Ok(_) => Ok(()),
        Err((error, _)) => Err(JsonParseError::from(error)),
    }
}

/// Pushes a member for each pair of these characters, whose key they are, with a comma before it.
pub(crate) fn push_members(
    text: &mut String,
    firsts: &str,
    seconds: &str,
) -> Result<(), AllocError> {
    for first in firsts.chars() {
        for second in seconds.chars() {
            push_member(text, first, second)?;
        }
    }
    Ok(())
}

fn push_member(text: &mut String, first: char, second: char) -> Result<(), AllocError> {
    text.push_str(",\"")?;
    text.push(first)?;
    text.push(second)?;
    text.push_str("\":0")
}
