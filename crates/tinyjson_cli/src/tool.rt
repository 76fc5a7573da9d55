//! A program that answers inputs: whole ones, lines, or files in place.
ghost use Rattle.std.specs.Prelude.{◌≡◌, ℕ, List, Option, Result};
ghost use Rattle.std.specs.Str.{chars};
ghost use Rattle.tinyjson_cli.specs.Tools.{AnswersInput, Source, done_of, source_of, text_bytes};
ghost use Rattle.tinyjson_cli.specs.declared.status.Status.{Status};
ghost use Rattle.tinyjson_cli.specs.declared.texts.NoAnswer.{NoAnswer};

use crate::status::Status;
use crate::texts::NoAnswer;
use std::alloc::Global;
use std::io::{self, Write};

/// The text of an input.
#[derive(Drop)]
pub enum InputText<'a> {
    /// A text that the answer may keep.
    Owned(String),
    /// A line, or a text that is needed after the answer.
    Lent(&'a str),
}

impl InputText<'_> {
    /// The text.
    pub fn as_str(&self) -> &str
        ensures { result.now ≡ text_bytes self.now }
    {
        match self {
            InputText::Owned(text) => text.as_str(),
            InputText::Lent(text) => text,
        }
    }
}

/// What a program answers.
#[derive(Drop)]
pub struct Input<'a> {
    /// The name of the file, if it has one.
    pub file: Option<&'a str>,
    /// The number of the line, from 1, if it is one.
    pub line: Option<u64>,
    /// The text.
    pub text: InputText<'a>,
}

/// A program that answers inputs.
///
/// `gives` relates what the program was, where an input is from, and the characters of its text, to the status and the
/// bytes of the answer, or to why there is none, and to what the program is then.
pub trait Tool {
    ghost gives: { Self → Source → List ℕ → Result (Status × List ℕ) NoAnswer → Self → Type 0 };

    /// Writes the answer for an input and returns its status, or returns why there is none. Then nothing is written.
    ///
    /// After an error of the writer, or if memory runs out, a prefix of the answer may be written.
    fn answer<W: Write>(
        &mut self,
        alloc: Global,
        input: Input<'_>,
        output: &mut W,
    ) -> io::Result<Result<Status, NoAnswer>>
        ensures { AnswersInput gives self.old self.new (source_of input.entry)
            (chars (text_bytes input.entry.text))
            (W.contents output.old) (W.contents output.new) result };
}

/// An answer whose status is `Done`.
pub fn done(answered: io::Result<Option<NoAnswer>>) -> io::Result<Result<Status, NoAnswer>>
    ensures { result ≡ done_of answered }
{
    match answered {
        Ok(None) => Ok(Ok(Status::Done)),
        Ok(Some(why)) => Ok(Err(why)),
        Err(error) => Err(error),
    }
}
