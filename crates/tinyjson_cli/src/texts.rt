//! The texts of inputs: whole inputs, or each line of an input.
ghost use Rattle.std.specs.Prelude.{◌≡◌};
ghost use Rattle.tinyjson_cli.specs.Arguments.{given_of};
ghost use Rattle.tinyjson_cli.specs.Texts.{failure_of, lines_given, texts_given};

use crate::arguments::{Arguments, Known};
use crate::failure::{Failure, Place};
use tinyjson_lines::Cause;

/// `-l` and `--lines`.
pub const LINES: Known<'static> = Known {
    letter: b'l',
    name: "lines",
    takes: None,
};

/// Why a text has no answer.
#[derive(Drop)]
pub enum NoAnswer {
    /// The text is rejected.
    Refused(Cause),
    /// The answer is no, as these words say.
    No(String),
    /// A limit is met, as these words say. Of a line or a file in place it is reported as `No` is.
    Failed(String),
}

/// How the texts of an input are found.
#[derive(Clone, Copy)]
pub struct Texts {
    /// Whether each line is a text, and not the whole input.
    pub by_lines: bool,
    /// How many bytes a line may have before its line feed, if there is a limit.
    pub max_line: Option<usize>,
    /// Whether the run goes on after a line that has no answer.
    pub goes_on: bool,
    /// Whether each file is replaced by its answer.
    pub in_place: bool,
}

/// How the texts are found that `-l`, `-m N` and `-I` ask for.
pub fn texts_asked(arguments: &Arguments<'_>) -> Texts
    ensures { result ≡ texts_given (given_of arguments.now) }
{
    Texts {
        by_lines: arguments.has(b'l'),
        max_line: arguments.number(b'm'),
        goes_on: true,
        in_place: arguments.has(b'I'),
    }
}

/// How lines are found whose length `-m N` limits. The run goes on after one that has no answer, or ends.
pub fn lines_asked(arguments: &Arguments<'_>, goes_on: bool) -> Texts
    ensures { result ≡ lines_given (given_of arguments.now) goes_on }
{
    let asked = texts_asked(arguments);
    Texts {
        by_lines: true,
        max_line: asked.max_line,
        goes_on,
        in_place: false,
    }
}

/// The failure for a text that has no answer.
pub fn unanswered_failure(why: NoAnswer) -> Failure
    ensures { result ≡ failure_of why }
{
    match why {
        NoAnswer::Refused(Cause::NotJson(error)) => Failure::NotJson(error),
        NoAnswer::Refused(_) => Failure::NotUtf8(Place { line: 1, column: 0 }),
        NoAnswer::No(words) => Failure::No(words),
        NoAnswer::Failed(words) => Failure::Failed(words),
    }
}
