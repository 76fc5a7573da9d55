//! Why a line is rejected.
ghost use Rattle.std.specs.Prelude.{Some};
ghost use Rattle.tinyjson_lines.specs.Refusal.{refusal_message};

use std::fmt;
use tinyjson::JsonParseError;

/// Why a line is rejected.
#[derive(Clone, Copy, Debug, PartialEq, Eq)]
pub enum Cause {
    /// The line is not UTF-8.
    NotUtf8,
    /// The line is no JSON text, or is nested deeper than the limit. The column of the error is that
    /// within the line.
    NotJson(JsonParseError),
    /// The line has more bytes before its line feed than this limit.
    TooLong(usize),
}

/// A line that is rejected.
#[derive(Clone, Copy, Debug, PartialEq, Eq)]
pub struct Refusal {
    /// The number of the line in the input, from 1.
    pub number: u64,
    /// Why it is rejected.
    pub cause: Cause,
}

/// `line 3, col 4: ` and the message of the parser's kind; `line 3: not UTF-8`; or `line 3: longer than 9 bytes`.
impl fmt::Display for Refusal {
    ghost output = { λ r. Some (refusal_message r) };

    fn fmt<W: fmt::Write>(&self, f: &mut fmt::Formatter<W>) -> fmt::Result {
        let Refusal { number, cause } = *self;
        match cause {
            Cause::NotUtf8 => write!(f, "line {number}: not UTF-8"),
            Cause::NotJson(error) => {
                let (column, kind) = (error.column(), error.kind());
                write!(f, "line {number}, col {column}: {kind}")
            }
            Cause::TooLong(max) => write!(f, "line {number}: longer than {max} bytes"),
        }
    }
}
