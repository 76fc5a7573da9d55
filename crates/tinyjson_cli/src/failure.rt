//! Why a program has no answer, or not all of it.
ghost use Rattle.std.specs.Prelude.{◌≡◌, option_map};
ghost use Rattle.tinyjson_cli.specs.Failures.{failure_status, failure_message, goes_on, message_text};
ghost use Rattle.tinyjson_cli.specs.declared.failure.Failure.{Failure};

use crate::shown::Shown;
use crate::status::Status;
use std::alloc::AllocError;
use std::{fmt, io};
use tinyjson::JsonParseError;

/// A place in a text: its line, from 1, and how many characters of the line come before it.
#[derive(Clone, Copy, Debug, PartialEq, Eq)]
pub struct Place {
    pub line: usize,
    pub column: usize,
}

/// Why a program has no answer, or not all of it.
#[derive(Drop)]
pub enum Failure {
    /// The answer for an input is no, as these words say.
    No(String),
    /// The arguments, or a file that they name, are not understood, as these words say.
    Misused(String),
    /// An input is no JSON text.
    NotJson(JsonParseError),
    /// An input is not UTF-8 from this place on.
    NotUtf8(Place),
    /// An input is refused, as these words say.
    Refused(String),
    /// A limit is met or a write failed, as these words say.
    Failed(String),
    /// An input can't be read.
    Reading(io::Error),
    /// The output can't be written.
    Writing(io::Error),
    /// Memory ran out.
    OutOfMemory,
    /// The reader of the output has gone.
    Closed,
}

impl From<AllocError> for Failure {
    ghost from_gives = { λ _ f. f ≡ Failure.OutOfMemory };

    fn from(_: AllocError) -> Failure {
        Failure::OutOfMemory
    }
}

impl Failure {
    /// The status with which a program ends.
    pub fn status(&self) -> Status
        ensures { result ≡ failure_status self.now }
    {
        match self {
            Failure::No(_) => Status::No,
            Failure::Misused(_) => Status::Misused,
            Failure::NotJson(_) | Failure::NotUtf8(_) | Failure::Refused(_) => Status::Refused,
            Failure::Failed(_) | Failure::Reading(_) | Failure::Writing(_) => Status::Failed,
            Failure::OutOfMemory | Failure::Closed => Status::Failed,
        }
    }

    /// Whether other inputs are answered after it: where it is about one input alone.
    pub fn goes_on(&self) -> bool
        ensures { result ≡ goes_on self.now }
    {
        match self {
            Failure::No(_) | Failure::NotJson(_) | Failure::NotUtf8(_) => true,
            Failure::Refused(_) | Failure::Reading(_) => true,
            _ => false,
        }
    }
}

/// What is wrong, without the place.
impl fmt::Display for Failure {
    ghost output = { λ f. failure_message f };

    fn fmt<W: fmt::Write>(&self, f: &mut fmt::Formatter<W>) -> fmt::Result {
        match self {
            Failure::No(words) => f.write_str(words.as_str()),
            Failure::Misused(words) => f.write_str(words.as_str()),
            Failure::NotJson(error) => write!(f, "{}", error.kind()),
            Failure::NotUtf8(_) => f.write_str("not UTF-8"),
            Failure::Refused(words) => f.write_str(words.as_str()),
            Failure::Failed(words) => f.write_str(words.as_str()),
            Failure::Reading(error) => write!(f, "{error}"),
            Failure::Writing(error) => write!(f, "{error}"),
            Failure::OutOfMemory => f.write_str("out of memory"),
            Failure::Closed => f.write_str("the reader of the output has gone"),
        }
    }
}

/// A failure as a program prints it, without the line feed: the name of the input's file, or of the program where the
/// input has no name, and where in a text it is.
#[derive(Drop)]
pub struct Message<'a> {
    pub program: &'a str,
    pub file: Option<&'a str>,
    pub failure: &'a Failure,
}

impl fmt::Display for Message<'_> {
    ghost output = { λ m. message_text
        m.program.now (option_map (λ s. s.now) m.file) m.failure.now };

    fn fmt<W: fmt::Write>(&self, f: &mut fmt::Formatter<W>) -> fmt::Result {
        let Message {
            program,
            file,
            failure,
        } = *self;
        match (file, failure) {
            (Some(file), Failure::NotJson(error)) => {
                let (line, column) = (error.line(), error.column());
                write!(f, "{}:{line}:{column}: {failure}", Shown(file))
            }
            (Some(file), Failure::NotUtf8(Place { line, column })) => {
                write!(f, "{}:{line}:{column}: {failure}", Shown(file))
            }
            (None, Failure::NotJson(error)) => write!(f, "{program}: {error}"),
            (None, Failure::NotUtf8(Place { line, column })) => {
                write!(
                    f,
                    "{program}: Parse error at line:{line}, col:{column}: not UTF-8"
                )
            }
            (Some(file), Failure::No(_) | Failure::Refused(_) | Failure::Reading(_)) => {
                write!(f, "{}: {failure}", Shown(file))
            }
            _ => write!(f, "{program}: {failure}"),
        }
    }
}
