//! Why a run gives no text.
ghost use Rattle.std.specs.Prelude.{◌≡◌, Some};
ghost use Rattle.std.specs.IoError.{error_kind as io_kind};
ghost use Rattle.tinyjson.specs.Error.{error_kind};
ghost use Rattle.jsonnorm.specs.Fault.{status_of, fault_message, IsMemoryOr};

use std::error::Error;
use std::fmt;
use std::io::{self, ErrorKind};
use tinyjson::{JsonParseError, JsonParseErrorKind};

/// Why a run gives no text, or not all of it.
#[derive(Debug, Drop)]
pub enum RunFault {
    /// The input is no JSON text, or is nested deeper than the limit.
    Refused(JsonParseError),
    /// The input isn't UTF-8.
    NotUtf8,
    /// An allocation failed.
    OutOfMemory,
    /// A read failed or was interrupted, or the reads were too many.
    Reading,
    /// A write failed, was interrupted or took nothing.
    Writing,
}

impl RunFault {
    /// The status with which the program ends.
    pub fn status(&self) -> u8
        ensures { result ≡ status_of self.now }
    {
        match self {
            RunFault::Refused(_) => 1,
            RunFault::NotUtf8 => 3,
            RunFault::OutOfMemory | RunFault::Reading | RunFault::Writing => 4,
        }
    }
}

/// The error of a text that the parser refused.
pub(crate) fn refusal(error: JsonParseError) -> RunFault
    ensures { IsMemoryOr (error_kind error ≡ JsonParseErrorKind.OutOfMemory)
        (RunFault.Refused error) result }
{
    if error.kind() == JsonParseErrorKind::OutOfMemory {
        return RunFault::OutOfMemory;
    }
    RunFault::Refused(error)
}

/// The error of a write that failed.
pub(crate) fn writing_error(error: io::Error) -> RunFault
    ensures { IsMemoryOr (io_kind error ≡ ErrorKind.OutOfMemory) RunFault.Writing result }
{
    if error.kind() == ErrorKind::OutOfMemory {
        return RunFault::OutOfMemory;
    }
    RunFault::Writing
}

/// The message that the program writes after its name.
impl fmt::Display for RunFault {
    ghost output = { λ e. Some (fault_message e) };

    fn fmt<W: fmt::Write>(&self, f: &mut fmt::Formatter<W>) -> fmt::Result {
        match self {
            RunFault::Refused(error) => write!(f, "{error}"),
            RunFault::NotUtf8 => f.write_str("input is not UTF-8"),
            RunFault::OutOfMemory => f.write_str("out of memory"),
            RunFault::Reading => f.write_str("reading failed"),
            RunFault::Writing => f.write_str("writing failed"),
        }
    }
}

impl Error for RunFault {}
