//! Why a value is not checked.
ghost use Rattle.std.specs.Prelude.{None};

use std::fmt;
use tinyjson::JsonParseError;
use tinyjson_schema::{CheckError, SchemaError};

/// Why a value is not checked.
#[derive(Drop)]
pub enum Failure {
    /// The text of the schema is no JSON.
    SchemaText(JsonParseError),
    /// The schema can't be applied.
    Schema(SchemaError),
    /// The text of the value is no JSON.
    ValueText(JsonParseError),
    /// More than 200 nested schemas would be applied, or memory ran out.
    Check(CheckError),
}

impl fmt::Display for Failure {
    ghost output = { λ _. None };

    fn fmt<W: fmt::Write>(&self, f: &mut fmt::Formatter<W>) -> fmt::Result {
        match self {
            Failure::SchemaText(error) => write!(f, "the schema: {error}"),
            Failure::Schema(SchemaError::Refused(place)) => {
                write!(f, "the schema can't be applied at \"{place}\"")
            }
            Failure::Schema(SchemaError::PatternLimit(place)) => {
                write!(f, "the pattern at \"{place}\" is too deep or too large")
            }
            Failure::ValueText(error) => write!(f, "the value: {error}"),
            Failure::Check(CheckError::TooDeep) => f.write_str(
                "too many schemas apply one another",
            ),
            Failure::Check(CheckError::TooMuch) => f.write_str("the check takes too many steps"),
            Failure::Schema(SchemaError::OutOfMemory) | Failure::Check(CheckError::OutOfMemory) => {
                f.write_str("out of memory")
            }
        }
    }
}
