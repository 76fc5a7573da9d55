//! The failures of the program.
ghost use Rattle.std.specs.Prelude.{Some};
ghost use Rattle.json_schema.specs.Failures.{schema_message, TellsSchema, TellsSchemaText, TellsText};
ghost use Rattle.json_schema.specs.Failures.{TellsDocument, TellsEmbed};
ghost use Rattle.json_schema.specs.Failures.{FailsRefused};

use crate::verdict::Cause;
use std::alloc::Global;
use std::fmt;
use tinyjson::{JsonParseError, JsonParseErrorKind};
use tinyjson_cli::{Failure, Shown};
use tinyjson_schema_drafts::EmbedError;
use tinyjson_schema_report::{Refusal, refused_words};

/// Why a schema is not applied.
#[derive(Drop)]
pub enum SchemaFailure<'a> {
    /// It is no JSON text.
    Text(JsonParseError),
    /// It can't be applied, as the words say, at the place to which the pointer leads.
    Refused {
        place: String,
        words: String,
    },
    /// The further document in this file is no JSON text.
    Document {
        file: &'a str,
        error: JsonParseError,
    },
    /// Two documents have this URI.
    Twice(&'a str),
    /// There is no draft of this number.
    NoDraft(usize),
    /// Lines are asked for, and schemas are checked.
    MetaLines,
}

/// The message that the program writes after its name.
impl fmt::Display for SchemaFailure<'_> {
    ghost output = { λ e. Some (schema_message e) };

    fn fmt<W: fmt::Write>(&self, f: &mut fmt::Formatter<W>) -> fmt::Result {
        match self {
            SchemaFailure::Text(error) => write!(f, "the schema: {error}"),
            SchemaFailure::Refused { place, words } => {
                let place = Shown(place.as_str());
                let words = Shown(words.as_str());
                write!(f, "the schema: at \"{place}\": {words}")
            }
            SchemaFailure::Document { file, error } => {
                let (line, column) = (error.line(), error.column());
                write!(f, "{}:{line}:{column}: {}", Shown(file), error.kind())
            }
            SchemaFailure::Twice(uri) => {
                write!(f, "two documents have the URI \"{}\"", Shown(uri))
            }
            SchemaFailure::NoDraft(number) => {
                write!(
                    f,
                    "no draft {number}: the drafts are 4, 6, 7, 2019 and 2020"
                )
            }
            SchemaFailure::MetaLines => f.write_str("--meta checks no lines"),
        }
    }
}

/// The failure for a schema that is not applied, with its message and status.
pub fn schema_failure(alloc: Global, failure: &SchemaFailure<'_>) -> Failure
    ensures { TellsSchema failure.now result }
{
    match failure.to_string(alloc) {
        Ok(words) => Failure::Misused(words),
        Err(_) => Failure::OutOfMemory,
    }
}

/// The failure for a schema that can't be applied: the place, and why; or out of memory.
// Not inlined, so that the check of values has all of the stack.
#[inline(never)]
pub fn refused_failure(alloc: Global, refusal: Refusal<'_>) -> Failure
    ensures { FailsRefused refusal.entry result }
{
    let Ok(words) = refused_words(refusal, alloc) else {
        return Failure::OutOfMemory;
    };
    let Ok(place) = refusal.place.to_string(alloc) else {
        return Failure::OutOfMemory;
    };
    schema_failure(alloc, &SchemaFailure::Refused { place, words })
}

/// The failure for a schema whose text is no JSON; or out of memory.
pub fn schema_text_failure(alloc: Global, error: JsonParseError) -> Failure
    ensures { TellsSchemaText error result }
{
    if error.kind() == JsonParseErrorKind::OutOfMemory {
        return Failure::OutOfMemory;
    }
    schema_failure(alloc, &SchemaFailure::Text(error))
}

/// The failure for a further document whose text is no JSON; or out of memory.
pub fn document_failure(alloc: Global, file: &str, error: JsonParseError) -> Failure
    ensures { TellsDocument file.now error result }
{
    match error.kind() {
        JsonParseErrorKind::OutOfMemory => Failure::OutOfMemory,
        _ => schema_failure(alloc, &SchemaFailure::Document { file, error }),
    }
}

/// The failure for a meta-schema that is not embedded.
pub fn embed_failure(alloc: Global, error: EmbedError) -> Failure
    ensures { TellsEmbed error result }
{
    match error {
        EmbedError::NotJson(document, error) => document_failure(alloc, document.uri, error),
        EmbedError::OutOfMemory => Failure::OutOfMemory,
    }
}

/// The failure for a text that is not checked, with its message and status.
pub fn text_failure(alloc: Global, cause: Cause) -> Failure
    ensures { TellsText cause result }
{
    let words = match cause {
        Cause::NotJson(error) => return Failure::NotJson(error),
        Cause::NotUtf8 => "not UTF-8",
        Cause::TooDeep => "schemas are nested too deep",
        Cause::TooMuch => "the check takes too many steps",
        Cause::TooLong(_) => "too long",
    };
    match String::from_str(alloc, words) {
        Ok(words) => Failure::Refused(words),
        Err(_) => Failure::OutOfMemory,
    }
}
