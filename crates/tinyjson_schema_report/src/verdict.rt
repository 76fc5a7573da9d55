//! The verdict on a text.
ghost use Rattle.std.specs.Prelude.{◌≡◌, IfOk};
ghost use Rattle.std.specs.Str.{chars};
ghost use Rattle.tinyjson.specs.Grammar.{IsText};
ghost use Rattle.tinyjson_document.specs.Document.{tree};
ghost use Rattle.tinyjson_schema_report.specs.Verdicts.{judged, ValueGives, TextGives, depth_limit};

mod every;

use crate::found::{find_by, limits_of};
use crate::located::{Located, locate};
pub use every::{Every, check_as};
use std::alloc::{AllocError, Global};
use tinyjson::JsonParseError;
use tinyjson_buffers::Buffers;
use tinyjson_document::{Document, Node};
use tinyjson_schema::{CheckError, Checks, Schema};

/// How many containers may be nested in a schema or a value: the check takes stack with the nesting.
pub const DEPTH_LIMIT: usize = 100;

/// The schema that texts are checked against.
#[derive(Clone, Copy)]
pub struct Judge<'a, 's> {
    pub schema: &'a Schema<'s>,
    /// Whether `format` is an assertion.
    pub formats: bool,
    /// The memory that texts are read into, one after another.
    pub buffers: &'a Buffers,
}

/// The verdict on a text.
#[derive(Drop)]
pub enum Verdict {
    /// The text is JSON, and its value is valid.
    Valid,
    /// The text is JSON, and its value violates the schema there.
    Invalid(Located),
    /// The text is no JSON, or its value can't be checked.
    Refused(Cause),
}

/// Why a text can't be checked.
#[derive(Clone, Copy)]
pub enum Cause {
    /// It is not UTF-8.
    NotUtf8,
    /// It is no JSON text, or more than 100 containers are nested in it.
    NotJson(JsonParseError),
    /// It needs more than 200 nested schemas.
    TooDeep,
    /// Its check takes more than five million steps and four for each byte.
    TooMuch,
    /// It is a line with more bytes before its line feed than this limit.
    TooLong(usize),
}

/// Checks a text. The only error is out of memory.
///
/// ```
/// let buffers = Buffers::new(alloc);
/// let judge = Judge { schema: &schema, formats: false, buffers: &buffers };
/// match check_text(alloc, judge, "[1, \"a\"]")? {
///     Verdict::Invalid(located) => .., // of {"items": {"type": "integer"}}: line 1, column 5
///     Verdict::Valid | Verdict::Refused(_) => ..,
/// }
/// ```
pub fn check_text(alloc: Global, judge: Judge<'_, '_>, text: &str) -> Result<Verdict, AllocError>
    ensures { IfOk result (TextGives (judged judge.entry) (chars text.now)) }
{
    match judge.buffers.read_with_depth_limit(text, DEPTH_LIMIT) {
        Ok(document) => {
            let verdict = check_value(alloc, judge, document.root(), text);
            judge.buffers.recycle(document);
            verdict
        }
        Err(error) => {
            if error.is_out_of_memory() {
                return Err(AllocError);
            }
            Ok(Verdict::Refused(Cause::NotJson(error)))
        }
    }
}

/// Checks the value of a text.
fn check_value(
    alloc: Global,
    judge: Judge<'_, '_>,
    value: Node<'_>,
    text: &str,
) -> Result<Verdict, AllocError>
    requires { IsText depth_limit (chars text.now) (tree value) }
    ensures { IfOk result (ValueGives (chars text.now) (judged judge.entry) (tree value.entry)) }
{
    let checks = Checks {
        limits: limits_of(text.len()),
        formats: judge.formats,
    };
    match find_by(judge.schema, value, checks, alloc) {
        Ok(None) => Ok(Verdict::Valid),
        Ok(Some(finding)) => {
            let located = locate(alloc, text, finding)?;
            Ok(Verdict::Invalid(located))
        }
        Err(CheckError::TooDeep) => Ok(Verdict::Refused(Cause::TooDeep)),
        Err(CheckError::TooMuch) => Ok(Verdict::Refused(Cause::TooMuch)),
        Err(CheckError::OutOfMemory) => Err(AllocError),
    }
}
