//! All that the value of a text violates.
ghost use Rattle.std.specs.Prelude.{IfOk};
ghost use Rattle.std.specs.Str.{chars};
ghost use Rattle.tinyjson.specs.Grammar.{IsText};
ghost use Rattle.tinyjson_document.specs.Document.{tree};
ghost use Rattle.tinyjson_schema_report.specs.Verdicts.{judged, depth_limit};
ghost use Rattle.tinyjson_schema_report.specs.Verdicts.{ValueGivesEvery, TextGivesEvery, TextGivesAs, IsAs};

use super::{Cause, DEPTH_LIMIT, Judge, Verdict, check_text};
use crate::every::find_every;
use crate::found::limits_of;
use crate::located::{Located, locate_every};
use std::alloc::{AllocError, Global};
use tinyjson_document::{Document, Node};
use tinyjson_schema::{CheckError, Checks};

/// All that the value of a text violates.
#[derive(Drop)]
pub enum Every {
    /// The text is JSON, and its value violates the schema there. None means that it is valid.
    Found(Vec<Located>),
    /// The text is no JSON, or its value can't be checked.
    Refused(Cause),
}

/// Checks a text: the first violations, up to `most`, in order; or else the first one as `check_text` finds it. The
/// only error is out of memory.
///
/// ```
/// let every = check_as(alloc, judge, "[1, \"a\"]", Some(100))?;
/// ```
pub fn check_as(
    alloc: Global,
    judge: Judge<'_, '_>,
    text: &str,
    most: Option<usize>,
) -> Result<Every, AllocError>
    ensures { IfOk result (TextGivesAs most (judged judge.entry) (chars text.now)) }
{
    match most {
        Some(most) => check_every(alloc, judge, text, most),
        None => {
            let verdict = check_text(alloc, judge, text)?;
            as_every(alloc, verdict)
        }
    }
}

/// The violations of a verdict: none or one.
fn as_every(alloc: Global, verdict: Verdict) -> Result<Every, AllocError>
    ensures { IfOk result (IsAs verdict) }
{
    match verdict {
        Verdict::Valid => Ok(Every::Found(Vec::new(alloc))),
        Verdict::Invalid(located) => {
            let mut found = Vec::new(alloc);
            found.push(located)?;
            Ok(Every::Found(found))
        }
        Verdict::Refused(cause) => Ok(Every::Refused(cause)),
    }
}

/// Checks a text: the first violations, up to `most`, in order.
fn check_every(
    alloc: Global,
    judge: Judge<'_, '_>,
    text: &str,
    most: usize,
) -> Result<Every, AllocError>
    ensures { IfOk result (TextGivesEvery most (judged judge.entry) (chars text.now)) }
{
    match Document::read_with_depth_limit(alloc, text, DEPTH_LIMIT) {
        Ok(document) => check_value(alloc, judge, document.root(), text, most),
        Err(error) => {
            if error.is_out_of_memory() {
                return Err(AllocError);
            }
            Ok(Every::Refused(Cause::NotJson(error)))
        }
    }
}

/// Checks the value of a text.
fn check_value(
    alloc: Global,
    judge: Judge<'_, '_>,
    value: Node<'_>,
    text: &str,
    most: usize,
) -> Result<Every, AllocError>
    requires { IsText depth_limit (chars text.now) (tree value) }
    ensures { IfOk result
        (ValueGivesEvery most (chars text.now) (judged judge.entry) (tree value.entry)) }
{
    let checks = Checks {
        limits: limits_of(text.len()),
        formats: judge.formats,
    };
    match find_every(judge.schema, value, checks, most, alloc) {
        Ok(found) => {
            let located = locate_every(alloc, text, found)?;
            Ok(Every::Found(located))
        }
        Err(CheckError::TooDeep) => Ok(Every::Refused(Cause::TooDeep)),
        Err(CheckError::TooMuch) => Ok(Every::Refused(Cause::TooMuch)),
        Err(CheckError::OutOfMemory) => Err(AllocError),
    }
}
