//! The verdict on a line.
ghost use Rattle.std.specs.Prelude.{IfOk};
ghost use Rattle.tinyjson_schema_report.specs.Verdicts.{judged};
ghost use Rattle.json_schema.specs.Verdicts.{LineGives};

use std::alloc::{AllocError, Global};
use std::str;
use tinyjson_lines::content;
use tinyjson_schema_report::check_text;
pub use tinyjson_schema_report::{Cause, DEPTH_LIMIT, Judge, Verdict};

/// Checks the text on a line, without its line feed.
pub fn check_line(alloc: Global, judge: Judge<'_, '_>, line: &[u8]) -> Result<Verdict, AllocError>
    ensures { IfOk result (LineGives (judged judge.entry) line.now) }
{
    match str::from_utf8(content(line)) {
        Ok(text) => check_text(alloc, judge, text),
        Err(_) => Ok(Verdict::Refused(Cause::NotUtf8)),
    }
}
