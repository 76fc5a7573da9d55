//! The report of a value that is not valid.
ghost use Rattle.std.specs.Prelude.{◌≡◌, ◌++◌, ◌∷◌, [], IfOk, option_map, string_bytes};
ghost use Rattle.std.specs.Str.{chars};
ghost use Rattle.tinyjson.specs.Characters.{line_feed};
ghost use Rattle.tinyjson.specs.Written.{WritesPrefix};
ghost use Rattle.tinyjson_lines.specs.Line.{line_of};
ghost use Rattle.tinyjson_cli.specs.Shown.{shown};
ghost use Rattle.tinyjson_schema_report.specs.Located.{located_tree};
ghost use Rattle.json_schema.specs.Report.{text_line, text_at, headed};

use std::alloc::{AllocError, Global};
use std::io::{self, Write};
use tinyjson_cli::Shown;
use tinyjson_lines::{write_all, write_line};
use tinyjson_schema_report::{Located, located_unit};

/// Writes an output unit (Core, 12.4.2) as one line of normal text, with a line and the column at which the part
/// begins.
///
/// It stops at the first error, and then a prefix of the line was written. It does not flush.
pub fn write_report<W: Write>(
    alloc: Global,
    line: u64,
    located: &Located,
    w: &mut W,
) -> io::Result<()>
    ensures { WritesPrefix (W.contents w.old) (W.contents w.new)
        (line_of (located_tree line located.now)) result }
{
    let unit = located_unit(alloc, line, located)?;
    write_line(alloc, &unit, w)
}

/// Writes a report for people as one line, as `data.json:3:7: /a must be at most 10, is 12`: the name of the file if it
/// has one, a line and the column at which the part begins, the place in the value, and the words.
///
/// It stops at the first error, and then a prefix of the line was written. It does not flush.
pub fn write_text<W: Write>(
    alloc: Global,
    file: Option<&str>,
    line: u64,
    located: &Located,
    w: &mut W,
) -> io::Result<()>
    ensures { WritesPrefix (W.contents w.old) (W.contents w.new)
        (text_line (option_map (λ f. f.now) file.entry) line located.now) result }
{
    let text = report_text(alloc, file, line, located)?;
    write_all(w, text.as_bytes())
}

fn report_text(
    alloc: Global,
    file: Option<&str>,
    line: u64,
    located: &Located,
) -> Result<String, AllocError>
    ensures { IfOk result (λ s. string_bytes s
        ≡ text_line (option_map (λ f. f.now) file.entry) line located.now) }
{
    let finding = &located.finding;
    let pointer = finding.violation.instance_location.to_string(alloc)?;
    let head = format!(in alloc; "{}", Shown(pointer.as_str()))?;
    let text = headed(alloc, head.as_str(), finding.words.as_str())?;
    text_at(alloc, file, line, located.place.column, text.as_str())
}

/// The words behind the pointer to the part, which is empty where that is the whole value.
fn headed(alloc: Global, head: &str, words: &str) -> Result<String, AllocError>
    ensures { IfOk result (λ s. string_bytes s
        ≡ headed head.now (shown (chars words.now) ++ line_feed ∷ [])) }
{
    let words = Shown(words);
    if head.is_empty() {
        return format!(in alloc; "{words}\n");
    }
    format!(in alloc; "{head} {words}\n")
}

/// The text behind the place at which the part begins.
fn text_at(
    alloc: Global,
    file: Option<&str>,
    line: u64,
    column: usize,
    text: &str,
) -> Result<String, AllocError>
    ensures { IfOk result (λ s. string_bytes s
        ≡ text_at (option_map (λ f. f.now) file.entry) line column text.now) }
{
    match file {
        Some(file) => format!(in alloc; "{}:{line}:{column}: {text}", Shown(file)),
        None => format!(in alloc; "line {line}, col {column}: {text}"),
    }
}
