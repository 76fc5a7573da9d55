//! The normal forms of the lines of an input.
ghost use Rattle.std.specs.Prelude.{[], ◌∷◌, ℕ, List, Option};
ghost use Rattle.std.specs.Result.{result_map_both};
ghost use Rattle.tinyjson.specs.Tree.{Tree};
ghost use Rattle.tinyjson.specs.Written.{WritesPrefix};
ghost use Rattle.tinyjson_normal.specs.Normal.{HasTree};
ghost use Rattle.tinyjson_lines.specs.Line.{line_of};
ghost use Rattle.json_lines.specs.Run.{IsGiven, ReadsNext, Runs, Handles, WritesGiven, WritesLine};

use std::alloc::Global;
use std::io::{self, BufRead, ErrorKind, Write};
use std::str;
use tinyjson_cli::{RefusedLine, tell};
use tinyjson_lines::{
    Cause, CheckedRead, LineRead, Refusal, content, read_line_checked, read_line_within, write_all,
};
use tinyjson_normal::{NormalReader, NormalText};

/// How lines are read.
#[derive(Clone, Copy)]
pub struct Options<'a> {
    /// Whether the run goes on after a line that is rejected.
    pub goes_on: bool,
    /// How many containers may be open at once, if there is a limit.
    pub limit: Option<usize>,
    /// How many bytes a line may have before its line feed, if there is a limit.
    pub max_line: Option<usize>,
    /// The name of the file with the lines, for the messages about those that are rejected.
    pub file: Option<&'a str>,
}

/// What became of the lines that were read.
#[derive(Clone, Copy)]
pub enum Outcome {
    /// The normal form of each was written.
    AllWritten,
    /// One was rejected, or more than one.
    SomeRefused,
}

/// Writes the normal form of each line of the input and a line feed to `output`, and a message about
/// each line that is rejected to `errors`.
///
/// A line ends after its line feed, and the last one where the input ends. One that is not UTF-8, no
/// JSON text, or beyond a limit is rejected: nothing is written for it, and the message
/// has its number, where in it the parser stopped, and why. The run goes on after it if the options
/// ask for that, and otherwise ends. A line that is too long is passed over and not kept in memory, and where
/// only the nesting is limited, so is a long one whose beginning is rejected.
///
/// Memory that runs out, a read or a write that fails is an error. Then a prefix was written of the
/// output for the lines so far, and a prefix of the messages.
///
/// ```
/// let mut input = b"[1.0]\n{\n2".as_slice();
/// run(alloc, options, &mut input, &mut output, &mut errors)?; // writes `[1]`, and a message about line 2
/// ```
pub fn run<R: BufRead, W: Write, E: Write>(
    alloc: Global,
    options: Options<'_>,
    input: &mut R,
    output: &mut W,
    errors: &mut E,
) -> io::Result<Outcome>
    ensures { Runs options.entry (R.remaining input.old) (R.remaining input.new)
        (W.contents output.old) (W.contents output.new)
        (E.contents errors.old) (E.contents errors.new) result }
{
    let mut line = Vec::new(alloc);
    let mut reader = NormalReader::new(alloc);
    let mut outcome = Outcome::AllWritten;
    for number in 1..u64::MAX {
        let read = read_next(alloc, options, input, &mut line)?;
        if let CheckedRead::End = read {
            output.flush()?;
            return Ok(outcome);
        }
        let given = read.given(line.as_slice());
        let handled = handle(&mut reader, options, number, given, output, errors)?;
        let Outcome::SomeRefused = handled else {
            continue;
        };
        if !options.goes_on {
            return Ok(Outcome::SomeRefused);
        }
        outcome = Outcome::SomeRefused;
    }
    Err(io::Error::new(ErrorKind::InvalidData, "too many lines"))
}

/// Reads the next line. One that is too long or, where there is a limit of nesting alone, one whose beginning is
/// rejected is passed over.
fn read_next<R: BufRead>(
    alloc: Global,
    options: Options<'_>,
    input: &mut R,
    line: &mut Vec<u8>,
) -> io::Result<CheckedRead>
    ensures { ReadsNext options.entry.limit options.entry.max_line
        (R.remaining input.old) (R.remaining input.new) line.new.items result }
{
    if let (Some(limit), None) = (options.limit, options.max_line) {
        return read_line_checked(alloc, input, line, limit);
    }
    match read_line_within(input, line, options.max_line)? {
        LineRead::Whole => Ok(CheckedRead::Whole),
        LineRead::TooLong(max) => Ok(CheckedRead::Rejected(Cause::TooLong(max))),
        LineRead::End => Ok(CheckedRead::End),
    }
}

/// Writes the normal form of one line that is given, or a message about it.
fn handle<W: Write, E: Write>(
    reader: &mut NormalReader,
    options: Options<'_>,
    number: u64,
    given: Result<&[u8], Cause>,
    output: &mut W,
    errors: &mut E,
) -> io::Result<Outcome>
    ensures { (line : List ℕ) →
        IsGiven options.entry.limit options.entry.max_line line
        (result_map_both (λ s. s.now) (λ c. c) given.entry) →
        Handles options.entry number line (W.contents output.old) (W.contents output.new)
        (E.contents errors.old) (E.contents errors.new) result }
{
    let Some(cause) = write_given(reader, options.limit, given, output)? else {
        return Ok(Outcome::AllWritten);
    };
    output.flush()?;
    let refused = RefusedLine {
        program: "json_lines",
        file: options.file,
        refusal: Refusal { number, cause },
    };
    tell(reader.allocator(), errors, &refused)?;
    Ok(Outcome::SomeRefused)
}

/// Writes the normal form of one line that is given; or nothing, if the line is rejected.
fn write_given<W: Write>(
    reader: &mut NormalReader,
    limit: Option<usize>,
    given: Result<&[u8], Cause>,
    output: &mut W,
) -> io::Result<Option<Cause>>
    ensures { (max : Option ℕ) → (line : List ℕ) →
        IsGiven limit max line (result_map_both (λ s. s.now) (λ c. c) given.entry) →
        WritesGiven limit max line (W.contents output.old) (W.contents output.new) result }
{
    match given {
        Ok(line) => write_line(reader, limit, line, output),
        Err(cause) => Ok(Some(cause)),
    }
}

/// Writes the normal form of one line and a line feed; or nothing, if the line is rejected.
fn write_line<W: Write>(
    reader: &mut NormalReader,
    limit: Option<usize>,
    line: &[u8],
    output: &mut W,
) -> io::Result<Option<Cause>>
    ensures { WritesLine limit line.now (W.contents output.old) (W.contents output.new) result }
{
    let Ok(text) = str::from_utf8(content(line)) else {
        return Ok(Some(Cause::NotUtf8));
    };
    match reader.read(text, limit) {
        Ok(normal) => {
            write_normal(reader.allocator(), &normal, output)?;
            reader.reuse(normal);
            Ok(None)
        }
        Err(error) => {
            if error.is_out_of_memory() {
                return Err(error.into());
            }
            Ok(Some(Cause::NotJson(error)))
        }
    }
}

/// Writes the compact text of what was read, and a line feed.
fn write_normal<W: Write>(alloc: Global, normal: &NormalText, output: &mut W) -> io::Result<()>
    ensures { (t : Tree) → HasTree normal.now t →
        WritesPrefix (W.contents output.old) (W.contents output.new) (line_of t) result }
{
    normal.write_to(alloc, output)?;
    write_all(output, b"\n")
}
