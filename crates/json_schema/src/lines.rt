//! Checks each line of an input.
ghost use Rattle.std.specs.Prelude.{◌≡◌, ℕ, List};
ghost use Rattle.std.specs.Result.{result_map_both};
ghost use Rattle.tinyjson.specs.Written.{WritesPrefix};
ghost use Rattle.tinyjson_lines.specs.Within.{IsGiven, IsWithin};
ghost use Rattle.json_schema.specs.Run.{Runs, Handles, Refuses, both, status, shown_of};
ghost use Rattle.json_schema.specs.Run.{line_text, file_of, report_by};
ghost use Rattle.json_schema.specs.Run.{is_line_shown, is_others, is_kept};

use crate::refusal::{Unchecked, tell_line};
use crate::report::{write_report, write_text};
use crate::verdict::{Cause, Judge, Verdict, check_line};
use std::alloc::Global;
use std::io::{self, BufRead, ErrorKind, Write};
use tinyjson_cli::Status;
use tinyjson_lines::{LineRead, content, read_line_within, write_all};
use tinyjson_schema_report::Located;

/// The schema that lines are checked against, and the file that they are from.
#[derive(Clone, Copy)]
pub struct Check<'a, 's> {
    /// The schema.
    pub judge: Judge<'a, 's>,
    /// The name of the file with the lines, if it has one, for messages.
    pub file: Option<&'a str>,
    /// How many bytes a line may have before its line feed, if there is a limit.
    pub max_line: Option<usize>,
    /// What is written of the lines.
    pub shows: Shows,
}

/// What is written of values.
#[derive(Clone, Copy)]
pub enum Shows {
    /// A report of each value that is not valid, as JSON.
    Reports,
    /// The same for people.
    Texts,
    /// The lines that are valid.
    ValidLines,
    /// The other lines, but those that are too long.
    OtherLines,
}

/// The outcome for the texts that were checked.
#[derive(Clone, Copy)]
pub enum Outcome {
    /// All are valid.
    AllValid,
    /// All are JSON, and some are not valid.
    SomeInvalid,
    /// Some are no JSON, or could not be checked.
    SomeRefused,
}

impl Outcome {
    /// The status with which the program ends: 1 if one is not valid or was rejected.
    pub fn status(self) -> Status
        ensures { result ≡ status self }
    {
        match self {
            Outcome::AllValid => Status::Done,
            Outcome::SomeInvalid | Outcome::SomeRefused => Status::No,
        }
    }

    /// The worse of two outcomes.
    fn and(self, other: Outcome) -> Outcome
        ensures { result ≡ both self other }
    {
        match (self, other) {
            (Outcome::AllValid, outcome) => outcome,
            (Outcome::SomeInvalid, Outcome::SomeRefused) => Outcome::SomeRefused,
            (Outcome::SomeInvalid, _) => Outcome::SomeInvalid,
            (Outcome::SomeRefused, _) => Outcome::SomeRefused,
        }
    }
}

/// Checks the JSON text on each line of the input. For one that is not valid it writes a report with the line's
/// number and the column to `output`, or it writes there the lines that are valid, or the others. For one that can't
/// be checked it writes the number and the reason to `errors`, and goes on.
///
/// A line ends after its line feed, and the last one with the input. One that is too long is not kept in memory. The
/// error is out of memory, or a read or a write that fails. Then a prefix was written of the output and of the
/// messages for the lines so far.
///
/// ```
/// let mut input = b"1\n\"a\"\n{".as_slice();
/// check_lines(alloc, check, &mut input, &mut output, &mut errors)?; // of {"type":"integer"}: writes of lines 2 and 3
/// ```
pub fn check_lines<R: BufRead, W: Write, E: Write>(
    alloc: Global,
    check: Check<'_, '_>,
    input: &mut R,
    output: &mut W,
    errors: &mut E,
) -> io::Result<Outcome>
    ensures { Runs check.entry (R.remaining input.old) (R.remaining input.new)
        (W.contents output.old) (W.contents output.new)
        (E.contents errors.old) (E.contents errors.new) result }
{
    let mut line = Vec::new(alloc);
    let mut outcome = Outcome::AllValid;
    for number in 1..u64::MAX {
        let read = read_line_within(input, &mut line, check.max_line)?;
        if let LineRead::End = read {
            output.flush()?;
            return Ok(outcome);
        }
        let given = read.given(line.as_slice());
        let of_line = handle(alloc, check, number, given, output, errors)?;
        outcome = outcome.and(of_line);
    }
    Err(io::Error::new(ErrorKind::InvalidData, "too many lines"))
}

/// Checks one line as it is given, and writes what is shown of it, or its message.
fn handle<W: Write, E: Write>(
    alloc: Global,
    check: Check<'_, '_>,
    number: u64,
    given: Result<&[u8], usize>,
    output: &mut W,
    errors: &mut E,
) -> io::Result<Outcome>
    ensures { (line : List ℕ) →
        IsGiven check.entry.max_line line
        (result_map_both (λ s. s.now) (λ m. m) given.entry) →
        Handles check.entry number line
        (W.contents output.old) (W.contents output.new)
        (E.contents errors.old) (E.contents errors.new) result }
{
    match given {
        Ok(line) => handle_line(alloc, check, number, line, output, errors),
        Err(max) => refuse(alloc, check, number, Cause::TooLong(max), output, errors),
    }
}

/// Checks a line that is not too long.
fn handle_line<W: Write, E: Write>(
    alloc: Global,
    check: Check<'_, '_>,
    number: u64,
    line: &[u8],
    output: &mut W,
    errors: &mut E,
) -> io::Result<Outcome>
    ensures { IsWithin check.entry.max_line line.now → Handles check.entry number line.now
        (W.contents output.old) (W.contents output.new)
        (E.contents errors.old) (E.contents errors.new) result }
{
    let verdict = check_line(alloc, check.judge, line)?;
    show(alloc, check, number, line, &verdict, output)?;
    match verdict {
        Verdict::Valid => Ok(Outcome::AllValid),
        Verdict::Invalid(_) => Ok(Outcome::SomeInvalid),
        Verdict::Refused(cause) => refuse(alloc, check, number, cause, output, errors),
    }
}

/// Writes what is shown of a line with this verdict.
fn show<W: Write>(
    alloc: Global,
    check: Check<'_, '_>,
    number: u64,
    line: &[u8],
    verdict: &Verdict,
    output: &mut W,
) -> io::Result<()>
    ensures { WritesPrefix (W.contents output.old) (W.contents output.new)
        (shown_of check.entry number line.now verdict.now) result }
{
    if is_line_shown(verdict, check.shows) {
        return write_content(line, output);
    }
    match verdict {
        Verdict::Invalid(located) => show_finding(alloc, check, number, located, output),
        Verdict::Valid => Ok(()),
        Verdict::Refused(_) => Ok(()),
    }
}

/// Whether a line with this verdict is written itself.
fn is_line_shown(verdict: &Verdict, shows: Shows) -> bool
    ensures { result ≡ is_line_shown verdict.now shows }
{
    match verdict {
        Verdict::Valid => matches!(shows, Shows::ValidLines),
        Verdict::Invalid(_) => is_others(shows),
        Verdict::Refused(cause) => is_kept(*cause) && is_others(shows),
    }
}

fn is_others(shows: Shows) -> bool
    ensures { result ≡ is_others shows }
{
    matches!(shows, Shows::OtherLines)
}

/// Whether the line was kept in memory.
fn is_kept(cause: Cause) -> bool
    ensures { result ≡ is_kept cause }
{
    !matches!(cause, Cause::TooLong(_))
}

/// Writes the report of a line, where reports are written.
fn show_finding<W: Write>(
    alloc: Global,
    check: Check<'_, '_>,
    number: u64,
    located: &Located,
    output: &mut W,
) -> io::Result<()>
    ensures { WritesPrefix (W.contents output.old) (W.contents output.new)
        (report_by check.entry.shows (file_of check.entry) number located.now) result }
{
    match check.shows {
        Shows::Reports => write_report(alloc, number, located, output),
        Shows::Texts => write_text(alloc, check.file, number, located, output),
        Shows::ValidLines => Ok(()),
        Shows::OtherLines => Ok(()),
    }
}

/// Writes the line with a line feed, which the last one may lack.
fn write_content<W: Write>(line: &[u8], output: &mut W) -> io::Result<()>
    ensures { WritesPrefix (W.contents output.old) (W.contents output.new)
        (line_text line.now) result }
{
    write_all(output, content(line))?;
    write_all(output, b"\n")
}

/// Writes the message of a line that can't be checked, after what was shown of those before it.
fn refuse<W: Write, E: Write>(
    alloc: Global,
    check: Check<'_, '_>,
    number: u64,
    cause: Cause,
    output: &mut W,
    errors: &mut E,
) -> io::Result<Outcome>
    ensures { Refuses check.entry number cause
        (W.contents output.old) (W.contents output.new)
        (E.contents errors.old) (E.contents errors.new) result }
{
    output.flush()?;
    let line = Unchecked {
        file: check.file,
        number,
        cause,
    };
    tell_line(alloc, errors, line)?;
    Ok(Outcome::SomeRefused)
}
