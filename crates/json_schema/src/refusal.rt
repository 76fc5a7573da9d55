//! Messages about lines that can't be checked.
ghost use Rattle.std.specs.Prelude.{◌≡◌, IfOk, option_map, string_bytes};
ghost use Rattle.tinyjson.specs.Written.{WritesPrefix};
ghost use Rattle.json_schema.specs.Told.{told_line, told_depth, told_steps};

use crate::verdict::Cause;
use std::alloc::{AllocError, Global};
use std::io::{self, Write};
use tinyjson_cli::{RefusedLine, Shown, tell};
use tinyjson_lines::{self as lines, Refusal, write_all};

/// A line that can't be checked.
#[derive(Clone, Copy)]
pub struct Unchecked<'a> {
    /// The name of the file with the line, if it has one.
    pub file: Option<&'a str>,
    /// The number of the line in the input, from 1.
    pub number: u64,
    /// Why it can't be checked.
    pub cause: Cause,
}

/// Writes a message of one line about a line that can't be checked.
pub fn tell_line<E: Write>(alloc: Global, errors: &mut E, line: Unchecked<'_>) -> io::Result<()>
    ensures { WritesPrefix (E.contents errors.old) (E.contents errors.new)
        (told_line (option_map (λ f. f.now) line.entry.file) line.entry.number line.entry.cause)
        result }
{
    let Unchecked {
        file,
        number,
        cause,
    } = line;
    let cause = match cause {
        Cause::NotUtf8 => lines::Cause::NotUtf8,
        Cause::NotJson(error) => lines::Cause::NotJson(error),
        Cause::TooLong(max) => lines::Cause::TooLong(max),
        Cause::TooDeep => return tell_depth(alloc, errors, file, number),
        Cause::TooMuch => return tell_steps(alloc, errors, file, number),
    };
    let refused = RefusedLine {
        program: "json_schema",
        file,
        refusal: Refusal { number, cause },
    };
    tell(alloc, errors, &refused)
}

/// Writes a message of one line about a line whose check needs too many nested schemas.
fn tell_depth<E: Write>(
    alloc: Global,
    errors: &mut E,
    file: Option<&str>,
    number: u64,
) -> io::Result<()>
    ensures { WritesPrefix (E.contents errors.old) (E.contents errors.new)
        (told_depth (option_map (λ f. f.now) file.entry) number) result }
{
    let words = depth_words(alloc, file, number)?;
    write_all(errors, words.as_bytes())
}

fn depth_words(alloc: Global, file: Option<&str>, number: u64) -> Result<String, AllocError>
    ensures { IfOk result (λ words. string_bytes words
        ≡ told_depth (option_map (λ f. f.now) file.entry) number) }
{
    match file {
        Some(name) => format!(in alloc; "{}:{number}: schemas are nested too deep\n", Shown(name)),
        None => format!(in alloc; "json_schema: line {number}: schemas are nested too deep\n"),
    }
}

/// Writes a message of one line about a line whose check takes too many steps.
fn tell_steps<E: Write>(
    alloc: Global,
    errors: &mut E,
    file: Option<&str>,
    number: u64,
) -> io::Result<()>
    ensures { WritesPrefix (E.contents errors.old) (E.contents errors.new)
        (told_steps (option_map (λ f. f.now) file.entry) number) result }
{
    let words = steps_words(alloc, file, number)?;
    write_all(errors, words.as_bytes())
}

fn steps_words(alloc: Global, file: Option<&str>, number: u64) -> Result<String, AllocError>
    ensures { IfOk result (λ words. string_bytes words
        ≡ told_steps (option_map (λ f. f.now) file.entry) number) }
{
    match file {
        Some(name) => format!(in alloc;
            "{}:{number}: the check takes too many steps\n",
            Shown(name)
        ),
        None => format!(in alloc; "json_schema: line {number}: the check takes too many steps\n"),
    }
}
