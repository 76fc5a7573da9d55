//! The message about a line that is rejected.
ghost use Rattle.std.specs.Prelude.{Some, option_map};
ghost use Rattle.tinyjson.specs.Written.{WritesPrefix};
ghost use Rattle.tinyjson_cli.specs.Refusals.{refusal_line, refusal_text};

use crate::shown::Shown;
use std::alloc::Global;
use std::fmt;
use std::io::{self, Write};
use tinyjson_lines::{Cause, Refusal, write_all};

/// A rejected line as a program prints it, without the line feed: with the name of the file, or of the program where
/// the input has no name.
#[derive(Clone, Copy)]
pub struct RefusedLine<'a> {
    pub program: &'a str,
    pub file: Option<&'a str>,
    pub refusal: Refusal,
}

impl fmt::Display for RefusedLine<'_> {
    ghost output = { λ r. Some (refusal_text
        r.program.now (option_map (λ s. s.now) r.file) r.refusal) };

    fn fmt<W: fmt::Write>(&self, f: &mut fmt::Formatter<W>) -> fmt::Result {
        let RefusedLine {
            program,
            file,
            refusal,
        } = *self;
        let Refusal { number, cause } = refusal;
        match (file, cause) {
            (None, _) => write!(f, "{program}: {refusal}"),
            (Some(file), Cause::NotUtf8) => write!(f, "{}:{number}: not UTF-8", Shown(file)),
            (Some(file), Cause::NotJson(error)) => {
                let (column, kind) = (error.column(), error.kind());
                write!(f, "{}:{number}:{column}: {kind}", Shown(file))
            }
            (Some(file), Cause::TooLong(max)) => {
                write!(f, "{}:{number}: longer than {max} bytes", Shown(file))
            }
        }
    }
}

/// Writes one line about a line that is rejected, at once if the writer takes it.
pub fn tell<E: Write>(alloc: Global, errors: &mut E, refused: &RefusedLine<'_>) -> io::Result<()>
    ensures { WritesPrefix (E.contents errors.old) (E.contents errors.new)
        (refusal_line refused.now.program.now (option_map (λ s. s.now) refused.now.file)
        refused.now.refusal)
        result }
{
    let words = format!(in alloc; "{refused}\n")?;
    write_all(errors, words.as_bytes())
}
