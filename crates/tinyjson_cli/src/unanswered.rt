//! The message about a line that has no answer.
ghost use Rattle.std.specs.Prelude.{Some, option_map};
ghost use Rattle.tinyjson.specs.Written.{WritesPrefix};
ghost use Rattle.tinyjson_cli.specs.Unanswered.{unanswered_line, unanswered_text};

use crate::refusal::RefusedLine;
use crate::shown::Shown;
use crate::texts::NoAnswer;
use std::alloc::Global;
use std::fmt;
use std::io::{self, Write};
use tinyjson_lines::{Refusal, write_all};

/// A line that has no answer as a program prints it, without the line feed: with the name of the file, or of the program
/// where the input has no name.
#[derive(Clone, Copy)]
pub struct UnansweredLine<'a> {
    pub program: &'a str,
    pub file: Option<&'a str>,
    pub number: u64,
    pub why: &'a NoAnswer,
}

impl fmt::Display for UnansweredLine<'_> {
    ghost output = { λ l. Some (unanswered_text l.program.now (option_map (λ s. s.now) l.file)
        l.number l.why.now) };

    fn fmt<W: fmt::Write>(&self, f: &mut fmt::Formatter<W>) -> fmt::Result {
        let UnansweredLine {
            program,
            file,
            number,
            why,
        } = *self;
        match (file, why) {
            (_, NoAnswer::Refused(cause)) => {
                let refusal = Refusal {
                    number,
                    cause: *cause,
                };
                let refused = RefusedLine {
                    program,
                    file,
                    refusal,
                };
                write!(f, "{refused}")
            }
            (None, NoAnswer::No(words) | NoAnswer::Failed(words)) => {
                write!(f, "{program}: line {number}: {words}")
            }
            (Some(file), NoAnswer::No(words) | NoAnswer::Failed(words)) => {
                write!(f, "{}:{number}: {words}", Shown(file))
            }
        }
    }
}

/// Writes one line about a line that has no answer, at once if the writer takes it.
pub fn tell_unanswered<E: Write>(
    alloc: Global,
    errors: &mut E,
    unanswered: &UnansweredLine<'_>,
) -> io::Result<()>
    ensures { WritesPrefix (E.contents errors.old) (E.contents errors.new)
        (unanswered_line unanswered.now.program.now
        (option_map (λ s. s.now) unanswered.now.file)
        unanswered.now.number unanswered.now.why.now) result }
{
    let words = format!(in alloc; "{unanswered}\n")?;
    write_all(errors, words.as_bytes())
}
