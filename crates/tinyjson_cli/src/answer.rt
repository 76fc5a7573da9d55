//! The answers of a program for some inputs, one after the other.

use crate::failure::Failure;
use crate::input::{read_text, writing_error};
use crate::output::Watched;
use crate::program::{Program, report};
use crate::status::Status;
use std::alloc::Global;
use std::io::{self, BufWriter, Write};

/// How many bytes of the output are gathered.
const BUFFER_LEN: usize = 64 * 1024;

/// What a program answers for the text of an input.
pub trait Answer {
    /// Writes the answer for a text, and returns its status. Where it is a failure after which other inputs are
    /// answered, nothing is written.
    fn answer<W: Write>(
        &self,
        alloc: Global,
        text: &str,
        output: &mut W,
    ) -> Result<Status, Failure>;

    /// Does as [`Answer::answer`], for a text that the answer may keep.
    fn answer_owned<W: Write>(
        &self,
        alloc: Global,
        text: String,
        output: &mut W,
    ) -> Result<Status, Failure> {
        self.answer(alloc, text.as_str(), output)
    }
}

/// Answers each file, or standard input for `-` and if there are no files. A message about a file begins with its name.
/// The status is the greatest.
pub fn answer_files<A: Answer>(
    rt: &HostRuntime,
    program: Program<'_>,
    files: &[&str],
    asked: &A,
) -> Status {
    let alloc = rt.alloc();
    let writer = Watched::new(io::writer(rt));
    let Ok(mut output) = BufWriter::with_capacity(alloc, BUFFER_LEN, writer) else {
        return report(rt, program, None, &Failure::OutOfMemory);
    };
    let inputs = if files.is_empty() { &["-"] } else { files };
    let mut status = Status::Done;
    for name in inputs {
        let file = if *name == "-" { None } else { Some(*name) };
        let failure = match answer_file(rt, file, asked, &mut output) {
            Ok(of_file) => {
                status = status.and(of_file);
                continue;
            }
            Err(failure) => failure,
        };
        let failure = match output.get_mut().take_error() {
            Some(error) => writing_error(error),
            None => failure,
        };
        status = status.and(report(rt, program, file, &failure));
        if !failure.goes_on() {
            break;
        }
    }
    // Dropped, the gathered bytes would be written, also after a write that failed.
    let (_output, _gathered) = output.into_parts();
    status
}

/// Answers one input. What was written of it is flushed.
fn answer_file<A: Answer, W: Write>(
    rt: &HostRuntime,
    file: Option<&str>,
    asked: &A,
    output: &mut W,
) -> Result<Status, Failure> {
    let text = read_text(rt, file)?;
    let status = asked.answer_owned(rt.alloc(), text, output)?;
    output.flush().map_err(writing_error)?;
    Ok(status)
}
