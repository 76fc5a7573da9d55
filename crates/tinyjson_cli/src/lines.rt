//! The answers of a program that works on lines.

use crate::failure::Failure;
use crate::input::{reading_error, writing_error};
use crate::paced::{Paced, Shared};
use crate::program::{Program, report};
use crate::status::Status;
use std::cell::RefCell;
use std::fs;
use std::io::{self, BufRead, BufReader, BufWriter, Read, Write};

/// How many bytes are gathered of the input, and of the output.
const BUFFER_LEN: usize = 64 * 1024;

/// What a program answers for the lines of an input.
pub trait AnswerLines {
    /// Writes the answer for each line, and to `errors` a message about each line that is rejected, with the name of the
    /// file if there is one. Returns whether the next input is answered, too, and the status.
    fn answer<R: BufRead, W: Write, E: Write>(
        &mut self,
        file: Option<&str>,
        input: &mut R,
        output: &mut W,
        errors: &mut E,
    ) -> io::Result<(bool, Status)>;
}

/// Answers the lines of each file, or of standard input for `-` and if there are no files. What is complete is
/// written before the program waits for more input. The status is the greatest.
pub fn answer_lines<A: AnswerLines>(
    rt: &HostRuntime,
    program: Program<'_>,
    files: &[&str],
    asked: &mut A,
) -> Status {
    let Ok(output) = BufWriter::with_capacity(rt.alloc(), BUFFER_LEN, io::writer(rt)) else {
        return report(rt, program, None, &Failure::OutOfMemory);
    };
    let output = RefCell::new(output);
    let inputs = if files.is_empty() { &["-"] } else { files };
    let mut status = Status::Done;
    for name in inputs {
        let file = if *name == "-" { None } else { Some(*name) };
        match answer_file(rt, file, asked, &output) {
            Ok((goes_on, of_file)) => {
                status = status.and(of_file);
                if !goes_on {
                    break;
                }
            }
            Err(failure) => {
                status = status.and(report(rt, program, file, &failure));
                if !failure.goes_on() {
                    break;
                }
            }
        }
    }
    // Dropped, the gathered bytes would be written, also after a write that failed.
    let (_output, _gathered) = output.into_inner().into_parts();
    status
}

/// Answers the lines of one input.
fn answer_file<A: AnswerLines, W: Write>(
    rt: &HostRuntime,
    file: Option<&str>,
    asked: &mut A,
    output: &RefCell<W>,
) -> Result<(bool, Status), Failure> {
    match file {
        Some(name) => {
            let opened = fs::open(rt, name).map_err(reading_error)?;
            answer_reader(rt, file, opened, asked, output)
        }
        None => answer_reader(rt, file, rt.reader(), asked, output),
    }
}

/// Answers the lines that a reader gives.
fn answer_reader<A: AnswerLines, R: Read + Drop, W: Write>(
    rt: &HostRuntime,
    file: Option<&str>,
    reader: R,
    asked: &mut A,
    output: &RefCell<W>,
) -> Result<(bool, Status), Failure> {
    let reader = Paced::new(reader, output);
    let mut input = BufReader::with_capacity(rt.alloc(), BUFFER_LEN, reader).map_err(
        writing_error,
    )?;
    let mut writer = Shared::new(output);
    asked
        .answer(file, &mut input, &mut writer, &mut rt.stderr())
        .map_err(writing_error)
}
