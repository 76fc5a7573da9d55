//! A run over the lines of inputs.
ghost use Rattle.std.specs.Prelude.{◌≡◌, option_map};
ghost use Rattle.tinyjson_cli.specs.LineRuns.{AnswersLineOf, handles_run, status_without};

use crate::failure::Failure;
use crate::files::file_named;
use crate::input::{reading_error, writing_error};
use crate::paced::{Paced, Shared};
use crate::program::{Program, report};
use crate::status::Status;
use crate::texts::{NoAnswer, Texts};
use crate::tool::{Input, InputText, Tool};
use crate::unanswered::{UnansweredLine, tell_unanswered};
use std::alloc::Global;
use std::cell::RefCell;
use std::io::{self, BufRead, BufReader, BufWriter, Read, Write};
use std::{fs, str};
use tinyjson_lines::{Cause, LineHandler, content, for_each_line};

/// How many bytes are gathered of the input, and of the output.
const BUFFER_LEN: usize = 64 * 1024;

/// Answers each line of each file, or of standard input for `-` and if there are no files. What is complete is written
/// before the program waits for more input. The status is the greatest.
pub(crate) fn answer_lines<'a, T: Tool + Drop>(
    rt: &HostRuntime,
    program: Program<'a>,
    texts: Texts,
    files: &[&'a str],
    tool: T,
) -> Status {
    let Ok(output) = BufWriter::with_capacity(rt.alloc(), BUFFER_LEN, io::writer(rt)) else {
        return report(rt, program, None, &Failure::OutOfMemory);
    };
    let output = RefCell::new(output);
    let mut run = LineRun {
        alloc: rt.alloc(),
        tool,
        program: program.name,
        file: None,
        texts,
        status: Status::Done,
    };
    let inputs = if files.is_empty() { &["-"] } else { files };
    for name in inputs {
        run.file = file_named(*name);
        match answer_file(rt, &mut run, &output) {
            Ok(true) => {}
            Ok(false) => break,
            Err(failure) => {
                let of_file = report(rt, program, run.file, &failure);
                run.status = run.status.and(of_file);
                if !failure.goes_on() {
                    break;
                }
            }
        }
    }
    // Dropped, the gathered bytes would be written, also after a write that failed.
    let (_output, _gathered) = output.into_inner().into_parts();
    run.status
}

/// Answers the lines of one input. Returns whether the run goes on.
fn answer_file<T: Tool + Drop, W: Write>(
    rt: &HostRuntime,
    run: &mut LineRun<'_, T>,
    output: &RefCell<W>,
) -> Result<bool, Failure> {
    match run.file {
        Some(name) => {
            let opened = fs::open(rt, name).map_err(reading_error)?;
            answer_reader(rt, opened, run, output)
        }
        None => answer_reader(rt, rt.reader(), run, output),
    }
}

/// Answers the lines that a reader gives.
fn answer_reader<T: Tool + Drop, R: Read + Drop, W: Write>(
    rt: &HostRuntime,
    reader: R,
    run: &mut LineRun<'_, T>,
    output: &RefCell<W>,
) -> Result<bool, Failure> {
    let reader = Paced::new(reader, output);
    let mut input = BufReader::with_capacity(rt.alloc(), BUFFER_LEN, reader).map_err(
        writing_error,
    )?;
    let mut writer = Shared::new(output);
    let max = run.texts.max_line;
    for_each_line(
        run.alloc,
        max,
        run,
        &mut input,
        &mut writer,
        &mut rt.stderr(),
    )
    .map_err(writing_error)
}

/// A handler that writes the answer for each line, and reports each line that has none under its number.
#[derive(Drop)]
pub struct LineRun<'a, T> {
    /// The allocator.
    pub alloc: Global,
    /// What answers each line.
    pub tool: T,
    /// The name of the program, for messages.
    pub program: &'a str,
    /// The name of the file with the lines, if it has one, for messages.
    pub file: Option<&'a str>,
    /// How long a line may be, and whether the run goes on after one without an answer.
    pub texts: Texts,
    /// The greatest status of the lines so far.
    pub status: Status,
}

impl<T: Tool + Drop> LineHandler for LineRun<'_, T> {
    ghost handles = { handles_run T.gives };

    fn handle_line<W: Write, E: Write>(
        &mut self,
        number: u64,
        line: Option<&[u8]>,
        output: &mut W,
        errors: &mut E,
    ) -> io::Result<bool> {
        let why = match self.answer_line(number, line, output)? {
            Ok(status) => {
                self.status = self.status.and(status);
                return Ok(true);
            }
            Err(why) => why,
        };
        let goes_on = self.texts.goes_on;
        self.status = self.status.and(status_without(goes_on));
        output.flush()?;
        let unanswered = UnansweredLine {
            program: self.program,
            file: self.file,
            number,
            why: &why,
        };
        tell_unanswered(self.alloc, errors, &unanswered)?;
        Ok(goes_on)
    }
}

/// The status for a line that has no answer, where the run goes on or does not.
fn status_without(goes_on: bool) -> Status
    ensures { result ≡ status_without goes_on }
{
    if goes_on { Status::No } else { Status::Refused }
}

impl<T: Tool + Drop> LineRun<'_, T> {
    /// Writes the answer for one line, or returns why there is none.
    fn answer_line<W: Write>(
        &mut self,
        number: u64,
        line: Option<&[u8]>,
        output: &mut W,
    ) -> io::Result<Result<Status, NoAnswer>>
        ensures { AnswersLineOf T.gives self.old self.new number (option_map (λ s. s.now) line.entry)
            (W.contents output.old) (W.contents output.new) result }
    {
        let Some(line) = line else {
            let max = self.texts.max_line.unwrap_or(usize::MAX);
            return Ok(Err(NoAnswer::Refused(Cause::TooLong(max))));
        };
        let Ok(text) = str::from_utf8(content(line)) else {
            return Ok(Err(NoAnswer::Refused(Cause::NotUtf8)));
        };
        let input = Input {
            file: self.file,
            line: Some(number),
            text: InputText::Lent(text),
        };
        self.tool.answer(self.alloc, input, output)
    }
}
