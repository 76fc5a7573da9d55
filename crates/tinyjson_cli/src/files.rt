//! A run over whole inputs.
ghost use Rattle.std.specs.Prelude.{◌≡◌, [], map, option_map};
ghost use Rattle.std.specs.Io.Buffered.{writer_buffer, writer_contents};
ghost use Rattle.std.specs.Io.KnownBytes.{Keeps};
ghost use Rattle.tinyjson_cli.specs.Failures.{goes_on};
ghost use Rattle.tinyjson_cli.specs.Outputs.{watched_contents};
ghost use Rattle.tinyjson_cli.specs.Runs.{AnswersFile, Finishes, RunsFiles, goes_of, input_file, status_of};

use crate::failure::Failure;
use crate::input::{read_text, writing_error};
use crate::output::Watched;
use crate::program::{Program, report};
use crate::status::Status;
use crate::texts::{NoAnswer, unanswered_failure};
use crate::tool::{Input, InputText, Tool};
use std::io::{self, BufWriter, Write};

/// How many bytes of the output are gathered.
const BUFFER_LEN: usize = 64 * 1024;

/// Answers each file as one text, or standard input for `-` and if there are no files. A message about a file begins
/// with its name. The status is the greatest.
pub(crate) fn answer_files<T: Tool>(
    rt: &HostRuntime,
    program: Program<'_>,
    files: &[&str],
    tool: &mut T,
) -> Status {
    let writer = Watched::new(io::writer(rt));
    let Ok(mut output) = BufWriter::with_capacity(rt.alloc(), BUFFER_LEN, writer) else {
        return report(rt, program, None, &Failure::OutOfMemory);
    };
    let inputs = if files.is_empty() { &["-"] } else { files };
    let status = answer_each(rt, program, inputs, tool, &mut output);
    // Dropped, the gathered bytes would be written, also after a write that failed.
    let (_output, _gathered) = output.into_parts();
    status
}

/// Answers each of these files, after which nothing is gathered that is not flushed.
fn answer_each<T: Tool, W: Write + Drop>(
    rt: &HostRuntime,
    program: Program<'_>,
    files: &[&str],
    tool: &mut T,
    output: &mut BufWriter<Watched<W>>,
) -> Status
    ensures { writer_buffer output.old ≡ [] → RunsFiles T.gives
        (map (λ f. input_file f.now) files.now) tool.old tool.new
        (writer_contents (watched_contents W.contents) output.old)
        (writer_contents (watched_contents W.contents) output.new)
        (writer_buffer output.new) result }
{
    let mut status = Status::Done;
    for name in files {
        let file = file_named(name);
        let answered = answer_file(rt, file, tool, output);
        let (of_file, goes_on) = reported(rt, program, file, answered);
        status = status.and(of_file);
        if !goes_on {
            return status;
        }
    }
    status
}

/// The status of an input, whose failure is reported, and whether others are answered.
fn reported(
    rt: &HostRuntime,
    program: Program<'_>,
    file: Option<&str>,
    answered: Result<Status, Failure>,
) -> (Status, bool)
    ensures status { result.0 ≡ status_of answered }
    ensures goes { result.1 ≡ goes_of goes_on answered }
{
    match answered {
        Ok(status) => (status, true),
        Err(failure) => (report(rt, program, file, &failure), failure.goes_on()),
    }
}

/// The file that an argument names: none for `-`.
pub(crate) fn file_named(name: &str) -> Option<&str>
    ensures { option_map (λ s. s.now) result ≡ input_file name.now }
{
    if name == "-" { None } else { Some(name) }
}

/// Answers one input. What was written of it is flushed.
fn answer_file<T: Tool, W: Write + Drop>(
    rt: &HostRuntime,
    file: Option<&str>,
    tool: &mut T,
    output: &mut BufWriter<Watched<W>>,
) -> Result<Status, Failure>
    ensures { writer_buffer output.old ≡ [] → AnswersFile T.gives tool.old tool.new
        (option_map (λ s. s.now) file.entry)
        (writer_contents (watched_contents W.contents) output.old)
        (writer_contents (watched_contents W.contents) output.new)
        (writer_buffer output.new) result }
{
    let text = read_text(rt, file)?;
    let input = Input {
        file,
        line: None,
        text: InputText::Owned(text),
    };
    let answered = tool.answer(rt.alloc(), input, output);
    finish(answered, output)
}

/// Flushes the output after an answer, and returns its status, or the failure. That of a write is the writer's own.
fn finish<W: Write + Drop>(
    answered: io::Result<Result<Status, NoAnswer>>,
    output: &mut BufWriter<Watched<W>>,
) -> Result<Status, Failure>
    ensures kept { Keeps (writer_contents (watched_contents W.contents) output.old)
        (writer_contents (watched_contents W.contents) output.new) }
    ensures ended { Finishes answered (writer_buffer output.new) result }
{
    let error = match answered {
        Ok(answer) => match output.flush() {
            Ok(()) => return answer.map_err(unanswered_failure),
            Err(error) => error,
        },
        Err(error) => error,
    };
    match output.get_mut().take_error() {
        Some(error) => Err(writing_error(error)),
        None => Err(writing_error(error)),
    }
}
