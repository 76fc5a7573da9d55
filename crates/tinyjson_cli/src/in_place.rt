//! Files that are replaced by the answers for their texts.
ghost use Rattle.std.specs.Prelude.{◌≡◌, ◌≢◌, ◌<◌, true, false, length, map, option_map};
ghost use Rattle.std.specs.Prelude.{IfErr, IfOk, MatchOption, Ok};
ghost use Rattle.std.specs.Str.{chars};
ghost use Rattle.tinyjson_cli.specs.Changing.{IsUnanswered, failure_in_place, is_last};
ghost use Rattle.tinyjson_cli.specs.Ending.{IsOfArguments};
ghost use Rattle.tinyjson_cli.specs.Failures.{failure_status};
ghost use Rattle.tinyjson_cli.specs.Runs.{ReplacesFile, RunsInPlace, changes_others, goes_of, input_file, status_of, whole};
ghost use Rattle.tinyjson_cli.specs.declared.status.Status.{Status};

use crate::arguments::{Known, Misuse};
use crate::failure::Failure;
use crate::files::file_named;
use crate::input::{read_text, writing_error};
use crate::program::{Program, misused, report};
use crate::replacement::replace;
use crate::status::Status;
use crate::texts::{NoAnswer, Texts, unanswered_failure};
use crate::tool::{Input, InputText, Tool};
use std::alloc::Global;
use std::io::{self, Write};

/// `-I` and `--in-place`.
pub const IN_PLACE: Known<'static> = Known {
    letter: b'I',
    name: "in-place",
    takes: None,
};

/// Replaces each file by the answer for its text. A file that has it already is not touched, and one without an answer
/// stays as it is. The answer for `-`, standard input, is printed. The status is the greatest.
///
/// That no file is named, or that each line is to be a text, is misuse.
pub(crate) fn answer_in_place<T: Tool>(
    rt: &HostRuntime,
    program: Program<'_>,
    texts: Texts,
    files: &[&str],
    tool: &mut T,
) -> Status
    ensures none { length files.now ≡ 0 → result ≡ Status.Misused }
    ensures lines { texts.by_lines ≡ true → IsOfArguments result }
    ensures files { 0 < length files.now → texts.by_lines ≡ false → RunsInPlace T.gives
        (map (λ f. input_file f.now) files.now) tool.old tool.new result }
{
    if files.is_empty() {
        return misused(rt, program, Misuse::Missing("FILE"));
    }
    if texts.by_lines {
        return report_lines(rt, program);
    }
    replace_each(rt, program, files, tool)
}

/// Reports that each line is to be a text.
fn report_lines(rt: &HostRuntime, program: Program<'_>) -> Status
    ensures { IsOfArguments result }
{
    match "-l and -I exclude each other".to_string(rt.alloc()) {
        Ok(words) => report(rt, program, None, &Failure::Misused(words)),
        Err(_) => report(rt, program, None, &Failure::OutOfMemory),
    }
}

fn replace_each<T: Tool>(
    rt: &HostRuntime,
    program: Program<'_>,
    files: &[&str],
    tool: &mut T,
) -> Status
    ensures { RunsInPlace T.gives
        (map (λ f. input_file f.now) files.now) tool.old tool.new result }
{
    let mut status = Status::Done;
    for name in files {
        let file = file_named(name);
        let replaced = replace_file(rt, program, file, tool);
        let (of_file, goes_on) = reported(rt, program, file, replaced);
        status = status.and(of_file);
        if !goes_on {
            return status;
        }
    }
    status
}

/// The status of a file, whose failure is reported, and whether others are changed.
fn reported(
    rt: &HostRuntime,
    program: Program<'_>,
    file: Option<&str>,
    replaced: Result<Status, Failure>,
) -> (Status, bool)
    ensures status { result.0 ≡ status_of replaced }
    ensures goes { result.1 ≡ goes_of changes_others replaced }
{
    match replaced {
        Ok(status) => (status, true),
        Err(failure) => (report(rt, program, file, &failure), !is_last(&failure)),
    }
}

/// Whether no other file is changed after a failure: where it is not about this one.
pub fn is_last(failure: &Failure) -> bool
    ensures { result ≡ is_last failure.now }
{
    matches!(
        failure,
        Failure::OutOfMemory | Failure::Closed | Failure::Writing(_)
    )
}

/// Replaces a file, or prints the answer for standard input.
fn replace_file<T: Tool>(
    rt: &HostRuntime,
    program: Program<'_>,
    file: Option<&str>,
    tool: &mut T,
) -> Result<Status, Failure>
    ensures { ReplacesFile T.gives tool.old tool.new
        (option_map (λ s. s.now) file.entry) result }
{
    let text = read_text(rt, file)?;
    let Some(name) = file else {
        let (status, answer) = answer_bytes(rt.alloc(), file, text.as_str(), tool)?;
        print(rt, answer.as_slice())?;
        return Ok(status);
    };
    let (status, change) = change(rt.alloc(), file, text.as_str(), tool)?;
    if let Some(answer) = change {
        replace(rt, program.name, name, answer.as_slice())?;
    }
    Ok(status)
}

fn print(rt: &HostRuntime, answer: &[u8]) -> Result<(), Failure>
    ensures { IfErr result (λ f. failure_status f ≡ Status.Failed) }
{
    match io::writer(rt).write_all(answer) {
        Ok(()) => Ok(()),
        Err(error) => Err(writing_error(error)),
    }
}

/// What a file with this text is to have instead: the answer for the text, or nothing if the file has it. The status is
/// the answer's.
///
/// ```
/// change(alloc, None, "{}\n", &mut tool)? // None where the answer for {} is {} and a line feed
/// ```
pub fn change<T: Tool>(
    alloc: Global,
    file: Option<&str>,
    text: &str,
    tool: &mut T,
) -> Result<(Status, Option<Vec<u8>>), Failure>
    ensures ok { IfOk result (λ r. MatchOption r.1
        (T.gives tool.old (whole (option_map (λ s. s.now) file.entry)) (chars text.now)
        (Ok (r.0, text.now)) tool.new)
        (λ v. T.gives tool.old (whole (option_map (λ s. s.now) file.entry)) (chars text.now)
        (Ok (r.0, v.items)) tool.new × (v.items ≢ text.now))) }
    ensures err { IfErr result (IsUnanswered T.gives tool.old tool.new
        (whole (option_map (λ s. s.now) file.entry)) (chars text.now)) }
{
    let (status, answer) = answer_bytes(alloc, file, text, tool)?;
    if answer.as_slice() == text.as_bytes() {
        return Ok((status, None));
    }
    Ok((status, Some(answer)))
}

/// The bytes of the answer for a text, and its status.
///
/// ```
/// // where the merge of {"b":2} is asked: {"a":1,"b":2} and a line feed
/// answer_bytes(alloc, None, r#"{"a":1}"#, &mut tool)?
/// ```
pub fn answer_bytes<T: Tool>(
    alloc: Global,
    file: Option<&str>,
    text: &str,
    tool: &mut T,
) -> Result<(Status, Vec<u8>), Failure>
    ensures ok { IfOk result (λ r. T.gives tool.old (whole (option_map (λ s. s.now) file.entry))
        (chars text.now) (Ok (r.0, r.1.items)) tool.new) }
    ensures err { IfErr result (IsUnanswered T.gives tool.old tool.new
        (whole (option_map (λ s. s.now) file.entry)) (chars text.now)) }
{
    let input = Input {
        file,
        line: None,
        text: InputText::Lent(text),
    };
    let mut answer = Vec::new(alloc);
    match tool.answer(alloc, input, &mut answer) {
        Ok(Ok(status)) => Ok((status, answer)),
        Ok(Err(why)) => Err(failure_in_place(why)),
        Err(_) => Err(Failure::OutOfMemory),
    }
}

/// The failure for a file in place that has no answer.
fn failure_in_place(why: NoAnswer) -> Failure
    ensures { result ≡ failure_in_place why }
{
    match why {
        NoAnswer::Failed(words) => Failure::No(words),
        why => unanswered_failure(why),
    }
}
