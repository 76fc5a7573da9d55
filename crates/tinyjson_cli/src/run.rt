//! A run of a program.
ghost use Rattle.std.specs.Prelude.{◌≡◌, ◌<◌, length, map, true, false};
ghost use Rattle.tinyjson_cli.specs.Ending.{IsOfArguments};
ghost use Rattle.tinyjson_cli.specs.Runs.{RunsInPlace, input_file};
ghost use Rattle.tinyjson_cli.specs.declared.status.Status.{Status};

use crate::files::answer_files;
use crate::in_place::answer_in_place;
use crate::line_run::answer_lines;
use crate::program::Program;
use crate::status::Status;
use crate::texts::Texts;
use crate::tool::Tool;

/// Answers the texts of each file, or of standard input for `-` and if there are no files: whole ones or lines, which are
/// printed or replaced. A message about an input begins with the name of its file. The status is the greatest.
///
/// ```
/// Ok(run_tool(rt, PROGRAM, texts_asked(&arguments), files, part))
/// ```
pub fn run_tool<T: Tool + Drop>(
    rt: &HostRuntime,
    program: Program<'_>,
    texts: Texts,
    files: &[&str],
    tool: T,
) -> Status
    ensures none { texts.in_place ≡ true → length files.now ≡ 0 → result ≡ Status.Misused }
    ensures lines { texts.in_place ≡ true → texts.by_lines ≡ true → IsOfArguments result }
{
    let mut tool = tool;
    if texts.in_place {
        return answer_in_place(rt, program, texts, files, &mut tool);
    }
    if texts.by_lines {
        return answer_lines(rt, program, texts, files, tool);
    }
    answer_files(rt, program, files, &mut tool)
}
