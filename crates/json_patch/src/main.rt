//! Applies a JSON Patch (RFC 6902) to each JSON text, and prints the result. Its help page lists the
//! arguments and the statuses.
#![tactic(auto)]

mod apply;
mod reading;

use apply::Asked;
use reading::read_patch;
use std::process::ExitCode;
use tinyjson_cli::{
    HELP, IN_PLACE, INDENT, LINES, MAX_LINE, Program, Status, VERSION, Values, argument_words,
    arguments_of, needed_operand, or_report, run_tool, texts_asked,
};

const PROGRAM: Program<'static> = Program {
    name: "json_patch",
    options: &[LINES, MAX_LINE, INDENT, IN_PLACE, HELP, VERSION],
    help: "\
Usage: json_patch [-l | -I] [-m N] [-i] PATCH [FILE..]

Applies a JSON Patch (RFC 6902) to each JSON text, and prints the result as
compact text with sorted keys. PATCH is the name of the patch's file.

The texts are those of the files, or standard input where none is named; '-' is
standard input, too. Options may come anywhere; after '--' all are operands.

Options:
  -l, --lines       take each line of an input as a text; where one is refused
                    or the patch can't be applied, report its number and go on
  -m, --max-line N  with -l: refuse a line of more than N bytes, and do not keep
                    it in memory
  -i, --indent      indent by two spaces
  -I, --in-place    replace each file by its result; a file that has it already
                    is not touched
  -h, --help        print this page
  -V, --version     print the version

Exit status:
  0  each result was printed, or is in its file
  1  an operation can't be applied to a text's value, or a test fails;
     with -l: a line is refused; with -l or -I: the patch copies too much
  2  the arguments are not understood, or PATCH can't be read,
     is no JSON text or no patch document, or has more than 1,000 nested
     containers
  3  an input is no JSON text, or not UTF-8
  4  memory ran out, a read or a write failed, or the patch copies more than
     1,000,000 values and four for each byte of the text

Examples:
  $ echo '[{\"op\": \"replace\", \"path\": \"/a\", \"value\": [1.0]}]' > patch.json
  $ echo '{\"a\": 0, \"b\": 2}' | json_patch patch.json
  {\"a\":[1],\"b\":2}
  $ echo '[{\"op\": \"add\", \"path\": \"/-\", \"value\": 3}]' > add.json
  $ echo '[1, 2]' | json_patch add.json
  [1,2,3]
",
};

fn main(rt: HostRuntime) -> ExitCode {
    let (Ok(status) | Err(status)) = run(&rt);
    ExitCode::from(status.code())
}

fn run(rt: &HostRuntime) -> Result<Status, Status> {
    let words = argument_words(rt, PROGRAM)?;
    let arguments = arguments_of(rt, PROGRAM, words.as_slice())?;
    let (patch, files) = needed_operand(rt, PROGRAM, &arguments, "PATCH")?;
    let patch = or_report(rt, PROGRAM, read_patch(rt, patch))?;
    let asked = Asked {
        patch: &patch,
        is_indented: arguments.has(b'i'),
    };
    let tool = Values::new(rt.alloc(), asked, None);
    Ok(run_tool(rt, PROGRAM, texts_asked(&arguments), files, tool))
}
