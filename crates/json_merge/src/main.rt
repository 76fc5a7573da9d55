//! Applies JSON Merge Patches (RFC 7396) to each JSON text, and prints the result. Its help page lists the
//! arguments and the statuses.
#![tactic(auto)]

mod apply;
mod options;
mod reading;

use apply::Merging;
use options::{PATCHES, patches_asked};
use reading::read_patches;
use std::process::ExitCode;
use tinyjson_cli::{
    HELP, IN_PLACE, INDENT, LINES, MAX_LINE, Misuse, Program, Status, VERSION, Values,
    argument_words, arguments_of, misused, or_report, run_tool, texts_asked,
};

const PROGRAM: Program<'static> = Program {
    name: "json_merge",
    options: &[LINES, MAX_LINE, INDENT, IN_PLACE, PATCHES, HELP, VERSION],
    help: "\
Usage: json_merge [-l | -I] [-m N] [-i] [-p N] PATCH.. [FILE..]

Applies a JSON Merge Patch (RFC 7396) to each JSON text, and prints the result as
compact text with sorted keys. PATCH is the name of the patch's file.

The texts are those of the files, or standard input where none is named; '-' is
standard input, too. Options may come anywhere; after '--' all are operands.

Options:
  -l, --lines       take each line of an input as a text; where one is refused,
                    report its number and go on
  -m, --max-line N  with -l: refuse a line of more than N bytes, and do not keep
                    it in memory
  -i, --indent      indent by two spaces
  -I, --in-place    replace each file by its result; a file that has it already
                    is not touched
  -p, --patches N   the first N names are patches, applied in order; if not
                    given, the first one is
  -h, --help        print this page
  -V, --version     print the version

Exit status:
  0  each result was printed, or is in its file
  1  with -l: a line is refused
  2  the arguments are not understood, or PATCH can't be read
     or is no JSON text
  3  an input is no JSON text, or not UTF-8
  4  memory ran out, or a read or a write failed

Examples:
  $ echo '{\"a\": null, \"b\": {\"c\": 2}}' > patch.json
  $ echo '{\"a\": 1, \"b\": {\"d\": 3}}' | json_merge patch.json
  {\"b\":{\"c\":2,\"d\":3}}
  $ echo '[1]' | json_merge patch.json
  {\"b\":{\"c\":2}}
",
};

fn main(rt: HostRuntime) -> ExitCode {
    let (Ok(status) | Err(status)) = run(&rt);
    ExitCode::from(status.code())
}

fn run(rt: &HostRuntime) -> Result<Status, Status> {
    let words = argument_words(rt, PROGRAM)?;
    let arguments = arguments_of(rt, PROGRAM, words.as_slice())?;
    let Some((patches, files)) = patches_asked(&arguments) else {
        return Err(misused(rt, PROGRAM, Misuse::Missing("PATCH")));
    };
    let patches = or_report(rt, PROGRAM, read_patches(rt, patches))?;
    let merging = Merging {
        patches,
        is_indented: arguments.has(b'i'),
    };
    let tool = Values::new(rt.alloc(), merging, None);
    Ok(run_tool(rt, PROGRAM, texts_asked(&arguments), files, tool))
}
