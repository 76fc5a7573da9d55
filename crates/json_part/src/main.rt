//! Prints the part of each JSON text that a JSON pointer names, as compact text. Its help page lists the
//! arguments and the statuses.
#![tactic(auto)]

mod options;
mod part;
mod pointer;

use options::{NULL, form_asked};
use part::Part;
use pointer::read_pointer;
use std::process::ExitCode;
use tinyjson_cli::{
    HELP, INDENT, LINES, MAX_LINE, Program, RAW, Status, VERSION, Values, argument_words,
    arguments_of, needed_operand, or_report, run_tool, texts_asked,
};

const PROGRAM: Program<'static> = Program {
    name: "json_part",
    options: &[LINES, MAX_LINE, INDENT, RAW, NULL, HELP, VERSION],
    help: "\
Usage: json_part [-l] [-m N] [-i] [-r] [-n] POINTER [FILE..]

Prints the part of each JSON text at a JSON Pointer (RFC 6901), as compact text
with sorted keys.

The texts are those of the files, or standard input where none is named; '-' is
standard input, too. Options may come anywhere; after '--' all are operands.

Options:
  -l, --lines       take each line of an input as a text; where one is refused
                    or has no part, report its number and go on
  -m, --max-line N  with -l: refuse a line of more than N bytes, and do not keep
                    it in memory
  -i, --indent      indent by two spaces
  -r, --raw         print a string without quotes and escapes
  -n, --null        print null where there is no part
  -h, --help        print this page
  -V, --version     print the version

Exit status:
  0  each part was printed
  1  a text has no part there; with -l: a line has none or is refused
  2  the arguments are not understood, or POINTER is no pointer
  3  an input is no JSON text, or not UTF-8
  4  memory ran out, or a read or a write failed

Examples:
  $ echo '{\"a\": [1, {\"b\": 2.0}]}' | json_part /a/1
  {\"b\":2}
  $ echo '{\"a/b\": \"x\"}' | json_part /a~1b
  \"x\"
  $ printf '{\"a\": \"x\"}\\n{}\\n' | json_part -lrn /a
  x
  null
",
};

fn main(rt: HostRuntime) -> ExitCode {
    let (Ok(status) | Err(status)) = run(&rt);
    ExitCode::from(status.code())
}

fn run(rt: &HostRuntime) -> Result<Status, Status> {
    let words = argument_words(rt, PROGRAM)?;
    let arguments = arguments_of(rt, PROGRAM, words.as_slice())?;
    let (pointer, files) = needed_operand(rt, PROGRAM, &arguments, "POINTER")?;
    let pointer = or_report(rt, PROGRAM, read_pointer(rt.alloc(), pointer))?;
    let part = Part {
        pointer: &pointer,
        form: form_asked(&arguments),
    };
    let tool = Values::new(rt.alloc(), part, None);
    Ok(run_tool(rt, PROGRAM, texts_asked(&arguments), files, tool))
}
