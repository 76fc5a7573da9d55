//! Formats JSON files in place. Its help page lists the arguments and the statuses.
#![tactic(auto)]

mod form;
mod options;

use form::Formatter;
use options::{CHECK, INDENT, TABS, indent};
use std::process::ExitCode;
use tinyjson_cli::{
    Failure, HELP, Program, Status, Texts, VERSION, argument_words, arguments_of, report, run_tool,
};

const PROGRAM: Program<'static> = Program {
    name: "json_format",
    options: &[CHECK, INDENT, TABS, HELP, VERSION],
    help: "\
Usage: json_format [-c] [-i N | -t] [FILE..]

Formats JSON files in place: sorted keys, one spelling for each number, each item
and each key on a line of its own. A file that is in form already is not touched.
A file that is no JSON text stays as it is.

Without a file, and for '-', standard input is formatted to standard output.
Options may come anywhere; after '--' all are operands.

Options:
  -c, --check     change no file; print the names of those not in form
  -i, --indent N  indent by N spaces, where it is not two
  -t, --tabs      indent by tabs
  -h, --help      print this page
  -V, --version   print the version

Exit status:
  0  all is in form, or is now
  1  with -c: a file is not in form
  2  the arguments are not understood
  3  an input is no JSON text, or not UTF-8
  4  memory ran out, or a read or a write failed

Examples:
  $ echo '{\"b\":1.0,\"a\":[]}' | json_format
  {
    \"a\": [],
    \"b\": 1
  }
  $ echo '[1,2]' > list.json; json_format -i1 list.json; cat list.json
  [
   1,
   2
  ]
",
};

fn main(rt: HostRuntime) -> ExitCode {
    let (Ok(status) | Err(status)) = run(&rt);
    ExitCode::from(status.code())
}

fn run(rt: &HostRuntime) -> Result<Status, Status> {
    let words = argument_words(rt, PROGRAM)?;
    let arguments = arguments_of(rt, PROGRAM, words.as_slice())?;
    let Ok(indent) = indent(rt.alloc(), &arguments) else {
        return Err(report(rt, PROGRAM, None, &Failure::OutOfMemory));
    };
    let is_check = arguments.has(b'c');
    let formatter = Formatter {
        indent: indent.as_str(),
        is_check,
    };
    let texts = Texts {
        by_lines: false,
        max_line: None,
        goes_on: true,
        in_place: !is_check,
    };
    let files = arguments.operands.as_slice();
    if files.is_empty() {
        return Ok(run_tool(rt, PROGRAM, texts, &["-"], formatter));
    }
    Ok(run_tool(rt, PROGRAM, texts, files, formatter))
}
