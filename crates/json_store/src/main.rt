//! Counts equal values in lines of JSON. Its help page lists the arguments and the statuses.
#![tactic(auto)]

mod count;
mod store;

use count::Counter;
use std::process::ExitCode;
use tinyjson_cli::{
    HELP, MAX_LINE, Program, Status, VERSION, argument_words, arguments_of, lines_asked, run_tool,
};

const PROGRAM: Program<'static> = Program {
    name: "json_store",
    options: &[MAX_LINE, HELP, VERSION],
    help: "\
Usage: json_store [-m N] [FILE..]

Reads JSON texts, one on a line, and prints for each how many equal values have
come so far, itself included, and its normal form.

The lines are those of the files, or of standard input where none is named; '-'
is standard input, too. Options may come anywhere; after '--' all are operands.
The first line that is refused ends the run.

Options:
  -m, --max-line N  refuse a line of more than N bytes, and keep it out of memory
  -h, --help        print this page
  -V, --version     print the version

Exit status:
  0  all lines are JSON texts
  2  the arguments are not understood
  3  a line is no JSON text, not UTF-8, or longer than N bytes
  4  memory ran out, or a read or a write failed

Examples:
  $ printf '[1.0]\\n\"a\"\\n[1]\\n' | json_store
  1 [1]
  1 \"a\"
  2 [1]
  $ printf '2\\n2.0\\n' > two.jsonl; json_store two.jsonl
  1 2
  2 2
",
};

fn main(rt: HostRuntime) -> ExitCode {
    let (Ok(status) | Err(status)) = run(&rt);
    ExitCode::from(status.code())
}

fn run(rt: &HostRuntime) -> Result<Status, Status> {
    let words = argument_words(rt, PROGRAM)?;
    let arguments = arguments_of(rt, PROGRAM, words.as_slice())?;
    let texts = lines_asked(&arguments, false);
    let counter = Counter::new(rt.alloc());
    Ok(run_tool(rt, PROGRAM, texts, arguments.operands.as_slice(), counter))
}
