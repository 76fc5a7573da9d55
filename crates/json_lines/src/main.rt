//! Prints the normal form of each JSON text on a line. Its help page has the arguments and the statuses.
#![tactic(auto)]

pub mod lines;
pub mod options;
pub mod shares;

use lines::{Options, Outcome};
use options::{DEPTH, KEEP_GOING, options};
use std::alloc::Global;
use std::io::{self, BufRead, Write};
use std::process::ExitCode;
use tinyjson_cli::{
    AnswerLines, HELP, MAX_LINE, Program, Status, VERSION, answer_lines, argument_words,
    arguments_of,
};

const PROGRAM: Program<'static> = Program {
    name: "json_lines",
    options: &[KEEP_GOING, DEPTH, MAX_LINE, HELP, VERSION],
    help: "\
Usage: json_lines [-k] [-d N] [-m N] [FILE..]

Reads JSON texts, one on a line, and prints the normal form of each: no white
space, sorted keys, one spelling for each number.

The lines are those of the files, or of standard input where none is named; '-'
is standard input, too. Options may come anywhere; after '--' all are operands.
A line is kept whole, but with -m only up to N bytes, and with -d alone only
until it is refused.

Options:
  -k, --keep-going  go on after a line that is refused
  -d, --depth N     refuse a line with more than N nested containers
  -m, --max-line N  refuse a line of more than N bytes, and keep it out of memory
  -h, --help        print this page
  -V, --version     print the version

Exit status:
  0  all lines are JSON texts
  1  with -k: a line is refused
  2  the arguments are not understood
  3  without -k: a line is refused, and ends the run
  4  memory ran out, or a read or a write failed

Examples:
  $ printf '{\"b\":1, \"a\":[1.0]}\\n\"x\"\\n' | json_lines
  {\"a\":[1],\"b\":1}
  \"x\"
  $ printf '1.0\\n[1,]\\n2\\n' | json_lines -k 2> refused
  1
  2
",
};

/// How lines are read.
#[derive(Drop)]
struct Asked {
    alloc: Global,
    options: Options<'static>,
}

impl AnswerLines for Asked {
    fn answer<R: BufRead, W: Write, E: Write>(
        &mut self,
        file: Option<&str>,
        input: &mut R,
        output: &mut W,
        errors: &mut E,
    ) -> io::Result<(bool, Status)> {
        let options = Options {
            goes_on: self.options.goes_on,
            limit: self.options.limit,
            max_line: self.options.max_line,
            file,
        };
        match lines::run(self.alloc, options, input, output, errors)? {
            Outcome::AllWritten => Ok((true, Status::Done)),
            Outcome::SomeRefused if options.goes_on => Ok((true, Status::No)),
            Outcome::SomeRefused => Ok((false, Status::Refused)),
        }
    }
}

fn main(rt: HostRuntime) -> ExitCode {
    let (Ok(status) | Err(status)) = run(&rt);
    ExitCode::from(status.code())
}

fn run(rt: &HostRuntime) -> Result<Status, Status> {
    let words = argument_words(rt, PROGRAM)?;
    let arguments = arguments_of(rt, PROGRAM, words.as_slice())?;
    let mut asked = Asked {
        alloc: rt.alloc(),
        options: options(&arguments),
    };
    Ok(answer_lines(rt, PROGRAM, arguments.operands.as_slice(), &mut asked))
}
