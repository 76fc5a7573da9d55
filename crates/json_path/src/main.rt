//! Prints what a JSONPath query (RFC 9535) selects in each JSON text. Its help page lists the arguments and
//! the statuses.
#![tactic(auto)]

mod answers;
mod array;
mod lines;
mod options;
mod places;
mod query;
mod rest;
mod selected;

use answers::Asked;
use options::{EMPTY, FLAT, PATHS, QUERY_FILE, REST, wanted_of, without_end};
use query::read_query;
use std::process::ExitCode;
use tinyjson_cli::{
    Failure, HELP, INDENT, LINES, MAX_LINE, Program, RAW, Status, VERSION, Values, argument_words,
    arguments_of, needed_operand, or_report, read_named, run_tool, texts_asked,
};
use tinyjson_path::Query;

const PROGRAM: Program<'static> = Program {
    name: "json_path",
    options: &[
        LINES, MAX_LINE, FLAT, PATHS, INDENT, RAW, EMPTY, REST, QUERY_FILE, HELP, VERSION,
    ],
    help: "\
Usage: json_path [-l [-m N] [-f]] [-p] [-i] [-r] [-e] [-v] [-q] QUERY [FILE..]

Prints what a JSONPath query (RFC 9535) selects in each JSON text, each value as
compact text with sorted keys on a line.

The texts are those of the files, or standard input where none is named; '-' is
standard input, too. Options may come anywhere; after '--' all are operands.

Options:
  -l, --lines       take each line of an input as a text, and print what is
                    selected in it as an array on a line; where a line is
                    refused or nothing is selected, report it and go on
  -m, --max-line N  with -l: refuse a line of more than N bytes, and do not keep
                    it in memory
  -f, --flat        with -l: print each value on a line
  -p, --paths       print the normalized path of each value in place of the value
  -i, --indent      indent by two spaces, but not in arrays
  -r, --raw         print strings without quotes and escapes, but in arrays
  -e, --empty       take it as an answer that nothing is selected
  -v, --rest        print each text without what is selected, on a line; -f, -p,
                    -i, -r and -e change nothing then
  -q, --query-file  read the query from the file QUERY
  -h, --help        print this page
  -V, --version     print the version

Exit status:
  0  something was selected in each text
  1  nothing was selected in a text, or with -v nothing is left of one; with
     -l: or a line is refused
  2  the arguments are not understood, or QUERY is no query
  3  an input is no JSON text, or not UTF-8
  4  memory ran out, a read or a write failed, or a regular expression of the
     query is too deep or too large

Examples:
  $ echo '{\"a\": [{\"b\": 1.0}, {\"b\": 2}]}' | json_path '$.a[*].b'
  1
  2
  $ echo '{\"a\": [{\"b\": 1.0}, {\"b\": 2}]}' | json_path -p '$..b'
  $['a'][0]['b']
  $['a'][1]['b']
  $ printf '[1, 2.0]\\n[]\\n' | json_path -le '$[*]'
  [1,2]
  []
",
};

fn main(rt: HostRuntime) -> ExitCode {
    let (Ok(status) | Err(status)) = run(&rt);
    ExitCode::from(status.code())
}

fn run(rt: &HostRuntime) -> Result<Status, Status> {
    let words = argument_words(rt, PROGRAM)?;
    let arguments = arguments_of(rt, PROGRAM, words.as_slice())?;
    let (query, files) = needed_operand(rt, PROGRAM, &arguments, "QUERY")?;
    let query = or_report(rt, PROGRAM, query_of(rt, query, arguments.has(b'q')))?;
    let asked = Asked {
        query: &query,
        wanted: wanted_of(&arguments),
    };
    let tool = Values::new(rt.alloc(), asked, None);
    Ok(run_tool(rt, PROGRAM, texts_asked(&arguments), files, tool))
}

/// The query of this text, or of the file that has this name.
fn query_of(rt: &HostRuntime, text: &str, is_file: bool) -> Result<Query, Failure> {
    if !is_file {
        return read_query(rt.alloc(), text);
    }
    let text = read_named(rt, text)?;
    read_query(rt.alloc(), without_end(text.as_str()))
}
