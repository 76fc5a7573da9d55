//! Prints the JSON Patch (RFC 6902) or the JSON Merge Patch (RFC 7396) that leads from one JSON text to another. Its
//! help page lists the arguments and the statuses.
#![tactic(auto)]

mod compare;
mod reading;

use compare::Comparison;
use reading::{TEXT_DEPTH, read_old};
use std::process::ExitCode;
use tinyjson_cli::{
    HELP, INDENT, Known, Program, Status, VERSION, Values, argument_words, arguments_of,
    needed_operand, or_report, run_tool, texts_asked,
};

/// `-m` and `--merge`.
const MERGE: Known<'static> = Known {
    letter: b'm',
    name: "merge",
    takes: None,
};

const PROGRAM: Program<'static> = Program {
    name: "json_diff",
    options: &[MERGE, INDENT, HELP, VERSION],
    help: "\
Usage: json_diff [-mi] OLD [NEW..]

Prints a JSON Patch (RFC 6902) that leads from one JSON text to another, or with
-m a JSON Merge Patch (RFC 7396). json_patch or json_merge applies it to the old
text, and prints the new one. It has no more than what differs.

OLD is the name of a file. The new texts are those of the files, or standard
input where none is named; '-' is standard input, too. Options may come anywhere;
after '--' all are operands.

Options:
  -m, --merge    print a merge patch
  -i, --indent   indent by two spaces
  -h, --help     print this page
  -V, --version  print the version

Exit status:
  0  each patch was printed, whether the texts differ or not
  1  no merge patch leads to a new text: a member of it is null
  2  the arguments are not understood, or OLD can't be read,
     is no JSON text, or has more than 1,000 nested containers
  3  a new text is no JSON text, or not UTF-8, or has more than 1,000 nested
     containers
  4  memory ran out, or a read or a write failed

Examples:
  $ echo '{\"a\": 1, \"b\": {\"c\": 2, \"d\": 3}}' > old.json
  $ echo '{\"b\": {\"c\": 2, \"d\": 4}}' > new.json
  $ json_diff old.json new.json
  [{\"op\":\"remove\",\"path\":\"/a\"},{\"op\":\"replace\",\"path\":\"/b/d\",\"value\":4}]
  $ json_diff -m old.json new.json
  {\"a\":null,\"b\":{\"d\":4}}
",
};

fn main(rt: HostRuntime) -> ExitCode {
    let (Ok(status) | Err(status)) = run(&rt);
    ExitCode::from(status.code())
}

fn run(rt: &HostRuntime) -> Result<Status, Status> {
    let words = argument_words(rt, PROGRAM)?;
    let arguments = arguments_of(rt, PROGRAM, words.as_slice())?;
    let (old, files) = needed_operand(rt, PROGRAM, &arguments, "OLD")?;
    let old = or_report(rt, PROGRAM, read_old(rt, old))?;
    let comparison = Comparison {
        old,
        is_merge: arguments.has(b'm'),
        is_indented: arguments.has(b'i'),
    };
    let tool = Values::new(rt.alloc(), comparison, Some(TEXT_DEPTH));
    Ok(run_tool(rt, PROGRAM, texts_asked(&arguments), files, tool))
}
