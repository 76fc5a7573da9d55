//! Checks JSON texts against a JSON Schema (2020-12). Its help page lists the arguments and the statuses.
#![tactic(auto)]

ghost use Rattle.std.specs.Prelude.{◌≡◌, option_map, map};
ghost use Rattle.tinyjson_cli.specs.Arguments.{given_of, text_of};
ghost use Rattle.json_schema.specs.Options.{asked_files, asked_most, asked_shows, are_lines, asks};

mod documents;
mod failure;
mod lines;
mod meta;
mod names;
mod refusal;
mod report;
mod unknown;
mod verdict;

use documents::with_documents;
use failure::{SchemaFailure, refused_failure, schema_failure, schema_text_failure, text_failure};
use lines::{Check, Shows, check_lines};
use meta::{meta_failure, meta_schemas, whole_of};
use report::{write_report, write_text};
use std::alloc::Global;
use std::cell::Cell;
use std::collections::BTreeSet;
use std::io::{self, BufRead, Write};
use std::process::ExitCode;
use tinyjson::JsonValue;
use tinyjson_buffers::Buffers;
use tinyjson_cli::{
    Answer, AnswerLines, Arguments, Failure, HELP, Known, MAX_LINE, Misuse, Program, Status, Taken,
    Text, VERSION, answer_files, answer_lines, argument_words, arguments_of, misused, read_named,
    report, writing_error,
};
use tinyjson_schema::{Schema, SchemaError, unknown_formats, unknown_words};
use tinyjson_schema_drafts::{Compound, Draft, compound_of, draft_of, unknown_dialect};
use tinyjson_schema_report::{Every, Located, MetaSchemas, Refusal, check_as};
use unknown::{Unknown, tell_name, tell_names};
use verdict::{DEPTH_LIMIT, Judge};

/// `-l` and `--lines`.
const LINES: Known<'static> = Known {
    letter: b'l',
    name: "lines",
    takes: None,
};

/// `-d` and `--draft`.
const DRAFT: Known<'static> = Known {
    letter: b'd',
    name: "draft",
    takes: Some(Taken::Number),
};

/// `-r` and `--ref`.
const REF: Known<'static> = Known {
    letter: b'r',
    name: "ref",
    takes: Some(Taken::Text),
};

/// `-M` and `--meta`.
const META: Known<'static> = Known {
    letter: b'M',
    name: "meta",
    takes: None,
};

/// `-f` and `--assert-format`.
const FORMAT: Known<'static> = Known {
    letter: b'f',
    name: "assert-format",
    takes: None,
};

/// `-t` and `--text`.
const TEXT: Known<'static> = Known {
    letter: b't',
    name: "text",
    takes: None,
};

/// `-a` and `--all`.
const ALL: Known<'static> = Known {
    letter: b'a',
    name: "all",
    takes: None,
};

/// `-n` and `--number`.
const NUMBER: Known<'static> = Known {
    letter: b'n',
    name: "number",
    takes: Some(Taken::Number),
};

/// How many reports of a value `-a` prints, if `-n` does not say.
const MOST: usize = 100;

/// `-v` and `--valid`.
const VALID: Known<'static> = Known {
    letter: b'v',
    name: "valid",
    takes: None,
};

/// `-i` and `--invalid`.
const INVALID: Known<'static> = Known {
    letter: b'i',
    name: "invalid",
    takes: None,
};

const PROGRAM: Program<'static> = Program {
    name: "json_schema",
    options: &[
        LINES, ALL, NUMBER, TEXT, VALID, INVALID, MAX_LINE, DRAFT, REF, META, FORMAT, HELP, VERSION,
    ],
    help: "\
Usage: json_schema [-aft] [-lvi] [-n N] [-m N] [-d N] [-r FILE].. SCHEMA [FILE..]
       json_schema --meta [-aft] [-n N] [-d N] [-r FILE].. [FILE..]

Checks JSON texts against a JSON Schema of draft 4, 6, 7, 2019-09 or 2020-12.
SCHEMA is the name of the schema's file. Of a value that is not valid one line
of JSON is printed: what was wanted and what the value is, the place in the
schema, and the place in the value, with its line and column.

The texts are those of the files, or standard input where none is named; '-' is
standard input, too. Options may come anywhere; after '--' all are operands.
A message names each key of the schema that is no keyword, and a $schema that
is not known: the schema is read in the draft that $schema names, or else in
that of --draft: 4, 6, 7, 2019 for 2019-09, or 2020 for 2020-12, the default.

Options:
  -l, --lines       check each line; reports and messages have its number
  -a, --all         print all that a text violates, up to 100 reports: not with
                    lines
  -n, --number N    with -a: up to N reports
  -t, --text        print reports for people: a.json:1:6: /b is not allowed
  -v, --valid       check each line, and print those that are valid
  -i, --invalid     check each line, and print the others
  -m, --max-line N  with -l: do not check or keep a line of more than N bytes
  -d, --draft N     read a schema that names no draft in draft N
  -r, --ref FILE    let references lead into this schema, too: by its $id or its
                    name as seen from SCHEMA, or by a URI: -r URI=FILE; or into
                    each *.json file below a folder: -r FOLDER. The meta-schemas
                    of the drafts are known
  -M, --meta        check schemas, each by the meta-schema that its $schema
                    names, or else by that of --draft: not line by line
  -f, --assert-format  assert \"format\" of strings: date, time, date-time,
                    duration, email, hostname, ipv4, ipv6, uri, uri-reference,
                    uri-template, uuid, json-pointer, relative-json-pointer,
                    regex; report others
  -h, --help        print this page
  -V, --version     print the version

Exit status:
  0  each value is valid
  1  a value is not valid; with -l also: a line can't be checked
  2  the arguments are not understood, or SCHEMA can't be read or applied
  3  without -l: an input is no JSON text, not UTF-8, or nested too deep; or
     with --meta: its $schema is not known
  4  memory ran out, or a read or a write failed

Examples:
  $ echo '{\"items\": {\"type\": \"integer\"}}' > schema.json
  $ echo '[1, 2.0]' | json_schema schema.json
  $ printf '[1]\\n[\"a\"]\\n' | json_schema -l schema.json | grep -c '\"line\":2'
  1
  $ echo '[1, \"a\"]' | json_schema --text schema.json
  line 1, col 5: /1 must be an integer, is a string
  $ printf '[1]\\n[\"a\"]\\n' | json_schema --valid schema.json
  [1]
  $ echo '{\"minLength\": \"a\"}' | json_schema --meta -t
  line 1, col 15: /minLength must be an integer, is a string
",
};

fn main(rt: HostRuntime) -> ExitCode {
    let (Ok(status) | Err(status)) = run(&rt);
    ExitCode::from(status.code())
}

fn run(rt: &HostRuntime) -> Result<Status, Status> {
    let words = argument_words(rt, PROGRAM)?;
    let arguments = arguments_of(rt, PROGRAM, words.as_slice())?;
    let Some(request) = requested(&arguments) else {
        return Err(misused(rt, PROGRAM, Misuse::Missing("SCHEMA")));
    };
    match check_inputs(rt, &request) {
        Ok(status) => Ok(status),
        Err(failure) => Err(report(rt, PROGRAM, None, &failure)),
    }
}

/// A check against the schema of a file.
#[derive(Drop)]
struct Request<'w, 'a> {
    /// Whether each line of an input is a text of its own.
    by_lines: bool,
    /// Whether `format` is an assertion.
    formats: bool,
    /// What is written of the values.
    shows: Shows,
    /// How many violations of a value are looked for, if it is not only the first one.
    most: Option<usize>,
    /// How many bytes a line may have before its line feed, if there is a limit.
    max_line: Option<usize>,
    /// The draft that a schema is read in which names none.
    draft: Option<usize>,
    /// The further documents that references lead into.
    documents: &'a [Text<'w>],
    /// The name of the schema's file; without one the inputs are schemas.
    schema: Option<&'w str>,
    /// The files that are checked.
    files: &'a [&'w str],
}

/// Parses the arguments: `[-lf] [-t | -v | -i] [-m N] [-d N] [-r FILE].. SCHEMA [FILE..]`.
fn requested<'w, 'a>(arguments: &'a Arguments<'w>) -> Option<Request<'w, 'a>>
    ensures { option_map (λ r. (
      (
        ((r.by_lines, r.formats), (r.shows, r.most)),
        ((r.max_line, r.draft), map text_of r.documents.now),
      ),
      (option_map (λ f. f.now) r.schema, map (λ f. f.now) r.files.now),
    )) result ≡ asks (given_of arguments.now) }
{
    let shows = requested_shows(arguments);
    let by_lines = arguments.has(b'l') || are_lines(shows);
    let formats = arguments.has(b'f');
    let most = requested_most(arguments);
    let max_line = arguments.number(b'm');
    let draft = arguments.number(b'd');
    let (schema, files) = requested_files(arguments)?;
    Some(Request {
        by_lines,
        formats,
        shows,
        most,
        max_line,
        draft,
        documents: arguments.texts.as_slice(),
        schema,
        files,
    })
}

/// The name of the schema's file, if the inputs are no schemas, and those of the inputs.
fn requested_files<'w, 'a>(arguments: &'a Arguments<'w>) -> Option<(Option<&'w str>, &'a [&'w str])>
    ensures { option_map (λ r. (option_map (λ f. f.now) r.0, map (λ f. f.now) r.1.now)) result
        ≡ asked_files (given_of arguments.now) }
{
    if arguments.has(b'M') {
        return Some((None, arguments.operands.as_slice()));
    }
    let (schema, files) = arguments.first()?;
    Some((Some(schema), files))
}

/// What is written: by `-v`, else `-i`, else `-t`.
fn requested_shows(arguments: &Arguments<'_>) -> Shows
    ensures { result ≡ asked_shows (given_of arguments.now) }
{
    if arguments.has(b'v') {
        Shows::ValidLines
    } else if arguments.has(b'i') {
        Shows::OtherLines
    } else if arguments.has(b't') {
        Shows::Texts
    } else {
        Shows::Reports
    }
}

/// How many violations are looked for: by `-a`, and `-n`.
fn requested_most(arguments: &Arguments<'_>) -> Option<usize>
    ensures { result ≡ asked_most (given_of arguments.now) }
{
    if !arguments.has(b'a') {
        return None;
    }
    match arguments.number(b'n') {
        Some(number) => Some(number),
        None => Some(MOST),
    }
}

/// Whether lines are written themselves.
fn are_lines(shows: Shows) -> bool
    ensures { result ≡ are_lines shows }
{
    matches!(shows, Shows::ValidLines | Shows::OtherLines)
}

/// Reads the schema, and checks the inputs.
fn check_inputs(rt: &HostRuntime, request: &Request<'_, '_>) -> Result<Status, Failure> {
    if request.by_lines && request.most.is_some() {
        let words = String::from_str(rt.alloc(), "--all checks no lines")?;
        return Err(Failure::Misused(words));
    }
    let default = asked_draft(rt.alloc(), request.draft)?;
    match request.schema {
        Some(schema) => check_values(rt, request, schema, default),
        None => check_schemas(rt, request, default),
    }
}

/// Checks each input, a schema, by its meta-schema.
fn check_schemas(
    rt: &HostRuntime,
    request: &Request<'_, '_>,
    default: Draft,
) -> Result<Status, Failure> {
    if request.by_lines {
        return Err(schema_failure(rt.alloc(), &SchemaFailure::MetaLines));
    }
    let checks = meta_schemas(
        rt,
        default,
        request.formats,
        request.most,
        request.documents,
    )?;
    Ok(by_texts(rt, request, By::MetaSchemas(&checks)))
}

/// Reads the schema in a file, and checks the inputs.
fn check_values(
    rt: &HostRuntime,
    request: &Request<'_, '_>,
    schema: &str,
    default: Draft,
) -> Result<Status, Failure> {
    let tree = schema_tree(rt, schema)?;
    tell_unknown(rt, &tree)?;
    let draft = draft_of(&tree, default);
    let compound = compound_of(tree, default, rt.alloc())?;
    let compound = match request.documents {
        [] => compound,
        documents => with_documents(rt, compound, schema, draft, documents)?,
    };
    let Compound { tree, is_older } = whole_of(rt.alloc(), compound)?;
    let checked = check_by(rt, &tree, is_older, request);
    tree.dismantle();
    checked
}

/// The draft of a schema that names none.
fn asked_draft(alloc: Global, number: Option<usize>) -> Result<Draft, Failure> {
    match number {
        None | Some(2020) => Ok(Draft::Draft202012),
        Some(2019) => Ok(Draft::Draft201909),
        Some(7) => Ok(Draft::Draft7),
        Some(6) => Ok(Draft::Draft6),
        Some(4) => Ok(Draft::Draft4),
        Some(number) => Err(schema_failure(alloc, &SchemaFailure::NoDraft(number))),
    }
}

/// Tells of a `$schema` that is not known.
fn tell_unknown(rt: &HostRuntime, tree: &JsonValue) -> Result<(), Failure> {
    let Some(uri) = unknown_dialect(tree) else {
        return Ok(());
    };
    match tell_name(rt.alloc(), &mut rt.stderr(), uri, Unknown::Dialect) {
        Ok(()) => Ok(()),
        Err(error) => Err(writing_error(error)),
    }
}

/// Parses the schema's file.
// Not inlined, nor is the check of texts or of lines, so that a check has no other one's buffers below it on the
// stack.
#[inline(never)]
fn schema_tree(rt: &HostRuntime, file: &str) -> Result<JsonValue, Failure> {
    let alloc = rt.alloc();
    let text = read_named(rt, file)?;
    match JsonValue::from_str_with_depth_limit(alloc, text.as_str(), DEPTH_LIMIT) {
        Ok(tree) => Ok(tree),
        Err(error) => Err(schema_text_failure(alloc, error)),
    }
}

/// Prints the unknown names of the schema, and checks each input.
fn check_by(
    rt: &HostRuntime,
    tree: &JsonValue,
    is_older: bool,
    request: &Request<'_, '_>,
) -> Result<Status, Failure> {
    let alloc = rt.alloc();
    let schema = read_schema(alloc, tree, is_older)?;
    tell_unknown_names(rt, &unknown_words(tree, alloc)?, Unknown::Keyword)?;
    if request.formats {
        tell_unknown_names(rt, &unknown_formats(tree, alloc)?, Unknown::Format)?;
    }
    let buffers = Buffers::new(alloc);
    let judge = Judge {
        schema: &schema,
        formats: request.formats,
        buffers: &buffers,
    };
    let mut asked = Asked {
        alloc,
        judge,
        max_line: request.max_line,
        shows: request.shows,
    };
    if request.by_lines {
        return Ok(by_lines(rt, request.files, &mut asked));
    }
    Ok(by_texts(rt, request, By::Schema(judge)))
}

/// Tells of the names in the schema that are not known.
fn tell_unknown_names(
    rt: &HostRuntime,
    names: &BTreeSet<String>,
    unknown: Unknown,
) -> Result<(), Failure> {
    match tell_names(rt.alloc(), &mut rt.stderr(), names, unknown) {
        Ok(()) => Ok(()),
        Err(error) => Err(writing_error(error)),
    }
}

#[inline(never)]
fn by_lines(rt: &HostRuntime, files: &[&str], asked: &mut Asked<'_, '_>) -> Status {
    answer_lines(rt, PROGRAM, files, asked)
}

/// Checks the text of each file, whose name is in what is written of it. After a failure that is not about one file
/// alone no other is checked.
#[inline(never)]
fn by_texts(rt: &HostRuntime, request: &Request<'_, '_>, by: By<'_, '_>) -> Status {
    let files = request.files;
    let inputs = if files.is_empty() { &["-"] } else { files };
    let mut status = Status::Done;
    for name in inputs {
        let text = AskedText {
            by,
            shows: request.shows,
            most: request.most,
            file: if *name == "-" { None } else { Some(*name) },
            is_read: Cell::new(false),
        };
        let of_file = answer_files(rt, PROGRAM, &[*name], &text);
        status = status.and(of_file);
        if text.is_read.get() && matches!(of_file, Status::Failed) {
            break;
        }
    }
    status
}

fn read_schema(alloc: Global, tree: &JsonValue, is_older: bool) -> Result<Schema<'_>, Failure> {
    let place = match Schema::read(tree, alloc) {
        Ok(schema) => return Ok(schema),
        Err(SchemaError::Refused(place) | SchemaError::PatternLimit(place)) => place,
        Err(SchemaError::OutOfMemory) => return Err(Failure::OutOfMemory),
    };
    let refusal = Refusal {
        root: tree,
        place: &place,
        is_older,
    };
    Err(refused_failure(alloc, refusal))
}

/// The schema that each line is checked against.
#[derive(Drop)]
struct Asked<'a, 's> {
    alloc: Global,
    judge: Judge<'a, 's>,
    max_line: Option<usize>,
    shows: Shows,
}

/// What a text is checked by.
#[derive(Clone, Copy)]
enum By<'a, 's> {
    /// This schema.
    Schema(Judge<'a, 's>),
    /// The meta-schema that it names.
    MetaSchemas(&'a MetaSchemas),
}

/// What the text of a file is checked by.
#[derive(Drop)]
struct AskedText<'a, 's, 'f> {
    by: By<'a, 's>,
    shows: Shows,
    /// How many violations are looked for, if it is not only the first one.
    most: Option<usize>,
    /// The name of the file, if it has one.
    file: Option<&'f str>,
    /// Whether the file was read.
    is_read: Cell<bool>,
}

impl Answer for AskedText<'_, '_, '_> {
    fn answer<W: Write>(
        &self,
        alloc: Global,
        text: &str,
        output: &mut W,
    ) -> Result<Status, Failure> {
        self.is_read.set(true);
        let every = match self.by {
            By::Schema(judge) => check_as(alloc, judge, text, self.most)?,
            By::MetaSchemas(checks) => match checks.check(alloc, text) {
                Ok(every) => every,
                Err(error) => return Err(meta_failure(alloc, error)),
            },
        };
        let found = match every {
            Every::Refused(cause) => return Err(text_failure(alloc, cause)),
            Every::Found(found) => found,
        };
        for located in found.as_slice() {
            if let Err(error) = self.write(alloc, located, output) {
                return Err(writing_error(error));
            }
        }
        if found.is_empty() {
            return Ok(Status::Done);
        }
        Ok(Status::No)
    }
}

impl AskedText<'_, '_, '_> {
    /// Writes a report.
    fn write<W: Write>(&self, alloc: Global, located: &Located, output: &mut W) -> io::Result<()> {
        let line = located.place.line as u64;
        match self.shows {
            Shows::Texts => write_text(alloc, self.file, line, located, output),
            _ => write_report(alloc, line, located, output),
        }
    }
}

impl AnswerLines for Asked<'_, '_> {
    fn answer<R: BufRead, W: Write, E: Write>(
        &mut self,
        file: Option<&str>,
        input: &mut R,
        output: &mut W,
        errors: &mut E,
    ) -> io::Result<(bool, Status)> {
        let check = Check {
            judge: self.judge,
            file,
            max_line: self.max_line,
            shows: self.shows,
        };
        let outcome = check_lines(self.alloc, check, input, output, errors)?;
        Ok((true, outcome.status()))
    }
}
