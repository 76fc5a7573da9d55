//! A program: its name, its options and its help page.
ghost use Rattle.std.specs.Prelude.{◌≡◌, IfErr, map, string_bytes};
ghost use Rattle.tinyjson_cli.specs.Failures.{failure_status};
ghost use Rattle.tinyjson_cli.specs.Ending.{Asks, IsOfArguments, IsOfPage, misuse_status};

use crate::arguments::{Arguments, Known, Misuse, Taken, read_arguments};
use crate::failure::{Failure, Message};
use crate::input::writing_error;
use crate::status::Status;
use std::env;
use std::io::{self, ErrorKind, Write};

/// What all programs know: `-h` and `--help`.
pub const HELP: Known<'static> = Known {
    letter: b'h',
    name: "help",
    takes: None,
};

/// What all programs know: `-V` and `--version`.
pub const VERSION: Known<'static> = Known {
    letter: b'V',
    name: "version",
    takes: None,
};

/// What programs know that read lines: `-m` and `--max-line`.
pub const MAX_LINE: Known<'static> = Known {
    letter: b'm',
    name: "max-line",
    takes: Some(Taken::Number),
};

/// The version of all programs.
const VERSION_NUMBER: &str = "0.2.0";

/// A program, as its arguments name it.
#[derive(Clone, Copy)]
pub struct Program<'a> {
    /// Its name.
    pub name: &'a str,
    /// The options that it knows, with `HELP` and `VERSION`.
    pub options: &'a [Known<'a>],
    /// Its help page.
    pub help: &'a str,
}

/// The arguments after the program's name. If they cannot be read, a message is printed, and the program ends with the
/// status: `Misused` where one is not UTF-8, `Failed` where memory ran out.
pub fn argument_words(rt: &HostRuntime, program: Program<'_>) -> Result<Vec<String>, Status>
    ensures { IfErr result IsOfArguments }
{
    let words = match env::args(rt) {
        Ok(words) => words.skip(1).collect::<Vec<String>>(rt.alloc()),
        Err(error) if error.kind() == ErrorKind::OutOfMemory => {
            return Err(misused(rt, program, Misuse::OutOfMemory));
        }
        Err(_) => return Err(misused(rt, program, Misuse::NotUtf8)),
    };
    match words {
        Ok(words) => Ok(words),
        Err(_) => Err(misused(rt, program, Misuse::OutOfMemory)),
    }
}

/// What the words give. If they ask for help or the version, that is printed, and the program ends with `Done`. If
/// they are not understood, a message is printed, and it ends with `Misused`. `Failed`: memory ran out, or the page
/// was not written.
pub fn arguments_of<'a>(
    rt: &HostRuntime,
    program: Program<'_>,
    words: &'a [String],
) -> Result<Arguments<'a>, Status>
    ensures { Asks program.entry.options.now (map string_bytes words.now) result }
{
    match read_arguments(rt.alloc(), program.options, words) {
        Ok(arguments) => {
            if arguments.has(b'h') {
                return Err(printed(
                    rt,
                    program,
                    io::writer(rt).write_all(program.help.as_bytes()),
                ));
            }
            if arguments.has(b'V') {
                return Err(printed(
                    rt,
                    program,
                    println!(rt; "{} {VERSION_NUMBER}", program.name),
                ));
            }
            Ok(arguments)
        }
        Err(misuse) => Err(misused(rt, program, misuse)),
    }
}

/// The status after a page was printed, or was not.
fn printed(rt: &HostRuntime, program: Program<'_>, done: io::Result<()>) -> Status
    ensures { IsOfPage result }
{
    match done {
        Ok(()) => Status::Done,
        Err(error) => report(rt, program, None, &writing_error(error)),
    }
}

/// Prints what is wrong with the arguments and how to ask for help, and returns the status.
pub fn misused(rt: &HostRuntime, program: Program<'_>, misuse: Misuse<'_>) -> Status
    ensures { result ≡ misuse_status misuse.entry }
{
    let name = program.name;
    if let Misuse::OutOfMemory = misuse {
        return report(rt, program, None, &Failure::OutOfMemory);
    }
    let _ = eprintln!(rt; "{name}: {misuse}: try {name} --help");
    Status::Misused
}

/// Prints the message of a failure, unless the reader of the output has gone, and returns its status.
pub fn report(
    rt: &HostRuntime,
    program: Program<'_>,
    file: Option<&str>,
    failure: &Failure,
) -> Status
    ensures { result ≡ failure_status failure.now }
{
    if let Failure::Closed = failure {
        return failure.status();
    }
    let message = Message {
        program: program.name,
        file,
        failure,
    };
    let _ = eprintln!(rt; "{message}");
    failure.status()
}
