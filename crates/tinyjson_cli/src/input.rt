//! The texts that a program reads.
ghost use Rattle.std.specs.IoError.{error_kind};
ghost use Rattle.std.specs.Prelude.{◌≡◌, IfErr, MatchResult, string_bytes};
ghost use Rattle.std.specs.Str.{IsUtf8};
ghost use Rattle.tinyjson_cli.specs.Ending.{IsOfInput, IsOfNamed};
ghost use Rattle.tinyjson_cli.specs.Failures.{reading_failure, writing_failure};

use crate::failure::{Failure, Place};
use crate::place::place_after;
use crate::shown::Shown;
use std::alloc::Global;
use std::io::{self, ErrorKind, Read};
use std::{fs, str};

/// The text of a file, or of standard input if there is no name. It fails with `Reading`, `NotUtf8` or `OutOfMemory`.
pub fn read_text(rt: &HostRuntime, file: Option<&str>) -> Result<String, Failure>
    ensures { IfErr result IsOfInput }
{
    let read = match file {
        Some(file) => fs::read(rt, file),
        None => read_input(rt),
    };
    match read {
        Ok(bytes) => text_of(bytes),
        Err(error) => Err(reading_error(error)),
    }
}

/// The text of these bytes, unless they are not UTF-8 from a place on.
fn text_of(bytes: Vec<u8>) -> Result<String, Failure>
    ensures { MatchResult result (λ text. string_bytes text ≡ bytes.items)
        (λ failure. ¬ IsUtf8 bytes.items × IsOfInput failure) }
{
    match String::from_utf8(bytes) {
        Ok(text) => Ok(text),
        Err(error) => {
            let place = place_of_fault(error.as_bytes(), error.utf8_error().valid_up_to());
            Err(Failure::NotUtf8(place))
        }
    }
}

/// The text of a file that the arguments name, as a patch or a schema. It fails with `Misused`, whose words name the
/// file, or `OutOfMemory`.
pub fn read_named(rt: &HostRuntime, file: &str) -> Result<String, Failure>
    ensures { IfErr result IsOfNamed }
{
    let source = if file == "-" { None } else { Some(file) };
    match read_text(rt, source) {
        Ok(text) => Ok(text),
        Err(failure) => Err(named_failure(rt.alloc(), file, failure)),
    }
}

/// The failure of a file that the arguments name, from that of an input.
fn named_failure(alloc: Global, file: &str, failure: Failure) -> Failure
    ensures { IsOfInput failure → IsOfNamed result }
{
    let words = match &failure {
        Failure::NotUtf8(Place { line, column }) => {
            format!(in alloc; "{}:{line}:{column}: {failure}", Shown(file))
        }
        Failure::Reading(_) => format!(in alloc; "{}: {failure}", Shown(file)),
        _ => return failure,
    };
    match words {
        Ok(words) => Failure::Misused(words),
        Err(_) => Failure::OutOfMemory,
    }
}

/// All bytes of standard input.
fn read_input(rt: &HostRuntime) -> io::Result<Vec<u8>> {
    let mut bytes = Vec::new(rt.alloc());
    rt.reader().read_to_end(&mut bytes)?;
    Ok(bytes)
}

/// Where in the bytes the first `len` end, which are UTF-8.
fn place_of_fault(bytes: &[u8], len: usize) -> Place {
    let valid = bytes.get(..len).unwrap_or(&[]);
    place_after(str::from_utf8(valid).unwrap_or(""))
}

/// A failure to read an input.
pub fn reading_error(error: io::Error) -> Failure
    ensures { result ≡ reading_failure (error_kind error) error }
{
    match error.kind() {
        ErrorKind::OutOfMemory => Failure::OutOfMemory,
        _ => Failure::Reading(error),
    }
}

/// A failure to write the output.
pub fn writing_error(error: io::Error) -> Failure
    ensures { result ≡ writing_failure (error_kind error) error }
{
    match error.kind() {
        ErrorKind::OutOfMemory => Failure::OutOfMemory,
        ErrorKind::BrokenPipe => Failure::Closed,
        _ => Failure::Writing(error),
    }
}
