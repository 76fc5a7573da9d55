//! Reads settings from standard input: an object with `port`, `host` and `tls`. It prints them, with control
//! characters of the host as `U+001B`. With a port as its one argument it prints the object with this port
//! instead.
//!
//! The status is 0 after success. It is 1 if the text has no settings or no port. It is 2 for other
//! arguments, for input that is not UTF-8, and if memory, a read or a write failed.
#![tactic(auto)]

pub mod servers;
pub mod settings;
mod shown;

use settings::{Key, SettingsError};
use shown::Shown;
use std::env::{self, Env};
use std::io::{self, ErrorKind};
use std::process::ExitCode;
use tinyjson::JsonValue;

const USAGE: &str = "usage: example_settings [PORT]";

fn main(rt: HostRuntime) -> ExitCode {
    match answer(&rt) {
        Ok(Ok(())) => ExitCode::SUCCESS,
        Ok(Err(error)) => {
            let _ = eprintln!(rt; "example_settings: {error}");
            ExitCode::from(1)
        }
        Err(error) => {
            let _ = eprintln!(rt; "example_settings: {error}");
            ExitCode::from(2)
        }
    }
}

/// From standard input to standard output. The outer error is that of the arguments, of reading or of
/// writing.
fn answer(rt: &(impl Env + Input + Print + AllocGlobal)) -> io::Result<Result<(), SettingsError>> {
    let port = port_asked(rt)?;
    let text = io::read_to_string(rt.alloc(), rt.reader())?;
    match port {
        None => print_settings(rt, text.as_str()),
        Some(port) => print_with_port(rt, text.as_str(), port),
    }
}

/// The port in the arguments.
fn port_asked(rt: &(impl Env + AllocGlobal)) -> io::Result<Option<u16>> {
    let mut words = match env::args(rt) {
        Ok(words) => words.skip(1),
        Err(error) if error.kind() == ErrorKind::OutOfMemory => return Err(error),
        Err(_) => return Err(io::Error::new(ErrorKind::InvalidInput, USAGE)),
    };
    let Some(word) = words.next() else {
        return Ok(None);
    };
    match word.as_str().parse() {
        Ok(port) if port > 0 && words.next().is_none() => Ok(Some(port)),
        _ => Err(io::Error::new(ErrorKind::InvalidInput, USAGE)),
    }
}

fn print_settings(
    rt: &(impl Print + AllocGlobal),
    text: &str,
) -> io::Result<Result<(), SettingsError>> {
    match settings::read(rt.alloc(), text) {
        Ok(settings) => {
            let scheme = if settings.tls { "https" } else { "http" };
            let host = Shown(settings.host.as_str());
            println!(rt; "{scheme}://{host}:{}", settings.port)?;
            Ok(Ok(()))
        }
        Err(SettingsError::Text(error)) if error.is_out_of_memory() => Err(error.into()),
        Err(error) => Ok(Err(error)),
    }
}

fn print_with_port(
    rt: &(impl Print + AllocGlobal),
    text: &str,
    port: u16,
) -> io::Result<Result<(), SettingsError>> {
    let mut value = match JsonValue::from_str(rt.alloc(), text) {
        Ok(value) => value,
        Err(error) if error.is_out_of_memory() => return Err(error.into()),
        Err(error) => return Ok(Err(SettingsError::Text(error))),
    };
    let answer = change_port(rt, &mut value, port);
    value.dismantle();
    answer
}

fn change_port(
    rt: &(impl Print + AllocGlobal),
    value: &mut JsonValue,
    port: u16,
) -> io::Result<Result<(), SettingsError>> {
    let alloc = rt.alloc();
    let Some(old) = settings::set_port(alloc, value, port)? else {
        return Ok(Err(SettingsError::Lacks(Key::Port)));
    };
    old.dismantle();
    println!(rt; "{}", value.stringify(alloc)?)?;
    Ok(Ok(()))
}
