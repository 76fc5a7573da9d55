//! Reads one JSON text from standard input, and writes its value's normal text to standard output.
//!
//! The arguments `-i` and `-d N` ask for text indented with two spaces and for a limit on depth. The
//! status is 0 for success, 1 for a text that is refused, 2 for other arguments, 3 for input that isn't
//! UTF-8, and 4 where memory, a read or a write failed.
#![tactic(auto)]

ghost use Rattle.std.specs.Prelude.{◌≡◌, ◌≢◌, Some, IfSome, SomeIff, MatchBool, map, string_bytes};
ghost use Rattle.std.specs.Str.Parse.{digits_value};
ghost use Rattle.jsonnorm.specs.Options.{Asks, IsLimit};
ghost use Rattle.jsonnorm.specs.declared.run.Options.{Options};

pub mod fault;
pub mod run;
#[cfg(test)]
mod tests;

use fault::RunFault;
use run::Options;
use std::env::{self, Env};
use std::io::{self, ErrorKind, Write};
use std::process::ExitCode;

const USAGE: &str = "usage: jsonnorm [-i] [-d N]";

fn main(rt: HostRuntime) -> ExitCode {
    let ended = match asked(&rt) {
        Ok(Some(options)) => normalize(&rt, options),
        Ok(None) => {
            let _ = eprintln!(rt; "{USAGE}");
            return ExitCode::from(2);
        }
        Err(error) => Err(error),
    };
    match ended {
        Ok(()) => ExitCode::SUCCESS,
        Err(error) => {
            let _ = eprintln!(rt; "jsonnorm: {error}");
            ExitCode::from(error.status())
        }
    }
}

/// The options that the arguments ask for; `None` where they aren't understood.
fn asked(rt: &(impl Env + AllocGlobal)) -> Result<Option<Options>, RunFault> {
    let words = match env::args(rt) {
        Ok(words) => words,
        Err(error) if error.kind() == ErrorKind::OutOfMemory => return Err(RunFault::OutOfMemory),
        Err(_) => return Ok(None),
    };
    match words.skip(1).collect::<Vec<String>>(rt.alloc()) {
        Ok(words) => Ok(options(words.as_slice())),
        Err(_) => Err(RunFault::OutOfMemory),
    }
}

/// Reads the arguments that follow the program's name: `-i` for indented text, and `-d N` for a limit
/// on depth, N of 1 to 9 decimal digits. They come in either order, each at most once; other
/// arguments give `None`.
pub fn options(words: &[String]) -> Option<Options>
    ensures asked { IfSome result (λ o. Asks (map string_bytes words.now) o.indented o.limit) }
    ensures given { (o : Options) → Asks (map string_bytes words.now) o.indented o.limit →
        result ≡ Some o }
{
    let (indented, limit) = match words {
        [] => (false, None),
        [i] if is_word(i, "-i") => (true, None),
        [d, n] if is_word(d, "-d") => (false, Some(depth(n.as_str())?)),
        [i, d, n] if is_word(i, "-i") && is_word(d, "-d") => (true, Some(depth(n.as_str())?)),
        [d, n, i] if is_word(d, "-d") && is_word(i, "-i") => (true, Some(depth(n.as_str())?)),
        _ => return None,
    };
    Some(Options { indented, limit })
}

/// Whether the argument is this one.
fn is_word(word: &String, expected: &str) -> bool
    ensures { MatchBool result (string_bytes word.now ≡ expected.now)
        (string_bytes word.now ≢ expected.now) }
{
    word.as_str() == expected
}

/// The number that 1 to 9 decimal digits write.
fn depth(word: &str) -> Option<usize>
    ensures { SomeIff result (IsLimit word.now) (digits_value 10 word.now) }
{
    if word.is_empty() || word.len() > 9 || word.as_bytes()[0] == b'+' {
        return None;
    }
    word.parse().ok()
}

/// From standard input to standard output, which is flushed once, after success. A flush that fails is `Writing`.
fn normalize(rt: &(impl Input + Print + AllocGlobal), options: Options) -> Result<(), RunFault> {
    let alloc = rt.alloc();
    let (mut input, mut output) = (rt.reader(), io::writer(rt));
    let Options { indented, limit } = options;
    match limit {
        None => run::run(alloc, &mut input, &mut output, indented)?,
        Some(limit) => run::run_limited(alloc, &mut input, &mut output, indented, limit)?,
    }
    output.flush().map_err(|_| RunFault::Writing)
}
