//! What the arguments ask for.
ghost use Rattle.std.specs.Prelude.{◌≡◌};
ghost use Rattle.tinyjson_cli.specs.Arguments.{given_of};
ghost use Rattle.json_lines.specs.Options.{asks};

use crate::lines::Options;
use tinyjson_cli::{Arguments, Known, Taken};

/// `-k` and `--keep-going`.
pub const KEEP_GOING: Known<'static> = Known {
    letter: b'k',
    name: "keep-going",
    takes: None,
};

/// `-d` and `--depth`.
pub const DEPTH: Known<'static> = Known {
    letter: b'd',
    name: "depth",
    takes: Some(Taken::Number),
};

/// How the lines of standard input are read: `[-k] [-d N] [-m N]`.
pub fn options(arguments: &Arguments<'_>) -> Options<'static>
    ensures { (result.goes_on, (result.limit, result.max_line)) ≡ asks (given_of arguments.now) }
{
    Options {
        goes_on: arguments.has(b'k'),
        limit: arguments.number(b'd'),
        max_line: arguments.number(b'm'),
        file: None,
    }
}
