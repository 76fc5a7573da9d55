//! What the arguments ask for.
ghost use Rattle.std.specs.Prelude.{◌≡◌, OnOk, IfOk, string_bytes};
ghost use Rattle.tinyjson_cli.specs.Arguments.{given_of};
ghost use Rattle.json_format.specs.Options.{indent_asked};

use std::alloc::{AllocError, Global};
use tinyjson_cli::{Arguments, Known, Taken};

/// `-c` and `--check`.
pub const CHECK: Known<'static> = Known {
    letter: b'c',
    name: "check",
    takes: None,
};

/// `-i` and `--indent`.
pub const INDENT: Known<'static> = Known {
    letter: b'i',
    name: "indent",
    takes: Some(Taken::Number),
};

/// `-t` and `--tabs`.
pub const TABS: Known<'static> = Known {
    letter: b't',
    name: "tabs",
    takes: None,
};

/// The indent: a tab, or as many spaces as the number, by default two.
pub fn indent(alloc: Global, arguments: &Arguments<'_>) -> Result<String, AllocError>
    ensures { IfOk result (λ s. string_bytes s ≡ indent_asked (given_of arguments.now)) }
{
    if arguments.has(b't') {
        return "\t".to_string(alloc);
    }
    match arguments.number(b'i') {
        Some(count) => " ".repeat(alloc, count),
        None => "  ".to_string(alloc),
    }
}
