//! The program's arguments.
ghost use Rattle.std.specs.Prelude.{◌≡◌};
ghost use Rattle.tinyjson_cli.specs.Arguments.{given_of};
ghost use Rattle.json_part.specs.Options.{form_asked};

use crate::part::Form;
use tinyjson_cli::{Arguments, Known};

/// `-n` and `--null`.
pub const NULL: Known<'static> = Known {
    letter: b'n',
    name: "null",
    takes: None,
};

/// How the parts are printed: by `-i`, `-r` and `-n`.
pub fn form_asked(arguments: &Arguments<'_>) -> Form
    ensures { result ≡ form_asked (given_of arguments.now) }
{
    Form {
        is_indented: arguments.has(b'i'),
        is_raw: arguments.has(b'r'),
        or_null: arguments.has(b'n'),
    }
}
