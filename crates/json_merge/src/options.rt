//! The program's arguments.
ghost use Rattle.std.specs.Prelude.{◌≡◌, option_map, map};
ghost use Rattle.tinyjson_cli.specs.Arguments.{given_of};
ghost use Rattle.json_merge.specs.Options.{patches_asked};

use tinyjson_cli::{Arguments, Known, Taken};

/// `-p` and `--patches`.
pub const PATCHES: Known<'static> = Known {
    letter: b'p',
    name: "patches",
    takes: Some(Taken::Number),
};

/// The files of the patches, and those with the texts: `[-p N] PATCH.. [FILE..]`.
pub fn patches_asked<'w, 'a>(arguments: &'a Arguments<'w>) -> Option<(&'a [&'w str], &'a [&'w str])>
    ensures { option_map (λ r. (map (λ p. p.now) r.0.now, map (λ f. f.now) r.1.now)) result
        ≡ patches_asked (given_of arguments.now) }
{
    let count = arguments.number(b'p').unwrap_or(1);
    let operands = arguments.operands.as_slice();
    if count > operands.len() {
        return None;
    }
    Some((&operands[..count], &operands[count..]))
}
