//! Passes over values, by their brackets and quotation marks alone.
ghost use Rattle.std.specs.Prelude.{◌≡◌, ◌∷◌, ◌++◌, ◌<◌, ◌≤◌, ◌+◌, ◌^◌, None, Some, IfSome};
ghost use Rattle.std.specs.Prelude.{MatchOption, option_map};
ghost use Rattle.std.specs.Str.{IsUtf8, chars};
ghost use Rattle.tinyjson_pointer.specs.private.Scan.{after, level_of, see, see_outside};
ghost use Rattle.tinyjson_pointer.specs.private.Scan.{Goes_within};

use crate::place::text::first;

/// What the characters that were passed leave open: inner containers, as many as the number, and perhaps a
/// string, or an escape in one.
#[derive(Clone, Copy)]
pub(crate) enum Scan {
    Outside(usize),
    Quoted(usize),
    Escaped(usize),
}

/// What a character does.
#[derive(Clone, Copy)]
pub(crate) enum Seen {
    /// It is passed.
    Goes(Scan),
    /// It is the one that is looked for.
    Found,
    /// It closes the container.
    Closed,
}

fn see(scan: Scan, c: char, stop: char) -> Seen
    requires { level_of scan + 1 < 2 ^ 64 }
    ensures seen { result ≡ see stop scan c }
    ensures level { Goes_within result (level_of scan + 1) }
{
    match scan {
        Scan::Outside(level) => see_outside(level, c, stop),
        Scan::Quoted(level) => match c {
            '"' => Seen::Goes(Scan::Outside(level)),
            '\\' => Seen::Goes(Scan::Escaped(level)),
            _ => Seen::Goes(Scan::Quoted(level)),
        },
        Scan::Escaped(level) => Seen::Goes(Scan::Quoted(level)),
    }
}

fn see_outside(level: usize, c: char, stop: char) -> Seen
    requires { level + 1 < 2 ^ 64 }
    ensures seen { result ≡ see_outside stop level c }
    ensures level { Goes_within result (level + 1) }
{
    match c {
        '"' => Seen::Goes(Scan::Quoted(level)),
        '[' | '{' => Seen::Goes(Scan::Outside(level + 1)),
        ']' | '}' if level == 0 => Seen::Closed,
        ']' | '}' => Seen::Goes(Scan::Outside(level - 1)),
        _ if level == 0 && c == stop => Seen::Found,
        _ => Seen::Goes(Scan::Outside(level)),
    }
}

/// What follows the first such character that is outside of strings and inner containers. `None` if the text ends,
/// or a bracket closes its container, before that.
pub(crate) fn after(text: &str, stop: char) -> Option<&str>
    ensures finds { option_map (λ s. chars s.now) result
        ≡ after stop (Scan.Outside 0) (chars text.now) }
    ensures utf8 { IfSome result (λ s. IsUtf8 s.now) }
{
    let mut rest = text;
    let mut scan = Scan::Outside(0);
    while let Some((c, behind)) = first(rest) {
        rest = behind;
        match see(scan, c, stop) {
            Seen::Goes(next) => scan = next,
            Seen::Found => return Some(rest),
            Seen::Closed => return None,
        }
    }
    None
}

/// What is before that character, and what follows it.
pub(crate) fn split(text: &str, stop: char) -> Option<(&str, &str)>
    requires { stop < 128 }
    ensures { MatchOption result (after stop (Scan.Outside 0) (chars text.now) ≡ None)
        (λ p. (after stop (Scan.Outside 0) (chars text.now) ≡ Some (chars p.1.now))
        × (chars text.now ≡ chars p.0.now ++ stop ∷ chars p.1.now)) }
{
    let behind = after(text, stop)?;
    let front = &text[..text.len() - behind.len() - 1];
    Some((front, behind))
}
