//! The characters at the beginning of a text.
ghost use Rattle.std.specs.Prelude.{◌≡◌, ◌∷◌, ◌<◌, [], MatchOption, length};
ghost use Rattle.std.specs.Str.{chars};
ghost use Rattle.tinyjson_pointer.specs.private.Scan.{is_closed, without_white};

use tinyjson_bytes::is_white;

/// The first character, and what follows it.
pub(crate) fn first(text: &str) -> Option<(char, &str)>
    ensures { MatchOption result (chars text.now ≡ [])
        (λ p. (chars text.now ≡ p.0 ∷ chars p.1.now) × (length p.1.now < length text.now)) }
{
    let mut rest = text.chars();
    let c = rest.next()?;
    Some((c, rest.as_str()))
}

/// What follows the white space at the beginning.
pub(crate) fn after_white(text: &str) -> &str
    ensures { chars result.now ≡ without_white (chars text.now) }
{
    let mut rest = text;
    while let Some((c, behind)) = first(rest) {
        if !is_white(c) {
            return rest;
        }
        rest = behind;
    }
    rest
}

/// Whether a closing bracket or brace is first after white space.
pub(crate) fn is_closed(text: &str) -> bool
    ensures { result ≡ is_closed (without_white (chars text.now)) }
{
    match first(after_white(text)) {
        Some((c, _)) => c == ']' || c == '}',
        None => false,
    }
}
