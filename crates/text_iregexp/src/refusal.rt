//! The errors of a schema's pattern.
ghost use Rattle.std.specs.Prelude.{◌≡◌};
ghost use Rattle.text_iregexp.specs.PatternReading.{Refused, IsRefused, kind_at, is_outside};
ghost use Rattle.text_iregexp.specs.PatternReading.{is_other_escape, is_half, is_other_group};
ghost use Rattle.text_iregexp.specs.PatternReading.{is_other_name, has_other_part, is_other_part};
ghost use Rattle.text_iregexp.specs.Patterns.{is_surrogate};

use crate::error::{IRegexpError, IRegexpErrorKind};
use crate::letter::code;
use crate::names::{begins_name, is_name_part};
use crate::pattern_error::{SchemaPatternError, SchemaPatternErrorKind};

/// The error of a pattern, which depends on the text at its place.
pub(crate) fn refusal(text: &[char], error: IRegexpError) -> SchemaPatternError
    requires { Refused text.now error }
    ensures { IsRefused text.now result }
{
    SchemaPatternError {
        kind: kind_at(&text[error.place..], error.kind),
        place: error.place,
    }
}

/// The kind of the error, which depends on the text at its place.
fn kind_at(rest: &[char], kind: IRegexpErrorKind) -> SchemaPatternErrorKind
    ensures { result ≡ kind_at rest.now kind }
{
    match kind {
        IRegexpErrorKind::Invalid => {
            if is_outside(rest) {
                return SchemaPatternErrorKind::Outside;
            }
            SchemaPatternErrorKind::Invalid
        }
        IRegexpErrorKind::TooDeep => SchemaPatternErrorKind::TooDeep,
        IRegexpErrorKind::TooLarge => SchemaPatternErrorKind::TooLarge,
        IRegexpErrorKind::OutOfMemory => SchemaPatternErrorKind::OutOfMemory,
    }
}

/// Whether the text begins with something that ECMA-262 has, and that these patterns do not have,
/// or not everywhere.
fn is_outside(text: &[char]) -> bool
    ensures { result ≡ is_outside text.now }
{
    let Some((first, rest)) = text.split_first() else {
        return false;
    };
    let Some((second, after)) = rest.split_first() else {
        return false;
    };
    *first == '(' && *second == '?' && is_other_group(after)
        || *first == '\\' && (is_other_escape(*second) || *second == 'u' && is_half(after))
}

/// Whether no name of a group follows `(?`, as patterns have it.
fn is_other_group(text: &[char]) -> bool
    ensures { result ≡ is_other_group text.now }
{
    match text {
        ['<', rest @ ..] => is_other_name(rest),
        _ => true,
    }
}

/// Whether what follows `(?<` makes a look-behind, or a name with a character that only ECMA-262
/// has.
fn is_other_name(text: &[char]) -> bool
    ensures { result ≡ is_other_name text.now }
{
    let Some((first, rest)) = text.split_first() else {
        return false;
    };
    *first == '='
        || *first == '!'
        || is_other_part(*first)
        || begins_name(*first) && has_other_part(rest)
}

/// Whether a character that only names of ECMA-262 have follows those of a name.
fn has_other_part(text: &[char]) -> bool
    ensures { result ≡ has_other_part text.now }
{
    let mut rest = text;
    while let Some((first, after)) = rest.split_first() {
        if !is_name_part(*first) {
            return is_other_part(*first);
        }
        rest = after;
    }
    false
}

/// Whether a name of ECMA-262 may have the character, and that of a group here may not.
fn is_other_part(c: char) -> bool
    ensures { result ≡ is_other_part c }
{
    c == '\\' || '\u{80}' <= c
}

/// Whether ECMA-262 gives this character another meaning after a backslash.
fn is_other_escape(c: char) -> bool
    ensures { result ≡ is_other_escape c }
{
    '1' <= c && c <= '9' || matches!(c, 'k' | 'p' | 'P')
}

/// Whether the text begins with the code of a surrogate.
fn is_half(text: &[char]) -> bool
    ensures { result ≡ is_half text.now }
{
    match code(text) {
        Some((code, _)) => is_surrogate(code),
        None => false,
    }
}

/// Whether it is the code of a surrogate.
fn is_surrogate(code: u32) -> bool
    ensures { result ≡ is_surrogate code }
{
    0xd800 <= code && code <= 0xdfff
}
