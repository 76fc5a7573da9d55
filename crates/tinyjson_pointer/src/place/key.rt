//! The place at which the key of a member begins.
ghost use Rattle.std.specs.Prelude.{◌≡◌, ◌∷◌, ◌++◌, ℕ, List, None, map};
ghost use Rattle.std.specs.Str.{chars};
ghost use Rattle.tinyjson.specs.Characters.{end_object};
ghost use Rattle.tinyjson.specs.Grammar.{IsAccepted};
ghost use Rattle.tinyjson.specs.Syntax.{Syntax, Pairs, text as spelled, pairs_text};
ghost use Rattle.tinyjson.specs.Syntax.{ArePairs, IsSpelled, IsStrict, PairsAreStrict};
ghost use Rattle.tinyjson.specs.View.{text};
ghost use Rattle.tinyjson_pointer.specs.Tokens.{tokens_of};
ghost use Rattle.tinyjson_pointer.specs.Places.{LocatesKey};
ghost use Rattle.tinyjson_pointer.specs.private.Keys.{FindsKey, child_member, last_with};
ghost use Rattle.tinyjson_pointer.specs.private.Keys.{named_member};

use crate::place::member::last_member;
use crate::place::part::part;
use crate::place::text::{after_white, first, is_closed};
use crate::place::{Place, place_at};
use crate::pointer::Pointer;
use std::alloc::Global;
use tinyjson::{JsonParseError, check};

/// Where the key begins, with its quotation mark, of the member that the pointer names in the value
/// of the text. `None` if it names no member: the whole, an item, or no part. Of equal keys the last
/// counts. Errors, reading and memory are those of [`place_of`](crate::place_of).
///
/// ```
/// let text = "[1,\n {\"a\": true}]";
/// let pointer = Pointer::parse(alloc, "/1/a")?;
/// let place = key_place_of(alloc, text, &pointer)?; // byte 6, line 2, column 3
/// ```
pub fn key_place_of(
    alloc: Global,
    text: &str,
    pointer: &Pointer,
) -> Result<Option<Place>, JsonParseError>
    ensures { LocatesKey (chars text.now) (tokens_of pointer.now) result }
{
    check(alloc, text)?;
    key_place_in(alloc, text, pointer)
}

/// [`key_place_of`] in a text that is known to be accepted: it is not checked again. The only error is out of memory.
///
/// ```
/// let place = key_place_in(alloc, text, &pointer)?; // of a text that was parsed before
/// ```
pub fn key_place_in(
    alloc: Global,
    text: &str,
    pointer: &Pointer,
) -> Result<Option<Place>, JsonParseError>
    requires { IsAccepted None (chars text.now) }
    ensures { LocatesKey (chars text.now) (tokens_of pointer.now) result }
{
    let found = key(alloc, after_white(text), pointer.tokens())?;
    let Some(key) = found else {
        return Ok(None);
    };
    Ok(Some(place_at(text, key)))
}

/// What begins with the key of the member that the tokens name, in what begins with a value.
fn key<'t>(
    alloc: Global,
    value: &'t str,
    tokens: &[String],
) -> Result<Option<&'t str>, JsonParseError>
    ensures { (s : Syntax) (r : List ℕ) → IsSpelled s → IsStrict s →
        chars value.now ≡ spelled s ++ r →
        FindsKey r (named_member s (map text tokens.now)) result }
{
    let Some((last, front)) = tokens.split_last() else {
        return Ok(None);
    };
    let found = part(alloc, value, front)?;
    let Some(container) = found else {
        return Ok(None);
    };
    child_key(alloc, container, last.as_str())
}

/// What begins with the key of the member that one token names.
fn child_key<'t>(
    alloc: Global,
    value: &'t str,
    token: &str,
) -> Result<Option<&'t str>, JsonParseError>
    ensures { (s : Syntax) (r : List ℕ) → IsSpelled s → IsStrict s →
        chars value.now ≡ spelled s ++ r → FindsKey r (child_member s (chars token.now)) result }
{
    let Some((opening, inside)) = first(value) else {
        return Ok(None);
    };
    if is_closed(inside) {
        return Ok(None);
    }
    match opening {
        '{' => member_key(alloc, inside, token),
        _ => Ok(None),
    }
}

/// What begins with the key of the last member that has it, in what begins with members.
fn member_key<'t>(
    alloc: Global,
    inside: &'t str,
    key: &str,
) -> Result<Option<&'t str>, JsonParseError>
    ensures { (ps : Pairs) (r : List ℕ) → ArePairs ps → PairsAreStrict ps →
        chars inside.now ≡ pairs_text ps ++ end_object ∷ r →
        FindsKey (end_object ∷ r) (last_with (chars key.now) ps) result }
{
    let found = last_member(alloc, inside, key)?;
    let Some(member) = found else {
        return Ok(None);
    };
    Ok(Some(member.key))
}
