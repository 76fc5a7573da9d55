//! Finds the part of an accepted text that tokens name, without building a value.
ghost use Rattle.std.specs.Prelude.{◌≡◌, ◌∷◌, ◌++◌, ℕ, List, map};
ghost use Rattle.std.specs.Prelude.{option_map};
ghost use Rattle.std.specs.Str.{chars};
ghost use Rattle.tinyjson.specs.Syntax.{Syntax, Elements, Pairs, text as spelled, elements_text};
ghost use Rattle.tinyjson.specs.Syntax.{pairs_text};
ghost use Rattle.tinyjson.specs.Syntax.{AreElements, ArePairs, IsSpelled, IsStrict};
ghost use Rattle.tinyjson.specs.Syntax.{PairsAreStrict};
ghost use Rattle.tinyjson.specs.Characters.{end_array, end_object};
ghost use Rattle.tinyjson_pointer.specs.Index.{index_of};
ghost use Rattle.tinyjson_pointer.specs.private.Scan.{after_commas};
ghost use Rattle.tinyjson.specs.View.{text};
ghost use Rattle.tinyjson_pointer.specs.Places.{child, named};
ghost use Rattle.tinyjson_pointer.specs.Spots.{item_spot, last_member};
ghost use Rattle.tinyjson_pointer.specs.private.Parts.{FindsFrom, Steps, begun};

use crate::array_index::index;
use crate::place::member::last_member;
use crate::place::scan::after;
use crate::place::text::{after_white, first, is_closed};
use std::alloc::Global;
use tinyjson::JsonParseError;

/// What begins with the part that the tokens name, in what begins with a value.
pub(crate) fn part<'t>(
    alloc: Global,
    value: &'t str,
    tokens: &[String],
) -> Result<Option<&'t str>, JsonParseError>
    ensures { (s : Syntax) (r : List ℕ) → IsSpelled s → IsStrict s →
        chars value.now ≡ spelled s ++ r →
        FindsFrom r (named s (map text tokens.now)) result }
{
    let mut here = Some(value);
    let mut left = tokens;
    while let Some((token, rest)) = left.split_first() {
        let next = child_of(alloc, here, token.as_str())?;
        here = next;
        left = rest;
    }
    Ok(here)
}

/// What begins with the part that one token names, if there is a value.
fn child_of<'t>(
    alloc: Global,
    value: Option<&'t str>,
    token: &str,
) -> Result<Option<&'t str>, JsonParseError>
    ensures { Steps (chars token.now) (option_map (λ v. chars v.now) value.entry) result }
{
    match value {
        Some(value) => child(alloc, value, token),
        None => Ok(None),
    }
}

/// What begins with the part that one token names.
fn child<'t>(alloc: Global, value: &'t str, token: &str) -> Result<Option<&'t str>, JsonParseError>
    ensures { (s : Syntax) (r : List ℕ) → IsSpelled s → IsStrict s →
        chars value.now ≡ spelled s ++ r → FindsFrom r (child s (chars token.now)) result }
{
    let Some((opening, inside)) = first(value) else {
        return Ok(None);
    };
    if is_closed(inside) {
        return Ok(None);
    }
    match opening {
        '[' => Ok(item(inside, token)),
        '{' => member_value(alloc, inside, token),
        _ => Ok(None),
    }
}

/// What begins with the item whose index the token is, in what begins with items.
fn item<'t>(inside: &'t str, token: &str) -> Option<&'t str>
    ensures { (es : Elements) (r : List ℕ) → AreElements es →
        chars inside.now ≡ elements_text es ++ end_array ∷ r →
        option_map (λ s. chars s.now) result
        ≡ option_map (begun (end_array ∷ r)) (item_spot es (index_of (chars token.now))) }
{
    let rest = after_commas(inside, index(token)?)?;
    Some(after_white(rest))
}

/// What follows that many commas outside of strings and inner containers.
fn after_commas(text: &str, count: usize) -> Option<&str>
    ensures { option_map (λ s. chars s.now) result ≡ after_commas count (chars text.now) }
{
    let mut left = count;
    let mut rest = text;
    while left > 0 {
        rest = after(rest, ',')?;
        left -= 1;
    }
    Some(rest)
}

/// What begins with the value of the last member with the key, in what begins with members.
fn member_value<'t>(
    alloc: Global,
    inside: &'t str,
    key: &str,
) -> Result<Option<&'t str>, JsonParseError>
    ensures { (ps : Pairs) (r : List ℕ) → ArePairs ps → PairsAreStrict ps →
        chars inside.now ≡ pairs_text ps ++ end_object ∷ r →
        FindsFrom (end_object ∷ r) (last_member (chars key.now) ps) result }
{
    let found = last_member(alloc, inside, key)?;
    let Some(member) = found else {
        return Ok(None);
    };
    Ok(Some(member.value))
}
