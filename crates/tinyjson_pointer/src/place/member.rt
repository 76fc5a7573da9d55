//! Finds the last member with a key among the members of an object.
ghost use Rattle.std.specs.Prelude.{◌≡◌, ◌∷◌, ◌++◌, ℕ, List, None, Some, cond, MatchResult};
ghost use Rattle.std.specs.Prelude.{option_map};
ghost use Rattle.std.specs.Str.{bytes_eq, chars};
ghost use Rattle.tinyjson.specs.Characters.{end_object};
ghost use Rattle.tinyjson.specs.Grammar.{IsText};
ghost use Rattle.tinyjson.specs.Syntax.{Pairs, ArePairs, PairsAreStrict, pairs_text};
ghost use Rattle.tinyjson.specs.Tree.{string};
ghost use Rattle.tinyjson_pointer.specs.private.Keys.{FindsMember, last_with, member_chars};
ghost use Rattle.tinyjson_pointer.specs.private.Keys.{without_whites};
ghost use Rattle.tinyjson_pointer.specs.private.Parts.{IsExhausted};

use crate::place::scan::{after, split};
use crate::place::text::after_white;
use std::alloc::Global;
use tinyjson::{JsonParseError, JsonValue};

/// What begins with a member's key, and what begins with its value.
#[derive(Clone, Copy)]
pub(crate) struct Member<'t> {
    pub(crate) key: &'t str,
    pub(crate) value: &'t str,
}

/// The last member with the key, in what begins with members.
pub(crate) fn last_member<'t>(
    alloc: Global,
    inside: &'t str,
    key: &str,
) -> Result<Option<Member<'t>>, JsonParseError>
    ensures { (ps : Pairs) (r : List ℕ) → ArePairs ps → PairsAreStrict ps →
        chars inside.now ≡ pairs_text ps ++ end_object ∷ r →
        FindsMember (end_object ∷ r) (last_with (chars key.now) ps) result }
{
    let mut found = None;
    let mut members = inside;
    while let Some((name, value)) = split(members, ':') {
        found = newest(is_key(alloc, name, key)?, members, value, found);
        let Some(next) = after(value, ',') else {
            return Ok(found);
        };
        members = next;
    }
    Ok(found)
}

/// The member that begins there, after white space, and whose value follows, if it has the key; else
/// what was found before.
fn newest<'t>(
    has_key: bool,
    members: &'t str,
    value: &'t str,
    found: Option<Member<'t>>,
) -> Option<Member<'t>>
    ensures { option_map member_chars result
        ≡ cond has_key (Some (without_whites (chars members.now) (chars value.now)))
        (option_map member_chars found.entry) }
{
    if has_key {
        Some(Member {
            key: after_white(members),
            value: after_white(value),
        })
    } else {
        found
    }
}

/// Whether the text, which is that of a string, is one of the key.
fn is_key(alloc: Global, text: &str, key: &str) -> Result<bool, JsonParseError>
    ensures { (k : List ℕ) → IsText None (chars text.now) (string k) →
        MatchResult result (λ b. b ≡ bytes_eq (chars key.now) k) IsExhausted }
{
    let name = JsonValue::from_str(alloc, text)?;
    match &name {
        JsonValue::String(name) => Ok(key == name.as_str()),
        _ => Ok(false),
    }
}
