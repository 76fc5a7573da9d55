//! The schema of a list to which a value comes nearest, and what the value lacks of it.
ghost use Rattle.std.specs.Prelude.{◌≡◌, ◌⊎◌, ◌++◌, option_map, IfOk, string_bytes};
ghost use Rattle.std.specs.Str.{chars};
ghost use Rattle.tinyjson.specs.View.{view, items_view};
ghost use Rattle.tinyjson_view.specs.Views.{tree_of, members_of};
ghost use Rattle.tinyjson_pointer.specs.Tokens.{tokens_of};
ghost use Rattle.tinyjson_schema_report.specs.Nearest.{brief_place, gap, gap_at, gap_of, gap_words, further};
ghost use Rattle.tinyjson_schema_report.specs.Nearest.{is_choice, led, member_gap, nearest};
ghost use Rattle.tinyjson_schema_report.specs.Nearest.{nearest_words, own_gap, place_words, property};
ghost use Rattle.tinyjson_schema_report.specs.Nearest.{tag_gap, unmet_at, unmet_words, within};

use crate::brief::brief;
use crate::keyword::keyword_words;
use std::alloc::{AllocError, Global};
use tinyjson::JsonValue;
use tinyjson_pointer::Pointer;
use tinyjson_schema_assertions::accepts;
use tinyjson_schema_keywords::{
    CheckError, Keyword, Walk, items_in, operand, referenced, schema_at,
};
use tinyjson_view::{MemberView, ValueView};

/// What a value lacks of a schema.
#[derive(Drop)]
pub struct Lack {
    /// How far the value comes in the schema.
    pub rank: usize,
    /// The place of the part that lacks it.
    pub place: Pointer,
    /// What the part lacks, in words.
    pub words: String,
}

/// The value is not of the kind that the schema is for.
const KIND: usize = 0;

/// A member shows that its object is not of that kind.
const TAG: usize = 1;

/// The value lacks something else.
const OWN: usize = 2;

/// A member lacks something else.
const PART: usize = 3;

/// How deep the members are that are looked at.
const DEPTH: usize = 8;

/// The assertions that show of which kind a value is.
const KINDS: [Keyword; 3] = [Keyword::Type, Keyword::Enum, Keyword::Const];

/// Those by which a member shows of which kind its object is.
const TAGS: [Keyword; 2] = [Keyword::Enum, Keyword::Const];

/// The other assertions.
const OTHERS: [Keyword; 15] = [
    Keyword::MultipleOf,
    Keyword::Maximum,
    Keyword::ExclusiveMaximum,
    Keyword::Minimum,
    Keyword::ExclusiveMinimum,
    Keyword::MaxLength,
    Keyword::MinLength,
    Keyword::Pattern,
    Keyword::MaxItems,
    Keyword::MinItems,
    Keyword::UniqueItems,
    Keyword::MaxProperties,
    Keyword::MinProperties,
    Keyword::Required,
    Keyword::DependentRequired,
];

/// The words, and what the value lacks of the nearest schema if the keyword has a list to choose from. Only the words if
/// that takes more steps than are left.
pub fn with_nearest(
    words: String,
    keyword: Keyword,
    list: &JsonValue,
    value: &ValueView<'_>,
    walk: Walk<'_, '_>,
) -> Result<String, AllocError>
    ensures { IfOk result (λ s. (string_bytes s ≡ string_bytes words)
        ⊎ (string_bytes s ≡ string_bytes words ++ nearest_words (view walk.entry.whole.now.root.now)
        keyword (view list.now) (tree_of value.now))) }
{
    if !is_choice(keyword) {
        return Ok(words);
    }
    let walk = Walk {
        whole: walk.whole,
        steps: DEPTH,
        alloc: walk.alloc,
    };
    match nearest(items_in(list), value, walk) {
        Ok(Some(lack)) => lack_words(words, &lack, walk.alloc),
        Ok(None) => Ok(words),
        Err(CheckError::OutOfMemory) => Err(AllocError),
        Err(_) => Ok(words),
    }
}

/// Whether one of the keyword's schemas has to accept the value.
fn is_choice(keyword: Keyword) -> bool
    ensures { result ≡ is_choice keyword }
{
    matches!(keyword, Keyword::AnyOf | Keyword::OneOf)
}

/// The words, and what the value lacks of the nearest schema.
fn lack_words(words: String, lack: &Lack, alloc: Global) -> Result<String, AllocError>
    ensures { IfOk result
        (λ s. string_bytes s ≡ string_bytes words ++ gap_words (gap_of lack.now)) }
{
    let at = place_words(&lack.place, alloc)?;
    format!(in alloc; "{words}; nearest: {at}{}", lack.words.as_str())
}

/// The text of a place, cut, with a space behind it; nothing for the whole value.
fn place_words(place: &Pointer, alloc: Global) -> Result<String, AllocError>
    ensures { IfOk result (λ s. string_bytes s ≡ place_words (tokens_of place.now)) }
{
    if place.depth() == 0 {
        return Ok(String::new(alloc));
    }
    let text = brief_place(place, alloc)?;
    format!(in alloc; "{text} ")
}

/// The text of a place, cut.
fn brief_place(place: &Pointer, alloc: Global) -> Result<String, AllocError>
    ensures { IfOk result (λ s. string_bytes s ≡ brief_place (tokens_of place.now)) }
{
    let text = place.to_string(alloc)?;
    let own = JsonValue::String(text);
    brief(&own, alloc)
}

/// What the value lacks of the schema in which it comes furthest, or of the first such one. `None` if it is not seen to
/// lack something of each schema.
fn nearest(
    schemas: &[JsonValue],
    value: &ValueView<'_>,
    walk: Walk<'_, '_>,
) -> Result<Option<Lack>, CheckError>
    ensures { IfOk result (λ o. option_map gap_of o ≡ nearest
        (λ r. gap (view walk.entry.whole.now.root.now) walk.entry.steps r (tree_of value.now))
        (items_view schemas.now)) }
{
    let Some((first, more)) = schemas.split_first() else {
        return Ok(None);
    };
    let Some(mut best) = lack_in(first, value, walk)? else {
        return Ok(None);
    };
    for schema in more {
        let Some(next) = lack_in(schema, value, walk)? else {
            return Ok(None);
        };
        best = further(best, next);
    }
    Ok(Some(best))
}

/// The one of the schema in which the value comes further, or else the first.
fn further(best: Lack, next: Lack) -> Lack
    ensures { gap_of result ≡ further (gap_of best) (gap_of next) }
{
    if next.rank <= best.rank { best } else { next }
}

/// What the value, or a member down to the walk's steps, lacks of the schema.
#[cycle(lack)]
#[inline(never)]
fn lack_in(
    schema: &JsonValue,
    value: &ValueView<'_>,
    walk: Walk<'_, '_>,
) -> Result<Option<Lack>, CheckError>
    ensures { IfOk result (λ o. option_map gap_of o ≡ gap (view walk.entry.whole.now.root.now)
        walk.entry.steps (view schema.now) (tree_of value.now)) }
{
    let Some(steps) = walk.steps.checked_sub(1) else {
        return Ok(None);
    };
    walk.whole.budget.spend(1)?;
    let inner = Walk {
        whole: walk.whole,
        steps,
        alloc: walk.alloc,
    };
    let schema = led(schema, walk)?;
    if let Some(lack) = own_lack(KIND, &KINDS, schema, value, walk)? {
        return Ok(Some(lack));
    }
    let listed = value.members(walk.alloc)?;
    let members = listed.as_slice();
    if let Some(lack) = tag_lack(members, schema, walk)? {
        return Ok(Some(lack));
    }
    if let Some(lack) = own_lack(OWN, &OTHERS, schema, value, walk)? {
        return Ok(Some(lack));
    }
    part_lack(members, schema, inner)
}

/// What the first of the members lacks that lacks something of its schema.
#[cycle(lack)]
fn part_lack(
    members: &[MemberView<'_>],
    schema: &JsonValue,
    walk: Walk<'_, '_>,
) -> Result<Option<Lack>, CheckError>
    ensures { IfOk result (λ o. option_map gap_of o ≡ member_gap 3
        (gap (view walk.entry.whole.now.root.now) walk.entry.steps) (view schema.now)
        (members_of members.now)) }
{
    for member in members {
        if let Some(lack) = part_lack_at(member, schema, walk)? {
            return Ok(Some(lack));
        }
    }
    Ok(None)
}

/// What the member lacks of the schema that `properties` has for it.
#[cycle(lack)]
fn part_lack_at(
    member: &MemberView<'_>,
    schema: &JsonValue,
    walk: Walk<'_, '_>,
) -> Result<Option<Lack>, CheckError>
    ensures { IfOk result (λ o. option_map gap_of o ≡ gap_at 3
        (gap (view walk.entry.whole.now.root.now) walk.entry.steps) (view schema.now)
        (chars member.now.key.now) (tree_of member.now.value)) }
{
    let Some(part) = property(schema, member.key) else {
        return Ok(None);
    };
    let Some(lack) = lack_in(part, &member.value, walk)? else {
        return Ok(None);
    };
    let outer = within(PART, lack, member.key, walk.alloc)?;
    Ok(Some(outer))
}

/// What the first of the members lacks that shows another kind of object.
fn tag_lack(
    members: &[MemberView<'_>],
    schema: &JsonValue,
    walk: Walk<'_, '_>,
) -> Result<Option<Lack>, CheckError>
    ensures { IfOk result (λ o. option_map gap_of o ≡ member_gap 1
        (tag_gap (view walk.entry.whole.now.root.now)) (view schema.now) (members_of members.now)) }
{
    for member in members {
        if let Some(lack) = tag_lack_at(member, schema, walk)? {
            return Ok(Some(lack));
        }
    }
    Ok(None)
}

/// What the member lacks of `enum` and `const` of the schema that `properties` has for it. It takes a step.
fn tag_lack_at(
    member: &MemberView<'_>,
    schema: &JsonValue,
    walk: Walk<'_, '_>,
) -> Result<Option<Lack>, CheckError>
    ensures { IfOk result (λ o. option_map gap_of o ≡ gap_at 1
        (tag_gap (view walk.entry.whole.now.root.now)) (view schema.now)
        (chars member.now.key.now) (tree_of member.now.value)) }
{
    walk.whole.budget.spend(1)?;
    let Some(part) = property(schema, member.key) else {
        return Ok(None);
    };
    let part = led(part, walk)?;
    let Some(lack) = own_lack(TAG, &TAGS, part, &member.value, walk)? else {
        return Ok(None);
    };
    let outer = within(TAG, lack, member.key, walk.alloc)?;
    Ok(Some(outer))
}

/// What the object lacks whose member at the key lacks something.
fn within(rank: usize, lack: Lack, key: &str, alloc: Global) -> Result<Lack, AllocError>
    ensures { IfOk result (λ l. gap_of l ≡ within rank (chars key.now) (gap_of lack)) }
{
    let mut place = lack.place;
    place.prepend(String::from_str(alloc, key)?)?;
    Ok(Lack {
        rank,
        place,
        words: lack.words,
    })
}

/// The schema that `properties` has at a key.
fn property<'s>(schema: &'s JsonValue, key: &str) -> Option<&'s JsonValue>
    ensures { option_map (λ x. view x.now) result ≡ property (view schema.now) (chars key.now) }
{
    match schema_at(schema, Keyword::Properties) {
        Some(properties) => operand(properties, key),
        None => None,
    }
}

/// The schema to which `$ref` leads, or the schema itself.
fn led<'s>(schema: &'s JsonValue, walk: Walk<'_, 's>) -> Result<&'s JsonValue, AllocError>
    ensures { IfOk result
        (λ r. view r.now ≡ led (view walk.entry.whole.now.root.now) (view schema.now)) }
{
    match referenced(schema, Keyword::Ref, walk)? {
        Some(target) => Ok(target),
        None => Ok(schema),
    }
}

/// What the value itself lacks that does not meet one of the keywords.
fn own_lack(
    rank: usize,
    keywords: &[Keyword],
    schema: &JsonValue,
    value: &ValueView<'_>,
    walk: Walk<'_, '_>,
) -> Result<Option<Lack>, CheckError>
    ensures { IfOk result (λ o. option_map gap_of o
        ≡ own_gap rank keywords.now (view schema.now) (tree_of value.now)) }
{
    match unmet_words(keywords, schema, value, walk)? {
        Some(words) => Ok(Some(Lack {
            rank,
            place: Pointer::root(walk.alloc),
            words,
        })),
        None => Ok(None),
    }
}

/// What the value lacks that does not meet one of the keywords, in words.
fn unmet_words(
    keywords: &[Keyword],
    schema: &JsonValue,
    value: &ValueView<'_>,
    walk: Walk<'_, '_>,
) -> Result<Option<String>, CheckError>
    ensures { IfOk result (λ o. option_map string_bytes o
        ≡ unmet_words keywords.now (view schema.now) (tree_of value.now)) }
{
    for keyword in keywords {
        if let Some(words) = unmet_at(*keyword, schema, value, walk)? {
            return Ok(Some(words));
        }
    }
    Ok(None)
}

/// What the value lacks that does not meet the schema's keyword.
fn unmet_at(
    keyword: Keyword,
    schema: &JsonValue,
    value: &ValueView<'_>,
    walk: Walk<'_, '_>,
) -> Result<Option<String>, CheckError>
    ensures { IfOk result (λ o. option_map string_bytes o
        ≡ unmet_at keyword (view schema.now) (tree_of value.now)) }
{
    let Some(own) = schema_at(schema, keyword) else {
        return Ok(None);
    };
    let is_met = accepts(keyword, own, value, walk)?;
    if is_met {
        return Ok(None);
    }
    let words = keyword_words(keyword, own, value, walk.alloc)?;
    Ok(Some(words))
}
