//! Scalars and empty containers, which are buffered in full, or not at all.
ghost use Rattle.std.specs.Prelude.{◌≡◌, ◌≤◌, ◌++◌, ◌∷◌, ℕ, List, Option, None, IsTrue, length};
ghost use Rattle.std.specs.Prelude.{take, drop, reverse};
ghost use Rattle.std.specs.Bool.{MatchBool};
ghost use Rattle.std.specs.Str.{chars, encode_utf8_all};
ghost use Rattle.tinyjson_grammar.specs.Characters.{name_separator};
ghost use Rattle.tinyjson_output.specs.Buffer.{buffered, Buffers};
ghost use Rattle.tinyjson.specs.private.Sorted.{sorted_view};
ghost use Rattle.tinyjson_grammar.specs.Text.{items_text, members_text, quoted, separator, text};
ghost use Rattle.tinyjson.specs.View.{view, items_view};

use super::sorted::{first_member, next_member};
use crate::value::{JsonValue, holds_others};
use tinyjson_output::{Buffer, quick_key, quick_number, quick_text, quick_word};

/// Appends the text of a scalar or an empty container to the buffer if it fits, and returns whether it did.
#[inline(always)]
pub(super) fn quick_value(buffer: &mut Buffer, value: &JsonValue) -> bool
    ensures { (w : Option (List ℕ)) (k : ℕ) → MatchBool result
        (buffered buffer.new ≡ buffered buffer.old ++ encode_utf8_all (text w k (view value.now)))
        (buffered buffer.new ≡ buffered buffer.old) }
{
    match value {
        JsonValue::Number(number) => quick_number(buffer, number),
        JsonValue::String(text) => quick_text(buffer, text.as_bytes()),
        JsonValue::Boolean(true) => quick_word(buffer, b"true"),
        JsonValue::Boolean(false) => quick_word(buffer, b"false"),
        JsonValue::Null => quick_word(buffer, b"null"),
        JsonValue::Array(items) => items.is_empty() && quick_word(buffer, b"[]"),
        JsonValue::Object(members) => members.is_empty() && quick_word(buffer, b"{}"),
    }
}

/// Buffers, in compact text, the scalars and empty containers at the front, as far as they fit. Returns the
/// items that are left, and whether none was before them.
#[inline(always)]
pub(super) fn quick_items<'a>(
    buffer: &mut Buffer,
    items: &'a [JsonValue],
    first: bool,
) -> (&'a [JsonValue], bool)
    ensures buffers { (k : ℕ) → Buffers (buffered buffer.old) (buffered buffer.new)
        (encode_utf8_all (items_text None k first (items_view items.now)))
        (encode_utf8_all (items_text None k result.1 (items_view result.0.now))) }
    ensures less { length result.0.now ≤ length items.now }
{
    let mut rest = items;
    let mut first = first;
    while let Some((item, others)) = rest.split_first() {
        if !quick_item(buffer, first, item) {
            return (rest, first);
        }
        rest = others;
        first = false;
    }
    (rest, first)
}

/// Appends a comma, but not before the first item, and the item to the buffer if they fit, and returns
/// whether it did.
#[inline(always)]
fn quick_item(buffer: &mut Buffer, first: bool, item: &JsonValue) -> bool
    ensures { (k : ℕ) → MatchBool result
        (buffered buffer.new ≡ buffered buffer.old
        ++ (separator first ++ encode_utf8_all (text None k (view item.now))))
        (buffered buffer.new ≡ buffered buffer.old) }
{
    if !buffer.fits(1) {
        return false;
    }
    let len = buffer.len();
    if !first {
        buffer.append(b",");
    }
    if quick_value(buffer, item) {
        return true;
    }
    buffer.truncate(len);
    false
}

/// Buffers, in compact text, the next members whose values are scalars or empty containers, as far as they
/// fit. With `flat` all values are known to be such. Returns how many are left, and whether none was before.
#[inline(always)]
pub(super) fn quick_members<'a>(
    buffer: &mut Buffer,
    gathered: &mut Vec<(&'a str, &'a JsonValue)>,
    count: usize,
    first: bool,
    flat: bool,
) -> (usize, bool)
    ensures buffers { (k : ℕ) → Buffers (buffered buffer.old) (buffered buffer.new)
        (encode_utf8_all (members_text None k first
        (sorted_view (take count (reverse gathered.old.items)))))
        (encode_utf8_all (members_text None k result.1
        (sorted_view (take result.0 (reverse gathered.new.items))))) }
    ensures others { drop result.0 (reverse gathered.new.items)
        ≡ drop count (reverse gathered.old.items) }
    ensures less { result.0 ≤ count }
{
    let mut left = count;
    let mut first = first;
    while let Some((key, value)) = first_member(gathered, left) {
        if !quick_member(buffer, true, first, flat, key, value) {
            return (left, first);
        }
        let _written = next_member(gathered, left);
        left -= 1;
        first = false;
    }
    (left, first)
}

/// Appends a member whose value is a scalar or an empty container to the buffer, with a comma before all but
/// the first, if it fits, and returns whether it did.
#[inline(always)]
pub(super) fn quick_member(
    buffer: &mut Buffer,
    compact: bool,
    first: bool,
    flat: bool,
    key: &str,
    value: &JsonValue,
) -> bool
    ensures { (k : ℕ) → MatchBool result
        (IsTrue compact × (buffered buffer.new ≡ buffered buffer.old ++ (separator first
        ++ encode_utf8_all (quoted (chars key.now)
        ++ (name_separator ∷ text None k (view value.now))))))
        (buffered buffer.new ≡ buffered buffer.old) }
{
    if !flat && holds_others(value) {
        return false;
    }
    let len = buffer.len();
    if !quick_key(buffer, compact, first, key) {
        return false;
    }
    if quick_value(buffer, value) {
        return true;
    }
    buffer.truncate(len);
    false
}
