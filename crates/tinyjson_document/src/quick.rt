//! Items and members that are scalars or empty containers, which are buffered in full, or not at all.
ghost use Rattle.std.specs.Prelude.{◌≡◌, ◌++◌, ◌∷◌, ℕ, List, Option, false};
ghost use Rattle.std.specs.Bool.{MatchBool};
ghost use Rattle.std.specs.Str.{encode_utf8_all};
ghost use Rattle.tinyjson.specs.Indent.{indent_of};
ghost use Rattle.tinyjson_grammar.specs.Characters.{name_separator};
ghost use Rattle.tinyjson_grammar.specs.Text.{after_colon, before, quoted, text};
ghost use Rattle.tinyjson_grammar.specs.Tree.{Tree};
ghost use Rattle.tinyjson_output.specs.Buffer.{buffered};
ghost use Rattle.tinyjson_number.specs.Decimal.{Decimal};
ghost use Rattle.tinyjson_number.specs.Text.{decimal_text};
ghost use Rattle.tinyjson_cells.specs.Cell.{Is, IsBytes, IsKeptAt};
ghost use Rattle.tinyjson_document.specs.Walking.{holds_others};
ghost use Rattle.tinyjson_cells.specs.Texts.{part_of};

use crate::layout::quick_line;
use tinyjson_cells::store::{Cell, Member, Store};
use tinyjson_output::{Buffer, quick_number, quick_text, quick_word};

/// Where an item or a member begins: the indent, its level, and whether it is the first one of its container.
#[derive(Clone, Copy, Drop)]
pub(crate) struct Line<'a> {
    pub(crate) indent: Option<&'a str>,
    pub(crate) level: usize,
    pub(crate) first: bool,
}

/// Appends a scalar or an empty container to the buffer if it fits, and returns whether it did.
#[inline(always)]
fn quick_leaf(buffer: &mut Buffer, store: &Store<'_>, node: Cell) -> bool
    ensures { (w : Option (List ℕ)) (k : ℕ) (t : Tree) → holds_others node ≡ false
        → Is store.now t node → MatchBool result
        (buffered buffer.new ≡ buffered buffer.old ++ encode_utf8_all (text w k t))
        (buffered buffer.new ≡ buffered buffer.old) }
{
    match node {
        Cell::Null => quick_word(buffer, b"null"),
        Cell::Boolean(true) => quick_word(buffer, b"true"),
        Cell::Boolean(false) => quick_word(buffer, b"false"),
        Cell::Short(span) => quick_word(buffer, store.texts.part(span)),
        Cell::Kept(index) => quick_kept(buffer, store, index),
        Cell::String(span) => quick_text(buffer, store.texts.part(span)),
        Cell::Array(_) => quick_word(buffer, b"[]"),
        Cell::Object(_) => quick_word(buffer, b"{}"),
    }
}

/// Appends the text of a kept number to the buffer if it fits, and returns whether it did.
#[inline(always)]
fn quick_kept(buffer: &mut Buffer, store: &Store<'_>, index: u32) -> bool
    ensures { (d : Decimal) → IsKeptAt store.now d index → MatchBool result
        (buffered buffer.new ≡ buffered buffer.old ++ decimal_text d)
        (buffered buffer.new ≡ buffered buffer.old) }
{
    match store.kept.get(index as usize) {
        Some(number) => quick_number(buffer, number),
        None => false,
    }
}

/// Appends an item and what precedes it to the buffer if they fit, and returns whether it did.
#[inline(always)]
pub(crate) fn quick_item(buffer: &mut Buffer, store: &Store<'_>, line: Line<'_>, node: Cell) -> bool
    ensures { (t : Tree) → holds_others node ≡ false → Is store.now t node → MatchBool result
        (buffered buffer.new ≡ buffered buffer.old
        ++ (encode_utf8_all (before (indent_of line.entry.indent) line.entry.level line.entry.first)
        ++ encode_utf8_all (text (indent_of line.entry.indent) line.entry.level t)))
        (buffered buffer.new ≡ buffered buffer.old) }
{
    let len = buffer.len();
    if !quick_line(buffer, line.indent, line.level, line.first) {
        return false;
    }
    if quick_leaf(buffer, store, node) {
        return true;
    }
    buffer.truncate(len);
    false
}

/// Appends a key and the colon to the buffer if they fit and nothing of the key needs an escape, and returns whether
/// it did.
#[inline(always)]
fn quick_name(buffer: &mut Buffer, indent: Option<&str>, key: &[u8]) -> bool
    ensures { (cs : List ℕ) → IsBytes cs key.now → MatchBool result
        (buffered buffer.new ≡ buffered buffer.old
        ++ encode_utf8_all (quoted cs ++ (name_separator ∷ after_colon (indent_of indent.entry))))
        (buffered buffer.new ≡ buffered buffer.old) }
{
    let len = buffer.len();
    if !quick_text(buffer, key) {
        return false;
    }
    if quick_word(buffer, colon(indent)) {
        return true;
    }
    buffer.truncate(len);
    false
}

/// The colon after a key.
#[inline(always)]
fn colon(indent: Option<&str>) -> &'static [u8]
    ensures { result.now
        ≡ encode_utf8_all (name_separator ∷ after_colon (indent_of indent.entry)) }
{
    match indent {
        None => b":",
        Some(_) => b": ",
    }
}

/// Appends what precedes a member, its key and the colon to the buffer if they fit, and returns whether it did.
#[inline(always)]
pub(crate) fn quick_key(buffer: &mut Buffer, line: Line<'_>, key: &[u8]) -> bool
    ensures { (cs : List ℕ) → IsBytes cs key.now → MatchBool result
        (buffered buffer.new ≡ buffered buffer.old
        ++ (encode_utf8_all (before (indent_of line.entry.indent) line.entry.level line.entry.first)
        ++ encode_utf8_all (quoted cs
        ++ (name_separator ∷ after_colon (indent_of line.entry.indent)))))
        (buffered buffer.new ≡ buffered buffer.old) }
{
    let len = buffer.len();
    if !quick_line(buffer, line.indent, line.level, line.first) {
        return false;
    }
    if quick_name(buffer, line.indent, key) {
        return true;
    }
    buffer.truncate(len);
    false
}

/// Appends a member, and what precedes it, to the buffer if they fit, and returns whether it did.
#[inline(always)]
pub(crate) fn quick_member(
    buffer: &mut Buffer,
    store: &Store<'_>,
    line: Line<'_>,
    member: Member,
) -> bool
    ensures { (cs : List ℕ) (t : Tree) → holds_others member.value ≡ false
        → IsBytes cs (part_of store.now.texts member.key) → Is store.now t member.value
        → MatchBool result
        (buffered buffer.new ≡ buffered buffer.old
        ++ ((encode_utf8_all
        (before (indent_of line.entry.indent) line.entry.level line.entry.first)
        ++ encode_utf8_all (quoted cs
        ++ (name_separator ∷ after_colon (indent_of line.entry.indent))))
        ++ encode_utf8_all (text (indent_of line.entry.indent) line.entry.level t)))
        (buffered buffer.new ≡ buffered buffer.old) }
{
    let len = buffer.len();
    if !quick_key(buffer, line, store.texts.part(member.key)) {
        return false;
    }
    if quick_leaf(buffer, store, member.value) {
        return true;
    }
    buffer.truncate(len);
    false
}
