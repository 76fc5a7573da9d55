//! Builds compact text from a text's events, without a tree.
ghost use Rattle.std.specs.Prelude.{◌≡◌, ◌==◌, ◌++◌, ◌∷◌, [], ℕ, IfOk, List, false, OnOk, take};
ghost use Rattle.std.specs.Prelude.{encode_utf8_all};
ghost use Rattle.std.specs.Str.{chars};
ghost use Rattle.tinyjson_grammar.specs.Characters.{value_separator};
ghost use Rattle.tinyjson_grammar.specs.Text.{compact, quoted};
ghost use Rattle.tinyjson_grammar.specs.Tree.{Tree};
ghost use Rattle.tinyjson.specs.Characters.{line_feed};
ghost use Rattle.tinyjson.specs.Written.{WritesPrefix};
ghost use Rattle.tinyjson.specs.Events.{literal_tree};
ghost use Rattle.tinyjson_normal.specs.Compacting.{Holds, IsOf, all_placed, members_of, next_from};
ghost use Rattle.tinyjson_normal.specs.Compacting.{placed, value_bytes};
ghost use Rattle.tinyjson_cells.specs.Order.{IsOrdered, lasts};
ghost use Rattle.tinyjson_cells.specs.declared.store.Member.{Member as Pair};
ghost use Rattle.tinyjson_number.specs.Text.{decimal_text};
ghost use Rattle.tinyjson_output.specs.Buffer.{buffered};

use crate::normal::write_with_line_feed;
use std::alloc::{AllocError, Global};
use std::io::{self, Write};
use tinyjson::{Events, JsonNumber};
use tinyjson_bytes::plain_end;
use tinyjson_cells::append::{ROOM, append, append_number, append_quoted};
use tinyjson_cells::ranking::keep_ordered;
use tinyjson_cells::sorting::rise;
use tinyjson_cells::store::{Cell, Member, Span, Store, part};
use tinyjson_cells::texts::Source;
use tinyjson_document::{Node, NodeEvents, replay};
use tinyjson_output::{Buffer, flush, quote, write_number};

/// Where an open container begins: its contents in the text, and its members in the list of all.
#[derive(Clone, Copy)]
pub(crate) struct Start {
    pub(crate) inside: usize,
    pub(crate) members: usize,
}

/// A member of an open object: its key, and where it begins in the text.
#[derive(Clone, Copy)]
pub(crate) struct Begun {
    pub(crate) key: Span,
    pub(crate) from: usize,
}

/// Compact text, as far as events came, with a comma after each complete value. The members of an object are put in
/// order when it is closed. A new one accepts only members that come in order; others are out of memory.
///
/// ```
/// let document = Document::read(alloc, r#"{"a": [2.50]}"#)?;
/// let mut text = Compact::new(alloc);
/// replay(alloc, document.root(), &mut text)?;
/// ```
#[derive(Drop)]
pub struct Compact {
    /// The characters of keys.
    store: Store<'static>,
    pub(crate) text: Vec<u8>,
    opened: Vec<Start>,
    begun: Vec<Begun>,
    /// For the object that is being closed: its members, their ranks, those that are kept, and their
    /// texts.
    members: Vec<Member>,
    ranks: Vec<u64>,
    kept: Vec<Member>,
    moved: Vec<u8>,
    /// For strings and numbers that are written in pieces; made for the first one.
    buffer: Option<Box<Buffer>>,
    /// How many bytes may still be moved.
    left: usize,
}

impl Compact {
    /// Text of nothing yet.
    ///
    /// ```
    /// let mut text = Compact::new(alloc);
    /// ```
    pub fn new(alloc: Global) -> Self
        ensures { Holds result [] }
    {
        Compact {
            store: Store::new(alloc, Source::Lent("")),
            text: Vec::new(alloc),
            opened: Vec::new(alloc),
            begun: Vec::new(alloc),
            members: Vec::new(alloc),
            ranks: Vec::new(alloc),
            kept: Vec::new(alloc),
            moved: Vec::new(alloc),
            buffer: None,
            left: 0,
        }
    }

    /// Writes the compact text of the value that was passed to it, and a line feed. It calls the writer once, if the
    /// writer accepts all.
    ///
    /// ```
    /// let document = Document::read(alloc, r#"{"a": [2.50]}"#)?;
    /// let mut text = Compact::new(alloc);
    /// replay(alloc, document.root(), &mut text)?;
    /// let mut output = Vec::new(alloc);
    /// text.write_line_to(&mut output)?;
    /// assert_eq!(rt; output.as_slice(), b"{\"a\":[2.5]}\n".as_slice());
    /// ```
    pub fn write_line_to<W: Write>(&mut self, out: &mut W) -> io::Result<()>
        ensures { (t : Tree) → IsOf self.old t →
            WritesPrefix (W.contents out.old) (W.contents out.new)
            (encode_utf8_all (compact t) ++ line_feed ∷ []) result }
    {
        cut_comma(&mut self.text);
        write_with_line_feed(out, &mut self.text)
    }

    /// The compact text of the value that was passed to it.
    ///
    /// ```
    /// let document = Document::read(alloc, r#"{"a": [2.50]}"#)?;
    /// let mut text = Compact::new(alloc);
    /// replay(alloc, document.root(), &mut text)?;
    /// let bytes = text.into_bytes();
    /// assert_eq!(rt; bytes.as_slice(), b"{\"a\":[2.5]}".as_slice());
    /// ```
    pub fn into_bytes(self) -> Vec<u8>
        ensures { (t : Tree) → IsOf self t → result.items ≡ encode_utf8_all (compact t) }
    {
        let mut text = self.text;
        cut_comma(&mut text);
        text
    }

    /// Starts a new text, with room for `room` bytes if there is memory, and `left` bytes that may be
    /// moved. It keeps the memory of the text before, and the order of its last members.
    pub(crate) fn begin(&mut self, room: usize, left: usize)
        ensures { Holds self.new [] }
    {
        self.store.texts.clear();
        self.text.clear();
        self.opened.clear();
        self.begun.clear();
        let _ = self.text.reserve(room.saturating_add(ROOM));
        self.left = left;
    }

    /// Puts the members of the object that is being closed in order; of equal keys only the last is kept.
    /// Their texts begin at `inside`.
    fn order(&mut self, inside: usize) -> Result<(), AllocError>
        ensures text { self.old.text.items ≡ take inside self.old.text.items
            ++ all_placed self.old.text.items self.old.members.items →
            OnOk result ((ns : List Pair)
            × IsOrdered self.old.store.texts self.old.members.items ns
            × (self.new.text.items ≡ take inside self.old.text.items
            ++ all_placed self.old.text.items (lasts self.old.store.texts ns))) }
        ensures store { self.new.store ≡ self.old.store }
        ensures opened { self.new.opened ≡ self.old.opened }
        ensures begun { self.new.begun ≡ self.old.begun }
    {
        if rise(&self.store.texts, &self.members) {
            return Ok(());
        }
        let count = self.text.len().saturating_sub(inside);
        if count > self.left {
            return Err(AllocError);
        }
        self.left -= count;
        keep_ordered(
            &self.store.texts,
            &mut self.members,
            &mut self.ranks,
            &mut self.kept,
        )?;
        self.moved.clear();
        self.moved.reserve(count)?;
        copy_placed(&self.text, &mut self.moved, &self.kept)?;
        self.text.truncate(inside);
        self.text.extend_from_slice(&self.moved)?;
        Ok(())
    }
}

impl Events for Compact {
    type Error = AllocError;

    ghost use Rattle.tinyjson_normal.specs.Compacting.{Holds, IsOf};

    ghost holds = { λ _. Holds };

    ghost is = { λ _. IsOf };

    fn open_array(&mut self) -> Result<(), AllocError> {
        self.text.push(b'[')?;
        self.opened.push(Start {
            inside: self.text.len(),
            members: self.begun.len(),
        })?;
        Ok(())
    }

    fn close_array(&mut self) -> Result<(), AllocError> {
        let Some(_) = self.opened.pop() else {
            return Err(AllocError);
        };
        push_closing(&mut self.text, b']')
    }

    fn open_object(&mut self) -> Result<(), AllocError> {
        self.text.push(b'{')?;
        self.opened.push(Start {
            inside: self.text.len(),
            members: self.begun.len(),
        })?;
        Ok(())
    }

    fn close_object(&mut self) -> Result<(), AllocError> {
        let Some(start) = self.opened.pop() else {
            return Err(AllocError);
        };
        let Some(begun) = self.begun.get(start.members..) else {
            return Err(AllocError);
        };
        pair_begun(&mut self.members, begun, self.text.len())?;
        self.begun.truncate(start.members);
        self.order(start.inside)?;
        push_closing(&mut self.text, b'}')
    }

    fn key(&mut self, key: &str) -> Result<(), AllocError> {
        let from = self.text.len();
        let span = self.store.add_text(key)?;
        self.begun.push(Begun { key: span, from })?;
        push_quoted(&mut self.text, &mut self.buffer, key, b':')
    }

    fn string(&mut self, value: &str) -> Result<(), AllocError> {
        push_quoted(&mut self.text, &mut self.buffer, value, b',')
    }

    fn number(&mut self, value: JsonNumber) -> Result<(), AllocError> {
        push_number(&mut self.text, &mut self.buffer, &value)?;
        self.text.push(b',')?;
        Ok(())
    }

    fn literal(&mut self, value: Option<bool>) -> Result<(), AllocError> {
        self.text.extend_from_slice(literal_word(value))?;
        Ok(())
    }
}

/// A value that holds others is written as it is in a document, with no look at the order of its members.
impl NodeEvents for Compact {
    fn replay(&mut self, alloc: Global, node: Node<'_>) -> Result<(), AllocError> {
        if node.len() == 0 {
            return replay(alloc, node, self);
        }
        let Ok(()) = node.write_to(alloc, &mut self.text) else {
            return Err(AllocError);
        };
        self.text.push(b',')?;
        Ok(())
    }
}

/// Removes the comma at the end, if there is one.
fn cut_comma(bytes: &mut Vec<u8>)
    ensures { (xs : List ℕ) → bytes.old.items ≡ xs ++ value_separator ∷ [] →
        bytes.new.items ≡ xs }
{
    if let Some(b',') = bytes.last() {
        bytes.pop();
    }
}

/// The text of a boolean, or of `null`, and a comma.
fn literal_word(literal: Option<bool>) -> &'static [u8]
    ensures { result.now ≡ value_bytes (literal_tree literal) }
{
    match literal {
        None => b"null,",
        Some(true) => b"true,",
        Some(false) => b"false,",
    }
}

/// Appends a closing bracket and a comma. The bracket replaces the comma at the end, if there is one.
fn push_closing(text: &mut Vec<u8>, bracket: u8) -> Result<(), AllocError>
    ensures some { (xs : List ℕ) → text.old.items ≡ xs ++ value_separator ∷ [] →
        OnOk result (text.new.items ≡ xs ++ bracket ∷ value_separator ∷ []) }
    ensures none { (xs : List ℕ) (x : ℕ) → text.old.items ≡ xs ++ x ∷ [] →
        (x == value_separator) ≡ false →
        OnOk result (text.new.items ≡ xs ++ x ∷ bracket ∷ value_separator ∷ []) }
{
    if let Some(b',') = text.last() {
        text.pop();
    }
    text.push(bracket)?;
    text.push(b',')?;
    Ok(())
}

/// Appends the string in quotes, and a byte after it.
fn push_quoted(
    text: &mut Vec<u8>,
    buffer: &mut Option<Box<Buffer>>,
    value: &str,
    behind: u8,
) -> Result<(), AllocError>
    ensures { OnOk result (text.new.items ≡ text.old.items
        ++ (encode_utf8_all (quoted (chars value.now)) ++ behind ∷ [])) }
{
    let bytes = value.as_bytes();
    if plain_end(bytes, 0) < bytes.len() {
        push_escaped(text, buffer, value)?;
        text.push(behind)?;
        return Ok(());
    }
    append_quoted(text, bytes, behind)
}

/// Appends the string in quotes, with escapes.
#[inline(never)]
fn push_escaped(
    text: &mut Vec<u8>,
    buffer: &mut Option<Box<Buffer>>,
    value: &str,
) -> Result<(), AllocError>
    ensures { OnOk result (text.new.items
        ≡ text.old.items ++ encode_utf8_all (quoted (chars value.now))) }
{
    let mut pieces = empty_buffer(*text.allocator(), buffer)?;
    let Ok(()) = quote(text, &mut pieces, value) else {
        return Err(AllocError);
    };
    let Ok(()) = flush(text, &mut pieces) else {
        return Err(AllocError);
    };
    *buffer = Some(pieces);
    Ok(())
}

/// An empty buffer: the one that is kept, or else a new one.
fn empty_buffer(alloc: Global, kept: &mut Option<Box<Buffer>>) -> Result<Box<Buffer>, AllocError>
    ensures { IfOk result (λ b. buffered b.value ≡ []) }
{
    let mut pieces = match kept.take() {
        Some(pieces) => pieces,
        None => new_buffer(alloc)?,
    };
    pieces.truncate(0);
    Ok(pieces)
}

/// A new buffer. Not inlined, so that no room for it is cleared where one was kept.
#[cold]
#[inline(never)]
fn new_buffer(alloc: Global) -> Result<Box<Buffer>, AllocError> {
    Ok(Box::new(alloc, Buffer::new())?)
}

/// Appends the text of a number.
fn push_number(
    text: &mut Vec<u8>,
    buffer: &mut Option<Box<Buffer>>,
    number: &JsonNumber,
) -> Result<(), AllocError>
    ensures { OnOk result (text.new.items
        ≡ text.old.items ++ encode_utf8_all (decimal_text number.now.decimal)) }
{
    if append_number(text, number)? {
        return Ok(());
    }
    push_long(text, buffer, number)
}

#[inline(never)]
fn push_long(
    text: &mut Vec<u8>,
    buffer: &mut Option<Box<Buffer>>,
    number: &JsonNumber,
) -> Result<(), AllocError>
    ensures { OnOk result (text.new.items
        ≡ text.old.items ++ encode_utf8_all (decimal_text number.now.decimal)) }
{
    let mut pieces = empty_buffer(*text.allocator(), buffer)?;
    let Ok(()) = write_number(text, &mut pieces, number) else {
        return Err(AllocError);
    };
    let Ok(()) = flush(text, &mut pieces) else {
        return Err(AllocError);
    };
    *buffer = Some(pieces);
    Ok(())
}

/// Turns each started key into a `Member` with the range of its key and value in the text. The last one
/// ends at `end`.
fn pair_begun(members: &mut Vec<Member>, begun: &[Begun], end: usize) -> Result<(), AllocError>
    ensures { OnOk result (members.new.items ≡ members_of begun.now end) }
{
    members.clear();
    members.reserve(begun.len())?;
    let mut rest = begun;
    while let Some((first, others)) = rest.split_first() {
        let to = next_from(others, end);
        members.push(Member {
            key: first.key,
            value: Cell::String(Span::new(first.from, to)?),
        })?;
        rest = others;
    }
    Ok(())
}

/// Where the next member begins; `end` if there is none.
fn next_from(begun: &[Begun], end: usize) -> usize
    ensures { result ≡ next_from begun.now end }
{
    match begun.first() {
        Some(next) => next.from,
        None => end,
    }
}

/// Appends the texts of the members, one after the other.
fn copy_placed(text: &[u8], moved: &mut Vec<u8>, members: &[Member]) -> Result<(), AllocError>
    ensures { OnOk result (moved.new.items ≡ moved.old.items ++ all_placed text.now members.now) }
{
    let mut rest = members;
    while let Some((member, others)) = rest.split_first() {
        append(moved, placed(text, member.value))?;
        rest = others;
    }
    Ok(())
}

/// The text of a member.
fn placed(text: &[u8], value: Cell) -> &[u8]
    ensures { result.now ≡ placed text.now value }
{
    match value {
        Cell::String(span) => part(text, span),
        _ => b"",
    }
}
