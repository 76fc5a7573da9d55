//! Writes the text of a tree in an arena, without recursion: what is left of the open containers is on a stack.
ghost use Rattle.std.specs.Prelude.{◌≡◌, ◌≤◌, ◌<◌, ◌+◌, ◌-◌, ◌++◌, ◌∷◌, [], ℕ, List, suc, length};
ghost use Rattle.std.specs.Prelude.{reverse, false, IfOk, OnOk, MatchOption, IfSome, Option, cond};
ghost use Rattle.std.specs.Str.{encode_utf8_all};
ghost use Rattle.tinyjson_grammar.specs.Tree.{Tree};
ghost use Rattle.tinyjson.specs.Indent.{indent_of};
ghost use Rattle.tinyjson_grammar.specs.Text.{text, before, quoted, newline, after_colon};
ghost use Rattle.tinyjson_grammar.specs.Characters.{name_separator};
ghost use Rattle.tinyjson_document.specs.declared.walk.Rest.TheVariants.{Items, Members};
ghost use Rattle.tinyjson_number.specs.Decimal.{Decimal};
ghost use Rattle.tinyjson_number.specs.Text.{decimal_text};
ghost use Rattle.tinyjson_cells.specs.Cell.{Is, IsBytes, IsKeptAt};
ghost use Rattle.tinyjson_cells.specs.Texts.{part_of};
ghost use Rattle.tinyjson_cells.specs.declared.store.Store.{Store as Nodes};
ghost use Rattle.tinyjson_document.specs.Walking.{head, holds_others, IsRest, AreLeft, Advances, Passes, cost};
ghost use Rattle.tinyjson_document.specs.Walking.{rest_cost, left_cost};
ghost use Rattle.tinyjson_output.specs.Buffer.{buffered, Sends, SendsText};
ghost use Rattle.tinyjson_output.specs.Written.{WritesPrefix};

use crate::layout::separate;
use crate::quick::{Line, quick_item, quick_key, quick_member};
use std::alloc::{AllocError, Global};
use std::io::{self, ErrorKind, Write};
use tinyjson_cells::store::{Cell, Member, Span, Store, part};
use tinyjson_output::{Buffer, flush, quick_text, quote, write_bytes, write_colon, write_number};

/// What is left to write of an open container, before its closing bracket. `first` is true while nothing of it is
/// written.
#[derive(Clone, Copy, Drop)]
pub(crate) enum Rest<'a> {
    Items { rest: &'a [Cell], first: bool },
    Members { rest: &'a [Member], first: bool },
}

/// A walk that writes a tree, compact or with an indent. Its stack has room for `most` containers, the innermost
/// one last.
#[derive(Drop)]
pub(crate) struct Walk<'a> {
    pub(crate) store: &'a Store<'a>,
    pub(crate) indent: Option<&'a str>,
    pub(crate) most: usize,
    pub(crate) buffer: Buffer,
    pub(crate) stack: Vec<Rest<'a>>,
}

/// A value in a store, in which at most `most` containers are nested.
#[derive(Clone, Copy)]
pub(crate) struct Root<'a> {
    pub(crate) store: &'a Store<'a>,
    pub(crate) cell: Cell,
    pub(crate) most: usize,
}

impl<'a> Root<'a> {
    /// Writes the tree's text in UTF-8, compact or with this indent, and the given bytes after it. It flushes its
    /// own buffer at the end.
    pub(crate) fn write_to<W: Write>(
        &self,
        alloc: Global,
        indent: Option<&'a str>,
        behind: &[u8],
        out: &mut W,
    ) -> io::Result<()>
        ensures { (t : Tree) → Is self.now.store.now t self.now.cell →
            WritesPrefix (W.contents out.old) (W.contents out.new)
            (encode_utf8_all (text (indent_of indent.entry) 0 t) ++ behind.now) result }
    {
        let mut walk = Walk::new(alloc, self.store, indent, self.most);
        walk.begin(out, self.cell)?;
        walk.finish(out)?;
        write_bytes(out, &mut walk.buffer, behind)?;
        flush(out, &mut walk.buffer)
    }
}

impl<'a> Walk<'a> {
    pub(crate) fn new(
        alloc: Global,
        store: &'a Store<'a>,
        indent: Option<&'a str>,
        most: usize,
    ) -> Self
        ensures store { result.store ≡ store.entry }
        ensures indent { result.indent ≡ indent.entry }
        ensures stack { result.stack.items ≡ [] }
        ensures buffer { buffered result.buffer ≡ [] }
    {
        Walk {
            store,
            indent,
            most,
            buffer: Buffer::new(),
            stack: Vec::new(alloc),
        }
    }

    /// Writes a value, or its opening bracket, and opens what is left of it. A container that is empty is not opened.
    pub(crate) fn begin<W: Write>(&mut self, out: &mut W, node: Cell) -> io::Result<()>
        ensures sent { (t : Tree) (k : ℕ) (xs : List ℕ) → Is self.old.store.now t node
            → length self.old.stack.items ≡ k
            → AreLeft (indent_of self.old.indent) self.old.store.now
            (reverse self.old.stack.items) xs
            → Advances W.contents out.old out.new self.old self.new
            (text (indent_of self.old.indent) k t ++ xs) result }
        ensures less { OnOk result
            (left_cost self.old.store.now self.old.most (reverse self.new.stack.items)
            < cost self.old.store.now (self.old.most - length self.old.stack.items) node
            + left_cost self.old.store.now self.old.most (reverse self.old.stack.items)) }
        ensures store { self.new.store ≡ self.old.store }
        ensures most { self.new.most ≡ self.old.most }
        ensures indent { self.new.indent ≡ self.old.indent }
    {
        if !holds_others(node) {
            return write_leaf(out, &mut self.buffer, self.store, node);
        }
        self.open(out, node)
    }

    /// Writes a value, or its opening bracket, and opens what is left of it.
    #[inline(always)]
    fn open<W: Write>(&mut self, out: &mut W, node: Cell) -> io::Result<()>
        ensures sent { (t : Tree) (k : ℕ) (xs : List ℕ) → Is self.old.store.now t node
            → length self.old.stack.items ≡ k
            → AreLeft (indent_of self.old.indent) self.old.store.now
            (reverse self.old.stack.items) xs
            → Advances W.contents out.old out.new self.old self.new
            (text (indent_of self.old.indent) k t ++ xs) result }
        ensures less { OnOk result
            (left_cost self.old.store.now self.old.most (reverse self.new.stack.items)
            < cost self.old.store.now (self.old.most - length self.old.stack.items) node
            + left_cost self.old.store.now self.old.most (reverse self.old.stack.items)) }
        ensures store { self.new.store ≡ self.old.store }
        ensures most { self.new.most ≡ self.old.most }
        ensures indent { self.new.indent ≡ self.old.indent }
    {
        write_head(out, &mut self.buffer, self.store, node)?;
        match rest_of(self.store, node) {
            Some(rest) => Ok(push(&mut self.stack, self.most, rest)?),
            None => Ok(()),
        }
    }

    /// Writes all that is left.
    pub(crate) fn finish<W: Write>(&mut self, out: &mut W) -> io::Result<()>
        ensures { (xs : List ℕ) → AreLeft (indent_of self.old.indent) self.old.store.now
            (reverse self.old.stack.items) xs
            → SendsText W.contents out.old out.new self.old.buffer self.new.buffer xs result }
    {
        while let Some(rest) = self.stack.pop() {
            self.resume(out, rest)?;
        }
        Ok(())
    }

    /// Writes what comes next of what is left of a container: an item or a member, or how it begins, or the
    /// closing bracket.
    fn resume<W: Write>(&mut self, out: &mut W, rest: Rest<'a>) -> io::Result<()>
        ensures sent { (xs : List ℕ) → AreLeft (indent_of self.old.indent) self.old.store.now
            (rest.entry ∷ reverse self.old.stack.items) xs
            → Advances W.contents out.old out.new self.old self.new xs result }
        ensures less { OnOk result
            (left_cost self.old.store.now self.old.most (reverse self.new.stack.items)
            < left_cost self.old.store.now self.old.most
            (rest.entry ∷ reverse self.old.stack.items)) }
        ensures store { self.new.store ≡ self.old.store }
        ensures most { self.new.most ≡ self.old.most }
        ensures indent { self.new.indent ≡ self.old.indent }
    {
        let rest = self.pass(out, rest)?;
        match rest {
            Rest::Items { rest, first } => self.resume_items(out, rest, first),
            Rest::Members { rest, first } => self.resume_members(out, rest, first),
        }
    }

    /// Writes the items or members up to the first whose value is a container that is not empty, and returns what
    /// is left.
    fn pass<W: Write>(&mut self, out: &mut W, rest: Rest<'a>) -> io::Result<Rest<'a>>
        ensures sent { (xs : List ℕ) → AreLeft (indent_of self.old.indent) self.old.store.now
            (rest.entry ∷ reverse self.old.stack.items) xs
            → Passes W.contents out.old out.new self.old self.new xs result }
        ensures less { IfOk result (λ r. (f : ℕ) →
            rest_cost self.old.store.now f r ≤ rest_cost self.old.store.now f rest.entry) }
        ensures stack { self.new.stack.items ≡ self.old.stack.items }
        ensures store { self.new.store ≡ self.old.store }
        ensures most { self.new.most ≡ self.old.most }
        ensures indent { self.new.indent ≡ self.old.indent }
    {
        match rest {
            Rest::Items { rest, first } => self.pass_items(out, rest, first),
            Rest::Members { rest, first } => self.pass_members(out, rest, first),
        }
    }

    fn pass_items<W: Write>(
        &mut self,
        out: &mut W,
        items: &'a [Cell],
        first: bool,
    ) -> io::Result<Rest<'a>>
        ensures sent { (xs : List ℕ) → AreLeft (indent_of self.old.indent) self.old.store.now
            (Items items.entry first ∷ reverse self.old.stack.items) xs
            → Passes W.contents out.old out.new self.old self.new xs result }
        ensures less { IfOk result (λ r. (f : ℕ) → rest_cost self.old.store.now f r
            ≤ rest_cost self.old.store.now f (Items items.entry first)) }
        ensures stack { self.new.stack.items ≡ self.old.stack.items }
        ensures store { self.new.store ≡ self.old.store }
        ensures most { self.new.most ≡ self.old.most }
        ensures indent { self.new.indent ≡ self.old.indent }
    {
        let (store, indent, level) = (self.store, self.indent, self.stack.len());
        let mut rest = items;
        let mut first = first;
        while let Some((node, others)) = rest.split_first() {
            if holds_others(*node) {
                return Ok(Rest::Items { rest, first });
            }
            let line = Line {
                indent,
                level: level + 1,
                first,
            };
            if !quick_item(&mut self.buffer, store, line, *node) {
                separate(out, &mut self.buffer, indent, level + 1, first)?;
                write_leaf(out, &mut self.buffer, store, *node)?;
            }
            rest = others;
            first = false;
        }
        Ok(Rest::Items { rest, first })
    }

    fn pass_members<W: Write>(
        &mut self,
        out: &mut W,
        members: &'a [Member],
        first: bool,
    ) -> io::Result<Rest<'a>>
        ensures sent { (xs : List ℕ) → AreLeft (indent_of self.old.indent) self.old.store.now
            (Members members.entry first ∷ reverse self.old.stack.items) xs
            → Passes W.contents out.old out.new self.old self.new xs result }
        ensures less { IfOk result (λ r. (f : ℕ) → rest_cost self.old.store.now f r
            ≤ rest_cost self.old.store.now f (Members members.entry first)) }
        ensures stack { self.new.stack.items ≡ self.old.stack.items }
        ensures store { self.new.store ≡ self.old.store }
        ensures most { self.new.most ≡ self.old.most }
        ensures indent { self.new.indent ≡ self.old.indent }
    {
        let (store, indent, level) = (self.store, self.indent, self.stack.len());
        let mut rest = members;
        let mut first = first;
        while let Some((member, others)) = rest.split_first() {
            if holds_others(member.value) {
                return Ok(Rest::Members { rest, first });
            }
            let line = Line {
                indent,
                level: level + 1,
                first,
            };
            if !quick_member(&mut self.buffer, store, line, *member) {
                begin_member(out, &mut self.buffer, store, line, member.key)?;
                write_leaf(out, &mut self.buffer, store, member.value)?;
            }
            rest = others;
            first = false;
        }
        Ok(Rest::Members { rest, first })
    }

    fn resume_items<W: Write>(
        &mut self,
        out: &mut W,
        items: &'a [Cell],
        first: bool,
    ) -> io::Result<()>
        ensures sent { (xs : List ℕ) → AreLeft (indent_of self.old.indent) self.old.store.now
            (Items items.entry first ∷ reverse self.old.stack.items) xs
            → Advances W.contents out.old out.new self.old self.new xs result }
        ensures less { OnOk result
            (left_cost self.old.store.now self.old.most (reverse self.new.stack.items)
            < left_cost self.old.store.now self.old.most
            (Items items.entry first ∷ reverse self.old.stack.items)) }
        ensures store { self.new.store ≡ self.old.store }
        ensures most { self.new.most ≡ self.old.most }
        ensures indent { self.new.indent ≡ self.old.indent }
    {
        let level = self.stack.len();
        let Some((node, rest)) = items.split_first() else {
            return close(out, &mut self.buffer, self.indent, level, first, b"]");
        };
        separate(out, &mut self.buffer, self.indent, level + 1, first)?;
        push(
            &mut self.stack,
            self.most,
            Rest::Items { rest, first: false },
        )?;
        self.begin(out, *node)
    }

    fn resume_members<W: Write>(
        &mut self,
        out: &mut W,
        members: &'a [Member],
        first: bool,
    ) -> io::Result<()>
        ensures sent { (xs : List ℕ) → AreLeft (indent_of self.old.indent) self.old.store.now
            (Members members.entry first ∷ reverse self.old.stack.items) xs
            → Advances W.contents out.old out.new self.old self.new xs result }
        ensures less { OnOk result
            (left_cost self.old.store.now self.old.most (reverse self.new.stack.items)
            < left_cost self.old.store.now self.old.most
            (Members members.entry first ∷ reverse self.old.stack.items)) }
        ensures store { self.new.store ≡ self.old.store }
        ensures most { self.new.most ≡ self.old.most }
        ensures indent { self.new.indent ≡ self.old.indent }
    {
        let level = self.stack.len();
        let Some((member, rest)) = members.split_first() else {
            return close(out, &mut self.buffer, self.indent, level, first, b"}");
        };
        let line = Line {
            indent: self.indent,
            level: level + 1,
            first,
        };
        begin_member(out, &mut self.buffer, self.store, line, member.key)?;
        push(
            &mut self.stack,
            self.most,
            Rest::Members { rest, first: false },
        )?;
        self.begin(out, member.value)
    }
}

/// Whether a value is a container that is not empty.
fn holds_others(node: Cell) -> bool
    ensures { result ≡ holds_others node }
{
    match node {
        Cell::Array(span) | Cell::Object(span) => span.from != span.to,
        _ => false,
    }
}

/// Writes what precedes a member, its key and the colon.
#[inline(always)]
fn begin_member<W: Write>(
    out: &mut W,
    buffer: &mut Buffer,
    store: &Store<'_>,
    line: Line<'_>,
    key: Span,
) -> io::Result<()>
    ensures { (cs : List ℕ) → IsBytes cs (part_of store.now.texts key)
        → Sends W.contents out.old out.new buffer.old buffer.new
        (encode_utf8_all (before (indent_of line.entry.indent) line.entry.level line.entry.first)
        ++ encode_utf8_all (quoted cs
        ++ (name_separator ∷ after_colon (indent_of line.entry.indent))))
        result }
{
    let bytes = store.texts.part(key);
    if quick_key(buffer, line, bytes) {
        return Ok(());
    }
    separate(out, buffer, line.indent, line.level, line.first)?;
    write_text(out, buffer, bytes)?;
    write_colon(out, buffer, line.indent)
}

/// Writes a scalar, or an empty container.
#[inline(never)]
fn write_leaf<W: Write>(
    out: &mut W,
    buffer: &mut Buffer,
    store: &Store<'_>,
    node: Cell,
) -> io::Result<()>
    ensures { (w : Option (List ℕ)) (k : ℕ) (t : Tree) → holds_others node ≡ false
        → Is store.now t node
        → SendsText W.contents out.old out.new buffer.old buffer.new (text w k t) result }
{
    match node {
        Cell::Array(_) => write_bytes(out, buffer, b"[]"),
        Cell::Object(_) => write_bytes(out, buffer, b"{}"),
        _ => write_head(out, buffer, store, node),
    }
}

/// Puts what is left of a container on the stack, if there is room.
fn push<'a>(stack: &mut Vec<Rest<'a>>, most: usize, rest: Rest<'a>) -> Result<(), AllocError>
    ensures stack { OnOk result (stack.new.items ≡ stack.old.items ++ rest.entry ∷ []) }
    ensures room { OnOk result (length stack.new.items ≤ most) }
{
    if stack.len() >= most {
        return Err(AllocError);
    }
    stack.push(rest)?;
    Ok(())
}

/// What is left of a value after its opening bracket, if it has one.
fn rest_of<'a>(store: &'a Store<'a>, node: Cell) -> Option<Rest<'a>>
    ensures rest { (w : Option (List ℕ)) (t : Tree) (k : ℕ) → Is store.now t node →
        MatchOption result (text w k t ≡ head t) (λ r. (xs : List ℕ)
        × IsRest w k store.now r xs × (text w k t ≡ head t ++ xs)) }
    ensures less { (f : ℕ) → IfSome result
        (λ r. suc (rest_cost store.now f r) ≡ cost store.now (suc f) node) }
{
    match node {
        Cell::Array(span) => Some(Rest::Items {
            rest: part(&store.items, span),
            first: true,
        }),
        Cell::Object(span) => Some(Rest::Members {
            rest: part(&store.members, span),
            first: true,
        }),
        _ => None,
    }
}

/// Writes a scalar, an empty container, or an opening bracket.
#[inline(always)]
fn write_head<W: Write>(
    out: &mut W,
    buffer: &mut Buffer,
    store: &Store<'_>,
    node: Cell,
) -> io::Result<()>
    ensures { (t : Tree) → Is store.now t node
        → SendsText W.contents out.old out.new buffer.old buffer.new (head t) result }
{
    match node {
        Cell::Null => write_bytes(out, buffer, b"null"),
        Cell::Boolean(true) => write_bytes(out, buffer, b"true"),
        Cell::Boolean(false) => write_bytes(out, buffer, b"false"),
        Cell::Short(span) => write_bytes(out, buffer, store.texts.part(span)),
        Cell::Kept(index) => write_kept(out, buffer, store, index),
        Cell::String(span) => write_text(out, buffer, store.texts.part(span)),
        Cell::Array(_) => write_bytes(out, buffer, b"["),
        Cell::Object(_) => write_bytes(out, buffer, b"{"),
    }
}

/// Writes the text of a kept number.
#[inline(always)]
fn write_kept<W: Write>(
    out: &mut W,
    buffer: &mut Buffer,
    store: &Store<'_>,
    index: u32,
) -> io::Result<()>
    ensures { (d : Decimal) → IsKeptAt store.now d index
        → SendsText W.contents out.old out.new buffer.old buffer.new (decimal_text d) result }
{
    match store.kept.get(index as usize) {
        Some(number) => write_number(out, buffer, number),
        None => Err(io::Error::from(ErrorKind::InvalidData)),
    }
}

/// Writes characters between quotes.
#[inline(always)]
fn write_text<W: Write>(out: &mut W, buffer: &mut Buffer, bytes: &[u8]) -> io::Result<()>
    ensures { (cs : List ℕ) → IsBytes cs bytes.now
        → SendsText W.contents out.old out.new buffer.old buffer.new (quoted cs) result }
{
    if quick_text(buffer, bytes) {
        return Ok(());
    }
    match str::from_utf8(bytes) {
        Ok(text) => quote(out, buffer, text),
        Err(_) => Err(io::Error::from(ErrorKind::InvalidData)),
    }
}

/// Writes the closing bracket of a container at the level, in indented text on a line of its own unless the
/// container is empty.
fn close<W: Write>(
    out: &mut W,
    buffer: &mut Buffer,
    indent: Option<&str>,
    level: usize,
    is_empty: bool,
    bracket: &[u8],
) -> io::Result<()>
    ensures { Sends W.contents out.old out.new buffer.old buffer.new
        (encode_utf8_all (cond is_empty [] (newline (indent_of indent.entry) level))
        ++ bracket.now) result }
{
    if !is_empty {
        separate(out, buffer, indent, level, true)?;
    }
    write_bytes(out, buffer, bracket)
}
