//! Cells, which stand for values, and the vectors with their parts.
ghost use Rattle.std.specs.Prelude.{◌≡◌, ◌≤◌, ◌^◌, ◌⊎◌, ℕ, [], List, IfOk, OnOk, MatchResult, Some};
ghost use Rattle.std.specs.Prelude.{drop, length, option_map, take};
ghost use Rattle.std.specs.Str.{chars};
ghost use Rattle.tinyjson_cells.specs.Cell.{IsBytes, IsKeptAt, IsNumber, IsRun, IsShort, IsText, Grows};
ghost use Rattle.tinyjson_number.specs.Decimal.{Decimal};
ghost use Rattle.tinyjson_number.specs.Number.{Canonical};
ghost use Rattle.tinyjson_number.specs.Text.{decimal_text};
ghost use Rattle.tinyjson_cells.specs.declared.store.Member.{Member};
ghost use Rattle.tinyjson_cells.specs.Order.{IsOrdered, lasts};
ghost use Rattle.tinyjson_cells.specs.Texts.{part, part_of, source_bytes};

use crate::ranking::keep_ordered;
use crate::sorting::rise;
use crate::texts::{Source, Texts};
use std::alloc::{AllocError, Global};
use std::mem;
use tinyjson_number::JsonNumber;

/// A range of indices: from `from` up to `to`, without `to`. Indices have 32 bits, so that a cell takes 12 bytes.
#[derive(Clone, Copy)]
pub struct Span {
    pub from: u32,
    pub to: u32,
}

impl Span {
    /// The range, if its ends fit.
    pub fn new(from: usize, to: usize) -> Result<Span, AllocError>
        ensures { MatchResult result (λ span. (span.from ≡ from) × (span.to ≡ to))
            (λ _. (2 ^ 32 ≤ from) ⊎ (2 ^ 32 ≤ to)) }
    {
        Ok(Span {
            from: place(from)?,
            to: place(to)?,
        })
    }
}

/// The index, if it fits: if it is less than 4,294,967,296.
fn place(index: usize) -> Result<u32, AllocError>
    ensures { MatchResult result (λ place. place ≡ index) (λ _. 2 ^ 32 ≤ index) }
{
    match u32::try_from(index) {
        Ok(place) => Ok(place),
        Err(_) => Err(AllocError),
    }
}

/// The elements in the range, as far as there are any.
pub fn part<T>(all: &[T], span: Span) -> &[T]
    ensures { result.now ≡ part all.now span }
{
    let to = (span.to as usize).min(all.len());
    let from = (span.from as usize).min(to);
    &all[from..to]
}

/// The text in the range, if its bytes are UTF-8.
pub fn text_at<'a>(texts: &'a Texts<'_>, span: Span) -> Option<&'a str>
    ensures { (cs : List ℕ) → IsBytes cs (part_of texts.now span) →
        option_map (λ s. chars s.now) result ≡ Some cs }
{
    texts.text(span)
}

/// A value. Its text, its number, its items or its members are in the store.
#[derive(Clone, Copy)]
pub enum Cell {
    Null,
    Boolean(bool),
    /// A number whose normal text is short: the range of that text.
    Short(Span),
    /// Another number, by its index among those that are kept.
    Kept(u32),
    String(Span),
    Array(Span),
    Object(Span),
}

/// A member of an object. Its key is a range of the texts.
#[derive(Clone, Copy)]
pub struct Member {
    pub key: Span,
    pub value: Cell,
}

/// The vectors that hold the parts of all values. A cell keeps its meaning while they grow.
#[derive(Drop)]
pub struct Store<'t> {
    /// The characters of strings, keys and short numbers.
    pub texts: Texts<'t>,
    /// The numbers whose texts are not short.
    pub kept: Vec<JsonNumber>,
    pub items: Vec<Cell>,
    pub members: Vec<Member>,
    pub alloc: Global,
}

impl<'t> Store<'t> {
    /// An empty store, over the text that is read.
    pub fn new(alloc: Global, source: Source<'t>) -> Self
        ensures { source_bytes result.texts.source ≡ source_bytes source.entry }
    {
        Store {
            texts: Texts::new(alloc, source),
            kept: Vec::new(alloc),
            items: Vec::new(alloc),
            members: Vec::new(alloc),
            alloc,
        }
    }

    /// Forgets all cells and texts but the source. It keeps their memory.
    pub fn clear(&mut self)
        ensures added { self.new.texts.added.items ≡ [] }
        ensures kept { self.new.kept.items ≡ [] }
        ensures items { self.new.items.items ≡ [] }
        ensures members { self.new.members.items ≡ [] }
    {
        self.texts.clear();
        self.kept.clear();
        self.items.clear();
        self.members.clear();
    }

    /// The store over another text. A range of the former text is then that range of the new one.
    pub fn with_source<'s>(self, source: Source<'s>) -> Store<'s>
        ensures source { source_bytes result.texts.source ≡ source_bytes source.entry }
        ensures added { result.texts.added.items ≡ self.entry.texts.added.items }
        ensures kept { result.kept.items ≡ self.entry.kept.items }
        ensures items { result.items.items ≡ self.entry.items.items }
        ensures members { result.members.items ≡ self.entry.members.items }
    {
        let Store {
            texts,
            kept,
            items,
            members,
            alloc,
        } = self;
        let added = texts.added;
        Store {
            texts: Texts { source, added },
            kept,
            items,
            members,
            alloc,
        }
    }

    /// Appends the characters.
    pub fn add_text(&mut self, text: &str) -> Result<Span, AllocError>
        ensures text { IfOk result (IsText self.new (chars text.now)) }
        ensures grows { OnOk result (Grows self.old self.new) }
    {
        self.texts.add(text.as_bytes())
    }

    /// The characters, where the source has them one byte before `end`, or else appended.
    #[inline(always)]
    pub fn text_before(&mut self, text: &str, end: usize) -> Result<Span, AllocError>
        ensures text { IfOk result (IsText self.new (chars text.now)) }
        ensures grows { OnOk result (Grows self.old self.new) }
    {
        match self.texts.find(text.as_bytes(), end.saturating_sub(1)) {
            Some(span) => Ok(span),
            None => self.add_text(text),
        }
    }

    /// The text of a short number, where the source has it up to `end`, or else appended. Another number is kept.
    pub fn add_number(&mut self, number: JsonNumber, end: usize) -> Result<Cell, AllocError>
        ensures number { IfOk result (IsNumber self.new number.decimal) }
        ensures grows { OnOk result (Grows self.old self.new) }
    {
        if let Some(span) = self.texts.add_number(&number, end)? {
            return Ok(Cell::Short(span));
        }
        let index = place(self.kept.len())?;
        self.kept.push(number)?;
        Ok(Cell::Kept(index))
    }

    /// A number by its text, which is short, where the source has it up to `end`, or else appended.
    #[inline(always)]
    pub fn short_before(&mut self, text: &str, end: usize) -> Result<Cell, AllocError>
        ensures number { (n : Canonical) → chars text.now ≡ decimal_text n.decimal →
            length (chars text.now) ≤ 24 → IfOk result (IsNumber self.new n.decimal) }
        ensures grows { OnOk result (Grows self.old self.new) }
    {
        Ok(Cell::Short(self.text_before(text, end.saturating_add(1))?))
    }

    /// The short number whose text is in the range.
    pub fn short_number(&self, span: Span) -> Option<JsonNumber>
        ensures { (d : Decimal) → IsShort self.now d span →
            option_map (λ n. n.decimal) result ≡ Some d }
    {
        let text = self.texts.text(span)?;
        match JsonNumber::from_text(self.alloc, text) {
            Ok(number) => Some(number),
            Err(_) => None,
        }
    }

    /// The number that is kept at the index.
    pub fn kept_number(&self, index: u32) -> Option<&JsonNumber>
        ensures { (d : Decimal) → IsKeptAt self.now d index →
            option_map (λ n. n.now.decimal) result ≡ Some d }
    {
        self.kept.get(index as usize)
    }

    /// Appends the items of an array.
    pub fn add_items(&mut self, items: &[Cell]) -> Result<Span, AllocError>
        ensures items { IfOk result (λ span. IsRun self.new.items.items span items.now) }
        ensures grows { OnOk result (Grows self.old self.new) }
    {
        let from = self.items.len();
        self.items.extend_from_slice(items)?;
        Span::new(from, self.items.len())
    }

    /// Moves the last of the pending values here, as the items of an array. The very first items are moved without
    /// a copy.
    pub fn take_items(&mut self, values: &mut Vec<Cell>, from: usize) -> Result<Span, AllocError>
        ensures items { IfOk result (λ span.
            IsRun self.new.items.items span (drop from values.old.items)) }
        ensures rest { OnOk result (values.new.items ≡ take from values.old.items) }
        ensures grows { OnOk result (Grows self.old self.new) }
    {
        if from == 0 && self.items.is_empty() {
            return self.swap_items(values);
        }
        let Some(items) = values.get(from..) else {
            return Err(AllocError);
        };
        let span = self.add_items(items)?;
        values.truncate(from);
        Ok(span)
    }

    /// Takes all pending values as items, where there are none yet.
    fn swap_items(&mut self, values: &mut Vec<Cell>) -> Result<Span, AllocError>
        requires none { self.old.items.items ≡ [] }
        ensures items { IfOk result (λ span. IsRun self.new.items.items span values.old.items) }
        ensures rest { OnOk result (values.new.items ≡ []) }
        ensures grows { OnOk result (Grows self.old self.new) }
    {
        mem::swap(&mut self.items, values);
        Span::new(0, self.items.len())
    }

    /// Appends the members of an object in the order of their keys; of those with equal keys, only the last. The
    /// ranks have the orders of objects before ([`keep_ordered`]).
    pub fn add_object(
        &mut self,
        members: &mut Vec<Member>,
        ranks: &mut Vec<u64>,
        kept: &mut Vec<Member>,
    ) -> Result<Span, AllocError>
        ensures members { IfOk result (λ span. (ns : List Member)
            × IsOrdered self.old.texts members.old.items ns
            × IsRun self.new.members.items span (lasts self.old.texts ns)) }
        ensures grows { OnOk result (Grows self.old self.new) }
    {
        if rise(&self.texts, members) {
            return self.add_members(members);
        }
        keep_ordered(&self.texts, members, ranks, kept)?;
        self.add_members(kept)
    }

    /// Appends members as they are.
    fn add_members(&mut self, members: &[Member]) -> Result<Span, AllocError>
        ensures members { IfOk result (λ span.
            IsRun self.new.members.items span members.now) }
        ensures grows { OnOk result (Grows self.old self.new) }
    {
        let from = self.members.len();
        self.members.extend_from_slice(members)?;
        Span::new(from, self.members.len())
    }
}
