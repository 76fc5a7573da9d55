//! The arena, and the events that build it.
ghost use Rattle.std.specs.Prelude.{◌≡◌, ◌++◌, [], encode_utf8_all};
ghost use Rattle.tinyjson.specs.Events.{literal_tree};
ghost use Rattle.tinyjson.specs.Indent.{indent_of};
ghost use Rattle.tinyjson.specs.Text.{text};
ghost use Rattle.tinyjson.specs.Tree.{Tree};
ghost use Rattle.tinyjson.specs.Written.{WritesPrefix};
ghost use Rattle.tinyjson_document.specs.Holding.{Holds, IsBuilt, IsTree};
ghost use Rattle.tinyjson_cells.specs.Cell.{Is};
ghost use Rattle.tinyjson_cells.specs.Texts.{source_bytes};
ghost use Rattle.tinyjson_cells.specs.declared.store.Store.{Store as Nodes};

use crate::walk::Root;
use std::alloc::{AllocError, Global};
use std::io::{self, ErrorKind, Write};
use tinyjson::{Events, JsonNumber};
use tinyjson_cells::sorting::pair;
use tinyjson_cells::store::{Cell, Member, Span, Store};
use tinyjson_cells::texts::Source;

/// Where the pending keys and values of an open container begin.
#[derive(Clone, Copy)]
pub(crate) struct Place {
    pub(crate) keys: usize,
    pub(crate) values: usize,
}

/// A tree that is built from a text's events. Keys and values are pending until their container is closed.
#[derive(Drop)]
pub struct Arena<'t> {
    pub(crate) store: Store<'t>,
    pub(crate) open: Vec<Place>,
    pub(crate) keys: Vec<Span>,
    pub(crate) values: Vec<Cell>,
    /// The members of the object that is being closed.
    pub(crate) gathered: Vec<Member>,
    /// The orders of the members of the last objects, and the members of the last one.
    pub(crate) ranks: Vec<u64>,
    pub(crate) sorted: Vec<Member>,
    /// The greatest number of containers that were open at once.
    pub(crate) deepest: usize,
}

/// What an arena has built, without the text that it was over.
#[derive(Drop)]
pub(crate) struct Built {
    pub(crate) store: Store<'static>,
    pub(crate) root: Cell,
    pub(crate) deepest: usize,
}

/// The vectors of an arena in which something waited.
#[derive(Drop)]
pub(crate) struct Pending {
    pub(crate) open: Vec<Place>,
    pub(crate) keys: Vec<Span>,
    pub(crate) values: Vec<Cell>,
    pub(crate) gathered: Vec<Member>,
    pub(crate) ranks: Vec<u64>,
    pub(crate) sorted: Vec<Member>,
}

impl<'t> Arena<'t> {
    /// An empty arena: it has no value, and no container is open.
    pub fn new(alloc: Global) -> Self
        ensures { Holds result [] }
    {
        Arena::over(alloc, "")
    }

    /// An empty arena for the events of a text. Strings and keys without escapes, and short numbers in normal form,
    /// are ranges of that text.
    pub fn over(alloc: Global, text: &'t str) -> Self
        ensures holds { Holds result [] }
        ensures text { source_bytes result.store.texts.source ≡ text.now }
    {
        let source = Source::Lent(text);
        Arena {
            store: Store::new(alloc, source),
            open: Vec::new(alloc),
            keys: Vec::new(alloc),
            values: Vec::new(alloc),
            gathered: Vec::new(alloc),
            ranks: Vec::new(alloc),
            sorted: Vec::new(alloc),
            deepest: 0,
        }
    }

    /// What it has built, without the text that was lent, and its other vectors.
    pub(crate) fn built(self) -> (Built, Pending)
        requires { (t : Tree) × IsTree self t }
        ensures { (t : Tree) → IsTree self.entry t →
            IsBuilt (source_bytes self.entry.store.texts.source) result.0 t }
    {
        let built = Built {
            root: self.values[0],
            store: self.store.with_source(Source::Lent("")),
            deepest: self.deepest,
        };
        let pending = Pending {
            open: self.open,
            keys: self.keys,
            values: self.values,
            gathered: self.gathered,
            ranks: self.ranks,
            sorted: self.sorted,
        };
        (built, pending)
    }

    /// Writes the tree's text in UTF-8, compact or with this indent, and the given bytes after it.
    pub fn write_to<'a, W: Write>(
        &'a self,
        alloc: Global,
        indent: Option<&'a str>,
        behind: &[u8],
        out: &mut W,
    ) -> io::Result<()>
        ensures { (t : Tree) → IsTree self.now t →
            WritesPrefix (W.contents out.old) (W.contents out.new)
            (encode_utf8_all (text (indent_of indent.entry) 0 t) ++ behind.now) result }
    {
        let Some(root) = self.values.first() else {
            return Err(io::Error::from(ErrorKind::InvalidData));
        };
        let root = Root {
            store: &self.store,
            cell: *root,
            most: self.deepest,
        };
        root.write_to(alloc, indent, behind, out)
    }
}

impl Events for Arena<'_> {
    type Error = AllocError;

    ghost use Rattle.tinyjson_document.specs.Holding.{HoldsOver, IsTreeOver};

    ghost holds = { HoldsOver };

    ghost is = { IsTreeOver };

    fn open_array(&mut self) -> Result<(), AllocError> {
        self.open.push(Place {
            keys: self.keys.len(),
            values: self.values.len(),
        })?;
        self.deepest = self.deepest.max(self.open.len());
        Ok(())
    }

    fn close_array(&mut self) -> Result<(), AllocError> {
        let Some(place) = self.open.pop() else {
            return Err(AllocError);
        };
        let span = self.store.take_items(&mut self.values, place.values)?;
        self.values.push(Cell::Array(span))?;
        Ok(())
    }

    fn open_object(&mut self) -> Result<(), AllocError> {
        self.open.push(Place {
            keys: self.keys.len(),
            values: self.values.len(),
        })?;
        self.deepest = self.deepest.max(self.open.len());
        Ok(())
    }

    /// The members are sorted by their keys. Of equal keys the last one is kept.
    fn close_object(&mut self) -> Result<(), AllocError> {
        let Some(place) = self.open.pop() else {
            return Err(AllocError);
        };
        let Some(keys) = self.keys.get(place.keys..) else {
            return Err(AllocError);
        };
        let Some(values) = self.values.get(place.values..) else {
            return Err(AllocError);
        };
        pair(&mut self.gathered, keys, values)?;
        let span = self
            .store
            .add_object(&mut self.gathered, &mut self.ranks, &mut self.sorted)?;
        self.keys.truncate(place.keys);
        self.values.truncate(place.values);
        self.values.push(Cell::Object(span))?;
        Ok(())
    }

    fn key(&mut self, key: &str) -> Result<(), AllocError> {
        let span = self.store.add_text(key)?;
        self.keys.push(span)?;
        Ok(())
    }

    fn key_before(&mut self, key: &str, end: usize) -> Result<(), AllocError> {
        let span = self.store.text_before(key, end)?;
        self.keys.push(span)?;
        Ok(())
    }

    fn string(&mut self, value: &str) -> Result<(), AllocError> {
        let span = self.store.add_text(value)?;
        self.values.push(Cell::String(span))?;
        Ok(())
    }

    fn string_before(&mut self, value: &str, end: usize) -> Result<(), AllocError> {
        let span = self.store.text_before(value, end)?;
        self.values.push(Cell::String(span))?;
        Ok(())
    }

    fn number(&mut self, value: JsonNumber) -> Result<(), AllocError> {
        self.number_before(value, 0)
    }

    fn number_before(&mut self, value: JsonNumber, end: usize) -> Result<(), AllocError> {
        let number = self.store.add_number(value, end)?;
        self.values.push(number)?;
        Ok(())
    }

    #[inline(always)]
    fn takes_texts(&self) -> bool {
        true
    }

    fn number_text(&mut self, text: &str, end: usize) -> Result<(), AllocError> {
        let number = self.store.short_before(text, end)?;
        self.values.push(number)?;
        Ok(())
    }

    fn literal(&mut self, value: Option<bool>) -> Result<(), AllocError> {
        self.values.push(literal_cell(value))?;
        Ok(())
    }
}

/// The node of a boolean, or of `null`.
fn literal_cell(literal: Option<bool>) -> Cell
    ensures { (s : Nodes) → Is s (literal_tree literal) result }
{
    match literal {
        None => Cell::Null,
        Some(boolean) => Cell::Boolean(boolean),
    }
}
