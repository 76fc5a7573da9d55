//! Reads texts one after another into documents.
ghost use Rattle.std.specs.Prelude.{◌≡◌, []};
ghost use Rattle.std.specs.Str.{chars};
ghost use Rattle.tinyjson.specs.Events.{TellsEvents, TellsText, without_events};
ghost use Rattle.tinyjson_cells.specs.Texts.{source_bytes};
ghost use Rattle.tinyjson_document.specs.Document.{HasTree};
ghost use Rattle.tinyjson_document.specs.Holding.{Holds, HoldsOver, IsBuilt, IsTreeOver};

use crate::arena::{Arena, Built, Pending};
use crate::document::Document;
use std::alloc::{AllocError, Global};
use std::mem;
use tinyjson::{JsonParseError, ReadError, read_events, read_events_with_depth_limit};
use tinyjson_cells::store::Store;
use tinyjson_cells::texts::Source;

/// Parses texts one after the other, and keeps the memory of each for the next. It is for many small texts, as the
/// lines of a log. It keeps as much memory as the largest text took.
///
/// ```
/// let mut reader = DocumentReader::new(alloc);
/// let mut output = Vec::new(alloc);
/// for line in ["[1.0]", r#"{"b": 2, "a": 1}"#] {
///     let document = reader.read(line, None)?;
///     document.root().write_to(alloc, &mut output)?;
///     reader.reuse(document);
/// }
/// assert_eq!(rt; output.as_slice(), br#"[1]{"a":1,"b":2}"#.as_slice());
/// ```
#[derive(Drop)]
pub struct DocumentReader {
    alloc: Global,
    /// The text of the last document, if it was returned.
    text: String,
    store: Store<'static>,
    pending: Pending,
}

impl DocumentReader {
    /// A reader without memory yet.
    ///
    /// ```
    /// let mut reader = DocumentReader::new(alloc);
    /// ```
    pub fn new(alloc: Global) -> DocumentReader {
        DocumentReader {
            alloc,
            text: String::new(alloc),
            store: Store::new(alloc, Source::Lent("")),
            pending: Pending {
                open: Vec::new(alloc),
                keys: Vec::new(alloc),
                values: Vec::new(alloc),
                gathered: Vec::new(alloc),
                ranks: Vec::new(alloc),
                sorted: Vec::new(alloc),
            },
        }
    }

    /// Parses a text with at most `limit` nested containers, or any number for `None`. It returns what
    /// [`Document::read`] and [`Document::read_with_depth_limit`] return, whatever was parsed before. The document
    /// keeps a copy of the text.
    ///
    /// ```
    /// let mut reader = DocumentReader::new(alloc);
    /// assert!(rt; reader.read("[[1]]", Some(2)).is_ok());
    /// let result = reader.read("[[1]]", Some(1));
    /// assert!(rt; result.is_err_and(|error| error.kind() == JsonParseErrorKind::TooDeep('[')));
    /// ```
    pub fn read(&mut self, text: &str, limit: Option<usize>) -> Result<Document, JsonParseError>
        ensures { TellsText HasTree limit (chars text.now) result }
    {
        let copy = self.copy_of(text);
        match self.build(text, limit, copy.as_str()) {
            Ok(built) => Ok(Document::over(built, copy)),
            Err(error) => {
                self.text = copy;
                Err(error)
            }
        }
    }

    /// Returns the memory of a document to the reader.
    ///
    /// ```
    /// let mut reader = DocumentReader::new(alloc);
    /// let document = reader.read("[1.0]", None)?;
    /// reader.reuse(document);
    /// ```
    pub fn reuse(&mut self, document: Document) {
        let mut store = document.store;
        if let Source::Kept(text) = mem::replace(&mut store.texts.source, Source::Lent("")) {
            self.text = text;
        }
        self.store = store;
    }

    /// A copy of a text for a document to keep, or nothing where memory runs out.
    fn copy_of(&mut self, text: &str) -> String {
        let mut copy = mem::replace(&mut self.text, String::new(self.alloc));
        copy.clear();
        if copy.push_str(text).is_err() {
            copy.clear();
        }
        copy
    }

    /// What is built of a text over another, of which its strings, keys and short numbers may be ranges. There may be a
    /// limit on nested containers.
    fn build(
        &mut self,
        text: &str,
        limit: Option<usize>,
        source: &str,
    ) -> Result<Built, JsonParseError>
        ensures { TellsText (IsBuilt source.now) limit (chars text.now) result }
    {
        let arena = self.arena(source);
        match read_into(self.alloc, text, limit, arena) {
            Ok(arena) => {
                let (built, pending) = arena.built();
                self.pending = pending;
                Ok(built)
            }
            Err((error, arena)) => {
                self.take(arena);
                Err(JsonParseError::from(error))
            }
        }
    }

    /// An empty arena over a text, in this memory.
    fn arena<'t>(&mut self, text: &'t str) -> Arena<'t>
        ensures holds { Holds result [] }
        ensures text { source_bytes result.store.texts.source ≡ text.now }
    {
        let alloc = self.alloc;
        let mut store = mem::replace(&mut self.store, Store::new(alloc, Source::Lent("")));
        store.clear();
        let pending = &mut self.pending;
        Arena {
            store: store.with_source(Source::Lent(text)),
            open: emptied(alloc, &mut pending.open),
            keys: emptied(alloc, &mut pending.keys),
            values: emptied(alloc, &mut pending.values),
            gathered: emptied(alloc, &mut pending.gathered),
            // The next text has the same keys, if the texts are alike.
            ranks: mem::replace(&mut pending.ranks, Vec::new(alloc)),
            sorted: emptied(alloc, &mut pending.sorted),
            deepest: 0,
        }
    }

    /// Takes the memory of an arena.
    fn take(&mut self, arena: Arena<'_>) {
        self.store = arena.store.with_source(Source::Lent(""));
        self.pending = Pending {
            open: arena.open,
            keys: arena.keys,
            values: arena.values,
            gathered: arena.gathered,
            ranks: arena.ranks,
            sorted: arena.sorted,
        };
    }
}

/// What an arena holds of a text. There may be a limit on nested containers.
fn read_into<'t>(
    alloc: Global,
    text: &str,
    limit: Option<usize>,
    arena: Arena<'t>,
) -> Result<Arena<'t>, (ReadError<AllocError>, Arena<'t>)>
    requires { HoldsOver arena arena [] }
    ensures { TellsEvents (IsTreeOver arena.entry) limit (chars text.now) (without_events result) }
{
    match limit {
        None => read_events(alloc, text, arena),
        Some(limit) => read_events_with_depth_limit(alloc, text, limit, arena),
    }
}

/// The vector with its memory, and with nothing in it.
fn emptied<T: Drop>(alloc: Global, items: &mut Vec<T>) -> Vec<T>
    ensures { result.items ≡ [] }
{
    let mut taken = mem::replace(items, Vec::new(alloc));
    taken.clear();
    taken
}
