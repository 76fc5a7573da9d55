//! The document: a text that was parsed.
ghost use Rattle.tinyjson_document.specs.Known.{Known, Known_prop};

use crate::arena::{Arena, Built};
use crate::node::Node;
use std::alloc::{AllocError, Global};
use std::fmt;
use tinyjson::{JsonParseError, JsonValue, read_events, read_events_with_depth_limit};
use tinyjson_cells::store::{Cell, Store};
use tinyjson_cells::texts::Source;

/// A JSON text that was parsed once, to be read in place. It is immutable, and it is kept in a few vectors. The
/// members of an object are in the order of their keys.
///
/// ```
/// let document = Document::read(alloc, r#"{"name": "n", "tags": ["a", "b"]}"#)?;
/// let tags = document.root().member("tags").expect(&rt, "tags");
/// assert_eq!(rt; tags.len(), 2);
/// ```
#[derive(Drop)]
pub struct Document {
    pub(crate) store: Store<'static>,
    root: Cell,
    /// The depth: how many containers are nested at most.
    pub(crate) deepest: usize,
    ghost known: { Known store root } by { Known_prop store root },
}

impl Document {
    ghost use Rattle.std.specs.Prelude.{◌≡◌, IfOk, None, Some, string_bytes};
    ghost use Rattle.std.specs.Str.{chars};
    ghost use Rattle.tinyjson.specs.Events.{TellsText};
    ghost use Rattle.tinyjson.specs.View.{view};
    ghost use Rattle.tinyjson_grammar.specs.Soundness as sound;
    ghost use Rattle.tinyjson_grammar.specs.Tree.{Tree};
    ghost use Rattle.tinyjson_document.specs.Document.{document_tree, HasTree, tree};
    ghost use Rattle.tinyjson_document.specs.Holding.{IsBuilt, IsTree};

    /// Parses a text as `JsonValue::from_str` does: into the tree of the same value, or with the same error. Only
    /// memory may run out for one of the two alone.
    ///
    /// A document has up to 4,294,967,295 bytes of strings, keys and short numbers, and as many numbers, items and
    /// members. A text with more is refused as out of memory.
    ///
    /// ```
    /// let result = Document::read(alloc, "01");
    /// assert!(rt; result.is_err_and(|error| error.kind() == JsonParseErrorKind::LeadingZero));
    /// ```
    pub fn read(alloc: Global, text: &str) -> Result<Document, JsonParseError>
        ensures { TellsText HasTree None (chars text.now) result }
    {
        match read_events(alloc, text, Arena::new(alloc)) {
            Ok(arena) => Ok(Document::of_arena(arena)),
            Err((error, _)) => Err(JsonParseError::from(error)),
        }
    }

    /// Parses a text with at most `limit` nested containers, as `JsonValue::from_str_with_depth_limit` does.
    ///
    /// ```
    /// assert!(rt; Document::read_with_depth_limit(alloc, "[[1]]", 2).is_ok());
    /// let result = Document::read_with_depth_limit(alloc, "[[1]]", 1);
    /// assert!(rt; result.is_err_and(|error| error.kind() == JsonParseErrorKind::TooDeep('[')));
    /// ```
    pub fn read_with_depth_limit(
        alloc: Global,
        text: &str,
        limit: usize,
    ) -> Result<Document, JsonParseError>
        ensures { TellsText HasTree (Some limit) (chars text.now) result }
    {
        match read_events_with_depth_limit(alloc, text, limit, Arena::new(alloc)) {
            Ok(arena) => Ok(Document::of_arena(arena)),
            Err((error, _)) => Err(JsonParseError::from(error)),
        }
    }

    /// Parses a text, which it keeps: strings and keys without escapes, and short numbers in normal form, stay in
    /// its place. In all else it is [`Document::read`]. With the text a document has up to 4,294,967,295 bytes.
    ///
    /// ```
    /// let text = String::from_str(alloc, r#"["a", "b"]"#)?;
    /// let document = Document::of_text(alloc, text)?;
    /// ```
    pub fn of_text(alloc: Global, text: String) -> Result<Document, JsonParseError>
        ensures { TellsText HasTree None (chars (string_bytes text)) result }
    {
        let arena = Arena::over(alloc, text.as_str());
        let (built, _) = match read_events(alloc, text.as_str(), arena) {
            Ok(arena) => arena.built(),
            Err((error, _)) => return Err(JsonParseError::from(error)),
        };
        Ok(Document::over(built, text))
    }

    /// A document of its own for a value. Equal values have equal documents.
    ///
    /// The only error is out of memory, or that the value has more than a document may.
    ///
    /// ```
    /// let value = JsonValue::from_str(alloc, r#"{"b": 2, "a": [1.50]}"#)?;
    /// let document = Document::of_value(alloc, &value)?;
    /// assert!(rt; document.root().equals_value(&value));
    /// ```
    pub fn of_value(alloc: Global, value: &JsonValue) -> Result<Document, AllocError>
        ensures { IfOk result (λ d. document_tree d ≡ view value.now) }
    {
        let Ok(text) = value.stringify(alloc) else {
            return Err(AllocError);
        };
        match Document::read(alloc, text.as_str()) {
            Ok(document) => Ok(document),
            Err(_) => Err(AllocError),
        }
    }

    /// The document of what was built over this text.
    pub(crate) fn over(built: Built, text: String) -> Document
        requires { (t : Tree) × IsBuilt (string_bytes text) built t × ∥ sound.IsTree t ∥₁ }
        ensures { (t : Tree) → IsBuilt (string_bytes text) built t → HasTree result t }
    {
        Document {
            store: built.store.with_source(Source::Kept(text)),
            root: built.root,
            deepest: built.deepest,
        }
    }

    /// The root: the value of the whole text.
    ///
    /// ```
    /// let document = Document::read(alloc, "[1]")?;
    /// assert!(rt; document.root().is_array());
    /// ```
    pub fn root(&self) -> Node<'_>
        ensures { tree result ≡ document_tree self.now }
    {
        Node {
            document: self,
            cell: self.root,
        }
    }

    /// The document of what an arena has built: the tree of the events that it was given.
    ///
    /// ```
    /// let mut arena = Arena::new(alloc);
    /// replay(alloc, node, &mut arena)?;
    /// let copy = Document::of_arena(arena); // its root is equal to the node
    /// ```
    pub fn of_arena(arena: Arena<'static>) -> Document
        requires { (t : Tree) × IsTree arena t × ∥ sound.IsTree t ∥₁ }
        ensures { (t : Tree) → IsTree arena.entry t → HasTree result t }
    {
        let root = arena.values[0];
        Document {
            store: arena.store,
            root,
            deepest: arena.deepest,
        }
    }
}

/// It shows the type alone. [`Node::to_string`] gives the text.
impl fmt::Debug for Document {
    fn fmt<W: fmt::Write>(&self, f: &mut fmt::Formatter<W>) -> fmt::Result {
        f.write_str("Document")
    }
}
