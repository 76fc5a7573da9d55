//! Documents that are read in memory which others leave.
ghost use Rattle.std.specs.Prelude.{None, Some};
ghost use Rattle.std.specs.Str.{chars};
ghost use Rattle.tinyjson.specs.Events.{TellsText};
ghost use Rattle.tinyjson_document.specs.Document.{HasTree};

use std::alloc::Global;
use std::cell::RefCell;
use tinyjson::JsonParseError;
use tinyjson_document::{Document, DocumentReader};

/// Memory for documents of texts that are read one after another. A document takes the memory of the one that was
/// recycled last, so most take no new memory. What a document took is freed with the buffers, or with the document if
/// it is not recycled.
#[derive(Drop)]
pub struct Buffers {
    reader: RefCell<DocumentReader>,
    alloc: Global,
}

impl Buffers {
    /// Without memory yet.
    pub fn new(alloc: Global) -> Buffers {
        Buffers {
            reader: RefCell::new(DocumentReader::new(alloc)),
            alloc,
        }
    }

    /// Parses a text as `Document::read` does. The document keeps a copy of the text.
    ///
    /// ```
    /// let buffers = Buffers::new(alloc);
    /// let document = buffers.read(r#"{"name": "n"}"#)?;
    /// ```
    pub fn read(&self, text: &str) -> Result<Document, JsonParseError>
        ensures { TellsText HasTree None (chars text.now) result }
    {
        self.read_limited(None, text)
    }

    /// Parses a text with at most `limit` nested containers, as `Document::read_with_depth_limit` does.
    ///
    /// ```
    /// let buffers = Buffers::new(alloc);
    /// let result = buffers.read_with_depth_limit("[[1]]", 1);
    /// assert!(rt; result.is_err_and(|error| error.kind() == JsonParseErrorKind::TooDeep('[')));
    /// ```
    pub fn read_with_depth_limit(
        &self,
        text: &str,
        limit: usize,
    ) -> Result<Document, JsonParseError>
        ensures { TellsText HasTree (Some limit) (chars text.now) result }
    {
        self.read_limited(Some(limit), text)
    }

    /// Gives the memory of a document to the one that is read next.
    pub fn recycle(&self, document: Document) {
        if let Ok(mut reader) = self.reader.try_borrow_mut() {
            reader.reuse(document);
        }
    }

    /// Parses a text. There may be a limit on nested containers.
    fn read_limited(&self, limit: Option<usize>, text: &str) -> Result<Document, JsonParseError>
        ensures { TellsText HasTree limit (chars text.now) result }
    {
        match self.reader.try_borrow_mut() {
            Ok(mut reader) => reader.read(text, limit),
            Err(_) => DocumentReader::new(self.alloc).read(text, limit),
        }
    }
}
