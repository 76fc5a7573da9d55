//! A parsed text, ready to be written in normal form.
ghost use Rattle.std.specs.Prelude.{◌≡◌, ◌↔◌, ◌++◌, ◌∷◌, [], None};
ghost use Rattle.std.specs.Prelude.{Some, IfOk, IfSome, IsTrue, codes};
ghost use Rattle.std.specs.Prelude.{encode_utf8_all, string_bytes};
ghost use Rattle.std.specs.Str.{all_scalars, chars};
ghost use Rattle.tinyjson.specs.Characters.{line_feed};
ghost use Rattle.tinyjson.specs.Events.{TellsText};
ghost use Rattle.tinyjson.specs.Indent.{indent_of};
ghost use Rattle.tinyjson.specs.Text.{compact, indented, text};
ghost use Rattle.tinyjson.specs.Tree.{Tree};
ghost use Rattle.tinyjson.specs.Written.{WritesPrefix, WritesText};
ghost use Rattle.tinyjson_grammar.specs.Soundness.{IsTree};
ghost use Rattle.tinyjson_normal.specs.Normal.{HasTree, IsKept, IsNormal};

use crate::reader::NormalReader;
use std::alloc::{AllocError, Global};
use std::io::{self, ErrorKind, Write};
use std::str;
use tinyjson::{JsonGenerateError, JsonGenerateResult, JsonParseError, read_events};
use tinyjson_document::Arena;
use tinyjson_output::write_all;

/// The indent of [`NormalText::format`].
const INDENT: &str = "  ";

/// How the tree of a text is kept.
#[derive(Drop)]
pub(crate) enum Content {
    /// As its compact text.
    Text(Vec<u8>),
    /// As an arena. So large and nested are the objects whose members are out of order that their texts
    /// would be moved too often.
    Arena(Arena<'static>),
}

/// The tree of a parsed text, kept to be written in normal form. No value is built.
///
/// ```
/// let normal = NormalText::read(alloc, r#"{"bool": true, "arr": [1, null]}"#)?;
/// let text = normal.to_string(alloc)?;
/// assert_eq!(rt; text.as_str(), r#"{"arr":[1,null],"bool":true}"#);
/// ```
#[derive(Drop)]
pub struct NormalText {
    pub(crate) content: Content,
}

impl NormalText {
    /// Parses a text as `JsonValue::from_str` does: into the tree of the same value, or with the same
    /// error. Only memory may run out for one of the two alone.
    ///
    /// ```
    /// let result = NormalText::read(alloc, "01");
    /// assert!(rt; result.is_err_and(|error| error.kind() == JsonParseErrorKind::LeadingZero));
    /// ```
    pub fn read(alloc: Global, text: &str) -> Result<NormalText, JsonParseError>
        ensures { TellsText HasTree None (chars text.now) result }
    {
        NormalReader::new(alloc).read(text, None)
    }

    /// Parses a text with at most `limit` nested containers, as `JsonValue::from_str_with_depth_limit`
    /// does.
    ///
    /// ```
    /// assert!(rt; NormalText::read_with_depth_limit(alloc, "[[1]]", 2).is_ok());
    /// let result = NormalText::read_with_depth_limit(alloc, "[[1]]", 1);
    /// assert!(rt; result.is_err_and(|error| error.kind() == JsonParseErrorKind::TooDeep('[')));
    /// ```
    pub fn read_with_depth_limit(
        alloc: Global,
        text: &str,
        limit: usize,
    ) -> Result<NormalText, JsonParseError>
        ensures { TellsText HasTree (Some limit) (chars text.now) result }
    {
        NormalReader::new(alloc).read(text, Some(limit))
    }

    /// Writes the compact text in UTF-8: the bytes that `JsonValue::write_to` writes for the text's
    /// value. It does not flush.
    ///
    /// It stops at the first error: the writer's own, also an interruption; one of kind `WriteZero` if
    /// the writer accepts no byte; or one of kind `OutOfMemory` if there is no memory for the open
    /// containers. Then a prefix of the text is written.
    ///
    /// ```
    /// let mut bytes = Vec::new(alloc);
    /// NormalText::read(alloc, "[1.50e1, null]")?.write_to(alloc, &mut bytes)?;
    /// assert_eq!(rt; bytes.as_slice(), b"[15,null]".as_slice());
    /// ```
    pub fn write_to<W: Write>(&self, alloc: Global, out: &mut W) -> io::Result<()>
        ensures { (t : Tree) → HasTree self.now t →
            WritesText (W.contents out.old) (W.contents out.new) (compact t) result }
    {
        self.write(alloc, None, b"", out)
    }

    /// Writes what [`NormalText::write_to`] writes and a line feed. If the tree is kept as compact text,
    /// it calls the writer once, if the writer accepts all. The `NormalText` is unchanged afterwards.
    ///
    /// ```
    /// let mut bytes = Vec::new(alloc);
    /// NormalText::read(alloc, "[1.50e1, null]")?.write_line_to(alloc, &mut bytes)?;
    /// assert_eq!(rt; bytes.as_slice(), b"[15,null]\n".as_slice());
    /// ```
    pub fn write_line_to<W: Write>(&mut self, alloc: Global, out: &mut W) -> io::Result<()>
        ensures line { (t : Tree) → HasTree self.old t →
            WritesPrefix (W.contents out.old) (W.contents out.new)
            (encode_utf8_all (compact t) ++ line_feed ∷ []) result }
        ensures text { (t : Tree) → HasTree self.old t → HasTree self.new t }
    {
        if let Content::Text(bytes) = &mut self.content {
            return write_with_line_feed(out, bytes);
        }
        self.write(alloc, None, b"\n", out)
    }

    /// Writes the text indented with two spaces, in UTF-8: the bytes that `JsonValue::format_to` writes
    /// for the text's value. It does not flush. The errors are those of [`NormalText::write_to`].
    ///
    /// ```
    /// let mut bytes = Vec::new(alloc);
    /// NormalText::read(alloc, "[1.50e1, []]")?.format_to(alloc, &mut bytes)?;
    /// assert_eq!(rt; bytes.as_slice(), b"[\n  15,\n  []\n]".as_slice());
    /// ```
    pub fn format_to<W: Write>(&self, alloc: Global, out: &mut W) -> io::Result<()>
        ensures { (t : Tree) → HasTree self.now t →
            WritesText (W.contents out.old) (W.contents out.new)
            (indented t (codes "  ") 0) result }
    {
        self.write(alloc, Some(INDENT), b"", out)
    }

    /// Writes what [`NormalText::format_to`] writes and a line feed.
    ///
    /// ```
    /// let mut bytes = Vec::new(alloc);
    /// NormalText::read(alloc, "[1.50e1, []]")?.format_line_to(alloc, &mut bytes)?;
    /// assert_eq!(rt; bytes.as_slice(), b"[\n  15,\n  []\n]\n".as_slice());
    /// ```
    pub fn format_line_to<W: Write>(&self, alloc: Global, out: &mut W) -> io::Result<()>
        ensures { (t : Tree) → HasTree self.now t →
            WritesPrefix (W.contents out.old) (W.contents out.new)
            (encode_utf8_all (indented t (codes "  ") 0) ++ line_feed ∷ []) result }
    {
        self.write(alloc, Some(INDENT), b"\n", out)
    }

    /// The compact text in UTF-8: the bytes that [`NormalText::write_to`] writes. If the tree is kept as compact
    /// text, they are not copied. The only error is out of memory.
    ///
    /// ```
    /// let bytes = NormalText::read(alloc, "[1.50e1, null]")?.into_bytes(alloc)?;
    /// assert_eq!(rt; bytes.as_slice(), b"[15,null]".as_slice());
    /// ```
    pub fn into_bytes(self, alloc: Global) -> Result<Vec<u8>, AllocError>
        ensures { (t : Tree) → HasTree self t →
            IfOk result (λ v. v.items ≡ encode_utf8_all (compact t)) }
    {
        match self.content {
            Content::Text(bytes) => Ok(bytes),
            Content::Arena(arena) => arena_bytes(alloc, &arena),
        }
    }

    /// The compact text: what `JsonValue::stringify` returns for the text's value.
    ///
    /// ```
    /// let normal = NormalText::read(alloc, "[1.50e1, null]")?;
    /// assert_eq!(rt; normal.to_string(alloc)?.as_str(), "[15,null]");
    /// ```
    pub fn to_string(&self, alloc: Global) -> JsonGenerateResult
        ensures { (t : Tree) → HasTree self.now t →
            IfOk result (λ s. chars (string_bytes s) ≡ compact t) }
    {
        self.written(alloc, None)
    }

    /// The text indented with two spaces: what `JsonValue::format` returns for the text's value.
    ///
    /// ```
    /// let normal = NormalText::read(alloc, r#"{"b": {}, "a": null}"#)?;
    /// let text = normal.format(alloc)?;
    /// assert_eq!(rt; text.as_str(), "{\n  \"a\": null,\n  \"b\": {}\n}");
    /// ```
    pub fn format(&self, alloc: Global) -> JsonGenerateResult
        ensures { (t : Tree) → HasTree self.now t →
            IfOk result (λ s. chars (string_bytes s) ≡ indented t (codes "  ") 0) }
    {
        self.written(alloc, Some(INDENT))
    }

    /// Writes the text, compact or with this indent, and the given bytes after it.
    fn write<W: Write>(
        &self,
        alloc: Global,
        indent: Option<&str>,
        behind: &[u8],
        out: &mut W,
    ) -> io::Result<()>
        ensures { (t : Tree) → HasTree self.now t →
            WritesPrefix (W.contents out.old) (W.contents out.new)
            (encode_utf8_all (text (indent_of indent.entry) 0 t) ++ behind.now) result }
    {
        match (&self.content, indent) {
            (Content::Text(bytes), None) => write_both(out, bytes, behind),
            (Content::Text(bytes), Some(_)) => write_indented(alloc, indent, behind, bytes, out),
            (Content::Arena(arena), _) => arena.write_to(alloc, indent, behind, out),
        }
    }

    /// The text, compact or with this indent.
    fn written(&self, alloc: Global, indent: Option<&str>) -> JsonGenerateResult
        requires { IfSome (indent_of indent) (λ i. IsTrue (all_scalars i)) }
        ensures { (t : Tree) → HasTree self.now t →
            IfOk result (λ s. chars (string_bytes s) ≡ text (indent_of indent.entry) 0 t) }
    {
        let mut bytes = Vec::new(alloc);
        let Ok(()) = self.write(alloc, indent, b"", &mut bytes) else {
            return Err(JsonGenerateError);
        };
        match String::from_utf8(bytes) {
            Ok(text) => Ok(text),
            Err(_) => Err(JsonGenerateError),
        }
    }

    /// Whether this is the compact text of the tree.
    fn is_written(&self, alloc: Global, text: &str) -> Result<bool, AllocError>
        ensures { (t : Tree) → HasTree self.now t →
            IfOk result (λ b. IsTrue b ↔ (chars text.now ≡ compact t)) }
    {
        match self.to_string(alloc) {
            Ok(written) => Ok(written.as_str() == text),
            Err(_) => Err(AllocError),
        }
    }
}

/// The compact text of an arena.
fn arena_bytes(alloc: Global, arena: &Arena<'_>) -> Result<Vec<u8>, AllocError>
    ensures { (t : Tree) → IsKept (Content.Arena arena.now) t →
        IfOk result (λ v. v.items ≡ encode_utf8_all (compact t)) }
{
    let mut bytes = Vec::new(alloc);
    match arena.write_to(alloc, None, b"", &mut bytes) {
        Ok(()) => Ok(bytes),
        Err(_) => Err(AllocError),
    }
}

/// Writes the bytes and a line feed, in one call if the writer accepts all. There is room for the line
/// feed in the text, since it was built with a comma at its end.
pub(crate) fn write_with_line_feed<W: Write>(out: &mut W, text: &mut Vec<u8>) -> io::Result<()>
    ensures line { WritesPrefix (W.contents out.old) (W.contents out.new)
        (text.old.items ++ line_feed ∷ []) result }
    ensures text { text.new.items ≡ text.old.items }
{
    text.push(b'\n')?;
    let written = write_all(out, text);
    text.pop();
    written
}

/// Writes the bytes, and then the others.
fn write_both<W: Write>(out: &mut W, bytes: &[u8], behind: &[u8]) -> io::Result<()>
    ensures { WritesPrefix (W.contents out.old) (W.contents out.new)
        (bytes.now ++ behind.now) result }
{
    write_all(out, bytes)?;
    write_all(out, behind)
}

/// Writes the text of a compact text's tree with this indent, and the given bytes after it. It parses the
/// compact text again.
fn write_indented<W: Write>(
    alloc: Global,
    indent: Option<&str>,
    behind: &[u8],
    bytes: &[u8],
    out: &mut W,
) -> io::Result<()>
    ensures { (t : Tree) → bytes.now ≡ encode_utf8_all (compact t) → IsTree t →
        WritesPrefix (W.contents out.old) (W.contents out.new)
        (encode_utf8_all (text (indent_of indent.entry) 0 t) ++ behind.now) result }
{
    let Ok(compact) = str::from_utf8(bytes) else {
        return Err(io::Error::from(ErrorKind::InvalidData));
    };
    match read_events(alloc, compact, Arena::new(alloc)) {
        Ok(arena) => arena.write_to(alloc, indent, behind, out),
        Err(_) => Err(io::Error::from(ErrorKind::OutOfMemory)),
    }
}

/// Whether a text is in normal form: the compact text of its own tree. A text that is no JSON is not.
///
/// The only error is out of memory.
///
/// ```
/// assert!(rt; is_normal(alloc, r#"{"a":1.5,"b":[]}"#)?);
/// assert!(rt; !is_normal(alloc, r#"{"a":1.50,"b":[]}"#)?);
/// ```
pub fn is_normal(alloc: Global, text: &str) -> Result<bool, AllocError>
    ensures { IfOk result (λ b. IsTrue b ↔ IsNormal (chars text.now)) }
{
    match NormalText::read(alloc, text) {
        Ok(normal) => normal.is_written(alloc, text),
        Err(error) if error.is_out_of_memory() => Err(AllocError),
        Err(_) => Ok(false),
    }
}
