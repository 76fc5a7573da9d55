//! The text of a value in a document.
use crate::node::Node;
use crate::walk::Root;
use std::alloc::{AllocError, Global};
use std::io::{self, Write};
use tinyjson::{JsonGenerateError, JsonGenerateResult, JsonValue};

/// The indent of [`Node::format`].
const INDENT: &str = "  ";

impl<'d> Node<'d> {
    ghost use Rattle.std.specs.Prelude.{◌≡◌, ◌++◌, ◌∷◌, [], codes, encode_utf8_all, IfOk, IfSome};
    ghost use Rattle.std.specs.Prelude.{IsTrue, string_bytes};
    ghost use Rattle.std.specs.Str.{all_scalars, chars};
    ghost use Rattle.tinyjson.specs.Indent.{indent_of};
    ghost use Rattle.tinyjson.specs.Text.{compact, indented, text};
    ghost use Rattle.tinyjson.specs.Characters.{line_feed};
    ghost use Rattle.tinyjson.specs.Written.{WritesPrefix, WritesText};
    ghost use Rattle.tinyjson.specs.View.{view};
    ghost use Rattle.tinyjson_document.specs.Document.{tree};

    /// Writes the compact text in UTF-8: the bytes that `JsonValue::write_to` writes for its value. It does not
    /// flush.
    ///
    /// It stops at the first error: the writer's own, also an interruption; one of kind `WriteZero` if the writer
    /// accepts no byte; or one of kind `OutOfMemory` if there is no memory for the open containers. Then a prefix
    /// of the text is written.
    ///
    /// ```
    /// node.write_to(alloc, &mut output)?; // of [1.50e1, null]: writes [15,null]
    /// ```
    pub fn write_to<W: Write>(&self, alloc: Global, out: &mut W) -> io::Result<()>
        ensures { WritesText (W.contents out.old) (W.contents out.new)
            (compact (tree self.now)) result }
    {
        self.write(alloc, None, b"", out)
    }

    /// Writes the text indented with two spaces, in UTF-8: the bytes that `JsonValue::format_to` writes for its
    /// value. It does not flush. The errors are those of [`Node::write_to`].
    ///
    /// ```
    /// node.format_to(alloc, &mut output)?; // of [1.0]: writes "[\n  1\n]"
    /// ```
    pub fn format_to<W: Write>(&self, alloc: Global, out: &mut W) -> io::Result<()>
        ensures { WritesText (W.contents out.old) (W.contents out.new)
            (indented (tree self.now) (codes "  ") 0) result }
    {
        self.write(alloc, Some(INDENT), b"", out)
    }

    /// Writes what [`Node::write_to`] writes and a line feed.
    ///
    /// ```
    /// node.write_line_to(alloc, &mut output)?; // of [1.0]: writes "[1]\n"
    /// ```
    pub fn write_line_to<W: Write>(&self, alloc: Global, out: &mut W) -> io::Result<()>
        ensures { WritesPrefix (W.contents out.old) (W.contents out.new)
            (encode_utf8_all (compact (tree self.now)) ++ line_feed ∷ []) result }
    {
        self.write(alloc, None, b"\n", out)
    }

    /// Writes what [`Node::format_to`] writes and a line feed.
    ///
    /// ```
    /// node.format_line_to(alloc, &mut output)?; // of [1.0]: writes "[\n  1\n]\n"
    /// ```
    pub fn format_line_to<W: Write>(&self, alloc: Global, out: &mut W) -> io::Result<()>
        ensures { WritesPrefix (W.contents out.old) (W.contents out.new)
            (encode_utf8_all (indented (tree self.now) (codes "  ") 0) ++ line_feed ∷ [])
            result }
    {
        self.write(alloc, Some(INDENT), b"\n", out)
    }

    /// The compact text: what `JsonValue::stringify` returns for its value.
    ///
    /// ```
    /// node.to_string(alloc)?; // of [1.0]: "[1]"
    /// ```
    pub fn to_string(&self, alloc: Global) -> JsonGenerateResult
        ensures { IfOk result (λ s. chars (string_bytes s) ≡ compact (tree self.now)) }
    {
        self.written(alloc, None)
    }

    /// The text indented with two spaces: what `JsonValue::format` returns for its value.
    ///
    /// ```
    /// node.format(alloc)?; // of [1.0]: "[\n  1\n]"
    /// ```
    pub fn format(&self, alloc: Global) -> JsonGenerateResult
        ensures { IfOk result (λ s. chars (string_bytes s)
            ≡ indented (tree self.now) (codes "  ") 0) }
    {
        self.written(alloc, Some(INDENT))
    }

    /// Its value, which is parsed from the compact text.
    ///
    /// The only error is out of memory.
    ///
    /// ```
    /// node.to_value(alloc)?; // of [1.0]: an array with the number 1
    /// ```
    pub fn to_value(&self, alloc: Global) -> Result<JsonValue, AllocError>
        ensures { IfOk result (λ v. view v ≡ tree self.now) }
    {
        let Ok(text) = self.to_string(alloc) else {
            return Err(AllocError);
        };
        match JsonValue::from_str(alloc, text.as_str()) {
            Ok(value) => Ok(value),
            Err(_) => Err(AllocError),
        }
    }

    /// Writes the text, compact or with this indent, and the given bytes after it.
    fn write<W: Write>(
        &self,
        alloc: Global,
        indent: Option<&str>,
        behind: &[u8],
        out: &mut W,
    ) -> io::Result<()>
        ensures { WritesPrefix (W.contents out.old) (W.contents out.new)
            (encode_utf8_all (text (indent_of indent.entry) 0 (tree self.now)) ++ behind.now)
            result }
    {
        let root = Root {
            store: &self.document.store,
            cell: self.cell,
            most: self.document.deepest,
        };
        root.write_to(alloc, indent, behind, out)
    }

    /// The text, compact or with this indent.
    fn written(&self, alloc: Global, indent: Option<&str>) -> JsonGenerateResult
        requires { IfSome (indent_of indent) (λ i. IsTrue (all_scalars i)) }
        ensures { IfOk result (λ s.
            chars (string_bytes s) ≡ text (indent_of indent.entry) 0 (tree self.now)) }
    {
        let mut bytes = Vec::new(alloc);
        let Ok(()) = self.write(alloc, indent, b"", &mut bytes) else {
            return Err(JsonGenerateError);
        };
        match String::from_utf8(bytes) {
            Ok(text) => Ok(text),
            Err(_) => Err(JsonGenerateError),
        }
    }
}
