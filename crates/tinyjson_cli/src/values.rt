//! A program that answers the values of texts.
ghost use Rattle.std.specs.Prelude.{◌≡◌, ℕ, List, Option, Result, length, encode_utf8_all, string_bytes};
ghost use Rattle.std.specs.Str.{chars};
ghost use Rattle.tinyjson.specs.Events.{TellsText};
ghost use Rattle.tinyjson.specs.Tree.{Tree};
ghost use Rattle.tinyjson_cli.specs.Texts.{Answers};
ghost use Rattle.tinyjson_cli.specs.Tools.{GivesDone};
ghost use Rattle.tinyjson_cli.specs.Values.{GivesOfText, IsSameTool};
ghost use Rattle.tinyjson_cli.specs.declared.texts.NoAnswer.{NoAnswer};
ghost use Rattle.tinyjson_document.specs.Document.{HasTree, tree};

use crate::status::Status;
use crate::texts::NoAnswer;
use crate::tool::{Input, InputText, Tool, done};
use std::alloc::Global;
use std::io::{self, Write};
use tinyjson::JsonParseError;
use tinyjson_document::{Document, DocumentReader, Node};
use tinyjson_lines::Cause;

/// A program that answers values, by [`Values`].
///
/// `gives` relates the program, how many bytes a text has, and the tree of its value, to the bytes of the answer, or to
/// why there is none.
pub trait ValueTool {
    ghost gives: { Self → ℕ → Tree → Result (List ℕ) NoAnswer → Type 0 };

    /// Writes the answer for a value whose text has this many bytes, or returns why there is none. Then nothing is
    /// written.
    ///
    /// After an error of the writer, or if memory runs out, a prefix of the answer may be written.
    fn answer_value<W: Write>(
        &self,
        alloc: Global,
        value: Node<'_>,
        len: usize,
        output: &mut W,
    ) -> io::Result<Option<NoAnswer>>
        ensures { Answers (gives self.now len (tree value.entry))
            (W.contents output.old) (W.contents output.new) result };
}

/// A program that reads each text, in the memory of the one before, and answers its value.
#[derive(Drop)]
pub struct Values<T> {
    tool: T,
    depth_limit: Option<usize>,
    reader: DocumentReader,
}

impl<T> Values<T> {
    /// What answers the value of a text, with the limit on nested containers, if there is one.
    ///
    /// ```
    /// run_tool(rt, PROGRAM, texts, files, Values::new(alloc, part, None))
    /// ```
    pub fn new(alloc: Global, tool: T, depth_limit: Option<usize>) -> Values<T>
        ensures tool { result.tool ≡ tool }
        ensures limit { result.depth_limit ≡ depth_limit }
    {
        Values {
            tool,
            depth_limit,
            reader: DocumentReader::new(alloc),
        }
    }
}

impl<T: ValueTool> Tool for Values<T> {
    ghost gives = { λ a source text f b. GivesDone
        (GivesOfText (T.gives a.tool) a.depth_limit text) f
        × IsSameTool a b };

    fn answer<W: Write>(
        &mut self,
        alloc: Global,
        input: Input<'_>,
        output: &mut W,
    ) -> io::Result<Result<Status, NoAnswer>> {
        match input.text {
            InputText::Owned(text) => done(self.answer_owned(alloc, text, output)),
            InputText::Lent(text) => done(self.answer_lent(alloc, text, output)),
        }
    }
}

impl<T: ValueTool> Values<T> {
    /// Answers a text that is given up: without a limit its document keeps it.
    fn answer_owned<W: Write>(
        &mut self,
        alloc: Global,
        text: String,
        output: &mut W,
    ) -> io::Result<Option<NoAnswer>>
        ensures same { IsSameTool self.old self.new }
        ensures answer { Answers (GivesOfText (T.gives self.old.tool) self.old.depth_limit
            (chars (string_bytes text))) (W.contents output.old) (W.contents output.new) result }
    {
        if self.depth_limit.is_some() {
            return self.answer_lent(alloc, text.as_str(), output);
        }
        let len = text.len();
        let read = Document::of_text(alloc, text);
        answer_read(alloc, &self.tool, &read, len, output)
    }

    /// Answers a text that is copied into the memory of the one before.
    fn answer_lent<W: Write>(
        &mut self,
        alloc: Global,
        text: &str,
        output: &mut W,
    ) -> io::Result<Option<NoAnswer>>
        ensures same { IsSameTool self.old self.new }
        ensures answer { Answers (GivesOfText (T.gives self.old.tool) self.old.depth_limit
            (chars text.now)) (W.contents output.old) (W.contents output.new) result }
    {
        let read = self.reader.read(text, self.depth_limit);
        let answered = answer_read(alloc, &self.tool, &read, text.len(), output);
        if let Ok(document) = read {
            self.reader.reuse(document);
        }
        answered
    }
}

/// Answers for what was read of a text of this many bytes.
fn answer_read<T: ValueTool, W: Write>(
    alloc: Global,
    tool: &T,
    read: &Result<Document, JsonParseError>,
    len: usize,
    output: &mut W,
) -> io::Result<Option<NoAnswer>>
    ensures { (limit : Option ℕ) → (text : List ℕ) → TellsText HasTree limit text read.now
        → len ≡ length (encode_utf8_all text)
        → Answers (GivesOfText (T.gives tool.now) limit text)
        (W.contents output.old) (W.contents output.new) result }
{
    match read {
        Ok(document) => tool.answer_value(alloc, document.root(), len, output),
        Err(error) => {
            if error.is_out_of_memory() {
                return Err((*error).into());
            }
            Ok(Some(NoAnswer::Refused(Cause::NotJson(*error))))
        }
    }
}
