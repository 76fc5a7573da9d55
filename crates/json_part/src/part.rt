//! Prints the part of a value that a pointer names.
ghost use Rattle.std.specs.Prelude.{◌++◌, ◌∷◌, [], encode_utf8_all};
ghost use Rattle.std.specs.Str.{chars};
ghost use Rattle.tinyjson.specs.Characters.{line_feed};
ghost use Rattle.tinyjson.specs.Written.{WritesPrefix};
ghost use Rattle.tinyjson_cli.specs.Layout.{laid_out};
ghost use Rattle.tinyjson_cli.specs.Texts.{Answers};
ghost use Rattle.tinyjson_document.specs.Document.{tree};
ghost use Rattle.tinyjson_pointer.specs.Tokens.{tokens_of};
ghost use Rattle.json_part.specs.Part.{GivesMissing, GivesPart, printed};

use std::alloc::Global;
use std::io::{self, Write};
use tinyjson_cli::{NoAnswer, ValueTool};
use tinyjson_document::Node;
use tinyjson_lines::write_all;
use tinyjson_pointer::Pointer;

/// How a part is printed.
#[derive(Clone, Copy)]
pub struct Form {
    /// Whether its text is indented with two spaces.
    pub is_indented: bool,
    /// Whether the characters of a string are printed in place of its text.
    pub is_raw: bool,
    /// Whether `null` is printed where there is no part.
    pub or_null: bool,
}

/// The part of each value that a pointer names, in a form.
#[derive(Clone, Copy)]
pub struct Part<'a> {
    pub pointer: &'a Pointer,
    pub form: Form,
}

/// ```
/// part.answer_value(alloc, value, len, &mut output)?; // of /a/0 in {"a":[7]}: writes 7 and a line feed
/// ```
impl ValueTool for Part<'_> {
    ghost gives = { λ a _ t f. GivesPart a.form (tokens_of a.pointer.now) t f };

    fn answer_value<W: Write>(
        &self,
        alloc: Global,
        value: Node<'_>,
        _: usize,
        output: &mut W,
    ) -> io::Result<Option<NoAnswer>> {
        let Some(part) = self.pointer.find_part(value) else {
            return answer_missing(alloc, self.form.or_null, output);
        };
        write_part(alloc, part, self.form, output)?;
        Ok(None)
    }
}

/// Prints null where there is no part, if that is asked.
fn answer_missing<W: Write>(
    alloc: Global,
    or_null: bool,
    output: &mut W,
) -> io::Result<Option<NoAnswer>>
    ensures { Answers (GivesMissing or_null)
        (W.contents output.old) (W.contents output.new) result }
{
    if !or_null {
        let words = "the pointer names no part".to_string(alloc)?;
        return Ok(Some(NoAnswer::No(words)));
    }
    write_all(output, b"null\n")?;
    Ok(None)
}

/// Prints a part.
fn write_part<W: Write>(alloc: Global, part: Node<'_>, form: Form, output: &mut W) -> io::Result<()>
    ensures { WritesPrefix (W.contents output.old) (W.contents output.new)
        (printed form (tree part.entry)) result }
{
    if !form.is_raw {
        return write_text(alloc, part, form.is_indented, output);
    }
    match part.string() {
        Some(characters) => write_raw(characters, output),
        None => write_text(alloc, part, form.is_indented, output),
    }
}

/// Writes the text of a part, and a line feed.
fn write_text<W: Write>(
    alloc: Global,
    part: Node<'_>,
    is_indented: bool,
    output: &mut W,
) -> io::Result<()>
    ensures { WritesPrefix (W.contents output.old) (W.contents output.new)
        (laid_out is_indented (tree part.entry)) result }
{
    if is_indented {
        return part.format_line_to(alloc, output);
    }
    part.write_line_to(alloc, output)
}

/// Writes characters in UTF-8, and a line feed.
fn write_raw<W: Write>(characters: &str, output: &mut W) -> io::Result<()>
    ensures { WritesPrefix (W.contents output.old) (W.contents output.new)
        (encode_utf8_all (chars characters.now) ++ line_feed ∷ []) result }
{
    write_all(output, characters.as_bytes())?;
    write_all(output, b"\n")
}
