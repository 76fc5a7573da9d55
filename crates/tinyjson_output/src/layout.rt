//! What separates values in compact text, and in indented text.
ghost use Rattle.std.specs.Prelude.{◌∷◌, Some};
ghost use Rattle.std.specs.Str.{chars};
ghost use Rattle.tinyjson_grammar.specs.Characters.{name_separator};
ghost use Rattle.tinyjson_grammar.specs.Text.{after_colon, before, newline};
ghost use Rattle.tinyjson_output.specs.Buffer.{SendsText};
ghost use Rattle.tinyjson_output.specs.Indent.{indent_of};

use crate::buffer::{Buffer, write_bytes};
use std::io::{self, Write};

/// Writes what precedes an item or a member: a comma, but none before the first, and a new line.
#[inline(always)]
pub fn separate<W: Write>(
    out: &mut W,
    buffer: &mut Buffer,
    indent: Option<&str>,
    level: usize,
    first: bool,
) -> io::Result<()>
    ensures { SendsText W.contents out.old out.new buffer.old buffer.new
        (before (indent_of indent.entry) level first) result }
{
    if !first {
        write_bytes(out, buffer, b",")?;
    }
    write_newline(out, buffer, indent, level)
}

/// Begins a new line at the level, where the text is indented.
#[inline(always)]
pub fn write_newline<W: Write>(
    out: &mut W,
    buffer: &mut Buffer,
    indent: Option<&str>,
    level: usize,
) -> io::Result<()>
    ensures { SendsText W.contents out.old out.new buffer.old buffer.new
        (newline (indent_of indent.entry) level) result }
{
    match indent {
        None => Ok(()),
        Some(indent) => begin_line(out, buffer, indent, level),
    }
}

/// Writes the colon after a key, and a space where the text is indented.
#[inline(always)]
pub fn write_colon<W: Write>(
    out: &mut W,
    buffer: &mut Buffer,
    indent: Option<&str>,
) -> io::Result<()>
    ensures { SendsText W.contents out.old out.new buffer.old buffer.new
        (name_separator ∷ after_colon (indent_of indent.entry)) result }
{
    match indent {
        None => write_bytes(out, buffer, b":"),
        Some(_) => write_bytes(out, buffer, b": "),
    }
}

/// Writes a line feed, and the indent of the next line.
#[inline(never)]
fn begin_line<W: Write>(
    out: &mut W,
    buffer: &mut Buffer,
    indent: &str,
    level: usize,
) -> io::Result<()>
    ensures { SendsText W.contents out.old out.new buffer.old buffer.new
        (newline (Some (chars indent.now)) level) result }
{
    write_bytes(out, buffer, b"\n")?;
    for _level in 0..level {
        write_bytes(out, buffer, indent.as_bytes())?;
    }
    Ok(())
}
