//! New lines of indented text: with two spaces a level, and at most 32 levels, they are written at once.
ghost use Rattle.std.specs.Prelude.{◌≡◌, ◌++◌, codes, encode_utf8_all, IsTrue};
ghost use Rattle.std.specs.Bool.{MatchBool};
ghost use Rattle.std.specs.Str.{chars};
ghost use Rattle.tinyjson.specs.Indent.{indent_of};
ghost use Rattle.tinyjson_grammar.specs.Text.{before};
ghost use Rattle.tinyjson_output.specs.Buffer.{buffered, SendsText};

use std::io::{self, Write};
use tinyjson_output::{Buffer, quick_word};

/// The most levels of a line that is written at once.
const LEVELS: usize = 32;

/// A comma, a line feed and two spaces for each of the levels.
const LINE: &[u8] = b",\n                                                                ";

/// Writes what precedes an item or a member: a comma, but none before the first, and a new line.
#[inline(always)]
pub(crate) fn separate<W: Write>(
    out: &mut W,
    buffer: &mut Buffer,
    indent: Option<&str>,
    level: usize,
    first: bool,
) -> io::Result<()>
    ensures { SendsText W.contents out.old out.new buffer.old buffer.new
        (before (indent_of indent.entry) level first) result }
{
    if quick_line(buffer, indent, level, first) {
        return Ok(());
    }
    tinyjson_output::separate(out, buffer, indent, level, first)
}

/// Appends what precedes an item or a member to the buffer if it is a part of `LINE` and fits, and returns whether it
/// did.
#[inline(always)]
pub(crate) fn quick_line(
    buffer: &mut Buffer,
    indent: Option<&str>,
    level: usize,
    first: bool,
) -> bool
    ensures { MatchBool result
        (buffered buffer.new ≡ buffered buffer.old
        ++ encode_utf8_all (before (indent_of indent.entry) level first))
        (buffered buffer.new ≡ buffered buffer.old) }
{
    match indent {
        None => quick_word(buffer, &LINE[first as usize..1]),
        Some(indent) if level <= LEVELS && is_two_spaces(indent) => {
            quick_word(buffer, &LINE[first as usize..2 + 2 * level])
        }
        Some(_) => false,
    }
}

#[inline(always)]
fn is_two_spaces(indent: &str) -> bool
    ensures { IsTrue result → chars indent.now ≡ codes "  " }
{
    indent == "  "
}
