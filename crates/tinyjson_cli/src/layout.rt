//! A value as a program prints it.
ghost use Rattle.tinyjson.specs.View.{view};
ghost use Rattle.tinyjson.specs.Written.{WritesPrefix};
ghost use Rattle.tinyjson_cli.specs.Layout.{laid_out};

use crate::arguments::Known;
use std::alloc::Global;
use std::io::{self, Write};
use tinyjson::JsonValue;
use tinyjson_lines::{write_all, write_line};

/// `-i` and `--indent`.
pub const INDENT: Known<'static> = Known {
    letter: b'i',
    name: "indent",
    takes: None,
};

/// `-r` and `--raw`.
pub const RAW: Known<'static> = Known {
    letter: b'r',
    name: "raw",
    takes: None,
};

/// Writes the text of the value, compact or indented with two spaces, and a line feed.
///
/// It stops at the first error, and then a prefix was written. It does not flush.
pub fn write_laid_out<W: Write>(
    alloc: Global,
    value: &JsonValue,
    is_indented: bool,
    output: &mut W,
) -> io::Result<()>
    ensures { WritesPrefix (W.contents output.old) (W.contents output.new)
        (laid_out is_indented (view value.now)) result }
{
    if !is_indented {
        return write_line(alloc, value, output);
    }
    value.format_to(alloc, output)?;
    write_all(output, b"\n")
}
