//! Writes a value as a line.
ghost use Rattle.tinyjson.specs.View.{view};
ghost use Rattle.tinyjson.specs.Written.{WritesPrefix};
ghost use Rattle.tinyjson_lines.specs.Line.{line_of};

use std::alloc::Global;
use std::io::{self, Write};
use tinyjson::JsonValue;
use tinyjson_output::write_all;

/// Writes the compact text of the value, and a line feed.
///
/// It stops at the first error, and then a prefix of the line was written. It does not flush.
///
/// ```
/// write_line(alloc, &value, &mut output)?; // of {"b":1,"a":2}: writes {"a":2,"b":1} and a line feed
/// ```
pub fn write_line<W: Write>(alloc: Global, value: &JsonValue, output: &mut W) -> io::Result<()>
    ensures { WritesPrefix (W.contents output.old) (W.contents output.new)
        (line_of (view value.now)) result }
{
    value.write_to(alloc, output)?;
    write_all(output, b"\n")
}
