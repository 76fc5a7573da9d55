//! Reads the lines of an input.
ghost use Rattle.std.specs.Prelude.{◌≡◌};
ghost use Rattle.tinyjson_lines.specs.Lines.{ReadsLine, content as content_of};

use crate::within::{LineRead, gather_line, too_long};
use std::io::{self, BufRead};

/// Reads one line with its line feed into `line`, which is cleared first. Returns `false` at the end of
/// the input.
///
/// The last line may lack the line feed. Interruptions of the reader are passed over. Another error ends
/// the reading within the line: `line` has the bytes that were consumed, and no line feed.
///
/// ```
/// let mut input = b"[1.0]\n{".as_slice();
/// let mut line = Vec::new(alloc);
/// read_line(&mut input, &mut line)? // true, and `line` has the bytes of "[1.0]\n"
/// ```
pub fn read_line<R: BufRead>(input: &mut R, line: &mut Vec<u8>) -> io::Result<bool>
    ensures { ReadsLine (R.remaining input.old) (R.remaining input.new) line.new.items result }
{
    match gather_line(input, line, usize::MAX)? {
        LineRead::Whole => Ok(true),
        LineRead::End => Ok(false),
        LineRead::TooLong(_) => Err(too_long()),
    }
}

/// The line without its line feed.
///
/// ```
/// content(b"[1]\n") // the bytes of "[1]"
/// ```
pub fn content(line: &[u8]) -> &[u8]
    ensures { result.now ≡ content_of line.now }
{
    if !line.is_empty() && line[line.len() - 1] == b'\n' {
        return &line[..line.len() - 1];
    }
    line
}
