//! Lines that are read up to a limit.
ghost use Rattle.std.specs.IoError.{error_kind};
ghost use Rattle.std.specs.Prelude.{◌≡◌, ◌+◌, ◌≤◌, ℕ, List, Option, Some, IfSome, length};
ghost use Rattle.std.specs.Result.{result_map_both};
ghost use Rattle.std.specs.declared.io.ErrorKind.{ErrorKind};
ghost use Rattle.tinyjson_lines.specs.Within.{ReadsWithin, given_as};
ghost use Rattle.tinyjson_lines.specs.private.Pieces.{Extends, IsPart, TakesPiece, end_read};

use crate::lines::read_line;
use std::io::{self, BufRead, ErrorKind};
use tinyjson_bytes::line_end;

/// How a line is read.
#[derive(Clone, Copy, Debug, PartialEq, Eq)]
pub enum LineRead {
    /// All of it is read.
    Whole,
    /// It has more bytes before its line feed than this limit, and is passed over.
    TooLong(usize),
    /// There is none: the input is at its end.
    End,
}

impl LineRead {
    /// The line that was read, or the limit that it exceeds.
    ///
    /// ```
    /// let read = read_line_within(&mut input, &mut line, Some(5))?; // of "[1,2,3]\n": TooLong(5)
    /// read.given(line.as_slice()) // Err(5)
    /// ```
    pub fn given(self, line: &[u8]) -> Result<&[u8], usize>
        ensures { result_map_both (λ s. s.now) (λ m. m) result ≡ given_as self line.now }
    {
        match self {
            LineRead::TooLong(max) => Err(max),
            LineRead::Whole | LineRead::End => Ok(line),
        }
    }
}

/// Reads one line with its line feed, in place of what `line` held, unless it has more than `max` bytes before its line
/// feed. A longer line is passed over, and no more than `max` bytes of it are kept in memory.
///
/// Interruptions of the reader are passed over. Another error ends the reading within the line: `line` has the bytes
/// that were consumed, and no line feed; or the line is longer, and a part of it was passed over.
///
/// ```
/// let mut input = b"[1,2,3]\n4\n".as_slice();
/// read_line_within(&mut input, &mut line, Some(5))? // TooLong(5)
/// read_line_within(&mut input, &mut line, Some(5))? // Whole, and `line` has the bytes of "4\n"
/// ```
pub fn read_line_within<R: BufRead>(
    input: &mut R,
    line: &mut Vec<u8>,
    max: Option<usize>,
) -> io::Result<LineRead>
    ensures reads { ReadsWithin max (R.remaining input.old) (R.remaining input.new)
        line.new.items result }
    ensures held { IfSome max (λ m. length line.new.items ≤ m + 1) }
{
    match max {
        Some(max) => gather_line(input, line, max),
        None => {
            if read_line(input, line)? {
                Ok(LineRead::Whole)
            } else {
                Ok(LineRead::End)
            }
        }
    }
}

/// Reads a line of at most `max` bytes.
pub(crate) fn gather_line<R: BufRead>(
    input: &mut R,
    line: &mut Vec<u8>,
    max: usize,
) -> io::Result<LineRead>
    ensures reads { ReadsWithin (Some max) (R.remaining input.old) (R.remaining input.new)
        line.new.items result }
    ensures held { length line.new.items ≤ max + 1 }
{
    line.clear();
    for _ in 0..u64::MAX {
        if let Some(read) = take_piece(input, line, max)? {
            return Ok(read);
        }
    }
    Err(too_long())
}

pub(crate) fn too_long() -> io::Error
    ensures { error_kind result ≡ ErrorKind.InvalidData }
{
    io::Error::new(ErrorKind::InvalidData, "a line is too long")
}

/// Takes what the reader shows of a line, of which a part is read. `None` where more may follow.
pub(crate) fn take_piece<R: BufRead>(
    input: &mut R,
    line: &mut Vec<u8>,
    max: usize,
) -> io::Result<Option<LineRead>>
    ensures reads { (unread : Option (List ℕ)) →
        IsPart max unread (R.remaining input.old) line.old.items →
        TakesPiece max unread (R.remaining input.new) line.new.items result }
    ensures held { length line.old.items ≤ max → length line.new.items ≤ max + 1 }
    ensures extends { Extends line.old.items line.new.items result }
{
    let available = match input.fill_buf() {
        Ok(available) => available,
        Err(e) => {
            return if e.kind() == ErrorKind::Interrupted {
                Ok(None)
            } else {
                Err(e)
            };
        }
    };
    if available.is_empty() {
        return Ok(Some(end_read(line.as_slice())));
    }
    let end = line_end(available);
    if end > max.saturating_sub(line.len()) {
        input.skip_until(b'\n')?;
        return Ok(Some(LineRead::TooLong(max)));
    }
    if end < available.len() {
        line.extend_from_slice(&available[..end + 1])?;
        input.consume(end + 1);
        return Ok(Some(LineRead::Whole));
    }
    line.extend_from_slice(available)?;
    input.consume(end);
    Ok(None)
}

/// What is read at the end of the input, after this part of a line.
fn end_read(part: &[u8]) -> LineRead
    ensures { result ≡ end_read part.now }
{
    if part.is_empty() {
        return LineRead::End;
    }
    LineRead::Whole
}
