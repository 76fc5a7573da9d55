//! A run over the lines of an input.
ghost use Rattle.std.specs.Prelude.{◌≡◌, ℕ, List, Option, Bool, option_map};
ghost use Rattle.tinyjson_lines.specs.Each.{HandlesLine, RunsOver, given_by};

use crate::within::{LineRead, read_line_within};
use std::alloc::Global;
use std::io::{self, BufRead, ErrorKind, Write};

/// What is done with each line of an input, by [`for_each_line`].
///
/// `handles` relates what the handler was, the number of a line from 1, the line, what is written of it, what is
/// reported of it, whether the run goes on, and what the handler is then.
pub trait LineHandler {
    ghost handles: { Self → ℕ → Option (List ℕ) → List ℕ → List ℕ → Bool → Self → Type 0 };

    /// Handles one line, which has its line feed, unless it is the last one and lacks it. `None` is a line that is longer
    /// than the limit. Returns whether the run goes on.
    ///
    /// After an error a prefix was written of what is to be written of the line, and a prefix of what is to be reported.
    fn handle_line<W: Write, E: Write>(
        &mut self,
        number: u64,
        line: Option<&[u8]>,
        output: &mut W,
        errors: &mut E,
    ) -> io::Result<bool>
        ensures { HandlesLine handles self.old self.new number (option_map (λ s. s.now) line.entry)
            (W.contents output.old) (W.contents output.new)
            (E.contents errors.old) (E.contents errors.new) result };
}

/// Hands each line of an input to a handler, in order, until it ends the run or no line is left. Returns whether all
/// lines were handled. At the end of the input the output is flushed.
///
/// A line of more than `max` bytes is passed over: the handler is given its number alone. The first error of the input,
/// of the handler or of the flush ends the run.
///
/// ```
/// let mut input = b"1\n2\n".as_slice();
/// for_each_line(alloc, None, &mut handler, &mut input, &mut output, &mut errors)? // lines 1 and 2
/// ```
pub fn for_each_line<H: LineHandler, R: BufRead, W: Write, E: Write>(
    alloc: Global,
    max: Option<usize>,
    handler: &mut H,
    input: &mut R,
    output: &mut W,
    errors: &mut E,
) -> io::Result<bool>
    ensures { RunsOver H.handles max handler.old handler.new
        (R.remaining input.old) (R.remaining input.new)
        (W.contents output.old) (W.contents output.new)
        (E.contents errors.old) (E.contents errors.new) result }
{
    let mut line = Vec::new(alloc);
    for number in 1..u64::MAX {
        let read = read_line_within(input, &mut line, max)?;
        if let LineRead::End = read {
            output.flush()?;
            return Ok(true);
        }
        let given = given_line(read, line.as_slice());
        if !handler.handle_line(number, given, output, errors)? {
            return Ok(false);
        }
    }
    Err(io::Error::new(ErrorKind::InvalidData, "too many lines"))
}

/// The line that a handler is given.
fn given_line(read: LineRead, line: &[u8]) -> Option<&[u8]>
    ensures { option_map (λ s. s.now) result ≡ given_by read line.now }
{
    match read {
        LineRead::Whole => Some(line),
        LineRead::TooLong(_) | LineRead::End => None,
    }
}
