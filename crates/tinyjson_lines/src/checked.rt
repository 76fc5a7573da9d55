//! Lines that are checked while they are read.
ghost use Rattle.std.specs.Prelude.{◌≡◌, ◌<◌, ℕ, List, MatchOption};
ghost use Rattle.std.specs.IoError.{error_kind};
ghost use Rattle.std.specs.Prelude.{Option, Some, IfErr, IfOk, IfSome, length};
ghost use Rattle.std.specs.declared.io.ErrorKind.{ErrorKind};
ghost use Rattle.std.specs.Result.{result_map_both};
ghost use Rattle.tinyjson_lines.specs.Checked.{ReadsChecked, checked_as};
ghost use Rattle.tinyjson_lines.specs.private.Beginnings.{IsCutAfter, IsNoUtf8, PassesOver, Rejects, usize_max};
ghost use Rattle.tinyjson_lines.specs.private.Pieces.{IsPart};

use crate::lines::content;
use crate::refusal::Cause;
use crate::within::{LineRead, take_piece, too_long};
use std::alloc::Global;
use std::io::{self, BufRead};
use std::str;
use tinyjson::check_with_depth_limit;

/// How many bytes of a line are read before its beginning is checked.
const FIRST_CHECK: usize = 64 * 1024;

/// How a line is read that is checked.
#[derive(Clone, Copy, Debug, PartialEq, Eq)]
pub enum CheckedRead {
    /// All of it is read.
    Whole,
    /// It is rejected for this cause, and passed over.
    Rejected(Cause),
    /// There is none: the input is at its end.
    End,
}

impl CheckedRead {
    /// The line that was read, or the cause for which it is rejected.
    ///
    /// ```
    /// let read = read_line_checked(alloc, &mut input, &mut line, 64)?; // of 1 MB of `[`
    /// read.given(line.as_slice()) // Err: nested too deep
    /// ```
    pub fn given(self, line: &[u8]) -> Result<&[u8], Cause>
        ensures { result_map_both (λ s. s.now) (λ c. c) result ≡ checked_as self line.now }
    {
        match self {
            CheckedRead::Rejected(cause) => Err(cause),
            CheckedRead::Whole | CheckedRead::End => Ok(line),
        }
    }
}

/// Reads one line with its line feed, in place of what `line` held, unless it is found to be rejected where at most
/// `limit` containers may be nested. The rest of such a line is passed over and not kept in memory.
///
/// The beginning of a line is checked after 64 KB, and each time that four times as many bytes are read. So a line that
/// is rejected may also be read whole.
///
/// Interruptions of the reader are passed over. Another error ends the reading within the line: `line` has the bytes
/// that were consumed, and no line feed; or the line is rejected, and a part of it was passed over.
///
/// ```
/// let mut input = brackets.as_slice(); // 1 MB of `[`, and "\n4\n"
/// read_line_checked(alloc, &mut input, &mut line, 64)? // Rejected: nested too deep
/// read_line_checked(alloc, &mut input, &mut line, 64)? // Whole, and `line` has the bytes of "4\n"
/// ```
pub fn read_line_checked<R: BufRead>(
    alloc: Global,
    input: &mut R,
    line: &mut Vec<u8>,
    limit: usize,
) -> io::Result<CheckedRead>
    ensures { ReadsChecked (Some limit) (R.remaining input.old) (R.remaining input.new)
        line.new.items result }
{
    line.clear();
    let mut next_check = FIRST_CHECK;
    for _ in 0..u64::MAX {
        match take_piece(input, line, usize::MAX)? {
            Some(LineRead::Whole) => return Ok(CheckedRead::Whole),
            Some(LineRead::End) => return Ok(CheckedRead::End),
            Some(LineRead::TooLong(_)) => return Err(too_long()),
            None => {}
        }
        if line.len() < next_check {
            continue;
        }
        if let Some(cause) = beginning_cause(alloc, line.as_slice(), limit)? {
            let cause = if pass_over(input, line)? {
                cause
            } else {
                Cause::NotUtf8
            };
            return Ok(CheckedRead::Rejected(cause));
        }
        next_check = line.len().saturating_mul(4);
    }
    Err(too_long())
}

/// Why each line is rejected that begins with this part, if that is known.
fn beginning_cause(alloc: Global, part: &[u8], limit: usize) -> io::Result<Option<Cause>>
    ensures cause { IfOk result (λ o. IfSome o (Rejects (Some limit) part.now)) }
    ensures err { IfErr result (λ e. error_kind e ≡ ErrorKind.OutOfMemory) }
{
    let Some(text) = text_of(part) else {
        return Ok(Some(Cause::NotUtf8));
    };
    let Err(error) = check_with_depth_limit(alloc, text, limit) else {
        return Ok(None);
    };
    if error.is_out_of_memory() {
        return Err(error.into());
    }
    if error.line() == 1 && error.column() < text.chars().count() {
        return Ok(Some(Cause::NotJson(error)));
    }
    Ok(None)
}

/// The text with which a part of a line begins, without a character that is cut off at its end. `None` where the line
/// is not UTF-8.
fn text_of(part: &[u8]) -> Option<&str>
    ensures { MatchOption result (IsNoUtf8 part.now) (λ s. IsCutAfter s.now part.now) }
{
    let len = match str::from_utf8(part) {
        Ok(text) => return Some(text),
        Err(error) => error.valid_up_to(),
    };
    if part.len() - len > 3 {
        return None;
    }
    match str::from_utf8(&part[..len]) {
        Ok(text) => Some(text),
        Err(_) => None,
    }
}

/// Passes over the rest of a line, of which a part is read. Returns whether the line is UTF-8.
fn pass_over<R: BufRead>(input: &mut R, part: &mut Vec<u8>) -> io::Result<bool>
    ensures { (unread : Option (List ℕ)) → 0 < length part.old.items →
        IsPart usize_max unread (R.remaining input.old) part.old.items →
        PassesOver unread (R.remaining input.new) part.old.items result }
{
    for _ in 0..u64::MAX {
        let Some(text) = text_of(part.as_slice()) else {
            input.skip_until(b'\n')?;
            return Ok(false);
        };
        let len = text.len();
        *part = part.split_off(len)?;
        match take_piece(input, part, usize::MAX)? {
            Some(LineRead::Whole) => return Ok(str::from_utf8(content(part.as_slice())).is_ok()),
            Some(LineRead::End) => return Ok(true),
            Some(LineRead::TooLong(_)) => return Err(too_long()),
            None => {}
        }
    }
    Err(too_long())
}
