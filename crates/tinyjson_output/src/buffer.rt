//! The buffer before a writer: short texts, which are buffered in full or not at all, and the write loop.
ghost use Rattle.std.specs.Prelude.{◌≡◌, ◌≤◌, ◌+◌, ◌++◌, ◌∷◌, [], length, take, IsTrue, OnOk};
ghost use Rattle.std.specs.Bool.{MatchBool};
ghost use Rattle.tinyjson_grammar.specs.Characters.{name_separator, quotation_mark};
ghost use Rattle.tinyjson_grammar.specs.Text.{escapes, separator};
ghost use Rattle.tinyjson_number.specs.Text.{decimal_text};
ghost use Rattle.tinyjson_output.specs.Buffer.{buffered, Sends};
ghost use Rattle.tinyjson_output.specs.Written.{WritesPrefix};

use std::io::{self, ErrorKind, Write};
use tinyjson_bytes::{copy, plain_end};
use tinyjson_number::JsonNumber;

/// How many bytes the buffer holds at most.
const CAPACITY: usize = 4096;

/// Bytes that are still to be written: the first `len`.
#[derive(Drop)]
pub struct Buffer {
    bytes: [u8; CAPACITY],
    len: usize,
}

impl Buffer {
    /// An empty buffer.
    pub fn new() -> Buffer
        ensures { buffered result ≡ [] }
    {
        Buffer {
            bytes: [0; CAPACITY],
            len: 0,
        }
    }

    /// Appends the bytes.
    #[inline(always)]
    pub fn append(&mut self, bytes: &[u8])
        requires { self.old.len + length bytes.now ≤ 4096 }
        ensures buffers { buffered self.new ≡ buffered self.old ++ bytes.now }
        ensures len { self.new.len ≡ self.old.len + length bytes.now }
    {
        copy(&mut self.bytes[..], self.len, bytes);
        self.len += bytes.len();
    }

    /// Appends the text of a number if it is short and fits, and returns whether it did.
    #[inline(always)]
    pub fn append_short(&mut self, number: &JsonNumber) -> bool
        ensures { MatchBool result
            (buffered self.new ≡ buffered self.old ++ decimal_text number.now.decimal)
            (buffered self.new ≡ buffered self.old) }
    {
        if self.len > CAPACITY {
            return false;
        }
        match number.write_short(&mut self.bytes[self.len..]) {
            Some(count) => {
                self.len += count;
                true
            }
            None => false,
        }
    }

    /// How many bytes are buffered.
    #[inline(always)]
    pub fn len(&self) -> usize
        ensures { result ≡ length (buffered self.now) }
    {
        self.len.min(CAPACITY)
    }

    /// Keeps only the first `len` bytes.
    #[inline(always)]
    pub fn truncate(&mut self, len: usize)
        ensures { buffered self.new ≡ take len (buffered self.old) }
    {
        self.len = self.len.min(len);
    }

    /// Whether `count` more bytes fit.
    #[inline(always)]
    pub fn fits(&self, count: usize) -> bool
        ensures { IsTrue result → self.now.len + count ≤ 4096 }
    {
        self.len.saturating_add(count) <= CAPACITY
    }
}

/// Appends the bytes of a word to the buffer if they fit, and returns whether it did.
#[inline(always)]
pub fn quick_word(buffer: &mut Buffer, word: &[u8]) -> bool
    ensures { MatchBool result
        (buffered buffer.new ≡ buffered buffer.old ++ word.now)
        (buffered buffer.new ≡ buffered buffer.old) }
{
    let fits = buffer.fits(word.len());
    if fits {
        buffer.append(word);
    }
    fits
}

/// Appends the text of a number to the buffer if it fits and has no exponent, and returns whether it did.
#[inline(always)]
pub fn quick_number(buffer: &mut Buffer, number: &JsonNumber) -> bool
    ensures { MatchBool result
        (buffered buffer.new ≡ buffered buffer.old ++ decimal_text number.now.decimal)
        (buffered buffer.new ≡ buffered buffer.old) }
{
    buffer.append_short(number) || append_layout(buffer, number)
}

/// Appends the text of a number part by part if it fits and has no exponent, and returns whether it did.
#[inline(never)]
fn append_layout(buffer: &mut Buffer, number: &JsonNumber) -> bool
    ensures { MatchBool result
        (buffered buffer.new ≡ buffered buffer.old ++ decimal_text number.now.decimal)
        (buffered buffer.new ≡ buffered buffer.old) }
{
    let layout = number.layout();
    let sides = layout.front.len().saturating_add(layout.back.len());
    let count = sides
        .saturating_add(layout.sign.len())
        .saturating_add(layout.middle.len());
    if layout.exponent.is_some() || !buffer.fits(count) {
        return false;
    }
    buffer.append(layout.sign);
    buffer.append(layout.front);
    if layout.middle.is_empty() && layout.back.is_empty() {
        return true;
    }
    buffer.append(layout.middle);
    buffer.append(layout.back);
    true
}

/// Appends the bytes between quotes to the buffer if they fit and none needs an escape, and returns whether
/// it did.
#[inline(always)]
pub fn quick_text(buffer: &mut Buffer, bytes: &[u8]) -> bool
    ensures { MatchBool result
        (buffered buffer.new ≡ buffered buffer.old
        ++ (quotation_mark ∷ [] ++ (escapes bytes.now ++ quotation_mark ∷ [])))
        (buffered buffer.new ≡ buffered buffer.old) }
{
    if !buffer.fits(bytes.len().saturating_add(2)) || plain_end(bytes, 0) < bytes.len() {
        return false;
    }
    buffer.append(b"\"");
    buffer.append(bytes);
    buffer.append(b"\"");
    true
}

/// Appends what precedes a member's value in compact text, a comma, the key and the colon, to the
/// buffer if it fits and nothing of the key needs an escape, and returns whether it did.
#[inline(always)]
pub fn quick_key(buffer: &mut Buffer, compact: bool, first: bool, key: &str) -> bool
    ensures { MatchBool result
        (IsTrue compact × (buffered buffer.new ≡ buffered buffer.old
        ++ (separator first ++ ((quotation_mark ∷ [] ++ (escapes key.now ++ quotation_mark ∷ []))
        ++ name_separator ∷ []))))
        (buffered buffer.new ≡ buffered buffer.old) }
{
    let bytes = key.as_bytes();
    let fits = buffer.fits(bytes.len().saturating_add(4));
    if !compact || !fits || plain_end(bytes, 0) < bytes.len() {
        return false;
    }
    buffer.append(opening(first));
    buffer.append(bytes);
    buffer.append(b"\":");
    true
}

#[inline(always)]
fn opening(first: bool) -> &'static [u8]
    ensures short { length result.now ≤ 2 }
    ensures value { result.now ≡ separator first ++ quotation_mark ∷ [] }
{
    if first {
        b"\"".as_slice()
    } else {
        b",\"".as_slice()
    }
}

/// Appends the bytes to the buffer, or, where they do not fit, writes what is buffered first. An error is
/// the writer's own, an interruption too, or `WriteZero` where it takes nothing.
#[inline(always)]
pub fn write_bytes<W: Write>(out: &mut W, buffer: &mut Buffer, bytes: &[u8]) -> io::Result<()>
    ensures { Sends W.contents out.old out.new buffer.old buffer.new bytes.now result }
{
    if !buffer.fits(bytes.len()) {
        return write_far(out, buffer, bytes);
    }
    buffer.append(bytes);
    Ok(())
}

/// Writes what is buffered, and then appends the bytes to the empty buffer, or writes them too where it cannot
/// hold them.
#[cold]
#[inline(never)]
fn write_far<W: Write>(out: &mut W, buffer: &mut Buffer, bytes: &[u8]) -> io::Result<()>
    ensures { Sends W.contents out.old out.new buffer.old buffer.new bytes.now result }
{
    flush(out, buffer)?;
    let len = bytes.len();
    if len > CAPACITY {
        return write_all(out, bytes);
    }
    buffer.bytes[..len].copy_from_slice(bytes);
    buffer.len = len;
    Ok(())
}

/// Writes what is buffered.
pub fn flush<W: Write>(out: &mut W, buffer: &mut Buffer) -> io::Result<()>
    ensures written { WritesPrefix (W.contents out.old) (W.contents out.new)
        (buffered buffer.old) result }
    ensures empty { OnOk result (buffered buffer.new ≡ []) }
{
    write_all(out, &buffer.bytes[..buffer.len.min(CAPACITY)])?;
    buffer.len = 0;
    Ok(())
}

/// Writes the bytes, and ends with the writer's first error, an interruption too. The writer is not
/// called with an empty slice.
pub fn write_all<W: Write>(out: &mut W, bytes: &[u8]) -> io::Result<()>
    ensures { WritesPrefix (W.contents out.old) (W.contents out.new) bytes.now result }
{
    let mut rest = bytes;
    while !rest.is_empty() {
        let count = out.write(rest)?;
        if count == 0 {
            return Err(io::Error::new(ErrorKind::WriteZero, "the writer took no byte"));
        }
        rest = &rest[count..];
    }
    Ok(())
}
