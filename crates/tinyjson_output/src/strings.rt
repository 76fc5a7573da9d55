//! Quoted strings.
ghost use Rattle.std.specs.Prelude.{◌≡◌, ◌<◌, ◌≤◌, ◌/◌, ◌%◌, ◌++◌, ◌∷◌, [], length};
ghost use Rattle.std.specs.Prelude.{IsTrue, MatchOption, codes};
ghost use Rattle.std.specs.Bool.{MatchBool};
ghost use Rattle.std.specs.Char.{digit_char};
ghost use Rattle.std.specs.List.{prefix_len};
ghost use Rattle.std.specs.Str.{chars};
ghost use Rattle.tinyjson_grammar.specs.Characters.{reverse_solidus};
ghost use Rattle.tinyjson_bytes.specs.Scan.{is_plain};
ghost use Rattle.tinyjson_grammar.specs.Text.{escape, escapes, quoted, IsEscaped};
ghost use Rattle.tinyjson_output.specs.Buffer.{buffered, Buffers, Sends, SendsText};

use crate::buffer::{Buffer, write_bytes};
use std::io::{self, Write};
use tinyjson_bytes::plain_end;

/// Writes the text between quotes.
pub fn quote<W: Write>(out: &mut W, buffer: &mut Buffer, text: &str) -> io::Result<()>
    ensures { SendsText W.contents out.old out.new buffer.old buffer.new
        (quoted (chars text.now)) result }
{
    write_bytes(out, buffer, b"\"")?;
    write_escaped(out, buffer, text.as_bytes())?;
    write_bytes(out, buffer, b"\"")
}

#[inline(always)]
fn write_escaped<W: Write>(out: &mut W, buffer: &mut Buffer, bytes: &[u8]) -> io::Result<()>
    ensures { Sends W.contents out.old out.new buffer.old buffer.new (escapes bytes.now) result }
{
    let stop = plain_end(bytes, 0);
    write_bytes(out, buffer, &bytes[..stop])?;
    if stop == bytes.len() {
        return Ok(());
    }
    write_stopped(out, buffer, &bytes[stop..])
}

/// Writes consecutive escapes, and the bytes up to the next one in one piece.
#[inline(never)]
fn write_stopped<W: Write>(out: &mut W, buffer: &mut Buffer, bytes: &[u8]) -> io::Result<()>
    requires { prefix_len is_plain bytes.now ≡ 0 }
    ensures { Sends W.contents out.old out.new buffer.old buffer.new (escapes bytes.now) result }
{
    let mut rest = bytes;
    while let Some((byte, after)) = rest.split_first() {
        write_escape(out, buffer, *byte)?;
        let others = append_escapes(buffer, after);
        let stop = plain_end(others, 0);
        write_bytes(out, buffer, &others[..stop])?;
        rest = &others[stop..];
    }
    Ok(())
}

fn write_escape<W: Write>(out: &mut W, buffer: &mut Buffer, byte: u8) -> io::Result<()>
    requires { IsEscaped byte }
    ensures { Sends W.contents out.old out.new buffer.old buffer.new (escape byte) result }
{
    match escape_letter(byte) {
        Some(letter) => write_bytes(out, buffer, &[b'\\', letter]),
        None => write_bytes(out, buffer, &long_escape(byte)),
    }
}

/// Appends the escapes at the front to the buffer, as far as they fit, and returns the bytes after them.
#[inline(always)]
fn append_escapes<'a>(buffer: &mut Buffer, bytes: &'a [u8]) -> &'a [u8]
    ensures buffers { Buffers (buffered buffer.old) (buffered buffer.new) (escapes bytes.now)
        (escapes result.now) }
    ensures less { length result.now ≤ length bytes.now }
{
    let mut rest = bytes;
    while let Some((byte, after)) = rest.split_first() {
        if !append_escape(buffer, *byte) {
            return rest;
        }
        rest = after;
    }
    rest
}

/// Appends the escape of a byte that needs one if it fits, and returns whether it did.
#[inline(always)]
fn append_escape(buffer: &mut Buffer, byte: u8) -> bool
    ensures { MatchBool result (buffered buffer.new ≡ buffered buffer.old ++ escape byte)
        (buffered buffer.new ≡ buffered buffer.old) }
{
    if !is_escaped(byte) || !buffer.fits(6) {
        return false;
    }
    match escape_letter(byte) {
        Some(letter) => buffer.append(&[b'\\', letter]),
        None => buffer.append(&long_escape(byte)),
    }
    true
}

/// Whether the byte is not written as it is.
#[inline(always)]
fn is_escaped(byte: u8) -> bool
    ensures { IsTrue result → IsEscaped byte }
{
    byte < b' ' || byte == b'"' || byte == b'\\'
}

/// The escape of a control character that has no short one.
#[inline(always)]
fn long_escape(byte: u8) -> [u8; 6]
    ensures { result ≡ codes "\\u00" ++ digit_char (byte / 16) ∷ digit_char (byte % 16) ∷ [] }
{
    [
        b'\\',
        b'u',
        b'0',
        b'0',
        hex_digit(byte / 16),
        hex_digit(byte % 16),
    ]
}

/// The letter after the backslash of a short escape. Those of control characters are looked up in a
/// small table, so that no jump has to be guessed for them.
fn escape_letter(byte: u8) -> Option<u8>
    requires { IsEscaped byte }
    ensures { MatchOption result
        (escape byte ≡ codes "\\u00" ++ digit_char (byte / 16) ∷ digit_char (byte % 16) ∷ [])
        (λ letter. escape byte ≡ reverse_solidus ∷ letter ∷ []) }
{
    if byte >= b' ' {
        return Some(byte);
    }
    match byte {
        0x08 => Some(b'b'),
        b'\t' => Some(b't'),
        b'\n' => Some(b'n'),
        0x0c => Some(b'f'),
        b'\r' => Some(b'r'),
        _ => None,
    }
}

fn hex_digit(value: u8) -> u8
    requires { value < 16 }
    ensures { result ≡ digit_char value }
{
    if value < 10 {
        b'0' + value
    } else {
        b'a' + (value - 10)
    }
}
