//! Numbers.
ghost use Rattle.std.specs.Prelude.{◌∷◌};
ghost use Rattle.tinyjson_number.specs.Characters.{letter_e};
ghost use Rattle.tinyjson_number.specs.Text.{decimal_text, integer_text, natural_text};
ghost use Rattle.tinyjson_output.specs.Buffer.{Sends, SendsText};

use crate::buffer::{Buffer, write_bytes};
use std::io::{self, Write};
use tinyjson_number::JsonNumber;

/// Writes the text of a number.
pub fn write_number<W: Write>(
    out: &mut W,
    buffer: &mut Buffer,
    number: &JsonNumber,
) -> io::Result<()>
    ensures { SendsText W.contents out.old out.new buffer.old buffer.new
        (decimal_text number.now.decimal) result }
{
    let layout = number.layout();
    write_bytes(out, buffer, layout.sign)?;
    write_bytes(out, buffer, layout.front)?;
    write_bytes(out, buffer, layout.middle)?;
    write_bytes(out, buffer, layout.back)?;
    match layout.exponent {
        None => Ok(()),
        Some(exponent) => write_exponent(out, buffer, exponent),
    }
}

fn write_exponent<W: Write>(out: &mut W, buffer: &mut Buffer, exponent: i128) -> io::Result<()>
    ensures { Sends W.contents out.old out.new buffer.old buffer.new
        (letter_e ∷ integer_text exponent) result }
{
    if exponent < 0 {
        write_bytes(out, buffer, b"e-")?;
    } else {
        write_bytes(out, buffer, b"e")?;
    }
    write_natural(out, buffer, exponent.unsigned_abs())
}

/// Writes the digits, the first of them first.
fn write_natural<W: Write>(out: &mut W, buffer: &mut Buffer, number: u128) -> io::Result<()>
    ensures { Sends W.contents out.old out.new buffer.old buffer.new (natural_text number) result }
{
    if number >= 10 {
        write_natural(out, buffer, number / 10)?;
    }
    write_bytes(out, buffer, &[b'0' + (number % 10) as u8])
}
