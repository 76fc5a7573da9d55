//! Text as it is printed.
ghost use Rattle.std.specs.Fmt.{WritesOnOk};
ghost use Rattle.std.specs.Prelude.{◌≡◌, Some};
ghost use Rattle.std.specs.Str.{chars};
ghost use Rattle.tinyjson_cli.specs.Shown.{is_direction, is_hidden, shown, shown_char};

use std::fmt::{self, Write};

/// A text, with each control character and each control of direction shown by its code point, as `U+001B` and
/// `U+202E`: no text of the input starts a
/// line or moves the cursor of a terminal.
#[derive(Drop)]
pub struct Shown<'a>(pub &'a str);

impl fmt::Display for Shown<'_> {
    ghost output = { λ s. Some (shown (chars s.0.now)) };

    fn fmt<W: fmt::Write>(&self, f: &mut fmt::Formatter<W>) -> fmt::Result {
        write_shown(f, self.0)
    }
}

fn write_shown<W: fmt::Write>(f: &mut fmt::Formatter<W>, text: &str) -> fmt::Result
    ensures { WritesOnOk W.write_str_gives f.old result (shown (chars text.now)) f.new }
{
    for c in text.chars() {
        write_shown_char(f, c)?;
    }
    Ok(())
}

fn write_shown_char<W: fmt::Write>(f: &mut fmt::Formatter<W>, c: char) -> fmt::Result
    ensures { WritesOnOk W.write_str_gives f.old result (shown_char c) f.new }
{
    if is_hidden(c) {
        let code = c as u32;
        write!(f, "U+{code:04X}")
    } else {
        f.write_char(c)
    }
}

/// Whether the character is shown by its code point.
fn is_hidden(c: char) -> bool
    ensures { result ≡ is_hidden c }
{
    c.is_control() || is_direction(c)
}

/// Whether the character changes the direction in which others are shown.
fn is_direction(c: char) -> bool
    ensures { result ≡ is_direction c }
{
    matches!(
        c,
        '\u{61c}' | '\u{200e}' | '\u{200f}' | '\u{202a}'..='\u{202e}' | '\u{2066}'..='\u{2069}'
    )
}
