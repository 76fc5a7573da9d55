//! Text for terminals, with control characters escaped.

use std::fmt;

/// A text with each control character as its code point, as `U+001B`. So the input can't start a line or move
/// a terminal's cursor.
#[derive(Drop)]
pub(crate) struct Shown<'a>(pub(crate) &'a str);

impl fmt::Display for Shown<'_> {
    fn fmt<W: fmt::Write>(&self, f: &mut fmt::Formatter<W>) -> fmt::Result {
        for c in self.0.chars() {
            if c.is_control() {
                write!(f, "U+{:04X}", u32::from(c))?;
            } else {
                f.write_char(c)?;
            }
        }
        Ok(())
    }
}
