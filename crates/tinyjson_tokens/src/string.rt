//! Strings read piece by piece (RFC 8259, section 7).
ghost use Rattle.std.specs.Prelude.{◌≡◌, ℕ, ◌<◌, ◌≤◌, List, [], ◌∷◌, ◌++◌, true, false};
ghost use Rattle.std.specs.Prelude.{MatchResult, OnOk, Option, Some, cond};
ghost use Rattle.tinyjson_grammar.specs.Characters.{paired, decode, quotation_mark, text};
ghost use Rattle.tinyjson_grammar.specs.Machine.{Frame, plain, backslash, hex, quoted, next};
ghost use Rattle.tinyjson_grammar.specs.Machine.{complete};
ghost use Rattle.tinyjson_tokens.specs.Steps.{Reads, Fails, within};
ghost use Rattle.tinyjson_grammar.specs.Tree.{string};

use crate::escape::short_escape;
use crate::reader::TokenReader;
use crate::tokens::Tokens;
use crate::utf16::{decode, push};
use std::mem;
use tinyjson_bytes::is_plain;
use tinyjson_grammar::JsonParseErrorKind;

impl<S: Tokens> TokenReader<S> {
    /// Reads the rest of a string, after the plain characters in the buffer.
    #[inline(never)]
    pub(crate) fn escaped(&mut self, buffer: &mut String) -> Result<(), JsonParseErrorKind>
        ensures reads { (limit : Option ℕ) (fs : List Frame) →
            Reads S.sight limit self.old.source (within fs buffer.old [] false) result
            (λ _. complete true fs (string (text buffer.new)) true) self.new.source }
        ensures left { S.left self.new.source ≤ S.left self.old.source }
    {
        match self.source.escaped(buffer) {
            Ok(_) => self.rest(buffer),
            Err(_) => Err(JsonParseErrorKind::OutOfMemory),
        }
    }

    /// Reads the rest of a string, after all in the buffer that the source takes at once.
    #[inline(always)]
    fn rest(&mut self, buffer: &mut String) -> Result<(), JsonParseErrorKind>
        ensures reads { (limit : Option ℕ) (fs : List Frame) →
            Reads S.sight limit self.old.source (within fs buffer.old [] false) result
            (λ _. complete true fs (string (text buffer.new)) true) self.new.source }
        ensures left { S.left self.new.source ≤ S.left self.old.source }
    {
        match self.source.peek() {
            Some(c) if c == '"' => {
                self.source.consume('"');
                Ok(())
            }
            _ => self.pieces(buffer),
        }
    }

    /// Reads the rest of a string piece by piece, after the characters in the buffer.
    fn pieces(&mut self, buffer: &mut String) -> Result<(), JsonParseErrorKind>
        ensures reads { (limit : Option ℕ) (fs : List Frame) →
            Reads S.sight limit self.old.source (within fs buffer.old [] false) result
            (λ _. complete true fs (string (text buffer.new)) true) self.new.source }
        ensures left { S.left self.new.source ≤ S.left self.old.source }
    {
        let mut units = mem::replace(&mut self.units, Vec::new(self.alloc));
        units.clear();
        while !self.piece(buffer, &mut units)? {
            self.settle(buffer, &mut units)?;
            self.plain(buffer, units.as_slice())?;
        }
        self.units = units;
        Ok(())
    }

    /// Adds the characters that the units spell, if a plain character comes next.
    fn settle(
        &mut self,
        string: &mut String,
        units: &mut Vec<u16>,
    ) -> Result<(), JsonParseErrorKind>
        ensures reads { (limit : Option ℕ) (fs : List Frame) →
            Reads S.sight limit self.old.source (within fs string.old units.old.items false) result
            (λ _. within fs string.new units.new.items false) self.new.source }
        ensures left { S.left self.new.source ≤ S.left self.old.source }
    {
        if units.is_empty() {
            return Ok(());
        }
        match self.source.peek() {
            Some(c) if is_plain(c) => match decode(units, string) {
                Ok(true) => {
                    units.clear();
                    Ok(())
                }
                Ok(false) => {
                    self.source.bump();
                    Err(JsonParseErrorKind::InvalidUtf16)
                }
                Err(_) => Err(JsonParseErrorKind::OutOfMemory),
            },
            _ => Ok(()),
        }
    }

    /// Reads the plain characters and the escapes that the source takes at once, unless units wait.
    fn plain(&mut self, string: &mut String, units: &[u16]) -> Result<(), JsonParseErrorKind>
        ensures reads { (limit : Option ℕ) (fs : List Frame)
            → Reads S.sight limit self.old.source (within fs string.old units.now false) result
            (λ _. within fs string.new units.now false) self.new.source }
        ensures left { S.left self.new.source ≤ S.left self.old.source }
    {
        if !units.is_empty() {
            return Ok(());
        }
        match self.source.escaped(string) {
            Ok(_) => Ok(()),
            Err(_) => Err(JsonParseErrorKind::OutOfMemory),
        }
    }

    /// Reads a part of a string; `true` at the quote that closes it.
    fn piece(
        &mut self,
        string: &mut String,
        units: &mut Vec<u16>,
    ) -> Result<bool, JsonParseErrorKind>
        ensures reads { (limit : Option ℕ) (fs : List Frame) →
            Reads S.sight limit self.old.source (within fs string.old units.old.items false) result
            (within fs string.new units.new.items) self.new.source }
        ensures left { S.left self.new.source ≤ S.left self.old.source }
        ensures some { OnOk result (S.left self.new.source < S.left self.old.source) }
    {
        let Some(c) = self.source.bump() else {
            return Err(JsonParseErrorKind::UnexpectedEof);
        };
        match c {
            '"' => {
                flush(string, units)?;
                Ok(true)
            }
            '\\' => self.escape(string, units),
            c if c < ' ' => Err(JsonParseErrorKind::ControlCharacter(c)),
            c => add(string, units, c),
        }
    }

    /// Reads an escape, after its backslash.
    fn escape(
        &mut self,
        string: &mut String,
        units: &mut Vec<u16>,
    ) -> Result<bool, JsonParseErrorKind>
        ensures reads { (limit : Option ℕ) (fs : List Frame) →
            Reads S.sight limit self.old.source
            (next fs (quoted backslash (text string.old) units.old.items)) result
            (within fs string.new units.new.items) self.new.source }
        ensures left { S.left self.new.source ≤ S.left self.old.source }
    {
        let Some(c) = self.source.bump() else {
            return Err(JsonParseErrorKind::UnexpectedEof);
        };
        match short_escape(c) {
            Some(d) => add(string, units, d),
            None if c == 'u' => self.unit(units),
            None => Err(JsonParseErrorKind::InvalidEscape(c)),
        }
    }

    /// Reads the four digits of a unit.
    fn unit(&mut self, units: &mut Vec<u16>) -> Result<bool, JsonParseErrorKind>
        ensures reads { (limit : Option ℕ) (fs : List Frame) (cs : List ℕ) →
            Reads S.sight limit self.old.source (next fs (quoted (hex []) cs units.old.items))
            result (λ done. cond done (complete true fs (string cs) true)
            (next fs (quoted plain cs units.new.items))) self.new.source }
        ensures left { S.left self.new.source ≤ S.left self.old.source }
    {
        let mut unit: u16 = 0;
        for _ in 0..4_usize {
            let Some(c) = self.source.bump() else {
                return Err(JsonParseErrorKind::UnexpectedEof);
            };
            let Some(digit) = c.to_digit(16) else {
                return Err(JsonParseErrorKind::InvalidHexDigit(c));
            };
            unit = unit * 16 + digit as u16;
        }
        if units.push(unit).is_err() {
            return Err(JsonParseErrorKind::OutOfMemory);
        }
        Ok(false)
    }
}

/// Adds the characters that the units spell.
fn flush(string: &mut String, units: &mut Vec<u16>) -> Result<(), JsonParseErrorKind>
    ensures { MatchResult result (λ _. (paired units.old.items ≡ true)
        × (text string.new ≡ text string.old ++ decode units.old.items)
        × (units.new.items ≡ [])) (Fails (paired units.old.items)) }
{
    match decode(units, string) {
        Ok(true) => {
            units.clear();
            Ok(())
        }
        Ok(false) => Err(JsonParseErrorKind::InvalidUtf16),
        Err(_) => Err(JsonParseErrorKind::OutOfMemory),
    }
}

/// Adds the characters that the units spell, and then `c`.
fn add(string: &mut String, units: &mut Vec<u16>, c: char) -> Result<bool, JsonParseErrorKind>
    ensures { MatchResult result (λ done. (done ≡ false) × (paired units.old.items ≡ true)
        × (text string.new ≡ (text string.old ++ decode units.old.items) ++ c ∷ [])
        × (units.new.items ≡ [])) (Fails (paired units.old.items)) }
{
    if !units.is_empty() {
        flush(string, units)?;
    }
    if push(string, c).is_err() {
        return Err(JsonParseErrorKind::OutOfMemory);
    }
    Ok(false)
}
