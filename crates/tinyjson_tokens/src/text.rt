//! The characters of a text in memory, read where they lie.
ghost use Rattle.std.specs.Prelude.{◌≡◌, ◌-◌, length, slice_get};
ghost use Rattle.std.specs.Char.{len_utf8};
ghost use Rattle.std.specs.Str.{IsUtf8, IsCharBoundary, chars};
ghost use Rattle.tinyjson_grammar.specs.Characters.{is_white};
ghost use Rattle.tinyjson_grammar.specs.Position.{advance, origin};
ghost use Rattle.tinyjson_tokens.specs.Slice.{before, chars_after, run_end, NextChar};
ghost use Rattle.tinyjson_tokens.specs.Slice.Laws.{line_bound, column_bound, shown_once};
ghost use Rattle.tinyjson_tokens.specs.Slice.Laws.{shown_first, nothing_left};

use crate::escape::escapes;
use crate::place::place_after;
use crate::source::{Lent, Source};
use crate::tokens::Tokens;
use crate::utf16::push;
use std::alloc::{AllocError, Global};
use tinyjson_bytes::{digits_end, plain_end, white_end};
use tinyjson_number::{JsonNumber, ready_number_at};

/// A text, and how many of its bytes were consumed. Line and column are counted when they are asked for.
#[derive(Drop)]
pub struct TextBytes<'a> {
    pub text: &'a str,
    pub at: usize,
    /// The last string that was taken with its quote, or the last number.
    pub lent: &'a str,
    pub ghost utf8: { ∥ IsUtf8 text.now ∥₁ },
    pub ghost boundary: { IsCharBoundary text.now at },
}

impl<'a> TextBytes<'a> {
    /// The source that gives all characters of the text.
    pub fn new(text: &'a str) -> Self
        ensures gives { chars_after result.text.now result.at ≡ chars text.now }
        ensures start { advance origin (before result.text.now result.at) ≡ origin }
    {
        TextBytes {
            text,
            at: 0,
            lent: "",
        }
    }

    /// Passes over white space, and shows what follows it. One space alone needs no search.
    #[inline(always)]
    fn pass_white(&mut self) -> Option<char>
        ensures text { self.new.text.now ≡ self.old.text.now }
        ensures at { self.new.at ≡ run_end is_white self.old.text.now self.old.at }
        ensures next { NextChar self.new.text.now self.new.at result }
    {
        let bytes = self.text.as_bytes();
        if bytes.len() - self.at > 1 && bytes[self.at] == b' ' {
            let byte = bytes[self.at + 1];
            if byte > b' ' && byte < 128 {
                self.at += 1;
                return Some(byte as char);
            }
        }
        self.pass_run()
    }

    /// Passes white space of any length, and sees the next character.
    #[inline(never)]
    fn pass_run(&mut self) -> Option<char>
        ensures text { self.new.text.now ≡ self.old.text.now }
        ensures at { self.new.at ≡ run_end is_white self.old.text.now self.old.at }
        ensures next { NextChar self.new.text.now self.new.at result }
    {
        self.at = white_end(self.text.as_bytes(), self.at);
        self.first()
    }

    /// The next character.
    fn first(&self) -> Option<char>
        ensures { NextChar self.now.text.now self.now.at result }
    {
        let bytes = self.text.as_bytes();
        if self.at >= bytes.len() {
            return None;
        }
        let byte = bytes[self.at];
        if byte < 128 {
            return Some(byte as char);
        }
        self.text[self.at..].chars().next()
    }
}

impl<'a> Source for TextBytes<'a> {
    ghost sight = { record {
      gives = λ p zs. zs ≡ chars_after p.text.now p.at;
      shows = λ p o. slice_get (chars_after p.text.now p.at) 0 ≡ o;
      place = λ p. advance origin (before p.text.now p.at);
      line_fits = λ p. line_bound (before p.text.now p.at);
      column_fits = λ p. column_bound (before p.text.now p.at);
      one = λ p. shown_once (chars_after p.text.now p.at);
      first = λ p. shown_first (chars_after p.text.now p.at);
      none = λ p. nothing_left (chars_after p.text.now p.at);
    } };

    ghost left = { λ p. length p.text.now - p.at };

    ghost lent = { λ p. chars p.lent.now };

    fn peek(&mut self) -> Option<char> {
        self.first()
    }

    fn bump(&mut self) -> Option<char> {
        let next = self.first();
        if let Some(c) = next {
            self.at += width(c);
        }
        next
    }

    #[inline(always)]
    fn consume(&mut self, c: char) {
        self.at += width(c);
    }

    fn skip_white(&mut self) -> Option<char> {
        let bytes = self.text.as_bytes();
        if self.at < bytes.len() && bytes[self.at] > b' ' && bytes[self.at] < 128 {
            return Some(bytes[self.at] as char);
        }
        self.pass_white()
    }

    fn plain(&mut self, string: &mut String) -> Result<(), AllocError> {
        let end = plain_end(self.text.as_bytes(), self.at);
        string.push_str(&self.text[self.at..end])?;
        self.at = end;
        Ok(())
    }

    #[inline(always)]
    fn letters(&mut self, string: &mut String) -> Result<(), AllocError> {
        for _ in 0..4_usize {
            let bytes = self.text.as_bytes();
            if self.at >= bytes.len() {
                return Ok(());
            }
            let byte = bytes[self.at];
            if byte == b'"' || byte == b'\\' {
                return Ok(());
            }
            if byte < b' ' || byte >= 128 {
                return self.plain(string);
            }
            push(string, byte as char)?;
            self.at += 1;
        }
        self.plain(string)
    }

    #[inline(always)]
    fn quoted(&mut self, string: &mut String) -> Result<Lent, AllocError> {
        let bytes = self.text.as_bytes();
        let end = plain_end(bytes, self.at);
        let run = &self.text[self.at..end];
        if end == bytes.len() || bytes[end] != b'"' {
            string.push_str(run)?;
            self.at = end;
            return Ok(Lent::Nothing);
        }
        self.lent = run;
        self.at = end + 1;
        Ok(Lent::All)
    }

    #[inline(always)]
    fn lent(&self) -> &str {
        self.lent
    }

    #[inline(always)]
    fn word(&mut self, word: &str) -> bool {
        let bytes = self.text.as_bytes();
        if bytes.len() - self.at < word.len() {
            return false;
        }
        let end = self.at + word.len();
        if &bytes[self.at..end] != word.as_bytes() {
            return false;
        }
        self.at = end;
        true
    }

    fn digits(&mut self, buffer: &mut String) -> Result<(), AllocError> {
        let end = digits_end(self.text.as_bytes(), self.at);
        buffer.push_str(&self.text[self.at..end])?;
        self.at = end;
        Ok(())
    }

    #[inline(always)]
    fn offset(&self) -> usize {
        self.at
    }

    fn position(&self) -> (usize, usize) {
        place_after(&self.text[..self.at])
    }
}

impl<'a> Tokens for TextBytes<'a> {
    fn escaped(&mut self, string: &mut String) -> Result<(), AllocError> {
        loop {
            let end = escapes(self.text.as_bytes(), self.at, string)?;
            if end == self.at {
                return Ok(());
            }
            self.at = end;
            self.letters(string)?;
        }
    }

    #[inline(always)]
    fn ready_number(&self, alloc: Global, by_text: bool) -> Option<(Option<JsonNumber>, Self)> {
        let (number, end) = ready_number_at(alloc, self.text.as_bytes(), self.at, by_text)?;
        let after = TextBytes {
            text: self.text,
            at: end,
            lent: &self.text[self.at..end],
        };
        Some((number, after))
    }
}

/// How many bytes the character takes.
#[inline(always)]
fn width(c: char) -> usize
    ensures { result ≡ len_utf8 c }
{
    if c < '\u{80}' { 1 } else { c.len_utf8() }
}
