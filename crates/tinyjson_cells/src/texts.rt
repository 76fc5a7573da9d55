//! The characters of strings, keys and short numbers, in UTF-8. They are ranges of the text that is read, where it
//! has them, or they are appended.
ghost use Rattle.std.specs.Prelude.{◌≡◌, ◌+◌, [], IfOk, IfSome, IsSome, OnOk, length};
ghost use Rattle.std.specs.Str.{IsUtf8};
ghost use Rattle.tinyjson_cells.specs.Texts.{IsAt, IsNumberAt, TextsGrow, part_of, source_bytes};

use crate::append::{ROOM, append};
use crate::store::{Span, part};
use std::alloc::{AllocError, Global};
use std::str;
use tinyjson_bytes::are_equal;
use tinyjson_number::JsonNumber;

/// How many bytes the text of a short number has at most: a number is then made of it without memory.
const SHORT: usize = 24;

/// The text that is read: lent while it is read, and kept afterwards.
#[derive(Drop)]
pub enum Source<'t> {
    Lent(&'t str),
    Kept(String),
}

impl Source<'_> {
    /// The text.
    #[inline(always)]
    fn text(&self) -> &str
        ensures { result.now ≡ source_bytes self.now }
    {
        match self {
            Source::Lent(text) => *text,
            Source::Kept(text) => text.as_str(),
        }
    }

    /// The bytes.
    #[inline(always)]
    pub fn bytes(&self) -> &[u8]
        ensures { result.now ≡ source_bytes self.now }
    {
        self.text().as_bytes()
    }
}

/// Texts in one sequence: the source, and behind it what is appended.
#[derive(Drop)]
pub struct Texts<'t> {
    pub source: Source<'t>,
    pub added: Vec<u8>,
}

impl<'t> Texts<'t> {
    /// The texts over a source. It takes no memory.
    pub fn new(alloc: Global, source: Source<'t>) -> Self
        ensures { source_bytes result.source ≡ source_bytes source.entry }
    {
        Texts {
            source,
            added: Vec::new(alloc),
        }
    }

    /// The bytes in the range, as far as there are any.
    #[inline(always)]
    pub fn part(&self, span: Span) -> &[u8]
        ensures { result.now ≡ part_of self.now span }
    {
        let source = self.source.bytes();
        if span.to as usize <= source.len() {
            return part(source, span);
        }
        let to = (span.to as usize - source.len()).min(self.added.len());
        let from = (span.from as usize).saturating_sub(source.len()).min(to);
        &self.added.as_slice()[from..to]
    }

    /// The text in the range, if its bytes are UTF-8. They are checked only where the source does not have them.
    #[inline(always)]
    pub fn text(&self, span: Span) -> Option<&str>
        ensures bytes { IfSome result (λ text. text.now ≡ part_of self.now span) }
        ensures some { IsUtf8 (part_of self.now span) → IsSome result }
    {
        let source = self.source.text();
        if let Some(text) = source.get(span.from as usize..span.to as usize) {
            return Some(text);
        }
        match str::from_utf8(self.part(span)) {
            Ok(text) => Some(text),
            Err(_) => None,
        }
    }

    /// The length of all, if it can be counted.
    #[inline(always)]
    fn end(&self) -> Result<usize, AllocError>
        ensures { IfOk result (λ end.
            end ≡ length (source_bytes self.now.source) + length self.now.added.items) }
    {
        match self.source.bytes().len().checked_add(self.added.len()) {
            Some(end) => Ok(end),
            None => Err(AllocError),
        }
    }

    /// Forgets what was appended. It keeps its memory.
    pub fn clear(&mut self)
        ensures { self.new.added.items ≡ [] }
    {
        self.added.clear();
    }

    /// Appends the bytes.
    pub fn add(&mut self, bytes: &[u8]) -> Result<Span, AllocError>
        ensures at { IfOk result (IsAt self.new bytes.now) }
        ensures grows { OnOk result (TextsGrow self.old self.new) }
    {
        let from = self.end()?;
        append(&mut self.added, bytes)?;
        let to = self.end()?;
        Span::new(from, to)
    }

    /// The text of a number, if it is short: where the source has it up to `end`, or else appended.
    pub fn add_number(
        &mut self,
        number: &JsonNumber,
        end: usize,
    ) -> Result<Option<Span>, AllocError>
        ensures at { IfOk result (λ found. IfSome found (IsNumberAt self.new number.now)) }
        ensures grows { OnOk result (TextsGrow self.old self.new) }
    {
        let mut buffer = [0; ROOM];
        let Some(count) = number.write_short(&mut buffer) else {
            return Ok(None);
        };
        if count > SHORT {
            return Ok(None);
        }
        let text = &buffer[..count];
        if let Some(span) = self.find(text, end) {
            return Ok(Some(span));
        }
        Ok(Some(self.add(text)?))
    }

    /// The range of the source that ends at `to`, if it has these bytes.
    #[inline(always)]
    pub fn find(&self, bytes: &[u8], to: usize) -> Option<Span>
        ensures { IfSome result (IsAt self.now bytes.now) }
    {
        let source = self.source.bytes();
        let from = to.checked_sub(bytes.len())?;
        if to > source.len() {
            return None;
        }
        let Ok(span) = Span::new(from, to) else {
            return None;
        };
        if !are_equal(part(source, span), bytes) {
            return None;
        }
        Some(span)
    }
}
