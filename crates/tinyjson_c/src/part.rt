//! The part of a text that a pointer names.
ghost use Rattle.std.specs.Prelude.{◌≡◌, MatchResult, Some, encode_utf8_all};
ghost use Rattle.std.specs.Str.{IsUtf8, chars};
ghost use Rattle.tinyjson.specs.Words.{Tree, compact};
ghost use Rattle.tinyjson_c.specs.Part.{IsNoPart, IsUnread, IsWritten, Leads};
ghost use Rattle.tinyjson_c.specs.Part.{no_part_place, no_part_status};
ghost use Rattle.tinyjson_document.specs.Document.{document_tree};
ghost use Rattle.tinyjson_pointer.specs.Text.{pointer_text};
ghost use Rattle.tinyjson_pointer.specs.Tokens.{tokens_of};
ghost use Rattle.tinyjson_pointer.specs.Walk.{part_at};

use crate::place::TinyjsonPlace;
use crate::status::{BAD_POINTER, NOT_FOUND, NOT_UTF8};
use crate::stop::{Stop, text_of};
use std::alloc::Global;
use std::str;
use tinyjson_document::Document;
use tinyjson_pointer::{Pointer, PointerError};

/// Why there is no part.
#[derive(Clone, Copy)]
pub(crate) enum NoPart {
    /// The text is no JSON, or memory ran out.
    Text(Stop),
    /// The pointer is not UTF-8; this many bytes before the fault are.
    NotUtf8(usize),
    /// The pointer's text is not a pointer.
    BadPointer,
    /// The pointer names no part.
    NotFound,
}

impl NoPart {
    /// Fills the place, and returns the status.
    pub(crate) fn put(self, place: &mut TinyjsonPlace) -> u32
        ensures status { result ≡ no_part_status self }
        ensures place { place.new ≡ no_part_place self }
    {
        match self {
            NoPart::Text(stop) => stop.put(0, place),
            NoPart::NotUtf8(length) => {
                *place = TinyjsonPlace::of_length(1, length);
                NOT_UTF8
            }
            NoPart::BadPointer => {
                *place = TinyjsonPlace::of_length(1, 0);
                BAD_POINTER
            }
            NoPart::NotFound => {
                *place = TinyjsonPlace::of_length(0, 0);
                NOT_FOUND
            }
        }
    }
}

/// The normal form of the part that a pointer names in a text.
pub(crate) fn part(
    alloc: Global,
    text: &[u8],
    pointer: &[u8],
    depth: usize,
) -> Result<Vec<u8>, NoPart>
    ensures { MatchResult result (λ v. (u : Tree) × Leads (Some depth) text.now pointer.now (Some u)
        × (v.items ≡ encode_utf8_all (compact u)))
        (IsNoPart (Some depth) text.now pointer.now) }
{
    let text = match text_of(text) {
        Ok(text) => text,
        Err(stop) => return Err(NoPart::Text(stop)),
    };
    let pointer = match read_pointer(alloc, pointer) {
        Ok(pointer) => pointer,
        Err(none) => return Err(none),
    };
    match Document::read_with_depth_limit(alloc, text, depth) {
        Ok(document) => written(alloc, &pointer, &document),
        Err(error) => Err(NoPart::Text(Stop::of(error))),
    }
}

/// Parses the bytes of a pointer.
fn read_pointer(alloc: Global, bytes: &[u8]) -> Result<Pointer, NoPart>
    ensures { MatchResult result
        (λ p. IsUtf8 bytes.now × (chars bytes.now ≡ pointer_text (tokens_of p)))
        (IsUnread bytes.now) }
{
    let text = match str::from_utf8(bytes) {
        Ok(text) => text,
        Err(error) => return Err(NoPart::NotUtf8(error.valid_up_to())),
    };
    match Pointer::parse(alloc, text) {
        Ok(pointer) => Ok(pointer),
        Err(PointerError::OutOfMemory) => Err(NoPart::Text(Stop::OutOfMemory)),
        Err(_) => Err(NoPart::BadPointer),
    }
}

/// The normal form of the part of a document.
fn written(alloc: Global, pointer: &Pointer, document: &Document) -> Result<Vec<u8>, NoPart>
    ensures { IsWritten (part_at (document_tree document.now) (tokens_of pointer.now)) result }
{
    let Some(part) = pointer.find_part(document.root()) else {
        return Err(NoPart::NotFound);
    };
    let mut written = Vec::new(alloc);
    match part.write_to(alloc, &mut written) {
        Ok(()) => Ok(written),
        Err(_) => Err(NoPart::Text(Stop::OutOfMemory)),
    }
}
