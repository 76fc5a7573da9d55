//! Texts that are lines.
ghost use Rattle.std.specs.Prelude.{◌≡◌, ◌≢◌, ◌++◌, ◌∷◌, [], List, MatchResult, Some};
ghost use Rattle.std.specs.Prelude.{encode_utf8_all};
ghost use Rattle.tinyjson.specs.Words.{Tree, compact};
ghost use Rattle.tinyjson_c.specs.Lines.{AreLines, IsStoppedAt, first_line, later_lines, lines_text};
ghost use Rattle.tinyjson_c.specs.Stop.{IsStopped, IsTextOf};
ghost use Rattle.tinyjson_grammar.specs.Characters.{line_feed};

use crate::stop::{Stop, text_of};
use std::alloc::Global;
use tinyjson_bytes::line_end;
use tinyjson_normal::NormalReader;

/// A line without an answer: its index from 0, and why.
#[derive(Clone, Copy)]
pub(crate) struct StoppedLine {
    pub(crate) number: usize,
    pub(crate) stop: Stop,
}

/// The normal form of each line, each with a line feed.
pub(crate) fn normal_lines(
    alloc: Global,
    bytes: &[u8],
    depth: usize,
) -> Result<Vec<u8>, StoppedLine>
    ensures { MatchResult result (λ v. (ts : List Tree) × AreLines (Some depth) bytes.now ts
        × (v.items ≡ lines_text ts))
        (λ s. IsStoppedAt (Some depth) bytes.now s.number s.stop) }
{
    let mut reader = NormalReader::new(alloc);
    let mut written = Vec::new(alloc);
    let mut rest = bytes;
    let mut number = 0;
    while !rest.is_empty() {
        let (line, later) = split_line(rest);
        match push_line(&mut reader, line, depth, &mut written) {
            Ok(()) => {}
            Err(stop) => return Err(StoppedLine { number, stop }),
        }
        rest = later;
        number += 1;
    }
    Ok(written)
}

/// The first line without its line feed, and the lines after it.
pub(crate) fn split_line(bytes: &[u8]) -> (&[u8], &[u8])
    ensures line { result.0.now ≡ first_line bytes.now }
    ensures later { result.1.now ≡ later_lines bytes.now }
{
    let end = line_end(bytes);
    if end == bytes.len() {
        return (bytes, &[]);
    }
    (&bytes[..end], &bytes[end + 1..])
}

/// Appends the normal form of a line, and a line feed.
fn push_line(
    reader: &mut NormalReader,
    line: &[u8],
    depth: usize,
    written: &mut Vec<u8>,
) -> Result<(), Stop>
    ensures { MatchResult result (λ _. (t : Tree) × IsTextOf (Some depth) line.now t
        × (written.new.items ≡ written.old.items
        ++ (encode_utf8_all (compact t) ++ line_feed ∷ [])))
        (IsStopped (Some depth) line.now) }
{
    let text = match text_of(line) {
        Ok(text) => text,
        Err(stop) => return Err(stop),
    };
    let mut normal = match reader.read(text, Some(depth)) {
        Ok(normal) => normal,
        Err(error) => return Err(Stop::of(error)),
    };
    match normal.write_line_to(reader.allocator(), written) {
        Ok(()) => {}
        Err(_) => return Err(Stop::OutOfMemory),
    }
    reader.reuse(normal);
    Ok(())
}
