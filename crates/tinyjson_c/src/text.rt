//! Parses texts, and writes them in normal form.
ghost use Rattle.std.specs.Prelude.{◌≡◌, IfErr, IfOk, MatchResult, Some, codes, encode_utf8_all};
ghost use Rattle.std.specs.Str.{chars};
ghost use Rattle.tinyjson.specs.Words.{Tree, compact, indented};
ghost use Rattle.tinyjson_c.specs.Stop.{IsAcceptedText, IsStopped, IsTextOf};
ghost use Rattle.tinyjson_grammar.specs.Refusal.{MayGrow};
ghost use Rattle.tinyjson_normal.specs.Normal.{HasTree};

use crate::stop::{Stop, text_of};
use std::alloc::Global;
use tinyjson::check_with_depth_limit;
use tinyjson_normal::NormalText;

/// Parses a text with at most `depth` nested containers, and keeps nothing.
pub(crate) fn check(alloc: Global, bytes: &[u8], depth: usize) -> Result<(), Stop>
    ensures answer { MatchResult result (λ _. IsAcceptedText (Some depth) bytes.now)
        (IsStopped (Some depth) bytes.now) }
    ensures memory { result ≡ Err Stop.OutOfMemory → MayGrow (chars bytes.now) }
{
    let text = match text_of(bytes) {
        Ok(text) => text,
        Err(stop) => return Err(stop),
    };
    match check_with_depth_limit(alloc, text, depth) {
        Ok(()) => Ok(()),
        Err(error) => Err(Stop::of(error)),
    }
}

/// Parses a text with at most `depth` nested containers.
fn read(alloc: Global, bytes: &[u8], depth: usize) -> Result<NormalText, Stop>
    ensures { MatchResult result (λ n. (t : Tree) × IsTextOf (Some depth) bytes.now t × HasTree n t)
        (IsStopped (Some depth) bytes.now) }
{
    let text = match text_of(bytes) {
        Ok(text) => text,
        Err(stop) => return Err(stop),
    };
    match NormalText::read_with_depth_limit(alloc, text, depth) {
        Ok(normal) => Ok(normal),
        Err(error) => Err(Stop::of(error)),
    }
}

/// The normal form of a text.
pub(crate) fn normal(alloc: Global, bytes: &[u8], depth: usize) -> Result<Vec<u8>, Stop>
    ensures { MatchResult result (λ v. (t : Tree) × IsTextOf (Some depth) bytes.now t
        × (v.items ≡ encode_utf8_all (compact t))) (IsStopped (Some depth) bytes.now) }
{
    let text = match read(alloc, bytes, depth) {
        Ok(text) => text,
        Err(stop) => return Err(stop),
    };
    match text.into_bytes(alloc) {
        Ok(written) => Ok(written),
        Err(_) => Err(Stop::OutOfMemory),
    }
}

/// A text indented with two spaces, in the order of its keys.
pub(crate) fn indented(alloc: Global, bytes: &[u8], depth: usize) -> Result<Vec<u8>, Stop>
    ensures { MatchResult result (λ v. (t : Tree) × IsTextOf (Some depth) bytes.now t
        × (v.items ≡ encode_utf8_all (indented t (codes "  ") 0)))
        (IsStopped (Some depth) bytes.now) }
{
    let text = match read(alloc, bytes, depth) {
        Ok(text) => text,
        Err(stop) => return Err(stop),
    };
    let mut written = Vec::new(alloc);
    match text.format_to(alloc, &mut written) {
        Ok(()) => Ok(written),
        Err(_) => Err(Stop::OutOfMemory),
    }
}
