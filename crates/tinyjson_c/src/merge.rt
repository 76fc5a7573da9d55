//! Merges a patch into a target (RFC 7396).
ghost use Rattle.std.specs.Prelude.{◌≡◌, IfOk, MatchResult, encode_utf8_all};
ghost use Rattle.tinyjson.specs.View.{view};
ghost use Rattle.tinyjson.specs.Words.{Tree, compact};
ghost use Rattle.tinyjson_c.specs.Merge.{IsNoMerge, Merges};
ghost use Rattle.tinyjson_c.specs.Merge.{no_merge_place, no_merge_status, patch_depth};
ghost use Rattle.tinyjson_patch.specs.Merge.{merge_patch};

use crate::place::TinyjsonPlace;
use crate::stop::Stop;
use crate::value::{read, written};
use std::alloc::{AllocError, Global};
use tinyjson::JsonValue;
use tinyjson_patch::merge;

/// How many containers may be nested in a patch, whatever the limit of the call: changes take stack with its
/// nesting.
const PATCH_DEPTH: usize = 1_000;

/// The limit on the depth of a patch.
pub(crate) fn patch_depth(depth: usize) -> usize
    ensures { result ≡ patch_depth depth }
{
    depth.min(PATCH_DEPTH)
}

/// Why nothing is merged.
#[derive(Clone, Copy)]
pub(crate) enum NoMerge {
    /// The target is no JSON, or memory ran out.
    Target(Stop),
    /// The patch is no JSON, or memory ran out.
    Patch(Stop),
}

impl NoMerge {
    /// Fills the place, and returns the status.
    pub(crate) fn put(self, place: &mut TinyjsonPlace) -> u32
        ensures status { result ≡ no_merge_status self }
        ensures place { place.new ≡ no_merge_place self }
    {
        match self {
            NoMerge::Target(stop) => stop.put(0, place),
            NoMerge::Patch(stop) => stop.put(1, place),
        }
    }
}

/// The normal form of a target with a patch merged into it. The target is read first.
pub(crate) fn merged(
    alloc: Global,
    target: &[u8],
    patch: &[u8],
    depth: usize,
) -> Result<Vec<u8>, NoMerge>
    ensures { MatchResult result (λ v. (m : Tree) × Merges depth target.now patch.now m
        × (v.items ≡ encode_utf8_all (compact m)))
        (IsNoMerge depth target.now patch.now) }
{
    let value = match read(alloc, target, depth) {
        Ok(value) => value,
        Err(stop) => return Err(NoMerge::Target(stop)),
    };
    let change = match read(alloc, patch, patch_depth(depth)) {
        Ok(change) => change,
        Err(stop) => {
            value.dismantle();
            return Err(NoMerge::Patch(stop));
        }
    };
    match merged_text(alloc, value, change) {
        Ok(text) => Ok(text),
        Err(AllocError) => Err(NoMerge::Target(Stop::OutOfMemory)),
    }
}

/// The normal form of a value with another merged into it.
fn merged_text(alloc: Global, target: JsonValue, patch: JsonValue) -> Result<Vec<u8>, AllocError>
    ensures { IfOk result (λ v.
        v.items ≡ encode_utf8_all (compact (merge_patch (view target) (view patch)))) }
{
    let answer = merge(target, &patch, alloc);
    patch.dismantle();
    let merged = match answer {
        Ok(merged) => merged,
        Err(error) => return Err(error),
    };
    let text = written(alloc, &merged);
    merged.dismantle();
    text
}
