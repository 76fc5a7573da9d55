//! Applies a patch to a text (RFC 6902).
ghost use Rattle.std.specs.Prelude.{◌≡◌, MatchResult, Ok, encode_utf8_all};
ghost use Rattle.tinyjson.specs.View.{view};
ghost use Rattle.tinyjson.specs.Words.{Tree, compact};
ghost use Rattle.tinyjson_c.specs.Patch.{AppliesDocument, IsOutcome, IsUnpatched, Patches};
ghost use Rattle.tinyjson_c.specs.Patch.{unpatched_place, unpatched_status};
ghost use Rattle.tinyjson_patch.specs.Patch.{actions_of, all_applied};

use crate::merge::patch_depth;
use crate::place::TinyjsonPlace;
use crate::status::{BAD_PATCH, FAILED};
use crate::stop::Stop;
use crate::value::{read, written};
use std::alloc::Global;
use tinyjson::JsonValue;
use tinyjson_patch::{ApplyError, Patch, PatchError};

/// Why nothing is patched.
#[derive(Clone, Copy)]
pub(crate) enum Unpatched {
    /// The text is no JSON, or memory ran out.
    Text(Stop),
    /// The patch is no JSON, or memory ran out.
    Patch(Stop),
    /// The item with this index is no operation. It is 0 if the patch is no array.
    BadPatch(usize),
    /// The operation with this index can't be applied.
    Failed(usize),
}

impl Unpatched {
    /// Fills the place, and returns the status.
    pub(crate) fn put(self, place: &mut TinyjsonPlace) -> u32
        ensures status { result ≡ unpatched_status self }
        ensures place { place.new ≡ unpatched_place self }
    {
        match self {
            Unpatched::Text(stop) => stop.put(0, place),
            Unpatched::Patch(stop) => stop.put(1, place),
            Unpatched::BadPatch(number) => {
                *place = TinyjsonPlace::of_length(1, number);
                BAD_PATCH
            }
            Unpatched::Failed(number) => {
                *place = TinyjsonPlace::of_length(1, number);
                FAILED
            }
        }
    }
}

/// The normal form of a text after the operations of a patch. The text is read first.
pub(crate) fn patched(
    alloc: Global,
    text: &[u8],
    patch: &[u8],
    depth: usize,
) -> Result<Vec<u8>, Unpatched>
    ensures { MatchResult result (λ v. (u : Tree) × Patches depth text.now patch.now (Ok u)
        × (v.items ≡ encode_utf8_all (compact u)))
        (IsUnpatched depth text.now patch.now) }
{
    let value = match read(alloc, text, depth) {
        Ok(value) => value,
        Err(stop) => return Err(Unpatched::Text(stop)),
    };
    let document = match read(alloc, patch, patch_depth(depth)) {
        Ok(document) => document,
        Err(stop) => {
            value.dismantle();
            return Err(Unpatched::Patch(stop));
        }
    };
    apply_document(alloc, value, document)
}

/// The normal form of a value after the operations of a document.
fn apply_document(
    alloc: Global,
    value: JsonValue,
    document: JsonValue,
) -> Result<Vec<u8>, Unpatched>
    ensures { AppliesDocument (view document) (view value) result }
{
    let mut value = value;
    let answer = match Patch::from_value(alloc, &document) {
        Ok(patch) => apply(alloc, &patch, &mut value),
        Err(PatchError::OutOfMemory) => Err(Unpatched::Text(Stop::OutOfMemory)),
        Err(PatchError::NoArray) => Err(Unpatched::BadPatch(0)),
        Err(PatchError::Malformed(number, _)) => Err(Unpatched::BadPatch(number)),
    };
    value.dismantle();
    document.dismantle();
    answer
}

/// The normal form of a value after the operations of a patch.
fn apply(alloc: Global, patch: &Patch, value: &mut JsonValue) -> Result<Vec<u8>, Unpatched>
    ensures { IsOutcome (all_applied 0 (actions_of patch.now) (view value.old)) result }
{
    match patch.apply(alloc, value) {
        Ok(()) => {}
        Err(ApplyError::Failed(number, _)) => return Err(Unpatched::Failed(number)),
        Err(ApplyError::OutOfMemory) => return Err(Unpatched::Text(Stop::OutOfMemory)),
    }
    match written(alloc, value) {
        Ok(text) => Ok(text),
        Err(_) => Err(Unpatched::Text(Stop::OutOfMemory)),
    }
}
