//! What leads from one JSON value to another.
//!
//! A JSON Patch (RFC 6902), or a JSON Merge Patch (RFC 7396), with no more than what differs:
//!
//! ```
//! let patch = patch_diff(alloc, old.root(), new.root())?; // from {"a":1} to {} it is [{"op":"remove","path":"/a"}]
//! let patch = merge_diff(alloc, old.root(), new.root())?; // and {"a":null}
//! ```
#![tactic(auto)]

mod document;
mod merge;
mod parts;
mod patch;
mod step;

pub use merge::{NoMergePatch, merge_diff};
pub use patch::patch_diff;
