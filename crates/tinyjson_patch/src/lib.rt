//! Changes to a JSON value that are themselves described in JSON.
//!
//! JSON Patch (RFC 6902) is a list of operations. A [`Patch`] is read from its document, and is applied as a
//! whole or not at all:
//!
//! ```
//! let patch = Patch::from_value(alloc, &document)?;
//! patch.apply(alloc, &mut value)?;
//! let patched = patch_document(alloc, &patch, document.root(), 1_000)?; // of a document, without building a value
//! write_patched(alloc, &patch, document.root(), 1_000, &mut output)??; // its text alone
//! ```
//!
//! JSON Merge Patch (RFC 7396) is a value. Its members are merged into the target, and `null` removes a
//! member:
//!
//! ```
//! let merged = merge(target, &patch, alloc)?;
//! let merged = merge_documents(alloc, target.root(), patch.root())?; // of documents, without building a value
//! ```
#![tactic(auto)]

mod among;
mod boxes;
mod document;
mod edit;
mod fault;
mod merge_document;
mod merge_patch;
mod operation;
mod patch;
mod run;

pub use edit::{EditError, patch_document, write_patched};
pub use fault::{Fault, Member, PatchError};
pub use merge_document::{merge_documents, merge_into};
pub use merge_patch::merge;
pub use operation::{Operation, OperationError, Reason};
pub use patch::{ApplyError, Patch};
