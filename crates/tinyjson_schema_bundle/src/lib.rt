//! Makes a document with several schema resources (JSON Schema 2020-12) a single one: each reference by a URI, a
//! name or a dynamic scope becomes a pointer from the root.
//!
//! ```
//! let document = bundled(&tree, alloc)?;
//! ```
#![tactic(auto)]

mod bundle;
mod copies;
mod guide;
mod mark;
mod place;
mod scope;

pub use bundle::{bundle_of, bundled};
