//! Documents of texts that are read one after another, as lines are, each in the memory of the one before.
//!
//! ```
//! let buffers = Buffers::new(alloc);
//! let document = buffers.read("[1]")?;
//! buffers.recycle(document);
//! let document = buffers.read("[2]")?; // in the same memory
//! ```
#![tactic(auto)]

mod buffers;

pub use buffers::Buffers;
