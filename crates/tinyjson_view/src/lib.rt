//! One type for a tree that is read, whatever holds it: a document or a `JsonValue`.
//!
//! ```
//! let view = value.as_view(); // of a `&JsonValue` or of a node
//! let members = view.members(alloc)?;
//! ```
#![tactic(auto)]

mod parts;
mod view;

pub use view::{AsView, MemberView, ValueView};
