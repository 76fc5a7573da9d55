//! JSON pointers (RFC 6901): each names a part of a JSON value, and the place at which that part begins in a text.
//!
//! ```
//! let pointer = Pointer::parse(alloc, "/port")?;
//! let part = pointer.find(&value);
//! let place = place_of(alloc, "{\n  \"port\": 80\n}", &pointer)?; // byte 12, line 2, column 11
//! let place = key_place_of(alloc, "{\n  \"port\": 80\n}", &pointer)?; // byte 4, line 2, column 3
//! ```
#![tactic(auto)]

mod array_index;
mod change;
mod parse;
mod place;
mod pointer;
mod siblings;
mod view;
mod walk;

pub use array_index::index;
pub use change::{InsertError, insertion_index, put_member};
pub use place::{Place, key_place_in, key_place_of, place_in, place_of};
pub use pointer::{Pointer, PointerError};
pub use view::child_part;
pub use walk::child;
