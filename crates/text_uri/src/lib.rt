//! URI references (RFC 3986), split, resolved and made without decoding or validating them.
//!
//! ```
//! let target = resolve(alloc, "http://example.com/a/b", "../c#d")?;
//! assert_eq!(rt; target.as_str(), "http://example.com/c#d");
//! ```
#![tactic(auto)]

mod cutting;
mod dots;
mod laws;
mod parts;
mod relative;
mod resolving;

pub use cutting::{Ends, cut};
pub use laws::{fragment_of_parts, text_of_parts};
pub use relative::relative_reference;
pub use resolving::{fragment, resolve, without_fragment};
