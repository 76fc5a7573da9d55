//! Counts the values of each kind in a JSON text, without building a value.
//!
//! ```
//! let counts = count_values(alloc, "[1, 2, {\"a\": null}]")?;
//! assert_eq!(rt; counts.numbers, 2);
//! ```
#![tactic(auto)]

mod counts;
#[cfg(test)]
mod tests;

pub use counts::{Counts, add_values, count_values};
