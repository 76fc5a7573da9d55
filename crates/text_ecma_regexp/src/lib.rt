//! Regular expressions of ECMA-262, 15th edition (2024).
//!
//! ```
//! assert!(rt; is_regex("[0-9]{4}(?=-)"));
//! ```
#![tactic(auto)]

mod captures;
mod class;
mod escape;
mod letters;
mod names;
mod newer;
mod property;
mod property_names;
mod quantifier;
mod regex;

pub use regex::is_regex;
