//! The grammar of JSON texts, and what is proved of it without any code. A machine over single characters accepts
//! exactly the texts of the grammar, each with its one tree. Each of its errors has all that is promised of an error.
//!
//! The crate `tinyjson` uses it and re-exports its names: a program takes `tinyjson` alone.
#![tactic(auto)]

mod error;
mod kind;

pub use error::JsonParseErrorKind;
pub use kind::JsonKind;
