//! Normalizes a text without building a value. Its normal text is made while it is parsed; if members
//! would be moved too often, it is written from an arena instead.
#![tactic(auto)]

mod compact;
pub mod normal;
pub mod reader;

pub use compact::Compact;
pub use normal::{NormalText, is_normal};
pub use reader::NormalReader;
