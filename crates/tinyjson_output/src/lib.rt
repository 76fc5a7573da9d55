//! What a writer gets: the bytes of a buffer before it, which holds 4,096, the texts of numbers and of strings,
//! and what separates values.
//!
//! It is part of the inside of `tinyjson`, which a program takes alone. Its contracts say what is written and what is
//! buffered.
#![tactic(auto)]

mod buffer;
mod layout;
mod number;
mod strings;

pub use buffer::{
    Buffer, flush, quick_key, quick_number, quick_text, quick_word, write_all, write_bytes,
};
pub use layout::{separate, write_colon, write_newline};
pub use number::write_number;
pub use strings::quote;
