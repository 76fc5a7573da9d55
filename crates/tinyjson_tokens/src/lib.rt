//! Where the characters of a JSON text come from, and its tokens: the letters of a literal, strings and numbers.
//!
//! A source gives characters: any iterator, or the bytes of a text in memory. Contracts of sources know nothing of the
//! grammar but its classes of characters. Those of tokens say what a call did in the words of the machine over single
//! characters, so they are no public surface: a program takes `tinyjson` alone, whose contracts are in the grammar's words.
#![tactic(auto)]

mod cursor;
mod escape;
mod number;
mod place;
mod reader;
mod source;
mod string;
mod text;
mod tokens;
mod utf16;

#[doc(hidden)]
pub use cursor::Characters;
#[doc(hidden)]
pub use reader::TokenReader;
#[doc(hidden)]
pub use source::{Lent, Source};
#[doc(hidden)]
pub use text::TextBytes;
#[doc(hidden)]
pub use tokens::Tokens;
