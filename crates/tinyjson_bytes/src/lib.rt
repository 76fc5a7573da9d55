//! What works on bytes alone. Runs of plain characters, white space, digits and the rest of a line are found sixteen
//! at a time. Copies and comparisons are made by vectors. Keys are put in order by numbers, and members near their
//! order first.
//!
//! It is part of the inside of `tinyjson`, which a program takes alone.
#![tactic(auto)]

mod compare;
mod copies;
mod plain;
mod ranking;
mod runs;
mod sorting;

pub use compare::{are_equal, is_below};
pub use copies::{copy, put};
pub use plain::{Plain, is_plain, plain_end};
pub use ranking::{Keys, place_mask, rank};
pub use runs::{Class, Digit, digits_end, is_white, line_end, white_end};
pub use sorting::presort;
