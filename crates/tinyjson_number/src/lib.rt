//! Exact decimal numbers, as JSON text spells them (RFC 8259, section 6).
//!
//! A [`JsonNumber`] is zero, or a sign, digits that neither begin nor end with `0`, and a power of ten
//! in the range of `i64`. Each number has one such form, so equal numbers have equal texts.
//!
//! The crate `tinyjson` uses it and re-exports its names: a program takes `tinyjson` alone.
#![tactic(auto)]

mod digits;
mod error;
mod inline;
mod integer;
mod limbs;
mod long_division;
mod multiple;
mod number;
mod order;
mod parse;
mod scan;
mod short;
mod text;

pub use error::{JsonNumberError, LiteralError};
pub use number::JsonNumber;
#[doc(hidden)]
pub use parse::ready_number_at;
pub use parse::{ExponentParts, NumberParts};
#[doc(hidden)]
pub use scan::{has_leading_zero, number_at};
pub use text::Layout;
