//! The laws over the definitions that the contracts of `tinyjson` cite: the grammar, the written texts,
//! and the trees that values are seen as.
//!
//! Each law is the contract of a public function. Most of them do nothing, and their statements are in
//! `specs/` under the name of the function's module; those of `headline` and `round_trips`, and
//! `values::have_one_text`, read, write and compare.
#![tactic(auto)]

pub mod calls;
pub mod headline;
pub mod layout;
pub mod members;
pub mod numbers;
pub mod positions;
pub mod prefixes;
pub mod reading;
pub mod refusals;
pub mod round_trips;
pub mod strings;
pub mod values;
pub mod white_space;
pub mod writing;
