//! Users of the crate `tinyjson`, and the tests of it and of the crates below it.
#![tactic(auto)]

pub mod access;
#[cfg(test)]
mod common;
pub mod conversions;
#[cfg(test)]
mod deep_memory;
pub mod equality;
#[cfg(test)]
mod memory;
