//! Picks the scalar members of a text's outermost object that have wanted keys, without building the rest.
#![tactic(auto)]

mod picking;
#[cfg(test)]
mod tests;

pub use picking::{Wanted, pick_members};
