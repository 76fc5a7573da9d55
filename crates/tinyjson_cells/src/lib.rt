//! What documents and normal text share: cells, which stand for values in a few vectors, with their texts as ranges of
//! what was read; and members in the order of their keys.
#![tactic(auto)]

pub mod append;
pub mod ranking;
pub mod sorting;
pub mod store;
pub mod texts;
