//! JSON documents to be read: a text is parsed once into a tree in a few vectors, with no map for each object. A
//! node is a value in it, and is copied like an index.
#![tactic(auto)]

mod arena;
pub mod document;
mod equality;
mod events;
pub mod iterators;
mod layout;
pub mod node;
pub mod number;
mod quick;
mod reader;
mod sending;
mod text;
pub mod view;
mod walk;

pub use arena::Arena;
pub use document::Document;
pub use events::NodeEvents;
pub use iterators::{Items, Members};
pub use node::Node;
pub use number::NumberView;
pub use reader::DocumentReader;
pub use sending::{copy, replay};
pub use view::JsonView;
