//! The subschemas of a schema in a table, each with what a check looks up in it.
//!
//! ```
//! let table = Table::of(&schema, alloc)?;
//! let known = table.first();
//! ```
#![tactic(auto)]

mod constraints;
mod given;
mod known;
mod link;
mod marks;
mod shape;
mod table;
mod values;

pub use constraints::{assertions, unmet_given};
pub use given::Given;
pub use known::known_part;
pub use link::Way;
pub use marks::{mark_of, marks_of};
pub use shape::Shape;
pub use table::{Known, Table};
