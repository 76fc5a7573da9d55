//! JSON Schema 2020-12: a schema is checked once before use, and then values are checked against it.
//! ```
//! let schema = Schema::read(&tree, alloc)?;
//! let place = schema.invalid_place(&value, 200, alloc)?;
//! ```
#![tactic(auto)]

mod applied;
mod assertions;
mod circles;
mod contains;
mod lead;
mod leads;
mod own_name;
mod part;
mod refused;
mod schema;
mod settled;
mod validate;
mod violation;
mod walk;

pub use schema::{Checks, Limits, Schema, SchemaError};
pub use tinyjson_schema_assertions::unknown_formats;
pub use tinyjson_schema_keywords::unknown_words;
pub use violation::Violation;
pub use walk::CheckError;
