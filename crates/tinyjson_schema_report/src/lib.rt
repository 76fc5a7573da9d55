//! What a value violates of a JSON Schema, where in its text, and the report of it; and why a schema can't be applied.
//!
//! ```
//! if let Some(finding) = find(&schema, &value, limits_of(text.len()), alloc)? {
//!     let report = output_unit(alloc, None, &finding)?; // {"error":"must be at most 10, is 12",..,"valid":false}
//! }
//! ```
#![tactic(auto)]

mod brief;
mod count;
mod ending;
mod every;
mod fault;
mod found;
mod keyword;
mod kind;
mod located;
mod meta;
mod missing;
mod nearest;
mod refused;
mod report;
mod verdict;
mod violated;

pub use every::find_every;
pub use found::{Finding, find, find_by, limits_of};
pub use located::{Located, locate, locate_every, located_unit};
pub use meta::{MetaError, MetaSchemas};
pub use refused::{Refusal, refused_words};
pub use report::output_unit;
pub use verdict::{Cause, DEPTH_LIMIT, Every, Judge, Verdict, check_as, check_text};
pub use violated::{Places, words};
